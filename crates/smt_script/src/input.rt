// Reading a whole input.
ghost use Rattle.std.specs.Prelude.{◌≡◌, ◌<◌, ◌≤◌, length, vec_len, IfOk, IfSome, IsErrOf};
ghost use Rattle.std.specs.Prelude.{IsOkUnless};
ghost use Rattle.smt_script.specs.Sink.{Rose};
ghost use Rattle.smt_script.specs.Input.{ReadsAll, ReadsOn};

use crate::source::{Source, SourceFault};
use std::alloc::{AllocError, Global};
use thiserror::Error;

/// How many bytes one read asks for.
const PIECE: usize = 65536;

/// Why an input was not read whole.
#[derive(Clone, Copy, Debug, PartialEq, Eq, Drop, Error)]
pub enum InputError {
    /// The source failed, which its count of faults shows.
    #[error("the source of the input failed")]
    Fault,
    /// More bytes came than are allowed.
    #[error("the input is too large")]
    TooLarge,
    /// There was no memory for the bytes.
    #[error("out of memory for the input")]
    Memory,
}

impl From<SourceFault> for InputError {
    ghost use Rattle.std.specs.Prelude.{◌≡◌};
    ghost use Rattle.smt_script.specs.declared.input.InputError.TheVariants.{Fault};

    ghost from_gives = { λ _ error. error ≡ Fault };

    fn from(_fault: SourceFault) -> InputError {
        InputError::Fault
    }
}

impl From<AllocError> for InputError {
    ghost use Rattle.std.specs.Prelude.{◌≡◌};
    ghost use Rattle.smt_script.specs.declared.input.InputError.TheVariants.{Memory};

    ghost from_gives = { λ _ error. error ≡ Memory };

    fn from(_error: AllocError) -> InputError {
        InputError::Memory
    }
}

/// Reads all bytes of a source, at most `greatest`.
///
/// On an error the bytes that came are lost.
///
/// # Errors
///
/// `TooLarge` comes as soon as more than `greatest` bytes came, so a source with no end is refused
/// too. `Fault` comes where the source failed at a read, and `Memory` where there is no memory for
/// the bytes.
pub fn read_input<S: Source>(
    alloc: Global,
    source: &mut S,
    greatest: usize,
) -> Result<Vec<u8>, InputError>
    ensures all { IfOk result
        (λ bytes. ReadsAll (S.remaining source.old) (S.remaining source.new) bytes.items) }
    ensures short { IfOk result (λ bytes. vec_len bytes ≤ greatest) }
    ensures too_large { IsErrOf result InputError.TooLarge →
        IfSome (S.remaining source.old) (λ left. greatest < length left) }
    ensures cause { IsErrOf result InputError.Fault →
        Rose (S.faults source.old) (S.faults source.new) }

    // from a source that certainly fails at no read
    ensures refusal { S.never_fails source.old → IfSome (S.remaining source.old)
        (λ left. length left ≤ greatest → IsOkUnless result InputError.Memory) }
    ensures reads { ReadsOn S.remaining S.faults S.never_fails S.place source.old source.new }
{
    let mut buffer = Vec::from_elem(alloc, 0u8, PIECE)?;
    let piece = buffer.as_mut_slice();
    let mut bytes = Vec::new(alloc);
    loop {
        let count = source.read(piece)?;
        if count == 0 {
            return Ok(bytes);
        }
        if greatest - bytes.len() < count {
            return Err(InputError::TooLarge);
        }
        bytes.extend_from_slice(&piece[..count])?;
    }
}
