//! Why an IP range is refused.

use smt_bits::BitVecError;
use smt_text::Text;
use std::alloc::AllocError;
use thiserror::Error;

/// Why an IP range is refused.
#[derive(Debug, PartialEq, Eq, Drop, Error)]
pub enum IPError {
    /// The text writes no IP range. It is the payload.
    #[error("{0:?} is no IP range: expected an address such as 10.0.0.1 or 2001:db8::1, and behind it / and a number of bits or nothing")]
    ParseError(Text),
    /// A call on bitvectors refused. No reader answers it.
    #[error("the bits are no IP range: {0}")]
    BitVecError(BitVecError),
    /// Kept for its name. No call answers it.
    #[error("expected a decimal number below 256")]
    ExepectedOctet,
    /// There was no memory for the text of a refusal.
    #[error("out of memory")]
    Memory,
}

impl From<BitVecError> for IPError {
    ghost use Rattle.std.specs.Prelude.{◌≡◌};
    ghost use Rattle.smt_ext.specs.declared.error.IPError.TheVariants as Kinds;

    ghost from_gives = { λ refused error. error ≡ Kinds.BitVecError refused };

    fn from(error: BitVecError) -> IPError {
        IPError::BitVecError(error)
    }
}

impl From<AllocError> for IPError {
    ghost use Rattle.std.specs.Prelude.{◌≡◌};
    ghost use Rattle.smt_ext.specs.declared.error.IPError.TheVariants as Kinds;

    ghost from_gives = { λ _ error. error ≡ Kinds.Memory };

    fn from(_error: AllocError) -> IPError {
        IPError::Memory
    }
}
