// Why terms are not blasted.
use smt_term::{Op, TermError, TermType};
use std::alloc::{AllocError, AllocFailed};
use thiserror::Error;

/// Why terms are not blasted.
#[derive(Debug, PartialEq, Eq, Drop, Error)]
pub enum BlastError {
    /// A term applies this operator, which has no circuit.
    #[error("an operator has no circuit")]
    Unsupported(Op),
    /// A term has this type, which is neither Bool nor a bitvector type.
    #[error("a type is neither Bool nor a bitvector type")]
    UnsupportedType(TermType),
    /// There was no memory for the new terms.
    #[error("out of memory for the new terms")]
    Memory,
}

impl From<TermError> for BlastError {
    ghost use Rattle.std.specs.Prelude.{◌≡◌};
    ghost use Rattle.smt_blast.specs.declared.error.BlastError.TheVariants.{Memory};

    ghost from_gives = { λ _ error. error ≡ Memory };

    fn from(_error: TermError) -> BlastError {
        BlastError::Memory
    }
}

impl From<AllocError> for BlastError {
    ghost use Rattle.std.specs.Prelude.{◌≡◌};
    ghost use Rattle.smt_blast.specs.declared.error.BlastError.TheVariants.{Memory};

    ghost from_gives = { λ _ error. error ≡ Memory };

    fn from(_error: AllocError) -> BlastError {
        BlastError::Memory
    }
}

impl<T: Drop> From<AllocFailed<T>> for BlastError {
    ghost use Rattle.std.specs.Prelude.{◌≡◌};
    ghost use Rattle.smt_blast.specs.declared.error.BlastError.TheVariants.{Memory};

    ghost from_gives = { λ _ error. error ≡ Memory };

    fn from(_error: AllocFailed<T>) -> BlastError {
        BlastError::Memory
    }
}
