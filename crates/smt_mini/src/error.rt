// Why a command got no reply.
use std::alloc::{AllocError, AllocFailed};
use thiserror::Error;

/// Why a command got no reply. Behind an error no command gets one.
#[derive(Debug, PartialEq, Eq, Drop, Error)]
pub enum MiniError {
    /// The commands with this one are no script, or `exit` came before it.
    #[error("not a script")]
    NotScript,
    /// An earlier command got no reply.
    #[error("an earlier command got no reply")]
    Spent,
    /// There was no memory for the command.
    #[error("out of memory for the command")]
    Memory,
}

impl From<AllocError> for MiniError {
    ghost use Rattle.std.specs.Prelude.{◌≡◌};
    ghost use Rattle.smt_mini.specs.declared.error.MiniError.TheVariants.{Memory};

    ghost from_gives = { λ _ error. error ≡ Memory };

    fn from(_error: AllocError) -> MiniError {
        MiniError::Memory
    }
}

impl<T: Drop> From<AllocFailed<T>> for MiniError {
    ghost use Rattle.std.specs.Prelude.{◌≡◌};
    ghost use Rattle.smt_mini.specs.declared.error.MiniError.TheVariants.{Memory};

    ghost from_gives = { λ _ error. error ≡ Memory };

    fn from(_error: AllocFailed<T>) -> MiniError {
        MiniError::Memory
    }
}
