// The one refusal of calls that make terms.
use std::alloc::{AllocError, AllocFailed};
use thiserror::Error;

/// What a call that makes a term or a type may refuse with.
#[derive(Clone, Copy, Debug, PartialEq, Eq, Drop, Error)]
pub enum TermError {
    /// There was no memory for the result.
    #[error("out of memory for a term")]
    Memory,
}

impl From<AllocError> for TermError {
    fn from(_error: AllocError) -> TermError {
        TermError::Memory
    }
}

impl<T: Drop> From<AllocFailed<T>> for TermError {
    fn from(_error: AllocFailed<T>) -> TermError {
        TermError::Memory
    }
}
