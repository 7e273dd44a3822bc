// Why bytes are no job with an assignment, and why a term has no value.
use smt_job_terms::JobError;
use smt_sexpr::SExprParseError;
use smt_term::{TermError, Text};
use std::alloc::{AllocError, AllocFailed};
use thiserror::Error;

/// Why the bytes are no job with an assignment. Of several faults it is the first: that of the length, then that of the text as one
/// expression, then that of the form of the whole, then that of the job, then that of the entries from the left, and then that
/// something is missing. In an entry its name comes first, then whether it was given before, and then its values.
#[derive(Debug, PartialEq, Eq, Drop, Error)]
pub enum EvalError {
    /// There are more than 16777216 bytes.
    #[error("the input is longer than 16777216 bytes")]
    TooLarge,
    /// The bytes are no expression: the first fault of a token, or else of a bracket. It is none of `TooDeep` and `Memory`.
    #[error("{0}")]
    Parse(SExprParseError),
    /// More than 513 brackets are open at a place.
    #[error("more than 513 brackets are open")]
    TooDeep,
    /// A section or an entry has no form, or what stands for the type of a get is none.
    #[error("the input has not the form (eval JOB (vars ..) (funs ..) (gets ..) (selectors ..))")]
    BadForm,
    /// The job is refused.
    #[error("{0}")]
    Job(JobError),
    /// No variable, function or selector has this name.
    #[error("unknown name {0}")]
    UnknownName(Text),
    /// A name, a type, or a key in the entry of this name is given twice.
    #[error("duplicate name {0}")]
    DuplicateName(Text),
    /// What stands for a value in the entry of this name is none of its type.
    #[error("an entry of {0} is no value of its type")]
    NotValue(Text),
    /// No entry gives this, which the terms reach.
    #[error("nothing is given for {0}")]
    Missing(Text),
    /// There was no memory.
    #[error("not enough memory")]
    Memory,
}

impl From<AllocError> for EvalError {
    ghost use Rattle.std.specs.Prelude.{◌≡◌};
    ghost use Rattle.smt_eval.specs.declared.error.EvalError.TheVariants.{Memory};

    ghost from_gives = { λ _ error. error ≡ Memory };

    fn from(_error: AllocError) -> EvalError {
        EvalError::Memory
    }
}

impl<T: Drop> From<AllocFailed<T>> for EvalError {
    ghost use Rattle.std.specs.Prelude.{◌≡◌};
    ghost use Rattle.smt_eval.specs.declared.error.EvalError.TheVariants.{Memory};

    ghost from_gives = { λ _ error. error ≡ Memory };

    fn from(_error: AllocFailed<T>) -> EvalError {
        EvalError::Memory
    }
}

impl From<TermError> for EvalError {
    ghost use Rattle.std.specs.Prelude.{◌≡◌};
    ghost use Rattle.smt_eval.specs.declared.error.EvalError.TheVariants.{Memory};

    ghost from_gives = { λ _ error. error ≡ Memory };

    fn from(error: TermError) -> EvalError {
        match error {
            TermError::Memory => EvalError::Memory,
        }
    }
}
