// Why bytes are no job.
ghost use Rattle.std.specs.Rc.{rc_str_bytes};
ghost use Rattle.law_jobs.specs.Outcomes.{DuplicateFault, LiteralFault, UnknownFault};
ghost use Rattle.smt_job_terms.specs.ReadAs.{IsFault};

use smt_sexpr::SExprParseError;
use smt_term::{TermError, Text};
use std::alloc::{AllocError, AllocFailed};
use thiserror::Error;

/// Why the bytes are no job. Of several faults it is the first: that of the length, then that of the text as one expression,
/// and then the first from the left. A step's own faults come before `Unbalanced`. Within a term its form comes first, then its
/// own names, types and literals, then its parts in order, then whether it takes them.
#[derive(Debug, PartialEq, Eq, Drop, Error)]
pub enum JobError {
    /// There are more than 16777216 bytes.
    #[error("the job is longer than 16777216 bytes")]
    TooLarge,
    /// The bytes are no expression: the first fault of a token, or else of a bracket. It is none of `TooDeep` and `Memory`.
    #[error("{0}")]
    Parse(SExprParseError),
    /// More than 512 brackets are open at a place.
    #[error("more than 512 brackets are open")]
    TooDeep,
    /// A section, a declaration, a step or a term has no form.
    #[error("the job has not the form (job (enums ..) (vars ..) (funs ..) (terms ..)) or (job .. (steps ..))")]
    BadForm,
    /// No variable, function or form of terms has this name.
    #[error("unknown name {0}")]
    UnknownName(Text),
    /// An enum type, a variable, a function or an attribute has a name that was given before.
    #[error("duplicate name {0}")]
    DuplicateName(Text),
    /// A type has no form.
    #[error("a type has no form")]
    BadType,
    /// A width is no numeral from 1 to 128, or none from 0 to 127 for `zero_extend`.
    #[error("a width is out of bounds")]
    BadWidth,
    /// A literal's text has no value. Of `bv` it is the number, in decimal.
    #[error("bad literal {0}")]
    BadLiteral(Text),
    /// An operator or a set does not take parts of these types.
    #[error("a term is ill typed")]
    IllTyped,
    /// A whole term is no Boolean.
    #[error("a term is no Boolean")]
    NotBool,
    /// A step closes a level where none is open.
    #[error("a step closes a level where none is open")]
    Unbalanced,
    /// There was no memory for the job.
    #[error("out of memory for the job")]
    Memory,
}

/// The refusal of a name that nothing has.
pub fn unknown(name: &Text) -> JobError
    ensures { IsFault result (UnknownFault (rc_str_bytes name.now)) }
{
    match name.clone() {
        Ok(name) => JobError::UnknownName(name),
        Err(_) => JobError::Memory,
    }
}

/// The refusal of a name that was given before.
pub fn duplicate(name: &Text) -> JobError
    ensures { IsFault result (DuplicateFault (rc_str_bytes name.now)) }
{
    match name.clone() {
        Ok(name) => JobError::DuplicateName(name),
        Err(_) => JobError::Memory,
    }
}

/// The refusal of a text that is no literal.
pub fn bad_literal(text: &Text) -> JobError
    ensures { IsFault result (LiteralFault (rc_str_bytes text.now)) }
{
    match text.clone() {
        Ok(text) => JobError::BadLiteral(text),
        Err(_) => JobError::Memory,
    }
}

impl From<AllocError> for JobError {
    ghost use Rattle.std.specs.Prelude.{◌≡◌};
    ghost use Rattle.smt_job_terms.specs.declared.error.JobError.TheVariants.{Memory};

    ghost from_gives = { λ _ error. error ≡ Memory };

    fn from(_error: AllocError) -> JobError {
        JobError::Memory
    }
}

impl<T: Drop> From<AllocFailed<T>> for JobError {
    ghost use Rattle.std.specs.Prelude.{◌≡◌};
    ghost use Rattle.smt_job_terms.specs.declared.error.JobError.TheVariants.{Memory};

    ghost from_gives = { λ _ error. error ≡ Memory };

    fn from(_error: AllocFailed<T>) -> JobError {
        JobError::Memory
    }
}

impl From<TermError> for JobError {
    ghost use Rattle.std.specs.Prelude.{◌≡◌};
    ghost use Rattle.smt_job_terms.specs.declared.error.JobError.TheVariants.{Memory};

    ghost from_gives = { λ _ error. error ≡ Memory };

    fn from(error: TermError) -> JobError {
        match error {
            TermError::Memory => JobError::Memory,
        }
    }
}

impl From<SExprParseError> for JobError {
    ghost use Rattle.std.specs.Prelude.{◌≡◌};
    ghost use Rattle.smt_sexpr.specs.declared.error.SExprParseError.TheVariants.{};
    ghost use Rattle.smt_sexpr.specs.declared.error.SExprParseError.TheVariants.{Memory as NoMemory};
    ghost use Rattle.law_jobs.specs.Outcomes.{FormFault};
    ghost use Rattle.smt_job_terms.specs.ReadAs.{IsFault};
    ghost use Rattle.smt_job_terms.specs.declared.error.JobError.TheVariants.{Memory};

    // Where the text is no expression, `first_fault` answers why; until then it has no form.
    ghost from_gives = { λ cause error.
        (cause ≡ NoMemory → error ≡ Memory) × IsFault error FormFault };

    fn from(cause: SExprParseError) -> JobError {
        match cause {
            SExprParseError::Memory => JobError::Memory,
            _ => JobError::BadForm,
        }
    }
}
