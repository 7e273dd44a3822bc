// Why a review makes no finding, and which refusal of a run that becomes.
ghost use Rattle.std.specs.Prelude.{◌≡◌};
ghost use Rattle.smt_review.specs.Refused.{encode_kind, session_kind};

use smt_encode::EncodeError;
use smt_pool::{SessionFault, SolverPoolError};
use smt_runs::{EncodeRefusal, Refusal};
use smt_solve::SolverError;
use smt_term::TermError;
use thiserror::Error;

/// Why a review makes no finding. Want of memory is `Memory`, wherever it comes from.
#[derive(Debug, PartialEq, Eq, Drop, Error)]
pub enum ReviewError {
    /// The difference of the conditions has no script.
    #[error("the difference of the conditions has no script: {0}")]
    Encode(EncodeError),
    /// The pool handed out no session.
    #[error("no session was handed out for the review: {0}")]
    Pool(SolverPoolError),
    /// The session with the solver failed.
    #[error("the session of the review failed: {0}")]
    Solver(SolverError),
    /// There was no memory.
    #[error("out of memory for the review")]
    Memory,
}

impl From<TermError> for ReviewError {
    ghost use Rattle.std.specs.Prelude.{◌≡◌};
    ghost use Rattle.smt_review.specs.declared.error.ReviewError.TheVariants.{Memory};

    ghost from_gives = { λ _ error. error ≡ Memory };

    fn from(error: TermError) -> ReviewError {
        match error {
            TermError::Memory => ReviewError::Memory,
        }
    }
}

impl From<EncodeError> for ReviewError {
    ghost use Rattle.std.specs.Prelude.{◌≡◌};
    ghost use Rattle.smt_review.specs.Errors.{encode_refusal};

    ghost from_gives = { λ error given. given ≡ encode_refusal error };

    fn from(error: EncodeError) -> ReviewError {
        match error {
            EncodeError::Memory => ReviewError::Memory,
            error => ReviewError::Encode(error),
        }
    }
}

impl From<SolverPoolError> for ReviewError {
    ghost use Rattle.std.specs.Prelude.{◌≡◌};
    ghost use Rattle.smt_review.specs.Errors.{pool_refusal};

    ghost from_gives = { λ error given. given ≡ pool_refusal error };

    fn from(error: SolverPoolError) -> ReviewError {
        match error {
            SolverPoolError::Memory => ReviewError::Memory,
            error => ReviewError::Pool(error),
        }
    }
}

impl From<SolverError> for ReviewError {
    ghost use Rattle.std.specs.Prelude.{◌≡◌};
    ghost use Rattle.smt_review.specs.Errors.{solver_refusal};

    ghost from_gives = { λ error given. given ≡ solver_refusal error };

    fn from(error: SolverError) -> ReviewError {
        match error {
            SolverError::Memory => ReviewError::Memory,
            error => ReviewError::Solver(error),
        }
    }
}

/// What an error of the encoder becomes. A difference of typed terms, a new encoder and a sink in memory give the first four alone.
fn unwritten(error: EncodeError) -> Refusal
    ensures { result ≡ encode_kind error }
{
    match error {
        EncodeError::EnumMissingMember(_) => Refusal::Encode(EncodeRefusal::EnumMissingMember),
        EncodeError::EncodeStringFailed(_) => Refusal::Encode(EncodeRefusal::EncodeStringFailed),
        EncodeError::EncodePatternFailed(_) => {
            Refusal::Encode(EncodeRefusal::EncodePatternFailed)
        }
        EncodeError::EmptyEnum(_) => Refusal::Encode(EncodeRefusal::EmptyEnum),
        _ => Refusal::Memory,
    }
}

/// What an error of a session becomes. One that had not failed before gives no `SolverMarkedFailed`.
fn unanswered(error: SolverError) -> Refusal
    ensures { result ≡ session_kind error }
{
    match error {
        SolverError::Io => Refusal::Session(SessionFault::Io),
        SolverError::Solver(_) => Refusal::Session(SessionFault::Solver),
        SolverError::UnrecognizedSolverOutput(_) => {
            Refusal::Session(SessionFault::UnrecognizedSolverOutput)
        }
        SolverError::AnswerTooLong => Refusal::Session(SessionFault::AnswerTooLong),
        SolverError::Memory | SolverError::SolverMarkedFailed => Refusal::Memory,
    }
}

impl From<ReviewError> for Refusal {
    ghost use Rattle.std.specs.Prelude.{◌≡◌};
    ghost use Rattle.smt_review.specs.Refused.{review_refusal};

    ghost from_gives = { λ why refusal. refusal ≡ review_refusal why };

    fn from(why: ReviewError) -> Refusal {
        match why {
            ReviewError::Encode(error) => unwritten(error),
            ReviewError::Pool(_) => Refusal::Start,
            ReviewError::Solver(error) => unanswered(error),
            ReviewError::Memory => Refusal::Memory,
        }
    }
}
