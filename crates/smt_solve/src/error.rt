// Why a solver gave no answer.
ghost use Rattle.std.specs.Prelude.{◌≡◌};
ghost use Rattle.smt_solve.specs.Errors.{solver_error};

use smt_script::SinkError;
use smt_text::Text;
use thiserror::Error;

/// Why a solver gave no answer.
#[derive(Debug, PartialEq, Eq, Drop, Error)]
pub enum SolverError {
    /// The link to the solver or what takes the script failed, or the solver answered with bytes that are no UTF-8.
    #[error("the link to the solver failed, or its answer is no UTF-8")]
    Io,
    /// The solver answered with an error of this message, or has ended, as this message tells.
    #[error("the solver answered with an error, or has ended: {0}")]
    Solver(Text),
    /// The solver answered with this line, which is none of those that are expected.
    #[error("the output of the solver was not recognized: {0}")]
    UnrecognizedSolverOutput(Text),
    /// The session has failed before.
    #[error("the session with the solver has failed before")]
    SolverMarkedFailed,
    /// The solver answered with a line or a model of more bytes than are read.
    #[error("the answer of the solver is too long")]
    AnswerTooLong,
    /// There was no memory for the answer.
    #[error("out of memory for the answer of the solver")]
    Memory,
}

/// A fault of what takes the script is `Io`, and its want of memory is the solver's.
impl From<SinkError> for SolverError {
    ghost from_gives = { λ error given. given ≡ solver_error error };

    fn from(error: SinkError) -> SolverError {
        match error {
            SinkError::Fault => SolverError::Io,
            SinkError::Memory => SolverError::Memory,
        }
    }
}
