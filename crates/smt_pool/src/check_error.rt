// Why no verdict comes of a solver.
use thiserror::Error;

/// Why a session with a solver failed.
#[derive(Clone, Copy, Debug, PartialEq, Eq, Drop, Error)]
pub enum SessionFault {
    /// The link to the solver failed, or an answer is no UTF-8.
    #[error("the link to the solver failed, or its answer is no UTF-8")]
    Io,
    /// The solver answered with an error, or has ended.
    #[error("the solver answered with an error, or has ended")]
    Solver,
    /// The solver answered with a line that is none of those that are expected.
    #[error("the output of the solver was not recognized")]
    UnrecognizedSolverOutput,
    /// The solver answered with a line of more bytes than are read.
    #[error("the answer of the solver is too long")]
    AnswerTooLong,
}

/// Why no verdict came of a solver.
#[derive(Clone, Copy, Debug, PartialEq, Eq, Drop, Error)]
pub enum CheckError {
    /// The solver did not start.
    #[error("the solver did not start")]
    Start,
    /// The session with it failed.
    #[error("the session with the solver failed: {0}")]
    Session(SessionFault),
    /// There was no memory.
    #[error("out of memory for the question to the solver")]
    Memory,
}
