// Why a pool gave no session, and why it was not opened.
ghost use Rattle.std.specs.Prelude.{◌≡◌};
ghost use Rattle.smt_pool.specs.Errors.{pool_error};

use smt_solve::SolverError;
use thiserror::Error;

/// Why a pool gave no session, or did not take one back.
#[derive(Debug, PartialEq, Eq, Drop, Error)]
pub enum SolverPoolError {
    /// The pool hands out no sessions any more. No pool answers this.
    #[error("the pool of solvers is closed")]
    SemaphoreClosed,
    /// As many sessions are handed out as may be.
    #[error("no solver of the pool is free")]
    AcquireTimeout,
    /// The solver of a new session did not start.
    #[error("no solver was started for the pool: {0}")]
    Solver(SolverError),
    /// There was no memory for a session, or for the return of its link.
    #[error("out of memory for a solver of the pool")]
    Memory,
}

/// Want of memory is the pool's own, and any other error of a session is `Solver`.
impl From<SolverError> for SolverPoolError {
    ghost from_gives = { λ error given. given ≡ pool_error error };

    fn from(error: SolverError) -> SolverPoolError {
        match error {
            SolverError::Memory => SolverPoolError::Memory,
            error => SolverPoolError::Solver(error),
        }
    }
}

/// Why a pool was not opened, with the starter that it was to have.
#[derive(Debug, Drop)]
pub struct PoolRefused<P> {
    /// `Io` where a solver did not start, or `Memory`.
    pub error: SolverError,
    /// The starter. Where the error is `Io`, all links that it gave came back to it.
    pub starter: P,
}
