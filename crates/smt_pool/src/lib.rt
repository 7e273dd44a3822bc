//! Pools of sessions with solvers, which are handed out, taken back and used again, and the question to a solver whether a
//! script has a model: a session from its start to the return of its link, or a dialogue, in which a script grows and is asked
//! about several times.
//!
//! Read `pool.rt` first, for the question `check.rt`, and for dialogues `dialogue.rt`.
//!
//! What a pool has and what its calls do is defined in `specs/Pool.antt`, sessions that no caller holds in
//! `specs/Sessions.antt`, a session that was handed out in `specs/Pooled.antt`, what comes of the question in
//! `specs/Checks.antt`, and what dialogues leave in `specs/Dialogue.antt`.
#![tactic(auto)]

mod ask;
mod check;
mod check_error;
mod config;
mod dialogue;
mod error;
mod pool;
mod pooled;
mod sessions;

pub use ask::ask_script;
pub use check::check_script;
pub use check_error::{CheckError, SessionFault};
pub use config::SolverPoolConfig;
pub use dialogue::{ask_behind, begin_dialogue, send_more};
pub use error::{PoolRefused, SolverPoolError};
pub use pool::SolverPool;
pub use pooled::PooledSolver;
