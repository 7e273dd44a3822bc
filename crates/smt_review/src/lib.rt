//! Reviews of changed conditions: what two conditions are compared by, the term that says where two conditions differ, the question to a
//! pool of solvers whether there is such a place, and the run of the program that asks it about the two terms of a job.
//!
//! Read `specs/Differences.antt` first, which says what each relation is and what no interpretation of the difference means. What a
//! review finds, and why it finds nothing, is defined in `specs/Reviews.antt`, and what a caller keeps of a pool from one review to
//! the next in `specs/Sessions.antt`. What a run of the program does and why it is refused stands in `specs/Run.antt` and `Causes`, over
//! `specs/Pairs.antt`, which says what a job of two terms is, and `specs/Once.antt`, which says what a solver shows that is started for
//! one review. `specs/Words.antt` has the commands, and `smt_runs` the statuses and what is said with them.
#![tactic(auto, using(smt_term::specs::View::views))]

mod ask;
mod command;
mod differences;
mod error;
mod finding;
pub mod laws;
mod pair;
mod program;
mod question;
mod relation;
mod reviews;

pub use command::{Command, USAGE};
pub use differences::difference;
pub use error::ReviewError;
pub use finding::Finding;
pub use program::review_run;
pub use relation::Relation;
pub use reviews::review;
pub use smt_runs::Refusal;
