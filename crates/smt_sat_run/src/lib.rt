//! The run of the program that solves formulas and checks proofs: a formula read from a source, and what is found of it put to a
//! sink.
//!
//! Read `specs/Run.antt` first, which says what a run does, then `Answers`, which has the texts of answers, `Causes`, which says why
//! a run is refused, `Refusal`, which has the statuses and what is said with them, and `Words`, which has the commands.
#![tactic(auto)]

mod answer;
mod command;
mod deciding;
mod lines;
mod program;
mod reading;
mod refusal;
mod value_lines;
mod values;
mod verdict;

pub use command::{Command, proof_file};
pub use program::sat_run;
pub use refusal::Refusal;
pub use verdict::{ProofRefusal, Verdict};
