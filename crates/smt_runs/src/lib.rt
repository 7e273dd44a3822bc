//! What the programs that read a job share: reading it from a source, writing its steps piece by piece, the refusals that they have in
//! common, and the frame of a run.
//!
//! Read `specs/JobTexts.antt` first, which says what the text of a job's steps is, then `Meaning`, which says what that text means,
//! `Asked`, which says what a solver is asked and when its `unsat` may be believed, and `Runs`, which says how a run ends.
#![tactic(auto, using(smt_term::specs::View::views))]

mod check;
mod dialogue;
mod errors;
pub mod laws;
mod pieces;
mod refusal;
mod script;
mod source;
mod task;

pub use check::check_steps;
pub use pieces::put_piece;
pub use refusal::{BlastRefusal, EncodeRefusal, InputRefusal, JobRefusal, Refusal};
pub use script::put_steps;
pub use source::read_source;
pub use task::{Task, Texts, run_task};
