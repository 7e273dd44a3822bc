//! Links to solvers of SMT-LIB scripts, the starters that make them, sessions over them that ask for decisions and models, and
//! solvers that only write their script.
//!
//! Read `link.rt`, `starter.rt` and `session.rt` first, and then `question.rt` and `model.rt`. A [`ChildStarter`] starts a
//! program as a process with its three streams piped, and gives a [`ChildLink`] to it. What the process does is outside of what
//! is proved: its link tells nothing of what was sent and read, and counts what failed. A link in memory tells all.
//!
//! What a link tells and what its calls do is defined in `specs/Link.antt`, the same of starters in `specs/Starter.antt`, of
//! sessions in `specs/Session.antt`, of the question for a decision in `specs/Question.antt` and of that for a model in
//! `specs/Model.antt`. The lines by which a solver answers are defined in `specs/Answers.antt`.
#![tactic(auto)]

mod answer;
mod child_line;
mod child_link;
mod child_starter;
mod command;
mod error;
mod failed_writer;
mod input;
mod line;
mod link;
mod list;
mod memory;
mod memory_starter;
mod model;
mod question;
mod session;
mod starter;
mod writer_solver;

pub use answer::{Decision, DecisionWithModel};
pub use child_link::ChildLink;
pub use child_starter::ChildStarter;
pub use command::{SolverCommand, TextList};
pub use error::SolverError;
pub use failed_writer::FailedWriter;
pub use input::SessionInput;
pub use line::next_line;
pub use link::{Ended, LineEnd, Link, LinkError};
pub use list::LinkList;
pub use memory::MemoryLink;
pub use memory_starter::MemoryStarter;
pub use model::MODEL_LIMIT;
pub use question::LINE_LIMIT;
pub use session::{LocalSolver, Solver};
pub use starter::{StartError, Starter};
pub use writer_solver::WriterSolver;
