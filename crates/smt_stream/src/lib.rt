//! A small solver over streams of bytes: the run of its program, and links to it in memory.
//!
//! [`mini_run`] leads a small solver over the bytes of a source, and [`MiniStarter`] gives [`MiniLink`]s to small solvers, over which
//! a verdict rests on proofs alone. What is put at each byte is said by `law_verdicts: Streams`, what a run puts and with which
//! status it ends by `specs/Runs.antt`, and what a link does by `specs/Links.antt`.
#![tactic(auto)]

mod command;
pub mod laws;
mod link;
mod putting;
mod refusal;
mod run;
mod scanner;
mod starter;
mod stop;
mod stream;

pub use link::MiniLink;
pub use refusal::Refusal;
pub use run::mini_run;
pub use starter::MiniStarter;
