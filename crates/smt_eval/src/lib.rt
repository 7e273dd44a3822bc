//! What terms are worth in an assignment that is given, found without a solver.
//!
//! An assignment gives literals for all that terms leave open to interpretation: variables, functions, what `option.get` of none
//! gives, and selectors of IP ranges at ranges of the other family. `eval` builds a term anew over these literals, with the calls of
//! the factory, and takes on itself the four kinds of applications at literals that the factory leaves as they are. What it has to
//! answer, and that this is the literal of the term's value in the assignment's interpretation, stands in `law_assignments`.
//!
//! Read `specs/AssignmentView.antt` first, which says what an assignment of the program says. The program `smteval` reads a job with an
//! assignment from a source, and puts the truths of its terms to a sink: `Run` says what a run does, `Answers` what it puts and what
//! this is worth, and `Causes` why it is refused.
#![tactic(auto, using(smt_term::specs::View::views))]

mod answers;
mod assignment;
mod command;
mod error;
mod evaluation;
mod input;
mod missing;
mod program;
mod reading;
mod sections;
mod values;
mod written;

pub use assignment::Assignment;
pub use command::{Command, USAGE};
pub use error::EvalError;
pub use evaluation::eval;
pub use input::{EvalInput, read_eval};
pub use program::eval_run;
