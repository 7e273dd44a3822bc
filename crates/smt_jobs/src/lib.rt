//! Jobs: declarations and steps as a text, read and built.
//!
//! A job is one expression, `(job (enums ..) (vars ..) (funs ..) (terms ..))`, or one with `(steps ..)` in the place of
//! `(terms ..)`, each step of them `(assert ..)`, `(push)`, `(pop)` or `(check)`. What a text has to be for that, what is built of
//! it, and what the first fault of another text is, stands in `law_jobs`. The walk over a job builds one term after the other
//! and hands it on, so no expression is kept: `read_job` keeps the steps with their terms, and `read_numbered` with the numbers
//! of these. Where nothing is folded, `read_numbered` takes a term straight from its bytes, without an expression: what it leaves
//! is read by `smt_job_terms`, so that each refusal comes from there. `read_job_expr` reads the job of an expression that is held
//! already, and `read_term_expr` a term in the language of a job.
//!
//! What the factory builds for an operator at its operands is, for most of them, the application itself. Where the operands are
//! numbered nodes, that is seen at their labels and numbers, so that the application gets its number without any term being made
//! (`applied`). Where a folding may give another term, it answers nothing, and the factory is asked.
//!
//! Read `specs/StepView.antt` and `JobView` first, which say what a job of the program says, then `Refused`, which says why bytes
//! are refused as a job, and `Applied`, which says what a number stands for that is given to an application.
#![tactic(auto, using(smt_term::specs::View::views))]

mod apply;
mod direct;
mod expressed;
mod given;
mod job;
mod label;
mod look;
mod numbered;
mod stays;
mod steps;
mod walk;

pub use apply::applied;
pub use expressed::{read_job_expr, read_term_expr};
pub use job::{GREATEST_JOB, Job, read_job, read_numbered};
pub use numbered::{NumberedJob, NumberedStep, NumberedSteps};
pub use steps::{BareStep, Section, Step, StepList};
pub use walk::StepSink;
