//! The program's run: a job read from a source, and its script put to a sink, or the verdicts of a solver on it; or the summary
//! of a job that is made from a number.
//!
//! Read `specs/Run.antt` first, which says what a run does, then `Causes`, which says why one is refused, and `Words`, which has
//! the commands. `smt_runs` has the statuses and what is said with them.
//!
//! A generated job compares sums of eight variables with numbers of a generator (`specs/Generated.antt`). It shows what the
//! encoder does with many terms, and needs no bytes that are read. `specs/Generation.antt` has its summary.
#![tactic(auto, using(smt_term::specs::View::views))]

mod checking;
mod command;
mod generate;
mod generation;
pub mod laws;
mod printing;
mod program;
mod summary;
pub mod summary_laws;
mod terms;

pub use command::{Command, USAGE};
pub use program::run;
pub use smt_job_terms::{JobError, UufList, VarList};
pub use smt_jobs::{Job, Section, Step, StepList, StepSink, read_job};
pub use smt_pool::SessionFault;
pub use smt_runs::{EncodeRefusal, JobRefusal, Refusal};
pub use smt_script::{
    InputError, MemorySource, ReadSource, Source, SourceError, SourceFault, read_input,
};
