// A job, read from a source.
ghost use Rattle.std.specs.Prelude.{◌≡◌, [], IfErr, IfOk, OnOk, option_map};
ghost use Rattle.law_jobs.specs.Steps.{AreBalanced};
ghost use Rattle.smt_jobs.specs.Numbered.{numbered_steps};
ghost use Rattle.smt_script.specs.Sink.{Rose};
ghost use Rattle.smt_runs.specs.Jobs.{HasReadCause, IsReadOf};

use crate::refusal::Refusal;
use smt_jobs::{GREATEST_JOB, NumberedJob, read_numbered};
use smt_script::{Source, read_input};
use std::alloc::Global;

/// Reads the source to its end, and the job that it gave.
///
/// # Errors
///
/// `Job` comes exactly where the bytes are no job, with the kind of their first fault, `Source` where the source failed, which its
/// count of faults shows, and `Memory` where there is no memory for the bytes or the job.
pub fn read_source<R: Source>(alloc: Global, source: &mut R) -> Result<NumberedJob, Refusal>
    ensures job { IfOk result (IsReadOf (R.remaining source.old)) }
    ensures balanced { IfOk result (λ job. AreBalanced 0 (numbered_steps job.steps)) }
    ensures ended { OnOk result
        (R.remaining source.new ≡ option_map (λ _. []) (R.remaining source.old)) }
    ensures refused { IfErr result
        (HasReadCause (R.remaining source.old) (Rose (R.faults source.old) (R.faults source.new))) }
{
    let bytes = read_input(alloc, source, GREATEST_JOB)?;
    Ok(read_numbered(alloc, bytes.as_slice())?)
}
