// The script of a job.
ghost use Rattle.std.specs.Prelude.{◌≡◌, ◌<◌, ◌≤◌, IfErr, IsErrOf, OnOk};
ghost use Rattle.smt_term.specs.Enums.{enums_of};
ghost use Rattle.law_terms.specs.Faults.{first_fault};
ghost use Rattle.law_jobs.specs.Steps.{AreBalanced, asserted};
ghost use Rattle.smt_script.specs.Sink.{Rose};
ghost use Rattle.smt_jobs.specs.Numbered.{numbered_steps};
ghost use Rattle.smt_encode.specs.Refusals.{HasCause as CausedBy};
ghost use Rattle.smt_runs.specs.Jobs.{HasPrintCause};
ghost use Rattle.smt_runs.specs.Pieces.{PutsSteps};

use smt_encode::{EncodeError, Steps};
use smt_jobs::{NumberedJob, NumberedSteps};
use smt_runs::{Refusal, put_steps};
use smt_script::Sink;
use std::alloc::Global;
use std::marker::Brand;
use std::sync::ledger::{Blank, Ledger};

/// Encodes the steps of a job, and counts the look-ups by a ledger of its own.
fn encode_job<L: Ledger, W: Sink>(
    alloc: Global,
    job: NumberedJob,
    out: &mut W,
    blank: Blank,
) -> Result<(), EncodeError>
    requires name { blank.name ≡ L.name }
    requires parts { blank.parts ≡ L.parts }
    requires some { 0 < blank.parts }
    requires balanced { AreBalanced 0 (numbered_steps job.steps) }
    ensures puts { OnOk result (PutsSteps (enums_of job.enums) (W.contents out.old)
        (W.contents out.new) (numbered_steps job.steps)) }
    ensures refused { CausedBy (W.faults out.old) (W.faults out.new)
        (first_fault (enums_of job.enums) (asserted (numbered_steps job.steps))) result }
    ensures fresh { IsErrOf result EncodeError.Spent → ⊥ }
    ensures later { W.faults out.old ≤ W.faults out.new }
{
    let NumberedJob { enums, steps, .. } = job;
    let NumberedSteps { nodes, steps, .. } = steps;
    let mut look_ups = Steps::<L>::new(blank);
    put_steps(alloc, &enums, nodes, steps.as_slice(), out, &mut look_ups)
}

/// Puts the script of a job, with a line `(check-sat)` for each check.
pub(crate) fn put_script<W: Sink>(
    alloc: Global,
    job: NumberedJob,
    out: &mut W,
) -> Result<(), Refusal>
    requires balanced { AreBalanced 0 (numbered_steps job.steps) }
    ensures puts { OnOk result (PutsSteps (enums_of job.enums) (W.contents out.old)
        (W.contents out.new) (numbered_steps job.steps)) }
    ensures refused { IfErr result (HasPrintCause
        (first_fault (enums_of job.enums) (asserted (numbered_steps job.steps)))
        (Rose (W.faults out.old) (W.faults out.new))) }
    ensures later { W.faults out.old ≤ W.faults out.new }
{
    match encode_job::<Brand, W>(alloc, job, out, Blank::new(1)) {
        Ok(()) => Ok(()),
        Err(error) => Err(Refusal::of(error)),
    }
}
