// A job, read from a source, and its blasted terms.
ghost use Rattle.std.specs.Prelude.{◌≡◌, [], IfErr, IfOk, OnOk, option_map};
ghost use Rattle.smt_script.specs.Sink.{Rose};
ghost use Rattle.smt_blast.specs.Causes.{HasReadingCause};
ghost use Rattle.smt_blast.specs.Run.{IsBlastedOf};

use crate::current::current_ids;
use crate::{BlastError, Blasted, blast};
use smt_jobs::{NumberedJob, NumberedSteps};
use smt_runs::{BlastRefusal, Refusal, read_source};
use smt_script::Source;
use std::alloc::Global;

impl From<BlastError> for Refusal {
    ghost use Rattle.std.specs.Prelude.{◌≡◌};
    ghost use Rattle.smt_blast.specs.Refused.{unblasted_refusal};

    ghost from_gives = { λ error refusal. refusal ≡ unblasted_refusal error };

    fn from(error: BlastError) -> Refusal {
        match error {
            BlastError::Unsupported(_) => Refusal::Blast(BlastRefusal::Unsupported),
            BlastError::UnsupportedType(_) => Refusal::Blast(BlastRefusal::UnsupportedType),
            BlastError::Memory => Refusal::Memory,
        }
    }
}

/// Reads a job, and blasts the terms that are current at its end.
pub(crate) fn blast_job<R: Source>(alloc: Global, source: &mut R) -> Result<Blasted, Refusal>
    ensures blasted { IfOk result (IsBlastedOf (R.remaining source.old)) }
    ensures ended { OnOk result
        (R.remaining source.new ≡ option_map (λ _. []) (R.remaining source.old)) }
    ensures refused { IfErr result (HasReadingCause (R.remaining source.old)
        (Rose (R.faults source.old) (R.faults source.new))) }
{
    let job = read_source(alloc, source)?;
    let NumberedJob { steps, .. } = job;
    let NumberedSteps { nodes, steps, .. } = steps;
    let ids = current_ids(alloc, steps.as_slice())?;
    Ok(blast(alloc, &nodes, ids.as_slice())?)
}
