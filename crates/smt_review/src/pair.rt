// The two terms of a job, read from a source.
ghost use Rattle.std.specs.Prelude.{◌≡◌, [], None, Some, IfErr, IfOk, IfSome, OnOk, option_map};
ghost use Rattle.law_terms.specs.Typing.{AreBoolean};
ghost use Rattle.law_jobs.specs.Jobs.{IsBuiltFrom};
ghost use Rattle.law_jobs.specs.Steps.{Section as StatedSection, asserted};
ghost use Rattle.smt_jobs.specs.JobView.{plain_job};
ghost use Rattle.smt_jobs.specs.StepView.{plain_steps};
ghost use Rattle.smt_script.specs.Sink.{Rose};
ghost use Rattle.smt_term.specs.View.{plain_term};
ghost use Rattle.smt_runs.specs.Jobs.{HasReadCause};
ghost use Rattle.smt_review.specs.Pairs.{pair_of};

use smt_jobs::{GREATEST_JOB, Job, Step, StepList, read_job};
use smt_runs::Refusal;
use smt_script::{Source, read_input};
use smt_term::Term;
use std::alloc::Global;

/// Reads the source to its end, and the job that it gave, with its terms.
pub(crate) fn read_whole<R: Source>(alloc: Global, source: &mut R) -> Result<Job, Refusal>
    ensures job { IfOk result (λ job.
        IfSome (R.remaining source.old)
        (λ bytes. (section : StatedSection) × IsBuiltFrom bytes section (plain_job job))) }
    ensures boolean { IfOk result (λ job. AreBoolean (asserted (plain_steps job.steps))) }
    ensures ended { OnOk result
        (R.remaining source.new ≡ option_map (λ _. []) (R.remaining source.old)) }
    ensures refused { IfErr result
        (HasReadCause (R.remaining source.old) (Rose (R.faults source.old) (R.faults source.new))) }
{
    let bytes = read_input(alloc, source, GREATEST_JOB)?;
    Ok(read_job(alloc, bytes.as_slice())?)
}

/// The two terms of steps that are one assertion of two terms, None of other steps.
pub(crate) fn two_terms(steps: &StepList) -> Option<(&Term, &Term)>
    ensures two { IfSome result
        (λ p. pair_of (plain_steps steps.now) ≡ Some (plain_term p.0.now, plain_term p.1.now)) }
    ensures other { result ≡ None → pair_of (plain_steps steps.now) ≡ None }
{
    match steps.items() {
        [Step::Assert(terms)] => match terms.items() {
            [a, b] => Some((a, b)),
            _ => None,
        },
        _ => None,
    }
}
