// The verdicts of a solver on a job.
ghost use Rattle.std.specs.Prelude.{◌≡◌, ◌<◌, ◌≤◌, IfErr, IfOk, OnOk};
ghost use Rattle.smt_term.specs.Enums.{enums_of};
ghost use Rattle.law_jobs.specs.Steps.{AreBalanced, checked_steps};
ghost use Rattle.smt_nodes.specs.declared.interner.Interner.{Interner as Nodes};
ghost use Rattle.smt_script.specs.Sink.{Rose};
ghost use Rattle.smt_solve.specs.Link.{AllowsTheSame};
ghost use Rattle.smt_solve.specs.Starter.{command_of};
ghost use Rattle.smt_jobs.specs.Numbered.{numbered_steps};
ghost use Rattle.smt_jobs.specs.Numbers.{all_steps_stand, steps_by};
ghost use Rattle.smt_jobs.specs.StepView.{plain_section};
ghost use Rattle.smt_runs.specs.Asking.{AsksSolver, WhyNotAsked};

use smt_encode::Steps;
use smt_jobs::{NumberedJob, NumberedStep, NumberedSteps, Section};
use smt_runs::{Refusal, check_steps};
use smt_script::Sink;
use smt_solve::{SolverCommand, Starter};
use std::alloc::{AllocError, Global};
use std::marker::Brand;
use std::sync::ledger::{Blank, Ledger};

/// The steps by which a solver is asked: behind those of a section `terms` stands a check.
fn with_check(steps: Vec<NumberedStep>, section: Section) -> Result<Vec<NumberedStep>, AllocError>
    ensures steps { IfOk result (λ s.
        (nodes : Nodes) →
        steps_by nodes s.items
        ≡ checked_steps (plain_section section) (steps_by nodes steps.items)) }
    ensures stand { IfOk result
        (λ s. (nodes : Nodes) → all_steps_stand nodes s.items ≡ all_steps_stand nodes steps.items) }
{
    let mut steps = steps;
    match section {
        Section::Terms => steps.push(NumberedStep::Check)?,
        Section::Steps => {}
    }
    Ok(steps)
}

/// Asks a solver by the steps of a job, and counts the look-ups of the encoder by a ledger of its own.
fn ask_job<L: Ledger, W: Sink, P: Starter>(
    alloc: Global,
    job: NumberedJob,
    solver: &SolverCommand,
    out: &mut W,
    starter: &mut P,
    blank: Blank,
) -> Result<(), Refusal>
    requires name { blank.name ≡ L.name }
    requires parts { blank.parts ≡ L.parts }
    requires some { 0 < blank.parts }
    requires balanced { AreBalanced 0 (numbered_steps job.steps) }
    ensures asked { OnOk result (AsksSolver P.L.state (P.allows starter.old) (P.state starter.old)
        (P.state starter.new) (command_of solver.now) (enums_of job.enums)
        (checked_steps (plain_section job.section) (numbered_steps job.steps)) (W.contents out.old)
        (W.contents out.new)) }
    ensures refused { IfErr result (WhyNotAsked P.L.state (P.allows starter.old)
        (P.state starter.old) (P.state starter.new) (command_of solver.now) (enums_of job.enums)
        (checked_steps (plain_section job.section) (numbered_steps job.steps)) (W.contents out.old)
        (W.contents out.new) (Rose (W.faults out.old) (W.faults out.new))) }
    ensures later { W.faults out.old ≤ W.faults out.new }
    ensures allows { AllowsTheSame (P.allows starter.old) (P.allows starter.new) }
{
    let NumberedJob {
        enums,
        steps,
        section,
        ..
    } = job;
    let NumberedSteps { nodes, steps, .. } = steps;
    let Ok(steps) = with_check(steps, section) else {
        return Err(Refusal::Memory);
    };
    let mut look_ups = Steps::<L>::new(blank);
    check_steps(
        alloc,
        &enums,
        nodes,
        steps.as_slice(),
        solver,
        out,
        starter,
        &mut look_ups,
    )
}

/// Asks a solver by the steps of a job. A job with a section `terms` has one check, behind its terms.
pub(crate) fn put_verdicts<W: Sink, P: Starter>(
    alloc: Global,
    job: NumberedJob,
    solver: &SolverCommand,
    out: &mut W,
    starter: &mut P,
) -> Result<(), Refusal>
    requires balanced { AreBalanced 0 (numbered_steps job.steps) }
    ensures asked { OnOk result (AsksSolver P.L.state (P.allows starter.old) (P.state starter.old)
        (P.state starter.new) (command_of solver.now) (enums_of job.enums)
        (checked_steps (plain_section job.section) (numbered_steps job.steps)) (W.contents out.old)
        (W.contents out.new)) }
    ensures refused { IfErr result (WhyNotAsked P.L.state (P.allows starter.old)
        (P.state starter.old) (P.state starter.new) (command_of solver.now) (enums_of job.enums)
        (checked_steps (plain_section job.section) (numbered_steps job.steps)) (W.contents out.old)
        (W.contents out.new) (Rose (W.faults out.old) (W.faults out.new))) }
    ensures later { W.faults out.old ≤ W.faults out.new }
    ensures allows { AllowsTheSame (P.allows starter.old) (P.allows starter.new) }
{
    ask_job::<Brand, W, P>(alloc, job, solver, out, starter, Blank::new(1))
}
