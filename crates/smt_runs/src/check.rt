// The question to a solver by the steps of a job, from its start to the return of its link.
ghost use Rattle.std.specs.Prelude.{◌≡◌, ◌≤◌, IfErr, IsTrue, OnOk};
ghost use Rattle.smt_term.specs.Enums.{enums_of};
ghost use Rattle.law_jobs.specs.Steps.{AreBalanced};
ghost use Rattle.smt_script.specs.Sink.{Rose};
ghost use Rattle.smt_solve.specs.Link.{AllowsTheSame};
ghost use Rattle.smt_solve.specs.Starter.{command_of};
ghost use Rattle.smt_jobs.specs.Numbers.{all_steps_stand, steps_by};
ghost use Rattle.smt_runs.specs.Asking.{AsksSolver, WhyNotAsked};

use crate::dialogue::{converse, next_piece};
use crate::refusal::Refusal;
use smt_encode::{Encoder, Steps};
use smt_jobs::NumberedStep;
use smt_nodes::Interner;
use smt_script::Sink;
use smt_solve::{LocalSolver, SolverCommand, SolverError, Starter};
use smt_term::EnumTable;
use std::alloc::Global;
use std::sync::ledger::Ledger;

/// Starts a solver and asks it by these steps, whose terms are numbers of these nodes; gives its link back to the starter.
///
/// The lines up to the first check are made before the solver starts. It is sent `(set-logic ALL)` and then, for each check, the
/// lines before it and `(check-sat)`; its one line is read, and the word of its decision is put to `out` and flushed before the
/// next lines are made. The lines behind the last check are sent too.
///
/// # Errors
///
/// `Encode` comes with the kind of the first fault of the terms, where no check before it failed; `Sink` where `out` failed, which its
/// count of faults shows; `Start` where the solver did not start, and `Session` where its session failed, by the cause of its kind;
/// `Memory` where there is no memory. `out` has got the words of the checks that the solver answered before, and no other, with `Sink`
/// and `Memory` perhaps a first part of one more. A solver that was started comes back to the starter, unless there is no memory to
/// take it back, and was not killed but for what it answered.
pub fn check_steps<L: Ledger, W: Sink, P: Starter>(
    alloc: Global,
    enums: &EnumTable,
    nodes: Interner,
    steps: &[NumberedStep],
    solver: &SolverCommand,
    out: &mut W,
    starter: &mut P,
    look_ups: &mut Steps<L>,
) -> Result<(), Refusal>
    requires stand { IsTrue (all_steps_stand nodes steps.now) }
    requires balanced { AreBalanced 0 (steps_by nodes steps.now) }
    ensures asked { OnOk result (AsksSolver P.L.state (P.allows starter.old) (P.state starter.old)
        (P.state starter.new) (command_of solver.now) (enums_of enums.now)
        (steps_by nodes steps.now) (W.contents out.old) (W.contents out.new)) }
    ensures refused { IfErr result (WhyNotAsked P.L.state (P.allows starter.old)
        (P.state starter.old) (P.state starter.new) (command_of solver.now) (enums_of enums.now)
        (steps_by nodes steps.now) (W.contents out.old) (W.contents out.new)
        (Rose (W.faults out.old) (W.faults out.new))) }
    ensures later { W.faults out.old ≤ W.faults out.new }
    ensures allows { AllowsTheSame (P.allows starter.old) (P.allows starter.new) }
{
    let encoder = Encoder::with_nodes(alloc, enums, nodes, ());
    let (encoder, first) = next_piece(alloc, encoder, steps, look_ups);
    let (lines, left) = first?;
    let mut session = match LocalSolver::from_command(alloc, starter, solver) {
        Ok(session) => session,
        Err(SolverError::Io) => return Err(Refusal::Start),
        Err(_) => return Err(Refusal::Memory),
    };
    let answer = converse(alloc, encoder, lines, left, &mut session, out, look_ups);
    match starter.finish(session.into_link()) {
        Ok(()) => answer,
        Err(_) => Err(Refusal::Memory),
    }
}
