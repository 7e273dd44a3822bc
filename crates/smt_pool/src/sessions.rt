// Sessions that are started one after the other, and sessions whose links are given back.
ghost use Rattle.std.specs.Prelude.{◌≡◌, ◌≤◌, [], false, map, IfErr, IfOk};
ghost use Rattle.std.specs.VecDeque.{deque_capacity};
ghost use Rattle.smt_solve.specs.Link.{AllowsOnly, AllowsTheSame};
ghost use Rattle.smt_solve.specs.Session.{session_failed, session_link, state_by};
ghost use Rattle.smt_solve.specs.Starter.{command_of};
ghost use Rattle.smt_pool.specs.Sessions.{AreHonest, AreUnused, FinishesAll, FinishesOne, IsAsked};
ghost use Rattle.smt_pool.specs.Sessions.{IsStarted, Resets, StartsMany};
ghost use Rattle.smt_pool.specs.Sessions.{WhyNotStarted};

use crate::error::SolverPoolError;
use smt_solve::{Link, LinkError, LocalSolver, SolverCommand, SolverError, StartError, Starter};
use std::alloc::Global;
use std::collections::VecDeque;

/// Starts a session by this command.
pub(crate) fn start_session<P: Starter>(
    alloc: Global,
    starter: &mut P,
    command: &SolverCommand,
) -> Result<LocalSolver<P::L>, SolverPoolError>
    ensures asked { IfOk result
        (λ s. IsAsked (P.state starter.old) (P.state starter.new) (command_of command.now) 1) }
    ensures started { IfOk result (IsStarted P.L.state) }
    ensures honest { IfOk result
        (λ s. AllowsOnly (P.L.allows (session_link s)) (P.allows starter.old)) }
    ensures refused { IfErr result
        (WhyNotStarted (P.state starter.old) (P.state starter.new) (command_of command.now)) }
    ensures allows { AllowsTheSame (P.allows starter.old) (P.allows starter.new) }
{
    match LocalSolver::from_command(alloc, starter, command) {
        Ok(session) => Ok(session),
        Err(SolverError::Memory) => Err(SolverPoolError::Memory),
        Err(error) => Err(SolverPoolError::Solver(error)),
    }
}

/// Gives the link of a session back, and answers that the session is not kept.
pub(crate) fn finish_session<P: Starter>(
    starter: &mut P,
    session: LocalSolver<P::L>,
) -> Result<bool, SolverPoolError>
    ensures finishes { FinishesOne (P.state starter.old) (P.state starter.new)
        (session_link session) (state_by P.L.state session).faults result }
    ensures allows { AllowsTheSame (P.allows starter.old) (P.allows starter.new) }
{
    match starter.finish(session.into_link()) {
        Ok(()) => Ok(false),
        Err(_) => Err(SolverPoolError::Memory),
    }
}

/// Sends `(reset)` to a session that has not failed, after which its solver knows nothing of what was sent before.
pub(crate) fn reset_session<L: Link>(session: &mut LocalSolver<L>) -> Result<(), LinkError>
    requires { session_failed session.old ≡ false }
    ensures resets { Resets L.state session.old session.new result }
    ensures allows { AllowsTheSame (L.allows (session_link session.old))
        (L.allows (session_link session.new)) }
{
    match session.send_lines(b"(reset)\n") {
        Ok(()) => Ok(()),
        Err(SolverError::Memory) => Err(LinkError::Memory),
        Err(_) => Err(LinkError::Fault),
    }
}

/// Starts sessions by this command until there are as many as these.
pub(crate) fn start_sessions<P: Starter>(
    alloc: Global,
    starter: &mut P,
    command: &SolverCommand,
    count: usize,
    sessions: &mut VecDeque<LocalSolver<P::L>>,
) -> Result<(), SolverError>
    requires empty { sessions.old.items ≡ [] }
    requires room { count ≤ deque_capacity sessions.old }
    ensures starts { StartsMany (P.state starter.old) (P.state starter.new) (command_of command.now)
        count sessions.new.items result }
    ensures unused { AreUnused P.L.state sessions.new.items }
    ensures honest { AreHonest P.L.allows (P.allows starter.old) sessions.new.items }
    ensures allows { AllowsTheSame (P.allows starter.old) (P.allows starter.new) }
    ensures capacity { deque_capacity sessions.new ≡ deque_capacity sessions.old }
{
    while sessions.len() < count {
        let session = LocalSolver::from_command(alloc, starter, command)?;
        sessions.push_back_reserved(session);
    }
    Ok(())
}

/// Gives the links of sessions back, first to last. Where there is no memory for one, those behind it still go back.
pub(crate) fn finish_sessions<P: Starter>(
    starter: &mut P,
    mut sessions: VecDeque<LocalSolver<P::L>>,
) -> Result<(), StartError>
    ensures finishes { FinishesAll (P.state starter.old) (P.state starter.new)
        (map session_link sessions.items) result }
    ensures allows { AllowsTheSame (P.allows starter.old) (P.allows starter.new) }
{
    let mut done = Ok(());
    while let Some(session) = sessions.pop_front() {
        done = done.and(starter.finish(session.into_link()));
    }
    sessions.destroy_empty();
    done
}
