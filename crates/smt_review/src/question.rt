// The question about two conditions to a solver that is started for it.
ghost use Rattle.std.specs.Prelude.{◌≡◌, false, is_err, IfErr, IfOk, IsOkUnless, OnOk};
ghost use Rattle.law_terms.specs.Plain.{BoolType};
ghost use Rattle.law_terms.specs.Typing.{Typed};
ghost use Rattle.smt_term.specs.Enums.{enums_of};
ghost use Rattle.smt_term.specs.View.{plain_term};
ghost use Rattle.smt_solve.specs.Link.{AllowsTheSame};
ghost use Rattle.smt_solve.specs.Session.{session_failed, session_link, state_by};
ghost use Rattle.smt_solve.specs.Starter.{command_of};
ghost use Rattle.law_verdicts.specs.Idle.{AnswersQuestion};
ghost use Rattle.smt_review.specs.Reviews.{IsAskable, WhyNothingFound, decision_for, text_for};
ghost use Rattle.smt_review.specs.Once.{AnswersOnce, IsResetAfter, ReviewsOnce, WhyNotReviewedOnce};

use crate::ask::script_of;
use crate::error::ReviewError;
use crate::finding::Finding;
use crate::relation::Relation;
use smt_runs::Refusal;
use smt_solve::{Link, LocalSolver, Solver, SolverCommand, SolverError, Starter};
use smt_term::{EnumTable, Term};
use std::alloc::Global;

/// Asks a session whether a relation holds of two conditions, as the session of a pool is asked.
fn ask_session<L: Link>(
    alloc: Global,
    enums: &EnumTable,
    relation: Relation,
    a: Term,
    b: Term,
    session: &mut LocalSolver<L>,
) -> Result<Finding, ReviewError>
    requires first { Typed (plain_term a) BoolType }
    requires second { Typed (plain_term b) BoolType }
    requires unfailed { session_failed session.old ≡ false }
    ensures answered { IfOk result (λ finding.
        AnswersQuestion (L.allows (session_link session.old)) (state_by L.state session.old)
        (state_by L.state session.new)
        (text_for (enums_of enums.now) relation (plain_term a) (plain_term b))
        (decision_for finding)) }
    ensures askable { OnOk result
        (IsAskable (enums_of enums.now) relation (plain_term a) (plain_term b)) }
    ensures refused { IfErr result (λ e.
        WhyNothingFound (enums_of enums.now) relation (plain_term a) (plain_term b) e
        (state_by L.state session.old) (state_by L.state session.new)) }
    ensures failed { session_failed session.new ≡ is_err result }
{
    session.send_lines(b"(set-logic ALL)\n")?;
    let script = match script_of(alloc, enums, relation, a, b) {
        Ok(script) => script,
        Err(error) => {
            session.mark_failed();
            return Err(error);
        }
    };
    session.send_lines(script.bytes())?;
    Ok(Finding::by(session.check_sat()?))
}

/// Sends `(reset)` to a session that has answered, as a pool does that takes one back. A link that fails now has answered before.
fn reset<L: Link>(session: &mut LocalSolver<L>) -> Result<(), ReviewError>
    requires { session_failed session.old ≡ false }
    ensures reset { OnOk result
        (IsResetAfter (state_by L.state session.old) (state_by L.state session.new)) }
    ensures refusal { IsOkUnless result ReviewError.Memory }
{
    match session.send_lines(b"(reset)\n") {
        Ok(()) => Ok(()),
        Err(SolverError::Memory) => Err(ReviewError::Memory),
        Err(_) => Ok(()),
    }
}

/// Asks a session whether a relation holds of two conditions, and resets it where it has answered.
fn ask_and_reset<L: Link>(
    alloc: Global,
    enums: &EnumTable,
    relation: Relation,
    a: Term,
    b: Term,
    session: &mut LocalSolver<L>,
) -> Result<Finding, ReviewError>
    requires first { Typed (plain_term a) BoolType }
    requires second { Typed (plain_term b) BoolType }
    requires unfailed { session_failed session.old ≡ false }
    ensures answered { IfOk result (λ finding.
        AnswersOnce (L.allows (session_link session.old)) (state_by L.state session.old)
        (state_by L.state session.new)
        (text_for (enums_of enums.now) relation (plain_term a) (plain_term b))
        (decision_for finding)) }
    ensures askable { OnOk result
        (IsAskable (enums_of enums.now) relation (plain_term a) (plain_term b)) }
    ensures refused { IfErr result (λ e.
        WhyNothingFound (enums_of enums.now) relation (plain_term a) (plain_term b) e
        (state_by L.state session.old) (state_by L.state session.new)) }
{
    let finding = ask_session(alloc, enums, relation, a, b, session)?;
    reset(session)?;
    Ok(finding)
}

/// Starts a solver, asks it whether a relation holds of two conditions, and gives its link back to the starter.
///
/// The calls on the starter and the link are those of a `review` over a new pool that starts no session before it is asked, has one at
/// most, and is closed behind it. Such a pool would own the starter; here it is the caller's.
///
/// # Errors
///
/// `Start` comes where the solver did not start, `Encode` with the kind of the first fault of the difference, `Session` where the
/// session failed, and `Memory` where there is no memory, also to take the link back.
pub(crate) fn review_once<P: Starter>(
    alloc: Global,
    enums: &EnumTable,
    relation: Relation,
    a: Term,
    b: Term,
    solver: &SolverCommand,
    starter: &mut P,
) -> Result<Finding, Refusal>
    requires first { Typed (plain_term a) BoolType }
    requires second { Typed (plain_term b) BoolType }
    ensures reviewed { IfOk result (ReviewsOnce P.L.state P.L.allows (P.allows starter.old)
        (P.state starter.old) (P.state starter.new) (command_of solver.now) (enums_of enums.now)
        relation (plain_term a) (plain_term b)) }
    ensures refused { IfErr result (WhyNotReviewedOnce P.L.state (P.state starter.old)
        (P.state starter.new) (command_of solver.now) (enums_of enums.now) relation (plain_term a)
        (plain_term b)) }
    ensures allows { AllowsTheSame (P.allows starter.old) (P.allows starter.new) }
{
    let mut session = match LocalSolver::from_command(alloc, starter, solver) {
        Ok(session) => session,
        Err(SolverError::Io) => return Err(Refusal::Start),
        Err(_) => return Err(Refusal::Memory),
    };
    let answer = ask_and_reset(alloc, enums, relation, a, b, &mut session);
    match starter.finish(session.into_link()) {
        Ok(()) => Ok(answer?),
        Err(_) => Err(Refusal::Memory),
    }
}
