// A dialogue with a solver: one session, in which a script grows and is asked about several times.
ghost use Rattle.std.specs.Prelude.{◌≡◌, ◌≤◌, ◌++◌, ℕ, List, [], false, is_err, IfErr, IfOk, OnOk};
ghost use Rattle.smt_script.specs.CommandTexts.{check_sat_text};
ghost use Rattle.smt_solve.specs.Link.{AllowsTheSame, IsUnused};
ghost use Rattle.smt_solve.specs.Question.{BeginsExchange};
ghost use Rattle.smt_solve.specs.Session.{session_failed, session_link, state_by};
ghost use Rattle.law_verdicts.specs.Dialogues.{AnsweredCheck, GaveAllowed, HasAnswered};
ghost use Rattle.law_verdicts.specs.Verdicts.{logic_text};
ghost use Rattle.smt_pool.specs.Checks.{CannotSend};
ghost use Rattle.smt_pool.specs.Dialogue.{AnswersNext, RefusesNext, StaysAllowed, TakesMore};
ghost use Rattle.smt_pool.specs.Dialogue.{WhyUnsent};

use crate::check::{error_of, send};
use crate::check_error::CheckError;
use smt_solve::{Decision, Link, LocalSolver, Solver};

/// Begins a dialogue on a new session: sends `(set-logic ALL)`, by which the solver is told that any theory may come.
///
/// The solver has to take more than one check. cvc5, where it reads from a pipe, does so only with its option `--incremental`.
///
/// # Examples
///
/// ```
/// use kembura::pool::{ask_behind, begin_dialogue};
/// use kembura::{ChildStarter, Decision, LocalSolver, Starter, Text};
///
/// let args = [Text::from_str(alloc, "--incremental")?];
/// let mut starter = ChildStarter::new(rt.clone()?);
/// let mut session = LocalSolver::cvc5_with_args(alloc, &mut starter, None, &args)?;
/// begin_dialogue(&mut session)?;
/// let first = ask_behind(&mut session, b"(declare-const p Bool)\n(assert p)\n")?;
/// let second = ask_behind(&mut session, b"(assert (not p))\n")?;
/// starter.finish(session.into_link())?;
/// assert_eq!(rt; (first, second), (Decision::Sat, Decision::Unsat));
/// ```
///
/// # Errors
///
/// `Session` of the kind `Io` comes where the link failed, which its count of faults shows, and `Memory` where the link has no
/// memory. The session has failed after either, and the solver is not killed. A first part of the line was sent.
pub fn begin_dialogue<L: Link>(session: &mut LocalSolver<L>) -> Result<(), CheckError>
    requires unfailed { session_failed session.old ≡ false }
    requires unused { IsUnused (state_by L.state session.old) }
    ensures begun { OnOk result (HasAnswered (state_by L.state session.new) [] []) }
    ensures allowed { OnOk result
        (GaveAllowed (L.allows (session_link session.old)) (state_by L.state session.new) []) }
    ensures refused { IfErr result
        (CannotSend (state_by L.state session.old) (state_by L.state session.new)) }
    ensures unsent { IfErr result (WhyUnsent (state_by L.state session.new)) }
    ensures first_part { BeginsExchange (state_by L.state session.old)
        (state_by L.state session.new) logic_text }
    ensures failed { session_failed session.new ≡ is_err result }
    ensures later { (state_by L.state session.old).faults ≤ (state_by L.state session.new).faults }
    ensures allows { AllowsTheSame (L.allows (session_link session.old))
        (L.allows (session_link session.new)) }
{
    send(session, b"(set-logic ALL)\n")
}

/// Sends lines of a dialogue as they stand, without a check. They may be held back until the next one.
///
/// # Examples
///
/// ```
/// use kembura::Decision;
/// use kembura::pool::{ask_behind, begin_dialogue, send_more};
///
/// begin_dialogue(&mut session)?;
/// send_more(&mut session, b"(declare-const p Bool)\n")?;
/// send_more(&mut session, b"(assert p)\n")?;
/// let decision = ask_behind(&mut session, b"")?;
/// assert_eq!(rt; decision, Decision::Sat);
/// ```
///
/// # Errors
///
/// As those of `begin_dialogue`, where a first part of these lines was sent.
pub fn send_more<L: Link>(session: &mut LocalSolver<L>, lines: &[u8]) -> Result<(), CheckError>
    requires unfailed { session_failed session.old ≡ false }
    ensures sent { OnOk result
        (TakesMore (state_by L.state session.old) (state_by L.state session.new) lines.now) }
    ensures allowed { OnOk result (StaysAllowed (L.allows (session_link session.old))
        (state_by L.state session.old) (state_by L.state session.new)) }
    ensures refused { IfErr result
        (CannotSend (state_by L.state session.old) (state_by L.state session.new)) }
    ensures unsent { (checks : List AnsweredCheck) (rest : List ℕ) →
        HasAnswered (state_by L.state session.old) checks rest →
        IfErr result (WhyUnsent (state_by L.state session.new)) }
    ensures first_part { BeginsExchange (state_by L.state session.old)
        (state_by L.state session.new) lines.now }
    ensures failed { session_failed session.new ≡ is_err result }
    ensures later { (state_by L.state session.old).faults ≤ (state_by L.state session.new).faults }
    ensures allows { AllowsTheSame (L.allows (session_link session.old))
        (L.allows (session_link session.new)) }
{
    send(session, lines)
}

/// Sends lines of a dialogue and `(check-sat)` behind them, and reads the answer: whether all that is asserted now has a model.
///
/// The lines stand behind all that was sent in the dialogue before, and the last of them has to end with LF. The answer is one line
/// of at most 65536 bytes. An `Unsat` may be believed where the link is honest and the lines are those of an encoder's calls: then
/// no interpretation makes all the conditions true that are encoded at the levels open now, as the law `dialogues_are_believed` of
/// `law_verdicts` says. The end of the answers counts as the LF of a line that has bytes. Behind such a line nothing more comes: no
/// later check is `Ok`.
///
/// # Examples
///
/// ```
/// use kembura::Decision;
/// use kembura::pool::{ask_behind, begin_dialogue};
///
/// begin_dialogue(&mut session)?;
/// let before = ask_behind(&mut session, b"(push 1)\n(assert false)\n")?;
/// let after = ask_behind(&mut session, b"(pop 1)\n")?;
/// assert_eq!(rt; (before, after), (Decision::Unsat, Decision::Sat));
/// ```
///
/// # Errors
///
/// `Session` comes where the session failed, by the cause of its kind: the link failed, the answer is no UTF-8, the solver had
/// ended, its answers ended, or its line tells of an error, says something else or is too long. The solver is killed only for what
/// it answered. `Memory` comes where there is no memory. The session has failed after either. A first part of the lines and of
/// `(check-sat)` was sent, perhaps nothing or all of it, and nothing else.
pub fn ask_behind<L: Link>(
    session: &mut LocalSolver<L>,
    lines: &[u8],
) -> Result<Decision, CheckError>
    requires unfailed { session_failed session.old ≡ false }
    ensures answered { IfOk result (AnswersNext (L.allows (session_link session.old))
        (state_by L.state session.old) (state_by L.state session.new) lines.now) }
    ensures refused { IfErr result
        (RefusesNext (state_by L.state session.old) (state_by L.state session.new) lines.now) }
    ensures first_part { BeginsExchange (state_by L.state session.old)
        (state_by L.state session.new) (lines.now ++ check_sat_text) }
    ensures failed { session_failed session.new ≡ is_err result }
    ensures later { (state_by L.state session.old).faults ≤ (state_by L.state session.new).faults }
    ensures allows { AllowsTheSame (L.allows (session_link session.old))
        (L.allows (session_link session.new)) }
{
    send(session, lines)?;
    match session.check_sat() {
        Ok(decision) => Ok(decision),
        Err(error) => Err(error_of(error)),
    }
}
