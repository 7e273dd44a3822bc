// The question to a solver whether a script has a model.
ghost use Rattle.std.specs.Prelude.{◌≡◌, ◌≢◌, ◌≤◌, false, is_err, IfErr, IfOk, OnOk, Ok};
ghost use Rattle.smt_solve.specs.Link.{AllowsTheSame, IsUnused};
ghost use Rattle.smt_solve.specs.Question.{BeginsExchange, SendsCommand};
ghost use Rattle.smt_solve.specs.Session.{session_failed, session_link, state_by};
ghost use Rattle.smt_solve.specs.Starter.{command_of};
ghost use Rattle.law_verdicts.specs.Verdicts.{question_of};
ghost use Rattle.smt_pool.specs.Checks.{CannotSend, Decides, IsAnswered, Lengthens, WhyUnchecked};
ghost use Rattle.smt_pool.specs.Checks.{WhyUndecided, session_error};

use crate::check_error::{CheckError, SessionFault};
use smt_solve::{Decision, Link, LocalSolver, Solver, SolverCommand, SolverError, Starter};
use std::alloc::Global;

/// What an error of a session becomes that had not failed before.
pub(crate) fn error_of(error: SolverError) -> CheckError
    requires { error ≢ SolverError.SolverMarkedFailed }
    ensures { result ≡ session_error error }
{
    match error {
        SolverError::Io => CheckError::Session(SessionFault::Io),
        SolverError::Solver(_) => CheckError::Session(SessionFault::Solver),
        SolverError::UnrecognizedSolverOutput(_) => {
            CheckError::Session(SessionFault::UnrecognizedSolverOutput)
        }
        SolverError::AnswerTooLong => CheckError::Session(SessionFault::AnswerTooLong),
        SolverError::Memory => CheckError::Memory,
        // The session had not failed.
        SolverError::SolverMarkedFailed => unreachable!(),
    }
}

/// Sends lines to a session.
pub(crate) fn send<L: Link>(session: &mut LocalSolver<L>, lines: &[u8]) -> Result<(), CheckError>
    requires { session_failed session.old ≡ false }
    ensures sent { OnOk result
        (Lengthens (state_by L.state session.old) (state_by L.state session.new) lines.now) }
    ensures exchanged { OnOk result (SendsCommand {T = Unit} (state_by L.state session.old)
        (state_by L.state session.new) lines.now (Ok tt)) }
    ensures first_part { BeginsExchange (state_by L.state session.old)
        (state_by L.state session.new) lines.now }
    ensures unfailed { OnOk result (session_failed session.new ≡ false) }
    ensures failed { session_failed session.new ≡ is_err result }
    ensures refused { IfErr result
        (CannotSend (state_by L.state session.old) (state_by L.state session.new)) }
    ensures later { (state_by L.state session.old).faults ≤ (state_by L.state session.new).faults }
    ensures allows { AllowsTheSame (L.allows (session_link session.old))
        (L.allows (session_link session.new)) }
{
    match session.send_lines(lines) {
        Ok(()) => Ok(()),
        Err(error) => Err(error_of(error)),
    }
}

/// Sends a script with its logic to a new session, and asks whether it has a model.
fn decide<L: Link>(session: &mut LocalSolver<L>, script: &[u8]) -> Result<Decision, CheckError>
    requires unfailed { session_failed session.old ≡ false }
    requires unused { IsUnused (state_by L.state session.old) }
    ensures decided { IfOk result (IsAnswered (L.allows (session_link session.old))
        (state_by L.state session.new) (question_of script.now)) }
    ensures refused { IfErr result (WhyUndecided (state_by L.state session.new) script.now) }
{
    send(session, b"(set-logic ALL)\n")?;
    send(session, script)?;
    match session.check_sat() {
        Ok(decision) => Ok(decision),
        Err(error) => Err(error_of(error)),
    }
}

/// Starts a solver, asks it whether a script has a model, and gives its link back to the starter.
///
/// The solver is sent `(set-logic ALL)`, the script as it stands and `(check-sat)`, each with an LF at its end, and the verdict is
/// that of the one line that it answers, which is at most 65536 bytes long. The script's last line has to end with LF. A solver
/// that gave a verdict is not killed. What lines the starter's links may give stays as it was.
///
/// # Examples
///
/// ```
/// use kembura::{ChildStarter, Decision, SolverCommand, check_script};
///
/// let command = SolverCommand::cvc5(alloc, None, &[])?;
/// let mut starter = ChildStarter::new(rt.clone()?);
/// let decision = check_script(alloc, b"(assert false)\n", &command, &mut starter)?;
/// assert_eq!(rt; decision, Decision::Unsat);
/// ```
///
/// # Errors
///
/// `Start` comes where the solver did not start, which the starter's count of failed starts shows. `Session` comes where the
/// session failed, by the cause of its kind on the link that came back, which was killed only for what it answered; where the
/// link failed, the starter's count of link faults shows it. `Memory` comes where there is no memory for the session, for its answer or for
/// the link's return; the link may be
/// lost then.
pub fn check_script<P: Starter>(
    alloc: Global,
    script: &[u8],
    solver: &SolverCommand,
    starter: &mut P,
) -> Result<Decision, CheckError>
    ensures decided { IfOk result (Decides P.L.state (P.allows starter.old) (P.state starter.old)
        (P.state starter.new) (command_of solver.now) script.now) }
    ensures refused { IfErr result (WhyUnchecked P.L.state (P.state starter.old)
        (P.state starter.new) (command_of solver.now) script.now) }
    ensures allows { AllowsTheSame (P.allows starter.old) (P.allows starter.new) }
{
    let mut session = match LocalSolver::from_command(alloc, starter, solver) {
        Ok(session) => session,
        Err(SolverError::Io) => return Err(CheckError::Start),
        Err(_) => return Err(CheckError::Memory),
    };
    let answer = decide(&mut session, script);
    match starter.finish(session.into_link()) {
        Ok(()) => answer,
        Err(_) => Err(CheckError::Memory),
    }
}
