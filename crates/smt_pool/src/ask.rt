// A script that is sent to a session in hand, with the question whether it has a model.
ghost use Rattle.std.specs.Prelude.{◌≡◌, List, IfErr, IfOk, is_err};
ghost use Rattle.law_terms.specs.Plain.{PlainTerm};
ghost use Rattle.law_terms.specs.TypeValues.{Enums, AreEnums};
ghost use Rattle.law_lines.specs.Text.{text};
ghost use Rattle.law_theorem.specs.Conditions.{AreConditions};
ghost use Rattle.smt_solve.specs.Session.{session_failed, session_link, state_by};
ghost use Rattle.law_verdicts.specs.Honesty.{IsHonest};
ghost use Rattle.law_verdicts.specs.InHand.{AreNeverTrue, IsBlankLink};
ghost use Rattle.smt_pool.specs.Asked.{WhyUnanswered};

use smt_solve::{Decision, Link, LocalSolver, Solver, SolverError};

/// Sends a script with its logic to a session in hand, and asks whether it has a model.
///
/// The session is sent `(set-logic ALL)`, the script as it stands, whose last line has to end with LF, and `(check-sat)`, and the
/// verdict is that of the one line that it answers. `Unsat` may be believed of the conditions whose text the script is, as a fresh
/// encoder writes it, where the session's link is honest and blank: then no interpretation makes all of them true. A link is blank
/// where it tells what it was sent and what was read, nothing is declared or asserted in that, and each question in it was
/// answered.
///
/// # Errors
///
/// `SolverMarkedFailed` comes where the session had failed before, and then nothing is sent. `Io` and `Memory` come also where the
/// lines before the check could not be sent, and else the errors are those of `check_sat`. The session has failed after any of them.
pub fn ask_script<L: Link>(
    script: &[u8],
    session: &mut LocalSolver<L>,
) -> Result<Decision, SolverError>
    ensures failed { session_failed session.new ≡ is_err result }
    ensures refused { IfErr result (WhyUnanswered (session_failed session.old)
        (state_by L.state session.old) (state_by L.state session.new) script.now) }
    ensures believed { (enums : Enums) (ts : List PlainTerm) → AreEnums enums →
        AreConditions enums ts → script.now ≡ text enums ts →
        IsHonest (L.allows (session_link session.old)) →
        IsBlankLink (state_by L.state session.old) →
        IfOk result (λ decision. decision ≡ Decision.Unsat → AreNeverTrue enums ts) }
{
    session.send_lines(b"(set-logic ALL)\n")?;
    session.send_lines(script)?;
    session.check_sat()
}
