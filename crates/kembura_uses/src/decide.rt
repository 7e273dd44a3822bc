//! A question to a solver, by a session that the caller holds.
ghost use Rattle.std.specs.Prelude.{◌≡◌, IfOk};
ghost use Rattle.kembura.specs.Honesty.{IsHonest};
ghost use Rattle.kembura.specs.InHand.{AreNeverTrue, IsBlankLink};
ghost use Rattle.kembura.specs.Session.{session_link, state_by};
ghost use Rattle.kembura.specs.TermView.{plain_terms};
ghost use Rattle.kembura.specs.TermEnums.{enums_of};
ghost use Rattle.kembura.specs.Typing.{AreBoolean};

use anyhow::Result;
use kembura::pool::ask_script;
use kembura::terms::laws::program_terms;
use kembura::terms::type_laws::program_texts;
use kembura::{Decision, Encoder, EnumTable, Link, ListSink, LocalSolver, Term};
use std::alloc::Global;

/// Asks a session in hand whether some interpretation makes all of these conditions true.
///
/// `Unsat` may be believed of typed Boolean terms, where the session's link is honest and nothing is declared or asserted in
/// what it was sent before: then no interpretation makes all of them true.
///
/// # Errors
/// Those of `Encoder::encode` and of `ask_script`.
pub(crate) fn decide<L: Link>(
    alloc: Global,
    enums: &EnumTable,
    conditions: &[Term],
    session: &mut LocalSolver<L>,
) -> Result<Decision>
    ensures believed { AreBoolean (plain_terms conditions.now) →
        IsHonest (L.allows (session_link session.old)) →
        IsBlankLink (state_by L.state session.old) →
        IfOk result (λ decision.
        decision ≡ Decision.Unsat →
        AreNeverTrue (enums_of enums.now) (plain_terms conditions.now)) }
{
    // What they say of the program's terms and tables is what the clause asks of the conditions.
    program_terms();
    program_texts();
    let mut encoder = Encoder::new(alloc, enums, ListSink::new(alloc));
    encoder.encode(conditions)?;
    let script = encoder.into_script();
    Ok(ask_script(script.bytes(), session)?)
}

#[cfg(test)]
mod tests {
    use super::decide;
    use kembura::solve::MemoryLink;
    use kembura::{Decision, EnumTable, LocalSolver, Op, Term, TermList, TermType, TermVar, Text};
    use std::alloc::Global;
    use std::process::Abort;

    /// Why a test stops where a call gives nothing.
    const AMPLE: &str = "there is memory for the test";

    /// What a solver is sent with the question whether `b` and `not b` may both be true.
    const ASKED: &str = "\
(set-logic ALL)
(declare-datatype Option (par (X) (
  (none)
  (some (val X)))))
; \"b\"
(declare-const t0 Bool)
(define-fun t1 () Bool (not t0))
(assert t0)
(assert t1)
(check-sat)
";

    /// The variable `b`.
    fn variable(rt: &impl Abort, alloc: Global) -> Term {
        Term::from(TermVar {
            id: Text::from_str(alloc, "b").expect(rt, AMPLE),
            ty: TermType::Bool,
        })
    }

    /// `b` and `not b`.
    fn contradiction(rt: &impl Abort, alloc: Global) -> [Term; 2] {
        let negated = Term::App {
            op: Op::Not,
            args: TermList::new(alloc, &[variable(rt, alloc)]).expect(rt, AMPLE),
            ret_ty: TermType::Bool,
        };
        [variable(rt, alloc), negated]
    }

    /// The answer of a session whose solver answers with these bytes, and what it was sent.
    fn asked(rt: &impl Abort, alloc: Global, answers: &[u8]) -> (Option<Decision>, Vec<u8>) {
        let link = MemoryLink::new(alloc, answers, &[], None).expect(rt, AMPLE);
        let mut session = LocalSolver::new(alloc, link);
        let enums = EnumTable::new(alloc);
        let answer = decide(alloc, &enums, &contradiction(rt, alloc), &mut session);
        let sent = session.link().sent().to_vec(alloc).expect(rt, AMPLE);
        (answer.ok(), sent)
    }

    #[test]
    fn a_session_in_hand_decides(rt: HostRuntime) {
        let alloc = rt.alloc();
        for (answers, wanted) in [
            ("unsat\n", Some(Decision::Unsat)),
            ("unknown\n", Some(Decision::Unknown)),
            ("(error \"boom\")\n", None),
        ] {
            let (answer, sent) = asked(&rt, alloc, answers.as_bytes());
            assert!(rt; answer == wanted, "{answers} is another answer");
            assert!(rt;
                sent.as_slice() == ASKED.as_bytes(),
                "{answers} is sent something else"
            );
        }
    }
}
