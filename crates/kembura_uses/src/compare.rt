//! A question about two conditions, by a session that the caller holds.
ghost use Rattle.std.specs.Prelude.{◌≡◌, IfOk};
ghost use Rattle.kembura.specs.Differences.{AreRelated};
ghost use Rattle.kembura.specs.Honesty.{IsHonest};
ghost use Rattle.kembura.specs.InHand.{IsBlankLink};
ghost use Rattle.kembura.specs.Plain.{BoolType};
ghost use Rattle.kembura.specs.Session.{session_link, state_by};
ghost use Rattle.kembura.specs.TermView.{plain_term};
ghost use Rattle.kembura.specs.TermEnums.{enums_of};
ghost use Rattle.kembura.specs.Typing.{Typed};

use crate::decide::decide;
use anyhow::Result;
use kembura::review::laws::differences_tell;
use kembura::review::{Relation, difference};
use kembura::terms::laws::program_terms;
use kembura::{Decision, EnumTable, Link, LocalSolver, Term};
use std::alloc::Global;

/// Asks a session in hand whether a relation holds of two conditions: `Unsat` says that it does.
///
/// This may be believed of typed Boolean terms, where the session's link is honest and nothing is declared or asserted in what
/// it was sent before: then the relation holds of them in every interpretation.
///
/// # Errors
/// Those of `difference` and of `decide`.
pub(crate) fn compare<L: Link>(
    alloc: Global,
    enums: &EnumTable,
    relation: Relation,
    a: Term,
    b: Term,
    session: &mut LocalSolver<L>,
) -> Result<Decision>
    ensures believed { Typed (plain_term a) BoolType → Typed (plain_term b) BoolType →
        IsHonest (L.allows (session_link session.old)) →
        IsBlankLink (state_by L.state session.old) →
        IfOk result (λ decision.
        decision ≡ Decision.Unsat →
        AreRelated (enums_of enums.now) relation (plain_term a) (plain_term b)) }
{
    // What they say of terms and of differences is what the clause asks of the two conditions.
    program_terms();
    differences_tell();
    let differs = [difference(alloc, relation, a, b)?];
    decide(alloc, enums, &differs, session)
}

#[cfg(test)]
mod tests {
    use super::compare;
    use kembura::review::Relation;
    use kembura::solve::MemoryLink;
    use kembura::{Decision, EnumTable, LocalSolver, Term, TermType, TermVar, Text};
    use std::alloc::Global;
    use std::process::Abort;

    /// Why a test stops where a call gives nothing.
    const AMPLE: &str = "there is memory for the test";

    /// What stands before each question.
    const BEFORE: &str = "\
(set-logic ALL)
(declare-datatype Option (par (X) (
  (none)
  (some (val X)))))
";

    /// A Boolean variable.
    fn variable(rt: &impl Abort, alloc: Global, id: &str) -> Term {
        Term::from(TermVar {
            id: Text::from_str(alloc, id).expect(rt, AMPLE),
            ty: TermType::Bool,
        })
    }

    /// Stops the test where the question about two variables has another text than this, behind what stands before each.
    fn expect_asked(
        rt: &impl Abort,
        alloc: Global,
        relation: Relation,
        ids: [&str; 2],
        asked: &str,
    ) {
        let link = MemoryLink::new(alloc, b"unsat\n", &[], None).expect(rt, AMPLE);
        let mut session = LocalSolver::new(alloc, link);
        let enums = EnumTable::new(alloc);
        let (a, b) = (variable(rt, alloc, ids[0]), variable(rt, alloc, ids[1]));
        let answer = compare(alloc, &enums, relation, a, b, &mut session);
        assert!(rt;
            answer.ok() == Some(Decision::Unsat),
            "{asked} is not answered"
        );
        let sent = session.link().sent();
        let is_sent = sent.starts_with(BEFORE.as_bytes()) && sent.ends_with(asked.as_bytes());
        assert!(rt;
            is_sent && sent.len() == BEFORE.len() + asked.len(),
            "{asked} is not sent"
        );
    }

    #[test]
    fn the_difference_is_asked(rt: HostRuntime) {
        let alloc = rt.alloc();
        for (relation, ids, asked) in [
            (
                Relation::Implies,
                ["a", "a"],
                "(assert false)\n(check-sat)\n",
            ),
            (
                Relation::Implies,
                ["a", "b"],
                "; \"a\"\n(declare-const t0 Bool)\n; \"b\"\n(declare-const t1 Bool)\n(define-fun t2 () Bool (not t1))\n(define-fun t3 () Bool (and t0 t2))\n(assert t3)\n(check-sat)\n",
            ),
            (
                Relation::Equivalent,
                ["a", "b"],
                "; \"a\"\n(declare-const t0 Bool)\n; \"b\"\n(declare-const t1 Bool)\n(define-fun t2 () Bool (= t0 t1))\n(define-fun t3 () Bool (not t2))\n(assert t3)\n(check-sat)\n",
            ),
            (
                Relation::Disjoint,
                ["a", "b"],
                "; \"a\"\n(declare-const t0 Bool)\n; \"b\"\n(declare-const t1 Bool)\n(define-fun t2 () Bool (and t0 t1))\n(assert t2)\n(check-sat)\n",
            ),
        ] {
            expect_asked(&rt, alloc, relation, ids, asked);
        }
    }
}
