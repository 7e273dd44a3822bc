//! What two options hold.
#![tactic(auto, using(crate::proofs::FoldingEquality::holding))]

ghost use Rattle.std.specs.Prelude.{◌≡◌, false, MatchOption};
ghost use Rattle.law_folding.specs.Parts.{are_some, are_some_and_none};
ghost use Rattle.law_terms.specs.Plain.{SomeTerm};
ghost use Rattle.smt_term.specs.View.{plain_term};

use crate::{held, is_none_term};
use smt_term::Term;

// What two `some` hold.
pub(crate) fn both_held<'a>(t1: &'a Term, t2: &'a Term) -> Option<(&'a Term, &'a Term)>
    ensures { MatchOption result (are_some (plain_term t1.now) (plain_term t2.now) ≡ false) (λ r.
        (plain_term t1.now ≡ SomeTerm (plain_term r.0.now))
        × (plain_term t2.now ≡ SomeTerm (plain_term r.1.now))) }
{
    Some((held(t1)?, held(t2)?))
}

// Whether the first is a `some` and the second none.
pub(crate) fn are_some_and_none(t1: &Term, t2: &Term) -> bool
    ensures { result ≡ are_some_and_none (plain_term t1.now) (plain_term t2.now) }
{
    match held(t1) {
        Some(_) => is_none_term(t2),
        None => false,
    }
}
