//! What foldings of several subjects look for in a term.
#![tactic(auto, using(crate::proofs::Matching::matching))]

ghost use Rattle.std.specs.Prelude.{◌≡◌, MatchOption, None, Some};
ghost use Rattle.law_folding.specs.Applications.{truth_literal};
ghost use Rattle.law_folding.specs.Parts.{only_one};
ghost use Rattle.law_terms.specs.TermOrder.{term_eq};
ghost use Rattle.smt_term.specs.View.{plain_items, plain_term};

use smt_term::{Term, TermList};

/// The one term of a list that has one.
pub fn only_one(ts: &TermList) -> Option<&Term>
    ensures { MatchOption result (only_one (plain_items ts.now) ≡ None)
        (λ u. only_one (plain_items ts.now) ≡ Some (plain_term u.now)) }
{
    match ts.items() {
        [t] => Some(t),
        _ => None,
    }
}

/// Whether the two are the same term.
pub fn are_equal(t1: &Term, t2: &Term) -> bool
    ensures { result ≡ term_eq (plain_term t1.now) (plain_term t2.now) }
{
    t1 == t2
}

/// Whether it is this truth value.
pub fn is_truth_value(t: &Term, truth: bool) -> bool
    ensures { result ≡ term_eq (plain_term t.now) (truth_literal truth) }
{
    *t == Term::from(truth)
}
