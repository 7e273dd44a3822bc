//! Choice of the theory Core.
#![tactic(auto, using(crate::proofs::FoldingEquality::choosing))]

ghost use Rattle.std.specs.Prelude.{◌≡◌};
ghost use Rattle.law_folding.specs.Applications.{ite_of};
ghost use Rattle.law_folding.specs.FoldEquality.{folded_ite, folded_ite_inside};
ghost use Rattle.smt_term.specs.View.{BuildsTerm, plain_term};
ghost use Rattle.smt_factory_core.specs.Results.{ResultRefines};

use crate::pairs::both_held;
use crate::{and, are_equal, is_truth_value, not, or, some_of, ternary_application};
use smt_term::{Op, Term, TermError};
use std::alloc::Global;

/// The second term where the first is true, and else the third.
///
/// Of two `some` it is some of the choice between what they hold. A first that is a literal, or equal branches, give the
/// branch. True, then false gives the first and the other way its negation. False in the third place gives a conjunction,
/// and true in the second a disjunction.
///
/// # Errors
/// `Memory`, where there is none for the term.
pub fn ite(alloc: Global, t1: Term, t2: Term, t3: Term) -> Result<Term, TermError>
    ensures folded { BuildsTerm result
        (folded_ite (plain_term t1) (plain_term t2) (plain_term t3)) }
    ensures refines { ResultRefines result
        (ite_of (plain_term t1) (plain_term t2) (plain_term t3)) }
{
    folded_ite(alloc, &t1, &t2, &t3)
}

// The choice, folded.
fn folded_ite(alloc: Global, t1: &Term, t2: &Term, t3: &Term) -> Result<Term, TermError>
    ensures { BuildsTerm result
        (folded_ite (plain_term t1.now) (plain_term t2.now) (plain_term t3.now)) }
{
    match both_held(t2, t3) {
        Some((held2, held3)) => some_of(alloc, ite_inside(alloc, t1, held2, held3)?),
        None => ite_inside(alloc, t1, t2, t3),
    }
}

// Choice, where what two `some` hold has been taken out.
#[tactic(auto)]
fn ite_inside(alloc: Global, t1: &Term, t2: &Term, t3: &Term) -> Result<Term, TermError>
    ensures { BuildsTerm result
        (folded_ite_inside (plain_term t1.now) (plain_term t2.now) (plain_term t3.now)) }
{
    if is_truth_value(t1, true) || are_equal(t2, t3) {
        return t2.share();
    }
    if is_truth_value(t1, false) {
        return t3.share();
    }
    if is_truth_value(t2, true) && is_truth_value(t3, false) {
        return t1.share();
    }
    if is_truth_value(t2, false) && is_truth_value(t3, true) {
        return not(alloc, t1.share()?);
    }
    if is_truth_value(t3, false) {
        return and(alloc, t1.share()?, t2.share()?);
    }
    if is_truth_value(t2, true) {
        return or(alloc, t1.share()?, t3.share()?);
    }
    ternary_application(alloc, Op::Ite, t1, t2, t3, t2.type_of(alloc)?)
}
