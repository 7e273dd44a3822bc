//! Equality of the theory Core.

ghost use Rattle.std.specs.Prelude.{◌≡◌, ◌&&◌};
ghost use Rattle.law_folding.specs.Applications.{eq_of, truth_literal};
ghost use Rattle.law_folding.specs.FoldEquality.{folded_eq, folded_eq_inside, is_boolean};
ghost use Rattle.law_terms.specs.Literals.{is_literal};
ghost use Rattle.law_terms.specs.Plain.{BoolType};
ghost use Rattle.law_terms.specs.TermOrder.{term_eq};
ghost use Rattle.law_terms.specs.Types.{literal_type, type_eq};
ghost use Rattle.smt_term.specs.View.{BuildsTerm, plain_literal, plain_term};
ghost use Rattle.smt_factory_core.specs.Results.{ResultRefines};

use crate::pairs::{are_some_and_none, both_held};
use crate::{are_equal, binary_test, is_truth_value, not};
use smt_term::{Op, Term, TermError, TermPrim, TermType};
use std::alloc::Global;

// Whether the term has the type of truth values.
#[tactic(auto, using(smt_term::specs::View::views), unfolding(smt_term::specs::View::plain_term))]
fn is_boolean(t: &Term) -> bool
    ensures { result ≡ is_boolean (plain_term t.now) }
{
    match t {
        Term::App { ret_ty, .. } => ret_ty.is_same_as(&TermType::Bool),
        Term::None(_) | Term::Record(_) | Term::Set { .. } | Term::Some(_) => false,
        Term::Prim(literal) => is_truth(literal),
        Term::Var(variable) => variable.ty.is_same_as(&TermType::Bool),
    }
}

fn is_truth(literal: &TermPrim) -> bool
    ensures { result ≡ type_eq (literal_type (plain_literal literal.now)) BoolType }
{
    match literal {
        TermPrim::Bool(_) => true,
        TermPrim::Bitvec(_) | TermPrim::Entity(_) | TermPrim::Ext(_) | TermPrim::String(_) => false,
    }
}

// Whether both are literals.
fn are_literals(t1: &Term, t2: &Term) -> bool
    ensures { result ≡ (is_literal (plain_term t1.now) && is_literal (plain_term t2.now)) }
{
    t1.is_literal() && t2.is_literal()
}

// Whether the first is this literal, and the second a Boolean term.
fn is_beside_boolean(truth: bool, t1: &Term, t2: &Term) -> bool
    ensures { result
        ≡ (term_eq (plain_term t1.now) (truth_literal truth) && is_boolean (plain_term t2.now)) }
{
    is_truth_value(t1, truth) && is_boolean(t2)
}

/// The equality of two terms of one type.
///
/// Two `some` are compared by what they hold, and `some` and none give false. Equal terms give true and two other literals
/// false. True with a Boolean term gives that term, and false with one its negation.
///
/// # Examples
///
/// ```
/// use kembura::Term;
/// use kembura::factory::eq;
///
/// let same = eq(alloc, Term::from(7i64), Term::from(8i64))?;
/// assert_eq!(rt; same, Term::from(false));
/// ```
///
/// # Errors
/// `Memory`, where there is none for the term.
#[tactic(auto, using(crate::proofs::FoldingEquality::comparing))]
pub fn eq(alloc: Global, t1: Term, t2: Term) -> Result<Term, TermError>
    ensures folded { BuildsTerm result (folded_eq (plain_term t1) (plain_term t2)) }
    ensures refines { ResultRefines result (eq_of (plain_term t1) (plain_term t2)) }
{
    folded_eq(alloc, &t1, &t2)
}

// The equality, folded.
#[tactic(auto, using(crate::proofs::FoldingEquality::comparing))]
fn folded_eq(alloc: Global, t1: &Term, t2: &Term) -> Result<Term, TermError>
    ensures { BuildsTerm result (folded_eq (plain_term t1.now) (plain_term t2.now)) }
{
    if let Some((held1, held2)) = both_held(t1, t2) {
        return eq_inside(alloc, held1, held2);
    }
    if are_some_and_none(t1, t2) || are_some_and_none(t2, t1) {
        return Ok(Term::from(false));
    }
    eq_inside(alloc, t1, t2)
}

// Equality, where what `some` and none hold has been looked at.
fn eq_inside(alloc: Global, t1: &Term, t2: &Term) -> Result<Term, TermError>
    ensures { BuildsTerm result (folded_eq_inside (plain_term t1.now) (plain_term t2.now)) }
{
    if are_equal(t1, t2) {
        return Ok(Term::from(true));
    }
    if are_literals(t1, t2) {
        return Ok(Term::from(false));
    }
    if is_beside_boolean(true, t1, t2) {
        return t2.share();
    }
    if is_beside_boolean(true, t2, t1) {
        return t1.share();
    }
    if is_beside_boolean(false, t1, t2) {
        return not(alloc, t2.share()?);
    }
    if is_beside_boolean(false, t2, t1) {
        return not(alloc, t1.share()?);
    }
    binary_test(alloc, Op::Eq, t1, t2)
}
