//! Sets of the values of terms, of cvc5's theory of finite sets.
#![tactic(auto, using(crate::proofs::FoldingSets::set_folding))]

ghost use Rattle.std.specs.Prelude.{◌≡◌, IfOk, IfSome, MatchOption, None, Some, is_some};
ghost use Rattle.std.specs.List.{filter, list_all};
ghost use Rattle.law_folding.specs.Applications.{set_inter_of, set_member_of, set_subset_of};
ghost use Rattle.law_folding.specs.Builder.{applied, folding};
ghost use Rattle.law_folding.specs.Composites.{set_intersects, set_is_empty};
ghost use Rattle.law_folding.specs.FoldSets.{common_set, folded_set_inter, folded_set_member};
ghost use Rattle.law_folding.specs.FoldSets.{folded_set_subset, is_among};
ghost use Rattle.law_folding.specs.Parts.{element_type, elements_in, is_empty_set, is_set_literal};
ghost use Rattle.law_folding.specs.Parts.{is_set_term};
ghost use Rattle.law_folding.specs.SetOf.{IsSetOf};
ghost use Rattle.law_terms.specs.TermSets.{set_term};
ghost use Rattle.law_terms.specs.Types.{type_of};
ghost use Rattle.law_terms.specs.Typing.{AreOfType};
ghost use Rattle.smt_term.specs.View.{BuildsTerm, plain_elements, plain_term, plain_terms};
ghost use Rattle.smt_term.specs.View.{plain_type};
ghost use Rattle.smt_factory_core.specs.Results.{ResultRefines};

use crate::{are_equal, binary_application, binary_test, eq, not};
use smt_term::{Op, Term, TermError, TermSet, TermType};
use std::alloc::Global;

/// The set of the values of these terms, which are of this type. Its elements stand in the order of terms, each once.
///
/// Where each of the terms is typed and of this type, so is the set, and its value is the set of their values.
///
/// # Errors
/// `Memory`, where there is none for the term.
#[tactic(auto, using(smt_term::specs::View::views, crate::proofs::FoldingSets::set_folding))]
pub fn set_of(alloc: Global, ts: &[Term], elts_ty: TermType) -> Result<Term, TermError>
    ensures folded { BuildsTerm result (set_term (plain_type elts_ty) (plain_terms ts.now)) }
    ensures set { AreOfType (plain_type elts_ty) (plain_terms ts.now) →
        IfOk result (λ r. IsSetOf (plain_type elts_ty) (plain_terms ts.now) (plain_term r)) }
{
    let elts = TermSet::new(alloc, ts)?;
    Ok(Term::Set { elts_ty, elts })
}

// The type of a set's elements.
#[tactic(auto, using(smt_term::specs::View::views), unfolding(smt_term::specs::TypeView::plain_type))]
fn element_type(alloc: Global, t: &Term) -> Result<Option<TermType>, TermError>
    ensures { IfOk result (λ o.
        MatchOption o (element_type (type_of (plain_term t.now)) ≡ None)
        (λ ty. element_type (type_of (plain_term t.now)) ≡ Some (plain_type ty))) }
{
    match &t.type_of(alloc)? {
        TermType::Set { ty } => Ok(Some(ty.share()?)),
        TermType::Option { .. }
        | TermType::Bitvec { .. }
        | TermType::Bool
        | TermType::Entity { .. }
        | TermType::Ext { .. }
        | TermType::String
        | TermType::Record { .. } => Ok(None),
    }
}

// The elements of a set, where it is given by them.
#[tactic(auto, using(smt_term::specs::View::views), unfolding(smt_term::specs::View::plain_term))]
fn given_elements(t: &Term) -> Option<&TermSet>
    ensures given { is_some result ≡ is_set_term (plain_term t.now) }
    ensures elements { IfSome result
        (λ elts. elements_in (plain_term t.now) ≡ plain_elements elts.now) }
{
    match t {
        Term::Set { elts, .. } => Some(elts),
        Term::App { .. }
        | Term::None(_)
        | Term::Prim(_)
        | Term::Record(_)
        | Term::Some(_)
        | Term::Var(_) => None,
    }
}

// Whether it is a set that is given by its elements.
fn is_set_term(t: &Term) -> bool
    ensures { result ≡ is_set_term (plain_term t.now) }
{
    given_elements(t).is_some()
}

// The elements of a set that is given by them, and of another term none.
fn elements_in(t: &Term) -> &[Term]
    ensures { plain_terms result.now ≡ elements_in (plain_term t.now) }
{
    match given_elements(t) {
        Some(elts) => elts.items(),
        None => &[],
    }
}

// Whether it is a set without elements.
fn is_empty_set(t: &Term) -> bool
    ensures { result ≡ is_empty_set (plain_term t.now) }
{
    match given_elements(t) {
        Some(elts) => elts.is_empty(),
        None => false,
    }
}

// Whether it is a set of literals.
#[tactic(auto, using(smt_term::specs::View::views, crate::proofs::FoldingSets::set_folding))]
fn is_set_literal(t: &Term) -> bool
    ensures { result ≡ is_set_literal (plain_term t.now) }
{
    is_set_term(t) && t.is_literal()
}

// Whether a term is one of a list.
fn is_among(ts: &[Term], t: &Term) -> bool
    ensures { result ≡ is_among (plain_terms ts.now) (plain_term t.now) }
{
    for element in ts {
        if t == element {
            return true;
        }
    }
    false
}

// Whether each term of the first list is one of the second.
fn are_among(subs: &[Term], ts: &[Term]) -> bool
    ensures { result ≡ list_all (is_among (plain_terms ts.now)) (plain_terms subs.now) }
{
    for sub in subs {
        if !is_among(ts, sub) {
            return false;
        }
    }
    true
}

/// Whether a value is in a set. The empty set has none, and of two literals it is a literal.
///
/// # Examples
///
/// ```
/// use kembura::factory::{set_member, set_of};
/// use kembura::{Term, TermType, Text};
///
/// let red = Term::from(Text::from_str(alloc, "red")?);
/// let colors = set_of(alloc, &[red.share()?], TermType::String)?;
/// let is_in = set_member(alloc, red, colors)?;
/// assert_eq!(rt; is_in, Term::from(true));
/// ```
///
/// # Errors
/// `Memory`, where there is none for the term.
pub fn set_member(alloc: Global, t: Term, ts: Term) -> Result<Term, TermError>
    ensures folded { BuildsTerm result (folded_set_member (plain_term t) (plain_term ts)) }
    ensures refines { ResultRefines result (set_member_of (plain_term t) (plain_term ts)) }
{
    folded_set_member(alloc, &t, &ts)
}

// Membership, folded.
fn folded_set_member(alloc: Global, t: &Term, ts: &Term) -> Result<Term, TermError>
    ensures { BuildsTerm result (folded_set_member (plain_term t.now) (plain_term ts.now)) }
{
    if is_empty_set(ts) {
        return Ok(Term::from(false));
    }
    if t.is_literal() && is_set_literal(ts) {
        return Ok(Term::from(is_among(elements_in(ts), t)));
    }
    binary_test(alloc, Op::SetMember, t, ts)
}

/// Whether all of a first set is in a second. Equal terms and an empty first give true, and two literals a literal.
///
/// # Errors
/// `Memory`, where there is none for the term.
pub fn set_subset(alloc: Global, sub: Term, sup: Term) -> Result<Term, TermError>
    ensures folded { BuildsTerm result (folded_set_subset (plain_term sub) (plain_term sup)) }
    ensures refines { ResultRefines result (set_subset_of (plain_term sub) (plain_term sup)) }
{
    folded_set_subset(alloc, &sub, &sup)
}

// Whether a set is in another, folded.
fn folded_set_subset(alloc: Global, sub: &Term, sup: &Term) -> Result<Term, TermError>
    ensures { BuildsTerm result (folded_set_subset (plain_term sub.now) (plain_term sup.now)) }
{
    if are_equal(sub, sup) || is_empty_set(sub) {
        return Ok(Term::from(true));
    }
    if is_set_literal(sub) && is_set_literal(sup) {
        return Ok(Term::from(are_among(elements_in(sub), elements_in(sup))));
    }
    binary_test(alloc, Op::SetSubset, sub, sup)
}

// The terms of the first list that are among those of the second.
fn common(alloc: Global, ts1: &[Term], ts2: &[Term]) -> Result<Vec<Term>, TermError>
    ensures { IfOk result (λ kept.
        plain_terms kept.items ≡ filter (is_among (plain_terms ts2.now)) (plain_terms ts1.now)) }
{
    let mut kept = Vec::new(alloc);
    for t in ts1 {
        if is_among(ts2, t) {
            kept.push(t.share()?)?;
        }
    }
    Ok(kept)
}

// The set of the first's elements that are in the second; the first itself where it is not given by its elements.
#[tactic(auto, using(smt_term::specs::View::views, crate::proofs::FoldingSets::set_folding))]
fn common_set(alloc: Global, ts1: &Term, ts2: &Term) -> Result<Term, TermError>
    ensures { BuildsTerm result (common_set (plain_term ts1.now) (plain_term ts2.now)) }
{
    match ts1 {
        Term::Set { elts_ty, elts } => {
            let kept = common(alloc, elts.items(), elements_in(ts2))?;
            set_of(alloc, kept.as_slice(), elts_ty.share()?)
        }
        Term::App { .. }
        | Term::None(_)
        | Term::Prim(_)
        | Term::Record(_)
        | Term::Some(_)
        | Term::Var(_) => ts1.share(),
    }
}

/// What is in both of two sets.
///
/// Equal terms and an empty first give the first, an empty second gives that, and two literals the set of what they have in
/// common, with the first's element type.
///
/// # Errors
/// `Memory`, where there is none for the term.
pub fn set_inter(alloc: Global, ts1: Term, ts2: Term) -> Result<Term, TermError>
    ensures folded { BuildsTerm result (folded_set_inter (plain_term ts1) (plain_term ts2)) }
    ensures refines { ResultRefines result (set_inter_of (plain_term ts1) (plain_term ts2)) }
{
    folded_set_inter(alloc, &ts1, &ts2)
}

// The intersection, folded.
fn folded_set_inter(alloc: Global, ts1: &Term, ts2: &Term) -> Result<Term, TermError>
    ensures { BuildsTerm result (folded_set_inter (plain_term ts1.now) (plain_term ts2.now)) }
{
    if are_equal(ts1, ts2) || is_empty_set(ts1) {
        return ts1.share();
    }
    if is_empty_set(ts2) {
        return ts2.share();
    }
    if is_set_literal(ts1) && is_set_literal(ts2) {
        return common_set(alloc, ts1, ts2);
    }
    binary_application(alloc, Op::SetInter, ts1, ts2, ts1.type_of(alloc)?)
}

/// Whether a set is empty; what is no set is not.
///
/// Of a set that is given by its elements it is a literal, and another set is compared with the empty one.
///
/// # Errors
/// `Memory`, where there is none for the term.
pub fn set_is_empty(alloc: Global, t: Term) -> Result<Term, TermError>
    ensures folded { BuildsTerm result (set_is_empty folding (plain_term t)) }
    ensures refines { ResultRefines result (set_is_empty applied (plain_term t)) }
{
    folded_set_is_empty(alloc, &t)
}

// Whether a set is empty, folded.
fn folded_set_is_empty(alloc: Global, t: &Term) -> Result<Term, TermError>
    ensures { BuildsTerm result (set_is_empty folding (plain_term t.now)) }
{
    if is_set_term(t) {
        return Ok(Term::from(is_empty_set(t)));
    }
    match element_type(alloc, t)? {
        Some(ty) => {
            let empty = set_of(alloc, &[], ty)?;
            eq(alloc, t.share()?, empty)
        }
        None => Ok(Term::from(false)),
    }
}

/// Whether two sets have an element in common.
///
/// # Errors
/// `Memory`, where there is none for the term.
pub fn set_intersects(alloc: Global, ts1: Term, ts2: Term) -> Result<Term, TermError>
    ensures folded { BuildsTerm result (set_intersects folding (plain_term ts1) (plain_term ts2)) }
    ensures refines { ResultRefines result
        (set_intersects applied (plain_term ts1) (plain_term ts2)) }
{
    not(alloc, set_is_empty(alloc, set_inter(alloc, ts1, ts2)?)?)
}
