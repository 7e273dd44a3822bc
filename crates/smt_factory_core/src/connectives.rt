//! The connectives of the theory Core.
#![tactic(auto, using(crate::proofs::FoldingConnectives::folding))]

ghost use Rattle.std.specs.Prelude.{◌≡◌, MatchOption, None, Some};
ghost use Rattle.law_folding.specs.Applications.{and_of, not_of, or_of};
ghost use Rattle.law_folding.specs.Builder.{applied, folding};
ghost use Rattle.law_folding.specs.Composites.{implies};
ghost use Rattle.law_folding.specs.FoldConnectives.{are_opposites, is_negation, folded_and};
ghost use Rattle.law_folding.specs.FoldConnectives.{folded_not, folded_or};
ghost use Rattle.law_folding.specs.Parts.{negated};
ghost use Rattle.smt_term.specs.View.{BuildsTerm, plain_term};
ghost use Rattle.smt_factory_core.specs.Results.{ResultRefines};

use crate::{are_equal, binary_test, is_truth_value, only_one, unary_test};
use smt_term::{Op, Term, TermError};
use std::alloc::Global;

// What a negation is of.
#[tactic(auto, using(smt_term::specs::View::views))]
fn negated(t: &Term) -> Option<&Term>
    ensures { MatchOption result (negated (plain_term t.now) ≡ None)
        (λ u. negated (plain_term t.now) ≡ Some (plain_term u.now)) }
{
    match t {
        Term::App { op, args, .. } => match op {
            Op::Not => only_one(args),
            _ => None,
        },
        Term::None(_)
        | Term::Prim(_)
        | Term::Record(_)
        | Term::Set { .. }
        | Term::Some(_)
        | Term::Var(_) => None,
    }
}

// Whether the second is the negation of the first.
fn is_negation(t1: &Term, t2: &Term) -> bool
    ensures { result ≡ is_negation (plain_term t1.now) (plain_term t2.now) }
{
    match negated(t2) {
        Some(t) => are_equal(t1, t),
        None => false,
    }
}

/// Whether one of the two is the negation of the other.
pub fn opposites(t1: &Term, t2: &Term) -> bool
    ensures { result ≡ are_opposites (plain_term t1.now) (plain_term t2.now) }
{
    is_negation(t1, t2) || is_negation(t2, t1)
}

/// The negation of a Boolean term. Of a literal it is the other one, and of a negation what that is of.
///
/// # Errors
/// `Memory`, where there is none for the term.
pub fn not(alloc: Global, t: Term) -> Result<Term, TermError>
    ensures folded { BuildsTerm result (folded_not (plain_term t)) }
    ensures refines { ResultRefines result (not_of (plain_term t)) }
{
    folded_not(alloc, &t)
}

// The negation, folded. By reference, as each folding: what is let go at several exits is dear to prove.
fn folded_not(alloc: Global, t: &Term) -> Result<Term, TermError>
    ensures { BuildsTerm result (folded_not (plain_term t.now)) }
{
    if is_truth_value(t, true) {
        return Ok(Term::from(false));
    }
    if is_truth_value(t, false) {
        return Ok(Term::from(true));
    }
    match negated(t) {
        Some(operand) => operand.share(),
        None => unary_test(alloc, Op::Not, t),
    }
}

/// The conjunction of two Boolean terms.
///
/// Equal terms give the first, as does a second that is true; a first that is true gives the second. A false one, or
/// opposites, give false.
///
/// # Examples
///
/// ```
/// use kembura::factory::and;
/// use kembura::{Term, TermType, TermVar, Text};
///
/// let id = Text::from_str(alloc, "b")?;
/// let ty = TermType::Bool;
/// let b = Term::from(TermVar { id, ty });
/// let both = and(alloc, Term::from(true), b.share()?)?;
/// assert_eq!(rt; both, b);
/// ```
///
/// # Errors
/// `Memory`, where there is none for the term.
pub fn and(alloc: Global, t1: Term, t2: Term) -> Result<Term, TermError>
    ensures folded { BuildsTerm result (folded_and (plain_term t1) (plain_term t2)) }
    ensures refines { ResultRefines result (and_of (plain_term t1) (plain_term t2)) }
{
    folded_and(alloc, &t1, &t2)
}

// The conjunction, folded.
#[tactic(auto)]
fn folded_and(alloc: Global, t1: &Term, t2: &Term) -> Result<Term, TermError>
    ensures { BuildsTerm result (folded_and (plain_term t1.now) (plain_term t2.now)) }
{
    if are_equal(t1, t2) || is_truth_value(t2, true) {
        return t1.share();
    }
    if is_truth_value(t1, true) {
        return t2.share();
    }
    if is_truth_value(t1, false) || is_truth_value(t2, false) || opposites(t1, t2) {
        return Ok(Term::from(false));
    }
    binary_test(alloc, Op::And, t1, t2)
}

/// The disjunction of two Boolean terms.
///
/// Equal terms give the first, as does a second that is false; a first that is false gives the second. A true one, or
/// opposites, give true.
///
/// # Errors
/// `Memory`, where there is none for the term.
pub fn or(alloc: Global, t1: Term, t2: Term) -> Result<Term, TermError>
    ensures folded { BuildsTerm result (folded_or (plain_term t1) (plain_term t2)) }
    ensures refines { ResultRefines result (or_of (plain_term t1) (plain_term t2)) }
{
    folded_or(alloc, &t1, &t2)
}

// The disjunction, folded.
#[tactic(auto)]
fn folded_or(alloc: Global, t1: &Term, t2: &Term) -> Result<Term, TermError>
    ensures { BuildsTerm result (folded_or (plain_term t1.now) (plain_term t2.now)) }
{
    if are_equal(t1, t2) || is_truth_value(t2, false) {
        return t1.share();
    }
    if is_truth_value(t1, false) {
        return t2.share();
    }
    if is_truth_value(t1, true) || is_truth_value(t2, true) || opposites(t1, t2) {
        return Ok(Term::from(true));
    }
    binary_test(alloc, Op::Or, t1, t2)
}

/// The implication from one Boolean term to another: the disjunction of the first's negation with the second.
///
/// # Errors
/// `Memory`, where there is none for the term.
pub fn implies(alloc: Global, t1: Term, t2: Term) -> Result<Term, TermError>
    ensures folded { BuildsTerm result (implies folding (plain_term t1) (plain_term t2)) }
    ensures refines { ResultRefines result (implies applied (plain_term t1) (plain_term t2)) }
{
    or(alloc, not(alloc, t1)?, t2)
}
