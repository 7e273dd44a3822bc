//! Whether an option is none, and whether it is some.
#![tactic(auto, using(crate::proofs::FoldingPresence::presence))]

ghost use Rattle.std.specs.Prelude.{◌≡◌, IfOk, MatchOption, None, Some};
ghost use Rattle.law_folding.specs.Builder.{applied, folding};
ghost use Rattle.law_folding.specs.Composites.{any_none, is_none, is_some, none_by_type};
ghost use Rattle.law_folding.specs.FoldOptions.{none_by_arguments, none_by_branches, none_by_form};
ghost use Rattle.smt_term.specs.View.{BuildsTerm, plain_items, plain_term, plain_terms};
ghost use Rattle.smt_factory_core.specs.Results.{ResultRefines};

use crate::inside::inner_type;
use crate::{any_true, eq, held, is_none_term, none_of, not};
use smt_term::{Op, Term, TermError, TermList};
use std::alloc::Global;

// Whether a term is none, where its form tells.
#[tactic(auto, using(smt_term::specs::View::views, crate::proofs::FoldingPresence::presence))]
fn none_by_form(alloc: Global, t: &Term) -> Result<Option<Term>, TermError>
    ensures { IfOk result (λ o.
        MatchOption o (none_by_form (plain_term t.now) ≡ None)
        (λ r. none_by_form (plain_term t.now) ≡ Some (plain_term r))) }
{
    match t {
        Term::None(_) => Ok(Some(Term::from(true))),
        Term::Some(_) => Ok(Some(Term::from(false))),
        Term::App { op, args, .. } => match op {
            Op::Ite => none_by_arguments(alloc, args),
            _ => Ok(None),
        },
        Term::Prim(_) | Term::Record(_) | Term::Set { .. } | Term::Var(_) => Ok(None),
    }
}

// Whether a choice with these arguments is none.
fn none_by_arguments(alloc: Global, args: &TermList) -> Result<Option<Term>, TermError>
    ensures { IfOk result (λ o.
        MatchOption o (none_by_arguments (plain_items args.now) ≡ None)
        (λ r. none_by_arguments (plain_items args.now) ≡ Some (plain_term r))) }
{
    match args.items() {
        [guard, first, second] => none_by_branches(alloc, guard, first, second),
        _ => Ok(None),
    }
}

fn none_by_branches(
    alloc: Global,
    guard: &Term,
    first: &Term,
    second: &Term,
) -> Result<Option<Term>, TermError>
    ensures { IfOk result (λ o.
        MatchOption o
        (none_by_branches (plain_term guard.now) (plain_term first.now) (plain_term second.now)
        ≡ None)
        (λ r.
        none_by_branches (plain_term guard.now) (plain_term first.now) (plain_term second.now)
        ≡ Some (plain_term r))) }
{
    let first_holds = held(first).is_some();
    let second_holds = held(second).is_some();
    if first_holds && second_holds {
        return Ok(Some(Term::from(false)));
    }
    if first_holds && is_none_term(second) {
        return Ok(Some(not(alloc, guard.share()?)?));
    }
    if second_holds && is_none_term(first) {
        return Ok(Some(guard.share()?));
    }
    Ok(None)
}

// Whether a term equals the none of its type; false for what is no option.
fn none_by_type(alloc: Global, t: &Term) -> Result<Term, TermError>
    ensures { BuildsTerm result (none_by_type folding (plain_term t.now)) }
{
    match inner_type(alloc, t)? {
        Some(ty) => eq(alloc, t.share()?, none_of(ty)),
        None => Ok(Term::from(false)),
    }
}

/// Whether an option is none; what is no option is not.
///
/// Of none it is true and of `some` false. Of a choice between two `some` it is false, between some and none the guard's
/// negation, and between none and some the guard. Another option is compared with none.
///
/// # Errors
/// `Memory`, where there is none for the term.
pub fn is_none(alloc: Global, t: Term) -> Result<Term, TermError>
    ensures folded { BuildsTerm result (is_none folding (plain_term t)) }
    ensures refines { ResultRefines result (is_none applied (plain_term t)) }
{
    folded_is_none(alloc, &t)
}

// Whether an option is none, folded.
fn folded_is_none(alloc: Global, t: &Term) -> Result<Term, TermError>
    ensures { BuildsTerm result (is_none folding (plain_term t.now)) }
{
    match none_by_form(alloc, t)? {
        Some(known) => Ok(known),
        None => none_by_type(alloc, t),
    }
}

/// The negation of `is_none`.
///
/// # Errors
/// `Memory`, where there is none for the term.
pub fn is_some(alloc: Global, t: Term) -> Result<Term, TermError>
    ensures folded { BuildsTerm result (is_some folding (plain_term t)) }
    ensures refines { ResultRefines result (is_some applied (plain_term t)) }
{
    not(alloc, is_none(alloc, t)?)
}

/// Whether one of the options is none.
///
/// # Errors
/// `Memory`, where there is none for the term.
pub fn any_none(alloc: Global, gs: &[Term]) -> Result<Term, TermError>
    ensures folded { BuildsTerm result (any_none folding (plain_terms gs.now)) }
    ensures refines { ResultRefines result (any_none applied (plain_terms gs.now)) }
{
    let is_none_here = |t: Term| is_none(alloc, t);
    any_true(alloc, &is_none_here, gs)
}
