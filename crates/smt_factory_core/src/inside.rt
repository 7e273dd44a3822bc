//! What an option holds, and the type of it.
#![tactic(auto, using(crate::proofs::FoldingInside::holding))]

ghost use Rattle.std.specs.Prelude.{◌≡◌, IfOk, MatchOption, None, Some};
ghost use Rattle.law_folding.specs.Applications.{option_get_of};
ghost use Rattle.law_folding.specs.FoldOptions.{folded_option_get};
ghost use Rattle.law_terms.specs.Types.{inner_type, type_of};
ghost use Rattle.smt_term.specs.View.{BuildsTerm, plain_term, plain_type};
ghost use Rattle.smt_factory_core.specs.Results.{ResultRefines};

use crate::{held, unary_application};
use smt_term::{Op, Term, TermError, TermType};
use std::alloc::Global;

/// What an option holds; of none the interpretation's value of the inner type. Of `some` it is what that holds, and what
/// is no option stays as it is.
///
/// # Errors
/// `Memory`, where there is none for the term.
pub fn option_get(alloc: Global, t: Term) -> Result<Term, TermError>
    ensures folded { BuildsTerm result (folded_option_get (plain_term t)) }
    ensures refines { ResultRefines result (option_get_of (plain_term t)) }
{
    folded_option_get(alloc, &t)
}

// What an option holds, folded.
fn folded_option_get(alloc: Global, t: &Term) -> Result<Term, TermError>
    ensures { BuildsTerm result (folded_option_get (plain_term t.now)) }
{
    if let Some(inner) = held(t) {
        return inner.share();
    }
    match inner_type(alloc, t)? {
        Some(ty) => unary_application(alloc, Op::OptionGet, t, ty),
        None => t.share(),
    }
}

// The type inside an option's type.
#[tactic(auto, using(smt_term::specs::View::views))]
pub(crate) fn inner_type(alloc: Global, t: &Term) -> Result<Option<TermType>, TermError>
    ensures { IfOk result (λ o.
        MatchOption o (inner_type (type_of (plain_term t.now)) ≡ None)
        (λ ty. inner_type (type_of (plain_term t.now)) ≡ Some (plain_type ty))) }
{
    match &t.type_of(alloc)? {
        TermType::Option { ty } => Ok(Some(ty.share()?)),
        TermType::Bitvec { .. }
        | TermType::Bool
        | TermType::Entity { .. }
        | TermType::Ext { .. }
        | TermType::String
        | TermType::Record { .. }
        | TermType::Set { .. } => Ok(None),
    }
}
