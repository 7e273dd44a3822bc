//! Options by a guard.
#![tactic(auto, using(crate::proofs::FoldingGuarded::guarding))]

ghost use Rattle.std.specs.Prelude.{◌≡◌};
ghost use Rattle.law_folding.specs.Builder.{applied, folding};
ghost use Rattle.law_folding.specs.Composites.{if_all_some, if_false, if_some, if_true, unless};
ghost use Rattle.smt_term.specs.View.{BuildsTerm, plain_term, plain_terms};
ghost use Rattle.smt_factory_core.specs.Results.{ResultRefines};

use crate::inside::inner_type;
use crate::presence::{any_none, is_none};
use crate::{ite, none_of, some_of};
use smt_term::{Term, TermError};
use std::alloc::Global;

/// Some of a term where the guard is false, and else none.
///
/// # Errors
/// `Memory`, where there is none for the term.
pub fn if_false(alloc: Global, g: Term, t: Term) -> Result<Term, TermError>
    ensures folded { BuildsTerm result (if_false folding (plain_term g) (plain_term t)) }
    ensures refines { ResultRefines result (if_false applied (plain_term g) (plain_term t)) }
{
    let none = none_of(t.type_of(alloc)?);
    ite(alloc, g, none, some_of(alloc, t)?)
}

/// Some of a term where the guard is true, and else none.
///
/// # Errors
/// `Memory`, where there is none for the term.
pub fn if_true(alloc: Global, g: Term, t: Term) -> Result<Term, TermError>
    ensures folded { BuildsTerm result (if_true folding (plain_term g) (plain_term t)) }
    ensures refines { ResultRefines result (if_true applied (plain_term g) (plain_term t)) }
{
    let none = none_of(t.type_of(alloc)?);
    ite(alloc, g, some_of(alloc, t)?, none)
}

// Where the guard is false an option itself, and some of another term; else none.
fn unless(alloc: Global, g: Term, t: &Term) -> Result<Term, TermError>
    ensures { BuildsTerm result (unless folding (plain_term g) (plain_term t.now)) }
{
    match inner_type(alloc, t)? {
        Some(ty) => ite(alloc, g, none_of(ty), t.share()?),
        None => if_false(alloc, g, t.share()?),
    }
}

/// A term as an option, where an option is some, and else none. A term that is an option stays what it is.
///
/// # Errors
/// `Memory`, where there is none for the term.
pub fn if_some(alloc: Global, g: Term, t: Term) -> Result<Term, TermError>
    ensures folded { BuildsTerm result (if_some folding (plain_term g) (plain_term t)) }
    ensures refines { ResultRefines result (if_some applied (plain_term g) (plain_term t)) }
{
    unless(alloc, is_none(alloc, g)?, &t)
}

/// A term as an option, where each of these options is some, and else none. A term that is an option stays what it is.
///
/// # Errors
/// `Memory`, where there is none for the term.
pub fn if_all_some(alloc: Global, gs: &[Term], t: Term) -> Result<Term, TermError>
    ensures folded { BuildsTerm result (if_all_some folding (plain_terms gs.now) (plain_term t)) }
    ensures refines { ResultRefines result
        (if_all_some applied (plain_terms gs.now) (plain_term t)) }
{
    unless(alloc, any_none(alloc, gs)?, &t)
}
