//! None and some, and what some holds.
#![tactic(auto, using(crate::proofs::Matching::matching))]

ghost use Rattle.std.specs.Prelude.{◌≡◌, MatchOption, None};
ghost use Rattle.law_folding.specs.Parts.{held, is_none_term};
ghost use Rattle.law_terms.specs.Plain.{NoneTerm, SomeTerm};
ghost use Rattle.smt_term.specs.View.{BuildsTerm, plain_term, plain_type};

use smt_term::{Term, TermError, TermType};
use std::alloc::Global;
use std::rc::Rc;

/// None of the options of values of a type.
pub fn none_of(ty: TermType) -> Term
    ensures { plain_term result ≡ NoneTerm (plain_type ty) }
{
    Term::None(ty)
}

/// The option that holds a term's value.
///
/// # Errors
/// `Memory`, where there is none for the term.
pub fn some_of(alloc: Global, t: Term) -> Result<Term, TermError>
    ensures { BuildsTerm result (SomeTerm (plain_term t)) }
{
    Ok(Term::Some(Rc::new(alloc, t)?))
}

/// What a `some` holds.
#[tactic(auto, using(smt_term::specs::View::views), unfolding(smt_term::specs::View::plain_term))]
pub fn held(t: &Term) -> Option<&Term>
    ensures { MatchOption result (held (plain_term t.now) ≡ None)
        (λ u. plain_term t.now ≡ SomeTerm (plain_term u.now)) }
{
    match t {
        Term::Some(inner) => Some(&**inner),
        Term::App { .. }
        | Term::None(_)
        | Term::Prim(_)
        | Term::Record(_)
        | Term::Set { .. }
        | Term::Var(_) => None,
    }
}

/// Whether it is none.
#[tactic(auto, using(smt_term::specs::View::views), unfolding(smt_term::specs::View::plain_term))]
pub fn is_none_term(t: &Term) -> bool
    ensures { result ≡ is_none_term (plain_term t.now) }
{
    match t {
        Term::None(_) => true,
        Term::App { .. }
        | Term::Prim(_)
        | Term::Record(_)
        | Term::Set { .. }
        | Term::Some(_)
        | Term::Var(_) => false,
    }
}
