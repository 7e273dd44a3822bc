//! A function of one argument at a term.
#![tactic(auto, using(crate::proofs::FoldingFunctions::applying))]

ghost use Rattle.std.specs.Prelude.{◌≡◌, IfOk, map};
ghost use Rattle.law_folding.specs.AppOf.{IsAppOf};
ghost use Rattle.law_folding.specs.Builder.{folding};
ghost use Rattle.law_folding.specs.FoldFunctions.{app_of, choice_among, entry_at, folded_app};
ghost use Rattle.law_folding.specs.FoldFunctions.{uuf_of};
ghost use Rattle.smt_term.specs.Functions.{plain_definition, plain_unary};
ghost use Rattle.smt_term.specs.Tables.{plain_entry};
ghost use Rattle.law_terms.specs.Functions.{HasLiteralKeys, IsTypedFunction, argument_type};
ghost use Rattle.law_terms.specs.Typing.{Typed};
ghost use Rattle.smt_term.specs.View.{BuildsTerm, plain_function, plain_term};
ghost use Rattle.smt_factory_core.specs.Results.{ResultRefines};

use crate::{eq, ite, unary_application};
use smt_term::{Op, Term, TermError, Udf, UnaryFunction, Uuf};
use std::alloc::Global;
use std::rc::Rc;

/// A function at a term.
///
/// Of a function that an interpretation gives it is the application. Of one that a table defines, at a literal, it is the term
/// of the entry that has this literal as its key, or the default. At another term it is a choice for each entry, by whether the
/// term is equal to the key.
///
/// Where the keys are literals, and the entries, the default and the term are typed as the function says, it has the function's
/// value in every interpretation.
///
/// # Errors
/// `Memory`, where there is none for the term.
pub fn app(alloc: Global, f: UnaryFunction, t: Term) -> Result<Term, TermError>
    ensures folded { BuildsTerm result (folded_app (plain_unary f) (plain_term t)) }
    ensures refines { HasLiteralKeys (plain_unary f) →
        ResultRefines result (app_of (plain_unary f) (plain_term t)) }
    ensures value { HasLiteralKeys (plain_unary f) → IsTypedFunction (plain_unary f) →
        Typed (plain_term t) (argument_type (plain_unary f)) →
        IfOk result (λ r. IsAppOf (plain_unary f) (plain_term t) (plain_term r)) }
{
    folded_app(alloc, &f, &t)
}

// A function at a term, folded.
fn folded_app(alloc: Global, f: &UnaryFunction, t: &Term) -> Result<Term, TermError>
    ensures { BuildsTerm result (folded_app (plain_unary f.now) (plain_term t.now)) }
{
    match f {
        UnaryFunction::Uuf(function) => uninterpreted(alloc, function, t),
        UnaryFunction::Udf(function) => {
            if t.is_literal() {
                return entry(function, t);
            }
            choice(alloc, function.table.items(), &function.default, t)
        }
    }
}

// The application of a function that an interpretation gives.
fn uninterpreted(alloc: Global, function: &Rc<Uuf>, t: &Term) -> Result<Term, TermError>
    ensures { BuildsTerm result (uuf_of (plain_function function.now.value) (plain_term t.now)) }
{
    let ty = function.out.share()?;
    unary_application(alloc, Op::Uuf(function.clone()?), t, ty)
}

// The term of the entry that has a term as its key, and else the default.
fn entry(function: &Udf, t: &Term) -> Result<Term, TermError>
    ensures { BuildsTerm result (entry_at (plain_definition function.now) (plain_term t.now)) }
{
    match function.table.get(t) {
        Some(value) => value.share(),
        None => function.default.share(),
    }
}

// The value of the first entry whose key is equal to a term, and else the default: a choice for each entry, built from the last
// entry on.
fn choice(
    alloc: Global,
    entries: &[(Term, Term)],
    default: &Term,
    t: &Term,
) -> Result<Term, TermError>
    ensures { BuildsTerm result (choice_among folding (map plain_entry entries.now)
        (plain_term default.now) (plain_term t.now)) }
{
    let mut rest = default.share()?;
    for place in (0..entries.len()).rev() {
        let (key, value) = &entries[place];
        let is_key = eq(alloc, t.share()?, key.share()?)?;
        rest = ite(alloc, is_key, value.share()?, rest)?;
    }
    Ok(rest)
}
