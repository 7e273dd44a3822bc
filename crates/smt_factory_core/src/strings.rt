//! Strings of the theory UnicodeStrings: whether they match a pattern.
#![tactic(auto, using(crate::proofs::FoldingStrings::string_folding))]

ghost use Rattle.std.specs.Prelude.{◌≡◌, MatchOption, None};
ghost use Rattle.std.specs.Rc.{rc_str_bytes};
ghost use Rattle.law_folding.specs.Applications.{string_like_of};
ghost use Rattle.law_folding.specs.FoldStrings.{folded_string_like};
ghost use Rattle.law_folding.specs.Parts.{text_inside};
ghost use Rattle.smt_term.specs.PatternView.{plain_ord_pattern};
ghost use Rattle.law_terms.specs.Plain.{LiteralTerm, StringLiteral};
ghost use Rattle.smt_term.specs.View.{BuildsTerm, plain_literal, plain_term};
ghost use Rattle.smt_factory_core.specs.Results.{ResultRefines};

use crate::unary_test;
use smt_term::{Op, OrdPattern, Term, TermError, TermPrim, Text};
use std::alloc::Global;

// The text of a literal.
#[tactic(auto, using(smt_term::specs::View::views))]
fn text_inside(t: &Term) -> Option<&Text>
    ensures { MatchOption result (text_inside (plain_term t.now) ≡ None)
        (λ s. plain_term t.now ≡ LiteralTerm (StringLiteral (rc_str_bytes s.now))) }
{
    match t {
        Term::Prim(literal) => literal_text(literal),
        Term::App { .. }
        | Term::None(_)
        | Term::Record(_)
        | Term::Set { .. }
        | Term::Some(_)
        | Term::Var(_) => None,
    }
}

#[tactic(auto, using(smt_term::specs::View::views))]
fn literal_text(literal: &TermPrim) -> Option<&Text>
    ensures { MatchOption result
        (text_inside (LiteralTerm (plain_literal literal.now)) ≡ None)
        (λ s. plain_literal literal.now ≡ StringLiteral (rc_str_bytes s.now)) }
{
    match literal {
        TermPrim::String(text) => Some(text),
        TermPrim::Bitvec(_) | TermPrim::Bool(_) | TermPrim::Entity(_) | TermPrim::Ext(_) => None,
    }
}

/// Whether a string matches a pattern. Of a literal it is a literal.
///
/// # Errors
/// `Memory`, where there is none for the term.
pub fn string_like(alloc: Global, t: Term, p: OrdPattern) -> Result<Term, TermError>
    ensures folded { BuildsTerm result (folded_string_like (plain_term t) (plain_ord_pattern p)) }
    ensures refines { ResultRefines result (string_like_of (plain_term t) (plain_ord_pattern p)) }
{
    folded_string_like(alloc, &t, &p)
}

// Whether a string matches a pattern, folded.
fn folded_string_like(alloc: Global, t: &Term, p: &OrdPattern) -> Result<Term, TermError>
    ensures { BuildsTerm result (folded_string_like (plain_term t.now) (plain_ord_pattern p.now)) }
{
    match text_inside(t) {
        Some(text) => Ok(Term::from(p.wildcard_match(text))),
        None => {
            let op = Op::StringLike(p.share()?);
            unary_test(alloc, op, t)
        }
    }
}
