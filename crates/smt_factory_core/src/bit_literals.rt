//! The bitvectors of literals, and what a call answers at two of them.
#![tactic(auto, using(smt_term::specs::View::views))]

ghost use Rattle.std.specs.Fn.{FnReturnsAtPair};
ghost use Rattle.std.specs.Prelude.{◌≡◌, MatchOption, None, Ok};
ghost use Rattle.smt_factory_core.specs.FoldBy.{AnswersAt, RefusesAt, literal_of};
ghost use Rattle.smt_bits.specs.BitVec.{number_of, width_of};
ghost use Rattle.law_folding.specs.Parts.{bits_inside};
ghost use Rattle.law_terms.specs.Plain.{BitVecLiteral, LiteralTerm};
ghost use Rattle.smt_term.specs.View.{plain_literal, plain_term};

use smt_bits::{BitVec, BitVecError};
use smt_term::{Term, TermPrim};

// The bitvector of a literal of bits.
pub(crate) fn bits_inside(t: &Term) -> Option<BitVec>
    ensures { MatchOption result (bits_inside (plain_term t.now) ≡ None)
        (λ b. plain_term t.now ≡ literal_of b) }
{
    match t {
        Term::Prim(literal) => literal_bits(literal),
        Term::App { .. }
        | Term::None(_)
        | Term::Record(_)
        | Term::Set { .. }
        | Term::Some(_)
        | Term::Var(_) => None,
    }
}

fn literal_bits(literal: &TermPrim) -> Option<BitVec>
    ensures { MatchOption result
        (bits_inside (LiteralTerm (plain_literal literal.now)) ≡ None)
        (λ b. plain_literal literal.now ≡ BitVecLiteral (width_of b) (number_of b)) }
{
    match literal {
        TermPrim::Bitvec(bits) => Some(*bits),
        TermPrim::Bool(_) | TermPrim::Entity(_) | TermPrim::Ext(_) | TermPrim::String(_) => None,
    }
}

// What the call answers at the bits of two literals.
pub(crate) fn answer<F, X>(f: &F, t1: &Term, t2: &Term) -> Option<X>
where
    F: Fn(&BitVec, &BitVec) -> Result<X, BitVecError>,
    requires { F.IsAlwaysCallable f.now }
    ensures { MatchOption result
        (RefusesAt (FnReturnsAtPair F.Fn f.now) (plain_term t1.now) (plain_term t2.now)) (λ c.
        AnswersAt (FnReturnsAtPair F.Fn f.now) (plain_term t1.now) (plain_term t2.now) (Ok c)) }
{
    let Some(left) = bits_inside(t1) else {
        return None;
    };
    let Some(right) = bits_inside(t2) else {
        return None;
    };
    match f(&left, &right) {
        Ok(bits) => Some(bits),
        Err(_) => None,
    }
}
