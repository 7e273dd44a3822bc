// Operators by their names, and what is built for them.
ghost use Rattle.std.specs.Prelude.{◌≡◌, ◌∷◌, [], Some, IfOk, IsTrue, is_some, map, option_map};
ghost use Rattle.law_folding.specs.Built.{folded};
ghost use Rattle.law_terms.specs.Plain.{PlainTerm, PlainType};
ghost use Rattle.law_terms.specs.Types.{result_type, type_of};
ghost use Rattle.smt_term.specs.View.{BuildsTerm, plain_op, plain_term, plain_terms};
ghost use Rattle.law_jobs.specs.Terms.{extension_named, operator_named, other_named};

use smt_term::{ExtOp, Op, Term, TermError, UnaryFunction};
use std::alloc::Global;

/// The operator of a name, but for those on values of the extension types and those to which something else belongs.
fn other_named(name: &str) -> Option<Op>
    ensures { option_map plain_op result ≡ other_named name.now }
{
    match name {
        "not" => Some(Op::Not),
        "and" => Some(Op::And),
        "or" => Some(Op::Or),
        "eq" => Some(Op::Eq),
        "ite" => Some(Op::Ite),
        "bvneg" => Some(Op::Bvneg),
        "bvadd" => Some(Op::Bvadd),
        "bvsub" => Some(Op::Bvsub),
        "bvmul" => Some(Op::Bvmul),
        "bvudiv" => Some(Op::Bvudiv),
        "bvurem" => Some(Op::Bvurem),
        "bvsdiv" => Some(Op::Bvsdiv),
        "bvsrem" => Some(Op::Bvsrem),
        "bvsmod" => Some(Op::Bvsmod),
        "bvshl" => Some(Op::Bvshl),
        "bvlshr" => Some(Op::Bvlshr),
        "bvult" => Some(Op::Bvult),
        "bvule" => Some(Op::Bvule),
        "bvslt" => Some(Op::Bvslt),
        "bvsle" => Some(Op::Bvsle),
        "bvnego" => Some(Op::Bvnego),
        "bvsaddo" => Some(Op::Bvsaddo),
        "bvssubo" => Some(Op::Bvssubo),
        "bvsmulo" => Some(Op::Bvsmulo),
        "option.get" => Some(Op::OptionGet),
        "set.member" => Some(Op::SetMember),
        "set.subset" => Some(Op::SetSubset),
        "set.inter" => Some(Op::SetInter),
        _ => None,
    }
}

/// The operator of a name on values of the extension types.
#[tactic(auto, using(crate::proofs::ExtensionNames::by_name))]
fn extension_named(name: &str) -> Option<Op>
    ensures { option_map plain_op result ≡ extension_named name.now }
{
    match ExtOp::of_name(name) {
        Some(op) => Some(Op::Ext(op)),
        None => None,
    }
}

/// The operator of a name, but for those to which something else belongs.
pub fn operator_named(name: &str) -> Option<Op>
    ensures { option_map plain_op result ≡ operator_named name.now }
{
    match other_named(name) {
        Some(op) => Some(op),
        None => extension_named(name),
    }
}

/// What the factory builds for an operator at these operands, None where it does not take them.
///
/// # Errors
///
/// `Memory`, where there is none for the term.
pub fn built_from(alloc: Global, op: &Op, operands: &[Term]) -> Result<Option<Term>, TermError>
    ensures { IfOk result (λ found.
        option_map plain_term found
        ≡ option_map (folded (plain_op op.now) (plain_terms operands.now))
        (result_type (plain_op op.now) (map type_of (plain_terms operands.now)))) }
{
    if !op.takes(operands) {
        return Ok(None);
    }
    match operands {
        [a] => built_from_one(alloc, op, a),
        [a, b] => built_from_two(alloc, op, a, b),
        [a, b, c] => built_from_three(alloc, op, a, b, c),
        _ => Ok(None),
    }
}

// Some of what was built: one exit for all calls, since each exit is proved by itself.
fn some(built: Result<Term, TermError>) -> Result<Option<Term>, TermError>
    ensures { (u : PlainTerm) → BuildsTerm built u →
        IfOk result (λ found. option_map plain_term found ≡ Some u) }
{
    Ok(Some(built?))
}

// Of one operand that the operator takes.
fn built_from_one(alloc: Global, op: &Op, a: &Term) -> Result<Option<Term>, TermError>
    requires { IsTrue (is_some (result_type (plain_op op.now) (type_of (plain_term a.now) ∷ []))) }
    ensures { (ty : PlainType) →
        result_type (plain_op op.now) (type_of (plain_term a.now) ∷ []) ≡ Some ty →
        IfOk result (λ found.
        option_map plain_term found ≡ Some (folded (plain_op op.now) (plain_term a.now ∷ []) ty)) }
{
    let a = a.share()?;
    match op {
        Op::Not => some(smt_factory_core::not(alloc, a)),
        Op::Bvneg => some(smt_factory_core::bvneg(alloc, a)),
        Op::Bvnego => some(smt_factory_core::bvnego(alloc, a)),
        Op::Ext(op) => some(smt_factory_core::extension(alloc, *op, a)),
        Op::OptionGet => some(smt_factory_core::option_get(alloc, a)),
        Op::RecordGet(attribute) => some(smt_factory_core::record_get(alloc, a, attribute)),
        Op::StringLike(pattern) => some(smt_factory_core::string_like(alloc, a, pattern.share()?)),
        Op::Uuf(function) => {
            let function = UnaryFunction::Uuf(function.clone()?);
            some(smt_factory_core::app(alloc, function, a))
        }
        Op::ZeroExtend(bits) => some(smt_factory_core::zero_extend(alloc, *bits, a)),
        _ => Ok(None),
    }
}

// Of two operands that the operator takes.
fn built_from_two(alloc: Global, op: &Op, a: &Term, b: &Term) -> Result<Option<Term>, TermError>
    requires { IsTrue (is_some (result_type (plain_op op.now)
        (type_of (plain_term a.now) ∷ type_of (plain_term b.now) ∷ []))) }
    ensures { (ty : PlainType) →
        IfOk result (λ found.
        option_map plain_term found
        ≡ Some (folded (plain_op op.now) (plain_term a.now ∷ plain_term b.now ∷ []) ty)) }
{
    let a = a.share()?;
    let b = b.share()?;
    match op {
        Op::And => some(smt_factory_core::and(alloc, a, b)),
        Op::Or => some(smt_factory_core::or(alloc, a, b)),
        Op::Eq => some(smt_factory_core::eq(alloc, a, b)),
        Op::Bvadd => some(smt_factory_core::bvadd(alloc, a, b)),
        Op::Bvsub => some(smt_factory_core::bvsub(alloc, a, b)),
        Op::Bvmul => some(smt_factory_core::bvmul(alloc, a, b)),
        Op::Bvudiv => some(smt_factory_core::bvudiv(alloc, a, b)),
        Op::Bvurem => some(smt_factory_core::bvurem(alloc, a, b)),
        Op::Bvsdiv => some(smt_factory_core::bvsdiv(alloc, a, b)),
        Op::Bvsrem => some(smt_factory_core::bvsrem(alloc, a, b)),
        Op::Bvsmod => some(smt_factory_core::bvsmod(alloc, a, b)),
        Op::Bvshl => some(smt_factory_core::bvshl(alloc, a, b)),
        Op::Bvlshr => some(smt_factory_core::bvlshr(alloc, a, b)),
        Op::Bvult => some(smt_factory_core::bvult(alloc, a, b)),
        Op::Bvule => some(smt_factory_core::bvule(alloc, a, b)),
        Op::Bvslt => some(smt_factory_core::bvslt(alloc, a, b)),
        Op::Bvsle => some(smt_factory_core::bvsle(alloc, a, b)),
        Op::Bvsaddo => some(smt_factory_core::bvsaddo(alloc, a, b)),
        Op::Bvssubo => some(smt_factory_core::bvssubo(alloc, a, b)),
        Op::Bvsmulo => some(smt_factory_core::bvsmulo(alloc, a, b)),
        Op::SetInter => some(smt_factory_core::set_inter(alloc, a, b)),
        Op::SetMember => some(smt_factory_core::set_member(alloc, a, b)),
        Op::SetSubset => some(smt_factory_core::set_subset(alloc, a, b)),
        Op::Bvneg
        | Op::Bvnego
        | Op::Ext(_)
        | Op::Ite
        | Op::Not
        | Op::OptionGet
        | Op::RecordGet(_)
        | Op::StringLike(_)
        | Op::Uuf(_)
        | Op::ZeroExtend(_) => Ok(None),
    }
}

// Of three operands that the operator takes.
fn built_from_three(
    alloc: Global,
    op: &Op,
    a: &Term,
    b: &Term,
    c: &Term,
) -> Result<Option<Term>, TermError>
    requires { IsTrue (is_some (result_type (plain_op op.now)
        (type_of (plain_term a.now) ∷ type_of (plain_term b.now) ∷ type_of (plain_term c.now)
        ∷ []))) }
    ensures { (ty : PlainType) →
        IfOk result (λ found.
        option_map plain_term found
        ≡ Some (folded (plain_op op.now)
        (plain_term a.now ∷ plain_term b.now ∷ plain_term c.now ∷ []) ty)) }
{
    match op {
        Op::Ite => some(smt_factory_core::ite(alloc, a.share()?, b.share()?, c.share()?)),
        _ => Ok(None),
    }
}
