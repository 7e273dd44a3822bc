//! Operators from bits to bits, of the theory FixedSizeBitVectors and the logic QF_BV.
ghost use Rattle.std.specs.Fn.{FnReturnsAtPair};
ghost use Rattle.std.specs.Prelude.{◌≡◌, ◌+◌, ◌≤◌, IfOk, IfSome, MatchOption, None, Some};
ghost use Rattle.law_numbers.specs.BitOperators.{BvaddOp, BvlshrOp, BvmulOp, BvsdivOp, BvshlOp};
ghost use Rattle.law_numbers.specs.BitOperators.{BvsmodOp, BvsremOp, BvsubOp, BvudivOp};
ghost use Rattle.law_numbers.specs.BitOperators.{BvuremOp};
ghost use Rattle.smt_factory_core.specs.FoldBy.{AnswersValues, IsFoldedBy};
ghost use Rattle.smt_bits.specs.BitVec.{number_of, width_of};
ghost use Rattle.smt_bits.specs.Width.{bits_in};
ghost use Rattle.law_folding.specs.Applications.{bits_of_two, bvneg_of, zero_extend_of};
ghost use Rattle.law_folding.specs.FoldBits.{folded_bits, folded_bvneg, folded_zero_extend};
ghost use Rattle.law_folding.specs.Parts.{negated_bits};
ghost use Rattle.law_terms.specs.Plain.{BitsOp};
ghost use Rattle.law_terms.specs.Types.{type_of, width_in};
ghost use Rattle.smt_term.specs.View.{BuildsTerm, plain_op, plain_term};
ghost use Rattle.smt_factory_core.specs.Results.{ResultRefines};

use crate::bit_literals::{answer, bits_inside};
use crate::{binary_application, only_one, unary_application};
use smt_bits::{BitVec, BitVecError, Width};
use smt_term::{Op, Term, TermError, TermType};
use std::alloc::Global;

/// The application of an operator from bits to bits, where `f` answers its value.
///
/// Two literals where `f` answers give that answer as a literal; all else stays an application. Where the answers on equal
/// widths are the operator's values, the result stands for the application.
///
/// # Conditions
/// `f` may be called at any two bitvectors.
///
/// # Errors
/// `Memory`, where there is none for the term.
pub fn bvapp<F>(alloc: Global, op: Op, f: &F, t1: Term, t2: Term) -> Result<Term, TermError>
where
    F: Fn(&BitVec, &BitVec) -> Result<BitVec, BitVecError>,
    requires { F.IsAlwaysCallable f.now }
    ensures folded { IfOk result (λ r.
        IsFoldedBy (FnReturnsAtPair F.Fn f.now) (plain_op op) (plain_term t1) (plain_term t2)
        (plain_term r)) }
    ensures refines { AnswersValues (FnReturnsAtPair F.Fn f.now) (plain_op op) →
        ResultRefines result (bits_of_two (plain_op op) (plain_term t1) (plain_term t2)) }
{
    folded_by(alloc, op, f, &t1, &t2)
}

// The application of an operator from bits to bits, where the call answers its value, folded.
fn folded_by<F>(alloc: Global, op: Op, f: &F, t1: &Term, t2: &Term) -> Result<Term, TermError>
where
    F: Fn(&BitVec, &BitVec) -> Result<BitVec, BitVecError>,
    requires { F.IsAlwaysCallable f.now }
    ensures { IfOk result (λ r.
        IsFoldedBy (FnReturnsAtPair F.Fn f.now) (plain_op op) (plain_term t1.now)
        (plain_term t2.now) (plain_term r)) }
{
    match answer(f, t1, t2) {
        Some(bits) => Ok(Term::from(bits)),
        None => of_two(alloc, op, t1, t2),
    }
}

// The application of an operator at two arguments, with the type of the first.
fn of_two(alloc: Global, op: Op, t1: &Term, t2: &Term) -> Result<Term, TermError>
    ensures { BuildsTerm result
        (bits_of_two (plain_op op) (plain_term t1.now) (plain_term t2.now)) }
{
    let ty = t1.type_of(alloc)?;
    binary_application(alloc, op, t1, t2, ty)
}

/// The negation. Of a literal it is a literal, and of a negation what that is of.
///
/// # Errors
/// `Memory`, where there is none for the term.
pub fn bvneg(alloc: Global, t: Term) -> Result<Term, TermError>
    ensures folded { BuildsTerm result (folded_bvneg (plain_term t)) }
    ensures refines { ResultRefines result (bvneg_of (plain_term t)) }
{
    folded_bvneg(alloc, &t)
}

// The negation, folded.
fn folded_bvneg(alloc: Global, t: &Term) -> Result<Term, TermError>
    ensures { BuildsTerm result (folded_bvneg (plain_term t.now)) }
{
    if let Some(bits) = bits_inside(t) {
        return Ok(Term::from(bits.neg()));
    }
    if let Some(operand) = negated_bits(t) {
        return operand.share();
    }
    unary_application(alloc, Op::Bvneg, t, t.type_of(alloc)?)
}

// What a negation of bits is of.
#[tactic(auto, using(smt_term::specs::View::views))]
fn negated_bits(t: &Term) -> Option<&Term>
    ensures { MatchOption result (negated_bits (plain_term t.now) ≡ None)
        (λ u. negated_bits (plain_term t.now) ≡ Some (plain_term u.now)) }
{
    match t {
        Term::App { op, args, .. } => match op {
            Op::Bvneg => only_one(args),
            _ => None,
        },
        Term::None(_)
        | Term::Prim(_)
        | Term::Record(_)
        | Term::Set { .. }
        | Term::Some(_)
        | Term::Var(_) => None,
    }
}

/// The sum.
///
/// # Examples
///
/// ```
/// use kembura::Term;
/// use kembura::factory::bvadd;
///
/// let sum = bvadd(alloc, Term::from(2i64), Term::from(3i64))?;
/// assert_eq!(rt; sum, Term::from(5i64));
/// ```
///
/// # Errors
/// `Memory`, where there is none for the term.
pub fn bvadd(alloc: Global, t1: Term, t2: Term) -> Result<Term, TermError>
    ensures folded { BuildsTerm result (folded_bits BvaddOp (plain_term t1) (plain_term t2)) }
    ensures refines { ResultRefines result
        (bits_of_two (BitsOp BvaddOp) (plain_term t1) (plain_term t2)) }
{
    bvapp(alloc, Op::Bvadd, &BitVec::add, t1, t2)
}

/// The difference.
///
/// # Errors
/// `Memory`, where there is none for the term.
pub fn bvsub(alloc: Global, t1: Term, t2: Term) -> Result<Term, TermError>
    ensures folded { BuildsTerm result (folded_bits BvsubOp (plain_term t1) (plain_term t2)) }
    ensures refines { ResultRefines result
        (bits_of_two (BitsOp BvsubOp) (plain_term t1) (plain_term t2)) }
{
    bvapp(alloc, Op::Bvsub, &BitVec::sub, t1, t2)
}

/// The product.
///
/// # Errors
/// `Memory`, where there is none for the term.
pub fn bvmul(alloc: Global, t1: Term, t2: Term) -> Result<Term, TermError>
    ensures folded { BuildsTerm result (folded_bits BvmulOp (plain_term t1) (plain_term t2)) }
    ensures refines { ResultRefines result
        (bits_of_two (BitsOp BvmulOp) (plain_term t1) (plain_term t2)) }
{
    bvapp(alloc, Op::Bvmul, &BitVec::mul, t1, t2)
}

/// The signed quotient, rounded toward 0.
///
/// # Errors
/// `Memory`, where there is none for the term.
pub fn bvsdiv(alloc: Global, t1: Term, t2: Term) -> Result<Term, TermError>
    ensures folded { BuildsTerm result (folded_bits BvsdivOp (plain_term t1) (plain_term t2)) }
    ensures refines { ResultRefines result
        (bits_of_two (BitsOp BvsdivOp) (plain_term t1) (plain_term t2)) }
{
    bvapp(alloc, Op::Bvsdiv, &BitVec::sdiv, t1, t2)
}

/// The unsigned quotient, rounded down.
///
/// # Errors
/// `Memory`, where there is none for the term.
pub fn bvudiv(alloc: Global, t1: Term, t2: Term) -> Result<Term, TermError>
    ensures folded { BuildsTerm result (folded_bits BvudivOp (plain_term t1) (plain_term t2)) }
    ensures refines { ResultRefines result
        (bits_of_two (BitsOp BvudivOp) (plain_term t1) (plain_term t2)) }
{
    bvapp(alloc, Op::Bvudiv, &BitVec::udiv, t1, t2)
}

/// The signed remainder with the dividend's sign.
///
/// # Errors
/// `Memory`, where there is none for the term.
pub fn bvsrem(alloc: Global, t1: Term, t2: Term) -> Result<Term, TermError>
    ensures folded { BuildsTerm result (folded_bits BvsremOp (plain_term t1) (plain_term t2)) }
    ensures refines { ResultRefines result
        (bits_of_two (BitsOp BvsremOp) (plain_term t1) (plain_term t2)) }
{
    bvapp(alloc, Op::Bvsrem, &BitVec::srem, t1, t2)
}

/// The signed remainder with the divisor's sign.
///
/// # Errors
/// `Memory`, where there is none for the term.
pub fn bvsmod(alloc: Global, t1: Term, t2: Term) -> Result<Term, TermError>
    ensures folded { BuildsTerm result (folded_bits BvsmodOp (plain_term t1) (plain_term t2)) }
    ensures refines { ResultRefines result
        (bits_of_two (BitsOp BvsmodOp) (plain_term t1) (plain_term t2)) }
{
    bvapp(alloc, Op::Bvsmod, &BitVec::smod, t1, t2)
}

/// The unsigned remainder.
///
/// # Errors
/// `Memory`, where there is none for the term.
pub fn bvurem(alloc: Global, t1: Term, t2: Term) -> Result<Term, TermError>
    ensures folded { BuildsTerm result (folded_bits BvuremOp (plain_term t1) (plain_term t2)) }
    ensures refines { ResultRefines result
        (bits_of_two (BitsOp BvuremOp) (plain_term t1) (plain_term t2)) }
{
    bvapp(alloc, Op::Bvurem, &BitVec::urem, t1, t2)
}

/// The shift to the left. A number of places above 4294967295 stays an application.
///
/// # Errors
/// `Memory`, where there is none for the term.
pub fn bvshl(alloc: Global, t1: Term, t2: Term) -> Result<Term, TermError>
    ensures folded { BuildsTerm result (folded_bits BvshlOp (plain_term t1) (plain_term t2)) }
    ensures refines { ResultRefines result
        (bits_of_two (BitsOp BvshlOp) (plain_term t1) (plain_term t2)) }
{
    bvapp(alloc, Op::Bvshl, &BitVec::shl, t1, t2)
}

/// The shift to the right, with zeros from the left. A number of places above 4294967295 stays an application.
///
/// # Errors
/// `Memory`, where there is none for the term.
pub fn bvlshr(alloc: Global, t1: Term, t2: Term) -> Result<Term, TermError>
    ensures folded { BuildsTerm result (folded_bits BvlshrOp (plain_term t1) (plain_term t2)) }
    ensures refines { ResultRefines result
        (bits_of_two (BitsOp BvlshrOp) (plain_term t1) (plain_term t2)) }
{
    bvapp(alloc, Op::Bvlshr, &BitVec::lshr, t1, t2)
}

/// The same number with `n` bits more. What is no bitvector stays as it is.
///
/// # Conditions
/// A bitvector has at most 128 bits with the `n` more.
///
/// # Errors
/// `Memory`, where there is none for the term.
pub fn zero_extend(alloc: Global, n: u32, t: Term) -> Result<Term, TermError>
    requires { IfSome (width_in (type_of (plain_term t))) (λ width. width + n ≤ 128) }
    ensures folded { BuildsTerm result (folded_zero_extend n (plain_term t)) }
    ensures refines { ResultRefines result (zero_extend_of n (plain_term t)) }
{
    folded_zero_extend(alloc, n, &t)
}

// The same number with more bits, folded.
#[tactic(auto, using(crate::proofs::Folding::width_fits))]
fn folded_zero_extend(alloc: Global, n: u32, t: &Term) -> Result<Term, TermError>
    requires { IfSome (width_in (type_of (plain_term t.now))) (λ width. width + n ≤ 128) }
    ensures { BuildsTerm result (folded_zero_extend n (plain_term t.now)) }
{
    if let Some(bits) = bits_inside(t) {
        return Ok(Term::from(extended(&bits, n)));
    }
    match type_width(alloc, t)? {
        Some(width) => {
            let ty = TermType::Bitvec { n: wider(width, n) };
            unary_application(alloc, Op::ZeroExtend(n), t, ty)
        }
        None => t.share(),
    }
}

// How many bits a term's values have, where it is of a type of bitvectors.
#[tactic(auto, using(smt_term::specs::View::views))]
fn type_width(alloc: Global, t: &Term) -> Result<Option<Width>, TermError>
    ensures { IfOk result (λ o.
        MatchOption o (width_in (type_of (plain_term t.now)) ≡ None)
        (λ n. width_in (type_of (plain_term t.now)) ≡ Some (bits_in n))) }
{
    match &t.type_of(alloc)? {
        TermType::Bitvec { n } => Ok(Some(*n)),
        TermType::Option { .. }
        | TermType::Bool
        | TermType::Entity { .. }
        | TermType::Ext { .. }
        | TermType::String
        | TermType::Record { .. }
        | TermType::Set { .. } => Ok(None),
    }
}

// The same number with as many bits more.
fn extended(bits: &BitVec, more: u32) -> BitVec
    requires { width_of bits.now + more ≤ 128 }
    ensures width { width_of result ≡ width_of bits.now + more }
    ensures value { number_of result ≡ number_of bits.now }
{
    BitVec::zero_extend(bits, wider(bits.width(), more))
}

// The width of as many bits more.
fn wider(width: Width, more: u32) -> Width
    requires { bits_in width + more ≤ 128 }
    ensures { bits_in result ≡ bits_in width + more }
{
    match Width::new(width.get() + more) {
        Some(sum) => sum,
        None => width,
    }
}
