//! Tests whether a signed result leaves the signed range of its width.
ghost use Rattle.std.specs.Fn.{FnReturnsAtPair};
ghost use Rattle.std.specs.Prelude.{◌≡◌, ◌⊎◌, ◌+ℤ◌, ◌-ℤ◌, ◌*ℤ◌, FitsSigned, IfOk, MatchOption};
ghost use Rattle.std.specs.Prelude.{SomeIff};
ghost use Rattle.std.specs.Int.{w128};
ghost use Rattle.law_numbers.specs.BitOperators.{BvsaddoOp, BvsmuloOp, BvssuboOp};
ghost use Rattle.smt_factory_core.specs.FoldBy.{IsOverflowBy, LeavesAt, NotTwoLiterals};
ghost use Rattle.smt_factory_core.specs.FoldBy.{OfTwoWidths, TellsOverflow, leaves};
ghost use Rattle.smt_bits.specs.Width.{bits_in};
ghost use Rattle.law_folding.specs.Applications.{bvnego_of, test_of_two};
ghost use Rattle.law_folding.specs.FoldBits.{folded_bvnego, folded_overflow};
ghost use Rattle.law_terms.specs.Plain.{OverflowOp};
ghost use Rattle.smt_term.specs.View.{BuildsTerm, plain_op, plain_term};
ghost use Rattle.smt_factory_core.specs.Results.{ResultRefines};

use crate::bit_literals::bits_inside;
use crate::{binary_test, unary_test};
use smt_bits::{BitVec, Int, Width};
use smt_term::{Op, Term, TermError};
use std::alloc::Global;

/// Whether the negation leaves the signed range. Of a literal it does where that is the least value.
///
/// # Errors
/// `Memory`, where there is none for the term.
pub fn bvnego(alloc: Global, t: Term) -> Result<Term, TermError>
    ensures folded { BuildsTerm result (folded_bvnego (plain_term t)) }
    ensures refines { ResultRefines result (bvnego_of (plain_term t)) }
{
    folded_bvnego(alloc, &t)
}

// Whether the negation leaves the signed range, folded.
fn folded_bvnego(alloc: Global, t: &Term) -> Result<Term, TermError>
    ensures { BuildsTerm result (folded_bvnego (plain_term t.now)) }
{
    match bits_inside(t) {
        Some(bits) => Ok(Term::from(bits.to_nat() == BitVec::int_min(bits.width()).to_nat())),
        None => unary_test(alloc, Op::Bvnego, t),
    }
}

/// The test whether a signed result, which `f` answers, leaves the signed range.
///
/// Two literals of one width are folded: to true where `f` answers none or a number outside the range, and else to false.
/// All else stays an application. Where this is the operator's value, the result stands for the application.
///
/// # Conditions
/// `f` may be called at any two numbers.
///
/// # Errors
/// `Memory`, where there is none for the term.
pub fn bvso<F>(alloc: Global, op: Op, f: &F, t1: Term, t2: Term) -> Result<Term, TermError>
where
    F: Fn(&Int, &Int) -> Option<Int>,
    requires { F.IsAlwaysCallable f.now }
    ensures folded { IfOk result (λ r.
        IsOverflowBy (FnReturnsAtPair F.Fn f.now) (plain_op op) (plain_term t1) (plain_term t2)
        (plain_term r)) }
    ensures refines { TellsOverflow (FnReturnsAtPair F.Fn f.now) (plain_op op) →
        ResultRefines result (test_of_two (plain_op op) (plain_term t1) (plain_term t2)) }
{
    folded_by(alloc, op, f, &t1, &t2)
}

// The test whether what the call answers leaves the signed range, folded.
fn folded_by<F>(alloc: Global, op: Op, f: &F, t1: &Term, t2: &Term) -> Result<Term, TermError>
where
    F: Fn(&Int, &Int) -> Option<Int>,
    requires { F.IsAlwaysCallable f.now }
    ensures { IfOk result (λ r.
        IsOverflowBy (FnReturnsAtPair F.Fn f.now) (plain_op op) (plain_term t1.now)
        (plain_term t2.now) (plain_term r)) }
{
    match overflow(f, t1, t2) {
        Some(leaves) => Ok(Term::from(leaves)),
        None => binary_test(alloc, op, t1, t2),
    }
}

// Whether what the call answers leaves the signed range, at two literals of one width.
fn overflow<F>(f: &F, t1: &Term, t2: &Term) -> Option<bool>
where
    F: Fn(&Int, &Int) -> Option<Int>,
    requires { F.IsAlwaysCallable f.now }
    ensures { MatchOption result
        (OfTwoWidths (plain_term t1.now) (plain_term t2.now)
        ⊎ NotTwoLiterals (plain_term t1.now) (plain_term t2.now))
        (λ o. LeavesAt (FnReturnsAtPair F.Fn f.now) (plain_term t1.now) (plain_term t2.now) o) }
{
    let Some(left) = bits_inside(t1) else {
        return None;
    };
    let Some(right) = bits_inside(t2) else {
        return None;
    };
    if left.width() != right.width() {
        return None;
    }
    let answer = f(&left.to_int(), &right.to_int());
    Some(leaves(left.width(), answer))
}

// Whether a result is none, or outside the signed range.
fn leaves(width: Width, answer: Option<Int>) -> bool
    ensures { result ≡ leaves (bits_in width) answer }
{
    match answer {
        Some(number) => BitVec::overflows(width, &number),
        None => true,
    }
}

/// Whether the signed sum leaves the signed range.
///
/// # Errors
/// `Memory`, where there is none for the term.
pub fn bvsaddo(alloc: Global, t1: Term, t2: Term) -> Result<Term, TermError>
    ensures folded { BuildsTerm result (folded_overflow BvsaddoOp (plain_term t1) (plain_term t2)) }
    ensures refines { ResultRefines result
        (test_of_two (OverflowOp BvsaddoOp) (plain_term t1) (plain_term t2)) }
{
    bvso(alloc, Op::Bvsaddo, &exact_sum, t1, t2)
}

// The sum, or none where the machine's numbers do not hold it.
fn exact_sum(lhs: &Int, rhs: &Int) -> Option<Int>
    ensures { SomeIff result (FitsSigned w128 (lhs.now +ℤ rhs.now)) (lhs.now +ℤ rhs.now) }
{
    lhs.checked_add(*rhs)
}

/// Whether the signed difference leaves the signed range.
///
/// # Errors
/// `Memory`, where there is none for the term.
pub fn bvssubo(alloc: Global, t1: Term, t2: Term) -> Result<Term, TermError>
    ensures folded { BuildsTerm result (folded_overflow BvssuboOp (plain_term t1) (plain_term t2)) }
    ensures refines { ResultRefines result
        (test_of_two (OverflowOp BvssuboOp) (plain_term t1) (plain_term t2)) }
{
    bvso(alloc, Op::Bvssubo, &exact_difference, t1, t2)
}

// The difference, or none where the machine's numbers do not hold it.
fn exact_difference(lhs: &Int, rhs: &Int) -> Option<Int>
    ensures { SomeIff result (FitsSigned w128 (lhs.now -ℤ rhs.now)) (lhs.now -ℤ rhs.now) }
{
    lhs.checked_sub(*rhs)
}

/// Whether the signed product leaves the signed range.
///
/// # Errors
/// `Memory`, where there is none for the term.
pub fn bvsmulo(alloc: Global, t1: Term, t2: Term) -> Result<Term, TermError>
    ensures folded { BuildsTerm result (folded_overflow BvsmuloOp (plain_term t1) (plain_term t2)) }
    ensures refines { ResultRefines result
        (test_of_two (OverflowOp BvsmuloOp) (plain_term t1) (plain_term t2)) }
{
    bvso(alloc, Op::Bvsmulo, &exact_product, t1, t2)
}

// The product, or none where the machine's numbers do not hold it.
fn exact_product(lhs: &Int, rhs: &Int) -> Option<Int>
    ensures { SomeIff result (FitsSigned w128 (lhs.now *ℤ rhs.now)) (lhs.now *ℤ rhs.now) }
{
    lhs.checked_mul(*rhs)
}
