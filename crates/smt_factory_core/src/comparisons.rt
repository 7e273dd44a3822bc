//! Comparisons of bits, of the theory FixedSizeBitVectors and the logic QF_BV.
ghost use Rattle.std.specs.Fn.{FnReturnsAtPair};
ghost use Rattle.std.specs.Prelude.{◌≡◌, IfOk};
ghost use Rattle.law_numbers.specs.BitOperators.{BvsleOp, BvsltOp, BvuleOp, BvultOp};
ghost use Rattle.smt_factory_core.specs.FoldBy.{IsTestedBy};
ghost use Rattle.law_folding.specs.Applications.{test_of_two};
ghost use Rattle.law_folding.specs.FoldBits.{folded_test};
ghost use Rattle.law_terms.specs.Plain.{TestOp};
ghost use Rattle.smt_term.specs.View.{BuildsTerm, plain_op, plain_term};
ghost use Rattle.smt_factory_core.specs.Results.{ResultRefines};

use crate::binary_test;
use crate::bit_literals::answer;
use smt_bits::{BitVec, BitVecError};
use smt_term::{Op, Term, TermError};
use std::alloc::Global;

// The application of a test of bits, where `f` answers its value.
fn test<F>(alloc: Global, op: Op, f: &F, t1: Term, t2: Term) -> Result<Term, TermError>
where
    F: Fn(&BitVec, &BitVec) -> Result<bool, BitVecError>,
    requires { F.IsAlwaysCallable f.now }
    ensures { IfOk result (λ r.
        IsTestedBy (FnReturnsAtPair F.Fn f.now) (plain_op op) (plain_term t1) (plain_term t2)
        (plain_term r)) }
{
    folded_by(alloc, op, f, &t1, &t2)
}

// The application of a test of bits, where the call answers its value, folded.
fn folded_by<F>(alloc: Global, op: Op, f: &F, t1: &Term, t2: &Term) -> Result<Term, TermError>
where
    F: Fn(&BitVec, &BitVec) -> Result<bool, BitVecError>,
    requires { F.IsAlwaysCallable f.now }
    ensures { IfOk result (λ r.
        IsTestedBy (FnReturnsAtPair F.Fn f.now) (plain_op op) (plain_term t1.now)
        (plain_term t2.now) (plain_term r)) }
{
    match answer(f, t1, t2) {
        Some(holds) => Ok(Term::from(holds)),
        None => binary_test(alloc, op, t1, t2),
    }
}

/// Whether the first is less than the second, in two's complement.
///
/// # Errors
/// `Memory`, where there is none for the term.
pub fn bvslt(alloc: Global, t1: Term, t2: Term) -> Result<Term, TermError>
    ensures folded { BuildsTerm result (folded_test BvsltOp (plain_term t1) (plain_term t2)) }
    ensures refines { ResultRefines result
        (test_of_two (TestOp BvsltOp) (plain_term t1) (plain_term t2)) }
{
    test(alloc, Op::Bvslt, &BitVec::slt, t1, t2)
}

/// Whether the first is at most the second, in two's complement.
///
/// # Examples
///
/// ```
/// use kembura::Term;
/// use kembura::factory::bvsle;
///
/// let is_late = bvsle(alloc, Term::from(8i64), Term::from(7i64))?;
/// assert_eq!(rt; is_late, Term::from(false));
/// ```
///
/// # Errors
/// `Memory`, where there is none for the term.
pub fn bvsle(alloc: Global, t1: Term, t2: Term) -> Result<Term, TermError>
    ensures folded { BuildsTerm result (folded_test BvsleOp (plain_term t1) (plain_term t2)) }
    ensures refines { ResultRefines result
        (test_of_two (TestOp BvsleOp) (plain_term t1) (plain_term t2)) }
{
    test(alloc, Op::Bvsle, &BitVec::sle, t1, t2)
}

/// Whether the first is less than the second, as a number.
///
/// # Errors
/// `Memory`, where there is none for the term.
pub fn bvult(alloc: Global, t1: Term, t2: Term) -> Result<Term, TermError>
    ensures folded { BuildsTerm result (folded_test BvultOp (plain_term t1) (plain_term t2)) }
    ensures refines { ResultRefines result
        (test_of_two (TestOp BvultOp) (plain_term t1) (plain_term t2)) }
{
    test(alloc, Op::Bvult, &BitVec::ult, t1, t2)
}

/// Whether the first is at most the second, as a number.
///
/// # Errors
/// `Memory`, where there is none for the term.
pub fn bvule(alloc: Global, t1: Term, t2: Term) -> Result<Term, TermError>
    ensures folded { BuildsTerm result (folded_test BvuleOp (plain_term t1) (plain_term t2)) }
    ensures refines { ResultRefines result
        (test_of_two (TestOp BvuleOp) (plain_term t1) (plain_term t2)) }
{
    test(alloc, Op::Bvule, &BitVec::ule, t1, t2)
}
