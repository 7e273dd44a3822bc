//! Operators from bits to bits together with the call that answers their values.
ghost use Rattle.std.specs.Fn.{FnReturnsAtPair};
ghost use Rattle.std.specs.Prelude.{◌≡◌, IfOk};
ghost use Rattle.smt_factory_core.specs.FoldBy.{AnswersValues, IsFoldedBy};
ghost use Rattle.law_folding.specs.Applications.{bits_of_two};
ghost use Rattle.smt_term.specs.View.{plain_op, plain_term};
ghost use Rattle.smt_factory_core.specs.Results.{ResultRefines};

use crate::bits::bvapp;
use smt_bits::{BitVec, BitVecError};
use smt_term::{Op, Term, TermError};
use std::alloc::Global;

/// An operator from bits to bits, and a call that answers its value at two bitvectors of one width or refuses.
#[derive(Debug, Drop)]
pub struct BvRule<F> {
    op: Op,
    f: F,
}

impl<F: Fn(&BitVec, &BitVec) -> Result<BitVec, BitVecError>> BvRule<F> {
    /// The rule that `f` answers the values of `op`.
    ///
    /// # Conditions
    /// `f` may be called at any two bitvectors, and what it answers at two of one width is the value of `op` there.
    pub fn new(op: Op, f: F) -> BvRule<F>
        requires callable { F.IsAlwaysCallable f }
        requires answers { AnswersValues (FnReturnsAtPair F.Fn f) (plain_op op) }
        ensures operator { result.op ≡ op }
        ensures callable { F.IsAlwaysCallable result.f }
        ensures answers { AnswersValues (FnReturnsAtPair F.Fn result.f) (plain_op result.op) }
    {
        BvRule { op, f }
    }
}

/// The application of a rule's operator. Two literals where its call answers give that answer as a literal; all else stays
/// an application.
///
/// # Errors
/// `Memory`, where there is none for the term.
pub fn bvapp_by<F>(alloc: Global, rule: &BvRule<F>, t1: Term, t2: Term) -> Result<Term, TermError>
where
    F: Fn(&BitVec, &BitVec) -> Result<BitVec, BitVecError>,
    requires callable { F.IsAlwaysCallable rule.now.f }
    requires answers { AnswersValues (FnReturnsAtPair F.Fn rule.now.f) (plain_op rule.now.op) }
    ensures folded { IfOk result (λ r.
        IsFoldedBy (FnReturnsAtPair F.Fn rule.now.f) (plain_op rule.now.op) (plain_term t1)
        (plain_term t2) (plain_term r)) }
    ensures refines { ResultRefines result
        (bits_of_two (plain_op rule.now.op) (plain_term t1) (plain_term t2)) }
{
    bvapp(alloc, rule.op.share()?, &rule.f, t1, t2)
}
