//! The comparisons of the theory FixedSizeBitVectors and of the logic QF_BV.
ghost use Rattle.std.specs.Prelude.{◌≡◌, IfOk, IfErr, OnOk};
ghost use Rattle.smt_bits.specs.BitVec.{width_of, number_of, IsMismatch};
ghost use Rattle.law_numbers.specs.BitVectors.{bvult, bvule, bvslt, bvsle};

use super::BitVec;
use crate::error::{BitVecError, BvCall};

impl BitVec {
    /// Whether `lhs` is less than `rhs` in two's complement (`bvslt` of QF_BV).
    ///
    /// # Errors
    /// `MismatchedWidths` exactly where the widths differ.
    pub fn slt(lhs: &BitVec, rhs: &BitVec) -> Result<bool, BitVecError>
        ensures widths { OnOk result (width_of lhs.now ≡ width_of rhs.now) }
        ensures value { IfOk result
            (λ r. r ≡ bvslt (width_of lhs.now) (number_of lhs.now) (number_of rhs.now)) }
        ensures refused { IfErr result (IsMismatch BvCall.Slt lhs.now rhs.now) }
    {
        BitVec::common_width(BvCall::Slt, lhs, rhs)?;
        Ok(lhs.to_int() < rhs.to_int())
    }

    /// Whether `lhs` is at most `rhs` in two's complement (`bvsle` of QF_BV).
    ///
    /// # Errors
    /// `MismatchedWidths` exactly where the widths differ.
    pub fn sle(lhs: &BitVec, rhs: &BitVec) -> Result<bool, BitVecError>
        ensures widths { OnOk result (width_of lhs.now ≡ width_of rhs.now) }
        ensures value { IfOk result
            (λ r. r ≡ bvsle (width_of lhs.now) (number_of lhs.now) (number_of rhs.now)) }
        ensures refused { IfErr result (IsMismatch BvCall.Sle lhs.now rhs.now) }
    {
        BitVec::common_width(BvCall::Sle, lhs, rhs)?;
        Ok(lhs.to_int() <= rhs.to_int())
    }

    /// Whether `lhs` is less than `rhs` as a number (`bvult` of FixedSizeBitVectors).
    ///
    /// # Errors
    /// `MismatchedWidths` exactly where the widths differ.
    pub fn ult(lhs: &BitVec, rhs: &BitVec) -> Result<bool, BitVecError>
        ensures widths { OnOk result (width_of lhs.now ≡ width_of rhs.now) }
        ensures value { IfOk result
            (λ r. r ≡ bvult (width_of lhs.now) (number_of lhs.now) (number_of rhs.now)) }
        ensures refused { IfErr result (IsMismatch BvCall.Ult lhs.now rhs.now) }
    {
        BitVec::common_width(BvCall::Ult, lhs, rhs)?;
        Ok(lhs.number < rhs.number)
    }

    /// Whether `lhs` is at most `rhs` as a number (`bvule` of QF_BV).
    ///
    /// # Errors
    /// `MismatchedWidths` exactly where the widths differ.
    pub fn ule(lhs: &BitVec, rhs: &BitVec) -> Result<bool, BitVecError>
        ensures widths { OnOk result (width_of lhs.now ≡ width_of rhs.now) }
        ensures value { IfOk result
            (λ r. r ≡ bvule (width_of lhs.now) (number_of lhs.now) (number_of rhs.now)) }
        ensures refused { IfErr result (IsMismatch BvCall.Ule lhs.now rhs.now) }
    {
        BitVec::common_width(BvCall::Ule, lhs, rhs)?;
        Ok(lhs.number <= rhs.number)
    }
}
