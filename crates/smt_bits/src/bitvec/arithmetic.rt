//! Sums, products, quotients and remainders of the theory FixedSizeBitVectors and of the logic QF_BV.
ghost use Rattle.std.specs.Prelude.{◌≡◌, IfOk, IfErr, OnOk};
ghost use Rattle.smt_bits.specs.BitVec.{width_of, number_of, IsMismatch};
ghost use Rattle.law_numbers.specs.BitVectors.{magnitude, negated_if, bvadd, bvsub, bvmul, bvudiv};
ghost use Rattle.law_numbers.specs.BitVectors.{bvurem, bvsdiv, bvsrem, bvsmod};

use super::BitVec;
use crate::error::{BitVecError, BvCall};

impl BitVec {
    /// The sum modulo 2 to the width (`bvadd` of FixedSizeBitVectors).
    ///
    /// # Errors
    /// `MismatchedWidths` exactly where the widths differ.
    pub fn add(lhs: &BitVec, rhs: &BitVec) -> Result<BitVec, BitVecError>
        ensures widths { OnOk result (width_of lhs.now ≡ width_of rhs.now) }
        ensures width { IfOk result (λ r. width_of r ≡ width_of lhs.now) }
        ensures value { IfOk result (λ r. number_of r ≡
            bvadd (width_of lhs.now) (number_of lhs.now) (number_of rhs.now)) }
        ensures refused { IfErr result (IsMismatch BvCall.Add lhs.now rhs.now) }
    {
        BitVec::common_width(BvCall::Add, lhs, rhs)?;
        Ok(lhs.sum(rhs))
    }

    /// The difference modulo 2 to the width (`bvsub` of QF_BV).
    ///
    /// # Errors
    /// `MismatchedWidths` exactly where the widths differ.
    pub fn sub(lhs: &BitVec, rhs: &BitVec) -> Result<BitVec, BitVecError>
        ensures widths { OnOk result (width_of lhs.now ≡ width_of rhs.now) }
        ensures width { IfOk result (λ r. width_of r ≡ width_of lhs.now) }
        ensures value { IfOk result (λ r. number_of r ≡
            bvsub (width_of lhs.now) (number_of lhs.now) (number_of rhs.now)) }
        ensures refused { IfErr result (IsMismatch BvCall.Sub lhs.now rhs.now) }
    {
        BitVec::common_width(BvCall::Sub, lhs, rhs)?;
        Ok(lhs.difference(rhs))
    }

    /// The product modulo 2 to the width (`bvmul` of FixedSizeBitVectors).
    ///
    /// # Errors
    /// `MismatchedWidths` exactly where the widths differ.
    pub fn mul(lhs: &BitVec, rhs: &BitVec) -> Result<BitVec, BitVecError>
        ensures widths { OnOk result (width_of lhs.now ≡ width_of rhs.now) }
        ensures width { IfOk result (λ r. width_of r ≡ width_of lhs.now) }
        ensures value { IfOk result (λ r. number_of r ≡
            bvmul (width_of lhs.now) (number_of lhs.now) (number_of rhs.now)) }
        ensures refused { IfErr result (IsMismatch BvCall.Mul lhs.now rhs.now) }
    {
        BitVec::common_width(BvCall::Mul, lhs, rhs)?;
        Ok(BitVec::of_nat(lhs.width, lhs.number.wrapping_mul(rhs.number)))
    }

    /// The quotient of the numbers, rounded down (`bvudiv` of FixedSizeBitVectors).
    ///
    /// Division by 0 gives all ones.
    ///
    /// # Errors
    /// `MismatchedWidths` exactly where the widths differ.
    pub fn udiv(lhs: &BitVec, rhs: &BitVec) -> Result<BitVec, BitVecError>
        ensures widths { OnOk result (width_of lhs.now ≡ width_of rhs.now) }
        ensures width { IfOk result (λ r. width_of r ≡ width_of lhs.now) }
        ensures value { IfOk result (λ r. number_of r ≡
            bvudiv (width_of lhs.now) (number_of lhs.now) (number_of rhs.now)) }
        ensures refused { IfErr result (IsMismatch BvCall.Udiv lhs.now rhs.now) }
    {
        BitVec::common_width(BvCall::Udiv, lhs, rhs)?;
        Ok(lhs.quotient(rhs))
    }

    /// The remainder of the numbers (`bvurem` of FixedSizeBitVectors).
    ///
    /// Division by 0 gives `lhs`.
    ///
    /// # Errors
    /// `MismatchedWidths` exactly where the widths differ.
    pub fn urem(lhs: &BitVec, rhs: &BitVec) -> Result<BitVec, BitVecError>
        ensures widths { OnOk result (width_of lhs.now ≡ width_of rhs.now) }
        ensures width { IfOk result (λ r. width_of r ≡ width_of lhs.now) }
        ensures value { IfOk result (λ r. number_of r ≡
            bvurem (width_of lhs.now) (number_of lhs.now) (number_of rhs.now)) }
        ensures refused { IfErr result (IsMismatch BvCall.Urem lhs.now rhs.now) }
    {
        BitVec::common_width(BvCall::Urem, lhs, rhs)?;
        Ok(lhs.remainder(rhs))
    }

    /// The quotient in two's complement, rounded toward 0 (`bvsdiv` of QF_BV).
    ///
    /// It is the unsigned quotient of the absolute values, negated where the signs differ. Division
    /// by 0 gives -1, or 1 where `lhs` is negative.
    ///
    /// # Errors
    /// `MismatchedWidths` exactly where the widths differ.
    pub fn sdiv(lhs: &BitVec, rhs: &BitVec) -> Result<BitVec, BitVecError>
        ensures widths { OnOk result (width_of lhs.now ≡ width_of rhs.now) }
        ensures width { IfOk result (λ r. width_of r ≡ width_of lhs.now) }
        ensures value { IfOk result (λ r. number_of r ≡
            bvsdiv (width_of lhs.now) (number_of lhs.now) (number_of rhs.now)) }
        ensures refused { IfErr result (IsMismatch BvCall.Sdiv lhs.now rhs.now) }
    {
        BitVec::common_width(BvCall::Sdiv, lhs, rhs)?;
        let quotient = lhs.magnitude().quotient(&rhs.magnitude());
        Ok(quotient.negated_if(lhs.is_negative() != rhs.is_negative()))
    }

    /// The remainder in two's complement with the sign of `lhs` (`bvsrem` of QF_BV).
    ///
    /// It is the unsigned remainder of the absolute values, negated where `lhs` is negative.
    ///
    /// # Errors
    /// `MismatchedWidths` exactly where the widths differ.
    pub fn srem(lhs: &BitVec, rhs: &BitVec) -> Result<BitVec, BitVecError>
        ensures widths { OnOk result (width_of lhs.now ≡ width_of rhs.now) }
        ensures width { IfOk result (λ r. width_of r ≡ width_of lhs.now) }
        ensures value { IfOk result (λ r. number_of r ≡
            bvsrem (width_of lhs.now) (number_of lhs.now) (number_of rhs.now)) }
        ensures refused { IfErr result (IsMismatch BvCall.Srem lhs.now rhs.now) }
    {
        BitVec::common_width(BvCall::Srem, lhs, rhs)?;
        let remainder = lhs.magnitude().remainder(&rhs.magnitude());
        Ok(remainder.negated_if(lhs.is_negative()))
    }

    /// The remainder in two's complement with the sign of `rhs` (`bvsmod` of QF_BV).
    ///
    /// With u the unsigned remainder of the absolute values: u where it is 0 or neither is negative,
    /// `rhs` - u where `lhs` alone is, u + `rhs` where `rhs` alone is, and -u where both are.
    ///
    /// # Errors
    /// `MismatchedWidths` exactly where the widths differ.
    pub fn smod(lhs: &BitVec, rhs: &BitVec) -> Result<BitVec, BitVecError>
        ensures widths { OnOk result (width_of lhs.now ≡ width_of rhs.now) }
        ensures width { IfOk result (λ r. width_of r ≡ width_of lhs.now) }
        ensures value { IfOk result (λ r. number_of r ≡
            bvsmod (width_of lhs.now) (number_of lhs.now) (number_of rhs.now)) }
        ensures refused { IfErr result (IsMismatch BvCall.Smod lhs.now rhs.now) }
    {
        BitVec::common_width(BvCall::Smod, lhs, rhs)?;
        let remainder = lhs.magnitude().remainder(&rhs.magnitude());
        if remainder.number == 0 {
            return Ok(remainder);
        }
        Ok(match (lhs.is_negative(), rhs.is_negative()) {
            (false, false) => remainder,
            (true, false) => rhs.difference(&remainder),
            (false, true) => remainder.sum(rhs),
            (true, true) => remainder.neg(),
        })
    }

    // The sum, at one width.
    fn sum(&self, rhs: &BitVec) -> BitVec
        requires { width_of self.now ≡ width_of rhs.now }
        ensures width { width_of result ≡ width_of self.now }
        ensures value { number_of result ≡
            bvadd (width_of self.now) (number_of self.now) (number_of rhs.now) }
    {
        BitVec::of_nat(self.width, self.number.wrapping_add(rhs.number))
    }

    // The difference, at one width.
    fn difference(&self, rhs: &BitVec) -> BitVec
        requires { width_of self.now ≡ width_of rhs.now }
        ensures width { width_of result ≡ width_of self.now }
        ensures value { number_of result ≡
            bvsub (width_of self.now) (number_of self.now) (number_of rhs.now) }
    {
        BitVec::of_nat(self.width, self.number.wrapping_sub(rhs.number))
    }

    // The unsigned quotient, at one width.
    fn quotient(&self, rhs: &BitVec) -> BitVec
        requires { width_of self.now ≡ width_of rhs.now }
        ensures width { width_of result ≡ width_of self.now }
        ensures value { number_of result ≡
            bvudiv (width_of self.now) (number_of self.now) (number_of rhs.now) }
    {
        let number = if rhs.number == 0 {
            self.width.ones()
        } else {
            self.number / rhs.number
        };
        BitVec {
            width: self.width,
            number,
        }
    }

    // The unsigned remainder, at one width.
    fn remainder(&self, rhs: &BitVec) -> BitVec
        requires { width_of self.now ≡ width_of rhs.now }
        ensures width { width_of result ≡ width_of self.now }
        ensures value { number_of result ≡
            bvurem (width_of self.now) (number_of self.now) (number_of rhs.now) }
    {
        let number = if rhs.number == 0 {
            self.number
        } else {
            self.number % rhs.number
        };
        BitVec {
            width: self.width,
            number,
        }
    }

    // The absolute value of the two's complement value.
    fn magnitude(&self) -> BitVec
        ensures width { width_of result ≡ width_of self.now }
        ensures value { number_of result ≡ magnitude (width_of self.now) (number_of self.now) }
    {
        if self.is_negative() {
            self.neg()
        } else {
            *self
        }
    }

    // The negation where it is asked for.
    fn negated_if(&self, negate: bool) -> BitVec
        ensures width { width_of result ≡ width_of self.now }
        ensures value { number_of result ≡
            negated_if negate (width_of self.now) (number_of self.now) }
    {
        if negate { self.neg() } else { *self }
    }
}
