//! Operators that move bits to other places: shifts, extraction, concatenation and extension.
ghost use Rattle.std.specs.Prelude.{◌≡◌, ◌+◌, ◌-◌, ◌≤◌, ◌<◌, ◌⊎◌, IfOk, IfErr, OnOk};
ghost use Rattle.smt_bits.specs.BitVec.{width_of, number_of, RefusesShift};
ghost use Rattle.law_numbers.specs.Shifts.{greatest_shift};
ghost use Rattle.law_numbers.specs.BitVectors.{bvshl, bvlshr, concat, extract, resize};
ghost use Rattle.smt_bits.specs.Width.{bits_in};

use super::BitVec;
use crate::error::{BitVecError, BvCall};
use crate::width::Width;

impl BitVec {
    /// `lhs` times 2 to the number of `rhs`, modulo 2 to the width (`bvshl` of FixedSizeBitVectors).
    ///
    /// By as many places as the width, and by more, the answer is 0.
    ///
    /// # Errors
    /// `MismatchedWidths` exactly where the widths differ, then `ShiftAmountTooLarge` exactly where
    /// the number of `rhs` is above 4294967295.
    pub fn shl(lhs: &BitVec, rhs: &BitVec) -> Result<BitVec, BitVecError>
        ensures widths { OnOk result (width_of lhs.now ≡ width_of rhs.now) }
        ensures fits { OnOk result (number_of rhs.now ≤ greatest_shift) }
        ensures width { IfOk result (λ r. width_of r ≡ width_of lhs.now) }
        ensures value { IfOk result (λ r. number_of r ≡
            bvshl (width_of lhs.now) (number_of lhs.now) (number_of rhs.now)) }
        ensures refused { IfErr result (RefusesShift BvCall.Shl lhs.now rhs.now) }
    {
        let places = BitVec::shift_amount(BvCall::Shl, lhs, rhs)?;
        if lhs.width.get() <= places {
            return Ok(BitVec::of_nat(lhs.width, 0));
        }
        Ok(BitVec::of_nat(lhs.width, lhs.number << places))
    }

    /// `lhs` divided by 2 to the number of `rhs`, rounded down (`bvlshr` of FixedSizeBitVectors).
    ///
    /// By as many places as the width, and by more, the answer is 0.
    ///
    /// # Errors
    /// `MismatchedWidths` exactly where the widths differ, then `ShiftAmountTooLarge` exactly where
    /// the number of `rhs` is above 4294967295.
    pub fn lshr(lhs: &BitVec, rhs: &BitVec) -> Result<BitVec, BitVecError>
        ensures widths { OnOk result (width_of lhs.now ≡ width_of rhs.now) }
        ensures fits { OnOk result (number_of rhs.now ≤ greatest_shift) }
        ensures width { IfOk result (λ r. width_of r ≡ width_of lhs.now) }
        ensures value { IfOk result (λ r. number_of r ≡
            bvlshr (width_of lhs.now) (number_of lhs.now) (number_of rhs.now)) }
        ensures refused { IfErr result (RefusesShift BvCall.Lshr lhs.now rhs.now) }
    {
        let places = BitVec::shift_amount(BvCall::Lshr, lhs, rhs)?;
        if lhs.width.get() <= places {
            return Ok(BitVec::of_nat(lhs.width, 0));
        }
        Ok(BitVec::of_nat(lhs.width, lhs.number >> places))
    }

    /// The bits of `lhs` and, below them, those of `rhs` (`concat` of FixedSizeBitVectors).
    ///
    /// # Errors
    /// `WidthTooLarge` exactly where the widths' sum is above 128.
    pub fn concat(lhs: &BitVec, rhs: &BitVec) -> Result<BitVec, BitVecError>
        ensures fits { OnOk result (width_of lhs.now + width_of rhs.now ≤ 128) }
        ensures width { IfOk result (λ r. width_of r ≡ width_of lhs.now + width_of rhs.now) }
        ensures value { IfOk result (λ r. number_of r ≡
            concat (width_of rhs.now) (number_of lhs.now) (number_of rhs.now)) }
        ensures refused { IfErr result (λ e.
            (e ≡ BitVecError.WidthTooLarge) × (128 < width_of lhs.now + width_of rhs.now)) }
    {
        let Some(width) = Width::new(lhs.width.get() + rhs.width.get()) else {
            return Err(BitVecError::WidthTooLarge);
        };
        Ok(BitVec {
            width,
            number: (lhs.number << rhs.width.get()) | rhs.number,
        })
    }

    /// The bits at the places `low` to `high` (`extract` of FixedSizeBitVectors).
    ///
    /// Both places are included, and the lowest is 0.
    ///
    /// # Errors
    /// `ExtractOutOfBounds` exactly where not `low <= high < width`.
    pub fn extract_bits(&self, low: u32, high: u32) -> Result<BitVec, BitVecError>
        ensures inside { OnOk result ((low ≤ high) × (high < width_of self.now)) }
        ensures width { IfOk result (λ r. width_of r ≡ high - low + 1) }
        ensures value { IfOk result (λ r. number_of r ≡ extract low high (number_of self.now)) }
        ensures refused { IfErr result (λ e. (e ≡ BitVecError.ExtractOutOfBounds)
            × ((high < low) ⊎ (width_of self.now ≤ high))) }
    {
        if high < low || self.width.get() <= high {
            return Err(BitVecError::ExtractOutOfBounds);
        }
        let Some(width) = Width::new(high - low + 1) else {
            return Err(BitVecError::ExtractOutOfBounds);
        };
        Ok(BitVec::of_nat(width, self.number >> low))
    }

    /// The same number at the width `n` (`zero_extend` of QF_BV); where `n` is smaller, the low bits.
    ///
    /// `n` is the new width, not the number of bits to add.
    pub fn zero_extend(bv: &BitVec, n: Width) -> BitVec
        ensures width { width_of result ≡ bits_in n }
        ensures value { number_of result ≡ resize (bits_in n) (number_of bv.now) }
    {
        BitVec::of_nat(n, bv.number)
    }

    // By how many places a shift moves, or its refusal.
    fn shift_amount(call: BvCall, lhs: &BitVec, rhs: &BitVec) -> Result<u32, BitVecError>
        ensures widths { OnOk result (width_of lhs.now ≡ width_of rhs.now) }
        ensures value { IfOk result (λ places. places ≡ number_of rhs.now) }
        ensures refused { IfErr result (RefusesShift call lhs.now rhs.now) }
    {
        BitVec::common_width(call, lhs, rhs)?;
        if rhs.number > 4294967295 {
            return Err(BitVecError::ShiftAmountTooLarge);
        }
        Ok(rhs.number as u32)
    }
}
