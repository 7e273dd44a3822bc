//! Bitvectors: how they are made from numbers and read as numbers, their signed range, complement
//! and negation.
ghost use Rattle.std.specs.Prelude.{◌≡◌, ◌-◌, ◌%◌, ◌^◌, ◌<◌, IfOk, IfErr};
ghost use Rattle.law_numbers.specs.BitVectors.{is_negative, signed, bits_of, bvnot, bvneg};
ghost use Rattle.law_numbers.specs.BitVectors.{overflows, least_signed, greatest_signed};

mod arithmetic;
mod comparison;
mod display;
mod places;

use crate::error::{BitVecError, BvCall};
use crate::number::{Int, Nat};
use crate::width::Width;

/// A width, and a number below 2 to that width. The order is by width, then by number.
#[derive(Clone, Copy, Debug, PartialEq, Eq, PartialOrd, Ord, Hash)]
pub struct BitVec {
    width: Width,
    number: Nat,
    pub ghost below_width: { number < 2 ^ width.bits },
}

impl BitVec {
    ghost use Rattle.smt_bits.specs.BitVec.{width_of, number_of, IsMismatch};
    ghost use Rattle.smt_bits.specs.Width.{bits_in};

    /// The number modulo 2 to the width.
    pub fn of_nat(width: Width, v: Nat) -> BitVec
        ensures width { width_of result ≡ bits_in width }
        ensures value { number_of result ≡ v % 2 ^ bits_in width }
    {
        BitVec {
            width,
            number: width.reduce(v),
        }
    }

    /// The number modulo 2 to the width, as [`BitVec::of_nat`].
    pub fn of_u128(width: Width, val: u128) -> BitVec
        ensures width { width_of result ≡ bits_in width }
        ensures value { number_of result ≡ val % 2 ^ bits_in width }
    {
        BitVec::of_nat(width, val)
    }

    /// The number modulo 2 to the width, in two's complement where it is negative.
    ///
    /// # Examples
    ///
    /// ```
    /// use kembura::BitVec;
    /// use kembura::bits::EIGHT;
    ///
    /// let bits = BitVec::of_int(EIGHT, -1);
    /// assert_eq!(rt; bits.to_nat(), 255);
    /// assert_eq!(rt; bits.to_int(), -1);
    /// ```
    pub fn of_int(width: Width, v: Int) -> BitVec
        ensures width { width_of result ≡ bits_in width }
        ensures value { number_of result ≡ bits_of (bits_in width) v }
    {
        BitVec::of_nat(width, v.cast_unsigned())
    }

    /// The number modulo 2 to the width, as [`BitVec::of_int`].
    pub fn of_i128(width: Width, val: i128) -> BitVec
        ensures width { width_of result ≡ bits_in width }
        ensures value { number_of result ≡ bits_of (bits_in width) val }
    {
        BitVec::of_int(width, val)
    }

    /// The number, without a sign.
    pub fn to_nat(&self) -> Nat
        ensures value { result ≡ number_of self.now }
        ensures below { result < 2 ^ width_of self.now }
    {
        self.number
    }

    /// The number, without a sign.
    pub fn as_nat(&self) -> &Nat
        ensures value { result.now ≡ number_of self.now }
        ensures below { result.now < 2 ^ width_of self.now }
    {
        &self.number
    }

    /// The two's complement value.
    pub fn to_int(&self) -> Int
        ensures { result ≡ signed (width_of self.now) (number_of self.now) }
    {
        if self.is_negative() {
            -1 - ((self.width.ones() - self.number) as i128)
        } else {
            self.number as i128
        }
    }

    /// The width.
    pub fn width(&self) -> Width
        ensures { bits_in result ≡ width_of self.now }
    {
        self.width
    }

    /// The least number of this width in two's complement, -2 to the width less one.
    pub fn signed_min(n: Width) -> Int
        ensures { result ≡ least_signed (bits_in n) }
    {
        -1 - ((n.high_bit() - 1) as i128)
    }

    /// The greatest number of this width in two's complement, 2 to the width less one, less one.
    pub fn signed_max(n: Width) -> Int
        ensures { result ≡ greatest_signed (bits_in n) }
    {
        (n.high_bit() - 1) as i128
    }

    /// Whether the number lies outside the signed range of this width.
    pub fn overflows(n: Width, i: &Int) -> bool
        ensures { result ≡ overflows (bits_in n) i.now }
    {
        *i < BitVec::signed_min(n) || BitVec::signed_max(n) < *i
    }

    /// The complement of each bit (`bvnot` of FixedSizeBitVectors).
    pub fn not(&self) -> BitVec
        ensures width { width_of result ≡ width_of self.now }
        ensures value { number_of result ≡ bvnot (width_of self.now) (number_of self.now) }
    {
        BitVec {
            width: self.width,
            number: self.width.ones() - self.number,
        }
    }

    /// The negation in two's complement (`bvneg` of FixedSizeBitVectors).
    pub fn neg(&self) -> BitVec
        ensures width { width_of result ≡ width_of self.now }
        ensures value { number_of result ≡ bvneg (width_of self.now) (number_of self.now) }
    {
        BitVec::of_nat(self.width, 0u128.wrapping_sub(self.number))
    }

    /// The least number of this width in two's complement, as a bitvector.
    pub fn int_min(width: Width) -> BitVec
        ensures width { width_of result ≡ bits_in width }
        ensures value { number_of result ≡ 2 ^ (bits_in width - 1) }
    {
        BitVec {
            width,
            number: width.high_bit(),
        }
    }

    // Whether the sign bit is set.
    fn is_negative(&self) -> bool
        ensures { result ≡ is_negative (width_of self.now) (number_of self.now) }
    {
        self.width.high_bit() <= self.number
    }

    // The one width of both bitvectors, or the refusal of the call that needs it.
    fn common_width(call: BvCall, lhs: &BitVec, rhs: &BitVec) -> Result<Width, BitVecError>
        ensures left { IfOk result (λ w. bits_in w ≡ width_of lhs.now) }
        ensures right { IfOk result (λ w. bits_in w ≡ width_of rhs.now) }
        ensures refused { IfErr result (IsMismatch call lhs.now rhs.now) }
    {
        if lhs.width == rhs.width {
            Ok(lhs.width)
        } else {
            Err(BitVecError::MismatchedWidths(call))
        }
    }
}
