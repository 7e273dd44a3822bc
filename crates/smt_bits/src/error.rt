//! Why a call on bitvectors is refused.

use thiserror::Error;

/// The calls that take two bitvectors of one width.
#[derive(Clone, Copy, Debug, PartialEq, Eq, PartialOrd, Ord, Hash)]
pub enum BvCall {
    /// Signed less-than.
    Slt,
    /// Signed less-than-or-equal.
    Sle,
    /// Unsigned less-than.
    Ult,
    /// Unsigned less-than-or-equal.
    Ule,
    /// Sum.
    Add,
    /// Difference.
    Sub,
    /// Product.
    Mul,
    /// Unsigned quotient.
    Udiv,
    /// Unsigned remainder.
    Urem,
    /// Signed quotient.
    Sdiv,
    /// Signed remainder, with the dividend's sign.
    Srem,
    /// Signed remainder, with the divisor's sign.
    Smod,
    /// Shift to the left.
    Shl,
    /// Shift to the right, with zeros from the left.
    Lshr,
}

/// Why a call on bitvectors is refused.
#[derive(Clone, Copy, Debug, PartialEq, Eq, Error)]
pub enum BitVecError {
    /// The places to extract do not lie in the bitvector in this order.
    #[error("the places to extract do not lie in the bitvector")]
    ExtractOutOfBounds,
    /// The two bitvectors of this call have different widths.
    #[error("the bitvectors of {0:?} have different widths")]
    MismatchedWidths(BvCall),
    /// The number of places to shift by is above 4294967295.
    #[error("the number of places to shift by does not fit 32 bits")]
    ShiftAmountTooLarge,
    /// The widths together are above 128 bits.
    #[error("the widths together are above 128 bits")]
    WidthTooLarge,
}
