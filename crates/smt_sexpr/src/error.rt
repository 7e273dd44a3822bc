//! Why a text wasn't read.

ghost use Rattle.std.specs.Prelude.{◌≡◌};
ghost use Rattle.smt_sexpr.specs.declared.error.SExprParseError.TheVariants.{Memory};

use smt_script::Bytes;
use std::alloc::{AllocError, AllocFailed};
use thiserror::Error;

/// Why digits give no number.
#[derive(Clone, Copy, Debug, PartialEq, Eq, Error)]
pub enum IntFault {
    /// There is no digit.
    #[error("no digit")]
    Empty,
    /// The number is 2 to the 128 or above.
    #[error("the number does not fit 128 bits")]
    PosOverflow,
}

/// Why a text wasn't read.
#[derive(Debug, PartialEq, Eq, Drop, Error)]
pub enum SExprParseError {
    /// A literal without its base, a string without its end, or a text that ends before an expression does.
    #[error("unexpected end of the text")]
    UnexpectedEnd,
    /// A symbol isn't UTF-8.
    #[error("a symbol is not UTF-8")]
    Utf8Error,
    /// A string has an escape of a surrogate. The bytes are those between its quotes, as written.
    #[error("no string of characters: {0:?}")]
    StringParseError(Bytes),
    /// The digits of a numeral or of a literal give no number.
    #[error("no number: {0}")]
    ParseIntError(IntFault),
    /// A bracket closes where none is open.
    #[error("a bracket closes where none is open")]
    UnclosedSExpr,
    /// Something follows the expression.
    #[error("something follows the expression")]
    TrailingTokens,
    /// A literal in base 2 or 16 has more than 128 bits.
    #[error("a literal has more than 128 bits")]
    IntegerOverflow,
    /// A literal without bits. No call gives it.
    #[error("a literal has no bits")]
    ZeroWidthBitVec,
    /// More brackets are open than the caller allowed.
    #[error("too many brackets are open")]
    TooDeep,
    /// There was no memory left.
    #[error("out of memory")]
    Memory,
}

impl From<AllocError> for SExprParseError {
    ghost from_gives = { λ _ e. e ≡ Memory };

    fn from(_error: AllocError) -> SExprParseError {
        SExprParseError::Memory
    }
}

impl<T: Drop> From<AllocFailed<T>> for SExprParseError {
    ghost from_gives = { λ _ e. e ≡ Memory };

    fn from(_error: AllocFailed<T>) -> SExprParseError {
        SExprParseError::Memory
    }
}
