//! Numbers in base 2, 10 and 16.
#![tactic(auto, using(crate::specs::View::views))]

ghost use Rattle.std.specs.Prelude.{◌≡◌, ◌*◌, ◌^◌, ◌<◌, ◌≤◌, length, IfOk, IfErr, IfSome, IfNone};
ghost use Rattle.std.specs.Option.{SomeIff};
ghost use Rattle.smt_bits.specs.Width.{bits_in};
ghost use Rattle.law_texts.specs.Lexicon.{digit_value, number_in};
ghost use Rattle.smt_sexpr.specs.Literals.{AreDigits, IsLiteral, IsLiteralFault};

use crate::error::{IntFault, SExprParseError};
use smt_bits::{BitVec, Width};

// The value of a digit of a base up to 16, capital or small.
fn value_of_digit(byte: u8) -> u8
    ensures { result ≡ digit_value byte }
{
    if byte.is_ascii_digit() {
        byte - b'0'
    } else if byte >= b'a' {
        byte - 87
    } else {
        byte.saturating_sub(55)
    }
}

/// The number that the digits write in this base, where it is below 2 to the 128.
pub fn number_of_digits(base: u128, digits: &[u8]) -> Option<u128>
    requires { 1 ≤ base }
    ensures { SomeIff result (number_in base digits.now < 2 ^ 128) (number_in base digits.now) }
{
    let mut value: u128 = 0;
    for digit in digits {
        value = value
            .checked_mul(base)?
            .checked_add(u128::from(value_of_digit(*digit)))?;
    }
    Some(value)
}

// The width of digits that stand for so many bits each, where it is at most 128.
fn width_of_digits(bits: usize, digits: &[u8]) -> Option<Width>
    requires some { 0 < length digits.now }
    requires least { 1 ≤ bits }
    requires most { bits ≤ 4 }
    ensures found { IfSome result (λ w. bits_in w ≡ bits * length digits.now) }
    ensures held { IfSome result (λ w. bits * length digits.now ≤ 128) }
    ensures none { IfNone result (128 < bits * length digits.now) }
{
    let count = digits.len();
    if count > 128 {
        return None;
    }
    let width = bits * count;
    Width::new(width as u32)
}

/// The bitvector of the digits of a literal, each of which stands for so many bits.
pub fn literal(base: u128, bits: usize, digits: &[u8]) -> Result<BitVec, SExprParseError>
    requires base_is { base ≡ 2 ^ bits }
    requires least { 1 ≤ bits }
    requires most { bits ≤ 4 }
    requires below { AreDigits base digits.now }
    ensures found { IfOk result (λ b. IsLiteral base bits digits.now b) }
    ensures fault { IfErr result (λ e. IsLiteralFault base bits digits.now e) }
{
    if digits.is_empty() {
        return Err(SExprParseError::ParseIntError(IntFault::Empty));
    }
    let Some(value) = number_of_digits(base, digits) else {
        return Err(SExprParseError::ParseIntError(IntFault::PosOverflow));
    };
    let Some(width) = width_of_digits(bits, digits) else {
        return Err(SExprParseError::IntegerOverflow);
    };
    Ok(BitVec::of_nat(width, value))
}
