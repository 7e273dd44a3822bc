//! Decimal numbers with four digits behind the point.
ghost use Rattle.std.specs.Prelude.{◌≡◌, ℕ, ℤ, ◌-◌, ◌^◌, ◌<◌, ◌≤◌, Bool, List, length, IsTrue};
ghost use Rattle.std.specs.Prelude.{Some, IfOk, IfErr, IsOkAnd, IfSome, IfNone};
ghost use Rattle.std.specs.Option.{SomeIff};
ghost use Rattle.law_texts.specs.Digits.{is_numeral};
ghost use Rattle.smt_ext.specs.Decimal.{HasDecimalParts, ten_thousandths, IsDecimalText};
ghost use Rattle.smt_ext.specs.Decimal.{IsNoDecimal, HoldsDecimalText, IsDecimalRefusal};
ghost use Rattle.law_numbers.specs.Longs.{IsLong};
ghost use Rattle.smt_ext.specs.Printed.{decimal_text};

use smt_text::{Text, digits};
use std::alloc::Global;
use std::fmt;
use thiserror::Error;

/// A decimal number, by its ten-thousandths.
#[derive(Clone, Copy, Debug, PartialEq, Eq, PartialOrd, Ord, Hash)]
pub struct Decimal {
    /// How many ten-thousandths it is.
    pub ten_thousandths: i64,
    pub ghost fits: { IsLong ten_thousandths },
}

/// Why a text is no decimal.
#[derive(Debug, PartialEq, Eq, Drop, Error)]
pub enum DecimalError {
    /// The text, which has another form or a number outside 64 bits.
    #[error("`{0}` is no decimal: expected digits, a point and one to four digits, as `-12.034`, from -922337203685477.5808 to 922337203685477.5807")]
    ParseError(Text),
    /// There was no memory left.
    #[error("out of memory")]
    Memory,
}

// The sign, and the digits before and behind the point.
#[derive(Clone, Copy)]
struct Parts<'a> {
    negative: bool,
    whole: &'a [u8],
    fraction: &'a [u8],
}

// The parts of a decimal's text.
fn split_parts(text: &[u8]) -> Option<Parts<'_>>
    ensures found { IfSome result
        (λ p. HasDecimalParts text.now p.negative p.whole.now p.fraction.now) }
    ensures none { IfNone result ((negative : Bool) (whole fraction : List ℕ)
        → HasDecimalParts text.now negative whole fraction → ⊥) }
{
    let (negative, unsigned) = digits::split_minus(text);
    let (whole, rest) = digits::split_digits(unsigned);
    let fraction = digits::behind(rest, b'.')?;
    if digits::are_digits(whole) && digits::are_digits(fraction) && fraction.len() <= 4 {
        Some(Parts {
            negative,
            whole,
            fraction,
        })
    } else {
        None
    }
}

// What the last of so many digits behind the point counts, in ten-thousandths.
fn last_place(places: usize) -> u64
    requires { places ≤ 4 }
    ensures { result ≡ 10 ^ (4 - places) }
{
    match places {
        0 => 10000,
        1 => 1000,
        2 => 100,
        3 => 10,
        _ => 1,
    }
}

// The number of ten-thousandths, where it is below 2 to the 64.
fn magnitude(whole: &[u8], fraction: &[u8]) -> Option<u64>
    requires whole_digits { IsTrue (is_numeral whole.now) }
    requires fraction_digits { IsTrue (is_numeral fraction.now) }
    requires places { length fraction.now ≤ 4 }
    ensures { SomeIff result (ten_thousandths whole.now fraction.now < 2 ^ 64)
        (ten_thousandths whole.now fraction.now) }
{
    let units = digits::number(whole)?.checked_mul(10000)?;
    let rest = digits::number(fraction)?.checked_mul(last_place(fraction.len()))?;
    units.checked_add(rest)
}

// The value of a decimal's text.
fn value(text: &[u8]) -> Option<i64>
    ensures found { IfSome result (λ v. IsDecimalText text.now v) }
    ensures none { IfNone result (IsNoDecimal text.now) }
{
    let parts = split_parts(text)?;
    digits::with_sign(parts.negative, magnitude(parts.whole, parts.fraction)?)
}

// The error that holds a copy of the text.
fn with_text(alloc: Global, s: &str) -> DecimalError
    ensures { HoldsDecimalText s.now result }
{
    match Text::from_str(alloc, s) {
        Ok(text) => DecimalError::ParseError(text),
        Err(_) => DecimalError::Memory,
    }
}

impl Decimal {
    /// Reads an optional minus, digits, a point and one to four digits.
    ///
    /// A text that is no decimal is refused with `ParseError`, which holds a copy of it; `Memory`
    /// stands in its place where there is none left for the copy.
    pub fn parse(alloc: Global, s: &str) -> Result<Decimal, DecimalError>
        ensures value { IfOk result (λ d. IsDecimalText s.now d.ten_thousandths) }
        ensures accepts { (v : ℤ) → IsDecimalText s.now v →
            IsOkAnd result (λ d. d.ten_thousandths ≡ v) }
        ensures refused { IfErr result (λ e. IsDecimalRefusal s.now e) }
    {
        match value(s.as_bytes()) {
            Some(ten_thousandths) => Ok(Decimal { ten_thousandths }),
            None => Err(with_text(alloc, s)),
        }
    }
}

impl fmt::Display for Decimal {
    ghost output = { λ d. Some (decimal_text d.ten_thousandths) };

    fn fmt<W: fmt::Write>(&self, f: &mut fmt::Formatter<W>) -> fmt::Result {
        let magnitude = self.ten_thousandths.unsigned_abs();
        let sign = if self.ten_thousandths < 0 { "-" } else { "" };
        let units = magnitude / 10000;
        let rest = magnitude % 10000;
        write!(f, "{sign}{units}.{rest:04}")
    }
}
