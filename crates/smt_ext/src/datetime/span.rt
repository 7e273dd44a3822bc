//! The sum of the parts that stand in a duration's text.
ghost use Rattle.std.specs.Prelude.{◌≡◌, ℕ, ◌+◌, ◌*◌, ◌<◌, ◌∷◌, List, IsTrue, IfOk, IfErr, IfSome};
ghost use Rattle.std.specs.Prelude.{IfNone};
ghost use Rattle.std.specs.List.{list_all};
ghost use Rattle.std.specs.Option.{SomeIff};
ghost use Rattle.law_texts.specs.Characters.{is_digit};
ghost use Rattle.law_texts.specs.Digits.{decimal_number, signed_number};
ghost use Rattle.law_numbers.specs.Longs.{IsLong};
ghost use Rattle.smt_ext.specs.DurationRefusal.{unit_name, unit_milliseconds, EndsInPart};
ghost use Rattle.smt_ext.specs.DurationRefusal.{HasNoPart, ends_past_ascii, IsSoundPart};
ghost use Rattle.smt_ext.specs.DurationRefusal.{IsPartFault, IsFirstFault, HasSum, all_units};
ghost use Rattle.smt_ext.specs.DurationRefusal.{HasFault};
ghost use Rattle.smt_ext.specs.DurationText.{IsDurationText};

use smt_text::digits;

/// What is wrong with a text that is no duration.
#[derive(Clone, Copy, Debug)]
pub enum Fault {
    /// It has another form.
    Form,
    /// A unit has no digits.
    NoDigits,
    /// A part or the sum leaves 64 bits.
    OutOfRange,
}

/// The units of a duration's parts.
#[derive(Clone, Copy, Debug)]
pub enum TimeUnit {
    Millisecond,
    Second,
    Minute,
    Hour,
    FullDay,
}

// From the right end of a text.
const UNITS: [TimeUnit; 5] = [
    TimeUnit::Millisecond,
    TimeUnit::Second,
    TimeUnit::Minute,
    TimeUnit::Hour,
    TimeUnit::FullDay,
];

impl TimeUnit {
    fn name(self) -> &'static [u8]
        ensures { result.now ≡ unit_name self }
    {
        match self {
            TimeUnit::Millisecond => b"ms",
            TimeUnit::Second => b"s",
            TimeUnit::Minute => b"m",
            TimeUnit::Hour => b"h",
            TimeUnit::FullDay => b"d",
        }
    }

    fn milliseconds(self) -> u64
        ensures { result ≡ unit_milliseconds self }
    {
        match self {
            TimeUnit::Millisecond => 1,
            TimeUnit::Second => 1000,
            TimeUnit::Minute => 60_000,
            TimeUnit::Hour => 3_600_000,
            TimeUnit::FullDay => 86_400_000,
        }
    }
}

// The digits that stand before the unit, where the text ends with it, and what stands before them.
fn split_part(text: &[u8], unit: TimeUnit) -> Option<(&[u8], &[u8])>
    ensures found { IfSome result (λ x. EndsInPart unit text.now x.0.now x.1.now) }
    ensures none { IfNone result (HasNoPart unit text.now) }
{
    let before = text.strip_suffix(unit.name())?;
    Some(digits::split_last_digits(before))
}

// Whether a character above 127 stands last.
fn ends_outside_ascii(text: &[u8]) -> bool
    ensures { result ≡ ends_past_ascii text.now }
{
    match text.split_last() {
        Some((last, _)) => *last > 127,
        None => false,
    }
}

// The milliseconds of a part, where they fit 64 bits with the sign.
fn milliseconds_of(negative: bool, unit: TimeUnit, digits: &[u8]) -> Option<u64>
    requires { IsTrue (list_all is_digit digits.now) }
    ensures value { IfSome result (λ n. n ≡ decimal_number digits.now * unit_milliseconds unit) }
    ensures fits { IfSome result (λ n.
        IsLong (signed_number negative (decimal_number digits.now * unit_milliseconds unit))) }
    ensures none { IfNone result
        (IsLong (signed_number negative (decimal_number digits.now * unit_milliseconds unit)) → ⊥) }
{
    let magnitude = digits::number(digits)?.checked_mul(unit.milliseconds())?;
    digits::with_sign(negative, magnitude)?;
    Some(magnitude)
}

// The milliseconds of the digits before a unit.
fn part_value(negative: bool, unit: TimeUnit, front: &[u8], digits: &[u8]) -> Result<u64, Fault>
    requires { IsTrue (list_all is_digit digits.now) }
    ensures sound { IfOk result (λ n. IsSoundPart negative unit front.now digits.now) }
    ensures value { IfOk result (λ n. n ≡ decimal_number digits.now * unit_milliseconds unit) }
    ensures fault { IfErr result (λ f. IsPartFault negative unit front.now digits.now f) }
{
    if ends_outside_ascii(front) {
        return Err(Fault::Form);
    }
    if digits.is_empty() {
        return Err(Fault::NoDigits);
    }
    match milliseconds_of(negative, unit, digits) {
        Some(milliseconds) => Ok(milliseconds),
        None => Err(Fault::OutOfRange),
    }
}

// The milliseconds of the part with this unit, 0 where there is none, and what stands before it.
#[tactic(auto, unfolding(crate::specs::DurationRefusal::IsFirstFault, crate::specs::DurationRefusal::HasSum))]
fn take_part(negative: bool, unit: TimeUnit, text: &[u8]) -> Result<(u64, &[u8]), Fault>
    ensures sum { IfOk result (λ x. (units : List TimeUnit) (n : ℕ)
        → HasSum negative units x.1.now n → HasSum negative (unit ∷ units) text.now (n + x.0)) }
    ensures later { IfOk result (λ x. (units : List TimeUnit) (f : Fault)
        → IsFirstFault negative units x.1.now f → IsFirstFault negative (unit ∷ units) text.now f) }
    ensures fault { IfErr result
        (λ f. (units : List TimeUnit) → IsFirstFault negative (unit ∷ units) text.now f) }
{
    match split_part(text, unit) {
        None => Ok((0, text)),
        Some((front, digits)) => {
            let milliseconds = part_value(negative, unit, front, digits)?;
            Ok((milliseconds, front))
        }
    }
}

// The milliseconds of all parts together.
fn sum_of_parts(negative: bool, text: &[u8]) -> Result<u128, Fault>
    ensures sum { IfOk result (λ n. HasSum negative all_units text.now n) }
    ensures fault { IfErr result (λ f. IsFirstFault negative all_units text.now f) }
{
    let mut rest = text;
    let mut total: u128 = 0;
    for unit in UNITS {
        let (milliseconds, front) = take_part(negative, unit, rest)?;
        total += u128::from(milliseconds);
        rest = front;
    }
    if rest.is_empty() {
        Ok(total)
    } else {
        Err(Fault::Form)
    }
}

// The sum with its sign, where it fits 64 bits.
fn signed_sum(negative: bool, total: u128) -> Option<i64>
    ensures { SomeIff result (IsLong (signed_number negative total))
        (signed_number negative total) }
{
    digits::with_sign(negative, u64::try_from(total).ok()?)
}

/// The milliseconds of a duration's text.
pub fn value_of(text: &[u8]) -> Result<i64, Fault>
    ensures value { IfOk result (λ v. IsDurationText text.now v) }
    ensures fault { IfErr result (λ f. HasFault text.now f) }
{
    let (negative, rest) = digits::split_minus(text);
    if rest.is_empty() {
        return Err(Fault::Form);
    }
    let total = sum_of_parts(negative, rest)?;
    match signed_sum(negative, total) {
        Some(milliseconds) => Ok(milliseconds),
        None => Err(Fault::OutOfRange),
    }
}
