//! Moments and spans of time, in whole milliseconds.
ghost use Rattle.std.specs.Prelude.{◌≡◌, ◌↔◌, ℤ, pos, ◌+ℤ◌, ◌-ℤ◌, ◌≤ℤ◌, ◌<ℤ◌, IsSome, IfSome};
ghost use Rattle.std.specs.Prelude.{IsSomeAnd, IfOk, IfErr, IsOkAnd};
ghost use Rattle.smt_ext.specs.DatetimeRefusal.{HoldsText, IsDatetimeRefusal};
ghost use Rattle.smt_ext.specs.DatetimeText.{IsDatetimeText};
ghost use Rattle.law_numbers.specs.Longs.{IsLong};
ghost use Rattle.smt_ext.specs.DurationRefusal.{IsDurationRefusal};
ghost use Rattle.smt_ext.specs.DurationText.{IsDurationText};

mod error;
mod moment;
mod span;
mod stamp;

pub use error::DatetimeError;
use smt_text::Text;
use span::Fault;
use std::alloc::Global;

const MILLISECONDS_PER_DAY: i64 = 86_400_000;

/// A moment, in milliseconds since 1970-01-01T00:00:00Z.
#[derive(Clone, Copy, Debug, PartialEq, Eq, PartialOrd, Ord, Hash)]
pub struct Datetime {
    milliseconds: i64,
    pub ghost fits: { IsLong milliseconds },
}

/// A span of time in milliseconds, forwards or backwards.
#[derive(Clone, Copy, Debug, PartialEq, Eq, PartialOrd, Ord, Hash)]
pub struct Duration {
    milliseconds: i64,
    pub ghost fits: { IsLong milliseconds },
}

// The error that holds a copy of the text.
fn with_text(alloc: Global, s: &str) -> DatetimeError
    ensures { HoldsText s.now result }
{
    match Text::from_str(alloc, s) {
        Ok(text) => DatetimeError::DatetimeParseError(text),
        Err(_) => DatetimeError::Memory,
    }
}

impl Datetime {
    ghost use Rattle.smt_ext.specs.Milliseconds.{datetime_value, day_start, duration_value};
    ghost use Rattle.smt_ext.specs.Milliseconds.{time_of_day};

    /// Reads `YYYY-MM-DD`, alone or followed by `Thh:mm:ss`, an optional `.SSS`, and `Z` or an
    /// offset `hhmm` behind `+` or `-`.
    ///
    /// A text of another form, with second 60, or with an offset of a day or more or of 60 minutes
    /// or more is refused with `DatetimeParseError`, which holds a copy of it; `Memory` stands in
    /// its place where there is none left for the copy. Then a date or a time of day that there
    /// isn't is refused with `ChronoParseError`.
    pub fn parse(alloc: Global, s: &str) -> Result<Datetime, DatetimeError>
        ensures value { IfOk result (λ d. IsDatetimeText s.now (datetime_value d)) }
        ensures accepts { (v : ℤ) → IsDatetimeText s.now v →
            IsOkAnd result (λ d. datetime_value d ≡ v) }
        ensures refused { IfErr result (λ e. IsDatetimeRefusal s.now e) }
    {
        let Some(stamp) = stamp::stamp_of(s.as_bytes()) else {
            return Err(with_text(alloc, s));
        };
        if moment::is_barred_clock(stamp.clock) {
            return Err(with_text(alloc, s));
        }
        match moment::moment_of(stamp) {
            Some(milliseconds) => Ok(Datetime { milliseconds }),
            None => Err(DatetimeError::ChronoParseError),
        }
    }

    /// The moment after this duration; nothing where it leaves 64 bits.
    pub fn offset(&self, duration: &Duration) -> Option<Datetime>
        ensures value { IfSome result
            (λ d. datetime_value d ≡ datetime_value self.now +ℤ duration_value duration.now) }
        ensures found { IsSome result
            ↔ IsLong (datetime_value self.now +ℤ duration_value duration.now) }
    {
        let milliseconds = self.milliseconds.checked_add(duration.milliseconds)?;
        Some(Datetime { milliseconds })
    }

    /// The duration from the other moment to this one; nothing where it leaves 64 bits.
    pub fn duration_since(&self, other: &Datetime) -> Option<Duration>
        ensures value { IfSome result
            (λ d. duration_value d ≡ datetime_value self.now -ℤ datetime_value other.now) }
        ensures found { IsSome result
            ↔ IsLong (datetime_value self.now -ℤ datetime_value other.now) }
    {
        let milliseconds = self.milliseconds.checked_sub(other.milliseconds)?;
        Some(Duration { milliseconds })
    }

    /// The last midnight in UTC that is not after this moment; nothing where it leaves 64 bits.
    pub fn to_date(&self) -> Option<Datetime>
        ensures value { IfSome result
            (λ d. datetime_value d ≡ day_start (datetime_value self.now)) }
        ensures found { IsSome result ↔ IsLong (day_start (datetime_value self.now)) }
    {
        let time = self.milliseconds.rem_euclid(MILLISECONDS_PER_DAY);
        let milliseconds = self.milliseconds.checked_sub(time)?;
        Some(Datetime { milliseconds })
    }

    /// The time since the last midnight in UTC, as a moment of 1970-01-01. Always there.
    pub fn to_time(&self) -> Option<Datetime>
        ensures value { IsSomeAnd result
            (λ d. datetime_value d ≡ time_of_day (datetime_value self.now)) }
        ensures least { IfSome result (λ d. pos 0 ≤ℤ datetime_value d) }
        ensures most { IfSome result (λ d. datetime_value d <ℤ pos 86400000) }
    {
        Some(Datetime {
            milliseconds: self.milliseconds.rem_euclid(MILLISECONDS_PER_DAY),
        })
    }
}

impl Duration {
    ghost use Rattle.smt_ext.specs.Milliseconds.{duration_value, whole_days, whole_hours};
    ghost use Rattle.smt_ext.specs.Milliseconds.{whole_minutes, whole_seconds};

    /// Reads an optional `-` and at least one of the parts `d`, `h`, `m`, `s`, `ms` in this order,
    /// each of them digits before its unit.
    ///
    /// Of a text that is no duration the parts are looked at from the right end. The first fault
    /// decides: `DatetimeParseError` with a copy of the text where its form is another, or `Memory`
    /// where there is none left for the copy; `ParseIntError` where a unit has no digits;
    /// `IntegerOverflowDuringParsing` where a part, or last the sum, leaves 64 bits.
    pub fn parse(alloc: Global, s: &str) -> Result<Duration, DatetimeError>
        ensures value { IfOk result (λ d. IsDurationText s.now (duration_value d)) }
        ensures accepts { (v : ℤ) → IsDurationText s.now v →
            IsOkAnd result (λ d. duration_value d ≡ v) }
        ensures refused { IfErr result (λ e. IsDurationRefusal s.now e) }
    {
        match span::value_of(s.as_bytes()) {
            Ok(milliseconds) => Ok(Duration { milliseconds }),
            Err(Fault::Form) => Err(with_text(alloc, s)),
            Err(Fault::NoDigits) => Err(DatetimeError::ParseIntError),
            Err(Fault::OutOfRange) => Err(DatetimeError::IntegerOverflowDuringParsing),
        }
    }

    /// The number of milliseconds.
    pub fn to_milliseconds(&self) -> i64
        ensures { result ≡ duration_value self.now }
    {
        self.milliseconds
    }

    /// Whole seconds, rounded towards zero.
    pub fn to_seconds(&self) -> i64
        ensures { result ≡ whole_seconds (duration_value self.now) }
    {
        self.milliseconds / 1000
    }

    /// Whole minutes, rounded towards zero.
    pub fn to_minutes(&self) -> i64
        ensures { result ≡ whole_minutes (duration_value self.now) }
    {
        self.to_seconds() / 60
    }

    /// Whole hours, rounded towards zero.
    pub fn to_hours(&self) -> i64
        ensures { result ≡ whole_hours (duration_value self.now) }
    {
        self.to_minutes() / 60
    }

    /// Whole days, rounded towards zero.
    pub fn to_days(&self) -> i64
        ensures { result ≡ whole_days (duration_value self.now) }
    {
        self.to_hours() / 24
    }
}

impl Default for Datetime {
    ghost use Rattle.smt_ext.specs.Milliseconds.{datetime_value};

    ghost is_default = { λ d. datetime_value d ≡ pos 0 };

    fn default() -> Datetime {
        Datetime { milliseconds: 0 }
    }
}

impl Default for Duration {
    ghost use Rattle.smt_ext.specs.Milliseconds.{duration_value};

    ghost is_default = { λ d. duration_value d ≡ pos 0 };

    fn default() -> Duration {
        Duration { milliseconds: 0 }
    }
}

impl From<i64> for Datetime {
    ghost use Rattle.smt_ext.specs.Milliseconds.{datetime_value};

    ghost from_gives = { λ v d. datetime_value d ≡ v };

    fn from(milliseconds: i64) -> Datetime {
        Datetime { milliseconds }
    }
}

impl From<i64> for Duration {
    ghost use Rattle.smt_ext.specs.Milliseconds.{duration_value};

    ghost from_gives = { λ v d. duration_value d ≡ v };

    fn from(milliseconds: i64) -> Duration {
        Duration { milliseconds }
    }
}

impl From<Datetime> for i64 {
    ghost use Rattle.smt_ext.specs.Milliseconds.{datetime_value};

    ghost from_gives = { λ d v. v ≡ datetime_value d };

    fn from(datetime: Datetime) -> i64 {
        datetime.milliseconds
    }
}

impl From<&Datetime> for i64 {
    ghost use Rattle.smt_ext.specs.Milliseconds.{datetime_value};

    ghost from_gives = { λ d v. v ≡ datetime_value d.now };

    fn from(datetime: &Datetime) -> i64 {
        datetime.milliseconds
    }
}

impl From<Duration> for i64 {
    ghost use Rattle.smt_ext.specs.Milliseconds.{duration_value};

    ghost from_gives = { λ d v. v ≡ duration_value d };

    fn from(duration: Duration) -> i64 {
        duration.milliseconds
    }
}

impl From<&Duration> for i64 {
    ghost use Rattle.smt_ext.specs.Milliseconds.{duration_value};

    ghost from_gives = { λ d v. v ≡ duration_value d.now };

    fn from(duration: &Duration) -> i64 {
        duration.milliseconds
    }
}
