//! The numbers that stand in a datetime's text.
#![tactic(auto)]

ghost use Rattle.std.specs.Prelude.{◌≡◌, ◌≤◌};
ghost use Rattle.law_texts.specs.Front.{ReadsTo};
ghost use Rattle.smt_ext.specs.DatetimeReading.{field_at, day_at, offset_at, zone_at, fraction_at};
ghost use Rattle.smt_ext.specs.DatetimeReading.{clock_at, stamp_at};

use smt_text::digits;

/// A date as it is written.
#[derive(Clone, Copy, Debug)]
pub struct Day {
    pub year: u64,
    pub month: u64,
    pub day: u64,
}

/// What stands behind a time.
#[derive(Clone, Copy, Debug)]
pub enum Zone {
    /// `Z`.
    Utc,
    /// The offset from UTC, ahead of it or west of it.
    Offset {
        west: bool,
        hours: u64,
        minutes: u64,
    },
}

/// A time of day as it is written.
#[derive(Clone, Copy, Debug)]
pub struct Clock {
    pub hour: u64,
    pub minute: u64,
    pub second: u64,
    pub millisecond: Option<u64>,
    pub zone: Zone,
}

/// A datetime as it is written.
#[derive(Clone, Copy, Debug)]
pub struct Stamp {
    pub day: Day,
    pub clock: Option<Clock>,
}

// So many digits at the front: their number, and what follows them.
#[tactic(auto, unfolding(crate::specs::DatetimeReading::field_at))]
fn field(text: &[u8], places: usize) -> Option<(u64, &[u8])>
    requires { places ≤ 4 }
    ensures { ReadsTo (λ x. (x.0, x.1.now)) result (field_at places text.now) }
{
    let (front, rest) = text.split_at_checked(places)?;
    if digits::all_digits(front) {
        Some((digits::number(front)?, rest))
    } else {
        None
    }
}

#[tactic(auto, unfolding(crate::specs::DatetimeReading::day_at))]
fn day_of(text: &[u8]) -> Option<(Day, &[u8])>
    ensures { ReadsTo (λ x. (x.0, x.1.now)) result (day_at text.now) }
{
    let (year, rest) = field(text, 4)?;
    let rest = digits::behind(rest, b'-')?;
    let (month, rest) = field(rest, 2)?;
    let rest = digits::behind(rest, b'-')?;
    let (day, rest) = field(rest, 2)?;
    Some((Day { year, month, day }, rest))
}

#[tactic(auto, unfolding(crate::specs::DatetimeReading::offset_at))]
fn offset_of(west: bool, text: &[u8]) -> Option<Zone>
    ensures { result ≡ offset_at west text.now }
{
    let (hours, rest) = field(text, 2)?;
    let (minutes, rest) = field(rest, 2)?;
    if rest.is_empty() {
        Some(Zone::Offset {
            west,
            hours,
            minutes,
        })
    } else {
        None
    }
}

#[tactic(auto, unfolding(crate::specs::DatetimeReading::zone_at))]
fn zone_of(text: &[u8]) -> Option<Zone>
    ensures { result ≡ zone_at text.now }
{
    let (first, rest) = text.split_first()?;
    match *first {
        b'Z' => if rest.is_empty() {
            Some(Zone::Utc)
        } else {
            None
        },
        b'+' => offset_of(false, rest),
        b'-' => offset_of(true, rest),
        _ => None,
    }
}

#[tactic(auto, unfolding(crate::specs::DatetimeReading::fraction_at))]
fn fraction_of(text: &[u8]) -> Option<(Option<u64>, &[u8])>
    ensures { ReadsTo (λ x. (x.0, x.1.now)) result (fraction_at text.now) }
{
    let Some(rest) = digits::behind(text, b'.') else {
        return Some((None, text));
    };
    let (milliseconds, rest) = field(rest, 3)?;
    Some((Some(milliseconds), rest))
}

#[tactic(auto, unfolding(crate::specs::DatetimeReading::clock_at))]
fn clock_of(text: &[u8]) -> Option<Clock>
    ensures { result ≡ clock_at text.now }
{
    let rest = digits::behind(text, b'T')?;
    let (hour, rest) = field(rest, 2)?;
    let rest = digits::behind(rest, b':')?;
    let (minute, rest) = field(rest, 2)?;
    let rest = digits::behind(rest, b':')?;
    let (second, rest) = field(rest, 2)?;
    let (millisecond, rest) = fraction_of(rest)?;
    let zone = zone_of(rest)?;
    Some(Clock {
        hour,
        minute,
        second,
        millisecond,
        zone,
    })
}

/// The numbers of a whole text that has a datetime's shape.
#[tactic(auto, unfolding(crate::specs::DatetimeReading::stamp_at))]
pub fn stamp_of(text: &[u8]) -> Option<Stamp>
    ensures { result ≡ stamp_at text.now }
{
    let (day, rest) = day_of(text)?;
    if rest.is_empty() {
        return Some(Stamp { day, clock: None });
    }
    let clock = clock_of(rest)?;
    Some(Stamp {
        day,
        clock: Some(clock),
    })
}
