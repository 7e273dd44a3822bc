//! The moment that the numbers of a datetime's text name.
ghost use Rattle.std.specs.Prelude.{◌≡◌, ◌<◌, ℤ, pos, neg_ℤ, ◌≤ℤ◌, IfSome, IfNone};
ghost use Rattle.law_numbers.specs.Longs.{IsLong};
ghost use Rattle.smt_ext.specs.DatetimeText.{DayFits, ZoneFits, ClockFits, is_far, is_barred};
ghost use Rattle.smt_ext.specs.DatetimeText.{is_time, IsRealDay, IsReal, IsDayNumber};
ghost use Rattle.smt_ext.specs.DatetimeText.{zone_offset, clock_value, IsStampValue};

use super::MILLISECONDS_PER_DAY;
use super::stamp::{Clock, Day, Stamp, Zone};
use jiff::civil::Date;

// Whether the offset has 24 hours or more, or 60 minutes or more.
fn is_far_zone(zone: Zone) -> bool
    ensures { result ≡ is_far zone }
{
    match zone {
        Zone::Utc => false,
        Zone::Offset {
            west: _,
            hours,
            minutes,
        } => hours > 23 || minutes > 59,
    }
}

/// Whether there is a leap second or a far offset.
pub fn is_barred_clock(clock: Option<Clock>) -> bool
    ensures { result ≡ is_barred clock }
{
    match clock {
        None => false,
        Some(clock) => clock.second == 60 || is_far_zone(clock.zone),
    }
}

// Whether it is a time of the day.
fn is_time_of_day(clock: Option<Clock>) -> bool
    ensures { result ≡ is_time clock }
{
    match clock {
        None => true,
        Some(clock) => clock.hour < 24 && clock.minute < 60 && clock.second < 60,
    }
}

// How far the local time is ahead of UTC, in milliseconds.
fn offset_of(zone: Zone) -> i64
    requires { ZoneFits zone }
    ensures value { result ≡ zone_offset zone }
    ensures least { neg_ℤ (pos 400000000) ≤ℤ result }
    ensures most { result ≤ℤ pos 400000000 }
{
    match zone {
        Zone::Utc => 0,
        Zone::Offset {
            west,
            hours,
            minutes,
        } => {
            let ahead = ((hours * 60 + minutes) * 60_000) as i64;
            if west { -ahead } else { ahead }
        }
    }
}

// Milliseconds since midnight in UTC.
fn milliseconds_of(clock: Option<Clock>) -> i64
    requires { ClockFits clock }
    ensures value { result ≡ clock_value clock }
    ensures least { neg_ℤ (pos 1000000000) ≤ℤ result }
    ensures most { result ≤ℤ pos 1000000000 }
{
    match clock {
        None => 0,
        Some(clock) => {
            let seconds = (clock.hour * 60 + clock.minute) * 60 + clock.second;
            let local = seconds * 1000 + clock.millisecond.unwrap_or(0);
            local as i64 - offset_of(clock.zone)
        }
    }
}

// The day's number, where the calendar has the day.
fn day_number(day: Day) -> Option<i32>
    requires { DayFits day }
    ensures real { IfSome result (λ n. IsRealDay day) }
    ensures number { IfSome result (λ n. IsDayNumber day n) }
    ensures unreal { IfNone result (IsRealDay day → ⊥) }
{
    let date = Date::new(day.year as i16, day.month as i8, day.day as i8).ok()?;
    Some(date.to_plain().to_unix_epoch_day())
}

/// The moment, where the date and the time of day are real.
pub fn moment_of(stamp: Stamp) -> Option<i64>
    requires day { DayFits stamp.day }
    requires clock { ClockFits stamp.clock }
    ensures real { IfSome result (λ v. IsReal stamp) }
    ensures value { IfSome result (λ v. IsStampValue stamp v) }
    ensures fits { IfSome result (λ v. IsLong v) }
    ensures unreal { IfNone result (IsReal stamp → ⊥) }
{
    if !is_time_of_day(stamp.clock) {
        return None;
    }
    let day = i64::from(day_number(stamp.day)?);
    Some(day * MILLISECONDS_PER_DAY + milliseconds_of(stamp.clock))
}
