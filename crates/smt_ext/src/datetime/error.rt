//! Why a text is no datetime or no duration.

use smt_text::Text;
use thiserror::Error;

/// Why a text is no datetime or no duration.
#[derive(Debug, PartialEq, Eq, Drop, Error)]
pub enum DatetimeError {
    /// The text, which has another form.
    #[error("`{0}` has another form: expected a datetime as `2024-10-15`, `2024-10-15T11:35:00Z` or `2024-10-15T11:35:00.000+0100`, or a duration as `-1d2h3m4s5ms`")]
    DatetimeParseError(Text),
    /// The form is a datetime's, but its date or its time of day is none.
    #[error("no such date or time: expected a day of the calendar, hours up to 23, and minutes and seconds up to 59")]
    ChronoParseError,
    /// A duration, or a part of it, outside 64 bits of milliseconds.
    #[error("the duration is out of range: expected milliseconds from -9223372036854775808 to 9223372036854775807")]
    IntegerOverflowDuringParsing,
    /// A unit of a duration without digits before it.
    #[error("a unit has no digits before it: expected a duration as `-1d2h3m4s5ms`")]
    ParseIntError,
    /// A unit that there is none. No call gives this error.
    #[error("`{0}` is no unit: expected `d`, `h`, `m`, `s` or `ms`")]
    InvalidUnit(Text),
    /// There was no memory left.
    #[error("out of memory")]
    Memory,
}
