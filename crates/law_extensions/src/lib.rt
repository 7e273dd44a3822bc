//! The extension types of Cedar, decimals, IP ranges, datetimes and durations: the functions on their values, at terms, and the
//! readers of their texts. Definitions and laws, with no code to run.
//!
//! Read `specs/ExtensionFunctions.antt` first, which says what each function is built of. `Laws` states what it is folded to,
//! and that this stands for the application; `Values` what the application is in an interpretation; `Rules` what is known of a
//! test and bounds that a caller hands in. `DecimalTexts`, `DurationTexts`, `RangeTexts` and `DatetimeTexts` read texts by
//! functions, and `Readings` states that a text is read to a value exactly where it is a text of that value.
#![tactic(auto)]

pub mod laws;
