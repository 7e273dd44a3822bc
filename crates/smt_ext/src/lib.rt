//! Decimals, datetimes, durations and IP ranges, the extension types of Cedar: their texts, their values, and which IP ranges
//! lie in which.
//!
//! A reader takes a whole text. It answers `Ok` exactly where the text has the form that `specs/` gives and its value fits, and
//! takes memory only to copy a text that it refuses. Read `specs/Decimal.antt`, `DurationText`, `DatetimeText` and `IpText`
//! first, which say what these texts are.
//!
//! A decimal is a number of ten-thousandths, and a datetime or a duration a number of milliseconds (`Milliseconds`), each of 64
//! bits with sign. An IP range is an address of 32 or 128 bits, and how many of its first bits all addresses of the range share
//! (`IpRanges`).
#![tactic(auto)]

mod address;
mod datetime;
mod decimal;
mod display;
mod error;
mod ext;
pub mod laws;
mod net;
mod prefix;
mod ranges;
mod read;

pub use address::{IPv4Addr, IPv6Addr};
pub use datetime::{Datetime, DatetimeError, Duration};
pub use decimal::{Decimal, DecimalError};
pub use error::IPError;
pub use ext::{Ext, ExtParseError};
pub use net::{CIDRv4, CIDRv6, IPNet};
pub use prefix::{IPv4Prefix, IPv6Prefix};
pub use ranges::{loop_back_cidr_v4, loop_back_cidr_v6, multicast_cidr_v4, multicast_cidr_v6};
pub use smt_text::Text;
