//! A value of one of the four extension types, and the readers of their texts.
ghost use Rattle.std.specs.Prelude.{◌≡◌, ℤ, Ok, IfOk, IfErr, IsOkAnd};
ghost use Rattle.smt_ext.specs.DatetimeText.{IsDatetimeText};
ghost use Rattle.smt_ext.specs.Decimal.{IsDecimalText};
ghost use Rattle.smt_ext.specs.DurationText.{IsDurationText};
ghost use Rattle.smt_ext.specs.Extensions.{IsDatetime, IsDecimal, IsDuration, IsRangeText};
ghost use Rattle.smt_ext.specs.Extensions.{RefusesDatetime, RefusesDecimal};
ghost use Rattle.smt_ext.specs.Extensions.{RefusesDuration, RefusesRange, WritesDatetime};
ghost use Rattle.smt_ext.specs.Extensions.{WritesDecimal, WritesDuration};
ghost use Rattle.smt_ext.specs.IpText.{WritesRange};
ghost use Rattle.smt_ext.specs.IpView.{range_of};

use crate::datetime::{Datetime, DatetimeError, Duration};
use crate::decimal::{Decimal, DecimalError};
use crate::{IPError, IPNet};
use std::alloc::Global;
use thiserror::Error;

/// A decimal, an IP range, a datetime or a duration. The order has the kinds in this order.
#[derive(Clone, Copy, Debug, PartialEq, Eq, PartialOrd, Ord, Hash)]
pub enum Ext {
    /// A decimal.
    Decimal { d: Decimal },
    /// An IP range.
    Ipaddr { ip: IPNet },
    /// A datetime.
    Datetime { dt: Datetime },
    /// A duration.
    Duration { d: Duration },
}

/// Why a text is no value of the type that it was read as.
#[derive(Debug, PartialEq, Eq, Drop, Error)]
pub enum ExtParseError {
    /// The text is no decimal.
    #[error("{0}")]
    DecimalError(DecimalError),
    /// The text is no datetime, or no duration.
    #[error("{0}")]
    DatetimeError(DatetimeError),
    /// The text is no IP range.
    #[error("{0}")]
    IPError(IPError),
    /// There was no memory for the text of a refusal.
    #[error("out of memory")]
    Memory,
}

impl From<DecimalError> for ExtParseError {
    ghost use Rattle.std.specs.Prelude.{◌≡◌};
    ghost use Rattle.smt_ext.specs.Extensions.{decimal_refusal};

    ghost from_gives = { λ refused error. error ≡ decimal_refusal refused };

    fn from(error: DecimalError) -> ExtParseError {
        match error {
            DecimalError::ParseError(text) => {
                ExtParseError::DecimalError(DecimalError::ParseError(text))
            }
            DecimalError::Memory => ExtParseError::Memory,
        }
    }
}

impl From<DatetimeError> for ExtParseError {
    ghost use Rattle.std.specs.Prelude.{◌≡◌};
    ghost use Rattle.smt_ext.specs.Extensions.{datetime_refusal};

    ghost from_gives = { λ refused error. error ≡ datetime_refusal refused };

    fn from(error: DatetimeError) -> ExtParseError {
        match error {
            DatetimeError::Memory => ExtParseError::Memory,
            other => ExtParseError::DatetimeError(other),
        }
    }
}

impl From<IPError> for ExtParseError {
    ghost use Rattle.std.specs.Prelude.{◌≡◌};
    ghost use Rattle.smt_ext.specs.Extensions.{range_refusal};

    ghost from_gives = { λ refused error. error ≡ range_refusal refused };

    fn from(error: IPError) -> ExtParseError {
        match error {
            IPError::Memory => ExtParseError::Memory,
            other => ExtParseError::IPError(other),
        }
    }
}

impl Ext {
    /// Reads a decimal, as [`Decimal::parse`]. Its `Memory` becomes `ExtParseError::Memory`.
    ///
    /// # Examples
    ///
    /// ```
    /// use kembura::{Ext, Term};
    ///
    /// let limit = Term::from(Ext::parse_decimal(alloc, "100.50")?);
    /// assert!(rt; limit.is_literal());
    /// assert!(rt; Ext::parse_decimal(alloc, "100").is_err());
    /// ```
    pub fn parse_decimal(alloc: Global, s: &str) -> Result<Ext, ExtParseError>
        ensures value { IfOk result (WritesDecimal s.now) }
        ensures accepts { (v : ℤ) → IsDecimalText s.now v → IsOkAnd result (IsDecimal v) }
        ensures refused { IfErr result (RefusesDecimal s.now) }
    {
        Ok(Ext::Decimal {
            d: Decimal::parse(alloc, s)?,
        })
    }

    /// Reads a datetime, as [`Datetime::parse`]. Its `Memory` becomes `ExtParseError::Memory`.
    ///
    /// # Examples
    ///
    /// ```
    /// use kembura::Ext;
    ///
    /// let day = Ext::parse_datetime(alloc, "2024-10-15")?;
    /// let noon = Ext::parse_datetime(alloc, "2024-10-15T12:00:00Z")?;
    /// assert!(rt; day < noon);
    /// ```
    pub fn parse_datetime(alloc: Global, s: &str) -> Result<Ext, ExtParseError>
        ensures value { IfOk result (WritesDatetime s.now) }
        ensures accepts { (v : ℤ) → IsDatetimeText s.now v → IsOkAnd result (IsDatetime v) }
        ensures refused { IfErr result (RefusesDatetime s.now) }
    {
        Ok(Ext::Datetime {
            dt: Datetime::parse(alloc, s)?,
        })
    }

    /// Reads a duration, as [`Duration::parse`]. Its `Memory` becomes `ExtParseError::Memory`.
    pub fn parse_duration(alloc: Global, s: &str) -> Result<Ext, ExtParseError>
        ensures value { IfOk result (WritesDuration s.now) }
        ensures accepts { (v : ℤ) → IsDurationText s.now v → IsOkAnd result (IsDuration v) }
        ensures refused { IfErr result (RefusesDuration s.now) }
    {
        Ok(Ext::Duration {
            d: Duration::parse(alloc, s)?,
        })
    }

    /// Reads an IP range, as [`IPNet::parse`]. Its `Memory` becomes `ExtParseError::Memory`.
    ///
    /// # Examples
    ///
    /// ```
    /// use kembura::{Ext, Term};
    ///
    /// let office = Term::from(Ext::parse_ip(alloc, "10.0.0.0/8")?);
    /// assert!(rt; office.is_literal());
    /// assert!(rt; Ext::parse_ip(alloc, "10.0.0").is_err());
    /// ```
    pub fn parse_ip(alloc: Global, s: &str) -> Result<Ext, ExtParseError>
        ensures value { IfOk result (IsRangeText s.now) }
        ensures accepts { (net : _) → WritesRange s.now (range_of net) →
            result ≡ Ok (Ext.Ipaddr net) }
        ensures refused { IfErr result (RefusesRange s.now) }
    {
        Ok(Ext::Ipaddr {
            ip: IPNet::parse(alloc, s)?,
        })
    }
}
