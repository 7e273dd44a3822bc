//! Calls on decimals, datetimes, durations and IP ranges.

use anyhow::{Context, Result, bail};
use smt_ext::{Datetime, Decimal, Duration, IPNet};
use std::alloc::Global;
use std::fmt::Debug;

/// What a reader answers: the number of its value, or the refusal.
fn shown<E: Debug + Drop>(alloc: Global, read: Result<i64, E>) -> Result<String> {
    match read {
        Ok(number) => Ok(format!(in alloc; "{number}")?),
        Err(refusal) => Ok(format!(in alloc; "err {refusal:?}")?),
    }
}

/// The number of a value, where there is one.
fn found(alloc: Global, number: Option<i64>) -> Result<String> {
    match number {
        Some(number) => Ok(format!(in alloc; "{number}")?),
        None => Ok(format!(in alloc; "none")?),
    }
}

/// The family of a range, its address as a number, its prefix, and how it is printed.
fn range(alloc: Global, net: &IPNet) -> Result<String> {
    let (family, address, prefix) = match net {
        IPNet::V4(range) => ("v4", range.addr.into_bitvec(), range.prefix.into_bitvec()),
        IPNet::V6(range) => ("v6", range.addr.into_bitvec(), range.prefix.into_bitvec()),
    };
    let address = address.to_nat();
    match prefix {
        Some(bits) => {
            let bits = bits.to_nat();
            Ok(format!(in alloc; "{family} {address} {bits} {net}")?)
        }
        None => Ok(format!(in alloc; "{family} {address} none {net}")?),
    }
}

fn ip(alloc: Global, text: &str) -> Result<String> {
    match IPNet::parse(alloc, text) {
        Ok(net) => range(alloc, &net),
        Err(refusal) => Ok(format!(in alloc; "err {refusal:?}")?),
    }
}

/// Whether the first range lies in the second.
fn in_range(alloc: Global, pair: &str) -> Result<String> {
    let (inner, outer) = pair.split_once(' ').context("two ranges")?;
    let lies = IPNet::parse(alloc, inner)?.in_range(&IPNet::parse(alloc, outer)?);
    Ok(format!(in alloc; "{lies}")?)
}

/// Whether a range is of IPv4, of IPv6, of loopbacks, and of multicasts.
fn kinds(alloc: Global, text: &str) -> Result<String> {
    let net = IPNet::parse(alloc, text)?;
    let (v4, v6) = (net.is_v4(), net.is_v6());
    let (loopback, multicast) = (net.is_loopback(), net.is_multicast());
    Ok(format!(in alloc; "{v4} {v6} {loopback} {multicast}")?)
}

/// What is counted of a duration: milliseconds, seconds, minutes, hours and days.
fn counts(alloc: Global, number: &str) -> Result<String> {
    let span = Duration::from(number.parse::<i64>()?);
    let (milliseconds, seconds) = (span.to_milliseconds(), span.to_seconds());
    let (minutes, hours, days) = (span.to_minutes(), span.to_hours(), span.to_days());
    Ok(format!(in alloc; "{milliseconds} {seconds} {minutes} {hours} {days}")?)
}

fn numbers(pair: &str) -> Result<(i64, i64)> {
    let (first, second) = pair.split_once(' ').context("two numbers")?;
    Ok((first.parse()?, second.parse()?))
}

/// What a call on datetimes and durations answers at their numbers.
fn moved(alloc: Global, call: &str, operands: &str) -> Result<String> {
    match call {
        "offset" | "duration_since" => beside(alloc, call, operands),
        "to_date" | "to_time" => part(alloc, call, operands),
        _ => bail!("no call on extension values has this name"),
    }
}

/// A moment behind another by a span, or the span from another to it.
fn beside(alloc: Global, call: &str, operands: &str) -> Result<String> {
    let (first, second) = numbers(operands)?;
    let moment = Datetime::from(first);
    let moved = match call {
        "offset" => moment.offset(&Duration::from(second)).map(i64::from),
        _ => moment
            .duration_since(&Datetime::from(second))
            .map(i64::from),
    };
    found(alloc, moved)
}

/// The date of a moment, or its time.
fn part(alloc: Global, call: &str, operands: &str) -> Result<String> {
    let moment = Datetime::from(operands.parse::<i64>()?);
    match call {
        "to_date" => found(alloc, moment.to_date().map(i64::from)),
        _ => found(alloc, moment.to_time().map(i64::from)),
    }
}

/// What a call answers at a text, or at numbers.
pub(crate) fn answer(alloc: Global, row: &str) -> Result<String> {
    let (call, operands) = row.split_once(' ').unwrap_or((row, ""));
    match call {
        "decimal" => shown(
            alloc,
            Decimal::parse(alloc, operands).map(|d| d.ten_thousandths),
        ),
        "decimal_text" => {
            let ten_thousandths = operands.parse()?;
            Ok(Decimal { ten_thousandths }.to_string(alloc)?)
        }
        "datetime" => shown(alloc, Datetime::parse(alloc, operands).map(i64::from)),
        "duration" => shown(alloc, Duration::parse(alloc, operands).map(i64::from)),
        "counts" => counts(alloc, operands),
        "ip" => ip(alloc, operands),
        "in_range" => in_range(alloc, operands),
        "kinds" => kinds(alloc, operands),
        _ => moved(alloc, call, operands),
    }
}
