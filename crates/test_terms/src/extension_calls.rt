//! Values of the extension types: the calls that the tables of answers have no rows of, each once.

use crate::expected::{expect, expect_text};
use crate::texts::shown;
use anyhow::{Context, Result};
use smt_bits::{BitVec, BitVecError, FIVE, SEVEN, Width};
use smt_ext::{
    Datetime, Duration, Ext, IPError, IPNet, IPv4Addr, IPv4Prefix, IPv6Addr, IPv6Prefix,
    loop_back_cidr_v4, loop_back_cidr_v6, multicast_cidr_v4, multicast_cidr_v6,
};
use std::alloc::Global;
use std::process::Abort;

/// A call, what it is given, and what it answers, as `{:?}` prints it: readers at texts, and addresses and prefixes of a width
/// and a number, or of no bits. Each holds its bits by `as_bitvec` and by `into_bitvec`.
const ROWS: &[(&str, &str, &str)] = &[
    (
        "decimal",
        "-12.034",
        "Ok(Decimal { d: Decimal { ten_thousandths: -120340 } })",
    ),
    ("decimal", "12", "Err(DecimalError(ParseError(\"12\")))"),
    (
        "datetime",
        "1969-12-31T23:59:59.999+0530",
        "Ok(Datetime { dt: Datetime { milliseconds: -19800001 } })",
    ),
    (
        "datetime",
        "2023-02-29",
        "Err(DatetimeError(ChronoParseError))",
    ),
    (
        "duration",
        "-1d2h3m4s5ms",
        "Ok(Duration { d: Duration { milliseconds: -93784005 } })",
    ),
    (
        "duration",
        "1s1d",
        "Err(DatetimeError(DatetimeParseError(\"1s1d\")))",
    ),
    (
        "ip",
        "10.0.0.1/8",
        "Ok(Ipaddr { ip: V4(CIDRv4 { addr: IPv4Addr { bits: BitVec { width: Width { bits: 32 }, number: 167772161 } }, prefix: IPv4Prefix { bits: Given(BitVec { width: Width { bits: 5 }, number: 8 }) } }) })",
    ),
    (
        "ip",
        "10.0.0.1/33",
        "Err(IPError(ParseError(\"10.0.0.1/33\")))",
    ),
    ("v4_address", "128 9", "None"),
    (
        "v4_address",
        "32 9",
        "Some((BitVec { width: Width { bits: 32 }, number: 9 }, BitVec { width: Width { bits: 32 }, number: 9 }))",
    ),
    ("v6_address", "32 9", "None"),
    (
        "v6_address",
        "128 9",
        "Some((BitVec { width: Width { bits: 128 }, number: 9 }, BitVec { width: Width { bits: 128 }, number: 9 }))",
    ),
    ("v4_prefix", "7 24", "None"),
    ("v4_prefix", "", "Some((None, None))"),
    (
        "v4_prefix",
        "5 24",
        "Some((Some(BitVec { width: Width { bits: 5 }, number: 24 }), Some(BitVec { width: Width { bits: 5 }, number: 24 })))",
    ),
    ("v6_prefix", "5 24", "None"),
    ("v6_prefix", "", "Some((None, None))"),
    (
        "v6_prefix",
        "7 24",
        "Some((Some(BitVec { width: Width { bits: 7 }, number: 24 }), Some(BitVec { width: Width { bits: 7 }, number: 24 })))",
    ),
];

/// The bits of a width and a number.
fn bits(spelling: &str) -> Result<BitVec> {
    let (width, number) = spelling.split_once(' ').context("a width and a number")?;
    let width = Width::new(width.parse()?).context("no bitvector has this width")?;
    Ok(BitVec::of_nat(width, number.parse()?))
}

/// An address of these bits, by both calls.
fn address(alloc: Global, call: &str, bits: BitVec) -> Result<String> {
    let found = match call {
        "v4_address" => IPv4Addr::try_from_bitvec(bits).map(|a| (*a.as_bitvec(), a.into_bitvec())),
        _ => IPv6Addr::try_from_bitvec(bits).map(|a| (*a.as_bitvec(), a.into_bitvec())),
    };
    shown(alloc, &found)
}

/// A prefix of these bits, by both calls.
fn prefix(alloc: Global, call: &str, bits: Option<BitVec>) -> Result<String> {
    let found = match call {
        "v4_prefix" => {
            IPv4Prefix::try_from_bitvec(bits).map(|p| (p.as_bitvec().copied(), p.into_bitvec()))
        }
        _ => IPv6Prefix::try_from_bitvec(bits).map(|p| (p.as_bitvec().copied(), p.into_bitvec())),
    };
    shown(alloc, &found)
}

/// What the call of this name answers.
fn answer(alloc: Global, call: &str, given: &str) -> Result<String> {
    match call {
        "decimal" => shown(alloc, &Ext::parse_decimal(alloc, given)),
        "datetime" => shown(alloc, &Ext::parse_datetime(alloc, given)),
        "duration" => shown(alloc, &Ext::parse_duration(alloc, given)),
        "ip" => shown(alloc, &Ext::parse_ip(alloc, given)),
        "v4_address" | "v6_address" => address(alloc, call, bits(given)?),
        _ => prefix(alloc, call, bits(given).ok()),
    }
}

#[test]
fn values_are_those_of_their_calls(rt: HostRuntime) {
    for &(call, given, wanted) in ROWS {
        let said = answer(rt.alloc(), call, given).expect(&rt, "the row says a call");
        expect_text(&rt, given, said.as_str(), wanted);
    }
}

#[test]
fn numbers_are_those_of_values(rt: HostRuntime) {
    let numbers = [
        ("Duration::default", i64::from(Duration::default()), 0),
        ("Duration::from", i64::from(&Duration::from(-5)), -5),
        ("Datetime::from", i64::from(Datetime::from(7)), 7),
        ("Datetime::default", i64::from(&Datetime::default()), 0),
    ];
    for &(call, number, wanted) in &numbers {
        expect(&rt, number == wanted, call);
    }
}

/// Whether the text is read as this range.
fn is_range(rt: &impl Abort, alloc: Global, net: IPNet, text: &str) -> bool {
    IPNet::parse(alloc, text).expect(rt, "the text of a range") == net
}

#[test]
fn ranges_have_texts(rt: HostRuntime) {
    for &(net, text) in &[
        (IPNet::default(), "0.0.0.0"),
        (loop_back_cidr_v4(), "127.0.0.0/8"),
        (loop_back_cidr_v6(), "::1"),
        (multicast_cidr_v4(), "224.0.0.0/4"),
        (multicast_cidr_v6(), "ff00::/8"),
    ] {
        expect(&rt, is_range(&rt, rt.alloc(), net, text), text);
    }
}

/// Prefixes of bits come before that of all bits.
#[test]
fn prefixes_have_an_order(rt: HostRuntime) {
    let five = IPv4Prefix::try_from_bitvec(Some(BitVec::of_nat(FIVE, 24)));
    let is_less = five < IPv4Prefix::try_from_bitvec(None);
    expect(&rt, is_less, "prefixes of IPv4");
    let seven = IPv6Prefix::try_from_bitvec(Some(BitVec::of_nat(SEVEN, 24)));
    let is_less = seven < IPv6Prefix::try_from_bitvec(None);
    expect(&rt, is_less, "prefixes of IPv6");
}

#[test]
fn faults_of_bits_are_faults_of_ranges(rt: HostRuntime) {
    let refused = IPError::from(BitVecError::WidthTooLarge);
    let wanted = IPError::BitVecError(BitVecError::WidthTooLarge);
    expect(&rt, refused == wanted, "a width that is too large");
}
