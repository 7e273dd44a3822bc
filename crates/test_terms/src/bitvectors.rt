//! Calls on bitvectors.

use anyhow::{Context, Result, bail};
use smt_bits::{BitVec, BitVecError, Width};
use std::alloc::Global;
use std::fmt::Display;

/// The value as it is printed, or the refusal.
fn shown<T: Display + Drop>(alloc: Global, found: Result<T, BitVecError>) -> Result<String> {
    match found {
        Ok(value) => Ok(format!(in alloc; "{value}")?),
        Err(refusal) => Ok(format!(in alloc; "err {refusal:?}")?),
    }
}

/// What the call of this name answers at two numbers.
fn called(alloc: Global, call: &str, lhs: &BitVec, rhs: &BitVec) -> Result<String> {
    match call {
        "add" => shown(alloc, BitVec::add(lhs, rhs)),
        "sub" => shown(alloc, BitVec::sub(lhs, rhs)),
        "mul" => shown(alloc, BitVec::mul(lhs, rhs)),
        "udiv" => shown(alloc, BitVec::udiv(lhs, rhs)),
        "urem" => shown(alloc, BitVec::urem(lhs, rhs)),
        "sdiv" => shown(alloc, BitVec::sdiv(lhs, rhs)),
        "srem" => shown(alloc, BitVec::srem(lhs, rhs)),
        "smod" => shown(alloc, BitVec::smod(lhs, rhs)),
        "shl" => shown(alloc, BitVec::shl(lhs, rhs)),
        "lshr" => shown(alloc, BitVec::lshr(lhs, rhs)),
        "concat" => shown(alloc, BitVec::concat(lhs, rhs)),
        "slt" => shown(alloc, BitVec::slt(lhs, rhs)),
        "sle" => shown(alloc, BitVec::sle(lhs, rhs)),
        "ult" => shown(alloc, BitVec::ult(lhs, rhs)),
        "ule" => shown(alloc, BitVec::ule(lhs, rhs)),
        _ => bail!("no call on bitvectors has this name"),
    }
}

/// The bits of a width and a number.
fn bits(width: &str, number: &str) -> Result<BitVec> {
    let width = Width::new(width.parse()?).context("no bitvector has this width")?;
    Ok(BitVec::of_nat(width, number.parse()?))
}

/// What a call answers at a width and two numbers, or what is extracted of a number of a width from a place to a place.
pub(crate) fn answer(alloc: Global, row: &str) -> Result<String> {
    let (call, operands) = row.split_once(' ').unwrap_or((row, ""));
    let words: Vec<&str> = operands.split(' ').collect(alloc)?;
    match words.as_slice() {
        [width, lhs, rhs] => called_at(alloc, call, width, lhs, rhs),
        [width, number, low, high] => extracted(alloc, width, number, low, high),
        _ => bail!("a call on bitvectors has three or four operands"),
    }
}

/// What a call answers at two numbers of a width.
fn called_at(alloc: Global, call: &str, width: &str, lhs: &str, rhs: &str) -> Result<String> {
    let lhs = bits(width, lhs)?;
    let rhs = bits(width, rhs)?;
    called(alloc, call, &lhs, &rhs)
}

/// What is extracted of a number of a width from a place to a place.
fn extracted(alloc: Global, width: &str, number: &str, low: &str, high: &str) -> Result<String> {
    let given = bits(width, number)?;
    let (low, high) = (low.parse()?, high.parse()?);
    shown(alloc, given.extract_bits(low, high))
}
