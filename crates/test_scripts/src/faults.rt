//! Sinks that fail at each of their puts in turn.

use crate::expected::expect;
use crate::tables::conditions;
use crate::words::{Row, read_row};
use anyhow::Result;
use smt_encode::{EncodeError, Encoder};
use smt_script::{ListSink, MemorySink};
use std::alloc::Global;

/// The script of a row.
fn script_of(alloc: Global, row: &Row) -> Result<ListSink> {
    let mut encoder = Encoder::new(alloc, &row.enums, ListSink::new(alloc));
    encoder.encode(row.terms.as_slice())?;
    Ok(encoder.into_script())
}

/// What encoding over a sink answers that fails at this put, None where it does not come to that put. A fault is to leave the
/// front of the script, and a further call is to be refused and to put nothing.
fn stopped_at(alloc: Global, row: &Row, script: &[u8], put: u64) -> Result<Option<bool>> {
    let sink = MemorySink::new(alloc, &[put], script.len())?;
    let mut encoder = Encoder::new(alloc, &row.enums, sink);
    let outcome = encoder.encode(row.terms.as_slice());
    if outcome == Ok(()) {
        return Ok(None);
    }
    let again = encoder.encode(row.terms.as_slice());
    let sink = encoder.into_script();
    let is_front = script.starts_with(sink.bytes());
    Ok(Some(outcome == Err(EncodeError::Io) && again == Err(EncodeError::Spent) && is_front))
}

/// More puts than a row's script takes.
const MANY: u64 = 100_000;

/// Whether each put of a row's script fails once and leaves what it should. There are more than a hundred.
fn fail_in_turn(alloc: Global, row: &Row) -> Result<bool> {
    let script = script_of(alloc, row)?;
    for put in 1..MANY {
        match stopped_at(alloc, row, script.bytes(), put)? {
            Some(true) => {}
            Some(false) => return Ok(false),
            None => return Ok(put > 100),
        }
    }
    Ok(false)
}

#[test]
fn each_put_of_a_condition_fails_once(rt: HostRuntime) {
    let alloc = rt.alloc();
    for line in conditions::ROWS.lines() {
        if let Some(words) = line.strip_prefix("> ") {
            let row = read_row(alloc, words).expect(&rt, "the row says terms");
            let are_right = fail_in_turn(alloc, &row).expect(&rt, "there is memory");
            expect(&rt, are_right, "a put that fails");
        }
    }
}
