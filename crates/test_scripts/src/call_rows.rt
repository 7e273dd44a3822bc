// The rows, answered one after the other.
use crate::call_tables::ROWS;
use crate::calls::answer_of;
use crate::expected::expect_lines;
use anyhow::{Context, Result};
use smt_encode::Encoder;
use smt_script::ListSink;
use smt_term::EnumTable;
use std::alloc::Global;
use std::io::Write;
use test_words::enter;

/// The enum types of an encoder.
fn enum_types(alloc: Global, words: &str) -> Result<EnumTable> {
    let mut enums = EnumTable::new(alloc);
    for word in words.split_whitespace() {
        enter(alloc, &mut enums, word)?;
    }
    Ok(enums)
}

/// Prints the answers of the calls of one encoder, and what its sink has then. Its enum types are on the first line.
fn show(alloc: Global, printer: &mut (impl Write + Drop), rows: &str) -> Result<()> {
    let mut calls = rows.lines();
    let words = calls.next().context("no encoder is named")?;
    writeln!(printer, "> encoder{words}")?;
    let enums = enum_types(alloc, words)?;
    let mut encoder = Encoder::new(alloc, &enums, ListSink::new(alloc));
    for line in calls {
        if let Some(row) = line.strip_prefix("> ") {
            let answer = answer_of(alloc, &mut encoder, row)?;
            writeln!(printer, "> {row}\n{answer}")?;
        }
    }
    printer.write_all(encoder.into_script().bytes())?;
    Ok(())
}

/// The rows, each with what its call answers now.
fn shown(alloc: Global, rows: &str) -> Result<Vec<u8>> {
    let mut printed: Vec<u8> = Vec::new(alloc);
    for of_one in rows.split("> encoder").skip(1) {
        show(alloc, &mut printed, of_one)?;
    }
    Ok(printed)
}

#[test]
fn calls_are_answered(rt: HostRuntime) {
    let printed = shown(rt.alloc(), ROWS).expect(&rt, "the rows say calls");
    let said = str::from_utf8(printed.as_slice()).expect(&rt, "what is written is UTF-8");
    expect_lines(&rt, said, ROWS);
}
