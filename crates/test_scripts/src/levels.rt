//! A hundred levels, one above the other.

use crate::expected::expect_bytes;
use anyhow::Result;
use smt_encode::Encoder;
use smt_script::ListSink;
use smt_term::{EnumTable, Term, TermType, TermVar, Text};
use std::alloc::Global;
use std::io::Write;

/// How many levels are opened.
const LEVELS: usize = 100;

/// A Boolean variable.
fn variable(alloc: Global, id: &str) -> Result<Term> {
    Ok(Term::from(TermVar {
        id: Text::from_str(alloc, id)?,
        ty: TermType::Bool,
    }))
}

/// Asserts a variable at each level, and one more when all levels are closed again.
fn tower(alloc: Global) -> Result<ListSink> {
    let enums = EnumTable::new(alloc);
    let mut encoder = Encoder::new(alloc, &enums, ListSink::new(alloc));
    for level in 0..LEVELS {
        encoder.push()?;
        let id = format!(in alloc; "x{level}")?;
        encoder.encode(&[variable(alloc, id.as_str())?])?;
    }
    for _ in 0..LEVELS {
        encoder.pop()?;
    }
    encoder.encode(&[variable(alloc, "y")?])?;
    Ok(encoder.into_script())
}

/// Its script as it is to be.
fn stated(alloc: Global) -> Result<Vec<u8>> {
    let mut script: Vec<u8> = Vec::new(alloc);
    script.write_all(b"(declare-datatype Option (par (X) (\n  (none)\n  (some (val X)))))\n")?;
    for level in 0..LEVELS {
        writeln!(script, "(push 1)\n; \"x{level}\"")?;
        writeln!(script, "(declare-const t{level} Bool)\n(assert t{level})")?;
    }
    for _ in 0..LEVELS {
        script.write_all(b"(pop 1)\n")?;
    }
    script.write_all(b"; \"y\"\n(declare-const t0 Bool)\n(assert t0)\n")?;
    Ok(script)
}

#[test]
fn a_hundred_levels_are_opened_and_closed(rt: HostRuntime) {
    let alloc = rt.alloc();
    let sink = tower(alloc).expect(&rt, "the levels are written");
    let script = stated(alloc).expect(&rt, "there is memory");
    expect_bytes(&rt, "a hundred levels", sink.bytes(), script.as_slice());
}
