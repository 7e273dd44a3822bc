// What an encoder answers over a sink that fails, that it may be let go at an error, and which characters strings may have.
// What it writes and refuses else is in the rows of `test_scripts`.
#![tactic(auto, using(smt_term::specs::View::views))]

ghost use Rattle.std.specs.Prelude.{◌≡◌};
ghost use Rattle.law_terms.specs.TypeValues.{is_code_point};

use crate::expected::{expect, expect_bytes};
use crate::runs::SCRIPT;
use smt_encode::{EncodeError, Encoder, SMT_LIB_MAX_CODE_POINT};
use smt_script::MemorySink;
use smt_term::{EnumTable, Op, Term, TermList, TermType, TermVar, Text};
use std::alloc::Global;
use std::process::Abort;
use test_words::AMPLE;

/// How many bytes the declaration of the datatype `Option` has, with which each script begins.
const OPTION_LENGTH: usize = 65;

/// The term `not b`, whose script is `SCRIPT`.
fn negation(rt: &impl Abort, alloc: Global) -> Term {
    let b = Term::from(TermVar {
        id: Text::from_str(alloc, "b").expect(rt, AMPLE),
        ty: TermType::Bool,
    });
    Term::App {
        op: Op::Not,
        args: TermList::new(alloc, &[b]).expect(rt, AMPLE),
        ret_ty: TermType::Bool,
    }
}

/// A sink that fails at these puts, with the script of these terms. On an error the encoder is let go with it.
fn encoded(alloc: Global, fails: &[u64], terms: &[Term]) -> Result<MemorySink, EncodeError> {
    let enums = EnumTable::new(alloc);
    let mut encoder = Encoder::new(alloc, &enums, MemorySink::new(alloc, fails, 200)?);
    encoder.encode(terms)?;
    Ok(encoder.into_script())
}

/// Puts the script of these terms to a sink of the caller's.
fn encode_to(alloc: Global, sink: &mut MemorySink, terms: &[Term]) -> Result<(), EncodeError> {
    let enums = EnumTable::new(alloc);
    Encoder::new(alloc, &enums, sink).encode(terms)
}

/// Stops the test where the script was not put.
fn expect_encoded(rt: &impl Abort, encoded: Result<MemorySink, EncodeError>) {
    let sink = encoded.expect(rt, "the script is put");
    expect_bytes(rt, "the encoder's sink", sink.bytes(), SCRIPT.as_bytes());
}

/// Whether a script was not put since its sink failed.
fn is_fault(encoded: Result<MemorySink, EncodeError>) -> bool {
    encoded.is_err_and(|error| error == EncodeError::Io)
}

#[test]
fn an_encoder_is_let_go_at_an_error(rt: HostRuntime) {
    let alloc = rt.alloc();
    let terms = [negation(&rt, alloc)];
    expect_encoded(&rt, encoded(alloc, &[], &terms));
    let failed = encoded(alloc, &[3], &terms);
    expect(&rt, is_fault(failed), "a fault of the sink");
    let mut sink = MemorySink::new(alloc, &[], 200).expect(&rt, AMPLE);
    encode_to(alloc, &mut sink, &terms).expect(&rt, "the script is put");
    expect_bytes(
        &rt,
        "a sink of the caller's",
        sink.bytes(),
        SCRIPT.as_bytes(),
    );
}

/// Whether an encoder whose sink fails at the third put says so, is spent, and has put some of the script.
fn is_spent_by_its_sink(rt: &impl Abort, alloc: Global) -> bool {
    let terms = [negation(rt, alloc)];
    let enums = EnumTable::new(alloc);
    let sink = MemorySink::new(alloc, &[3], 200).expect(rt, AMPLE);
    let mut encoder = Encoder::new(alloc, &enums, sink);
    let failed = encoder.encode(&terms) == Err(EncodeError::Io);
    let spent = encoder.encode(&terms) == Err(EncodeError::Spent);
    let sink = encoder.into_script();
    let begun = sink.bytes().len() < OPTION_LENGTH && SCRIPT.as_bytes().starts_with(sink.bytes());
    failed && spent && begun
}

#[test]
fn a_failing_sink_spends_the_encoder(rt: HostRuntime) {
    let is_spent = is_spent_by_its_sink(&rt, rt.alloc());
    expect(&rt, is_spent, "an encoder whose sink failed");
}

/// Whether a character is not above the constant: this is proved to be the rule by which strings are refused.
fn is_allowed(c: char) -> bool
    ensures { result ≡ is_code_point c }
{
    u32::from(c) <= SMT_LIB_MAX_CODE_POINT
}

#[test]
fn the_greatest_character_is_allowed(rt: HostRuntime) {
    expect(&rt, SMT_LIB_MAX_CODE_POINT == 0x2ffff, "the constant");
    expect(&rt, is_allowed('\u{2ffff}'), "the greatest character");
    expect(&rt, !is_allowed('\u{30000}'), "the next one");
}
