//! The answers of calls by their rows.

use crate::answers::{given, named, refused};
use crate::lines::answer_by;
use anyhow::{Context, Result};
use smt_encode::Encoder;
use smt_script::ListSink;
use smt_term::Term;
use std::alloc::Global;
use test_words::{function, terms, type_of};

/// What the call of this row answers, on one line.
pub(crate) fn answer_of(
    alloc: Global,
    encoder: &mut Encoder<'_, ListSink>,
    row: &str,
) -> Result<String> {
    let (call, words) = row.split_once(' ').unwrap_or((row, ""));
    let (name, held) = call.split_once(':').unwrap_or((call, ""));
    let terms = terms(alloc, words)?;
    answer(alloc, encoder, name, held, terms.as_slice())
}

/// What the call of this name answers, by what stands behind its colon and by terms. It owns no term, so that none is let go
/// where a call is refused.
fn answer(
    alloc: Global,
    encoder: &mut Encoder<'_, ListSink>,
    name: &str,
    held: &str,
    terms: &[Term],
) -> Result<String> {
    match name {
        "encode" => encode(alloc, encoder, terms),
        "push" => opened(alloc, encoder),
        "pop" => closed(alloc, encoder),
        "encode_term" => encode_term(alloc, encoder, terms),
        "encode_type" => encode_type(alloc, encoder, held),
        "encode_uuf" => encode_uuf(alloc, encoder, held),
        "name_of_type" | "name_of_uuf" | "name_of_term" | "term_count" => {
            found(alloc, encoder, name, held, terms)
        }
        _ => written(alloc, encoder, name, held, terms),
    }
}

/// The name of the last term.
fn encode_term(
    alloc: Global,
    encoder: &mut Encoder<'_, ListSink>,
    terms: &[Term],
) -> Result<String> {
    let term = terms.last().context("no term")?;
    given(alloc, &encoder.encode_term(term))
}

/// The name of the type of this spelling.
fn encode_type(
    alloc: Global,
    encoder: &mut Encoder<'_, ListSink>,
    spelling: &str,
) -> Result<String> {
    let ty = type_of(alloc, spelling)?;
    given(alloc, &encoder.encode_type(&ty))
}

/// The name of the function of this spelling.
fn encode_uuf(
    alloc: Global,
    encoder: &mut Encoder<'_, ListSink>,
    spelling: &str,
) -> Result<String> {
    let function = function(alloc, spelling, ':')?;
    given(alloc, &encoder.encode_uuf(&function))
}

/// What a call answers that writes the lines of one name or one application alone.
fn written(
    alloc: Global,
    encoder: &mut Encoder<'_, ListSink>,
    name: &str,
    held: &str,
    terms: &[Term],
) -> Result<String> {
    let answer = answer_by(alloc, encoder, name, held, terms)?;
    given(alloc, &answer)
}

/// What the whole script is answered by.
fn encode(alloc: Global, encoder: &mut Encoder<'_, ListSink>, terms: &[Term]) -> Result<String> {
    match encoder.encode(terms) {
        Ok(()) => Ok(String::from_str(alloc, "written")?),
        Err(error) => refused(alloc, &error),
    }
}

/// How many levels are open behind a push.
fn opened(alloc: Global, encoder: &mut Encoder<'_, ListSink>) -> Result<String> {
    match encoder.push() {
        Ok(()) => level(alloc, encoder),
        Err(error) => refused(alloc, &error),
    }
}

/// How many levels are open behind a pop.
fn closed(alloc: Global, encoder: &mut Encoder<'_, ListSink>) -> Result<String> {
    match encoder.pop() {
        Ok(()) => level(alloc, encoder),
        Err(error) => refused(alloc, &error),
    }
}

/// The level at which an encoder writes.
fn level(alloc: Global, encoder: &Encoder<'_, ListSink>) -> Result<String> {
    let levels = encoder.levels();
    Ok(format!(in alloc; "level {levels}")?)
}

/// What an encoder has: a name, or how many terms have names.
fn found(
    alloc: Global,
    encoder: &Encoder<'_, ListSink>,
    name: &str,
    held: &str,
    terms: &[Term],
) -> Result<String> {
    match name {
        "name_of_type" => name_of_type(alloc, encoder, held),
        "name_of_uuf" => name_of_uuf(alloc, encoder, held),
        "name_of_term" => name_of_term(alloc, encoder, terms),
        _ => {
            let count = encoder.term_count();
            Ok(format!(in alloc; "{count}")?)
        }
    }
}

/// The name that the type of this spelling has.
fn name_of_type(alloc: Global, encoder: &Encoder<'_, ListSink>, spelling: &str) -> Result<String> {
    let ty = type_of(alloc, spelling)?;
    named(alloc, encoder.name_of_type(&ty))
}

/// The name that the function of this spelling has.
fn name_of_uuf(alloc: Global, encoder: &Encoder<'_, ListSink>, spelling: &str) -> Result<String> {
    let function = function(alloc, spelling, ':')?;
    named(alloc, encoder.name_of_uuf(&function))
}

/// The name that the last term has.
fn name_of_term(alloc: Global, encoder: &Encoder<'_, ListSink>, terms: &[Term]) -> Result<String> {
    let term = terms.last().context("no term")?;
    named(alloc, encoder.name_of_term(term))
}
