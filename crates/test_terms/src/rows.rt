// The rows, answered one after the other.
use crate::expected::expect_lines;
use crate::tables::TABLES;
use crate::{asked, folded, functions};
use anyhow::Result;
use smt_term::Term;
use std::alloc::Global;
use std::process::Abort;
use test_words::{AMPLE, put_terms};

/// What a row answers: each answer behind a space, or the terms that are left.
fn answer(alloc: Global, row: &str) -> Result<String> {
    let mut out = String::new(alloc);
    let mut terms: Vec<Term> = Vec::new(alloc);
    for word in row.split(' ') {
        put_word(alloc, &mut out, &mut terms, word)?;
    }
    if out.is_empty() {
        put_terms(&mut out, terms.as_slice())?;
    }
    Ok(out)
}

/// Puts what a word answers, or leaves the term that it makes on the stack.
fn put_word(alloc: Global, out: &mut String, terms: &mut Vec<Term>, word: &str) -> Result<()> {
    let (head, held) = word.split_once(':').unwrap_or((word, ""));
    if let Some(term) = made(alloc, terms, head, held)? {
        return Ok(terms.push(term)?);
    }
    if is_answered(alloc, out, terms.as_slice(), head, held)? {
        return Ok(());
    }
    let term = folded::term(alloc, terms, head, held)?;
    Ok(terms.push(term)?)
}

/// Puts the answer of a word behind a space; false where the word does not ask.
fn is_answered(
    alloc: Global,
    out: &mut String,
    terms: &[Term],
    head: &str,
    held: &str,
) -> Result<bool> {
    let mut answer = String::new(alloc);
    if !asked::answered(alloc, &mut answer, terms, head, held)? {
        return Ok(false);
    }
    out.push(' ')?;
    out.push_str(answer.as_str())?;
    Ok(true)
}

/// The term of a word that makes it as it is, or by a function on values of the extension types.
fn made(alloc: Global, terms: &mut Vec<Term>, head: &str, held: &str) -> Result<Option<Term>> {
    match test_words::term(alloc, terms, head, held)? {
        Some(term) => Ok(Some(term)),
        None => functions::term(alloc, terms, head, held),
    }
}

/// The rows of a table, each with what it answers now.
fn answered(rt: &impl Abort, alloc: Global, table: &str) -> String {
    let mut said = String::new(alloc);
    for line in table.lines() {
        if let Some((row, _)) = line.split_once(" =") {
            let answer = answer(alloc, row).expect(rt, "the row says what to ask");
            let answer = format!(in alloc; "{row} ={answer}\n").expect(rt, AMPLE);
            said.push_str(answer.as_str()).expect(rt, AMPLE);
        }
    }
    said
}

#[test]
fn rows_are_answered(rt: HostRuntime) {
    for table in TABLES {
        let said = answered(&rt, rt.alloc(), table);
        expect_lines(&rt, said.as_str(), table);
    }
}
