//! Rows by their words. A word enters an enum type, or puts a term on a stack, and an operator takes its arguments from there.

use crate::made::made;
use crate::operators::applied;
use anyhow::{Result, bail};
use smt_term::{EnumTable, Term, TermType};
use std::alloc::Global;
use test_words::{enter, operator};

/// What a row says.
#[derive(Drop)]
pub(crate) struct Row {
    /// The enum types.
    pub enums: EnumTable,
    /// The terms that are left, the first of them first.
    pub terms: Vec<Term>,
}

/// What these words say, which leave terms that claim to be Boolean. A space stands between two words, and there may be none.
pub(crate) fn read_row(alloc: Global, words: &str) -> Result<Row> {
    let mut enums = EnumTable::new(alloc);
    let mut terms = Vec::new(alloc);
    for word in words.split_terminator(' ') {
        let (head, held) = word.split_once(':').unwrap_or((word, ""));
        if head == "enum" {
            enter(alloc, &mut enums, held)?;
        } else {
            let term = term(alloc, &mut terms, head, held)?;
            terms.push(term)?;
        }
    }
    for term in terms.as_slice() {
        if term.type_of(alloc)? != TermType::Bool {
            bail!("the words leave a term that is not Boolean");
        }
    }
    Ok(Row { enums, terms })
}

/// The term of a word by its head and what it holds behind the colon.
fn term(alloc: Global, terms: &mut Vec<Term>, head: &str, held: &str) -> Result<Term> {
    if head == "made" {
        return made(alloc, terms, held);
    }
    match test_words::term(alloc, terms, head, held)? {
        Some(term) => Ok(term),
        None => applied(alloc, terms, operator(alloc, head)?),
    }
}
