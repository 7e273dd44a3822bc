//! Labels as rows spell them: a word, and behind a colon what the label holds.

use anyhow::{Context, Result, bail};
use smt_bits::Width;
use smt_nodes::{AttrList, Label};
use smt_term::Term;
use std::alloc::Global;
use test_words::{extension_type, one, operator, terms, text, texts};

/// The label of this spelling.
pub(crate) fn label(alloc: Global, spelling: &str) -> Result<Label> {
    let (word, held) = spelling.split_once(':').unwrap_or((spelling, ""));
    match plain(word) {
        Some(label) => Ok(label),
        None => holding(alloc, word, held),
    }
}

/// The label of this word, where it holds nothing.
fn plain(word: &str) -> Option<Label> {
    match word {
        "bool" => Some(Label::TBool),
        "string" => Some(Label::TString),
        "option" => Some(Label::TOption),
        "set" => Some(Label::TSet),
        "call" => Some(Label::Call),
        "none" => Some(Label::NoneOf),
        "set_of" => Some(Label::SetOf),
        "some" => Some(Label::SomeOf),
        _ => None,
    }
}

/// The label of this word, which holds this.
fn holding(alloc: Global, word: &str, held: &str) -> Result<Label> {
    match word {
        "bits" => bits(held),
        "ext" => extension(held),
        "record" | "record_of" => of_names(alloc, word, held),
        "fun" | "var" => of_text(alloc, word, held),
        "app" => Ok(Label::App(operator(alloc, held)?)),
        "prim" => literal(alloc, held),
        _ => bail!("no label has this spelling"),
    }
}

/// That of the type of bitvectors of this width.
fn bits(held: &str) -> Result<Label> {
    let width = Width::new(held.parse()?).context("no width")?;
    Ok(Label::TBitvec(width))
}

/// That of the extension type of this name.
fn extension(held: &str) -> Result<Label> {
    let xty = extension_type(held).context("no type has this name")?;
    Ok(Label::TExt(xty))
}

/// That of a literal, by its word.
fn literal(alloc: Global, word: &str) -> Result<Label> {
    let term = one(&mut terms(alloc, word)?)?;
    literal_of(&term)
}

fn literal_of(term: &Term) -> Result<Label> {
    match term {
        Term::Prim(literal) => Ok(Label::Prim(literal.share()?)),
        _ => bail!("the term is no literal"),
    }
}

/// That of a record type or of a record, with these attributes.
fn of_names(alloc: Global, word: &str, held: &str) -> Result<Label> {
    let names = AttrList::new(alloc, texts(alloc, held)?.as_slice())?;
    Ok(match word {
        "record" => Label::TRecord(names),
        _ => Label::RecordOf(names),
    })
}

/// That of a function or of a variable, with this id.
fn of_text(alloc: Global, word: &str, held: &str) -> Result<Label> {
    let id = text(alloc, held)?;
    Ok(match word {
        "fun" => Label::Fun(id),
        _ => Label::Var(id),
    })
}
