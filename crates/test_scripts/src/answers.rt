//! Answers as they are printed.

use crate::lines::Answer;
use anyhow::Result;
use smt_encode::EncodeError;
use smt_term::{EntityUID, OrdPattern, TermType, Text};
use smt_text::quote_id;
use std::alloc::Global;
use test_words::{spelling_of, text_or};

/// A name that was given, or the refusal.
pub(crate) fn given(alloc: Global, answer: &Answer) -> Result<String> {
    match answer {
        Ok(name) => Ok(String::from_str(alloc, name.as_str())?),
        Err(error) => refused(alloc, error),
    }
}

/// A name that was found, or that there is none.
pub(crate) fn named(alloc: Global, name: Option<&Text>) -> Result<String> {
    text_or(alloc, name, "no name")
}

/// A refusal by its name, by what it names, and by what it says.
pub(crate) fn refused(alloc: Global, error: &EncodeError) -> Result<String> {
    let cause = cause_of(alloc, error)?;
    Ok(format!(in alloc; "refused: {cause}: {error}")?)
}

fn cause_of(alloc: Global, error: &EncodeError) -> Result<String> {
    match error {
        EncodeError::EnumMissingMember(entity) => missing_member(alloc, entity),
        EncodeError::EmptyEnum(ety) => with(alloc, "EmptyEnum", ety.0.as_str()),
        EncodeError::EncodeStringFailed(text) => {
            with_quoted(alloc, "EncodeStringFailed", text.as_str())
        }
        EncodeError::EncodePatternFailed(pattern) => failed_pattern(alloc, pattern),
        EncodeError::RecordMissingAttr(name) => {
            with_quoted(alloc, "RecordMissingAttr", name.as_str())
        }
        EncodeError::ExpectRecord(ty) => with(alloc, "ExpectRecord", type_name(ty)),
        EncodeError::MissingTypeEncoding(ty) => with(alloc, "MissingTypeEncoding", type_name(ty)),
        EncodeError::MalformedRecordGet => alone(alloc, "MalformedRecordGet"),
        EncodeError::Spent => alone(alloc, "Spent"),
        EncodeError::NoScope => alone(alloc, "NoScope"),
        _ => alone(alloc, "another cause"),
    }
}

fn missing_member(alloc: Global, entity: &EntityUID) -> Result<String> {
    let ety = entity.ety.0.as_str();
    let id = quote_id(alloc, entity.id.0.as_str())?;
    Ok(format!(in alloc; "EnumMissingMember {ety}::{id}")?)
}

fn failed_pattern(alloc: Global, pattern: &OrdPattern) -> Result<String> {
    let spelling = spelling_of(alloc, pattern)?;
    with_quoted(alloc, "EncodePatternFailed", spelling.as_str())
}

fn alone(alloc: Global, cause: &str) -> Result<String> {
    Ok(String::from_str(alloc, cause)?)
}

fn with(alloc: Global, cause: &str, named: &str) -> Result<String> {
    Ok(format!(in alloc; "{cause} {named}")?)
}

fn with_quoted(alloc: Global, cause: &str, text: &str) -> Result<String> {
    let quoted = quote_id(alloc, text)?;
    Ok(format!(in alloc; "{cause} {quoted}")?)
}

/// The name of an entity type, or the word of a truth value.
fn type_name(ty: &TermType) -> &str {
    match ty {
        TermType::Entity { ety } => ety.0.as_str(),
        TermType::Bool => "bool",
        TermType::Ext { .. } => "of extension values",
        _ => "of another type",
    }
}
