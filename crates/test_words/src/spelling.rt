//! Texts and patterns, and enum types, which are texts.

use anyhow::{Context, Result, bail};
use smt_term::{EntityType, EnumTable, OrdPattern, Pattern, PatternElem, Text};
use std::alloc::Global;

/// What there is of an escape.
#[derive(Clone, Copy)]
enum Escape {
    /// Nothing: the next character stands for itself.
    Closed,
    /// The backslash.
    Begun,
    /// The letter `u`, and digits of this code behind it.
    Code(u32),
}

/// The text of this spelling.
pub fn text(alloc: Global, spelling: &str) -> Result<Text> {
    let mut text = String::new(alloc);
    let mut escape = Escape::Closed;
    for c in spelling.chars() {
        let (behind, character) = step(escape, c).context("no escape is spelled like this")?;
        if let Some(character) = character {
            text.push(character)?;
        }
        escape = behind;
    }
    match escape {
        Escape::Closed => Ok(Text::from_string(text)?),
        Escape::Begun | Escape::Code(_) => bail!("an escape does not end"),
    }
}

/// What there is of an escape behind one character more, and the character that this ends; None where no escape goes on so.
fn step(escape: Escape, c: char) -> Option<(Escape, Option<char>)> {
    Some(match (escape, c) {
        (Escape::Closed, '\\') => (Escape::Begun, None),
        (Escape::Closed, _) => (Escape::Closed, Some(c)),
        (Escape::Begun, 'u') => (Escape::Code(0), None),
        (Escape::Begun, _) => (Escape::Closed, Some(named(c)?)),
        (Escape::Code(code), '{') => (Escape::Code(code), None),
        (Escape::Code(code), '}') => (Escape::Closed, Some(char::from_u32(code)?)),
        (Escape::Code(code), _) => {
            let code = code.checked_mul(16)?.checked_add(c.to_digit(16)?)?;
            (Escape::Code(code), None)
        }
    })
}

/// The character of the escape with this letter.
fn named(letter: char) -> Option<char> {
    match letter {
        'n' => Some('\n'),
        'r' => Some('\r'),
        '\\' | '"' => Some(letter),
        _ => None,
    }
}

/// The texts of this spelling, each with a comma behind it.
pub fn texts(alloc: Global, spelling: &str) -> Result<Vec<Text>> {
    let mut texts = Vec::new(alloc);
    for piece in spelling.split_terminator(',') {
        texts.push(text(alloc, piece)?)?;
    }
    Ok(texts)
}

/// The texts of these characters as they are, as the words of a command line.
pub fn texts_of(alloc: Global, items: &[&str]) -> Result<Vec<Text>> {
    let mut texts = Vec::new(alloc);
    for item in items {
        texts.push(Text::from_str(alloc, item)?)?;
    }
    Ok(texts)
}

/// The pattern of this spelling.
pub fn pattern(alloc: Global, spelling: &str) -> Result<OrdPattern> {
    let characters = text(alloc, spelling)?;
    let mut elements = Vec::new(alloc);
    for c in characters.as_str().chars() {
        elements.push(match c {
            '*' => PatternElem::Wildcard,
            _ => PatternElem::Char(c),
        })?;
    }
    Ok(OrdPattern::from(Pattern::new(alloc, elements.as_slice())?))
}

/// The spelling of a pattern, with no escapes.
pub fn spelling_of(alloc: Global, pattern: &OrdPattern) -> Result<String> {
    let mut spelling = String::new(alloc);
    for element in pattern.get_elems() {
        spelling.push(match element {
            PatternElem::Wildcard => '*',
            PatternElem::Char(c) => *c,
        })?;
    }
    Ok(spelling)
}

/// Enters an enum type by its name and its members.
pub fn enter(alloc: Global, enums: &mut EnumTable, spelling: &str) -> Result<()> {
    let mut texts = Vec::new(alloc);
    for piece in spelling.split(':') {
        texts.push(text(alloc, piece)?)?;
    }
    let (name, members) = texts.as_slice().split_first().context("no name")?;
    if !enums.insert(EntityType(name.clone()?), members)? {
        bail!("the enum type is there already");
    }
    Ok(())
}
