// Texts with characters that would end a line, a comment, a string or an expression, in each place where a term has a text.
// The script has the commands that it has with a plain text there, but for that text as a string.

use crate::expected::expect_text;
use crate::words::read_row;
use anyhow::{Result, bail};
use smt_encode::Encoder;
use smt_script::ListSink;
use smt_sexpr::{SExpr, parse_sexpr};
use std::alloc::Global;
use std::io::Write;

/// Rows in which `#` stands for the text, with the number of commands that their scripts have: the text is the id of a
/// variable or of a function, an attribute, an entity type, a member of an enum type or a string.
const PLACES: &[(&str, usize)] = &[
    ("var:#:bool", 3),
    ("true call:#:bool:bool", 4),
    ("var:r:%#=bool record.get=#", 5),
    ("var:u:@# entity:#:a eq", 6),
    ("enum:Color:# var:c:@Color entity:Color:# eq", 5),
    ("text:# var:s:string eq", 4),
];

/// Texts as rows spell them, and as a script has them as strings (SMT-LIB 2.7, theory UnicodeStrings).
const TEXTS: &[(&str, &str)] = &[
    (r"\n", r#""\u{a}""#),
    (r"\r", r#""\u{d}""#),
    (r"\r\n", r#""\u{d}\u{a}""#),
    (r#"\""#, r#""""""#),
    (r"\\", r#""\u{5c}""#),
    ("|", r#""|""#),
    (";", r#"";""#),
    (r"(assert\u{20}false)", r#""(assert false)""#),
    (r"\u{0}", r#""\u{0}""#),
    (r"\u{7f}", r#""\u{7f}""#),
    (r"\\u{5c}", r#""\u{5c}u{5c}""#),
    (r"\u{2ffff}", r#""\u{2ffff}""#),
    ("", r#""""#),
];

/// A template with this text in place of each hole.
fn filled(alloc: Global, template: &str, hole: &str, text: &str) -> Result<String> {
    let mut filled = String::new(alloc);
    for (at, piece) in template.split(hole).enumerate() {
        if at > 0 {
            filled.push_str(text)?;
        }
        filled.push_str(piece)?;
    }
    Ok(filled)
}

/// The script of the terms that these words say.
fn script(alloc: Global, words: &str) -> Result<String> {
    let row = read_row(alloc, words)?;
    let mut encoder = Encoder::new(alloc, &row.enums, ListSink::new(alloc));
    if encoder.encode(row.terms.as_slice()).is_err() {
        bail!("the terms have no script");
    }
    let sink = encoder.into_script();
    Ok(String::from_str(alloc, str::from_utf8(sink.bytes())?)?)
}

/// The commands of a script, one after the other, as a list.
fn commands(alloc: Global, script: &str) -> Result<SExpr> {
    Ok(parse_sexpr(alloc, format!(in alloc; "({script})")?.as_bytes())?)
}

/// Whether this is a list of so many expressions.
fn has_length(list: &SExpr, length: usize) -> bool {
    match list {
        SExpr::App(items) => items.len() == length,
        _ => false,
    }
}

/// Prints the row of a text in a place where its script does not have the commands of a plain text.
fn put_difference(
    alloc: Global,
    printer: &mut (impl Write + Drop),
    (place, length): (&str, usize),
    (text, literal): (&str, &str),
) -> Result<()> {
    let row = filled(alloc, place, "#", text)?;
    let plain = script(alloc, filled(alloc, place, "#", "x")?.as_str())?;
    let stated = filled(alloc, plain.as_str(), "\"x\"", literal)?;
    let stated = commands(alloc, stated.as_str())?;
    let read = commands(alloc, script(alloc, row.as_str())?.as_str())?;
    if !has_length(&read, length) || read != stated {
        writeln!(printer, "{row}")?;
    }
    Ok(())
}

#[test]
fn hostile_texts_change_no_command(rt: HostRuntime) {
    let alloc = rt.alloc();
    let mut differing: Vec<u8> = Vec::new(alloc);
    for place in PLACES {
        for text in TEXTS {
            put_difference(alloc, &mut differing, *place, *text).expect(&rt, "scripts are read");
        }
    }
    let differing = str::from_utf8(differing.as_slice()).expect(&rt, "rows are UTF-8");
    expect_text(&rt, "rows that differ", differing, "");
}
