//! Texts between quotes and S-expressions: what is read of whole texts and at their fronts, and how it is printed.

use crate::expected::{expect, expect_text};
use anyhow::Result;
use smt_sexpr::{
    SExpr, SExprs, behind_close, behind_open, is_blank, name_at, number_at, parse_sexpr,
    parse_sexpr_within, plain_text_at, quote_string, read_next,
};
use std::alloc::Global;
use std::fmt::Debug;
use std::process::Abort;
use test_words::{AMPLE, text_or};

/// A call, behind a colon the depth that it allows, its text, and what it answers, as `{:?}` prints it.
type Row = (&'static str, &'static [u8], &'static str);

/// Whole texts. The values are from outside.
const WHOLE: &[Row] = &[
    // A text, and what is read of it.
    (
        "parse",
        b"#b01",
        "Ok(BitVec(BitVec { width: Width { bits: 2 }, number: 1 }))",
    ),
    (
        "parse",
        b"#xDEAD",
        "Ok(BitVec(BitVec { width: Width { bits: 16 }, number: 57005 }))",
    ),
    ("parse", b"#b", "Err(ParseIntError(Empty))"),
    ("parse", b"#x;", "Err(ParseIntError(Empty))"),
    ("parse", b"(a #", "Err(UnexpectedEnd)"),
    (
        "parse",
        b"#xFFFFFFFFFFFFFFFFFFFFFFFFFFFFFFFF1",
        "Err(ParseIntError(PosOverflow))",
    ),
    (
        "parse",
        b"#x0FFFFFFFFFFFFFFFFFFFFFFFFFFFFFFFF",
        "Err(IntegerOverflow)",
    ),
    ("parse", b"(a) (b)", "Err(TrailingTokens)"),
    ("parse", b") )", "Err(UnclosedSExpr)"),
    ("parse", b"(a", "Err(UnexpectedEnd)"),
    ("parse", b"a) #", "Err(UnexpectedEnd)"),
    ("parse", b"a\xff", "Err(Utf8Error)"),
    (
        "parse",
        b"; c1\r(foo); c2\n",
        "Ok(App(SExprs { items: [Symbol(\"foo\")] }))",
    ),
    ("parse", b"\"a;b\"", "Ok(String(\"a;b\"))"),
    (
        "parse",
        b"\"\\u{01dcef}\\u{32344}\"",
        "Ok(String(\"\\\\u{01dcef}\\\\u{32344}\"))",
    ),
    ("parse", b"\"\\u{1dcef}\"", "Ok(String(\"\\u{1dcef}\"))"),
    ("parse", b"\"a\\u{5c}\"\"\"", "Ok(String(\"a\\\\\\\"\"))"),
    ("parse", b"\"\xe9\"", "Ok(String(\"\u{e9}\"))"),
    ("parse", b"\"\\u0041\"", "Ok(String(\"A\"))"),
    (
        "parse",
        b"\"\"\"\\ud800\"",
        "Err(StringParseError(Bytes { items: [34, 34, 92, 117, 100, 56, 48, 48] }))",
    ),
    (
        "parse",
        b"#b111111111111111111111111111111111111111111111111111111111111111111111111111111111111111111111111111111111111111111111111111111111",
        "Err(ParseIntError(PosOverflow))",
    ),
    (
        "parse",
        b"#b011111111111111111111111111111111111111111111111111111111111111111111111111111111111111111111111111111111111111111111111111111111",
        "Err(IntegerOverflow)",
    ),
    (
        "parse",
        b"#b01111111111111111111111111111111111111111111111111111111111111111111111111111111111111111111111111111111111111111111111111111111",
        "Ok(BitVec(BitVec { width: Width { bits: 128 }, number: 170141183460469231731687303715884105727 }))",
    ),
    // The same within a depth.
    ("parse_within:1", b"((a))", "Err(TooDeep)"),
    (
        "parse_within:2",
        b"((a))",
        "Ok(App(SExprs { items: [App(SExprs { items: [Symbol(\"a\")] })] }))",
    ),
];

/// What is read, printed. The values are from outside.
const PRINTED: &[Row] = &[
    // How what is read is printed.
    ("print", b"#b01", "BitVec { width: 2, v: 1 }"),
    ("print", b"#xff", "BitVec { width: 8, v: 255 }"),
    (
        "print",
        b"#x7FFFFFFFFFFFFFFFFFFFFFFFFFFFFFFF",
        "BitVec { width: 128, v: 170141183460469231731687303715884105727 }",
    ),
    ("print", b"0", "0"),
    ("print", b"007", "7"),
    (
        "print",
        b"340282366920938463463374607431768211455",
        "340282366920938463463374607431768211455",
    ),
    ("print", b"\"\"", "\"\""),
    ("print", b"\"a\"\"b\"", "\"a\"b\""),
    ("print", b"\"\\u{e9}\"", "\"\u{e9}\""),
    ("print", b"\"\\u{5c}\\u{a}\"", "\"\\\n\""),
    ("print", b"bvadd", "bvadd"),
    ("print", b"()", "()"),
    ("print", b"( a  ( ) \"x\" )", "(a () \"x\")"),
    ("print", b"; before\n(a ; between\n b); after", "(a b)"),
    (
        "print",
        b"((((a) b) 1) #b1)",
        "((((a) b) 1) BitVec { width: 1, v: 1 })",
    ),
    (
        "print",
        b"(((((((((((())))))))))))",
        "(((((((((((())))))))))))",
    ),
];

/// The fronts of texts. The values are from outside.
const FRONTS: &[Row] = &[
    // The expression at the front and what follows it, or the first fault of a token, also behind one of a bracket. What follows is
    // not looked at.
    (
        "read_next:2",
        b"(a \"x\"\"y\" 12 ()) b)",
        "(App(SExprs { items: [Symbol(\"a\"), String(\"x\\\"y\"), Numeral(12), App(SExprs { items: [] })] }), \" b)\")",
    ),
    ("read_next:0", b"a", "(Symbol(\"a\"), \"\")"),
    ("read_next:0", b" ; (\n a;b", "(Symbol(\"a\"), \";b\")"),
    ("read_next:0", b"12ab", "(Numeral(12), \"ab\")"),
    ("read_next:0", b"\"a;\"(b", "(String(\"a;\"), \"(b\")"),
    (
        "read_next:0",
        b"#b01)",
        "(BitVec(BitVec { width: Width { bits: 2 }, number: 1 }), \")\")",
    ),
    (
        "read_next:1",
        b"(a)(b",
        "(App(SExprs { items: [Symbol(\"a\")] }), \"(b\")",
    ),
    ("read_next:0", b"a #", "(Symbol(\"a\"), \" #\")"),
    ("read_next:0", b"a) \"", "(Symbol(\"a\"), \") \\\"\")"),
    ("read_next:0", b")", "UnclosedSExpr"),
    ("read_next:0", b") #", "UnexpectedEnd"),
    (
        "read_next:1",
        b"((a)) \"\\ud800\"",
        "StringParseError(Bytes { items: [92, 117, 100, 56, 48, 48] })",
    ),
    ("read_next:1", b"((a))", "TooDeep"),
    ("read_next:1", b"(a", "UnexpectedEnd"),
    ("read_next:1", b" ; a", "UnexpectedEnd"),
];

/// Brackets at the front. The values are from outside.
const BRACKETS: &[Row] = &[
    // What follows a bracket that opens, and one that closes, at the front, and whether there are blanks alone.
    ("behind_open", b"(a", "Some(\"a\")"),
    ("behind_close", b"(a", "None"),
    ("is_blank", b"(a", "false"),
    ("behind_open", b" \t\r\n\x0c(", "Some(\"\")"),
    ("behind_close", b" \t\r\n\x0c(", "None"),
    ("is_blank", b" \t\r\n\x0c(", "false"),
    ("behind_open", b"; (\n; )\r )a", "None"),
    ("behind_close", b"; (\n; )\r )a", "Some(\"a\")"),
    ("is_blank", b"; (\n; )\r )a", "false"),
    ("behind_open", b"a(", "None"),
    ("behind_close", b"a(", "None"),
    ("is_blank", b"a(", "false"),
    ("behind_open", b"\")\"", "None"),
    ("behind_close", b"\")\"", "None"),
    ("is_blank", b"\")\"", "false"),
    ("behind_open", b"", "None"),
    ("behind_close", b"", "None"),
    ("is_blank", b"", "true"),
    ("behind_open", b" \x0c\n", "None"),
    ("behind_close", b" \x0c\n", "None"),
    ("is_blank", b" \x0c\n", "true"),
    ("behind_open", b"; )", "None"),
    ("behind_close", b"; )", "None"),
    ("is_blank", b"; )", "true"),
];

/// Names, strings and numerals at the front. The values are from outside.
const ATOMS: &[Row] = &[
    // What is found at the front, with what follows. A string is found whose characters stand as themselves and that ends, and a
    // numeral that can be held.
    (
        "name_at",
        b"set.member (a",
        "Some((\"set.member\", \" (a\"))",
    ),
    ("plain_text_at", b"set.member (a", "None"),
    ("number_at", b"set.member (a", "None"),
    ("name_at", b" ; \"x\"\n:a)b", "Some((\":a\", \")b\"))"),
    ("plain_text_at", b" ; \"x\"\n:a)b", "None"),
    ("number_at", b" ; \"x\"\n:a)b", "None"),
    ("name_at", b"a1\"b\"", "Some((\"a1\", \"\\\"b\\\"\"))"),
    ("plain_text_at", b"a1\"b\"", "None"),
    ("number_at", b"a1\"b\"", "None"),
    ("name_at", b"\xce\xbbx;", "Some((\"\u{3bb}x\", \";\"))"),
    ("plain_text_at", b"\xce\xbbx;", "None"),
    ("number_at", b"\xce\xbbx;", "None"),
    ("name_at", b"12ab", "None"),
    ("plain_text_at", b"12ab", "None"),
    ("number_at", b"12ab", "Some((12, \"ab\"))"),
    ("name_at", b"\t; 1\n007(", "None"),
    ("plain_text_at", b"\t; 1\n007(", "None"),
    ("number_at", b"\t; 1\n007(", "Some((7, \"(\"))"),
    (
        "name_at",
        b"340282366920938463463374607431768211455 ",
        "None",
    ),
    (
        "plain_text_at",
        b"340282366920938463463374607431768211455 ",
        "None",
    ),
    (
        "number_at",
        b"340282366920938463463374607431768211455 ",
        "Some((340282366920938463463374607431768211455, \" \"))",
    ),
    (
        "name_at",
        b"340282366920938463463374607431768211456",
        "None",
    ),
    (
        "plain_text_at",
        b"340282366920938463463374607431768211456",
        "None",
    ),
];

/// More of these. The values are from outside.
const OTHER_ATOMS: &[Row] = &[
    (
        "number_at",
        b"340282366920938463463374607431768211456",
        "None",
    ),
    ("name_at", b" \"a;(\"b", "None"),
    ("plain_text_at", b" \"a;(\"b", "Some((\"a;(\", \"b\"))"),
    ("number_at", b" \"a;(\"b", "None"),
    ("name_at", b"\"\"", "None"),
    ("plain_text_at", b"\"\"", "Some((\"\", \"\"))"),
    ("number_at", b"\"\"", "None"),
    ("name_at", b"\"a\"\"b\"", "None"),
    ("plain_text_at", b"\"a\"\"b\"", "None"),
    ("number_at", b"\"a\"\"b\"", "None"),
    ("name_at", b"\"\"\"\"", "None"),
    ("plain_text_at", b"\"\"\"\"", "None"),
    ("number_at", b"\"\"\"\"", "None"),
    ("name_at", b"\"a\\u{62}\"", "None"),
    ("plain_text_at", b"\"a\\u{62}\"", "None"),
    ("number_at", b"\"a\\u{62}\"", "None"),
    ("name_at", b"\"\xc3\xa9\"", "None"),
    ("plain_text_at", b"\"\xc3\xa9\"", "None"),
    ("number_at", b"\"\xc3\xa9\"", "None"),
    ("name_at", b"\"a", "None"),
    ("plain_text_at", b"\"a", "None"),
    ("number_at", b"\"a", "None"),
    ("name_at", b"(a", "None"),
    ("plain_text_at", b"(a", "None"),
    ("number_at", b"(a", "None"),
    ("name_at", b") 1", "None"),
    ("plain_text_at", b") 1", "None"),
    ("number_at", b") 1", "None"),
    ("name_at", b"#b1", "None"),
    ("plain_text_at", b"#b1", "None"),
    ("number_at", b"#b1", "None"),
    ("name_at", b"; a", "None"),
    ("plain_text_at", b"; a", "None"),
    ("number_at", b"; a", "None"),
    ("name_at", b"", "None"),
    ("plain_text_at", b"", "None"),
    ("number_at", b"", "None"),
    ("name_at", b"a\xff ", "None"),
];

/// Texts between quotes. The values are from outside.
const QUOTED: &[Row] = &[
    // What stands for a text in a script (SMT-LIB 2.7, theory UnicodeStrings), which has no characters above U+2FFFF.
    ("quote_string", b"", "\"\""),
    ("quote_string", b"a\\\"", "\"a\\u{5c}\"\"\""),
    ("quote_string", b"\"", "\"\"\"\""),
    ("quote_string", b"\"\"", "\"\"\"\"\"\""),
    ("quote_string", b"\\", "\"\\u{5c}\""),
    ("quote_string", b"\\u{5c}", "\"\\u{5c}u{5c}\""),
    ("quote_string", b"\n", "\"\\u{a}\""),
    ("quote_string", b"\r", "\"\\u{d}\""),
    ("quote_string", b"\x00", "\"\\u{0}\""),
    ("quote_string", b" ~", "\" ~\""),
    ("quote_string", b"\x7f", "\"\\u{7f}\""),
    ("quote_string", b"\xc3\xa9", "\"\\u{e9}\""),
    ("quote_string", b"\xea\xaf\x8dz", "\"\\u{abcd}z\""),
    ("quote_string", b"\xf0\x90\x80\x80", "\"\\u{10000}\""),
    ("quote_string", b"\xf0\xaf\xbf\xbf", "\"\\u{2ffff}\""),
    ("quote_string", b"\xf0\xb0\x80\x80", "nothing"),
    ("quote_string", b"a\xf0\xb0\x80\x80", "nothing"),
    ("quote_string", b"\xf4\x8f\xbf\xbf\"", "nothing"),
];

/// What a call answers, as `{:?}` prints it.
pub(crate) fn shown<T: Debug>(alloc: Global, answer: &T) -> Result<String> {
    Ok(format!(in alloc; "{answer:?}")?)
}

/// What follows, as a text.
fn text_of(bytes: &[u8]) -> &str {
    str::from_utf8(bytes).unwrap_or("")
}

/// What follows a bracket.
fn rest(alloc: Global, found: Option<&[u8]>) -> Result<String> {
    shown(alloc, &found.map(text_of))
}

/// What is found, and what follows it.
fn atom<T: Debug + Drop>(alloc: Global, found: Option<(T, &[u8])>) -> Result<String> {
    match found {
        Some((atom, rest)) => {
            let rest = text_of(rest);
            Ok(format!(in alloc; "Some(({atom:?}, {rest:?}))")?)
        }
        None => rest(alloc, None),
    }
}

/// The expression at the front of a text, and what follows it.
fn next(alloc: Global, src: &[u8], depth: usize) -> Result<String> {
    match read_next(alloc, src, depth) {
        Ok((expression, rest)) => {
            let rest = text_of(rest);
            Ok(format!(in alloc; "({expression:?}, {rest:?})")?)
        }
        Err(fault) => shown(alloc, &fault),
    }
}

/// The text of the expression that is read of a text.
fn printed(alloc: Global, src: &[u8]) -> Result<String> {
    let expression = parse_sexpr(alloc, src)?;
    Ok(format!(in alloc; "{expression}")?)
}

/// What stands for a text in a script.
fn quoted(alloc: Global, src: &[u8]) -> Result<String> {
    let quoted = quote_string(alloc, str::from_utf8(src)?)?;
    text_or(alloc, quoted.as_ref(), "nothing")
}

/// What the call of this name answers.
fn answer(alloc: Global, call: &str, src: &[u8]) -> Result<String> {
    match call {
        "parse" => shown(alloc, &parse_sexpr(alloc, src)),
        "print" => printed(alloc, src),
        "behind_open" => rest(alloc, behind_open(src)),
        "behind_close" => rest(alloc, behind_close(src)),
        "is_blank" => shown(alloc, &is_blank(src)),
        "name_at" => atom(alloc, name_at(src)),
        "plain_text_at" => atom(alloc, plain_text_at(src)),
        "number_at" => atom(alloc, number_at(src)),
        "quote_string" => quoted(alloc, src),
        _ => within(alloc, call, src),
    }
}

/// What a call answers that allows a depth.
fn within(alloc: Global, call: &str, src: &[u8]) -> Result<String> {
    let (name, depth) = call.split_once(':').unwrap_or((call, ""));
    let depth = depth.parse()?;
    match name {
        "parse_within" => shown(alloc, &parse_sexpr_within(alloc, src, depth)),
        _ => next(alloc, src, depth),
    }
}

/// Stops at the first row whose call answers otherwise.
fn expect_answers(rt: &impl Abort, alloc: Global, rows: &[Row]) {
    for &(call, src, wanted) in rows {
        let said = answer(alloc, call, src).expect(rt, "the row says a call");
        expect_text(rt, call, said.as_str(), wanted);
    }
}

#[test]
fn whole_texts_are_read(rt: HostRuntime) {
    expect_answers(&rt, rt.alloc(), WHOLE);
}

#[test]
fn expressions_are_printed(rt: HostRuntime) {
    expect_answers(&rt, rt.alloc(), PRINTED);
}

#[test]
fn expressions_at_the_front_are_read(rt: HostRuntime) {
    expect_answers(&rt, rt.alloc(), FRONTS);
}

#[test]
fn brackets_are_found(rt: HostRuntime) {
    expect_answers(&rt, rt.alloc(), BRACKETS);
}

#[test]
fn atoms_are_found(rt: HostRuntime) {
    expect_answers(&rt, rt.alloc(), ATOMS);
}

#[test]
fn other_atoms_are_found(rt: HostRuntime) {
    expect_answers(&rt, rt.alloc(), OTHER_ATOMS);
}

#[test]
fn texts_are_quoted(rt: HostRuntime) {
    expect_answers(&rt, rt.alloc(), QUOTED);
}

#[test]
fn expressions_are_pushed_in_order(rt: HostRuntime) {
    let mut items = SExprs::new(rt.alloc());
    items.push(SExpr::Numeral(1)).expect(&rt, AMPLE);
    items.push(SExpr::Numeral(2)).expect(&rt, AMPLE);
    expect(&rt, items.len() == 2, "how many are pushed");
    let wanted = [SExpr::Numeral(1), SExpr::Numeral(2)];
    expect(&rt, items.items() == wanted.as_slice(), "the order");
    expect(&rt, wanted[0] != wanted[1], "two expressions differ");
}
