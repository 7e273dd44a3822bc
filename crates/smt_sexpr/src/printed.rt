//! How expressions are printed.
#![tactic(auto, using(crate::specs::View::views))]

ghost use Rattle.std.specs.Prelude.{Some, map};
ghost use Rattle.std.specs.Fmt.{WritesOnOk};
ghost use Rattle.std.specs.Str.{chars};
ghost use Rattle.smt_bits.specs.BitVec.{number_of, width_of};
ghost use Rattle.law_texts.specs.Reading.{expressions};
ghost use Rattle.smt_sexpr.specs.Printed.{expression_text, expression_texts, list_text};
ghost use Rattle.smt_sexpr.specs.Printed.{string_text, bitvector_text};
ghost use Rattle.law_texts.specs.LineTexts.{spaced};
ghost use Rattle.smt_sexpr.specs.View.{plain};

use crate::expression::SExpr;
use smt_bits::BitVec;
use std::fmt;

/// A literal in base 2 or 16 as `BitVec { width: 2, v: 1 }`, a number in decimal digits, a string between quotes, a symbol by
/// its name, and a list as `(a b)` or `()`.
///
/// The characters of a string stand as they are, and none is doubled or escaped.
///
/// # Errors
/// That of the writer.
impl fmt::Display for SExpr {
    ghost output = { λ expression. Some (expression_text (plain expression)) };

    fn fmt<W: fmt::Write>(&self, f: &mut fmt::Formatter<W>) -> fmt::Result {
        put_expression(self, f)
    }
}

// `BitVec { width: 2, v: 1 }`.
fn put_literal<W: fmt::Write>(literal: BitVec, f: &mut fmt::Formatter<W>) -> fmt::Result
    ensures { WritesOnOk W.write_str_gives f.old result
        (bitvector_text (width_of literal) (number_of literal)) f.new }
{
    let width = literal.width().get();
    let number = literal.to_nat();
    write!(f, "BitVec {{ width: {width}, v: {number} }}")
}

// The text between quotes, as it is.
fn put_string<W: fmt::Write>(text: &str, f: &mut fmt::Formatter<W>) -> fmt::Result
    ensures { WritesOnOk W.write_str_gives f.old result (string_text (chars text.now)) f.new }
{
    write!(f, "\"{text}\"")
}

// An expression.
#[cycle(print)]
fn put_expression<W: fmt::Write>(expression: &SExpr, f: &mut fmt::Formatter<W>) -> fmt::Result
    ensures { WritesOnOk W.write_str_gives f.old result (expression_text (plain expression.now))
        f.new }
{
    match expression {
        SExpr::BitVec(literal) => put_literal(*literal, f),
        SExpr::Numeral(number) => write!(f, "{number}"),
        SExpr::String(text) => put_string(text.as_str(), f),
        SExpr::Symbol(name) => f.write_str(name.as_str()),
        SExpr::App(inner) => put_list(inner.items(), f),
    }
}

// `(a b)`, or `()`.
#[cycle(print)]
fn put_list<W: fmt::Write>(items: &[SExpr], f: &mut fmt::Formatter<W>) -> fmt::Result
    ensures { WritesOnOk W.write_str_gives f.old result
        (list_text (expression_texts (expressions (map plain items.now)))) f.new }
{
    f.write_str("(")?;
    put_items(items, f)?;
    f.write_str(")")
}

// `a b`.
#[cycle(print)]
fn put_items<W: fmt::Write>(items: &[SExpr], f: &mut fmt::Formatter<W>) -> fmt::Result
    ensures { WritesOnOk W.write_str_gives f.old result
        (spaced (expression_texts (expressions (map plain items.now)))) f.new }
{
    let mut gap = "";
    for item in items {
        f.write_str(gap)?;
        put_expression(item, f)?;
        gap = " ";
    }
    Ok(())
}
