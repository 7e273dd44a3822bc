//! How terms and literals are printed.
#![tactic(auto)]

ghost use Rattle.std.specs.Prelude.{◌++◌, Some, codes, map};
ghost use Rattle.std.specs.Fmt.{WritesOnOk};
ghost use Rattle.std.specs.List.{flat_map};
ghost use Rattle.std.specs.Str.{chars};
ghost use Rattle.smt_ext.specs.ExtOrder.{plain_value};
ghost use Rattle.smt_term.specs.Entities.{bytes_of_id, bytes_of_type};
ghost use Rattle.smt_term.specs.PatternView.{plain_part};
ghost use Rattle.law_terms.specs.Plain.{terms, record_fields};
ghost use Rattle.smt_term.specs.Maps.{plain_fields};
ghost use Rattle.smt_term.specs.Printed.{application_text, character_text, entity_text};
ghost use Rattle.smt_term.specs.Printed.{extension_text, field_texts, literal_text};
ghost use Rattle.smt_term.specs.Printed.{part_text, printed_name, record_text, term_text};
ghost use Rattle.smt_term.specs.Printed.{term_texts};
ghost use Rattle.law_texts.specs.LineTexts.{comma_separated};
ghost use Rattle.smt_term.specs.View.{plain_literal, plain_op, plain_term, plain_terms};

use crate::maps::TermMap;
use crate::op::Op;
use crate::term::{Term, TermPrim};
use crate::{EntityUID, PatternElem};
use smt_ext::Ext;
use std::fmt;

/// A truth value as `true` or `false`, a bitvector as `(bv64 12)`, an entity as `T::"id"`, a string between quotes, and a
/// value of an extension type as `decimal("0.1000")`, `ip("10.0.0.0/8")`, `duration("5ms")` or
/// `datetime("1970-01-01").offset(duration("5ms"))`.
///
/// The string and the name of the entity's type stand as they are. In the id `\0`, `\t`, `\n`, `\r`, `\"`, `\'` and `\\` stand
/// for one character each, and `\u{h}`, in lower-case hexadecimal, for any other control of ASCII.
///
/// # Errors
/// That of the writer.
impl fmt::Display for TermPrim {
    ghost output = { λ literal. Some (literal_text (plain_literal literal)) };

    fn fmt<W: fmt::Write>(&self, f: &mut fmt::Formatter<W>) -> fmt::Result {
        match self {
            TermPrim::Bitvec(bits) => write!(f, "{bits}"),
            TermPrim::Bool(truth) => write!(f, "{truth}"),
            TermPrim::Entity(entity) => put_entity(entity, f),
            TermPrim::Ext(value) => put_extension(value, f),
            TermPrim::String(text) => write!(f, "\"{text}\""),
        }
    }
}

/// An application as `name(a, b)`, a set as `[a, b]`, a record as `{ x: a, y: b }` or `{}`, an option as `Some(a)` or `None`,
/// a variable by its id, and a literal by its own text.
///
/// The name is that of the operator, but an uninterpreted function is called by its id, the choice of an attribute
/// `getattr["x"]`, and the test by a pattern `like["p"]`. In the pattern the wildcard is `*`, the star `\*`, and any other
/// character stands as in the ids of entities.
///
/// # Errors
/// That of the writer.
impl fmt::Display for Term {
    ghost output = { λ term. Some (term_text (plain_term term)) };

    fn fmt<W: fmt::Write>(&self, f: &mut fmt::Formatter<W>) -> fmt::Result {
        put_term(self, f)
    }
}

// A character of an id or of a pattern: the quotes, the backslash and the controls of ASCII by an escape.
fn put_character<W: fmt::Write>(c: char, f: &mut fmt::Formatter<W>) -> fmt::Result
    ensures { WritesOnOk W.write_str_gives f.old result (character_text c) f.new }
{
    match c {
        '\0' => f.write_str("\\0"),
        '\t' => f.write_str("\\t"),
        '\n' => f.write_str("\\n"),
        '\r' => f.write_str("\\r"),
        '"' => f.write_str("\\\""),
        '\'' => f.write_str("\\'"),
        '\\' => f.write_str("\\\\"),
        _ => {
            if c.is_ascii_control() {
                let code = u32::from(c);
                write!(f, "\\u{{{code:x}}}")
            } else {
                f.write_char(c)
            }
        }
    }
}

// The characters of an id.
fn put_id<W: fmt::Write>(id: &str, f: &mut fmt::Formatter<W>) -> fmt::Result
    ensures { WritesOnOk W.write_str_gives f.old result (flat_map character_text (chars id.now))
        f.new }
{
    for c in id.chars() {
        put_character(c, f)?;
    }
    Ok(())
}

// `T::"id"`.
fn put_entity<W: fmt::Write>(entity: &EntityUID, f: &mut fmt::Formatter<W>) -> fmt::Result
    ensures { WritesOnOk W.write_str_gives f.old result
        (entity_text (bytes_of_type entity.now.ety) (bytes_of_id entity.now.id)) f.new }
{
    f.write_str(entity.ety.0.as_str())?;
    f.write_str("::\"")?;
    put_id(entity.id.0.as_str(), f)?;
    f.write_str("\"")
}

// `decimal("0.1000")`, `ip("10.0.0.0/8")`, `duration("5ms")`, `datetime("1970-01-01").offset(duration("5ms"))`.
fn put_extension<W: fmt::Write>(value: &Ext, f: &mut fmt::Formatter<W>) -> fmt::Result
    ensures { WritesOnOk W.write_str_gives f.old result (extension_text (plain_value value.now))
        f.new }
{
    match value {
        Ext::Decimal { d } => write!(f, "decimal(\"{d}\")"),
        Ext::Ipaddr { ip } => write!(f, "ip(\"{ip}\")"),
        Ext::Datetime { dt } => {
            let milliseconds = i64::from(dt);
            write!(
                f,
                "datetime(\"1970-01-01\").offset(duration(\"{milliseconds}ms\"))"
            )
        }
        Ext::Duration { d } => {
            let milliseconds = d.to_milliseconds();
            write!(f, "duration(\"{milliseconds}ms\")")
        }
    }
}

// An element of a pattern.
fn put_part<W: fmt::Write>(part: PatternElem, f: &mut fmt::Formatter<W>) -> fmt::Result
    ensures { WritesOnOk W.write_str_gives f.old result (part_text (plain_part part)) f.new }
{
    match part {
        PatternElem::Char('*') => f.write_str("\\*"),
        PatternElem::Char(c) => put_character(c, f),
        PatternElem::Wildcard => f.write_str("*"),
    }
}

// The elements of a pattern.
fn put_parts<W: fmt::Write>(parts: &[PatternElem], f: &mut fmt::Formatter<W>) -> fmt::Result
    ensures { WritesOnOk W.write_str_gives f.old result
        (flat_map part_text (map plain_part parts.now)) f.new }
{
    for part in parts {
        put_part(*part, f)?;
    }
    Ok(())
}

// The name of an operator, with what it holds.
fn put_name<W: fmt::Write>(op: &Op, f: &mut fmt::Formatter<W>) -> fmt::Result
    ensures { WritesOnOk W.write_str_gives f.old result (printed_name (plain_op op.now)) f.new }
{
    match op {
        Op::Ext(own) => f.write_str(own.mk_name()),
        Op::RecordGet(name) => write!(f, "getattr[\"{name}\"]"),
        Op::StringLike(pattern) => {
            f.write_str("like[\"")?;
            put_parts(pattern.get_elems(), f)?;
            f.write_str("\"]")
        }
        Op::Uuf(function) => f.write_str(function.id.as_str()),
        _ => f.write_str(op.mk_name()),
    }
}

// A term.
#[cycle(print)]
#[tactic(auto, using(crate::specs::View::views))]
fn put_term<W: fmt::Write>(term: &Term, f: &mut fmt::Formatter<W>) -> fmt::Result
    ensures { WritesOnOk W.write_str_gives f.old result (term_text (plain_term term.now)) f.new }
{
    match term {
        Term::App { op, args, .. } => put_application(op, args.items(), f),
        Term::None(_) => f.write_str("None"),
        Term::Prim(literal) => write!(f, "{literal}"),
        Term::Record(fields) => put_record(fields, f),
        Term::Set { elts, .. } => put_set(elts.items(), f),
        Term::Some(inner) => put_some(inner, f),
        Term::Var(variable) => f.write_str(variable.id.as_str()),
    }
}

// `name(a, b)`.
#[cycle(print)]
fn put_application<W: fmt::Write>(op: &Op, args: &[Term], f: &mut fmt::Formatter<W>) -> fmt::Result
    ensures { WritesOnOk W.write_str_gives f.old result
        (application_text (printed_name (plain_op op.now))
        (term_texts (terms (plain_terms args.now))))
        f.new }
{
    put_name(op, f)?;
    f.write_str("(")?;
    put_terms(args, f)?;
    f.write_str(")")
}

// `Some(a)`.
#[cycle(print)]
fn put_some<W: fmt::Write>(inner: &Term, f: &mut fmt::Formatter<W>) -> fmt::Result
    ensures { WritesOnOk W.write_str_gives f.old result
        (codes "Some(" ++ (term_text (plain_term inner.now) ++ codes ")")) f.new }
{
    f.write_str("Some(")?;
    put_term(inner, f)?;
    f.write_str(")")
}

// `[a, b]`.
#[cycle(print)]
fn put_set<W: fmt::Write>(elts: &[Term], f: &mut fmt::Formatter<W>) -> fmt::Result
    ensures { WritesOnOk W.write_str_gives f.old result
        (codes "[" ++ (comma_separated (term_texts (terms (plain_terms elts.now))) ++ codes "]"))
        f.new }
{
    f.write_str("[")?;
    put_terms(elts, f)?;
    f.write_str("]")
}

// `a, b`.
#[cycle(print)]
fn put_terms<W: fmt::Write>(items: &[Term], f: &mut fmt::Formatter<W>) -> fmt::Result
    ensures { WritesOnOk W.write_str_gives f.old result
        (comma_separated (term_texts (terms (plain_terms items.now)))) f.new }
{
    let mut gap = "";
    for item in items {
        f.write_str(gap)?;
        put_term(item, f)?;
        gap = ", ";
    }
    Ok(())
}

// `{ x: a, y: b }`, or `{}`.
#[cycle(print)]
fn put_record<W: fmt::Write>(fields: &TermMap, f: &mut fmt::Formatter<W>) -> fmt::Result
    ensures { WritesOnOk W.write_str_gives f.old result
        (record_text (field_texts (record_fields (plain_fields fields.now)))) f.new }
{
    if fields.is_empty() {
        return f.write_str("{}");
    }
    f.write_str("{ ")?;
    put_fields(fields, f)?;
    f.write_str(" }")
}

// `x: a, y: b`.
#[cycle(print)]
fn put_fields<W: fmt::Write>(fields: &TermMap, f: &mut fmt::Formatter<W>) -> fmt::Result
    ensures { WritesOnOk W.write_str_gives f.old result
        (comma_separated (field_texts (record_fields (plain_fields fields.now)))) f.new }
{
    let pairs = fields.items();
    let mut before = "";
    for (name, term) in pairs {
        f.write_str(before)?;
        f.write_str(name.as_str())?;
        f.write_str(": ")?;
        put_term(term, f)?;
        before = ", ";
    }
    Ok(())
}
