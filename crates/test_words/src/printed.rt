//! Types and terms as they are printed, so that no two are printed alike: texts between quotes, and each term with the types
//! that it names.

use anyhow::Result;
use smt_bits::BitVec;
use smt_term::{
    EntityUID, Ext, ExtType, Op, OrdPattern, PatternElem, Term, TermMap, TermPrim, TermType,
    TypeMap, Uuf,
};

/// Puts a text as it is. Each arm of a `match` that puts something is one call, which is answered in its place: an exit by `?`
/// in an arm is one more to prove.
fn put(out: &mut String, text: &str) -> Result<()> {
    Ok(out.push_str(text)?)
}

/// Puts a name and a text between quotes, in brackets.
fn put_quoted(out: &mut String, name: &str, text: &str) -> Result<()> {
    Ok(write!(out, "({name} {text:?})")?)
}

/// Puts a name and a number, in brackets.
fn put_number(out: &mut String, name: &str, number: i128) -> Result<()> {
    Ok(write!(out, "({name} {number})")?)
}

/// Puts a type.
#[cycle(types)]
pub fn put_type(out: &mut String, ty: &TermType) -> Result<()> {
    match ty {
        TermType::Bool => put(out, "Bool"),
        TermType::String => put(out, "String"),
        TermType::Bitvec { n } => put_number(out, "BitVec", i128::from(n.get())),
        TermType::Entity { ety } => put_quoted(out, "Entity", ety.0.as_str()),
        TermType::Ext { xty } => put(out, extension_type(*xty)),
        TermType::Option { ty } => put_type_of(out, "(Option ", ty),
        TermType::Set { ty } => put_type_of(out, "(Set ", ty),
        TermType::Record { rty } => put_attributes(out, rty),
    }
}

/// Puts the type of options or of sets of a type, behind this.
#[cycle(types)]
fn put_type_of(out: &mut String, before: &str, ty: &TermType) -> Result<()> {
    out.push_str(before)?;
    put_type(out, ty)?;
    Ok(out.push(')')?)
}

/// Puts a record type by its attributes.
#[cycle(types)]
fn put_attributes(out: &mut String, rty: &TypeMap) -> Result<()> {
    out.push_str("(Record")?;
    let attributes = rty.items();
    for (name, ty) in attributes {
        let name = name.as_str();
        write!(out, " ({name:?} ")?;
        put_type(out, ty)?;
        out.push(')')?;
    }
    Ok(out.push(')')?)
}

/// The name of an extension type.
fn extension_type(xty: ExtType) -> &'static str {
    match xty {
        ExtType::IpAddr => "IpAddr",
        ExtType::Decimal => "Decimal",
        ExtType::DateTime => "Datetime",
        ExtType::Duration => "Duration",
    }
}

/// Puts a term.
#[cycle(terms)]
pub fn put_term(out: &mut String, term: &Term) -> Result<()> {
    match term {
        Term::App { op, args, ret_ty } => {
            out.push('(')?;
            put_operator(out, op)?;
            let args = args.items();
            put_terms(out, args)?;
            out.push_str(" : ")?;
            put_type(out, ret_ty)?;
        }
        Term::None(ty) => {
            out.push_str("(none ")?;
            put_type(out, ty)?;
        }
        Term::Prim(literal) => return put_literal(out, literal),
        Term::Record(fields) => {
            out.push_str("(record")?;
            put_fields(out, fields)?;
        }
        Term::Set { elts_ty, elts } => {
            out.push_str("(set ")?;
            put_type(out, elts_ty)?;
            let elements = elts.items();
            put_terms(out, elements)?;
        }
        Term::Some(inner) => {
            out.push_str("(some ")?;
            put_term(out, inner)?;
        }
        Term::Var(variable) => {
            let id = variable.id.as_str();
            write!(out, "(var {id:?} ")?;
            put_type(out, &variable.ty)?;
        }
    }
    Ok(out.push(')')?)
}

/// Puts terms, with a space before each.
#[cycle(terms)]
pub fn put_terms(out: &mut String, terms: &[Term]) -> Result<()> {
    for term in terms {
        out.push(' ')?;
        put_term(out, term)?;
    }
    Ok(())
}

/// Puts the attributes of a record with their terms, with a space before each.
#[cycle(terms)]
fn put_fields(out: &mut String, fields: &TermMap) -> Result<()> {
    let fields = fields.items();
    for (name, field) in fields {
        let name = name.as_str();
        write!(out, " ({name:?} ")?;
        put_term(out, field)?;
        out.push(')')?;
    }
    Ok(())
}

/// Puts a literal. A bitvector has its width before its number.
fn put_literal(out: &mut String, literal: &TermPrim) -> Result<()> {
    match literal {
        TermPrim::Bitvec(bits) => put_bits(out, bits),
        TermPrim::Bool(truth) => Ok(write!(out, "{truth}")?),
        TermPrim::Entity(entity) => put_entity(out, entity),
        TermPrim::Ext(value) => put_value(out, value),
        TermPrim::String(text) => put_text(out, text.as_str()),
    }
}

fn put_bits(out: &mut String, bits: &BitVec) -> Result<()> {
    let (width, number) = (bits.width().get(), bits.to_nat());
    Ok(write!(out, "(bits {width} {number})")?)
}

fn put_entity(out: &mut String, entity: &EntityUID) -> Result<()> {
    let (ety, id) = (entity.ety.0.as_str(), entity.id.0.as_str());
    Ok(write!(out, "(entity {ety:?} {id:?})")?)
}

fn put_text(out: &mut String, text: &str) -> Result<()> {
    Ok(write!(out, "{text:?}")?)
}

/// Puts a value of an extension type: its kind, and its number, or the range as it is printed.
fn put_value(out: &mut String, value: &Ext) -> Result<()> {
    match value {
        Ext::Decimal { d } => put_number(out, "decimal", i128::from(d.ten_thousandths)),
        Ext::Ipaddr { ip } => Ok(write!(out, "(ip {ip})")?),
        Ext::Datetime { dt } => put_number(out, "datetime", i128::from(i64::from(*dt))),
        Ext::Duration { d } => put_number(out, "duration", i128::from(i64::from(*d))),
    }
}

/// Puts an operator: its name, and in brackets with it what it holds.
fn put_operator(out: &mut String, op: &Op) -> Result<()> {
    let name = op.mk_name();
    match op {
        Op::Ext(op) => put(out, op.mk_name()),
        Op::RecordGet(attribute) => put_quoted(out, name, attribute.as_str()),
        Op::StringLike(pattern) => put_match(out, name, pattern),
        Op::Uuf(function) => put_function(out, name, function),
        Op::ZeroExtend(bits) => Ok(write!(out, "({name} {bits})")?),
        _ => put(out, name),
    }
}

/// Puts the operator of this name with a pattern.
fn put_match(out: &mut String, name: &str, pattern: &OrdPattern) -> Result<()> {
    write!(out, "({name}")?;
    put_pattern(out, pattern)?;
    Ok(out.push(')')?)
}

/// Puts the operator of this name with an uninterpreted function.
fn put_function(out: &mut String, name: &str, function: &Uuf) -> Result<()> {
    let id = function.id.as_str();
    write!(out, "({name} {id:?} ")?;
    put_type(out, &function.arg)?;
    out.push(' ')?;
    put_type(out, &function.out)?;
    Ok(out.push(')')?)
}

/// Puts the elements of a pattern, with a space before each.
fn put_pattern(out: &mut String, pattern: &OrdPattern) -> Result<()> {
    for element in pattern.get_elems() {
        match element {
            PatternElem::Char(c) => write!(out, " {c:?}")?,
            PatternElem::Wildcard => out.push_str(" *")?,
        }
    }
    Ok(())
}
