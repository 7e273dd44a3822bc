//! The calls that write the lines of one name or one application alone.

use anyhow::{Context, Result, bail};
use smt_encode::{EncodeError, Encoder};
use smt_script::ListSink;
use smt_term::{Attr, EntityType, Term, Text};
use std::alloc::Global;
use test_words::{entity, extension_type, operator, text, texts, type_of, variable};

/// What a call answers: a name or a refusal.
pub(crate) type Answer = Result<Text, EncodeError>;

/// What the call of this name answers, by what stands behind its colon and by terms.
pub(crate) fn answer_by(
    alloc: Global,
    encoder: &mut Encoder<'_, ListSink>,
    name: &str,
    held: &str,
    terms: &[Term],
) -> Result<Answer> {
    match name {
        "declare_entity_type" => declare_entity_type(alloc, encoder, held),
        "declare_ext_type" => {
            let xty = extension_type(held).context("no type has this name")?;
            Ok(encoder.declare_ext_type(xty))
        }
        "declare_record_type" => declare_record_type(alloc, encoder, held),
        _ => {
            let (first, behind) = held.split_once(':').context("two arguments")?;
            match name {
                "declare_type" => declare_type(alloc, encoder, first, behind),
                "declare_var" => declare_var(alloc, encoder, held),
                "define_entity" => define_entity(alloc, encoder, first, behind),
                "define_record_get" => define_record_get(alloc, encoder, first, behind),
                "define_app" => define_app(alloc, encoder, first, behind, terms),
                _ => defined_by_texts(alloc, encoder, name, first, behind),
            }
        }
    }
}

fn declare_type(
    alloc: Global,
    encoder: &mut Encoder<'_, ListSink>,
    name: &str,
    constructors: &str,
) -> Result<Answer> {
    let constructors = texts(alloc, constructors)?;
    Ok(encoder.declare_type(text(alloc, name)?.as_str(), constructors.as_slice()))
}

fn declare_entity_type(
    alloc: Global,
    encoder: &mut Encoder<'_, ListSink>,
    name: &str,
) -> Result<Answer> {
    let ety = EntityType(text(alloc, name)?);
    Ok(encoder.declare_entity_type(&ety))
}

fn declare_record_type(
    alloc: Global,
    encoder: &mut Encoder<'_, ListSink>,
    attributes: &str,
) -> Result<Answer> {
    let attributes = pairs(alloc, attributes)?;
    Ok(encoder.declare_record_type(attributes.as_slice()))
}

/// Names with sorts, a `=` between the two and a comma behind each pair.
fn pairs(alloc: Global, spelling: &str) -> Result<Vec<(Attr, Text)>> {
    let mut pairs = Vec::new(alloc);
    for word in spelling.split_terminator(',') {
        let (name, sort) = word.split_once('=').context("a name and a sort")?;
        pairs.push((text(alloc, name)?, text(alloc, sort)?))?;
    }
    Ok(pairs)
}

/// The declaration of a variable, whose sort stands behind the last colon.
fn declare_var(
    alloc: Global,
    encoder: &mut Encoder<'_, ListSink>,
    spelling: &str,
) -> Result<Answer> {
    let (variable_spelling, sort) = spelling.rsplit_once(':').context("a variable and a sort")?;
    let variable = variable(alloc, variable_spelling)?;
    Ok(encoder.declare_var(&variable, text(alloc, sort)?.as_str()))
}

/// The definition of what is given by its sort and by texts.
fn defined_by_texts(
    alloc: Global,
    encoder: &mut Encoder<'_, ListSink>,
    name: &str,
    sort: &str,
    spelling: &str,
) -> Result<Answer> {
    let sort = text(alloc, sort)?;
    let parts = texts(alloc, spelling)?;
    Ok(match name {
        "define_term" => encoder.define_term(sort.as_str(), text(alloc, spelling)?.as_str()),
        "define_set" => encoder.define_set(sort.as_str(), parts.as_slice()),
        "define_record" => encoder.define_record(sort.as_str(), parts.as_slice()),
        _ => bail!("no call has this name"),
    })
}

fn define_entity(
    alloc: Global,
    encoder: &mut Encoder<'_, ListSink>,
    sort: &str,
    spelling: &str,
) -> Result<Answer> {
    let entity = entity(alloc, spelling)?;
    Ok(encoder.define_entity(text(alloc, sort)?.as_str(), &entity))
}

fn define_record_get(
    alloc: Global,
    encoder: &mut Encoder<'_, ListSink>,
    sort: &str,
    spelling: &str,
) -> Result<Answer> {
    let (name, behind) = spelling.split_once(':').context("a name")?;
    let (record, ty) = behind.split_once(':').context("a record and its type")?;
    let (sort, record) = (text(alloc, sort)?, text(alloc, record)?);
    let (name, ty) = (text(alloc, name)?, type_of(alloc, ty)?);
    Ok(encoder.define_record_get(sort.as_str(), &name, record.as_str(), &ty))
}

fn define_app(
    alloc: Global,
    encoder: &mut Encoder<'_, ListSink>,
    sort: &str,
    spelling: &str,
    terms: &[Term],
) -> Result<Answer> {
    let (op, operands) = spelling.split_once(':').context("an operator and texts")?;
    let (op, operands) = (operator(alloc, op)?, texts(alloc, operands)?);
    Ok(encoder.define_app(text(alloc, sort)?.as_str(), &op, operands.as_slice(), terms))
}
