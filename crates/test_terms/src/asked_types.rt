//! Words for questions about types and operators.

use crate::asked::{equals, order};
use anyhow::{Context, Result, bail};
use smt_term::{EntityType, TermType, TypeMap};
use std::alloc::Global;
use test_words::{operator, put_type, text, type_of};

/// Puts the answer of a word by its head and what it holds behind the colon; false where no question has this head.
pub(crate) fn answered(alloc: Global, out: &mut String, head: &str, held: &str) -> Result<bool> {
    let put = match head {
        "type" | "kinds" | "shared_type" | "size_of_type" => put_of_type(alloc, out, head, held),
        "tag_for" => put_tag_type(alloc, out, held),
        "type_at" => put_types_at(alloc, out, held),
        "compare_types" => put_order_of_types(alloc, out, held),
        "operator" => put_name(alloc, out, held),
        "compare_operators" => put_order_of_operators(alloc, out, held),
        _ => return Ok(false),
    };
    put?;
    Ok(true)
}

/// Puts the answer of a word that asks of the type of this spelling.
fn put_of_type(alloc: Global, out: &mut String, head: &str, spelling: &str) -> Result<()> {
    let ty = type_of(alloc, spelling)?;
    match head {
        "type" => put_type(out, &ty),
        "kinds" => put_kinds(out, &ty),
        "shared_type" => put_whether_shared(out, &ty),
        _ => put_size(out, &ty),
    }
}

/// Puts the types of a record type at attributes, whose names stand before it.
fn put_types_at(alloc: Global, out: &mut String, held: &str) -> Result<()> {
    let (names, spelling) = held.split_once(':').context("attributes and a type")?;
    let ty = type_of(alloc, spelling)?;
    put_types(alloc, out, types_in(&ty)?, names)
}

/// Puts the type of the tags of entities of the type of this name.
fn put_tag_type(alloc: Global, out: &mut String, name: &str) -> Result<()> {
    let ety = EntityType(text(alloc, name)?);
    let ty = TermType::tag_for(alloc, ety)?;
    put_type(out, &ty)
}

fn put_order_of_types(alloc: Global, out: &mut String, held: &str) -> Result<()> {
    let (a, b) = held.split_once(':').context("two types")?;
    let a = type_of(alloc, a)?;
    let b = type_of(alloc, b)?;
    Ok(out.push_str(order(&a, &b))?)
}

fn put_order_of_operators(alloc: Global, out: &mut String, held: &str) -> Result<()> {
    let (a, b) = held.split_once(':').context("two operators")?;
    let a = operator(alloc, a)?;
    let b = operator(alloc, b)?;
    Ok(out.push_str(order(&a, &b))?)
}

/// Puts whether a type is primitive, one of entities, one of records, one of options, and one of options of entities.
fn put_kinds(out: &mut String, ty: &TermType) -> Result<()> {
    let (prim, entity, record) = (ty.is_prim_type(), ty.is_entity_type(), ty.is_record_type());
    let (option, option_entity) = (ty.is_option_type(), ty.is_option_entity_type());
    Ok(write!(out, "{prim} {entity} {record} {option} {option_entity}")?)
}

/// Puts whether a type is equal to what it shares.
fn put_whether_shared(out: &mut String, ty: &TermType) -> Result<()> {
    let shared = equals(ty.share(), ty)?;
    Ok(write!(out, "{shared}")?)
}

/// The attributes of a record type, with their types.
fn types_in(ty: &TermType) -> Result<&TypeMap> {
    match ty {
        TermType::Record { rty } => Ok(rty),
        _ => bail!("the type is none of records"),
    }
}

/// Puts how many attributes a record type has, whether there are none, and whether they are equal to what they share.
fn put_size(out: &mut String, ty: &TermType) -> Result<()> {
    let types = types_in(ty)?;
    let (count, empty) = (types.len(), types.is_empty());
    let shared = equals(types.share(), types)?;
    Ok(write!(out, "{count} {empty} {shared}")?)
}

/// Puts the types of these attributes.
fn put_types(alloc: Global, out: &mut String, types: &TypeMap, names: &str) -> Result<()> {
    out.push_str("(found")?;
    for name in names.split(',') {
        let name = text(alloc, name)?;
        put_found(out, types.get(&name))?;
    }
    Ok(out.push(')')?)
}

/// Puts a type that was looked for, with a space before it.
fn put_found(out: &mut String, found: Option<&TermType>) -> Result<()> {
    out.push(' ')?;
    match found {
        Some(ty) => put_type(out, ty),
        None => Ok(out.push_str("nothing")?),
    }
}

/// Puts the name of an operator, and whether it is equal to what it shares.
fn put_name(alloc: Global, out: &mut String, spelling: &str) -> Result<()> {
    let op = operator(alloc, spelling)?;
    let shared = equals(op.share(), &op)?;
    let name = op.mk_name();
    Ok(write!(out, "{name} {shared}")?)
}
