//! Types.
//!
//! An attribute's type in a record type has no attributes of its own, but for those that a `.` before it brings.

use crate::spelling::text;
use anyhow::{Context, Result};
use smt_bits::Width;
use smt_term::{Attr, EntityType, ExtType, TermType, TypeMap};
use std::alloc::Global;

/// What may stand before a type.
const MARKS: [char; 3] = ['?', '*', '.'];

/// The type of this spelling.
pub fn type_of(alloc: Global, spelling: &str) -> Result<TermType> {
    let inner = spelling.trim_start_matches(MARKS);
    let ty = match inner.strip_prefix('%') {
        Some(attributes) => record_type(alloc, attributes)?,
        None => plain_type(alloc, inner)?,
    };
    marked(alloc, spelling.strip_suffix(inner).unwrap_or(""), ty)
}

/// The type of records with these attributes.
fn record_type(alloc: Global, attributes: &str) -> Result<TermType> {
    let mut pairs: Vec<(Attr, TermType)> = Vec::new(alloc);
    for attribute in attributes.split_terminator(',') {
        let (name, spelling) = attribute.split_once('=').context("a name and a type")?;
        let inner = spelling.trim_start_matches(MARKS);
        let marks = spelling.strip_suffix(inner).unwrap_or("");
        let ty = marked(alloc, marks, plain_type(alloc, inner)?)?;
        pairs.push((text(alloc, name)?, ty))?;
    }
    Ok(TermType::Record {
        rty: TypeMap::new(alloc, pairs.as_slice())?,
    })
}

/// The type with these marks before it.
fn marked(alloc: Global, marks: &str, inner: TermType) -> Result<TermType> {
    let mut ty = inner;
    for mark in marks.chars().rev() {
        ty = match mark {
            '?' => TermType::option_of(alloc, ty)?,
            '*' => TermType::set_of(alloc, ty)?,
            _ => TermType::Record {
                rty: TypeMap::new(alloc, &[(text(alloc, "a")?, ty)])?,
            },
        };
    }
    Ok(ty)
}

/// The type of a spelling that begins with no mark.
fn plain_type(alloc: Global, spelling: &str) -> Result<TermType> {
    if let Some(name) = spelling.strip_prefix('@') {
        return Ok(TermType::Entity {
            ety: EntityType(text(alloc, name)?),
        });
    }
    if let Some(xty) = extension_type(spelling) {
        return Ok(TermType::Ext { xty });
    }
    Ok(match spelling {
        "bool" => TermType::Bool,
        "string" => TermType::String,
        _ => TermType::Bitvec {
            n: width(spelling)?,
        },
    })
}

/// The extension type of this name.
pub fn extension_type(name: &str) -> Option<ExtType> {
    match name {
        "decimal" => Some(ExtType::Decimal),
        "datetime" => Some(ExtType::DateTime),
        "duration" => Some(ExtType::Duration),
        "ip" => Some(ExtType::IpAddr),
        _ => None,
    }
}

/// The width of so many bits.
pub(crate) fn width(bits: &str) -> Result<Width> {
    Width::new(bits.parse()?).context("no bitvector has this width")
}
