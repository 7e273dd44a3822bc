// Types as jobs state them.
ghost use Rattle.std.specs.Prelude.{◌≡◌, [], bytes_eq, map, option_map};
ghost use Rattle.std.specs.List.{list_any};
ghost use Rattle.std.specs.Rc.{rc_str_bytes};
ghost use Rattle.smt_bits.specs.Width.{bits_in};
ghost use Rattle.smt_term.specs.View.{plain_attribute, plain_type};
ghost use Rattle.smt_sexpr.specs.View.{plain, plain_list};
ghost use Rattle.law_jobs.specs.Types as stated;
ghost use Rattle.smt_job_terms.specs.ReadAs.{IsReadAs};

use crate::error::{JobError, duplicate};
use smt_bits::Width;
use smt_sexpr::{SExpr, name_in, number_in, sole, sole_text, text_in};
use smt_term::{Attr, EntityType, ExtType, TermType, Text, TypeMap};
use std::alloc::Global;

/// The type of a name.
fn type_named(name: &str) -> Option<TermType>
    ensures { option_map plain_type result ≡ stated.type_named name.now }
{
    match name {
        "Bool" => Some(TermType::Bool),
        "String" => Some(TermType::String),
        "Decimal" => Some(TermType::Ext {
            xty: ExtType::Decimal,
        }),
        "IpAddr" => Some(TermType::Ext {
            xty: ExtType::IpAddr,
        }),
        "Datetime" => Some(TermType::Ext {
            xty: ExtType::DateTime,
        }),
        "Duration" => Some(TermType::Ext {
            xty: ExtType::Duration,
        }),
        _ => None,
    }
}

/// A width from 1 to 128.
pub fn width_in(expression: &SExpr) -> Option<Width>
    ensures { option_map bits_in result ≡ stated.width_in (plain expression.now) }
{
    Width::new(u32::try_from(number_in(expression)?).ok()?)
}

/// The type of bitvectors of as many bits as are stated.
fn bits_type(operands: &[SExpr]) -> Result<TermType, JobError>
    ensures { IsReadAs plain_type result (stated.bits_type (plain_list operands.now)) }
{
    let width = sole(operands).ok_or(JobError::BadType)?;
    Ok(TermType::Bitvec {
        n: width_in(width).ok_or(JobError::BadWidth)?,
    })
}

/// The type of entities of the name that is stated.
fn entity_type(operands: &[SExpr]) -> Result<TermType, JobError>
    ensures { IsReadAs plain_type result (stated.entity_type (plain_list operands.now)) }
{
    let name = sole_text(operands).ok_or(JobError::BadType)?;
    Ok(TermType::Entity {
        ety: EntityType(name.clone()?),
    })
}

/// Whether an attribute is one of these.
fn is_given(given: &[(Attr, TermType)], name: &Text) -> bool
    ensures { result
        ≡ list_any (bytes_eq (rc_str_bytes name.now)) (map (λ p. rc_str_bytes p.0) given.now) }
{
    given.iter().any(|(other, _)| name == other)
}

/// The name of one more attribute.
fn new_name(given: &[(Attr, TermType)], name: &SExpr) -> Result<Attr, JobError>
    ensures { IsReadAs rc_str_bytes result
        (stated.new_attribute (map (λ p. rc_str_bytes p.0) given.now) (plain name.now)) }
{
    let name = text_in(name).ok_or(JobError::BadType)?;
    if is_given(given, name) {
        Err(duplicate(name))
    } else {
        Ok(name.clone()?)
    }
}

/// The attributes and types that pairs state, in the order in which they stand.
#[cycle(types)]
fn attributes_from(alloc: Global, items: &[SExpr]) -> Result<Vec<(Attr, TermType)>, JobError>
    ensures { IsReadAs (λ pairs. map plain_attribute pairs.items) result
        (stated.attributes_of [] (plain_list items.now)) }
{
    let mut pairs: Vec<(Attr, TermType)> = Vec::new(alloc);
    for item in items {
        let parts = match item {
            SExpr::App(inside) => inside.items(),
            SExpr::BitVec(_) | SExpr::Numeral(_) | SExpr::String(_) | SExpr::Symbol(_) =>
                return Err(JobError::BadType),
        };
        let [name, ty] = parts else {
            return Err(JobError::BadType);
        };
        let name = new_name(pairs.as_slice(), name)?;
        let ty = type_from(alloc, ty)?;
        pairs.push((name, ty))?;
    }
    Ok(pairs)
}

/// The type of records of these attributes.
#[cycle(types)]
fn record_type(alloc: Global, items: &[SExpr]) -> Result<TermType, JobError>
    ensures { IsReadAs plain_type result
        (stated.stated_record_type (stated.attributes_of [] (plain_list items.now))) }
{
    let pairs = attributes_from(alloc, items)?;
    Ok(TermType::Record {
        rty: TypeMap::new(alloc, pairs.as_slice())?,
    })
}

/// The type that the one expression of a list states.
#[cycle(types)]
fn sole_type(alloc: Global, operands: &[SExpr]) -> Result<TermType, JobError>
    ensures { IsReadAs plain_type result (stated.sole_type (plain_list operands.now)) }
{
    match operands {
        [operand] => type_from(alloc, operand),
        _ => Err(JobError::BadType),
    }
}

/// The type of a head and of what stands behind it.
#[cycle(types)]
fn headed_type(alloc: Global, head: &str, operands: &[SExpr]) -> Result<TermType, JobError>
    ensures { IsReadAs plain_type result (stated.headed_type head.now (plain_list operands.now)
        (stated.sole_type (plain_list operands.now))
        (stated.attributes_of [] (plain_list operands.now))) }
{
    match head {
        "BitVec" => bits_type(operands),
        "Option" => Ok(TermType::option_of(alloc, sole_type(alloc, operands)?)?),
        "Set" => Ok(TermType::set_of(alloc, sole_type(alloc, operands)?)?),
        "Entity" => entity_type(operands),
        "Record" => record_type(alloc, operands),
        _ => Err(JobError::BadType),
    }
}

/// The type that an expression states.
///
/// # Errors
///
/// The first fault from the left: `BadType`, `BadWidth` of a bitvector, or `DuplicateName` of an attribute. `Memory`, where there is none
/// for the type.
#[cycle(types)]
pub fn type_from(alloc: Global, expression: &SExpr) -> Result<TermType, JobError>
    ensures { IsReadAs plain_type result (stated.type_of_expression (plain expression.now)) }
{
    let items = match expression {
        SExpr::Symbol(name) => return type_named(name.as_str()).ok_or(JobError::BadType),
        SExpr::App(inside) => inside.items(),
        SExpr::BitVec(_) | SExpr::Numeral(_) | SExpr::String(_) => return Err(JobError::BadType),
    };
    let [first, operands @ ..] = items else {
        return Err(JobError::BadType);
    };
    let head = name_in(first).ok_or(JobError::BadType)?;
    headed_type(alloc, head.as_str(), operands)
}
