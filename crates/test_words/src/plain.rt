//! Terms as they are.

use crate::operators::{function, operator};
use crate::spelling::text;
use crate::stack::{fields, one, taken};
use crate::types::{type_of, width};
use anyhow::{Context, Result};
use smt_bits::{BitVec, EIGHT};
use smt_term::{
    EntityID, EntityType, EntityUID, Ext, Op, Term, TermList, TermMap, TermSet, TermVar,
};
use std::alloc::Global;
use std::rc::Rc;

/// The terms that these words leave, the first of them first. A space stands between two words, and there may be none.
pub fn terms(alloc: Global, words: &str) -> Result<Vec<Term>> {
    let mut terms = Vec::new(alloc);
    for word in words.split_terminator(' ') {
        let (head, held) = word.split_once(':').unwrap_or((word, ""));
        let term = term(alloc, &mut terms, head, held)?.context("no word has this head")?;
        terms.push(term)?;
    }
    Ok(terms)
}

/// The term of a word by its head and what it holds behind the colon, None where no term has this head.
pub fn term(alloc: Global, terms: &mut Vec<Term>, head: &str, held: &str) -> Result<Option<Term>> {
    Ok(Some(match head {
        "entity" => Term::from(entity(alloc, held)?),
        "var" => Term::from(variable(alloc, held)?),
        "none" => Term::None(type_of(alloc, held)?),
        "some" => Term::Some(Rc::new(alloc, one(terms)?)?),
        "set" => set(alloc, terms, held)?,
        "record" => {
            let fields = fields(alloc, terms, held)?;
            Term::Record(TermMap::new(alloc, fields.as_slice())?)
        }
        "app" => application(alloc, terms, held)?,
        "call" => call(alloc, one(terms)?, held)?,
        _ => return literal(alloc, head, held),
    }))
}

/// A literal that is no entity, by its word.
fn literal(alloc: Global, head: &str, held: &str) -> Result<Option<Term>> {
    Ok(Some(match head {
        "true" => Term::from(true),
        "false" => Term::from(false),
        "int" => Term::from(held.parse::<i64>()?),
        "byte" => Term::from(BitVec::of_nat(EIGHT, held.parse()?)),
        "bits" => {
            let (bits, number) = held.split_once(':').context("a width and a number")?;
            Term::from(BitVec::of_nat(width(bits)?, number.parse()?))
        }
        "text" => Term::from(text(alloc, held)?),
        "decimal" => Term::from(Ext::parse_decimal(alloc, held)?),
        "datetime" => Term::from(Ext::parse_datetime(alloc, held)?),
        "duration" => Term::from(Ext::parse_duration(alloc, held)?),
        "ip" => Term::from(Ext::parse_ip(alloc, held)?),
        _ => return Ok(None),
    }))
}

/// An entity by the name of its type and its id.
pub fn entity(alloc: Global, spelling: &str) -> Result<EntityUID> {
    let (ety, id) = spelling.split_once(':').context("a type and an id")?;
    Ok(EntityUID {
        ety: EntityType(text(alloc, ety)?),
        id: EntityID(text(alloc, id)?),
    })
}

/// A variable by its id and its type.
pub fn variable(alloc: Global, spelling: &str) -> Result<TermVar> {
    let (id, ty) = spelling.split_once(':').context("an id and a type")?;
    Ok(TermVar {
        id: text(alloc, id)?,
        ty: type_of(alloc, ty)?,
    })
}

/// The set of so many last terms, by this count and the type of elements.
fn set(alloc: Global, terms: &mut Vec<Term>, spelling: &str) -> Result<Term> {
    let (count, ty) = spelling.split_once(':').context("a count and a type")?;
    let elements = taken(terms, count.parse()?)?;
    Ok(Term::Set {
        elts_ty: type_of(alloc, ty)?,
        elts: TermSet::new(alloc, elements.as_slice())?,
    })
}

/// An operator at so many last terms, claimed as a type, by the operator, this count and the type.
fn application(alloc: Global, terms: &mut Vec<Term>, spelling: &str) -> Result<Term> {
    let (op, claim) = spelling.split_once(':').context("an operator")?;
    let (count, ty) = claim.split_once(':').context("a count and a type")?;
    let args = taken(terms, count.parse()?)?;
    Ok(Term::App {
        op: operator(alloc, op)?,
        args: TermList::new(alloc, args.as_slice())?,
        ret_ty: type_of(alloc, ty)?,
    })
}

/// An uninterpreted function at a term.
fn call(alloc: Global, term: Term, spelling: &str) -> Result<Term> {
    let function = function(alloc, spelling, ':')?;
    let ret_ty = function.out.share()?;
    Ok(Term::App {
        op: Op::Uuf(Rc::new(alloc, function)?),
        args: TermList::new(alloc, &[term])?,
        ret_ty,
    })
}
