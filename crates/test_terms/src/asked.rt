//! Words for questions about terms, which stay on the stack.

use crate::asked_types;
use anyhow::{Context, Result, bail};
use smt_factory::opposites;
use smt_term::{Op, Term, TermError, TermList, TermTable, TermType};
use std::alloc::Global;
use test_words::{last_of, operator, pairs, put_term, put_type, text, type_of};

/// Types of which a term has at most one.
const DISTINCT: &[&str] = &[
    "bool", "1", "8", "64", "128", "string", "@a", "@b", "?8", ".bool", "*8", "*string", "*?string",
];

/// Puts the answer of a word by its head and what it holds behind the colon; false where no question has this head.
pub(crate) fn answered(
    alloc: Global,
    out: &mut String,
    terms: &[Term],
    head: &str,
    held: &str,
) -> Result<bool> {
    if let Some(truth) = truth(alloc, terms, head, held)? {
        write!(out, "{truth}")?;
        return Ok(true);
    }
    let put = match head {
        "type_of" | "type_of_literal" | "has_types" | "size" | "at" | "print" => {
            put_of_last(alloc, out, last(terms)?, head, held)
        }
        "compare" => put_order(out, terms),
        "typed_as" => put_types_given(alloc, out, terms, held),
        "table" => put_table(alloc, out, terms, held),
        _ => return asked_types::answered(alloc, out, head, held),
    };
    put?;
    Ok(true)
}

/// Puts the answer of a word that asks of the last term.
fn put_of_last(alloc: Global, out: &mut String, term: &Term, head: &str, held: &str) -> Result<()> {
    match head {
        "type_of" => put_type_of(alloc, out, term),
        "type_of_literal" => put_type_of_literal(out, term),
        "has_types" => put_types_of(alloc, out, term),
        "size" => put_size(out, term),
        "at" => put_fields(alloc, out, term, held),
        _ => Ok(write!(out, "{term}")?),
    }
}

/// Puts how the last two terms are ordered.
fn put_order(out: &mut String, terms: &[Term]) -> Result<()> {
    let (a, b) = last_two(terms)?;
    Ok(out.push_str(order(a, b))?)
}

/// Whether it is as a word asks, None where no such question has this head.
fn truth(alloc: Global, terms: &[Term], head: &str, held: &str) -> Result<Option<bool>> {
    let truth = match head {
        "is_literal" | "well_typed" | "has_type" | "shared" => {
            truth_of_last(alloc, last(terms)?, head, held)
        }
        "opposites" | "same" => truth_of_two(terms, head),
        "takes" => is_taken(alloc, terms, held),
        _ => return Ok(None),
    };
    Ok(Some(truth?))
}

/// Whether the last term is as a word asks.
fn truth_of_last(alloc: Global, term: &Term, head: &str, held: &str) -> Result<bool> {
    match head {
        "is_literal" => Ok(term.is_literal()),
        "well_typed" => Ok(term.well_typed()),
        "has_type" => has_type(alloc, term, held),
        _ => is_shared(term),
    }
}

/// Whether a term has the type of this spelling.
fn has_type(alloc: Global, term: &Term, spelling: &str) -> Result<bool> {
    let ty = type_of(alloc, spelling)?;
    Ok(term.has_type(&ty))
}

/// Whether the last two terms are opposites, or equal.
fn truth_of_two(terms: &[Term], head: &str) -> Result<bool> {
    let (a, b) = last_two(terms)?;
    match head {
        "opposites" => Ok(opposites(a, b)),
        _ => Ok(a == b),
    }
}

/// Whether an operator takes so many last terms.
fn is_taken(alloc: Global, terms: &[Term], spelling: &str) -> Result<bool> {
    let (op, args) = call(alloc, terms, spelling)?;
    Ok(op.takes(args))
}

fn last(terms: &[Term]) -> Result<&Term> {
    terms.last().context("no term is left")
}

fn last_two(terms: &[Term]) -> Result<(&Term, &Term)> {
    match terms {
        [.., a, b] => Ok((a, b)),
        _ => bail!("too few terms"),
    }
}

/// An operator and so many last terms, by the operator and this count.
fn call<'a>(alloc: Global, terms: &'a [Term], spelling: &str) -> Result<(Op, &'a [Term])> {
    let (op, count) = spelling.split_once(':').context("an operator and a count")?;
    let (_, args) = last_of(terms, count.parse()?)?;
    Ok((operator(alloc, op)?, args))
}

/// How two values are ordered.
pub(crate) fn order<T: Ord>(a: &T, b: &T) -> &'static str {
    if a < b {
        "less"
    } else if a == b {
        "equal"
    } else {
        "greater"
    }
}

/// Whether a term and what it is made of are equal to what they share.
fn is_shared(term: &Term) -> Result<bool> {
    let parts = match term {
        Term::App { op, args, ret_ty } => {
            equals(op.share(), op)?
                && equals(args.share(), args)?
                && equals(ret_ty.share(), ret_ty)?
        }
        Term::None(ty) => equals(ty.share(), ty)?,
        Term::Prim(literal) => equals(literal.share(), literal)?,
        Term::Record(fields) => equals(fields.share(), fields)?,
        Term::Set { elts_ty, elts } => {
            equals(elts_ty.share(), elts_ty)? && equals(elts.share(), elts)?
        }
        Term::Some(inner) => equals(inner.share(), inner)?,
        Term::Var(variable) => equals(variable.share(), variable)?,
    };
    Ok(parts && equals(term.share(), term)?)
}

/// Whether what was shared is equal to this.
pub(crate) fn equals<T: PartialEq + Drop>(shared: Result<T, TermError>, own: &T) -> Result<bool> {
    let shared = shared?;
    Ok(shared == *own)
}

/// Puts the type of a term.
fn put_type_of(alloc: Global, out: &mut String, term: &Term) -> Result<()> {
    let ty = term.type_of(alloc)?;
    put_type(out, &ty)
}

/// Puts the type of the literal that a term is.
fn put_type_of_literal(out: &mut String, term: &Term) -> Result<()> {
    match term {
        Term::Prim(literal) => put_type(out, &literal.type_of()?),
        _ => bail!("the term is no literal of its own"),
    }
}

/// Puts those of the distinct types that a term has.
fn put_types_of(alloc: Global, out: &mut String, term: &Term) -> Result<()> {
    out.push_str("(types")?;
    for spelling in DISTINCT {
        if term.has_type(&type_of(alloc, spelling)?) {
            write!(out, " {spelling}")?;
        }
    }
    Ok(out.push(')')?)
}

/// Puts how many parts a term has, and whether it has none.
fn put_size(out: &mut String, term: &Term) -> Result<()> {
    let (count, empty) = match term {
        Term::App { args, .. } => (args.len(), args.is_empty()),
        Term::Record(fields) => (fields.len(), fields.is_empty()),
        Term::Set { elts, .. } => (elts.len(), elts.is_empty()),
        _ => bail!("the term has no parts"),
    };
    Ok(write!(out, "{count} {empty}")?)
}

/// Puts what a record has at each of these attributes.
fn put_fields(alloc: Global, out: &mut String, term: &Term, names: &str) -> Result<()> {
    let Term::Record(fields) = term else {
        bail!("the term is no record");
    };
    out.push_str("(found")?;
    for name in names.split(',') {
        put_found(out, fields.get(&text(alloc, name)?))?;
    }
    Ok(out.push(')')?)
}

/// Puts a term that was looked for, with a space before it.
fn put_found(out: &mut String, found: Option<&Term>) -> Result<()> {
    out.push(' ')?;
    match found {
        Some(term) => put_term(out, term),
        None => Ok(out.push_str("nothing")?),
    }
}

/// Puts those of the distinct types as which an operator's application to so many last terms is well typed. An application is
/// never a literal, names the type that it claims, and is of this type exactly where it is well typed; where it is not so, `but:`
/// stands before the type.
fn put_types_given(alloc: Global, out: &mut String, terms: &[Term], spelling: &str) -> Result<()> {
    let (op, args) = call(alloc, terms, spelling)?;
    out.push_str("(types")?;
    for spelling in DISTINCT {
        let ty = type_of(alloc, spelling)?;
        match is_well_typed_as(alloc, &op, args, &ty)? {
            Some(true) => write!(out, " {spelling}")?,
            Some(false) => {}
            None => write!(out, " but:{spelling}")?,
        }
    }
    Ok(out.push(')')?)
}

/// Whether an application is well typed as this type, None where its answers contradict one another.
fn is_well_typed_as(alloc: Global, op: &Op, args: &[Term], ty: &TermType) -> Result<Option<bool>> {
    let claim = claim_of(alloc, op, args, ty)?;
    let holds = is_claim(alloc, &claim, ty)?;
    Ok(holds.then_some(claim.well_typed()))
}

fn claim_of(alloc: Global, op: &Op, args: &[Term], ty: &TermType) -> Result<Term> {
    let op = op.share()?;
    let args = TermList::new(alloc, args)?;
    let ret_ty = ty.share()?;
    Ok(Term::App { op, args, ret_ty })
}

/// Whether a term is an application that names the type that it claims, and is of it exactly where it is well typed.
fn is_claim(alloc: Global, claim: &Term, ty: &TermType) -> Result<bool> {
    Ok(
        !claim.is_literal()
            && equals(claim.type_of(alloc), ty)?
            && claim.has_type(ty) == claim.well_typed()
            && is_shared(claim)?,
    )
}

/// Puts the table of so many pairs of last terms, by this count, a key and its value: its entries, how many they are, whether there are
/// none,
/// whether it is equal to what it shares, and what it has at each term before these.
fn put_table(alloc: Global, out: &mut String, terms: &[Term], count: &str) -> Result<()> {
    let count: usize = count.parse()?;
    let (keys, entries) = last_of(terms, count.checked_mul(2).context("too few terms")?)?;
    let entries = pairs(alloc, entries)?;
    let table = TermTable::new(alloc, entries.as_slice())?;
    put_entries(out, &table)?;
    put_values(out, &table, keys)
}

fn put_entries(out: &mut String, table: &TermTable) -> Result<()> {
    out.push_str("(table")?;
    for (key, value) in table.items() {
        out.push_str(" (")?;
        put_term(out, key)?;
        out.push(' ')?;
        put_term(out, value)?;
        out.push(')')?;
    }
    Ok(())
}

fn put_values(out: &mut String, table: &TermTable, keys: &[Term]) -> Result<()> {
    let (count, empty) = (table.len(), table.is_empty());
    let shared = equals(table.share(), table)?;
    write!(out, ") {count} {empty} {shared} (found")?;
    for key in keys {
        put_found(out, table.get(key))?;
    }
    Ok(out.push(')')?)
}
