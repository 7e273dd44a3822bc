//! Terms as the calls of the factory make them.

use anyhow::{Context, Result, bail};
use smt_factory::{and, app, bvlshr, bvslt, eq, extension, record_get, set_member, string_like};
use smt_term::{ExtOp, Term, UnaryFunction};
use std::alloc::Global;
use std::rc::Rc;
use test_words::{function, one, pattern, text};

/// What the call of this name makes of the last terms and of what stands behind the colon.
pub(crate) fn made(alloc: Global, terms: &mut Vec<Term>, spelling: &str) -> Result<Term> {
    let (call, held) = spelling.split_once(':').unwrap_or((spelling, ""));
    let last = one(terms)?;
    match call {
        "app" => {
            let function = UnaryFunction::Uuf(Rc::new(alloc, function(alloc, held, ':')?)?);
            Ok(app(alloc, function, last)?)
        }
        "extension" => {
            let op = ExtOp::of_name(held).context("no operator has this name")?;
            Ok(extension(alloc, op, last)?)
        }
        "record_get" => Ok(record_get(alloc, last, &text(alloc, held)?)?),
        "string_like" => Ok(string_like(alloc, last, pattern(alloc, held)?)?),
        _ => made_of_two(alloc, call, one(terms)?, last),
    }
}

/// What the call of this name makes of two terms.
fn made_of_two(alloc: Global, call: &str, first: Term, second: Term) -> Result<Term> {
    Ok(match call {
        "and" => and(alloc, first, second)?,
        "eq" => eq(alloc, first, second)?,
        "bvslt" => bvslt(alloc, first, second)?,
        "bvlshr" => bvlshr(alloc, first, second)?,
        "set_member" => set_member(alloc, first, second)?,
        _ => bail!("no call has this name"),
    })
}
