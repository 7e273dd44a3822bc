//! Words for the calls of the factory, which fold.

use anyhow::{Context, Result, bail};
use smt_bits::{BitVec, Int};
use smt_factory::*;
use smt_term::{Op, Term, TermError, TermTable, Udf, UnaryFunction};
use std::alloc::Global;
use std::rc::Rc;
use test_words::{fields, function, one, pairs, pattern, taken, text, two, type_of};

/// What the call of this name gives of the last terms, which the stack then has no longer.
pub(crate) fn term(alloc: Global, terms: &mut Vec<Term>, head: &str, held: &str) -> Result<Term> {
    match head {
        "none_of" => Ok(none_of(type_of(alloc, held)?)),
        "record_of" => record(alloc, terms, held),
        "set_of" => set(alloc, terms, held),
        "any_negated" => negated(alloc, terms, held),
        "any_none" => none_of_all(alloc, terms, held),
        "app_of_table" => app_of_table(alloc, terms, held),
        "if_all_some" => all_some(alloc, terms, held),
        "app_of" => app_of(alloc, terms, held),
        "record_get" => attribute(alloc, terms, held),
        "string_like" => matched(alloc, terms, held),
        "ite" => choice(alloc, terms),
        "or"
        | "implies"
        | "eq"
        | "if_true"
        | "if_false"
        | "if_some"
        | "set_member"
        | "set_subset"
        | "set_inter"
        | "set_intersects"
        | "tag_of"
        | "bvapp_by"
        | "bvapp"
        | "bvso" => of_two(alloc, terms, head),
        _ => of_last(alloc, terms, head),
    }
}

/// What was built, with the error of the program.
pub(crate) fn built(folded: Result<Term, TermError>) -> Result<Term> {
    Ok(folded?)
}

fn of_last(alloc: Global, terms: &mut Vec<Term>, head: &str) -> Result<Term> {
    let last = one(terms)?;
    match head {
        "not" => built(not(alloc, last)),
        "some_of" => built(some_of(alloc, last)),
        "option_get" => built(option_get(alloc, last)),
        "is_none" => built(is_none(alloc, last)),
        "is_some" => built(is_some(alloc, last)),
        "set_is_empty" => built(set_is_empty(alloc, last)),
        "ext_decimal_val" => built(ext_decimal_val(alloc, last)),
        "ext_datetime_val" => built(ext_datetime_val(alloc, last)),
        "ext_duration_val" => built(ext_duration_val(alloc, last)),
        "ext_ipaddr_is_v4" => built(ext_ipaddr_is_v4(alloc, last)),
        "ext_ipaddr_addr_v4" => built(ext_ipaddr_addr_v4(alloc, last)),
        "ext_ipaddr_addr_v6" => built(ext_ipaddr_addr_v6(alloc, last)),
        "ext_ipaddr_prefix_v4" => built(ext_ipaddr_prefix_v4(alloc, last)),
        "ext_ipaddr_prefix_v6" => built(ext_ipaddr_prefix_v6(alloc, last)),
        "ext_datetime_of_bitvec" => built(ext_datetime_of_bitvec(alloc, last)),
        "ext_duration_of_bitvec" => built(ext_duration_of_bitvec(alloc, last)),
        _ => bail!("no word has this head"),
    }
}

fn of_two(alloc: Global, terms: &mut Vec<Term>, head: &str) -> Result<Term> {
    let (a, b) = two(terms)?;
    match head {
        "or" => built(or(alloc, a, b)),
        "implies" => built(implies(alloc, a, b)),
        "eq" => built(eq(alloc, a, b)),
        "if_true" => built(if_true(alloc, a, b)),
        "if_false" => built(if_false(alloc, a, b)),
        "if_some" => built(if_some(alloc, a, b)),
        "set_member" => built(set_member(alloc, a, b)),
        "set_subset" => built(set_subset(alloc, a, b)),
        "set_inter" => built(set_inter(alloc, a, b)),
        "set_intersects" => built(set_intersects(alloc, a, b)),
        "tag_of" => built(tag_of(alloc, a, b)),
        "bvapp_by" => built(sum_by_rule(alloc, a, b)),
        "bvapp" => built(bvapp(alloc, Op::Bvsub, &BitVec::sub, a, b)),
        _ => built(overflow_by_none(alloc, a, b)),
    }
}

/// The sum, by a rule of the caller.
#[tactic(auto, using(smt_term::specs::View::views))]
fn sum_by_rule(alloc: Global, a: Term, b: Term) -> Result<Term, TermError> {
    let sum = BvRule::new(Op::Bvadd, BitVec::add);
    bvapp_by(alloc, &sum, a, b)
}

/// An overflow test by a call that has no answer: each number is outside the range.
fn overflow_by_none(alloc: Global, a: Term, b: Term) -> Result<Term, TermError> {
    let never = |_: &Int, _: &Int| None;
    bvso(alloc, Op::Bvsaddo, &never, a, b)
}

fn choice(alloc: Global, terms: &mut Vec<Term>) -> Result<Term> {
    let last = one(terms)?;
    let (test, chosen) = two(terms)?;
    built(ite(alloc, test, chosen, last))
}

fn negated(alloc: Global, terms: &mut Vec<Term>, count: &str) -> Result<Term> {
    let negated = |t: Term| not(alloc, t);
    let terms = taken(terms, count.parse()?)?;
    built(any_true(alloc, &negated, terms.as_slice()))
}

fn none_of_all(alloc: Global, terms: &mut Vec<Term>, count: &str) -> Result<Term> {
    let options = taken(terms, count.parse()?)?;
    built(any_none(alloc, options.as_slice()))
}

fn all_some(alloc: Global, terms: &mut Vec<Term>, count: &str) -> Result<Term> {
    let count = count.parse()?;
    let last = one(terms)?;
    let options = taken(terms, count)?;
    built(if_all_some(alloc, options.as_slice(), last))
}

fn app_of(alloc: Global, terms: &mut Vec<Term>, spelling: &str) -> Result<Term> {
    let function = Rc::new(alloc, function(alloc, spelling, ':')?)?;
    built(app(alloc, UnaryFunction::Uuf(function), one(terms)?))
}

fn attribute(alloc: Global, terms: &mut Vec<Term>, name: &str) -> Result<Term> {
    let name = text(alloc, name)?;
    built(record_get(alloc, one(terms)?, &name))
}

fn matched(alloc: Global, terms: &mut Vec<Term>, spelling: &str) -> Result<Term> {
    let pattern = pattern(alloc, spelling)?;
    built(string_like(alloc, one(terms)?, pattern))
}

fn record(alloc: Global, terms: &mut Vec<Term>, names: &str) -> Result<Term> {
    let fields = fields(alloc, terms, names)?;
    built(record_of(alloc, fields.as_slice()))
}

fn set(alloc: Global, terms: &mut Vec<Term>, spelling: &str) -> Result<Term> {
    let (count, ty) = spelling.split_once(':').context("a count and a type")?;
    let elements = taken(terms, count.parse()?)?;
    let ty = type_of(alloc, ty)?;
    built(set_of(alloc, elements.as_slice(), ty))
}

/// A function that is given by a table, at the last term.
fn app_of_table(alloc: Global, terms: &mut Vec<Term>, spelling: &str) -> Result<Term> {
    let (count, types) = spelling.split_once(':').context("a count and two types")?;
    let count = count.parse()?;
    let at = one(terms)?;
    let function = table_function(alloc, terms, count, types)?;
    built(app(alloc, function, at))
}

fn table_function(
    alloc: Global,
    terms: &mut Vec<Term>,
    count: usize,
    types: &str,
) -> Result<UnaryFunction> {
    let (arg, out) = types.split_once(':').context("two types")?;
    let table = table(alloc, terms, count)?;
    let default = one(terms)?;
    let arg = type_of(alloc, arg)?;
    let out = type_of(alloc, out)?;
    let function = Udf {
        arg,
        out,
        table,
        default,
    };
    Ok(UnaryFunction::Udf(Rc::new(alloc, function)?))
}

/// The table of so many last keys, each with its value behind it.
fn table(alloc: Global, terms: &mut Vec<Term>, count: usize) -> Result<TermTable> {
    let size = count.checked_mul(2).context("too few terms")?;
    let entries = taken(terms, size)?;
    let entries = pairs(alloc, entries.as_slice())?;
    Ok(TermTable::new(alloc, entries.as_slice())?)
}
