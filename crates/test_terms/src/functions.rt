//! Words for the functions on values of the extension types.

ghost use Rattle.std.specs.Prelude.{◌≤◌, IfOk};
ghost use Rattle.law_extensions.specs.Laws.{BothRefine};
ghost use Rattle.smt_bits.specs.Width.{bits_in};
ghost use Rattle.smt_factory.specs.Pairs.{plain_pair};
ghost use Rattle.smt_term.specs.View.{plain_term};
ghost use Rattle.test_terms.specs.Groups.{address_twice};

use crate::folded::built;
use anyhow::{Context, Result, bail};
use smt_bits::{FIVE, SEVEN, Width};
use smt_ext::IPNet;
use smt_factory::*;
use smt_term::{Term, TermError, TermType};
use std::alloc::Global;
use test_words::{one, taken, two};

/// The functions of the last two terms.
const OF_TWO: &[&str] = &[
    "less_than",
    "less_than_or_equal",
    "greater_than",
    "greater_than_or_equal",
    "offset",
    "duration_since",
    "in_range_v4",
];

/// The functions of the last term.
const OF_LAST: &[&str] = &[
    "to_milliseconds",
    "to_seconds",
    "to_minutes",
    "to_hours",
    "to_days",
    "to_date",
    "to_time",
    "is_ipv4",
    "is_ipv6",
    "is_loopback",
    "is_multicast",
];

/// What the function of this name gives of the last terms, which the stack then has no longer; None where none has this name.
pub(crate) fn term(
    alloc: Global,
    terms: &mut Vec<Term>,
    head: &str,
    held: &str,
) -> Result<Option<Term>> {
    if OF_TWO.contains(&head) {
        return of_two(alloc, terms, head);
    }
    if OF_LAST.contains(&head) {
        return of_last(alloc, terms, head);
    }
    match head {
        "range_v4" | "range_v6" => range(alloc, terms, head),
        "is_in_range" => in_any_range(alloc, terms, held),
        "in_groups" => in_any_group(alloc, terms, held),
        "subnet_width_v4" => free_bits(alloc, terms, FIVE),
        "subnet_width_v6" => free_bits(alloc, terms, SEVEN),
        "in_range_lit" => in_literal(alloc, terms, held),
        _ => Ok(None),
    }
}

/// Some of what was built, with the error of the program.
fn found(folded: Result<Term, TermError>) -> Result<Option<Term>> {
    Ok(Some(built(folded)?))
}

fn of_two(alloc: Global, terms: &mut Vec<Term>, head: &str) -> Result<Option<Term>> {
    let (a, b) = two(terms)?;
    match head {
        "less_than" => found(less_than(alloc, a, b)),
        "less_than_or_equal" => found(less_than_or_equal(alloc, a, b)),
        "greater_than" => found(greater_than(alloc, a, b)),
        "greater_than_or_equal" => found(greater_than_or_equal(alloc, a, b)),
        "offset" => found(offset(alloc, a, b)),
        "duration_since" => found(duration_since(alloc, a, b)),
        _ => found(in_range(alloc, &|t: Term| range_v4(alloc, t), a, b)),
    }
}

fn of_last(alloc: Global, terms: &mut Vec<Term>, head: &str) -> Result<Option<Term>> {
    let last = one(terms)?;
    match head {
        "to_milliseconds" => found(to_milliseconds(alloc, last)),
        "to_seconds" => found(to_seconds(alloc, last)),
        "to_minutes" => found(to_minutes(alloc, last)),
        "to_hours" => found(to_hours(alloc, last)),
        "to_days" => found(to_days(alloc, last)),
        "to_date" => found(to_date(alloc, last)),
        "to_time" => found(to_time(alloc, last)),
        "is_ipv4" => found(is_ipv4(alloc, last)),
        "is_ipv6" => found(is_ipv6(alloc, last)),
        "is_loopback" => found(is_loopback(alloc, last)),
        _ => found(is_multicast(alloc, last)),
    }
}

/// The lowest address stays on the stack, and the highest is answered.
fn range(alloc: Global, terms: &mut Vec<Term>, head: &str) -> Result<Option<Term>> {
    let last = one(terms)?;
    let (lowest, highest) = match head {
        "range_v4" => range_v4(alloc, last)?,
        _ => range_v6(alloc, last)?,
    };
    terms.push(lowest)?;
    Ok(Some(highest))
}

fn in_any_range(alloc: Global, terms: &mut Vec<Term>, count: &str) -> Result<Option<Term>> {
    let ranges = taken(terms, count.parse()?)?;
    let last = one(terms)?;
    found(is_in_range(alloc, last, ranges.as_slice()))
}

fn in_literal(alloc: Global, terms: &mut Vec<Term>, held: &str) -> Result<Option<Term>> {
    let (v4, v6) = held.split_once(',').context("two ranges")?;
    let (v4, v6) = (IPNet::parse(alloc, v4)?, IPNet::parse(alloc, v6)?);
    found(in_range_lit(alloc, one(terms)?, v4, v6))
}

/// The address of version 4, as the lowest and as the highest one.
fn address_twice(alloc: Global, t: Term) -> Result<(Term, Term), TermError>
    ensures { IfOk result (λ r. BothRefine (plain_pair r) (address_twice (plain_term t))) }
{
    let address = ext_ipaddr_addr_v4(alloc, t)?;
    Ok((address.share()?, address))
}

/// By a rule of its own: a range is of the family where it lies in those of multicast, and is its address of version 4 alone.
fn in_any_group(alloc: Global, terms: &mut Vec<Term>, count: &str) -> Result<Option<Term>> {
    let ranges = taken(terms, count.parse()?)?;
    let last = one(terms)?;
    let is_group = |t: Term| is_multicast(alloc, t);
    let address = |t: Term| address_twice(alloc, t);
    let rule = RangeRule::new(is_group, address);
    found(in_range_v(alloc, &rule, last, ranges.as_slice()))
}

/// The number of free bits by the last term, which is refused where it is no option of bitvectors of the width.
fn free_bits(alloc: Global, terms: &mut Vec<Term>, width: Width) -> Result<Option<Term>>
    requires { bits_in width ≤ 7 }
{
    let prefix = one(terms)?;
    let asked = TermType::option_of(alloc, TermType::Bitvec { n: width })?;
    if prefix.type_of(alloc)? == asked {
        found(subnet_width(alloc, width, prefix))
    } else {
        bail!("the prefix has another type")
    }
}
