//! Operators at the last terms of a row.

use anyhow::{Context, Result, bail};
use smt_bits::{FIVE, HUNDRED_TWENTY_EIGHT, SEVEN, SIXTY_FOUR, THIRTY_TWO, Width};
use smt_term::{Attr, ExtOp, ExtType, Op, Term, TermList, TermType};
use std::alloc::Global;
use test_words::taken;

/// The operator at its arguments, which are the last terms.
pub(crate) fn applied(alloc: Global, terms: &mut Vec<Term>, op: Op) -> Result<Term> {
    let args = taken(terms, count_of_arguments(&op))?;
    let ret_ty = type_of_result(alloc, &op, args.as_slice())?;
    Ok(Term::App {
        op,
        args: TermList::new(alloc, args.as_slice())?,
        ret_ty,
    })
}

fn count_of_arguments(op: &Op) -> usize {
    match op {
        Op::Not
        | Op::OptionGet
        | Op::Bvneg
        | Op::Bvnego
        | Op::Ext(_)
        | Op::RecordGet(_)
        | Op::ZeroExtend(_)
        | Op::StringLike(_) => 1,
        Op::Ite => 3,
        _ => 2,
    }
}

/// The type of an operator's result by its arguments.
fn type_of_result(alloc: Global, op: &Op, args: &[Term]) -> Result<TermType> {
    match (op, args) {
        (Op::OptionGet, [option, ..]) => match &option.type_of(alloc)? {
            TermType::Option { ty } => Ok(ty.share()?),
            _ => bail!("the argument is no option"),
        },
        (Op::RecordGet(name), [record, ..]) => type_of_attribute(alloc, record, name),
        (Op::Ext(op), _) => extension_result(alloc, *op),
        (Op::ZeroExtend(count), [bits, ..]) => longer(&bits.type_of(alloc)?, *count),
        (Op::Ite, [_, chosen, ..]) => Ok(chosen.type_of(alloc)?),
        (_, [first, ..]) if keeps_type(op) => Ok(first.type_of(alloc)?),
        _ => Ok(TermType::Bool),
    }
}

/// The type of this attribute of a term, that of truth values where the term does not have it.
fn type_of_attribute(alloc: Global, record: &Term, name: &Attr) -> Result<TermType> {
    if let TermType::Record { rty } = &record.type_of(alloc)? {
        if let Some(ty) = rty.get(name) {
            return Ok(ty.share()?);
        }
    }
    Ok(TermType::Bool)
}

/// The type that an operator of the extension types gives.
fn extension_result(alloc: Global, op: ExtOp) -> Result<TermType> {
    Ok(match op {
        ExtOp::DatetimeOfBitVec => TermType::Ext {
            xty: ExtType::DateTime,
        },
        ExtOp::DurationOfBitVec => TermType::Ext {
            xty: ExtType::Duration,
        },
        ExtOp::DatetimeVal | ExtOp::DecimalVal | ExtOp::DurationVal => {
            TermType::Bitvec { n: SIXTY_FOUR }
        }
        ExtOp::IpaddrAddrV4 => TermType::Bitvec { n: THIRTY_TWO },
        ExtOp::IpaddrAddrV6 => TermType::Bitvec {
            n: HUNDRED_TWENTY_EIGHT,
        },
        ExtOp::IpaddrIsV4 => TermType::Bool,
        ExtOp::IpaddrPrefixV4 => TermType::option_of(alloc, TermType::Bitvec { n: FIVE })?,
        ExtOp::IpaddrPrefixV6 => TermType::option_of(alloc, TermType::Bitvec { n: SEVEN })?,
    })
}

/// Whether the result has the type of the first argument.
fn keeps_type(op: &Op) -> bool {
    matches!(
        op,
        Op::SetInter
            | Op::Bvadd
            | Op::Bvsub
            | Op::Bvmul
            | Op::Bvneg
            | Op::Bvudiv
            | Op::Bvurem
            | Op::Bvsdiv
            | Op::Bvsrem
            | Op::Bvsmod
            | Op::Bvshl
            | Op::Bvlshr
    )
}

/// The type of bitvectors with so many bits more.
fn longer(ty: &TermType, count: u32) -> Result<TermType> {
    let TermType::Bitvec { n } = ty else {
        bail!("the argument is no bitvector");
    };
    let bits = n.get().checked_add(count).context("too many bits")?;
    let n = Width::new(bits).context("too many bits")?;
    Ok(TermType::Bitvec { n })
}
