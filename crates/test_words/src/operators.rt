//! Operators and functions.

use crate::spelling::{pattern, text};
use crate::types::type_of;
use anyhow::{Context, Result};
use smt_term::{ExtOp, Op, Uuf};
use std::alloc::Global;
use std::rc::Rc;

/// The operator of this spelling: its name, and behind `=` what it holds.
pub fn operator(alloc: Global, spelling: &str) -> Result<Op> {
    let (name, held) = spelling.split_once('=').unwrap_or((spelling, ""));
    match name {
        "call" => Ok(Op::Uuf(Rc::new(alloc, function(alloc, held, '=')?)?)),
        "record.get" => Ok(Op::RecordGet(text(alloc, held)?)),
        "string.like" => Ok(Op::StringLike(pattern(alloc, held)?)),
        "zero_extend" => Ok(Op::ZeroExtend(held.parse()?)),
        _ => plain_operator(name).context("no operator has this name"),
    }
}

/// A function by its id, the type of its argument and that of its values, with this character between two.
pub fn function(alloc: Global, spelling: &str, between: char) -> Result<Uuf> {
    let (id, types) = spelling.split_once(between).context("an id and two types")?;
    let (arg, out) = types.split_once(between).context("two types")?;
    Ok(Uuf {
        id: text(alloc, id)?,
        arg: type_of(alloc, arg)?,
        out: type_of(alloc, out)?,
    })
}

/// The operator of this name, which holds nothing.
fn plain_operator(name: &str) -> Option<Op> {
    Some(match name {
        "and" => Op::And,
        "eq" => Op::Eq,
        "ite" => Op::Ite,
        "not" => Op::Not,
        "option.get" => Op::OptionGet,
        "or" => Op::Or,
        "set.inter" => Op::SetInter,
        "set.member" => Op::SetMember,
        "set.subset" => Op::SetSubset,
        _ => match ExtOp::of_name(name) {
            Some(op) => Op::Ext(op),
            None => return bits_operator(name),
        },
    })
}

/// The operator on bitvectors of this name.
fn bits_operator(name: &str) -> Option<Op> {
    Some(match name {
        "bvadd" => Op::Bvadd,
        "bvlshr" => Op::Bvlshr,
        "bvmul" => Op::Bvmul,
        "bvneg" => Op::Bvneg,
        "bvnego" => Op::Bvnego,
        "bvsaddo" => Op::Bvsaddo,
        "bvsdiv" => Op::Bvsdiv,
        "bvshl" => Op::Bvshl,
        "bvsle" => Op::Bvsle,
        "bvslt" => Op::Bvslt,
        "bvsmod" => Op::Bvsmod,
        "bvsmulo" => Op::Bvsmulo,
        "bvsrem" => Op::Bvsrem,
        "bvssubo" => Op::Bvssubo,
        "bvsub" => Op::Bvsub,
        "bvudiv" => Op::Bvudiv,
        "bvule" => Op::Bvule,
        "bvult" => Op::Bvult,
        "bvurem" => Op::Bvurem,
        _ => return None,
    })
}
