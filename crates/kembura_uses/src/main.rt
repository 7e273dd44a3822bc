//! Callers of Kembura. With no word the script of the question of `conditions`; with a number that of a sum of this depth; with
//! `pool` whether the session of a pool is kept.
#![tactic(auto)]

mod compare;
mod conditions;
mod decide;
mod levels;
mod pool;
mod shared_sum;

use anyhow::{Context, Result};
use kembura::nodes::Interner;
use kembura::{EnumTable, ListSink};
use std::alloc::Global;
use std::env;
use std::io::Write;
use std::marker::Brand;
use std::sync::ledger::Blank;

/// The script of the question.
fn question(alloc: Global) -> Result<ListSink> {
    let conditions = conditions::late_at_seven(alloc)?;
    let enums = EnumTable::new(alloc);
    Ok(conditions::script_of(alloc, &enums, conditions.as_slice())?)
}

/// The script of a sum of this depth.
fn deep_sum(alloc: Global, depth: &str) -> Result<ListSink> {
    let depth: u32 = depth.parse().context("the depth is no number")?;
    let mut nodes = Interner::new(alloc);
    let id = shared_sum::doubled(alloc, &mut nodes, depth)?;
    shared_sum::script_of::<Brand>(alloc, nodes, id, Blank::new(1))
}

/// Whether the session of a pool is kept.
fn kept(alloc: Global) -> Result<&'static str> {
    if pool::used_twice(alloc)? {
        Ok("kept\n")
    } else {
        Ok("not kept\n")
    }
}

fn main(rt: HostRuntime) -> Result<()> {
    let alloc = rt.alloc();
    match env::args(&rt)?.nth(1) {
        Some(word) if word.as_str() == "pool" => {
            rt.stdout().write_all(kept(alloc)?.as_bytes())?;
        }
        Some(depth) => {
            rt.stdout()
                .write_all(deep_sum(alloc, depth.as_str())?.bytes())?;
        }
        None => rt.stdout().write_all(question(alloc)?.bytes())?,
    }
    Ok(())
}
