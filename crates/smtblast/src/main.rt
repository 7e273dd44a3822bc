//! `smtblast`: the script of a job's terms over bitvectors, as terms over their bits.
#![tactic(auto)]

use smt_blast::{USAGE, blast_run};
use smt_program::begin;
use std::process::ExitCode;

/// What `--version` says first of the installed program, as tools/install writes it here.
const INSTALLED: &str = "";

fn main(rt: HostRuntime) -> ExitCode {
    let begun = begin(&rt, USAGE, INSTALLED, rt.stdin(), rt.stdout(), rt.stderr());
    ExitCode::from(match begun {
        Ok(mut on) => {
            let words = on.words.as_slice();
            blast_run(rt.alloc(), words, &mut on.source, &mut on.out, &mut on.diag)
        }
        Err(status) => status,
    })
}
