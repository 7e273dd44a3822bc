//! `smteval`: whether an assignment makes the terms of a job true.
#![tactic(auto)]

use smt_eval::{USAGE, eval_run};
use smt_program::begin;
use std::process::ExitCode;

/// What `--version` says first of the installed program, as tools/install writes it here.
const INSTALLED: &str = "";

fn main(rt: HostRuntime) -> ExitCode {
    let begun = begin(&rt, USAGE, INSTALLED, rt.stdin(), rt.stdout(), rt.stderr());
    ExitCode::from(match begun {
        Ok(mut on) => {
            let words = on.words.as_slice();
            eval_run(rt.alloc(), words, &mut on.source, &mut on.out, &mut on.diag)
        }
        Err(status) => status,
    })
}
