//! `smtmini`: a small solver for scripts of Boolean constants, whose replies are proved.
#![tactic(auto)]

use smt_program::begin;
use smt_stream::{Refusal, mini_run};
use std::process::ExitCode;

/// What `--version` says first of the installed program, as tools/install writes it here.
const INSTALLED: &str = "";

fn main(rt: HostRuntime) -> ExitCode {
    let usage = Refusal::Usage.line();
    let begun = begin(&rt, usage, INSTALLED, rt.stdin(), rt.stdout(), rt.stderr());
    ExitCode::from(match begun {
        Ok(mut on) => {
            let words = on.words.as_slice();
            mini_run(rt.alloc(), words, &mut on.source, &mut on.out, &mut on.diag)
        }
        Err(status) => status,
    })
}
