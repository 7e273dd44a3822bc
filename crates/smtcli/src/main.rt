//! `smtcli`: the script of a job, a solver's verdict on it, or why there is none.
#![tactic(auto)]

use smt_cli::{Refusal, USAGE, run};
use smt_program::{Refused, begin, end_with};
use smt_solve::ChildStarter;
use std::process::ExitCode;

/// What `--version` says first of the installed program, as tools/install writes it here.
const INSTALLED: &str = "";

fn main(rt: HostRuntime) -> ExitCode {
    let begun = begin(&rt, USAGE, INSTALLED, rt.stdin(), rt.stdout(), rt.stderr());
    ExitCode::from(match begun {
        Ok(mut on) => match rt.clone() {
            Ok(processes) => {
                let words = on.words.as_slice();
                let mut starter = ChildStarter::new(processes);
                run(
                    rt.alloc(),
                    words,
                    &mut on.source,
                    &mut on.out,
                    &mut on.diag,
                    &mut starter,
                )
            }
            Err(_) => end_with(
                &mut on.diag,
                Refusal::Memory.line(),
                Refusal::Memory.status(),
            ),
        },
        Err(status) => status,
    })
}
