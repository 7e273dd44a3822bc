//! How runs of programs end, and how they should.

use crate::expected::{expect_bytes, expect_status};
use smt_script::{ListSink, MemorySource};
use smt_solve::MemoryStarter;
use std::alloc::Global;
use std::process::Abort;
use test_words::AMPLE;

/// How a run ended: its status, and what was put and said.
#[derive(Drop)]
pub(crate) struct End {
    pub(crate) status: u8,
    pub(crate) out: ListSink,
    pub(crate) diag: ListSink,
}

/// Runs a program in memory, on these bytes. It may be called whatever its sinks hold.
pub(crate) fn run_with<F: FnOnce(&mut MemorySource, &mut ListSink, &mut ListSink) -> u8>(
    rt: &impl Abort,
    alloc: Global,
    bytes: &[u8],
    program: F,
) -> End
    requires { F.IsAlwaysCallable program }
{
    let mut source = MemorySource::new(alloc, bytes, &[]).expect(rt, AMPLE);
    let mut out = ListSink::new(alloc);
    let mut diag = ListSink::new(alloc);
    let status = program(&mut source, &mut out, &mut diag);
    End { status, out, diag }
}

/// Stops the test where a run ended otherwise, and names it.
pub(crate) fn expect_end(
    rt: &impl Abort,
    label: &str,
    end: &End,
    status: u8,
    put: &str,
    said: &str,
) {
    expect_status(rt, label, end.status, status);
    expect_bytes(rt, label, end.out.bytes(), put.as_bytes());
    expect_bytes(rt, label, end.diag.bytes(), said.as_bytes());
}

/// What the link was sent that came back, None where none or several did.
pub(crate) fn sent_by(starter: &MemoryStarter) -> Option<&[u8]> {
    match starter.returned() {
        [link] => Some(link.sent()),
        _ => None,
    }
}
