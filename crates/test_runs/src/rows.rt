// Runs of the program over the jobs of the tables.
//
// A job of one line stands behind a `>`. Below it stands what the run leaves: its status, with how many bytes were said on diag
// and how many were put to out, and then these bytes. Jobs of more lines, or of bytes that are no printable text, stand in
// `bytes`.
use crate::expected::expect_lines;
use crate::runs::run_on;
use crate::tables::TABLES;
use crate::tables::bytes::JOBS;
use std::alloc::Global;
use std::io::Write;
use std::process::Abort;
use test_words::AMPLE;

/// Prints what a run leaves of this job.
fn show(rt: &impl Abort, alloc: Global, printed: &mut Vec<u8>, job: &[u8]) {
    let end = run_on(rt, alloc, job);
    let (status, out, diag) = (end.status, end.out.bytes(), end.diag.bytes());
    let (put, said) = (out.len(), diag.len());
    writeln!(
        printed,
        "status {status}, {said} bytes on diag, {put} on out"
    )
    .expect(rt, AMPLE);
    printed.extend_from_slice(diag).expect(rt, AMPLE);
    printed.extend_from_slice(out).expect(rt, AMPLE);
}

/// Stops at the first line that is not as it is stated.
fn compare(rt: &impl Abort, printed: &[u8], stated: &str) {
    let said = str::from_utf8(printed).expect(rt, "what is printed is UTF-8");
    expect_lines(rt, said, stated);
}

/// Prints a job and what a run leaves of it.
fn show_row(rt: &impl Abort, alloc: Global, printed: &mut Vec<u8>, job: &str) {
    writeln!(printed, "> {job}").expect(rt, AMPLE);
    show(rt, alloc, printed, job.as_bytes());
}

/// The jobs of a table, each with what a run leaves of it now.
fn shown(rt: &impl Abort, alloc: Global, table: &str) -> Vec<u8> {
    let mut printed: Vec<u8> = Vec::new(alloc);
    for line in table.lines() {
        if let Some(job) = line.strip_prefix("> ") {
            show_row(rt, alloc, &mut printed, job);
        }
    }
    printed
}

#[test]
fn jobs_of_one_line(rt: HostRuntime) {
    for table in TABLES {
        let printed = shown(&rt, rt.alloc(), table);
        compare(&rt, printed.as_slice(), table);
    }
}

#[test]
fn jobs_of_any_bytes(rt: HostRuntime) {
    let alloc = rt.alloc();
    for job in JOBS {
        let mut printed: Vec<u8> = Vec::new(alloc);
        show(&rt, alloc, &mut printed, job.bytes);
        compare(&rt, printed.as_slice(), job.stated);
    }
}
