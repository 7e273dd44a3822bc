// Whole runs of the program where no job shows how they end: words, sources and sinks that fail, and the greatest job.
use crate::ends::{End, expect_end};
use crate::expected::{expect, expect_bytes, expect_status, expect_text};
use smt_cli::{EncodeRefusal, MemorySource, Refusal, SessionFault, Source, run};
use smt_program::Refused;
use smt_script::{BufferedSink, ListSink, MemorySink};
use smt_solve::{LinkList, MemoryStarter};
use std::alloc::Global;
use std::io::{self, BufWriter, Write};
use std::process::Abort;
use test_words::{AMPLE, texts_of};

/// The job of `not b`.
const NOT_B: &str = "(job (enums) (vars (\"b\" Bool)) (funs) (terms (not (var \"b\"))))";

/// Its script.
pub const SCRIPT: &str = "\
(declare-datatype Option (par (X) (
  (none)
  (some (val X)))))
; \"b\"
(declare-const t0 Bool)
(define-fun t1 () Bool (not t0))
(assert t1)
";

/// A job of steps.
const STEPS: &str =
    "(job (enums) (vars (\"b\" Bool)) (funs) (steps (assert (var \"b\")) (check) (push) (assert (not (var \"b\"))) (pop)))";

/// Its script.
const STEPS_SCRIPT: &str = "\
(declare-datatype Option (par (X) (
  (none)
  (some (val X)))))
; \"b\"
(declare-const t0 Bool)
(assert t0)
(check-sat)
(push 1)
(define-fun t1 () Bool (not t0))
(assert t1)
(pop 1)
";

const USAGE: &str = "usage: smtcli script or check PATH ARGS.. or gen SEED N\n";

const VERSION: &str = "smtcli 0.1.0 (rattle-kit-13f logic dac8208d650f15bf)\n";

/// A run and how it ends: its word, the bytes of its source, which read of it and which put to `out` are to fail (0: none), the
/// room of `out`, what `out` gets where nothing fails, or a first part of that, the status, and what is said on diag.
///
/// 3 comes of too many bytes as well, which `length_has_a_limit` has, and 7 comes of want of memory, which no table can force.
type Row = (
    &'static str,
    &'static str,
    u64,
    u64,
    usize,
    &'static str,
    u8,
    &'static str,
);

const ENDS: &[Row] = &[
    ("script", NOT_B, 0, 0, 200, SCRIPT, 0, ""),
    ("--help", "", 0, 0, 4000, USAGE, 0, ""),
    ("--version", "", 0, 0, 200, VERSION, 0, ""),
    ("--version", NOT_B, 1, 0, 200, VERSION, 0, ""),
    ("scripts", NOT_B, 0, 0, 200, "", 2, USAGE),
    ("", NOT_B, 0, 0, 200, "", 2, USAGE),
    (
        "script",
        "(job)",
        0,
        0,
        200,
        "",
        3,
        "job refused: BadForm\n",
    ),
    ("script", "(job)", 0, 0, 0, "", 3, "job refused: BadForm\n"),
    // The first read gives the whole job, the second finds the end.
    ("script", NOT_B, 1, 0, 200, "", 5, "source fault\n"),
    ("script", NOT_B, 2, 0, 200, "", 5, "source fault\n"),
    ("script", NOT_B, 0, 0, 70, SCRIPT, 6, "sink fault\n"),
    ("script", NOT_B, 0, 1, 200, SCRIPT, 6, "sink fault\n"),
    ("script", NOT_B, 0, 2, 200, SCRIPT, 6, "sink fault\n"),
    ("script", NOT_B, 0, 7, 200, SCRIPT, 6, "sink fault\n"),
    // The sink fails inside the line of a check, and inside those of a level's beginning and end.
    ("script", STEPS, 0, 0, 200, STEPS_SCRIPT, 0, ""),
    ("script", STEPS, 0, 0, 110, STEPS_SCRIPT, 6, "sink fault\n"),
    ("script", STEPS, 0, 0, 122, STEPS_SCRIPT, 6, "sink fault\n"),
    ("script", STEPS, 0, 0, 175, STEPS_SCRIPT, 6, "sink fault\n"),
    ("gen", "", 0, 0, 200, FIRST, 0, ""),
    ("gen", "", 0, 1, 200, FIRST, 6, "sink fault\n"),
    ("gen", "", 0, 0, 60, FIRST, 6, "sink fault\n"),
    ("--help", "", 0, 0, 70, USAGE, 6, "sink fault\n"),
    ("--version", "", 0, 0, 5, VERSION, 6, "sink fault\n"),
];

/// A starter that has no solver.
fn no_solver(rt: &impl Abort, alloc: Global) -> MemoryStarter {
    MemoryStarter::new(alloc, LinkList::new(alloc), &[]).expect(rt, AMPLE)
}

/// The status of a row's run, with what it put to `out` and said on diag. The numbers are those of the puts to diag that fail.
fn end_of(rt: &impl Abort, alloc: Global, row: &Row, fails: &[u64]) -> (u8, Vec<u8>, Vec<u8>) {
    // A generated job is that of the words of one seed, with one term.
    let words = match row.0 {
        "gen" => texts_of(alloc, &["gen", "0", "1"]).expect(rt, AMPLE),
        word => texts_of(alloc, &[word]).expect(rt, AMPLE),
    };
    let mut source = MemorySource::new(alloc, row.1.as_bytes(), &[row.2]).expect(rt, AMPLE);
    let mut out = MemorySink::new(alloc, &[row.3], row.4).expect(rt, AMPLE);
    let mut diag = MemorySink::new(alloc, fails, 100).expect(rt, AMPLE);
    let status = run(
        alloc,
        words.as_slice(),
        &mut source,
        &mut out,
        &mut diag,
        &mut no_solver(rt, alloc),
    );
    (
        status,
        out.bytes().to_vec(alloc).expect(rt, AMPLE),
        diag.bytes().to_vec(alloc).expect(rt, AMPLE),
    )
}

/// Whether `out` has all where the run is done, not all where the sink failed, and else nothing.
fn is_put(status: u8, out: &[u8], whole: &[u8]) -> bool {
    match status {
        0 => out.starts_with(whole),
        6 => out != whole && (out.starts_with(whole) || whole.starts_with(out)),
        _ => out.is_empty(),
    }
}

/// Stops the test where a run did not end as its row says, and names the row.
fn expect_row(rt: &impl Abort, row: &Row, status: u8, out: &[u8], said: &[u8]) {
    expect_status(rt, row.0, status, row.6);
    expect_bytes(rt, row.0, said, row.7.as_bytes());
    let is_put = is_put(status, out, row.5.as_bytes());
    expect(rt, is_put, row.0);
}

#[test]
fn runs_end_as_they_should(rt: HostRuntime) {
    for row in ENDS {
        let (status, out, said) = end_of(&rt, rt.alloc(), row, &[]);
        expect_row(&rt, row, status, out.as_slice(), said.as_slice());
    }
}

/// Stops the test where a run has another status than its row says, or said something, and names the row.
fn expect_unsaid(rt: &impl Abort, row: &Row, status: u8, said: &[u8]) {
    expect_status(rt, row.0, status, row.6);
    expect_bytes(rt, row.0, said, b"");
}

#[test]
fn a_failing_diag_changes_no_status(rt: HostRuntime) {
    for row in ENDS {
        let (status, _, said) = end_of(&rt, rt.alloc(), row, &[1]);
        expect_unsaid(&rt, row, status, said.as_slice());
    }
}

/// Takes all bytes, and fails at each flush.
#[derive(Drop)]
pub(crate) struct StuckWriter {
    pub(crate) bytes: Vec<u8>,
}

impl Write for StuckWriter {
    fn write(&mut self, buf: &[u8]) -> io::Result<usize> {
        self.bytes.extend_from_slice(buf)?;
        Ok(buf.len())
    }

    fn flush(&mut self) -> io::Result<()> {
        Err(io::Error::from(io::ErrorKind::BrokenPipe))
    }
}

/// The status of a run whose `out` holds bytes back for this writer, and what it said on diag.
pub(crate) fn run_held(
    rt: &impl Abort,
    alloc: Global,
    words: &[&str],
    bytes: &str,
    writer: &mut StuckWriter,
    starter: &mut MemoryStarter,
) -> (u8, Vec<u8>) {
    let words = texts_of(alloc, words).expect(rt, AMPLE);
    let mut source = MemorySource::new(alloc, bytes.as_bytes(), &[]).expect(rt, AMPLE);
    let held = BufWriter::with_capacity(alloc, 4096, writer).expect(rt, AMPLE);
    let mut out = BufferedSink::new(held);
    let mut diag = ListSink::new(alloc);
    let status = run(
        alloc,
        words.as_slice(),
        &mut source,
        &mut out,
        &mut diag,
        starter,
    );
    (status, diag.bytes().to_vec(alloc).expect(rt, AMPLE))
}

/// Words with the bytes of the source, what the writer gets, the status, and what is said on diag.
const HELD: &[(&str, &str, &str, u8, &str)] = &[
    ("script", NOT_B, SCRIPT, 6, "sink fault\n"),
    ("--version", "", VERSION, 6, "sink fault\n"),
    // Another refusal comes first.
    ("script", "(job)", "", 3, "job refused: BadForm\n"),
    ("scripts", NOT_B, "", 2, USAGE),
];

/// Stops the test where a run whose `out` holds bytes back ends otherwise, and names its word and its line.
fn expect_held(
    rt: &impl Abort,
    alloc: Global,
    (word, bytes, put, status, line): (&str, &str, &str, u8, &str),
) {
    let mut writer = StuckWriter {
        bytes: Vec::new(alloc),
    };
    let mut starter = no_solver(rt, alloc);
    let (ended, said) = run_held(rt, alloc, &[word], bytes, &mut writer, &mut starter);
    expect_status(rt, word, ended, status);
    expect_bytes(rt, word, said.as_slice(), line.as_bytes());
    expect_bytes(rt, word, writer.bytes.as_slice(), put.as_bytes());
}

#[test]
fn a_failing_flush_is_a_sink_fault(rt: HostRuntime) {
    for row in HELD {
        expect_held(&rt, rt.alloc(), *row);
    }
}

/// How a run over these words and this source ends.
fn run_from(rt: &impl Abort, alloc: Global, words: &[&str], source: &mut MemorySource) -> End {
    let words = texts_of(alloc, words).expect(rt, AMPLE);
    let mut out = ListSink::new(alloc);
    let mut diag = ListSink::new(alloc);
    let status = run(
        alloc,
        words.as_slice(),
        source,
        &mut out,
        &mut diag,
        &mut no_solver(rt, alloc),
    );
    End { status, out, diag }
}

const REFUSED_WORDS: &[&[&str]] = &[
    &[],
    &["scripts"],
    &["script", "x"],
    &["check"],
    &["gen"],
    &["gen", "1"],
    &["gen", "0", "0"],
    &["gen", "0", "100001"],
    &["gen", "-1", "5"],
    &["gen", "1", "+5"],
    &["gen", "", "5"],
    &["gen", "18446744073709551616", "5"],
    &["gen", "1", "5", "5"],
    &["generate", "1", "5"],
];

/// Whether the first read of the job is still to come, and gives its first bytes.
fn is_not_read(source: &mut MemorySource) -> bool {
    let mut buffer = *b"....";
    source.read(&mut buffer) == Ok(4) && buffer == *b"(job"
}

#[test]
fn refused_words_read_nothing(rt: HostRuntime) {
    let alloc = rt.alloc();
    for &words in REFUSED_WORDS {
        let mut source = MemorySource::new(alloc, NOT_B.as_bytes(), &[]).expect(&rt, AMPLE);
        let end = run_from(&rt, alloc, words, &mut source);
        expect_end(&rt, "refused words", &end, 2, "", USAGE);
        expect(&rt, is_not_read(&mut source), "whether nothing is read");
    }
}

/// What a run prints of generated jobs: of nine terms, of a single one, and of as many as may be.
const NINE: &str = "\
terms 9
variables 8
definitions 17
assertions 9
bytes 1481
sum 103923
";

const ONE: &str = "\
terms 1
variables 2
definitions 2
assertions 1
bytes 269
sum 19277
";

const FIRST: &str = "\
terms 1
variables 2
definitions 2
assertions 1
bytes 268
sum 19246
";

const MANY: &str = "\
terms 100000
variables 8
definitions 100008
assertions 100000
bytes 8481204
sum 569419128
";

const GENERATED: &[(&str, &str, &str)] = &[
    ("0", "9", NINE),
    ("0", "1", FIRST),
    ("000", "0009", NINE),
    ("18446744073709551615", "1", ONE),
];

/// Stops the test where a run of `gen` on this seed and number of terms does not print these lines.
fn expect_summary(rt: &impl Abort, alloc: Global, seed: &str, count: &str, lines: &str) {
    let mut source = MemorySource::new(alloc, NOT_B.as_bytes(), &[]).expect(rt, AMPLE);
    let end = run_from(rt, alloc, &["gen", seed, count], &mut source);
    expect_end(rt, seed, &end, 0, lines, "");
}

#[test]
fn generated_jobs_are_summarized(rt: HostRuntime) {
    for &(seed, count, lines) in GENERATED {
        expect_summary(&rt, rt.alloc(), seed, count, lines);
    }
}

#[test]
fn the_greatest_generated_job_is_summarized(rt: HostRuntime) {
    // A second run prints the same: nothing is kept of the first.
    for _ in 0..2 {
        expect_summary(&rt, rt.alloc(), "7", "100000", MANY);
    }
}

/// These refusals come of no job yet, so they are looked at by themselves.
#[test]
fn refusals_have_a_status_and_a_line(rt: HostRuntime) {
    let text = Refusal::Encode(EncodeRefusal::EncodeStringFailed);
    expect_line(&rt, text, 4, "encode refused: EncodeStringFailed\n");
    let pattern = Refusal::Encode(EncodeRefusal::EncodePatternFailed);
    expect_line(&rt, pattern, 4, "encode refused: EncodePatternFailed\n");
    expect_line(&rt, Refusal::Memory, 7, "memory\n");
    let answer = Refusal::Session(SessionFault::AnswerTooLong);
    expect_line(&rt, answer, 8, "session fault: AnswerTooLong\n");
}

/// Stops the test where a refusal has another status or another line, and names the line.
fn expect_line(rt: &impl Abort, refusal: Refusal, status: u8, line: &str) {
    expect_status(rt, line, refusal.status(), status);
    expect_text(rt, "the line", refusal.line(), line);
}

/// How a run on these bytes ends.
pub(crate) fn run_on(rt: &impl Abort, alloc: Global, bytes: &[u8]) -> End {
    let mut source = MemorySource::new(alloc, bytes, &[]).expect(rt, AMPLE);
    run_from(rt, alloc, &["script"], &mut source)
}

#[test]
fn length_has_a_limit(rt: HostRuntime) {
    let alloc = rt.alloc();
    let mut job = NOT_B.as_bytes().to_vec(alloc).expect(&rt, AMPLE);
    job.resize(16_777_216, b' ').expect(&rt, AMPLE);
    let end = run_on(&rt, alloc, job.as_slice());
    expect_end(&rt, "the greatest length", &end, 0, SCRIPT, "");
    job.push(b' ').expect(&rt, AMPLE);
    let end = run_on(&rt, alloc, job.as_slice());
    expect_end(&rt, "one more", &end, 3, "", "job refused: TooLarge\n");
}
