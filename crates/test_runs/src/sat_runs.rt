//! Formulas and proofs, and how their runs end.

use crate::expected::{expect_bytes, expect_status};
use smt_sat_run::sat_run;
use smt_script::{ListSink, MemorySink, MemorySource};
use std::alloc::Global;
use std::process::Abort;
use test_words::{AMPLE, texts_of};

/// The room of a sink for whatever a run puts.
const ROOM: usize = 2000;

/// A run: its words, formula and proof, how it should end, and what should be put and said.
#[derive(Drop)]
struct Row {
    label: &'static str,
    words: &'static [&'static str],
    formula: &'static str,
    proof: &'static str,
    /// Which read of the formula's source is to fail, which of the proof's, and which put to the sink, 0 for none.
    source_fails: u64,
    proof_fails: u64,
    out_fails: u64,
    /// How many bytes the sink takes.
    room: usize,
    status: u8,
    put: &'static str,
    said: &'static str,
}

/// Pigeons 4 into 3 holes.
const PIGEONS: &str =
    "p cnf 12 22\n1 2 3 0\n4 5 6 0\n7 8 9 0\n10 11 12 0\n-4 -1 0\n-7 -1 0\n-7 -4 0\n-10 -1 0\n-10 -4 0\n-10 -7 0\n-5 -2 0\n-8 -2 0\n-8 -5 0\n-11 -2 0\n-11 -5 0\n-11 -8 0\n-6 -3 0\n-9 -3 0\n-9 -6 0\n-12 -3 0\n-12 -6 0\n-12 -9 0\n";

/// A proof by cadical that they do not fit.
const PROOF: &str =
    "-11 -12 0\n-7 -12 0\n-12 0\n-8 0\n-7 0\n9 0\n-3 0\n-6 0\n-1 0\n2 0\n-5 0\n-11 0\n4 0\n10 0\n0\n";

/// A run that puts nothing.
const NOTHING: Row = Row {
    label: "",
    words: &[],
    formula: "",
    proof: "",
    source_fails: 0,
    proof_fails: 0,
    out_fails: 0,
    room: ROOM,
    status: 0,
    put: "",
    said: "",
};

/// A run whose words are no command.
const USAGE: Row = Row {
    status: 2,
    said: "usage: smtsat [--conflicts N | --proof FILE] < FORMULA\n",
    ..NOTHING
};

/// A run on a formula and its proof, one source of which fails.
const SOURCE_FAULT: Row = Row {
    formula: PIGEONS,
    proof: PROOF,
    status: 5,
    said: "source fault\n",
    ..NOTHING
};

/// A run whose sink fails.
const SINK_FAULT: Row = Row {
    status: 6,
    said: "sink fault\n",
    ..NOTHING
};

/// What help puts.
const HELP: &str = "\
usage: smtsat [--conflicts N | --proof FILE] < FORMULA

Reads a formula in conjunctive normal form from standard input, in the format DIMACS, and searches for truths of its variables that
make all clauses true. Prints what was found, as solvers print it:

  s SATISFIABLE     and lines that begin with v: the literals that are true, of all variables in order, and a 0 behind them
  s UNSATISFIABLE   no truths of the variables make all clauses true
  s UNKNOWN         neither was found

--conflicts N    searches over at most N conflicts, below 2^64
--proof FILE     checks a proof in place of searching: DRAT as text, as `cadical -q --no-binary FORMULA FILE` writes it; where a
                 step does not follow, or the proof ends before the empty clause, that is said on standard error

The lines that begin with c are comments, wherever they stand. The first line of the others is `p cnf VARIABLES CLAUSES`, and behind it
are the literals of the clauses, each clause ended by 0. A line of % at the end, as some files have it, is refused: take it away first.

example:  printf 'p cnf 2 2\\n1 -2 0\\n2 0\\n' | smtsat
prints    s SATISFIABLE
          v 1 2 0

status: 10 satisfiable; 20 unsatisfiable; 0 unknown; 2 the words are no command; 3 the formula is refused; 5 source fault; 6 sink
        fault; 7 out of memory
";

/// Rows of what a search says.
const SEARCHES: &[Row] = &[
    Row {
        label: "one solution",
        formula: "p cnf 2 2\n1 -2 0\n2 0\n",
        status: 10,
        put: "s SATISFIABLE\nv 1 2 0\n",
        ..NOTHING
    },
    Row {
        label: "comments anywhere",
        formula: "c p cnf 9 9\np cnf 2 3\nc 0\n1 -2\nc -1 0\n0 2 0\nc\n-1 2 0\nc end",
        status: 10,
        put: "s SATISFIABLE\nv 1 2 0\n",
        ..NOTHING
    },
    Row {
        label: "clauses over lines and on one",
        formula: "p cnf 3 4\n1\n2\n0 -1 0 -2\n3 0 -3 0",
        status: 20,
        put: "s UNSATISFIABLE\n",
        ..NOTHING
    },
    Row {
        label: "CRLF",
        formula: "p cnf 2 2\r\n-1 0\r\n-2 0\r\n",
        status: 10,
        put: "s SATISFIABLE\nv -1 -2 0\n",
        ..NOTHING
    },
    Row {
        label: "tabs and spaces",
        formula: "  p\tcnf  1 \t1  \n\t -1\t0 ",
        status: 10,
        put: "s SATISFIABLE\nv -1 0\n",
        ..NOTHING
    },
    Row {
        label: "no variables and no clauses",
        formula: "p cnf 0 0\n",
        status: 10,
        put: "s SATISFIABLE\nv 0\n",
        ..NOTHING
    },
    Row {
        label: "the empty clause",
        formula: "p cnf 0 1\n0\n",
        status: 20,
        put: "s UNSATISFIABLE\n",
        ..NOTHING
    },
    Row {
        label: "leading zeros",
        formula: "p cnf 02 2\n001 0\n-02 0\n",
        status: 10,
        put: "s SATISFIABLE\nv 1 -2 0\n",
        ..NOTHING
    },
    Row {
        label: "a variable both ways",
        formula: "p cnf 1 2\n1 0\n-1 0\n",
        status: 20,
        put: "s UNSATISFIABLE\n",
        ..NOTHING
    },
    Row {
        label: "pigeons 4 into 3",
        formula: PIGEONS,
        status: 20,
        put: "s UNSATISFIABLE\n",
        ..NOTHING
    },
    Row {
        label: "pigeons without a conflict allowed",
        words: &["--conflicts", "0"],
        formula: PIGEONS,
        status: 0,
        put: "s UNKNOWN\n",
        ..NOTHING
    },
    Row {
        label: "a limit that is enough",
        words: &["--conflicts", "18446744073709551615"],
        formula: PIGEONS,
        status: 20,
        put: "s UNSATISFIABLE\n",
        ..NOTHING
    },
];

/// Rows of texts that are no formula by their headers.
const NO_HEADERS: &[Row] = &[
    Row {
        label: "no text",
        status: 3,
        said: "formula refused: NoHeader at line 1\n",
        ..NOTHING
    },
    Row {
        label: "no header",
        formula: "c\n\n1 0\n",
        status: 3,
        said: "formula refused: NoHeader at line 3\n",
        ..NOTHING
    },
    Row {
        label: "only comments",
        formula: "c only comments\n",
        status: 3,
        said: "formula refused: NoHeader at line 2\n",
        ..NOTHING
    },
    Row {
        label: "three words",
        formula: "p cnf 1\n",
        status: 3,
        said: "formula refused: BadHeader at line 1\n",
        ..NOTHING
    },
    Row {
        label: "another format",
        formula: "p sat 1 1\n1 0\n",
        status: 3,
        said: "formula refused: BadHeader at line 1\n",
        ..NOTHING
    },
    Row {
        label: "a clause on the header line",
        formula: "p cnf 1 1 1 0\n",
        status: 3,
        said: "formula refused: BadHeader at line 1\n",
        ..NOTHING
    },
    Row {
        label: "a negative count",
        formula: "p cnf -1 1\n1 0\n",
        status: 3,
        said: "formula refused: BadHeader at line 1\n",
        ..NOTHING
    },
    Row {
        label: "many variables",
        formula: "p cnf 1073741825 0\n",
        status: 3,
        said: "formula refused: LargeHeader at line 1\n",
        ..NOTHING
    },
    Row {
        label: "many clauses",
        formula: "p cnf 0 99999999999999999999999\n",
        status: 3,
        said: "formula refused: LargeHeader at line 1\n",
        ..NOTHING
    },
];

/// Rows of texts that are no formula by their clauses.
const NO_CLAUSES: &[Row] = &[
    Row {
        label: "SecondHeader",
        formula: "p cnf 1 1\nc\np cnf 1 1\n1 0\n",
        status: 3,
        said: "formula refused: SecondHeader at line 3\n",
        ..NOTHING
    },
    Row {
        label: "PercentSign",
        formula: "p cnf 1 1\n1 0\n%\n0\n",
        status: 3,
        said: "formula refused: PercentSign at line 3\n",
        ..NOTHING
    },
    Row {
        label: "NoNumber",
        formula: "p cnf 1 1\n1 x 0\n",
        status: 3,
        said: "formula refused: NoNumber at line 2\n",
        ..NOTHING
    },
    Row {
        label: "minus zero",
        formula: "p cnf 1 1\n-0\n",
        status: 3,
        said: "formula refused: NoNumber at line 2\n",
        ..NOTHING
    },
    Row {
        label: "a comment behind a clause",
        formula: "p cnf 1 1\n1 0 c\n",
        status: 3,
        said: "formula refused: NoNumber at line 2\n",
        ..NOTHING
    },
    Row {
        label: "LargeVariable",
        formula: "p cnf 1 1\n-2 0\n",
        status: 3,
        said: "formula refused: LargeVariable at line 2\n",
        ..NOTHING
    },
    Row {
        label: "a variable above 2^64",
        formula: "p cnf 1 1\n18446744073709551617 0\n",
        status: 3,
        said: "formula refused: LargeVariable at line 2\n",
        ..NOTHING
    },
    Row {
        label: "TooManyClauses",
        formula: "p cnf 1 1\n1 0\n1 0",
        status: 3,
        said: "formula refused: TooManyClauses at line 3\n",
        ..NOTHING
    },
    Row {
        label: "TooFewClauses",
        formula: "p cnf 1 2\n1 0\n",
        status: 3,
        said: "formula refused: TooFewClauses at line 3\n",
        ..NOTHING
    },
    Row {
        label: "OpenClause",
        formula: "p cnf 1 1\n1 0\n1",
        status: 3,
        said: "formula refused: OpenClause at line 3\n",
        ..NOTHING
    },
];

/// Rows of what is said of proofs.
const PROOFS: &[Row] = &[
    Row {
        label: "a proof by cadical",
        words: &["--proof", "FILE"],
        formula: PIGEONS,
        proof: PROOF,
        status: 20,
        put: "s UNSATISFIABLE\n",
        ..NOTHING
    },
    Row {
        label: "a proof with comments and deletions",
        words: &["--proof", "FILE"],
        formula: PIGEONS,
        proof: "c by cadical\nd 1 99 0\n-11 -12 0\n-7 -12 0\n-12 0\n-8 0\n-7 0\n9 0\n-3 0\n-6 0\n-1 0\n2 0\n-5 0\n-11 0\n4 0\n10 0\n0\n",
        status: 20,
        put: "s UNSATISFIABLE\n",
        ..NOTHING
    },
    Row {
        label: "a proof cut off",
        words: &["--proof", "FILE"],
        formula: PIGEONS,
        proof: "-11 -12 0\n",
        status: 0,
        put: "s UNKNOWN\n",
        said: "proof refused: incomplete\n",
        ..NOTHING
    },
    Row {
        label: "no proof",
        words: &["--proof", "FILE"],
        formula: PIGEONS,
        status: 0,
        put: "s UNKNOWN\n",
        said: "proof refused: incomplete\n",
        ..NOTHING
    },
    Row {
        label: "a step that does not follow",
        words: &["--proof", "FILE"],
        formula: PIGEONS,
        proof: "-11 -12 0\n1 0\n0\n",
        status: 0,
        put: "s UNKNOWN\n",
        said: "proof refused: step 2\n",
        ..NOTHING
    },
    Row {
        label: "the empty clause at once",
        words: &["--proof", "FILE"],
        formula: PIGEONS,
        proof: "0\n",
        status: 0,
        put: "s UNKNOWN\n",
        said: "proof refused: step 1\n",
        ..NOTHING
    },
    Row {
        label: "no step",
        words: &["--proof", "FILE"],
        formula: PIGEONS,
        proof: "-11 -12 0\nx 0\n",
        status: 0,
        put: "s UNKNOWN\n",
        said: "proof refused: BadStep at line 2\n",
        ..NOTHING
    },
    Row {
        label: "a deletion inside a step",
        words: &["--proof", "FILE"],
        formula: PIGEONS,
        proof: "1 d 2 0\n",
        status: 0,
        put: "s UNKNOWN\n",
        said: "proof refused: BadStep at line 1\n",
        ..NOTHING
    },
    Row {
        label: "a step without its 0",
        words: &["--proof", "FILE"],
        formula: PIGEONS,
        proof: "1",
        status: 0,
        put: "s UNKNOWN\n",
        said: "proof refused: BadStep at line 1\n",
        ..NOTHING
    },
    Row {
        label: "a proof of what has a solution",
        words: &["--proof", "FILE"],
        formula: "p cnf 1 1\n1 0\n",
        proof: "-1 0\n0\n",
        status: 0,
        put: "s UNKNOWN\n",
        said: "proof refused: step 1\n",
        ..NOTHING
    },
    Row {
        label: "a formula refused before its proof",
        words: &["--proof", "FILE"],
        formula: "p cnf 1 1\n",
        proof: "0\n",
        status: 3,
        said: "formula refused: TooFewClauses at line 2\n",
        ..NOTHING
    },
];

/// Rows of words that ask for a text or are no command.
const WORDS: &[Row] = &[
    Row {
        label: "all",
        words: &["all"],
        ..USAGE
    },
    Row {
        label: "--conflicts",
        words: &["--conflicts"],
        ..USAGE
    },
    Row {
        label: "--conflicts -1",
        words: &["--conflicts", "-1"],
        ..USAGE
    },
    Row {
        label: "--conflicts 18446744073709551616",
        words: &["--conflicts", "18446744073709551616"],
        ..USAGE
    },
    Row {
        label: "--conflicts 1 --proof",
        words: &["--conflicts", "1", "--proof"],
        ..USAGE
    },
    Row {
        label: "--proof",
        words: &["--proof"],
        ..USAGE
    },
    Row {
        label: "help",
        words: &["-h"],
        put: HELP,
        ..NOTHING
    },
    Row {
        label: "version",
        words: &["--version"],
        status: 0,
        put: "smtsat 0.1.0 (rattle-kit-13f logic dac8208d650f15bf)\n",
        ..NOTHING
    },
    Row {
        label: "--proofs FILE",
        words: &["--proofs", "FILE"],
        ..USAGE
    },
    Row {
        label: "--version twice",
        words: &["--version", "--version"],
        ..USAGE
    },
    Row {
        label: "words are judged before a source is read",
        words: &["--version", "--help"],
        source_fails: 1,
        ..USAGE
    },
];

/// Rows of sources and sinks that fail.
const FAULTS: &[Row] = &[
    Row {
        label: "a source that fails",
        source_fails: 1,
        ..SOURCE_FAULT
    },
    Row {
        label: "a source that fails at its end",
        source_fails: 2,
        ..SOURCE_FAULT
    },
    Row {
        label: "a source that fails before the proof is read",
        words: &["--proof", "FILE"],
        source_fails: 1,
        ..SOURCE_FAULT
    },
    Row {
        label: "a proof source that fails",
        words: &["--proof", "FILE"],
        proof_fails: 1,
        ..SOURCE_FAULT
    },
    Row {
        label: "a proof source that fails at its end",
        words: &["--proof", "FILE"],
        proof_fails: 2,
        ..SOURCE_FAULT
    },
    Row {
        label: "a formula is refused before a proof source fails",
        words: &["--proof", "FILE"],
        formula: "p cnf 1 1\n",
        proof_fails: 1,
        status: 3,
        said: "formula refused: TooFewClauses at line 2\n",
        ..NOTHING
    },
    Row {
        label: "a search reads no proof",
        formula: PIGEONS,
        proof_fails: 1,
        status: 20,
        put: "s UNSATISFIABLE\n",
        ..NOTHING
    },
    Row {
        label: "a sink that fails at truths",
        formula: "p cnf 1 1\n1 0\n",
        out_fails: 1,
        ..SINK_FAULT
    },
    Row {
        label: "a sink that fails at a proof's verdict",
        words: &["--proof", "FILE"],
        formula: PIGEONS,
        proof: PROOF,
        out_fails: 1,
        ..SINK_FAULT
    },
    Row {
        label: "a sink that fails where a proof is refused",
        words: &["--proof", "FILE"],
        formula: PIGEONS,
        out_fails: 1,
        ..SINK_FAULT
    },
    Row {
        label: "a sink that fails at the version",
        words: &["--version"],
        out_fails: 1,
        ..SINK_FAULT
    },
    Row {
        label: "a sink without room",
        formula: "p cnf 1 1\n1 0\n",
        room: 0,
        ..SINK_FAULT
    },
    Row {
        label: "a sink with room for a part",
        formula: "p cnf 1 1\n1 0\n",
        room: 16,
        put: "s SATISFIABLE\nv ",
        ..SINK_FAULT
    },
    Row {
        label: "a sink with just the room",
        formula: "p cnf 1 1\n1 0\n",
        room: 20,
        status: 10,
        put: "s SATISFIABLE\nv 1 0\n",
        ..NOTHING
    },
];

/// Stops the test where a run ends otherwise, and names it.
fn expect_row(rt: &impl Abort, alloc: Global, row: &Row) {
    let words = texts_of(alloc, row.words).expect(rt, AMPLE);
    let (formula, proof) = (row.formula.as_bytes(), row.proof.as_bytes());
    let mut source = MemorySource::new(alloc, formula, &[row.source_fails]).expect(rt, AMPLE);
    let mut proof = MemorySource::new(alloc, proof, &[row.proof_fails]).expect(rt, AMPLE);
    let mut out = MemorySink::new(alloc, &[row.out_fails], row.room).expect(rt, AMPLE);
    let mut diag = ListSink::new(alloc);
    let status = sat_run(
        alloc,
        words.as_slice(),
        &mut source,
        &mut proof,
        &mut out,
        &mut diag,
    );
    expect_status(rt, row.label, status, row.status);
    expect_bytes(rt, row.label, out.bytes(), row.put.as_bytes());
    expect_bytes(rt, row.label, diag.bytes(), row.said.as_bytes());
}

/// The same of each row.
fn expect_rows(rt: &impl Abort, alloc: Global, rows: &[Row]) {
    for row in rows {
        expect_row(rt, alloc, row);
    }
}

#[test]
fn searches_are_run(rt: HostRuntime) {
    expect_rows(&rt, rt.alloc(), SEARCHES);
}

#[test]
fn no_headers_are_run(rt: HostRuntime) {
    expect_rows(&rt, rt.alloc(), NO_HEADERS);
}

#[test]
fn no_clauses_are_run(rt: HostRuntime) {
    expect_rows(&rt, rt.alloc(), NO_CLAUSES);
}

#[test]
fn proofs_are_run(rt: HostRuntime) {
    expect_rows(&rt, rt.alloc(), PROOFS);
}

#[test]
fn words_are_run(rt: HostRuntime) {
    expect_rows(&rt, rt.alloc(), WORDS);
}

#[test]
fn faults_are_run(rt: HostRuntime) {
    expect_rows(&rt, rt.alloc(), FAULTS);
}
