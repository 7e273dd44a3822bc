//! Whole runs of the program that blasts: the scripts that it prints, and why it prints none.

use crate::ends::{End, expect_end, run_with};
use crate::expected::expect_bytes;
use smt_blast::blast_run;
use smt_solve::Link;
use smt_stream::MiniLink;
use std::alloc::Global;
use std::process::Abort;
use test_words::{AMPLE, texts_of};

/// A run, and how it ends.
struct Row {
    words: &'static [&'static str],
    job: &'static str,
    status: u8,
    put: &'static str,
    said: &'static str,
}

/// A run without words that is done.
const DONE: Row = Row {
    words: &[],
    job: "",
    status: 0,
    put: "",
    said: "",
};

/// Runs, with the script that the standard's meaning of the operators asks for.
const ROWS: &[Row] = &[
    Row {
        job: "(job (enums) (vars (\"b\" Bool)) (funs) (terms (not (var \"b\"))))",
        put: "\
(declare-datatype Option (par (X) (
  (none)
  (some (val X)))))
; \"v0\"
(declare-const t0 Bool)
(define-fun t1 () Bool (not t0))
(assert t1)
",
        ..DONE
    },
    // The variable that is met first has the number 0, and a bitvector's bits come from the lowest.
    Row {
        job: "(job (enums) (vars (\"x\" (BitVec 2)) (\"y\" (BitVec 2))) (funs) (terms (eq (var \"y\") (var \"x\"))))",
        put: "\
(declare-datatype Option (par (X) (
  (none)
  (some (val X)))))
; \"v0_0\"
(declare-const t0 Bool)
; \"v1_0\"
(declare-const t1 Bool)
(define-fun t2 () Bool (= t0 t1))
; \"v0_1\"
(declare-const t3 Bool)
; \"v1_1\"
(declare-const t4 Bool)
(define-fun t5 () Bool (= t3 t4))
(define-fun t6 () Bool (and t2 t5))
(assert t6)
",
        ..DONE
    },
    // What is no longer current is not blasted, and not refused.
    Row {
        job: "(job (enums) (vars (\"s\" String)) (funs) (steps (push) (assert (eq (var \"s\") \"a\")) (pop) (check)))",
        put: "\
(declare-datatype Option (par (X) (
  (none)
  (some (val X)))))
",
        ..DONE
    },
    Row {
        job: "(job (enums) (vars (\"x\" (BitVec 8))) (funs) (terms (eq (bvmul (var \"x\") (var \"x\")) (bv 8 1))))",
        status: 10,
        said: "blast refused: Unsupported\n",
        ..DONE
    },
    Row {
        job: "(job (enums) (vars (\"s\" String)) (funs) (terms (eq (var \"s\") \"a\")))",
        status: 10,
        said: "blast refused: UnsupportedType\n",
        ..DONE
    },
    Row {
        job: "(job",
        status: 3,
        said: "job refused: Parse\n",
        ..DONE
    },
    Row {
        words: &["all"],
        status: 2,
        said: "usage: smtblast\n",
        ..DONE
    },
];

/// Runs the program on a job.
fn end_of(rt: &impl Abort, alloc: Global, words: &[&str], job: &str) -> End {
    let words = texts_of(alloc, words).expect(rt, AMPLE);
    run_with(rt, alloc, job.as_bytes(), |source, out, diag| {
        blast_run(alloc, words.as_slice(), source, out, diag)
    })
}

#[test]
fn blasts_end_as_they_should(rt: HostRuntime) {
    let alloc = rt.alloc();
    for row in ROWS {
        let end = end_of(&rt, alloc, row.words, row.job);
        expect_end(&rt, row.job, &end, row.status, row.put, row.said);
    }
}

/// What a small solver answers to these lines behind a job's blasted script.
pub(crate) fn expect_answer(rt: &impl Abort, alloc: Global, job: &str, lines: &str, wanted: &str) {
    let end = end_of(rt, alloc, &[], job);
    let mut link = MiniLink::new(alloc);
    link.send(end.out.bytes()).expect(rt, AMPLE);
    link.send(lines.as_bytes()).expect(rt, AMPLE);
    expect_bytes(rt, job, link.answers(), wanted.as_bytes());
}

/// A sum is zero where both bits are one, and nowhere else.
#[test]
fn a_sum_has_one_model(rt: HostRuntime) {
    let alloc = rt.alloc();
    let job =
        "(job (enums) (vars (\"x\" (BitVec 2))) (funs) (terms (eq (bvadd (var \"x\") (bv 2 1)) (bv 2 0))))";
    // The bits are named `t0` and `t4`, as their comments say.
    let both =
        "(push 1)(assert (and t0 t4))(check-sat)(pop 1)(assert (not (and t0 t4)))(check-sat)";
    expect_answer(&rt, alloc, job, both, "sat\nunsat\n");
}
