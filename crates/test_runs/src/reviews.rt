//! Whole runs of reviews, over a starter in memory and over small solvers.

use crate::ends::{End, expect_end, run_with, sent_by};
use crate::expected::{expect, expect_bytes, expect_count};
use smt_review::review_run;
use smt_solve::{LinkList, MemoryLink, MemoryStarter, Starter};
use smt_stream::MiniStarter;
use std::alloc::Global;
use std::process::Abort;
use test_words::{AMPLE, texts_of};

/// A run, and how it ends.
struct Row {
    relation: &'static str,
    job: &'static str,
    /// The bytes that the solver answers.
    answers: &'static [u8],
    /// Which start is to fail, 0 for none.
    start_fails: u64,
    status: u8,
    put: &'static str,
    said: &'static str,
    /// What the link was sent that came back, where one did.
    sent: Option<&'static [u8]>,
}

/// A condition, and what De Morgan makes of it.
const DE_MORGAN: &str =
    "(job (enums) (vars (\"a\" Bool) (\"b\" Bool)) (funs) (terms (not (and (var \"a\") (var \"b\"))) (or (not (var \"a\")) (not (var \"b\")))))";

/// Two conditions that have nothing to do with one another.
const TWO: &str =
    "(job (enums) (vars (\"a\" Bool) (\"b\" Bool)) (funs) (terms (var \"a\") (var \"b\")))";

/// A review of them that finds nothing and was not begun.
const NOTHING: Row = Row {
    relation: "equivalent",
    job: TWO,
    answers: b"",
    start_fails: 0,
    status: 0,
    put: "",
    said: "",
    sent: None,
};

/// Runs, with what SMT-LIB and the words say of them.
const ROWS: &[Row] = &[
    Row {
        job: DE_MORGAN,
        answers: b"unsat\n",
        put: "holds\n",
        sent: Some(
            b"\
(set-logic ALL)
(declare-datatype Option (par (X) (
  (none)
  (some (val X)))))
; \"a\"
(declare-const t0 Bool)
; \"b\"
(declare-const t1 Bool)
(define-fun t2 () Bool (and t0 t1))
(define-fun t3 () Bool (not t2))
(define-fun t4 () Bool (not t0))
(define-fun t5 () Bool (not t1))
(define-fun t6 () Bool (or t4 t5))
(define-fun t7 () Bool (= t3 t6))
(define-fun t8 () Bool (not t7))
(assert t8)
(check-sat)
(reset)
",
        ),
        ..NOTHING
    },
    // What implies itself has no difference.
    Row {
        relation: "implies",
        job: "(job (enums) (vars (\"a\" Bool)) (funs) (steps (assert (var \"a\") (var \"a\"))))",
        answers: b"unknown\n",
        put: "unknown\n",
        sent: Some(
            b"\
(set-logic ALL)
(declare-datatype Option (par (X) (
  (none)
  (some (val X)))))
(assert false)
(check-sat)
(reset)
",
        ),
        ..NOTHING
    },
    // Where the first is true and the second is not, the first does not imply it.
    Row {
        relation: "implies",
        answers: b"sat\n",
        put: "fails\n",
        sent: Some(
            b"\
(set-logic ALL)
(declare-datatype Option (par (X) (
  (none)
  (some (val X)))))
; \"a\"
(declare-const t0 Bool)
; \"b\"
(declare-const t1 Bool)
(define-fun t2 () Bool (not t1))
(define-fun t3 () Bool (and t0 t2))
(assert t3)
(check-sat)
(reset)
",
        ),
        ..NOTHING
    },
    Row {
        relation: "disjoint",
        answers: b"sat\n",
        put: "fails\n",
        sent: Some(
            b"\
(set-logic ALL)
(declare-datatype Option (par (X) (
  (none)
  (some (val X)))))
; \"a\"
(declare-const t0 Bool)
; \"b\"
(declare-const t1 Bool)
(define-fun t2 () Bool (and t0 t1))
(assert t2)
(check-sat)
(reset)
",
        ),
        ..NOTHING
    },
    // A job of one term, and one that checks.
    Row {
        job: "(job (enums) (vars) (funs) (terms true))",
        status: 3,
        said: "job refused: NotTwo\n",
        ..NOTHING
    },
    Row {
        job: "(job (enums) (vars) (funs) (steps (assert true true) (check)))",
        status: 3,
        said: "job refused: NotTwo\n",
        ..NOTHING
    },
    Row {
        job: "(job",
        status: 3,
        said: "job refused: Parse\n",
        ..NOTHING
    },
    // The difference speaks of an enum type without members.
    Row {
        relation: "disjoint",
        job: "(job (enums (\"Empty\")) (vars (\"e\" (Entity \"Empty\")) (\"f\" (Entity \"Empty\"))) (funs) (terms (eq (var \"e\") (var \"f\")) true))",
        status: 4,
        said: "encode refused: EmptyEnum\n",
        sent: Some(b"(set-logic ALL)\n"),
        ..NOTHING
    },
    Row {
        start_fails: 1,
        status: 9,
        said: "no start\n",
        ..NOTHING
    },
    Row {
        job: "(job (enums) (vars) (funs) (terms true true))",
        answers: b"maybe\n",
        status: 8,
        said: "session fault: UnrecognizedSolverOutput\n",
        sent: Some(
            b"\
(set-logic ALL)
(declare-datatype Option (par (X) (
  (none)
  (some (val X)))))
(assert false)
(check-sat)
",
        ),
        ..NOTHING
    },
    Row {
        relation: "similar",
        status: 2,
        said: "usage: smtreview equivalent or implies or disjoint PATH ARGS..\n",
        ..NOTHING
    },
];

/// Runs a review over a starter.
fn end_of<P: Starter>(
    rt: &impl Abort,
    alloc: Global,
    relation: &str,
    job: &str,
    starter: &mut P,
) -> End {
    let words = texts_of(alloc, &[relation, "cvc5"]).expect(rt, AMPLE);
    run_with(rt, alloc, job.as_bytes(), |source, out, diag| {
        review_run(alloc, words.as_slice(), source, out, diag, starter)
    })
}

/// A starter of one link to a solver that answers as the row says.
fn starter_of(rt: &impl Abort, alloc: Global, row: &Row) -> MemoryStarter {
    let mut links = LinkList::new(alloc);
    let link = MemoryLink::new(alloc, row.answers, &[], None).expect(rt, AMPLE);
    links.push(link).expect(rt, AMPLE);
    MemoryStarter::new(alloc, links, &[row.start_fails]).expect(rt, AMPLE)
}

#[test]
fn reviews_end_as_they_should(rt: HostRuntime) {
    let alloc = rt.alloc();
    for row in ROWS {
        let mut starter = starter_of(&rt, alloc, row);
        let end = end_of(&rt, alloc, row.relation, row.job, &mut starter);
        expect_end(&rt, row.job, &end, row.status, row.put, row.said);
        expect(&rt, sent_by(&starter) == row.sent, row.job);
    }
}

/// Each relation of two terms over `a` and `b`, and what a small solver finds.
const FINDINGS: &[(&str, &str, &str)] = &[
    (
        "equivalent",
        "(not (and (var \"a\") (var \"b\"))) (or (not (var \"a\")) (not (var \"b\")))",
        "holds\n",
    ),
    ("equivalent", "(var \"a\") (var \"b\")", "fails\n"),
    (
        "implies",
        "(and (var \"a\") (var \"b\")) (var \"a\")",
        "holds\n",
    ),
    (
        "implies",
        "(var \"a\") (and (var \"a\") (var \"b\"))",
        "fails\n",
    ),
    (
        "disjoint",
        "(var \"a\") (and (var \"b\") (not (var \"a\")))",
        "holds\n",
    ),
    ("disjoint", "(var \"a\") (var \"b\")", "fails\n"),
];

#[test]
fn small_solvers_review_jobs(rt: HostRuntime) {
    let alloc = rt.alloc();
    for (relation, terms, finding) in FINDINGS {
        let job = format!(in alloc;
            "(job (enums) (vars (\"a\" Bool) (\"b\" Bool)) (funs) (terms {terms}))"
        ).expect(&rt, AMPLE);
        let mut starter = MiniStarter::new(alloc);
        let end = end_of(&rt, alloc, relation, job.as_str(), &mut starter);
        expect_bytes(&rt, terms, end.out.bytes(), finding.as_bytes());
        expect_count(&rt, terms, starter.returned().len(), 1);
    }
}
