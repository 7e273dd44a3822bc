//! Questions to sessions in hand, over links in memory.

use crate::expected::{expect, expect_bytes};
use smt_pool::ask_script;
use smt_solve::{Decision, LocalSolver, MemoryLink};
use std::alloc::Global;
use std::process::Abort;
use test_words::AMPLE;

/// The script of `b` and `not b`, as an encoder writes it.
const SCRIPT: &[u8] = b"\
(declare-datatype Option (par (X) (
  (none)
  (some (val X)))))
; \"b\"
(declare-const t0 Bool)
(define-fun t1 () Bool (not t0))
(assert t0)
(assert t1)
";

/// What a solver is sent with the question about it.
const ASKED: &[u8] = b"\
(set-logic ALL)
(declare-datatype Option (par (X) (
  (none)
  (some (val X)))))
; \"b\"
(declare-const t0 Bool)
(define-fun t1 () Bool (not t0))
(assert t0)
(assert t1)
(check-sat)
";

/// What a solver answers, and the decision.
const ANSWERS: &[(&str, Option<Decision>)] = &[
    ("unsat\n", Some(Decision::Unsat)),
    (" sat\r\n", Some(Decision::Sat)),
    ("unknown\n", Some(Decision::Unknown)),
    ("(error \"boom\")\n", None),
];

/// Asks a solver that answers with these bytes, and stops the test where the decision or what was sent is another.
fn expect_asked(rt: &impl Abort, alloc: Global, answers: &str, wanted: Option<Decision>) {
    let link = MemoryLink::new(alloc, answers.as_bytes(), &[], None).expect(rt, AMPLE);
    let mut session = LocalSolver::new(alloc, link);
    let answer = ask_script(SCRIPT, &mut session);
    expect(rt, session.is_failed() == answer.is_err(), answers);
    expect(rt, answer.ok() == wanted, answers);
    expect_bytes(rt, answers, session.link().sent(), ASKED);
}

#[test]
fn a_session_in_hand_is_asked(rt: HostRuntime) {
    for &(answers, wanted) in ANSWERS {
        expect_asked(&rt, rt.alloc(), answers, wanted);
    }
}

#[test]
fn a_marked_session_is_sent_nothing(rt: HostRuntime) {
    let alloc = rt.alloc();
    let link = MemoryLink::new(alloc, b"unsat\n", &[], None).expect(&rt, AMPLE);
    let mut session = LocalSolver::new(alloc, link);
    session.mark_failed();
    let answer = ask_script(SCRIPT, &mut session);
    expect(&rt, answer.is_err(), "the answer of a marked session");
    expect_bytes(&rt, "sent", session.link().sent(), b"");
}
