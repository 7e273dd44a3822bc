// Whole runs of `check` on jobs of steps: each check is answered, and what was answered before a run is refused stays put.
use crate::checks::{BEFORE, Check, UNSAT, end_of, end_with, expect_row, starter_of};
use crate::ends::{run_with, sent_by};
use crate::expected::{expect, expect_bytes, expect_status};
use crate::runs::{StuckWriter, run_held};
use smt_cli::run;
use smt_solve::MemoryStarter;
use smt_stream::MiniStarter;
use std::alloc::Global;
use std::process::Abort;
use test_words::{AMPLE, texts_of};

/// A job that asks about `b`, and then about `b` and `not b`.
const LEVELS: &str =
    "(job (enums) (vars (\"b\" Bool)) (funs) (steps (assert (var \"b\")) (check) (push) (assert (not (var \"b\"))) (check) (pop)))";

/// What a solver is sent in that job up to its first check.
const ASKED_ONCE: &[u8] = b"\
(set-logic ALL)
(declare-datatype Option (par (X) (
  (none)
  (some (val X)))))
; \"b\"
(declare-const t0 Bool)
(assert t0)
(check-sat)
";

/// The same, with the lines of the level behind it.
const OPENED: &[u8] = b"\
(set-logic ALL)
(declare-datatype Option (par (X) (
  (none)
  (some (val X)))))
; \"b\"
(declare-const t0 Bool)
(assert t0)
(check-sat)
(push 1)
(define-fun t1 () Bool (not t0))
(assert t1)
";

/// The same, with the second check.
const ASKED_TWICE: &[u8] = b"\
(set-logic ALL)
(declare-datatype Option (par (X) (
  (none)
  (some (val X)))))
; \"b\"
(declare-const t0 Bool)
(assert t0)
(check-sat)
(push 1)
(define-fun t1 () Bool (not t0))
(assert t1)
(check-sat)
";

/// The same, with the level's end.
const CLOSED: &[u8] = b"\
(set-logic ALL)
(declare-datatype Option (par (X) (
  (none)
  (some (val X)))))
; \"b\"
(declare-const t0 Bool)
(assert t0)
(check-sat)
(push 1)
(define-fun t1 () Bool (not t0))
(assert t1)
(check-sat)
(pop 1)
";

/// A run on that job in which nothing fails.
const BOTH: Check = Check {
    job: LEVELS,
    answers: b"sat\nunsat\n",
    put: "sat\nunsat\n",
    sent: Some(CLOSED),
    ..UNSAT
};

/// A run on that job whose second check is not answered by a verdict.
const SECOND_FAILS: Check = Check {
    status: 8,
    put: "sat\n",
    said: "session fault: Solver\n",
    sent: Some(ASKED_TWICE),
    ..BOTH
};

/// A run on that job in which a call of the link fails.
const LINK_FAILS: Check = Check {
    said: "session fault: Io\n",
    ..SECOND_FAILS
};

/// A run on that job in which `out` fails.
const OUT_FAILS: Check = Check {
    status: 6,
    said: "sink fault\n",
    ..SECOND_FAILS
};

/// How checks of that job end.
const LEVEL_CHECKS: &[Check] = &[
    BOTH,
    Check {
        answers: b"unknown\n unsat \r\nsat\n",
        put: "unknown\nunsat\n",
        ..BOTH
    },
    // The answers end without a line feed.
    Check {
        answers: b"sat\nunsat",
        ..BOTH
    },
    Check {
        answers: b"sat\n(error \"boom\")\n",
        ..SECOND_FAILS
    },
    Check {
        answers: b"sat\n",
        ..SECOND_FAILS
    },
    Check {
        answers: b"sat",
        ..SECOND_FAILS
    },
    Check {
        answers: b"sat\nhm\n",
        said: "session fault: UnrecognizedSolverOutput\n",
        ..SECOND_FAILS
    },
    Check {
        answers: b"sat\n\xff\n",
        ..LINK_FAILS
    },
    Check {
        answers: b"(error \"boom\")\nsat\n",
        put: "",
        sent: Some(ASKED_ONCE),
        ..SECOND_FAILS
    },
    // The logic is sent, then for each check what stands before it, with four calls that ask and are answered, and last the
    // level's end.
    Check {
        link_fails: 7,
        sent: Some(ASKED_ONCE),
        ..LINK_FAILS
    },
    Check {
        link_fails: 9,
        sent: Some(OPENED),
        ..LINK_FAILS
    },
    Check {
        link_fails: 11,
        ..LINK_FAILS
    },
    Check {
        link_fails: 12,
        put: "sat\nunsat\n",
        ..LINK_FAILS
    },
    // A word is put before the next check.
    Check {
        out_fails: 1,
        put: "",
        sent: Some(ASKED_ONCE),
        ..OUT_FAILS
    },
    Check {
        out_fails: 2,
        ..OUT_FAILS
    },
];

#[test]
fn checks_of_levels_are_answered_in_order(rt: HostRuntime) {
    let alloc = rt.alloc();
    for row in LEVEL_CHECKS {
        expect_row(&rt, &end_of(&rt, alloc, row), row);
    }
}

/// The words are held back until they are handed on, which fails behind the first.
#[test]
fn a_word_is_handed_on_before_more_is_asked(rt: HostRuntime) {
    let alloc = rt.alloc();
    let mut writer = StuckWriter {
        bytes: Vec::new(alloc),
    };
    let mut starter = starter_of(&rt, alloc, &BOTH, BOTH.answers);
    let words = ["check", "cvc5"];
    let (status, said) = run_held(&rt, alloc, &words, LEVELS, &mut writer, &mut starter);
    expect_status(&rt, "a word that is not handed on", status, 6);
    expect_bytes(&rt, "said", said.as_slice(), b"sink fault\n");
    expect_bytes(&rt, "the first word", writer.bytes.as_slice(), b"sat\n");
    let is_sent = sent_by(&starter) == Some(ASKED_ONCE);
    expect(&rt, is_sent, "no second check");
}

/// A run of steps that are not answered.
const UNASKED: Check = Check {
    answers: b"",
    put: "",
    ..UNSAT
};

/// A run of two checks.
const TWO: Check = Check {
    answers: b"sat\nunknown\n",
    put: "sat\nunknown\n",
    ..UNSAT
};

/// How other jobs of steps end.
const STEP_CHECKS: &[Check] = &[
    // No step writes nothing, not even the datatype `Option`.
    Check {
        job: "(job (enums) (vars) (funs) (steps))",
        sent: Some(b"(set-logic ALL)\n"),
        ..UNASKED
    },
    // A job of steps is asked only where it says so.
    Check {
        job: "(job (enums) (vars) (funs) (steps (assert true)))",
        sent: Some(BEFORE),
        ..UNASKED
    },
    Check {
        job: "(job (enums) (vars) (funs) (steps (check) (assert true) (check)))",
        sent: Some(
            b"\
(set-logic ALL)
(check-sat)
(declare-datatype Option (par (X) (
  (none)
  (some (val X)))))
(assert true)
(check-sat)
",
        ),
        ..TWO
    },
    Check {
        job: "(job (enums) (vars) (funs) (steps (assert true) (check) (check)))",
        sent: Some(
            b"\
(set-logic ALL)
(declare-datatype Option (par (X) (
  (none)
  (some (val X)))))
(assert true)
(check-sat)
(check-sat)
",
        ),
        ..TWO
    },
    // Levels may stay open.
    Check {
        job: "(job (enums) (vars) (funs) (steps (push) (assert) (check) (push) (assert true) (check)))",
        sent: Some(
            b"\
(set-logic ALL)
(declare-datatype Option (par (X) (
  (none)
  (some (val X)))))
(push 1)
(check-sat)
(push 1)
(assert true)
(check-sat)
",
        ),
        ..TWO
    },
    // The whole job is read before the solver is started.
    Check {
        job: "(job (enums) (vars) (funs) (steps (assert true) (check) (pop)))",
        status: 3,
        said: "job refused: Unbalanced\n",
        sent: None,
        ..UNASKED
    },
    Check {
        job: LEVELS,
        start_fails: 1,
        status: 9,
        said: "no start\n",
        sent: None,
        ..UNASKED
    },
];

#[test]
fn checks_of_steps_end_as_they_should(rt: HostRuntime) {
    let alloc = rt.alloc();
    for row in STEP_CHECKS {
        expect_row(&rt, &end_of(&rt, alloc, row), row);
    }
}

/// A run on a job whose third assertion names no member of its enum type. It stands behind two checks.
const LATE_FAULT: Check = Check {
    job: "(job (enums (\"T\" \"a\")) (vars (\"x\" (Entity \"T\"))) (funs) (steps (assert true) (check) (assert) (check) (push) (assert (eq (var \"x\") (entity \"T\" \"b\"))) (pop) (check)))",
    answers: b"sat\nsat\nsat\n",
    status: 4,
    put: "sat\nsat\n",
    said: "encode refused: EnumMissingMember\n",
    sent: Some(
        b"\
(set-logic ALL)
(declare-datatype Option (par (X) (
  (none)
  (some (val X)))))
(assert true)
(check-sat)
(check-sat)
",
    ),
    ..UNSAT
};

/// How checks end that stand in front of that assertion.
const FAULT_CHECKS: &[Check] = &[
    LATE_FAULT,
    // No check before the fault may answer an error.
    Check {
        answers: b"sat\n(error \"boom\")\n",
        status: 8,
        put: "sat\n",
        said: "session fault: Solver\n",
        ..LATE_FAULT
    },
    // A fault is found behind the last check, too.
    Check {
        job: "(job (enums (\"T\")) (vars (\"x\" (Entity \"T\"))) (funs) (steps (assert true) (check) (check) (assert (not (eq (var \"x\") (entity \"T\" \"a\"))))))",
        said: "encode refused: EmptyEnum\n",
        ..LATE_FAULT
    },
];

#[test]
fn a_fault_comes_behind_the_checks_before_it(rt: HostRuntime) {
    let alloc = rt.alloc();
    for row in FAULT_CHECKS {
        expect_row(&rt, &end_of(&rt, alloc, row), row);
    }
}

/// Whether one link came back, to a solver that was not killed. A link tells it by how it is printed alone.
fn is_spared(rt: &impl Abort, alloc: Global, starter: &MemoryStarter) -> bool {
    match starter.returned() {
        [link] => {
            let printed = format!(in alloc; "{link:?}").expect(rt, AMPLE);
            printed.as_str().find("killed: false").is_some()
        }
        _ => false,
    }
}

#[test]
fn a_fault_kills_no_solver(rt: HostRuntime) {
    let alloc = rt.alloc();
    let end = end_of(&rt, alloc, &LATE_FAULT);
    let is_spared = is_spared(&rt, alloc, &end.starter);
    expect(&rt, is_spared, "a solver behind a fault");
}

/// These bytes, then a hundred times these, and then these.
fn hundred(rt: &impl Abort, alloc: Global, first: &[u8], each: &[u8], last: &[u8]) -> Vec<u8> {
    let mut bytes = first.to_vec(alloc).expect(rt, AMPLE);
    for _ in 0..100 {
        bytes.extend_from_slice(each).expect(rt, AMPLE);
    }
    bytes.extend_from_slice(last).expect(rt, AMPLE);
    bytes
}

/// What a step of a level with a check adds to a job, and to what a solver is sent.
const LEVEL_STEPS: &[u8] = b" (push) (assert false) (check) (pop)";

const LEVEL_LINES: &[u8] = b"(push 1)\n(assert false)\n(check-sat)\n(pop 1)\n";

#[test]
fn a_hundred_checks_are_answered(rt: HostRuntime) {
    let alloc = rt.alloc();
    let begin = b"(job (enums) (vars) (funs) (steps (assert true)";
    let job = hundred(&rt, alloc, begin, LEVEL_STEPS, b"))");
    let words = hundred(&rt, alloc, b"", b"unsat\n", b"");
    let sent = hundred(&rt, alloc, BEFORE, LEVEL_LINES, b"");
    let end = end_with(&rt, alloc, &UNSAT, job.as_slice(), words.as_slice());
    expect_status(&rt, "a hundred checks", end.status, 0);
    expect_bytes(&rt, "their words", end.out.bytes(), words.as_slice());
    let is_sent = sent_by(&end.starter) == Some(sent.as_slice());
    expect(&rt, is_sent, "their lines");
}

/// A small solver in memory answers the same job, and its verdicts are its own.
#[test]
fn a_small_solver_checks_levels(rt: HostRuntime) {
    let alloc = rt.alloc();
    let words = texts_of(alloc, &["check", "any solver"]).expect(&rt, AMPLE);
    let mut starter = MiniStarter::new(alloc);
    let end = run_with(&rt, alloc, LEVELS.as_bytes(), |source, out, diag| {
        run(alloc, words.as_slice(), source, out, diag, &mut starter)
    });
    expect_status(&rt, "small", end.status, 0);
    expect_bytes(&rt, "small", end.out.bytes(), b"sat\nunsat\n");
    for link in starter.returned() {
        expect_bytes(&rt, "small", link.sent(), CLOSED);
        expect_bytes(&rt, "small", link.answers(), b"sat\nunsat\n");
    }
    expect(&rt, starter.returned().len() == 1, "small");
}
