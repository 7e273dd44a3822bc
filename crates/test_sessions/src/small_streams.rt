//! The small solver over streams of bytes: what its program puts, and what its links in memory answer.

use crate::expected::{expect, expect_bytes, expect_status};
use smt_script::{Bytes, ListSink, MemorySource};
use smt_solve::{Ended, LineEnd, Link, LinkError};
use smt_stream::{MiniLink, mini_run};
use std::alloc::Global;
use std::process::Abort;
use test_words::AMPLE;

/// A script, what is put for its bytes, what is put besides where it ends there, and the status.
struct Row {
    script: &'static [u8],
    answers: &'static str,
    at_end: &'static str,
    /// Whether the solver has ended before the bytes do.
    ends: bool,
    status: u8,
}

/// What is put where the bytes are no script.
const NO_SCRIPT: &str = "(error \"not a script\")\n";

/// Scripts, with what SMT-LIB says of them.
const ROWS: &[Row] = &[
    Row {
        script: b"",
        answers: "",
        at_end: "",
        ends: false,
        status: 0,
    },
    Row {
        script: b"(declare-datatype Option (par (X) (\n  (none)\n  (some (val X)))))\n; \"b\"\n(declare-const t0 Bool)\n(define-fun t1 () Bool (not t0))\n(assert t1)\n(check-sat)\n(get-model)\n",
        answers: "sat\n(\n  (define-fun t0 () Bool false)\n)\n",
        at_end: "",
        ends: false,
        status: 0,
    },
    Row {
        script: b"(assert false)(check-sat)",
        answers: "unsat\n",
        at_end: "",
        ends: false,
        status: 0,
    },
    Row {
        script: b"(check-sat)\n(assert x)\n(check-sat)\n",
        answers: "sat\n(error \"not a script\")\n",
        at_end: "",
        ends: true,
        status: 3,
    },
    // A model is shown directly behind `sat` alone.
    Row {
        script: b"(check-sat) (assert true) (get-model)",
        answers: "sat\n(error \"no model\")\n",
        at_end: "",
        ends: false,
        status: 0,
    },
    // Brackets, quotes and semicolons in strings and comments end no command.
    Row {
        script: b"(check-sat) ; ) ( \" |\n(check-sat) (set-option :a \"(;\"\"))\") ; \"\r(check-sat)",
        answers: "sat\nsat\nsat\n",
        at_end: "",
        ends: false,
        status: 0,
    },
    // Bars are bytes of symbols here, and such a symbol stands in no script that the solver decides.
    Row {
        script: b"(declare-const |x| Bool) (check-sat)",
        answers: "unknown\n",
        at_end: "",
        ends: false,
        status: 0,
    },
    // A form feed stands in no script but in comments, nor does a byte above 126 in a string.
    Row {
        script: b"(check-sat) ; \x0c\xff\n(check-sat)\x0c(check-sat)",
        answers: "sat\nsat\nunknown\n",
        at_end: "",
        ends: false,
        status: 0,
    },
    Row {
        script: b"(set-option :a \"\x7f\") (check-sat)",
        answers: "unknown\n",
        at_end: "",
        ends: false,
        status: 0,
    },
    // The declaration of options goes with its level, and can be made again.
    Row {
        script: b"(push 1)(declare-datatype Option (par (X) ((none) (some (val X)))))(pop 1)(declare-datatype Option (par (X) ((none) (some (val X)))))(check-sat)",
        answers: "sat\n",
        at_end: "",
        ends: false,
        status: 0,
    },
    Row {
        script: b"(push 1)(declare-const x Bool)(assert x)(pop 1)(define-fun x () Bool false)(assert x)(check-sat)",
        answers: "unsat\n",
        at_end: "",
        ends: false,
        status: 0,
    },
    Row {
        script: b"(push 2)(check-sat)(exit)(check-sat",
        answers: "unknown\n",
        at_end: "",
        ends: true,
        status: 0,
    },
    // What follows `exit` is not read.
    Row {
        script: b"(exit) ) foo",
        answers: "",
        at_end: "",
        ends: true,
        status: 0,
    },
    Row {
        script: b"(check-sat) check-sat",
        answers: "sat\n(error \"not a script\")\n",
        at_end: "",
        ends: true,
        status: 3,
    },
    Row {
        script: b"(check-sat)) (check-sat)",
        answers: "sat\n(error \"not a script\")\n",
        at_end: "",
        ends: true,
        status: 3,
    },
    Row {
        script: b"\"a\"",
        answers: NO_SCRIPT,
        at_end: "",
        ends: true,
        status: 3,
    },
    Row {
        script: b"(#b2)",
        answers: NO_SCRIPT,
        at_end: "",
        ends: true,
        status: 3,
    },
    Row {
        script: b"(pop 1)",
        answers: NO_SCRIPT,
        at_end: "",
        ends: true,
        status: 3,
    },
    // The end within a command.
    Row {
        script: b"(check-sat) (check-sat",
        answers: "sat\n",
        at_end: NO_SCRIPT,
        ends: false,
        status: 3,
    },
    Row {
        script: b"(set-option :a \")",
        answers: "",
        at_end: NO_SCRIPT,
        ends: false,
        status: 3,
    },
    Row {
        script: b"(check-sat) ; (check-sat",
        answers: "sat\n",
        at_end: "",
        ends: false,
        status: 0,
    },
];

/// What the program puts for a script, and its status.
fn ran(rt: &impl Abort, alloc: Global, script: &[u8]) -> (Vec<u8>, u8) {
    let mut source = MemorySource::new(alloc, script, &[]).expect(rt, AMPLE);
    let mut out = ListSink::new(alloc);
    let mut diag = ListSink::new(alloc);
    let status = mini_run(alloc, &[], &mut source, &mut out, &mut diag);
    expect_bytes(rt, "nothing is said", diag.bytes(), b"");
    (
        Vec::from_slice(alloc, out.bytes()).expect(rt, AMPLE),
        status,
    )
}

/// A link that was sent a script byte by byte, up to its end.
fn led(rt: &impl Abort, alloc: Global, script: &[u8]) -> MiniLink {
    let mut link = MiniLink::new(alloc);
    for byte in script {
        match link.ended().expect(rt, AMPLE) {
            Ended::Running => link.send(&[*byte]).expect(rt, AMPLE),
            Ended::Code(_) | Ended::Killed => {}
        }
    }
    link
}

/// How a link tells the end behind a script.
fn end_of(row: &Row) -> Ended {
    if row.ends {
        Ended::Code(i32::from(row.status))
    } else {
        Ended::Running
    }
}

#[test]
fn scripts_are_answered(rt: HostRuntime) {
    let alloc = rt.alloc();
    for row in ROWS {
        let (put, status) = ran(&rt, alloc, row.script);
        let wanted = format!(in alloc; "{}{}", row.answers, row.at_end).expect(&rt, AMPLE);
        expect_bytes(&rt, row.answers, put.as_slice(), wanted.as_bytes());
        expect_status(&rt, row.answers, status, row.status);
    }
}

#[test]
fn links_answer_byte_by_byte(rt: HostRuntime) {
    let alloc = rt.alloc();
    for row in ROWS {
        let mut link = led(&rt, alloc, row.script);
        expect_bytes(&rt, row.answers, link.answers(), row.answers.as_bytes());
        let end = link.ended().expect(&rt, AMPLE);
        expect(&rt, end == end_of(row), row.answers);
    }
}

/// A command with so many brackets open at its deepest place: an assertion of `true`, negated as often as that takes. An odd number of
/// negations makes it false.
fn deep(rt: &impl Abort, alloc: Global, depth: usize) -> Vec<u8> {
    let mut script = Vec::from_slice(alloc, b"(assert ").expect(rt, AMPLE);
    for _ in 1..depth {
        script.extend_from_slice(b"(not ").expect(rt, AMPLE);
    }
    script.extend_from_slice(b"true").expect(rt, AMPLE);
    for _ in 0..depth {
        script.push(b')').expect(rt, AMPLE);
    }
    script.extend_from_slice(b"(check-sat)").expect(rt, AMPLE);
    script
}

/// Brackets may be open up to the limit, and no more. The limit of bytes is met by the program in the gate.
#[test]
fn the_deepest_command_is_answered(rt: HostRuntime) {
    let alloc = rt.alloc();
    let rows = [
        (deep(&rt, alloc, 1024), "unsat\n", 0),
        (deep(&rt, alloc, 1025), "(error \"too deep\")\n", 3),
    ];
    for (script, answers, wanted) in &rows {
        let (put, status) = ran(&rt, alloc, script.as_slice());
        expect_bytes(&rt, answers, put.as_slice(), answers.as_bytes());
        expect_status(&rt, answers, status, *wanted);
    }
}

#[test]
fn links_answer_line_by_line(rt: HostRuntime) {
    let alloc = rt.alloc();
    let mut link = MiniLink::new(alloc);
    link.send(b"(check-sat)\n(assert false)\n(check-sat)\n")
        .expect(&rt, AMPLE);
    for wanted in ["sat\n", "unsat\n", ""] {
        let mut line = Bytes::new(alloc);
        let end = link.read_line(&mut line, 100).expect(&rt, AMPLE);
        let whole = if wanted.is_empty() {
            LineEnd::End
        } else {
            LineEnd::Line
        };
        expect(&rt, end == whole, wanted);
        expect_bytes(&rt, wanted, line.items(), wanted.as_bytes());
    }
}

/// A solver that has ended takes nothing more, and one that was killed says so.
#[test]
fn links_end(rt: HostRuntime) {
    let alloc = rt.alloc();
    let mut link = MiniLink::new(alloc);
    link.send(b"(exit)").expect(&rt, AMPLE);
    expect(
        &rt,
        link.send(b"(check-sat)") == Err(LinkError::Fault),
        "behind exit",
    );
    expect_bytes(&rt, "behind exit", link.answers(), b"");
    link.kill().expect(&rt, AMPLE);
    expect(&rt, link.ended() == Ok(Ended::Killed), "killed");
    expect(
        &rt,
        link.send(b"(check-sat)") == Err(LinkError::Fault),
        "behind a kill",
    );
}
