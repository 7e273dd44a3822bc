// Whole runs of `check`, over a starter in memory.
use crate::ends::sent_by;
use crate::expected::{expect, expect_bytes, expect_status};
use smt_cli::{MemorySource, run};
use smt_script::MemorySink;
use smt_solve::{LINE_LIMIT, LinkList, MemoryLink, MemoryStarter, SolverCommand};
use std::alloc::Global;
use std::process::Abort;
use test_words::{AMPLE, texts_of};

/// The job of `true`.
const TRUE: &str = "(job (enums) (vars) (funs) (terms true))";

/// What a solver is sent before its question about that job.
pub(crate) const BEFORE: &[u8] = b"\
(set-logic ALL)
(declare-datatype Option (par (X) (
  (none)
  (some (val X)))))
(assert true)
";

/// What a solver is sent with its question.
const ASKED: &[u8] = b"\
(set-logic ALL)
(declare-datatype Option (par (X) (
  (none)
  (some (val X)))))
(assert true)
(check-sat)
";

/// A run of `check`, and how it ends.
#[derive(Drop)]
pub(crate) struct Check {
    pub(crate) job: &'static str,
    /// The bytes that the solver answers.
    pub(crate) answers: &'static [u8],
    /// Which call of the link is to fail, which start, which read of the source and which put to `out`, 0 for none.
    pub(crate) link_fails: u64,
    pub(crate) start_fails: u64,
    pub(crate) source_fails: u64,
    pub(crate) out_fails: u64,
    /// The code with which the solver has ended from the start.
    pub(crate) ended: Option<i32>,
    pub(crate) status: u8,
    pub(crate) put: &'static str,
    pub(crate) said: &'static str,
    /// What the link was sent that came back, None where none did.
    pub(crate) sent: Option<&'static [u8]>,
}

/// A run on that job in which nothing fails, and the solver answers `unsat`.
pub(crate) const UNSAT: Check = Check {
    job: TRUE,
    answers: b"unsat\n",
    link_fails: 0,
    start_fails: 0,
    source_fails: 0,
    out_fails: 0,
    ended: None,
    status: 0,
    put: "unsat\n",
    said: "",
    sent: Some(ASKED),
};

const SAYS_ERROR: Check = Check {
    status: 8,
    put: "",
    said: "session fault: Solver\n",
    ..UNSAT
};

const SAYS_IO: Check = Check {
    status: 8,
    put: "",
    said: "session fault: Io\n",
    ..UNSAT
};

const CHECKS: &[Check] = &[
    UNSAT,
    Check {
        answers: b"sat\r\n",
        put: "sat\n",
        ..UNSAT
    },
    Check {
        answers: b" unknown\t\nsat\n",
        put: "unknown\n",
        ..UNSAT
    },
    // The answers end without a line feed.
    Check {
        answers: b"unsat",
        ..UNSAT
    },
    Check {
        answers: b"(error \"boom\")\nsat\n",
        ..SAYS_ERROR
    },
    Check {
        answers: b"",
        ..SAYS_ERROR
    },
    Check {
        ended: Some(3),
        sent: Some(BEFORE),
        ..SAYS_ERROR
    },
    Check {
        answers: b"unsat core\n",
        said: "session fault: UnrecognizedSolverOutput\n",
        ..SAYS_ERROR
    },
    Check {
        answers: b"\xff\n",
        ..SAYS_IO
    },
    // The logic and the script are sent, the solver is asked whether it runs, the question is sent and handed on, and its answer
    // is read.
    Check {
        link_fails: 1,
        sent: Some(b""),
        ..SAYS_IO
    },
    Check {
        link_fails: 2,
        sent: Some(b"(set-logic ALL)\n"),
        ..SAYS_IO
    },
    Check {
        link_fails: 3,
        sent: Some(BEFORE),
        ..SAYS_IO
    },
    Check {
        link_fails: 4,
        sent: Some(BEFORE),
        ..SAYS_IO
    },
    Check {
        link_fails: 5,
        ..SAYS_IO
    },
    Check {
        link_fails: 6,
        ..SAYS_IO
    },
    Check {
        start_fails: 1,
        status: 9,
        put: "",
        said: "no start\n",
        sent: None,
        ..UNSAT
    },
    Check {
        out_fails: 1,
        status: 6,
        put: "",
        said: "sink fault\n",
        ..UNSAT
    },
    Check {
        source_fails: 1,
        status: 5,
        put: "",
        said: "source fault\n",
        sent: None,
        ..UNSAT
    },
    Check {
        job: "(job)",
        status: 3,
        put: "",
        said: "job refused: BadForm\n",
        sent: None,
        ..UNSAT
    },
    // The job is read before the solver is started, and so is its first assertion written.
    Check {
        job: "(job)",
        start_fails: 1,
        status: 3,
        put: "",
        said: "job refused: BadForm\n",
        sent: None,
        ..UNSAT
    },
    Check {
        job: "(job (enums (\"T\")) (vars (\"x\" (Entity \"T\"))) (funs) (terms (not (eq (var \"x\") (entity \"T\" \"a\")))))",
        start_fails: 1,
        status: 4,
        put: "",
        said: "encode refused: EmptyEnum\n",
        sent: None,
        ..UNSAT
    },
];

/// A starter of one link to a solver that answers with these bytes.
pub(crate) fn starter_of(
    rt: &impl Abort,
    alloc: Global,
    row: &Check,
    answers: &[u8],
) -> MemoryStarter {
    let link = MemoryLink::new(alloc, answers, &[row.link_fails], row.ended);
    let mut links = LinkList::new(alloc);
    links.push(link.expect(rt, AMPLE)).expect(rt, AMPLE);
    MemoryStarter::new(alloc, links, &[row.start_fails]).expect(rt, AMPLE)
}

/// How a run ended: its status, what was put and said, and the starter with the links that came back.
#[derive(Drop)]
pub(crate) struct End {
    pub(crate) status: u8,
    pub(crate) out: MemorySink,
    diag: MemorySink,
    pub(crate) starter: MemoryStarter,
}

/// Runs a row.
pub(crate) fn end_of(rt: &impl Abort, alloc: Global, row: &Check) -> End {
    end_with(rt, alloc, row, row.job.as_bytes(), row.answers)
}

/// Runs a row on these bytes, with a solver that answers with these.
pub(crate) fn end_with(
    rt: &impl Abort,
    alloc: Global,
    row: &Check,
    job: &[u8],
    answers: &[u8],
) -> End {
    let words = texts_of(alloc, &["check", "cvc5", "--lang", "smt"]).expect(rt, AMPLE);
    let mut source = MemorySource::new(alloc, job, &[row.source_fails]).expect(rt, AMPLE);
    let mut out = MemorySink::new(alloc, &[row.out_fails], 1000).expect(rt, AMPLE);
    let mut diag = MemorySink::new(alloc, &[], 100).expect(rt, AMPLE);
    let mut starter = starter_of(rt, alloc, row, answers);
    let status = run(
        alloc,
        words.as_slice(),
        &mut source,
        &mut out,
        &mut diag,
        &mut starter,
    );
    End {
        status,
        out,
        diag,
        starter,
    }
}

/// Stops the test where a run did not end as its row says, and names what the row says and what differs.
pub(crate) fn expect_row(rt: &impl Abort, end: &End, row: &Check) {
    expect_status(rt, row.said, end.status, row.status);
    expect_bytes(rt, row.put, end.out.bytes(), row.put.as_bytes());
    expect_bytes(rt, row.said, end.diag.bytes(), row.said.as_bytes());
    expect(rt, sent_by(&end.starter) == row.sent, row.said);
}

#[test]
fn checks_end_as_they_should(rt: HostRuntime) {
    let alloc = rt.alloc();
    for row in CHECKS {
        expect_row(&rt, &end_of(&rt, alloc, row), row);
    }
}

/// A run whose solver answers with a line that is longer than any that is read.
const TOO_LONG: Check = Check {
    status: 8,
    put: "",
    said: "session fault: AnswerTooLong\n",
    ..UNSAT
};

#[test]
fn an_answer_has_a_greatest_length(rt: HostRuntime) {
    let alloc = rt.alloc();
    let mut blanks: Vec<u8> = Vec::new(alloc);
    blanks.resize(LINE_LIMIT - 6, b' ').expect(&rt, AMPLE);
    let mut longest = blanks.as_slice().to_vec(alloc).expect(&rt, AMPLE);
    longest.extend_from_slice(b"unsat\n").expect(&rt, AMPLE);
    let end = end_with(&rt, alloc, &UNSAT, TRUE.as_bytes(), longest.as_slice());
    expect_row(&rt, &end, &UNSAT);
    blanks.extend_from_slice(b" unsat\n").expect(&rt, AMPLE);
    let end = end_with(&rt, alloc, &TOO_LONG, TRUE.as_bytes(), blanks.as_slice());
    expect_row(&rt, &end, &TOO_LONG);
}

/// Whether a solver was started as it is named, with its arguments.
fn is_command(solver: &SolverCommand) -> bool {
    let args = solver.args.items();
    solver.program.as_str() == "cvc5"
        && args.len() == 2
        && args[0].as_str() == "--lang"
        && args[1].as_str() == "smt"
}

#[test]
fn a_solver_is_started_as_it_is_named(rt: HostRuntime) {
    let end = end_of(&rt, rt.alloc(), &UNSAT);
    let is_named = match end.starter.commands() {
        [solver] => is_command(solver),
        _ => false,
    };
    expect(&rt, is_named, "the command of the one solver");
}
