//! Sessions over links in memory, row by row.

use crate::expected::{expect, expect_bytes, expect_count, expect_text};
use smt_script::{Bytes, ListSink, Sink, SinkError, SmtLibScript, Text};
use smt_solve::{
    Decision, DecisionWithModel, Ended, FailedWriter, LINE_LIMIT, LineEnd, Link, LinkError,
    LinkList, LocalSolver, MemoryLink, MemoryStarter, Solver, SolverCommand, SolverError,
    StartError, Starter, TextList, WriterSolver, next_line,
};
use std::alloc::Global;
use std::process::Abort;
use test_words::AMPLE;

/// Why a test stops where no session comes of a start.
const STARTED: &str = "the solver is started";

/// Why a test stops where a solver is not ended.
const KILLED: &str = "the solver is killed";

/// Why a test stops where a session does not take what it is sent.
const TAKEN: &str = "the session takes the line";

/// A session with a solver that answers with these bytes, and whose calls with these numbers fail.
fn session(
    rt: &impl Abort,
    alloc: Global,
    answers: &[u8],
    fails: &[u64],
) -> LocalSolver<MemoryLink> {
    let link = MemoryLink::new(alloc, answers, fails, None).expect(rt, AMPLE);
    LocalSolver::new(alloc, link)
}

/// The name of an answer, and the line that it holds.
fn told<D>(answer: &Result<D, SolverError>) -> (&str, &str) {
    match answer {
        Ok(_) => ("decision", ""),
        Err(SolverError::Io) => ("io", ""),
        Err(SolverError::Solver(line)) => ("solver", line.as_str()),
        Err(SolverError::UnrecognizedSolverOutput(line)) => ("unrecognized", line.as_str()),
        Err(SolverError::SolverMarkedFailed) => ("failed before", ""),
        Err(SolverError::AnswerTooLong) => ("too long", ""),
        Err(SolverError::Memory) => ("memory", ""),
    }
}

/// Whether this is told of an answer. It takes the answer, so that no test has an account of how one is let go.
fn is_told<D: Drop>(answer: Result<D, SolverError>, wanted: (&str, &str)) -> bool {
    told(&answer) == wanted
}

/// Stops the test where another thing is told of an answer, and names it.
fn expect_told<D: Drop>(
    rt: &impl Abort,
    label: &str,
    answer: Result<D, SolverError>,
    wanted: (&str, &str),
) {
    let (name, line) = wanted;
    assert!(rt; is_told(answer, wanted), "{label}: not {name} {line}");
}

/// What is told of an answer that could not be asked for.
const IO: (&str, &str) = ("io", "");

/// What is told of a question to a session that has failed.
const FAILED_BEFORE: (&str, &str) = ("failed before", "");

/// Stops the test where an answer is another decision, and names it.
fn expect_decision(
    rt: &impl Abort,
    label: &str,
    answer: Result<Decision, SolverError>,
    wanted: Decision,
) {
    assert!(rt; answer.ok() == Some(wanted), "{label}: not {wanted:?}");
}

/// Stops the test where an answer is another decision, or has another model, and names it.
fn expect_model(
    rt: &impl Abort,
    label: &str,
    answer: Result<DecisionWithModel, SolverError>,
    wanted: DecisionWithModel,
) {
    expect(rt, answer == Ok(wanted), label);
}

/// Stops the test where a link has ended otherwise, and names it.
fn expect_end(rt: &impl Abort, label: &str, link: &mut MemoryLink, wanted: Ended) {
    assert!(rt; link.ended() == Ok(wanted), "{label}: not {wanted:?}");
}

/// Stops the test where a solver is not killed, but should be, or is killed, but should not.
fn expect_killed(rt: &impl Abort, link: &mut MemoryLink, killed: bool) {
    let is_killed = link.ended() == Ok(Ended::Killed);
    expect(rt, is_killed == killed, "whether the solver is killed");
}

const DECISIONS: &[(&[u8], Decision)] = &[
    (b"sat\n", Decision::Sat),
    (b"unsat\n", Decision::Unsat),
    (b" \t unknown \r\n", Decision::Unknown),
    (b"\tunsat\r\nsat\n", Decision::Unsat),
    (b"sat", Decision::Sat),
];

/// What is sent for a decision, and for two.
const ASKED: &[u8] = b"(check-sat)\n";

const ASKED_TWICE: &[u8] = b"(check-sat)\n(check-sat)\n";

#[test]
fn decisions(rt: HostRuntime) {
    for &(answers, decision) in DECISIONS {
        let mut solver = session(&rt, rt.alloc(), answers, &[]);
        expect_decision(&rt, "a row", solver.check_sat(), decision);
        expect_bytes(&rt, "sent by a row", solver.link().sent(), ASKED);
        expect(&rt, !solver.is_failed(), "the session of a row goes on");
    }
    let mut solver = session(&rt, rt.alloc(), b"sat\nunsat\n", &[]);
    expect_decision(&rt, "the first of two", solver.check_sat(), Decision::Sat);
    expect_decision(&rt, "the second", solver.check_sat(), Decision::Unsat);
    expect_bytes(&rt, "sent by two", solver.link().sent(), ASKED_TWICE);
}

/// What is told of answers that ended.
const ENDED: &str = "Solver process terminated unexpectedly with status: None";

/// Asks for a decision, and expects that this is told, that nothing more is sent, and that the solver is killed or not.
fn expect_refusal(
    rt: &impl Abort,
    mut solver: LocalSolver<MemoryLink>,
    wanted: (&str, &str),
    killed: bool,
) {
    expect_told(rt, "the refusal", solver.check_sat(), wanted);
    expect(rt, solver.is_failed(), "the session has failed");
    expect_silence(rt, &mut solver);
    expect_killed(rt, &mut solver.into_link(), killed);
}

/// Stops the test where a session that has failed answers, or sends anything more.
fn expect_silence(rt: &impl Abort, solver: &mut LocalSolver<MemoryLink>) {
    let sent = solver.link().sent().len();
    expect_told(rt, "check_sat", solver.check_sat(), FAILED_BEFORE);
    let answer = solver.check_sat_with_model();
    expect_told(rt, "check_sat_with_model", answer, FAILED_BEFORE);
    let answer = solver.enable_models();
    expect_told(rt, "enable_models", answer, FAILED_BEFORE);
    let put = solver.smtlib_input().assert("true");
    expect(rt, put == Err(SinkError::Fault), "no assertion is put");
    let sent_then = solver.link().sent().len();
    expect_count(rt, "how many bytes are sent", sent_then, sent);
}

/// Answers with what is told of them, and whether the solver is killed.
const REFUSALS: &[(&[u8], (&str, &str), bool)] = &[
    (b"(error \"x\")\n", ("solver", "x"), false),
    (
        b" (error \"Parse Error: x\")\r\n",
        ("solver", "Parse Error: x"),
        true,
    ),
    (b"(error \"\")", ("solver", ""), false),
    (b"(error \")\n", ("unrecognized", "(error \")"), false),
    (b" error: no\r\n", ("unrecognized", "error: no"), false),
    (b"unsat.\nunsat\n", ("unrecognized", "unsat."), false),
    (b"\n", ("unrecognized", ""), false),
    (b"", ("solver", ENDED), true),
    (b"\xff\n", ("io", ""), false),
];

#[test]
fn refusals(rt: HostRuntime) {
    for &(answers, wanted, killed) in REFUSALS {
        expect_refusal(&rt, session(&rt, rt.alloc(), answers, &[]), wanted, killed);
    }
    for call in [1, 2, 3] {
        let solver = session(&rt, rt.alloc(), b"sat\n", &[call]);
        expect_refusal(&rt, solver, IO, false);
    }
}

#[test]
fn ended_solvers(rt: HostRuntime) {
    let alloc = rt.alloc();
    let link = MemoryLink::new(alloc, b"sat\n", &[], Some(-3)).expect(&rt, AMPLE);
    let mut solver = LocalSolver::new(alloc, link);
    let message = "Solver process terminated unexpectedly with status: Some(-3)";
    expect_told(&rt, "a code", solver.check_sat(), ("solver", message));
    expect_bytes(&rt, "sent behind its end", solver.link().sent(), b"");
}

#[test]
fn killed_solvers(rt: HostRuntime) {
    let mut killed = session(&rt, rt.alloc(), b"sat\n", &[]);
    killed.clean_up().expect(&rt, KILLED);
    expect(&rt, !killed.is_failed(), "a killed session has not failed");
    let answer = killed.check_sat_with_model();
    expect_told(&rt, "a killed solver", answer, ("solver", ENDED));
    expect_bytes(&rt, "sent behind its end", killed.link().sent(), b"");
    killed.clean_up().expect(&rt, KILLED);
    expect(&rt, killed.is_failed(), "it has failed behind the question");
}

/// A session with a solver that answers with so many blanks and then these bytes.
fn session_with_blanks(
    rt: &impl Abort,
    alloc: Global,
    count: usize,
    behind: &[u8],
) -> LocalSolver<MemoryLink> {
    let mut answers = Vec::from_elem(alloc, b' ', count).expect(rt, AMPLE);
    answers.extend_from_slice(behind).expect(rt, AMPLE);
    session(rt, alloc, answers.as_slice(), &[])
}

/// What is told of a line without an end.
const TOO_LONG: (&str, &str) = ("too long", "");

#[test]
fn long_lines(rt: HostRuntime) {
    let alloc = rt.alloc();
    let mut solver = session_with_blanks(&rt, alloc, LINE_LIMIT - 4, b"sat\n");
    expect_decision(&rt, "the longest", solver.check_sat(), Decision::Sat);
    let mut solver = session_with_blanks(&rt, alloc, LINE_LIMIT - 2, b"a\n");
    expect_told(
        &rt,
        "the longest that is none",
        solver.check_sat(),
        ("unrecognized", "a"),
    );
    let mut solver = session_with_blanks(&rt, alloc, LINE_LIMIT - 3, b"sat\n");
    expect_told(&rt, "one that is longer", solver.check_sat(), TOO_LONG);
    expect(&rt, solver.is_failed(), "its session has failed");
    let mut solver = session_with_blanks(&rt, alloc, LINE_LIMIT, b"");
    expect_told(&rt, "blanks alone", solver.check_sat(), TOO_LONG);
    expect_told(&rt, "behind them", solver.check_sat(), FAILED_BEFORE);
}

/// Answers with the models that they hold.
const MODELS: &[(&[u8], &str)] = &[
    (
        b"sat\n(\n(define-fun x () Bool true)\n)\n",
        "(\n(define-fun x () Bool true)\n)\n",
    ),
    (b"sat\n ( \n ) \nsat\n", " ( \n ) \n"),
    (b"sat\n(\n(error \"x\")\n)", "(\n(error \"x\")\n)"),
];

/// What is sent for a decision and its model.
const ASKED_FOR_MODEL: &[u8] = b"(check-sat)\n(get-model)\n";

#[test]
fn models(rt: HostRuntime) {
    for &(answers, text) in MODELS {
        let model = Text::from_str(rt.alloc(), text).expect(&rt, AMPLE);
        let mut solver = session(&rt, rt.alloc(), answers, &[]);
        let answer = solver.check_sat_with_model();
        expect_model(&rt, text, answer, DecisionWithModel::Sat { model });
        expect_bytes(&rt, text, solver.link().sent(), ASKED_FOR_MODEL);
    }
}

#[test]
fn decisions_without_models(rt: HostRuntime) {
    let mut solver = session(&rt, rt.alloc(), b"unsat\nunknown\n", &[]);
    let answer = solver.check_sat_with_model();
    expect_model(&rt, "the first", answer, DecisionWithModel::Unsat);
    let answer = solver.check_sat_with_model();
    expect_model(&rt, "the second", answer, DecisionWithModel::Unknown);
    expect_bytes(&rt, "sent", solver.link().sent(), ASKED_TWICE);
}

/// Behind a last line without LF nothing more comes: no later question is answered, whatever is sent.
#[test]
fn broken_lines(rt: HostRuntime) {
    let mut solver = session(&rt, rt.alloc(), b"sat\nunsat", &[]);
    expect_decision(&rt, "a line", solver.check_sat(), Decision::Sat);
    expect_decision(&rt, "a broken line", solver.check_sat(), Decision::Unsat);
    solver.send_lines(b"(reset)\n").expect(&rt, TAKEN);
    expect_refusal(&rt, solver, ("solver", ENDED), true);
    let mut solver = session(&rt, rt.alloc(), b"unknown", &[]);
    expect_decision(&rt, "a broken line", solver.check_sat(), Decision::Unknown);
    let answer = solver.check_sat_with_model();
    expect_told(&rt, "behind it", answer, ("solver", ENDED));
    expect(&rt, solver.is_failed(), "the session has failed");
}

/// Answers to a question for a model that hold none, with what is told of them, and whether the solver is killed.
const NO_MODELS: &[(&[u8], (&str, &str), bool)] = &[
    (b"sat\n(error \"x\")\n", ("solver", "x"), false),
    (
        b"sat\n(error \"Parse Error: x\")\n",
        ("solver", "Parse Error: x"),
        true,
    ),
    (b"sat\n()\n", ("unrecognized", "()"), false),
    (b"sat\nunsat\n", ("unrecognized", "unsat"), false),
    (b"sat\n", ("solver", ENDED), true),
    (b"sat\n(\nx", ("solver", ENDED), true),
    (b"sat\n(\n\xff\n)\n", ("io", ""), false),
    (b"satisfied\n", ("unrecognized", "satisfied"), false),
];

/// Asks for a model, and expects that this is told, and that the solver is killed or not.
fn expect_no_model(
    rt: &impl Abort,
    mut solver: LocalSolver<MemoryLink>,
    wanted: (&str, &str),
    killed: bool,
) {
    expect_told(rt, "no model", solver.check_sat_with_model(), wanted);
    expect(rt, solver.is_failed(), "the session has failed");
    expect_killed(rt, &mut solver.into_link(), killed);
}

#[test]
fn no_models(rt: HostRuntime) {
    for &(answers, wanted, killed) in NO_MODELS {
        expect_no_model(&rt, session(&rt, rt.alloc(), answers, &[]), wanted, killed);
    }
}

/// Answers of a solver, and the number of the first call that a check with a model doesn't make of its link then.
const CALLS: &[(&[u8], u64)] = &[
    (b"sat\n(\n)\n", 9),
    (b"unsat\n", 5),
    (b"", 6),
    (b"(error \"Parse Error: x\")\n", 6),
    (b"sat\n(\n", 10),
];

/// Whether a check with a model is refused over a link whose call of this number fails, and the session has failed then and asks
/// nothing more.
fn failed_check(rt: &impl Abort, alloc: Global, answers: &[u8], call: u64) -> bool {
    let mut solver = session(rt, alloc, answers, &[call]);
    let is_fault = is_told(solver.check_sat_with_model(), IO);
    let is_over = is_told(solver.check_sat(), FAILED_BEFORE);
    is_fault && is_over && solver.is_failed()
}

#[test]
fn each_call_of_a_link_fails_once(rt: HostRuntime) {
    let alloc = rt.alloc();
    for &(answers, behind) in CALLS {
        for call in 1..behind {
            let is_failed = failed_check(&rt, alloc, answers, call);
            expect(&rt, is_failed, "a call that fails");
        }
        let is_failed = failed_check(&rt, alloc, answers, behind);
        expect(&rt, !is_failed, "no call fails");
    }
}

/// What is sent of the script.
const SCRIPT: &[u8] = b"(set-option :produce-models true)\n(assert true)\n(check-sat)\n";

#[test]
fn scripts(rt: HostRuntime) {
    let mut solver = session(&rt, rt.alloc(), b"sat\n", &[10]);
    solver.enable_models().expect(&rt, TAKEN);
    solver.smtlib_input().assert("true").expect(&rt, TAKEN);
    solver.smtlib_input().flush().expect(&rt, TAKEN);
    expect_decision(&rt, "the script", solver.check_sat(), Decision::Sat);
    expect_told(&rt, "an option behind it", solver.enable_models(), IO);
    let flushed = solver.smtlib_input().flush();
    expect(&rt, flushed == Err(SinkError::Fault), "a flush behind that");
    expect(&rt, solver.is_failed(), "the session has failed");
    solver.clean_up().expect(&rt, KILLED);
    let mut link = solver.into_link();
    expect_killed(&rt, &mut link, true);
    expect_bytes(&rt, "sent", link.sent(), SCRIPT);
}

/// A session that is marked is as one that has failed, and what was sent before stays sent.
#[test]
fn marked_sessions(rt: HostRuntime) {
    let mut solver = session(&rt, rt.alloc(), b"sat\nsat\n", &[]);
    expect_decision(&rt, "before", solver.check_sat(), Decision::Sat);
    solver.mark_failed();
    expect_refusal(&rt, solver, FAILED_BEFORE, false);
}

/// Bytes, the limit of a line, and how many of them are the next one and how it ends.
const NEXT_LINES: &[(&str, usize, (usize, LineEnd))] = &[
    ("", 0, (0, LineEnd::TooLong)),
    ("", 1, (0, LineEnd::End)),
    ("ab\ncd", 3, (3, LineEnd::Line)),
    ("ab\ncd", 2, (2, LineEnd::TooLong)),
    ("\n", 9, (1, LineEnd::Line)),
    ("ab", 2, (2, LineEnd::TooLong)),
    ("ab", 3, (2, LineEnd::End)),
];

#[test]
fn next_lines(rt: HostRuntime) {
    for &(bytes, limit, wanted) in NEXT_LINES {
        expect(&rt, next_line(bytes.as_bytes(), limit) == wanted, bytes);
    }
}

/// The limits of reads of two lines, one behind the other, and how each ends. The second read is planned to fail.
const READS: &[(usize, Result<LineEnd, LinkError>)] = &[
    (2, Ok(LineEnd::TooLong)),
    (2, Err(LinkError::Fault)),
    (1, Ok(LineEnd::Line)),
    (3, Ok(LineEnd::End)),
    (0, Ok(LineEnd::TooLong)),
];

/// Stops the test where a read of at most `limit` bytes ends otherwise, and names it.
fn expect_read(
    rt: &impl Abort,
    link: &mut MemoryLink,
    line: &mut Bytes,
    limit: usize,
    wanted: Result<LineEnd, LinkError>,
) {
    let read = link.read_line(line, limit);
    assert!(rt; read == wanted, "{limit}: {read:?}, not {wanted:?}");
}

#[test]
fn links(rt: HostRuntime) {
    let alloc = rt.alloc();
    let mut link = MemoryLink::new(alloc, b"ab\ncd", &[3], Some(3)).expect(&rt, AMPLE);
    expect_end(&rt, "from the start", &mut link, Ended::Code(3));
    let mut line = Bytes::new(alloc);
    for &(limit, wanted) in READS {
        expect_read(&rt, &mut link, &mut line, limit, wanted);
    }
    expect_bytes(&rt, "what is read", line.items(), b"ab\ncd");
    link.kill().expect(&rt, KILLED);
    expect_end(&rt, "a killed solver", &mut link, Ended::Killed);
}

/// Lists are empty at first, and have what was pushed, in order.
#[test]
fn lists(rt: HostRuntime) {
    let alloc = rt.alloc();
    let mut texts = TextList::new(alloc);
    expect_count(&rt, "texts at first", texts.len(), 0);
    for arg in ["--lang", "smt"] {
        let text = Text::from_str(alloc, arg).expect(&rt, AMPLE);
        texts.push(text).expect(&rt, AMPLE);
    }
    expect_count(&rt, "texts", texts.len(), 2);
    expect_arguments(&rt, texts.items(), &["--lang", "smt"]);
    let mut links = LinkList::new(alloc);
    expect_count(&rt, "links at first", links.len(), 0);
    let link = MemoryLink::new(alloc, b"", &[], None).expect(&rt, AMPLE);
    links.push(link).expect(&rt, AMPLE);
    expect_count(&rt, "links", links.len(), 1);
    for link in links.items() {
        expect_bytes(&rt, "sent by the link", link.sent(), b"");
    }
}

/// A sink's error is one of a solver.
#[test]
fn sink_errors(rt: HostRuntime) {
    let of_fault = SolverError::from(SinkError::Fault);
    expect(&rt, of_fault == SolverError::Io, "a fault");
    let of_memory = SolverError::from(SinkError::Memory);
    expect(&rt, of_memory == SolverError::Memory, "want of memory");
}

/// `sat` comes first, then `unsat`, and `unknown` last. Two models are ordered by their texts.
#[test]
fn decisions_are_ordered(rt: HostRuntime) {
    expect(&rt, Decision::Sat < Decision::Unsat, "sat and unsat");
    expect(
        &rt,
        Decision::Unsat < Decision::Unknown,
        "unsat and unknown",
    );
    let first = Text::from_str(rt.alloc(), "(\n)\n").expect(&rt, AMPLE);
    let second = Text::from_str(rt.alloc(), "(\nx\n)\n").expect(&rt, AMPLE);
    let first = DecisionWithModel::Sat { model: first };
    let second = DecisionWithModel::Sat { model: second };
    expect(&rt, first < second, "two models");
    expect(&rt, second < DecisionWithModel::Unsat, "a model and unsat");
    let is_less = DecisionWithModel::Unsat < DecisionWithModel::Unknown;
    expect(&rt, is_less, "unsat and unknown, without models");
}

/// A starter of one solver, which answers `unsat`, and whose starts with these numbers fail.
fn starter_of_one(rt: &impl Abort, alloc: Global, fails: &[u64]) -> MemoryStarter {
    let mut links = LinkList::new(alloc);
    let link = MemoryLink::new(alloc, b"unsat\n", &[], None).expect(rt, AMPLE);
    links.push(link).expect(rt, AMPLE);
    MemoryStarter::new(alloc, links, fails).expect(rt, AMPLE)
}

#[test]
fn starters(rt: HostRuntime) {
    let alloc = rt.alloc();
    let mut starter = starter_of_one(&rt, alloc, &[1]);
    let args = [Text::from_str(alloc, "--lang=smt").expect(&rt, AMPLE)];
    let cmd = SolverCommand::new(alloc, "cvc5", &args).expect(&rt, AMPLE);
    let refused = LocalSolver::from_command(alloc, &mut starter, &cmd);
    expect_told(&rt, "a start that fails", refused, IO);
    let mut solver = LocalSolver::from_command(alloc, &mut &mut starter, &cmd).expect(&rt, STARTED);
    expect_decision(&rt, "the second", solver.check_sat(), Decision::Unsat);
    starter.finish(solver.into_link()).expect(&rt, AMPLE);
    let refusal = starter.start(alloc, &cmd).err();
    expect(&rt, refusal == Some(StartError::Fault), "no solver is left");
    expect_count(&rt, "commands", starter.commands().len(), 3);
    expect_count(&rt, "links that came back", starter.returned().len(), 1);
}

/// Expects that a starter was asked for one command, of this program with these arguments.
fn expect_command(rt: &impl Abort, starter: &MemoryStarter, program: &str, args: &[&str]) {
    expect_count(rt, "commands", starter.commands().len(), 1);
    for cmd in starter.commands() {
        expect_text(rt, "the program", cmd.program.as_str(), program);
        expect_arguments(rt, cmd.args.items(), args);
    }
}

/// Expects that these are the arguments of a command.
fn expect_arguments(rt: &impl Abort, given: &[Text], wanted: &[&str]) {
    expect_count(rt, "arguments", given.len(), wanted.len());
    for (given, wanted) in given.iter().zip(wanted) {
        expect_text(rt, "an argument", given.as_str(), *wanted);
    }
}

/// Settings of the program, and the program that is started.
const SETTINGS: &[(Option<&str>, &str)] = &[(None, "cvc5"), (Some("/opt/my cvc5"), "/opt/my cvc5")];

/// Expects that cvc5 is started by this program, with the arguments that it has by itself, and decides.
fn expect_cvc5(rt: &impl Abort, alloc: Global, setting: Option<&str>, program: &str) {
    let mut starter = starter_of_one(rt, alloc, &[]);
    let mut solver = LocalSolver::cvc5(alloc, &mut starter, setting).expect(rt, STARTED);
    expect_decision(rt, "cvc5", solver.check_sat(), Decision::Unsat);
    expect_command(rt, &starter, program, &["--lang", "smt", "--tlimit=60000"]);
}

/// The same with an argument of the caller's, which is `--seed=1`.
fn expect_cvc5_with(
    rt: &impl Abort,
    alloc: Global,
    setting: Option<&str>,
    seed: &[Text],
    program: &str,
) {
    let mut starter = starter_of_one(rt, alloc, &[]);
    let started = LocalSolver::cvc5_with_args(alloc, &mut starter, setting, seed);
    let mut solver = started.expect(rt, STARTED);
    expect_decision(rt, "with a seed", solver.check_sat(), Decision::Unsat);
    expect_command(rt, &starter, program, &["--lang", "smt", "--seed=1"]);
}

#[test]
fn cvc5_commands(rt: HostRuntime) {
    let alloc = rt.alloc();
    let seed = [Text::from_str(alloc, "--seed=1").expect(&rt, AMPLE)];
    for &(setting, program) in SETTINGS {
        expect_cvc5(&rt, alloc, setting, program);
        expect_cvc5_with(&rt, alloc, setting, &seed, program);
    }
    let mut none = MemoryStarter::new(alloc, LinkList::new(alloc), &[]).expect(&rt, AMPLE);
    let refused = LocalSolver::cvc5(alloc, &mut none, None);
    expect_told(&rt, "no solver to start", refused, IO);
}

/// What is written of a script and two questions.
const WRITTEN: &[u8] =
    b"(set-option :produce-models true)\n(assert true)\n(check-sat)\n(check-sat)\n";

#[test]
fn written_scripts(rt: HostRuntime) {
    let mut solver = WriterSolver {
        w: ListSink::new(rt.alloc()),
    };
    solver.enable_models().expect(&rt, TAKEN);
    solver.smtlib_input().assert("true").expect(&rt, TAKEN);
    let answer = solver.check_sat();
    expect_decision(&rt, "check_sat", answer, Decision::Unknown);
    let answer = solver.check_sat_with_model();
    expect_model(&rt, "with a model", answer, DecisionWithModel::Unknown);
    expect_bytes(&rt, "written", solver.w.bytes(), WRITTEN);
}

#[test]
fn failed_writers(rt: HostRuntime) {
    let mut solver = WriterSolver {
        w: FailedWriter::new(),
    };
    expect_told(&rt, "enable_models", solver.enable_models(), IO);
    expect_told(&rt, "check_sat", solver.check_sat(), IO);
    let answer = solver.check_sat_with_model();
    expect_told(&rt, "check_sat_with_model", answer, IO);
    let flushed = solver.smtlib_input().flush();
    expect(&rt, flushed == Err(SinkError::Fault), "a flush");
    expect(&rt, solver.w.faults() == 4, "how many faults there are");
}
