// Sessions with children that are shells, each with a few lines to run.
use crate::expected::{expect, expect_count};
use smt_script::{Bytes, SmtLibScript};
use smt_solve::{
    ChildLink, ChildStarter, Decision, DecisionWithModel, Ended, LineEnd, Link, LinkError,
    LocalSolver, Solver, SolverCommand, SolverError, StartError, Starter,
};
use smt_text::Text;
use std::alloc::Global;
use std::process::Abort;
use std::thread;
use std::time::Duration;
use test_words::{AMPLE, texts_of};

/// Why a test stops where no shell starts.
const STARTS: &str = "a shell starts";

/// The command of a shell that runs these lines.
fn command(rt: &impl Abort, alloc: Global, lines: &str) -> SolverCommand {
    let args = texts_of(alloc, &["-c", lines]).expect(rt, AMPLE);
    SolverCommand::new(alloc, "sh", args.as_slice()).expect(rt, AMPLE)
}

/// A starter that was asked for nothing yet, by the runtime of the test.
fn new_starter(rt: &impl Abort, host: &HostRuntime) -> ChildStarter<HostRuntime> {
    ChildStarter::new(host.clone().expect(rt, AMPLE))
}

/// The link to a shell, and its starter.
#[derive(Drop)]
struct Shell {
    starter: ChildStarter<HostRuntime>,
    link: ChildLink<HostRuntime>,
}

/// Starts a shell that runs these lines.
fn start(rt: &impl Abort, host: &HostRuntime, lines: &str) -> Shell {
    let cmd = command(rt, host.alloc(), lines);
    let mut starter = new_starter(rt, host);
    let link = starter.start(host.alloc(), &cmd).expect(rt, STARTS);
    Shell { starter, link }
}

/// Gives the link back to the starter.
fn finish(rt: &impl Abort, shell: Shell) {
    let Shell { mut starter, link } = shell;
    starter
        .finish(link)
        .expect(rt, "a starter takes its link back");
}

/// Opens a session with a shell that runs these lines.
fn solver(
    rt: &impl Abort,
    alloc: Global,
    starter: &mut ChildStarter<HostRuntime>,
    lines: &str,
) -> LocalSolver<ChildLink<HostRuntime>> {
    let cmd = command(rt, alloc, lines);
    LocalSolver::from_command(alloc, starter, &cmd).expect(rt, STARTS)
}

/// A session with a shell, and its starter.
#[derive(Drop)]
struct Session {
    starter: ChildStarter<HostRuntime>,
    solver: LocalSolver<ChildLink<HostRuntime>>,
}

/// Opens a session with a shell that runs these lines, by a starter of its own.
fn open(rt: &impl Abort, host: &HostRuntime, lines: &str) -> Session {
    let mut starter = new_starter(rt, host);
    let solver = solver(rt, host.alloc(), &mut starter, lines);
    Session { starter, solver }
}

/// Ends the session.
fn close(session: Session) -> Shell {
    let Session { starter, solver } = session;
    let link = solver.into_link();
    Shell { starter, link }
}

/// Whether a session with a shell that runs these lines decides so.
fn decides(
    rt: &impl Abort,
    alloc: Global,
    starter: &mut ChildStarter<HostRuntime>,
    lines: &str,
    expected: Decision,
) -> bool {
    let mut solver = solver(rt, alloc, starter, lines);
    let is_decided = solver.check_sat() == Ok(expected);
    starter.finish(solver.into_link()) == Ok(()) && is_decided
}

#[test]
fn decisions(rt: HostRuntime) {
    let alloc = rt.alloc();
    let mut starter = new_starter(&rt, &rt);
    let lines = "read line && printf 'sat\\r\\n'";
    let is_sat = decides(&rt, alloc, &mut starter, lines, Decision::Sat);
    expect(&rt, is_sat, "sat");
    let lines = "read line && printf unsat";
    let is_unsat = decides(&rt, alloc, &mut starter, lines, Decision::Unsat);
    expect(&rt, is_unsat, "unsat");
    let lines = "read line && printf 'unk' && sleep 0.1 && echo nown";
    let is_unknown = decides(&rt, alloc, &mut starter, lines, Decision::Unknown);
    expect(&rt, is_unknown, "unknown");
}

#[test]
fn assertions(rt: HostRuntime) {
    let lines = "read a && read b && test \"$a\" = '(assert true)' && echo sat";
    let mut session = open(&rt, &rt, lines);
    let put = session.solver.smtlib_input().assert("true");
    expect(&rt, put.is_ok(), "the assertion is taken");
    let is_sat = session.solver.check_sat() == Ok(Decision::Sat);
    expect(&rt, is_sat, "the decision");
    finish(&rt, close(session));
}

/// The model that the solver gives. Any other answer is a failure.
fn ask_model(rt: &impl Abort, solver: &mut LocalSolver<ChildLink<HostRuntime>>) -> Text {
    match solver.check_sat_with_model().expect(rt, "a solver answers") {
        DecisionWithModel::Sat { model } => model,
        _ => panic!(rt; "no model"),
    }
}

/// The model that a session gives with a shell that runs these lines.
fn model(rt: &impl Abort, host: &HostRuntime, lines: &str) -> Text {
    let mut session = open(rt, host, lines);
    let model = ask_model(rt, &mut session.solver);
    finish(rt, close(session));
    model
}

#[test]
fn models(rt: HostRuntime) {
    let lines =
        "read a && printf 'sat\\r\\n' && read b && printf '(\\r\\n  (define-fun t0 () Bool true)\\r\\n)\\r\\n'";
    let expected = "(\r\n  (define-fun t0 () Bool true)\r\n)\r\n";
    let is_expected = model(&rt, &rt, lines).as_str() == expected;
    expect(&rt, is_expected, "a model of one line");
    let lines =
        "read a && echo sat && read b && echo '(' && yes '(define-fun t0 () Bool false )' | head -n 5000 && echo ')'";
    // Of 5000 lines of 31 bytes each, and the two that hold them.
    let length = model(&rt, &rt, lines).as_str().len();
    expect_count(&rt, "bytes of a long model", length, 5000 * 31 + 4);
}

#[test]
fn refused_starts(rt: HostRuntime) {
    let alloc = rt.alloc();
    let mut starter = new_starter(&rt, &rt);
    let cmd = SolverCommand::new(alloc, "no-such-solver-as-this", &[]).expect(&rt, AMPLE);
    let refused = LocalSolver::from_command(alloc, &mut starter, &cmd);
    expect(&rt, refused.err() == Some(SolverError::Io), "no session");
    let refusal = starter.start(alloc, &cmd).err();
    expect(&rt, refusal == Some(StartError::Fault), "no start");
}

/// Whether the answers come to their end, appended to the line.
fn reads_to_end(link: &mut ChildLink<HostRuntime>, line: &mut Bytes) -> bool {
    for _ in 0..1_000_000 {
        match link.read_line(line, 65536) {
            Ok(LineEnd::End) => return true,
            Ok(_) => {}
            Err(_) => return false,
        }
    }
    false
}

/// Waits until a child has ended that closed its output, which it soon does.
fn wait(rt: &HostRuntime, link: &mut ChildLink<HostRuntime>) {
    for _ in 0..10_000 {
        if link.ended() != Ok(Ended::Running) {
            return;
        }
        thread::sleep(rt, Duration::from_millis(1));
    }
}

/// Whether a question is answered by this message.
fn tells(solver: &mut LocalSolver<ChildLink<HostRuntime>>, expected: &str) -> bool {
    match solver.check_sat() {
        Err(SolverError::Solver(message)) => message.as_str() == expected,
        _ => false,
    }
}

/// Stops the test where the answers of a child do not come to their end.
fn expect_end_of_output(rt: &impl Abort, alloc: Global, link: &mut ChildLink<HostRuntime>) {
    let is_at_end = reads_to_end(link, &mut Bytes::new(alloc));
    expect(rt, is_at_end, "the answers come to their end");
}

/// Stops the test where a child has ended otherwise.
fn expect_end(rt: &impl Abort, link: &mut ChildLink<HostRuntime>, wanted: Ended) {
    assert!(rt; link.ended() == Ok(wanted), "the child: not {wanted:?}");
}

/// Stops the test where a link does not do what it is asked, and names it.
fn expect_done(rt: &impl Abort, label: &str, answer: Result<(), LinkError>) {
    expect(rt, answer == Ok(()), label);
}

/// Stops the test where a link does what it is asked, and names it.
fn expect_fault(rt: &impl Abort, label: &str, answer: Result<(), LinkError>) {
    expect(rt, answer == Err(LinkError::Fault), label);
}

#[test]
fn ends(rt: HostRuntime) {
    let mut shell = start(&rt, &rt, "exit 3");
    expect_end_of_output(&rt, rt.alloc(), &mut shell.link);
    wait(&rt, &mut shell.link);
    let Shell { starter, link } = shell;
    let mut solver = LocalSolver::new(rt.alloc(), link);
    let message = "Solver process terminated unexpectedly with status: Some(3)";
    expect(&rt, tells(&mut solver, message), "the code of the child");
    let cleaned = solver.clean_up();
    expect(&rt, cleaned == Ok(()), "the session is cleaned up");
    let mut shell = close(Session { starter, solver });
    expect_end(&rt, &mut shell.link, Ended::Code(3));
    finish(&rt, shell);
}

#[test]
fn kills(rt: HostRuntime) {
    let mut shell = start(&rt, &rt, "exec sleep 1000");
    expect_end(&rt, &mut shell.link, Ended::Running);
    expect_done(&rt, "a line is sent", shell.link.send(b"(exit)\n"));
    expect_done(&rt, "the child is killed", shell.link.kill());
    expect_done(&rt, "it is killed again", shell.link.kill());
    expect_end(&rt, &mut shell.link, Ended::Killed);
    expect_fault(&rt, "no line is sent", shell.link.send(b"(exit)\n"));
    finish(&rt, shell);
}

#[test]
fn running_children(rt: HostRuntime) {
    finish(&rt, start(&rt, &rt, "exec sleep 1000"));
}

// The session kills a child where its answers have ended.
#[test]
fn closed_outputs(rt: HostRuntime) {
    let mut session = open(&rt, &rt, "exec >&- && exec sleep 1000");
    let message = "Solver process terminated unexpectedly with status: None";
    let is_told = tells(&mut session.solver, message);
    expect(&rt, is_told, "the child is killed");
    finish(&rt, close(session));
}

/// Sends more than a pipe holds to a child that may have closed its input.
fn overfill(rt: &impl Abort, alloc: Global, link: &mut ChildLink<HostRuntime>) {
    let bytes = Vec::from_elem(alloc, b'a', 100_000).expect(rt, AMPLE);
    for _ in 0..4 {
        let sent = link.send(bytes.as_slice());
        let is_known = sent == Ok(()) || sent == Err(LinkError::Fault);
        expect(rt, is_known, "bytes are sent, or there is a fault");
    }
}

#[test]
fn closed_inputs(rt: HostRuntime) {
    let mut shell = start(&rt, &rt, "exit 0");
    expect_end_of_output(&rt, rt.alloc(), &mut shell.link);
    overfill(&rt, rt.alloc(), &mut shell.link);
    let _ = shell.link.send(b"b");
    expect_fault(&rt, "a flush", shell.link.flush());
    finish(&rt, shell);
}

/// Stops the test where a read of at most `limit` bytes ends otherwise, or the line has not `length` bytes then.
fn expect_read(
    rt: &impl Abort,
    link: &mut ChildLink<HostRuntime>,
    line: &mut Bytes,
    limit: usize,
    length: usize,
    end: LineEnd,
) {
    let read = link.read_line(line, limit);
    let is_wanted = read == Ok(end) && line.items().len() == length;
    assert!(rt; is_wanted, "{limit}: not {end:?} at {length}");
}

/// The limits of reads, and the length of the line and the end behind each.
///
/// Of a line of 150000 bytes and its LF, an empty line, and one of 2 bytes without LF.
const READS: &[(usize, usize, LineEnd)] = &[
    (100_000, 100_000, LineEnd::TooLong),
    (50_000, 150_000, LineEnd::TooLong),
    (0, 150_000, LineEnd::TooLong),
    (50_001, 150_001, LineEnd::Line),
    (1, 150_002, LineEnd::Line),
    (2, 150_004, LineEnd::TooLong),
    (2, 150_004, LineEnd::End),
];

#[test]
fn lines(rt: HostRuntime) {
    let lines = "head -c 150000 /dev/zero | tr '\\0' a; printf '\\n\\nab'";
    let mut shell = start(&rt, &rt, lines);
    let mut line = Bytes::new(rt.alloc());
    for &(limit, length, end) in READS {
        expect_read(&rt, &mut shell.link, &mut line, limit, length, end);
    }
    let has_end = line.items().ends_with(b"a\n\nab");
    expect(&rt, has_end, "the end of what is read");
    finish(&rt, shell);
}

/// Sends 20000 lines, each in three parts.
fn send_script(link: &mut ChildLink<HostRuntime>) -> Result<(), LinkError> {
    for _ in 0..20_000 {
        link.send(b"(assert ")?;
        link.send(b"true")?;
        link.send(b")\n")?;
    }
    link.flush()
}

/// Whether the next line is this.
fn reads_line(link: &mut ChildLink<HostRuntime>, alloc: Global, expected: &[u8]) -> bool {
    let mut line = Bytes::new(alloc);
    link.read_line(&mut line, 100) == Ok(LineEnd::Line) && line.items() == expected
}

#[test]
fn whole_scripts(rt: HostRuntime) {
    let mut shell = start(&rt, &rt, "head -n 20000 | cksum && cat");
    expect_done(&rt, "a script is sent", send_script(&mut shell.link));
    let is_read = reads_line(&mut shell.link, rt.alloc(), b"3906320773 280000\n");
    expect(&rt, is_read, "the sum of its bytes");
    expect_done(&rt, "the child is killed", shell.link.kill());
    finish(&rt, shell);
}
