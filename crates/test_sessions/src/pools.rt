//! Pools over links in memory.

ghost use Rattle.std.specs.Prelude.{◌≡◌};
ghost use Rattle.smt_solve.specs.MemoryStarter.{memory_starter_state};
ghost use Rattle.smt_pool.specs.Pool.{IsSamePool, pool_state};
ghost use Rattle.smt_pool.specs.Pooled.{pooled_number};

use crate::expected::{expect, expect_bytes, expect_count};
use smt_pool::{PoolRefused, PooledSolver, SolverPool, SolverPoolConfig, SolverPoolError};
use smt_script::{SinkError, SmtLibScript};
use smt_solve::{
    Decision, LinkList, MemoryLink, MemoryStarter, Solver, SolverCommand, SolverError,
};
use std::alloc::Global;
use std::process::Abort;
use test_words::AMPLE;

/// Why a test stops where a pool is not opened.
const OPENED: &str = "the pool is opened";

/// Why a test stops where no session is handed out.
const HANDED_OUT: &str = "a session is handed out";

/// Solvers that answer with these bytes, one after the other. The calls with the numbers in `fails` fail on each of their
/// links, and so do the starts with the numbers in `failed_starts`.
fn starter_of(
    rt: &impl Abort,
    alloc: Global,
    answers: &[&[u8]],
    fails: &[u64],
    failed_starts: &[u64],
) -> MemoryStarter {
    let mut links = LinkList::new(alloc);
    for bytes in answers {
        let link = MemoryLink::new(alloc, bytes, fails, None).expect(rt, AMPLE);
        links.push(link).expect(rt, AMPLE);
    }
    MemoryStarter::new(alloc, links, failed_starts).expect(rt, AMPLE)
}

/// A configuration with these numbers of sessions.
fn sessions(min_solvers: usize, max_solvers: usize) -> SolverPoolConfig {
    SolverPoolConfig {
        min_solvers,
        max_solvers,
        acquire_timeout: Some(10),
    }
}

/// A pool of number 7 over such a starter, of which no session is out.
fn pool_of(
    rt: &impl Abort,
    alloc: Global,
    config: SolverPoolConfig,
    starter: MemoryStarter,
) -> SolverPool<MemoryStarter>
    ensures { (pool_state memory_starter_state result).permits
        ≡ (pool_state memory_starter_state result).max }
{
    let command = SolverCommand::new(alloc, "cvc5", &[]).expect(rt, AMPLE);
    SolverPool::new(alloc, 7, config, command, starter).expect(rt, OPENED)
}

/// Why no session is handed out, if none is. One that is handed out is taken back.
fn refusal(pool: &mut SolverPool<MemoryStarter>) -> Option<SolverPoolError>
    ensures same_pool { IsSamePool (pool_state memory_starter_state pool.old)
        (pool_state memory_starter_state pool.new) }
    ensures same_permits { (pool_state memory_starter_state pool.new).permits
        ≡ (pool_state memory_starter_state pool.old).permits }
{
    match pool.acquire() {
        Ok(s) => {
            let _ = pool.release(s);
            None
        }
        Err(error) => Some(error),
    }
}

/// A pool over solvers that answer with these bytes. The calls of a link with the numbers in `fails` fail.
fn pool_over(
    rt: &impl Abort,
    alloc: Global,
    config: SolverPoolConfig,
    answers: &[&[u8]],
    fails: &[u64],
) -> SolverPool<MemoryStarter>
    ensures { (pool_state memory_starter_state result).permits
        ≡ (pool_state memory_starter_state result).max }
{
    let starter = starter_of(rt, alloc, answers, fails, &[]);
    pool_of(rt, alloc, config, starter)
}

/// Stops the test where a session was not taken back, or not kept as it should be. It takes the answer, so that no test has an
/// account of how one is let go.
fn expect_kept(rt: &impl Abort, answer: Result<bool, SolverPoolError>, kept: bool) {
    expect(rt, answer == Ok(kept), "whether the session is kept");
}

/// Stops the test where a session is handed out, or refused for another reason.
fn expect_reason(rt: &impl Abort, refusal: Option<SolverPoolError>, wanted: SolverPoolError) {
    expect(rt, refusal == Some(wanted), "why no session is handed out");
}

/// Stops the test where a pool has other numbers of idle sessions and of permits.
fn expect_numbers(
    rt: &impl Abort,
    pool: &SolverPool<MemoryStarter>,
    available: usize,
    permits: usize,
) {
    expect_count(rt, "idle sessions", pool.available_count(), available);
    expect_count(rt, "permits", pool.permits_available(), permits);
}

/// Expects that this was sent to the session that is handed out next, and that it is kept.
fn expect_sent(rt: &impl Abort, pool: &mut SolverPool<MemoryStarter>, sent: &[u8])
    ensures same_max { (pool_state memory_starter_state pool.new).max
        ≡ (pool_state memory_starter_state pool.old).max }
    ensures same_permits { (pool_state memory_starter_state pool.new).permits
        ≡ (pool_state memory_starter_state pool.old).permits }
{
    let s = pool.acquire().expect(rt, HANDED_OUT);
    expect_bytes(rt, "sent", s.link().sent(), sent);
    expect_kept(rt, pool.release(s), true);
}

/// Asks the only session of a pool for a decision, while no second one is handed out.
fn use_only_session(rt: &impl Abort, pool: &mut SolverPool<MemoryStarter>)
    ensures same_max { (pool_state memory_starter_state pool.new).max
        ≡ (pool_state memory_starter_state pool.old).max }
    ensures same_permits { (pool_state memory_starter_state pool.new).permits
        ≡ (pool_state memory_starter_state pool.old).permits }
{
    let mut s = pool.acquire().expect(rt, HANDED_OUT);
    expect(rt, s.pool_number() == 7, "the number of its pool");
    expect_numbers(rt, pool, 0, 0);
    expect_reason(rt, refusal(pool), SolverPoolError::AcquireTimeout);
    let is_unsat = s.check_sat().ok() == Some(Decision::Unsat);
    expect(rt, is_unsat, "the decision");
    expect_kept(rt, pool.release(s), true);
}

/// Uses the only session of a pool of number 7 twice.
fn use_one_session(rt: &impl Abort, pool: &mut SolverPool<MemoryStarter>)
    ensures same_max { (pool_state memory_starter_state pool.new).max
        ≡ (pool_state memory_starter_state pool.old).max }
    ensures same_permits { (pool_state memory_starter_state pool.new).permits
        ≡ (pool_state memory_starter_state pool.old).permits }
{
    expect(rt, pool.number() == 7, "the number of the pool");
    expect_numbers(rt, pool, 1, 1);
    use_only_session(rt, pool);
    expect_sent(rt, pool, b"(check-sat)\n(reset)\n");
}

#[test]
fn one_session(rt: HostRuntime) {
    let answers = [b"unsat\n".as_slice()];
    let mut pool = pool_over(&rt, rt.alloc(), sessions(1, 1), &answers, &[]);
    use_one_session(&rt, &mut pool);
    let starter = pool.close().expect(&rt, AMPLE);
    expect_count(&rt, "commands", starter.commands().len(), 1);
    expect_count(&rt, "links that came back", starter.returned().len(), 1);
}

/// Asks the session that is handed out next for a decision, and expects this one, or that the answers have ended. The session
/// is kept exactly where there is a decision.
fn ask_next_session(
    rt: &impl Abort,
    pool: &mut SolverPool<MemoryStarter>,
    decision: Option<Decision>,
) {
    let mut s = pool.acquire().expect(rt, HANDED_OUT);
    let answer = s.check_sat().ok();
    expect(rt, answer == decision, "the decision");
    expect_kept(rt, pool.release(s), decision.is_some());
}

/// The answer of a session may end without LF. It is the last one, and the session is given up once it is asked again.
#[test]
fn broken_lines(rt: HostRuntime) {
    let answers = [b"unsat".as_slice()];
    let mut pool = pool_over(&rt, rt.alloc(), sessions(0, 1), &answers, &[]);
    ask_next_session(&rt, &mut pool, Some(Decision::Unsat));
    expect_count(&rt, "idle sessions", pool.available_count(), 1);
    ask_next_session(&rt, &mut pool, None);
    expect_count(&rt, "idle sessions", pool.available_count(), 0);
    let came_back = pool.starter().returned().len();
    expect_count(&rt, "links that came back", came_back, 1);
}

/// Want of memory is the pool's own, and any other error of a session is `Solver`.
#[test]
fn solver_errors(rt: HostRuntime) {
    let want = SolverPoolError::from(SolverError::Memory);
    expect(&rt, want == SolverPoolError::Memory, "want of memory");
    let other = SolverPoolError::from(SolverError::AnswerTooLong);
    let wanted = SolverPoolError::Solver(SolverError::AnswerTooLong);
    expect(&rt, other == wanted, "another error");
}

/// Puts an assertion to the session that is handed out next.
fn put_assertion(rt: &impl Abort, pool: &mut SolverPool<MemoryStarter>)
    ensures same_max { (pool_state memory_starter_state pool.new).max
        ≡ (pool_state memory_starter_state pool.old).max }
    ensures same_permits { (pool_state memory_starter_state pool.new).permits
        ≡ (pool_state memory_starter_state pool.old).permits }
{
    let mut s = pool.acquire().expect(rt, HANDED_OUT);
    let put = s.smtlib_input().assert("true");
    expect(rt, put == Ok(()), "the assertion is put");
    expect_kept(rt, pool.release(s), true);
}

/// Puts an assertion to a session, and expects that the same session is handed out next.
fn use_last_session(rt: &impl Abort, pool: &mut SolverPool<MemoryStarter>)
    ensures same_max { (pool_state memory_starter_state pool.new).max
        ≡ (pool_state memory_starter_state pool.old).max }
    ensures same_permits { (pool_state memory_starter_state pool.new).permits
        ≡ (pool_state memory_starter_state pool.old).permits }
{
    put_assertion(rt, pool);
    expect_sent(rt, pool, b"(assert true)\n(reset)\n");
}

/// Whether the links that were given back were sent this, first to last.
fn were_sent(starter: &MemoryStarter, sent: &[&[u8]]) -> bool {
    for (link, bytes) in starter.returned().iter().zip(sent) {
        if link.sent() != *bytes {
            return false;
        }
    }
    starter.returned().len() == sent.len()
}

/// What the links of `last_idle_first` are sent: the first none, and the second all.
const SENT_TO_SECOND: &[&[u8]] = &[b"", b"(assert true)\n(reset)\n(reset)\n"];

#[test]
fn last_idle_first(rt: HostRuntime) {
    let answers = [b"".as_slice(), b"".as_slice()];
    let mut pool = pool_over(&rt, rt.alloc(), sessions(2, 2), &answers, &[]);
    use_last_session(&rt, &mut pool);
    let starter = pool.close().expect(&rt, AMPLE);
    expect(
        &rt,
        were_sent(&starter, SENT_TO_SECOND),
        "sent to the second",
    );
}

/// Marks a session and asks for models, or asks it for a decision, or does nothing.
fn use_session(
    s: &mut PooledSolver<MemoryLink>,
    is_marked: bool,
    is_asked: bool,
) -> Result<(), SolverError>
    ensures { pooled_number s.new ≡ pooled_number s.old }
{
    if is_marked {
        s.mark_failed();
        return s.enable_models();
    }
    if is_asked {
        return s.check_sat().map(|_| ());
    }
    Ok(())
}

/// The answers, the numbers of the calls of the link that fail, whether the session is marked and whether it is asked.
const FAILED: &[(&[u8], &[u64], bool, bool)] = &[
    (b"(error \"boom\")\nsat\n", &[9], false, true),
    (b"sat\n", &[9], true, false),
    (b"sat\n", &[1], false, false),
    (b"sat\n", &[4], false, true),
];

/// Whether a question was refused since its session is marked.
fn is_marked_refusal(used: Result<(), SolverError>) -> bool {
    used == Err(SolverError::SolverMarkedFailed)
}

/// Uses a session so that it fails, and expects that its permit and its link come back.
fn expect_given_up(
    rt: &impl Abort,
    pool: &mut SolverPool<MemoryStarter>,
    is_marked: bool,
    is_asked: bool,
) {
    let mut s = pool.acquire().expect(rt, HANDED_OUT);
    let is_refused = is_marked_refusal(use_session(&mut s, is_marked, is_asked));
    expect(rt, is_refused == is_marked, "whether a question is refused");
    expect_kept(rt, pool.release(s), false);
    expect_numbers(rt, pool, 0, 2);
    let came_back = pool.starter().returned().len();
    expect_count(rt, "links that came back", came_back, 1);
}

#[test]
fn failed_sessions(rt: HostRuntime) {
    for &(answers, fails, is_marked, is_asked) in FAILED {
        let mut pool = pool_over(&rt, rt.alloc(), sessions(0, 2), &[answers], fails);
        expect_given_up(&rt, &mut pool, is_marked, is_asked);
    }
}

/// Marks a session between two puts to its input, and expects that the second one fails.
fn mark_between_puts(rt: &impl Abort, s: &mut PooledSolver<MemoryLink>)
    ensures { pooled_number s.new ≡ pooled_number s.old }
{
    let before = s.smtlib_input().assert("true");
    s.mark_failed();
    let behind = s.smtlib_input().assert("false");
    expect(rt, before == Ok(()), "the first put");
    expect(rt, behind == Err(SinkError::Fault), "the second put");
}

/// What is sent of the two puts.
const FIRST_PUT: &[u8] = b"(assert true)\n";

/// Expects that a session which is marked between two puts sends the first alone, and is given up.
fn expect_first_put_alone(rt: &impl Abort, pool: &mut SolverPool<MemoryStarter>) {
    let mut s = pool.acquire().expect(rt, HANDED_OUT);
    mark_between_puts(rt, &mut s);
    expect_bytes(rt, "sent", s.link().sent(), FIRST_PUT);
    expect_kept(rt, pool.release(s), false);
    let was_sent = were_sent(pool.starter(), &[FIRST_PUT]);
    expect(rt, was_sent, "sent by the link that came back");
}

/// A session that is only marked failed sends nothing that is put to its input.
#[test]
fn marked_sessions(rt: HostRuntime) {
    let mut pool = pool_over(&rt, rt.alloc(), sessions(0, 1), &[b"sat\n".as_slice()], &[]);
    expect_first_put_alone(&rt, &mut pool);
}

/// A starter of two solvers, whose start of this number fails.
fn starter_with_failure(rt: &impl Abort, alloc: Global, failed_start: u64) -> MemoryStarter {
    let answers = [b"".as_slice(), b"".as_slice()];
    starter_of(rt, alloc, &answers, &[], &[failed_start])
}

/// Whether a pool was not opened since a start failed, and one link came back to its starter.
fn is_refused(opened: Result<SolverPool<MemoryStarter>, PoolRefused<MemoryStarter>>) -> bool {
    match opened {
        Ok(_) => false,
        Err(refused) => {
            refused.error == SolverError::Io && refused.starter.returned().len() == 1
        }
    }
}

/// Expects that a pool of three sessions is not opened, of which the second does not start.
fn expect_not_opened(rt: &impl Abort, alloc: Global) {
    let command = SolverCommand::new(alloc, "cvc5", &[]).expect(rt, AMPLE);
    let starter = starter_with_failure(rt, alloc, 2);
    let opened = SolverPool::new(alloc, 0, sessions(3, 1), command, starter);
    expect(rt, is_refused(opened), "the pool is not opened");
}

/// Expects that a session is handed out behind one that did not start, and that the latter took no permit.
fn expect_second_start(rt: &impl Abort, pool: &mut SolverPool<MemoryStarter>) {
    expect_reason(rt, refusal(pool), SolverPoolError::from(SolverError::Io));
    expect_count(rt, "permits", pool.permits_available(), 1);
    let s = pool.acquire().expect(rt, HANDED_OUT);
    expect_kept(rt, pool.release(s), true);
}

#[test]
fn failed_starts(rt: HostRuntime) {
    let alloc = rt.alloc();
    expect_not_opened(&rt, alloc);
    let starter = starter_with_failure(&rt, alloc, 1);
    let mut pool = pool_of(&rt, alloc, sessions(0, 1), starter);
    expect_second_start(&rt, &mut pool);
}

#[test]
fn default_configuration(rt: HostRuntime) {
    let config = SolverPoolConfig::default();
    expect_count(&rt, "min_solvers", config.min_solvers, 1);
    expect_count(&rt, "max_solvers", config.max_solvers, 4);
    expect(&rt, config.acquire_timeout.is_none(), "no acquire_timeout");
}
