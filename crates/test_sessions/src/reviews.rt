//! Reviews over pools of links in memory.

ghost use Rattle.std.specs.Prelude.{◌≡◌};
ghost use Rattle.law_terms.specs.Plain.{BoolType};
ghost use Rattle.law_terms.specs.Typing.{Typed};
ghost use Rattle.smt_term.specs.View.{plain_term};
ghost use Rattle.smt_solve.specs.MemoryLink.{memory_allows, memory_state};
ghost use Rattle.smt_solve.specs.MemoryStarter.{memory_starter_allows, memory_starter_state};
ghost use Rattle.smt_pool.specs.Pool.{pool_state};
ghost use Rattle.smt_review.specs.Sessions.{AreIdleSessions};
ghost use Rattle.smt_stream.specs.Links.{mini_allows, mini_state};
ghost use Rattle.smt_stream.specs.Starters.{mini_starter_allows, mini_starter_state};

use crate::expected::{expect, expect_bytes, expect_count};
use smt_pool::{SolverPool, SolverPoolConfig};
use smt_review::laws::opened_pools_may_be_asked;
use smt_review::{Finding, Relation, ReviewError, review};
use smt_solve::{LinkList, MemoryLink, MemoryStarter, SolverCommand};
use smt_stream::MiniStarter;
use smt_term::{EnumTable, Term, TermType, TermVar, Text};
use std::alloc::Global;
use std::process::Abort;
use test_words::AMPLE;

/// A Boolean variable.
#[tactic(auto, using(smt_term::specs::View::views))]
fn variable(rt: &impl Abort, alloc: Global, id: &str) -> Term
    ensures { Typed (plain_term result) BoolType }
{
    Term::from(TermVar {
        id: Text::from_str(alloc, id).expect(rt, AMPLE),
        ty: TermType::Bool,
    })
}

/// Settings of a pool of one session at most.
fn one_at_most() -> SolverPoolConfig
    ensures { result.min_solvers ≡ 0 }
{
    SolverPoolConfig {
        min_solvers: 0,
        max_solvers: 1,
        acquire_timeout: None,
    }
}

/// A pool of one session at most, whose solver answers with these bytes.
fn pool_over(rt: &impl Abort, alloc: Global, answers: &[u8]) -> SolverPool<MemoryStarter>
    ensures permits { (pool_state memory_starter_state result).permits
        ≡ (pool_state memory_starter_state result).max }
    ensures idle { AreIdleSessions memory_state memory_allows (memory_starter_allows result.starter)
        (pool_state memory_starter_state result).idle }
{
    let mut links = LinkList::new(alloc);
    let link = MemoryLink::new(alloc, answers, &[], None).expect(rt, AMPLE);
    links.push(link).expect(rt, AMPLE);
    let starter = MemoryStarter::new(alloc, links, &[]).expect(rt, AMPLE);
    let command = SolverCommand::new(alloc, "cvc5", &[]).expect(rt, AMPLE);
    let pool = SolverPool::new(alloc, 0, one_at_most(), command, starter).expect(rt, AMPLE);
    opened_pools_may_be_asked(&pool);
    pool
}

/// A pool of one small solver at most.
fn small_pool(rt: &impl Abort, alloc: Global) -> SolverPool<MiniStarter>
    ensures permits { (pool_state mini_starter_state result).permits
        ≡ (pool_state mini_starter_state result).max }
    ensures idle { AreIdleSessions mini_state mini_allows (mini_starter_allows result.starter)
        (pool_state mini_starter_state result).idle }
{
    let command = SolverCommand::new(alloc, "any", &[]).expect(rt, AMPLE);
    let starter = MiniStarter::new(alloc);
    let pool = SolverPool::new(alloc, 0, one_at_most(), command, starter)
        .ok()
        .expect(rt, AMPLE);
    opened_pools_may_be_asked(&pool);
    pool
}

#[test]
fn two_reviews(rt: HostRuntime) {
    let alloc = rt.alloc();
    let enums = EnumTable::new(alloc);
    let mut pool = pool_over(&rt, alloc, b"unsat\nsat\n");
    let (a, b) = (variable(&rt, alloc, "a"), variable(&rt, alloc, "b"));
    let first = review(alloc, &enums, &mut pool, Relation::Equivalent, a, b);
    expect(&rt, first == Ok(Finding::Holds), "first");
    let (a, b) = (variable(&rt, alloc, "a"), variable(&rt, alloc, "a"));
    let second = review(alloc, &enums, &mut pool, Relation::Implies, a, b);
    expect(&rt, second == Ok(Finding::Fails), "second");
    let starter = pool.close().expect(&rt, AMPLE);
    expect_count(&rt, "links", starter.returned().len(), 1);
    for link in starter.returned() {
        let wanted = b"\
(set-logic ALL)
(declare-datatype Option (par (X) (
  (none)
  (some (val X)))))
; \"a\"
(declare-const t0 Bool)
; \"b\"
(declare-const t1 Bool)
(define-fun t2 () Bool (= t0 t1))
(define-fun t3 () Bool (not t2))
(assert t3)
(check-sat)
(reset)
(set-logic ALL)
(declare-datatype Option (par (X) (
  (none)
  (some (val X)))))
(assert false)
(check-sat)
(reset)
";
        expect_bytes(&rt, "sent", link.sent(), wanted);
    }
}

/// A solver may answer with an error. Its link goes back, and the permit is free again.
#[test]
fn failed_check(rt: HostRuntime) {
    let alloc = rt.alloc();
    let enums = EnumTable::new(alloc);
    let mut pool = pool_over(&rt, alloc, b"(error \"boom\")\n");
    let (a, b) = (variable(&rt, alloc, "a"), variable(&rt, alloc, "b"));
    let answer = review(alloc, &enums, &mut pool, Relation::Disjoint, a, b);
    let is_solver = matches!(&answer, Err(ReviewError::Solver(_)));
    expect(&rt, is_solver, "a failed session");
    expect_count(&rt, "permits", pool.permits_available(), 1);
    expect_count(&rt, "links", pool.starter().returned().len(), 1);
    let (a, b) = (variable(&rt, alloc, "a"), variable(&rt, alloc, "b"));
    let none_left = review(alloc, &enums, &mut pool, Relation::Disjoint, a, b);
    let is_not_started = matches!(&none_left, Err(ReviewError::Pool(_)));
    expect(&rt, is_not_started, "no solver");
}

/// The answer to a review may end without LF. It is the last one, and the session is given up once it is asked again.
#[test]
fn broken_line(rt: HostRuntime) {
    let alloc = rt.alloc();
    let enums = EnumTable::new(alloc);
    let mut pool = pool_over(&rt, alloc, b"unsat");
    let (a, b) = (variable(&rt, alloc, "a"), variable(&rt, alloc, "b"));
    let first = review(alloc, &enums, &mut pool, Relation::Disjoint, a, b);
    expect(&rt, first == Ok(Finding::Holds), "first");
    expect_count(&rt, "idle", pool.available_count(), 1);
    let (a, b) = (variable(&rt, alloc, "a"), variable(&rt, alloc, "b"));
    let second = review(alloc, &enums, &mut pool, Relation::Disjoint, a, b);
    let is_solver = matches!(&second, Err(ReviewError::Solver(_)));
    expect(&rt, is_solver, "a failed session");
    expect_count(&rt, "idle", pool.available_count(), 0);
}

/// Small solvers find it themselves, one review behind the other.
#[test]
fn small_solvers_review(rt: HostRuntime) {
    let alloc = rt.alloc();
    let enums = EnumTable::new(alloc);
    let mut pool = small_pool(&rt, alloc);
    let (a, again) = (variable(&rt, alloc, "a"), variable(&rt, alloc, "a"));
    let first = review(alloc, &enums, &mut pool, Relation::Implies, a, again);
    expect(&rt, first == Ok(Finding::Holds), "first");
    let (a, b) = (variable(&rt, alloc, "a"), variable(&rt, alloc, "b"));
    let second = review(alloc, &enums, &mut pool, Relation::Disjoint, a, b);
    expect(&rt, second == Ok(Finding::Fails), "second");
    expect_count(&rt, "idle", pool.available_count(), 1);
}
