// Answers, each of which is right whatever the search does.
ghost use Rattle.std.specs.Prelude.{◌≡◌, ◌≤◌, IfOk, IfSome, OnOk};
ghost use Rattle.smt_clauses.specs.View.{plain_clauses};
ghost use Rattle.smt_search.specs.Allowed.{AddsOf, KeepsTruths, LeavesSolutions};
ghost use Rattle.smt_search.specs.Answers.{IsRight, IsUndecided, StopsAtLimit};
ghost use Rattle.smt_search.specs.Limits.{left};
ghost use Rattle.smt_search.specs.Steps.{IsSpent};

use crate::answer::Answer;
use crate::ledger::Ledger;
use crate::limit::Limit;
use crate::model::solves;
use crate::odometer::solve_by_trying;
use crate::search::{Search, Stand};
use crate::truths::Truths;
use smt_clauses::ClauseList;
use std::alloc::{AllocError, Global};

/// What came of a step.
#[derive(Clone, Copy)]
enum Step {
    /// Something was learned from a conflict.
    Learned,
    /// Each variable has a value.
    Complete,
    /// No conflict was left to learn from.
    Spent,
    /// The formula is refuted, or the ledger doesn't follow the search.
    Ended,
}

/// Adds the clause of a formula at a place.
fn add_at(ledger: &mut Ledger, formula: &ClauseList, place: usize) -> Result<(), AllocError>
    ensures { OnOk result (AddsOf (plain_clauses formula.now) ledger.old ledger.new) }
{
    let Some(clause) = formula.get(place) else {
        return Ok(());
    };
    ledger.add(clause)?;
    Ok(())
}

/// A ledger that has the clauses of a formula.
fn ledger_of(alloc: Global, formula: &ClauseList, literals: usize) -> Result<Ledger, AllocError>
    ensures { IfOk result (LeavesSolutions (plain_clauses formula.now)) }
{
    let mut ledger = Ledger::new(alloc, literals)?;
    for place in 0..formula.len() {
        add_at(&mut ledger, formula, place)?;
    }
    Ok(ledger)
}

/// Learns from a conflict, or refutes where nothing is decided.
fn learn(
    alloc: Global,
    ledger: &mut Ledger,
    search: &mut Search,
    limit: &mut Limit,
    place: u32,
) -> Result<Step, AllocError>
    ensures ledger { OnOk result (KeepsTruths ledger.old ledger.new) }
    ensures spent { IfOk result (λ step. IsSpent step → left limit.new ≡ 0) }
    ensures limit { left limit.new ≤ left limit.old }
{
    if search.is_at_start() {
        search.conclude(ledger, place);
        return Ok(Step::Ended);
    }
    if !limit.take() {
        return Ok(Step::Spent);
    }
    if search.learn(ledger, place)? {
        search.rest(alloc, ledger)?;
        Ok(Step::Learned)
    } else {
        Ok(Step::Ended)
    }
}

/// Goes on to the next conflict, and learns from it.
fn go_on(
    alloc: Global,
    ledger: &mut Ledger,
    search: &mut Search,
    limit: &mut Limit,
) -> Result<Step, AllocError>
    ensures ledger { OnOk result (KeepsTruths ledger.old ledger.new) }
    ensures spent { IfOk result (λ step. IsSpent step → left limit.new ≡ 0) }
    ensures limit { left limit.new ≤ left limit.old }
{
    match search.go_on(ledger.clauses())? {
        Stand::Complete => Ok(Step::Complete),
        Stand::Conflict(place) => learn(alloc, ledger, search, limit, place),
    }
}

/// Goes on to the end. A step takes a conflict or is the last.
fn run(
    alloc: Global,
    ledger: &mut Ledger,
    search: &mut Search,
    limit: &mut Limit,
) -> Result<Step, AllocError>
    ensures ledger { OnOk result (KeepsTruths ledger.old ledger.new) }
    ensures spent { IfOk result (λ step. IsSpent step → left limit.new ≡ 0) }
    ensures limit { left limit.new ≤ left limit.old }
{
    for _ in 0..limit.left().saturating_add(1) {
        if ledger.is_refuted() {
            return Ok(Step::Ended);
        }
        match go_on(alloc, ledger, search, limit)? {
            Step::Learned => {}
            last => return Ok(last),
        }
    }
    Ok(Step::Ended)
}

/// What the search's values are worth.
fn answer_of(formula: &ClauseList, values: Vec<bool>) -> Option<Answer>
    ensures right { IfSome result (IsRight (plain_clauses formula.now)) }
    ensures decided { IfSome result (λ answer. IsUndecided answer → ⊥) }
{
    if solves(values.as_slice(), formula) {
        Some(Answer::Solved(Truths::new(values)))
    } else {
        None
    }
}

/// Searches by what conflicts teach. `None` where that came to nothing.
fn solve_by_learning(
    alloc: Global,
    formula: &ClauseList,
    limit: &mut Limit,
) -> Result<Option<Answer>, AllocError>
    ensures right { IfOk result (λ found. IfSome found (IsRight (plain_clauses formula.now))) }
    ensures undecided { IfOk result (λ found. IfSome found (StopsAtLimit limit.new)) }
    ensures limit { left limit.new ≤ left limit.old }
{
    let variables = formula.variables();
    let mut ledger = ledger_of(alloc, formula, variables.wrapping_mul(2))?;
    let mut search = Search::new(alloc, variables)?;
    search.start(&mut ledger)?;
    let last = run(alloc, &mut ledger, &mut search, limit)?;
    if ledger.is_refuted() {
        return Ok(Some(Answer::Refuted));
    }
    match last {
        Step::Complete => Ok(answer_of(formula, search.values(alloc)?)),
        Step::Spent => Ok(Some(Answer::Undecided)),
        _ => Ok(None),
    }
}

/// Searches for truths that make all clauses of a formula true. Each conflict that something is
/// learned from is taken from the limit, and where none is left the formula stays undecided.
pub fn solve(alloc: Global, formula: &ClauseList, limit: &mut Limit) -> Result<Answer, AllocError>
    ensures right { IfOk result (IsRight (plain_clauses formula.now)) }
    ensures undecided { IfOk result (λ answer. IsUndecided answer → left limit.new ≡ 0) }
    ensures limit { left limit.new ≤ left limit.old }
{
    match solve_by_learning(alloc, formula, limit)? {
        Some(answer) => Ok(answer),
        None => solve_by_trying(alloc, formula, limit),
    }
}
