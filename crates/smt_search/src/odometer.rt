// All truths of the variables, one after the other. So a search that goes astray still comes to a
// right answer.
ghost use Rattle.std.specs.Prelude.{◌≡◌, ◌+◌, ◌≤◌, IfOk, IsTrue, MatchBool, false, length, true};
ghost use Rattle.law_clauses.specs.Clauses.{HaveNoSolution, Solves};
ghost use Rattle.smt_clauses.specs.Variables.{AreBelow};
ghost use Rattle.smt_clauses.specs.View.{plain_clauses};
ghost use Rattle.smt_search.specs.Answers.{IsRight, IsUndecided};
ghost use Rattle.smt_search.specs.Counted.{IsLast, IsTried, number};
ghost use Rattle.smt_search.specs.Limits.{left};

use crate::answer::Answer;
use crate::limit::Limit;
use crate::model::solves;
use crate::truths::Truths;
use smt_clauses::ClauseList;
use std::alloc::{AllocError, Global};

/// Where the truths of all variables have been tried or some are found.
#[derive(Clone, Copy)]
enum Tried {
    /// The values are such truths.
    Found,
    /// There are none.
    Refuted,
    /// No conflict was left.
    Spent,
}

/// Goes on to the next truths: counts up by one, where the first variable has the lowest bit.
/// Whether there are any.
fn advance(values: &mut [bool]) -> bool
    ensures { MatchBool result (number values.new ≡ number values.old + 1) (IsLast values.old) }
{
    for value in values.iter_mut() {
        if !*value {
            *value = true;
            return true;
        }
        *value = false;
    }
    false
}

/// Tries truths from these on, in order. Each that don't solve the formula take one conflict.
fn try_all(formula: &ClauseList, values: &mut [bool], limit: &mut Limit) -> Tried
    requires first { number values.old ≡ 0 }
    requires below { AreBelow (length values.old) (plain_clauses formula.now) }
    ensures tried { IsTried (plain_clauses formula.now) values.new (left limit.new) result }
    ensures limit { left limit.new ≤ left limit.old }
{
    loop {
        if solves(values, formula) {
            return Tried::Found;
        }
        if !limit.take() {
            return Tried::Spent;
        }
        if !advance(values) {
            return Tried::Refuted;
        }
    }
}

/// Tries all truths of a formula's variables.
pub(crate) fn solve_by_trying(
    alloc: Global,
    formula: &ClauseList,
    limit: &mut Limit,
) -> Result<Answer, AllocError>
    ensures right { IfOk result (IsRight (plain_clauses formula.now)) }
    ensures undecided { IfOk result (λ answer. IsUndecided answer → left limit.new ≡ 0) }
    ensures limit { left limit.new ≤ left limit.old }
{
    let mut values = vec![in alloc; false; formula.variables()]?;
    match try_all(formula, values.as_mut_slice(), limit) {
        Tried::Found => Ok(Answer::Solved(Truths::new(values))),
        Tried::Refuted => Ok(Answer::Refuted),
        Tried::Spent => Ok(Answer::Undecided),
    }
}
