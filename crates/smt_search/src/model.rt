// Truths that are looked at.
ghost use Rattle.std.specs.Prelude.{◌≡◌};
ghost use Rattle.law_clauses.specs.Clauses.{clause_truth, literal_truth};
ghost use Rattle.smt_clauses.specs.View.{plain_clauses};
ghost use Rattle.smt_search.specs.Given.{TellsHoldsAt, TellsSolves, truths_of};

use smt_clauses::ClauseList;

/// The truth of a literal, where a variable past the end is false.
fn is_true(values: &[bool], literal: u32) -> bool
    ensures { result ≡ literal_truth (truths_of values.now) literal }
{
    let value = match values.get((literal / 2) as usize) {
        Some(value) => *value,
        None => false,
    };
    if literal % 2 == 0 { value } else { !value }
}

/// Whether a clause is true.
fn holds(values: &[bool], clause: &[u32]) -> bool
    ensures { result ≡ clause_truth (truths_of values.now) clause.now }
{
    for literal in clause {
        if is_true(values, *literal) {
            return true;
        }
    }
    false
}

/// Whether the clause at a place is true, where there is one.
fn holds_at(values: &[bool], clauses: &ClauseList, place: usize) -> bool
    ensures { TellsHoldsAt values.now (plain_clauses clauses.now) place result }
{
    match clauses.get(place) {
        Some(clause) => holds(values, clause),
        None => true,
    }
}

/// Whether each clause is true.
pub(crate) fn solves(values: &[bool], clauses: &ClauseList) -> bool
    ensures { TellsSolves values.now (plain_clauses clauses.now) result }
{
    for place in 0..clauses.len() {
        if !holds_at(values, clauses, place) {
            return false;
        }
    }
    true
}
