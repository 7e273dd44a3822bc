// A clause that is taken to be false.
ghost use Rattle.std.specs.Prelude.{◌≡◌, IfOk, IsTrue, OnOk, false};
ghost use Rattle.law_clauses.specs.Clauses.{negated};
ghost use Rattle.smt_clauses.specs.Assumed.{IsAssumed, IsAssumedAway, IsImplied, MarksAssume};
ghost use Rattle.smt_clauses.specs.Marked.{AddsMark, KeepsMarks, KeepsNoMore, width_of};

use crate::literal::{Literal, negation};
use crate::marks::Marks;
use std::alloc::AllocError;

/// Marks the negation of a literal until the next `forget`, where it isn't marked.
fn assume_false(
    marks: &mut Marks,
    trail: &mut Vec<Literal>,
    literal: Literal,
) -> Result<(), AllocError>
    ensures marks { AddsMark marks.old marks.new (negated literal) }
    ensures kept { KeepsNoMore marks.old marks.new }
    ensures done { OnOk result (IsAssumedAway marks.new literal) }
    ensures stays { KeepsMarks marks.old marks.new }
    ensures width { width_of marks.new ≡ width_of marks.old }
{
    let opposite = negation(literal);
    if marks.is_marked(opposite) {
        return Ok(());
    }
    marks.mark(opposite, false);
    trail.push(opposite)?;
    Ok(())
}

/// Marks the negations of the literals of a clause until the next [`Marks::forget`], and puts those that were not marked before at
/// the end of the trail. Whether one of the literals was marked before its turn, so that the clause is true anyway.
pub fn assume(
    marks: &mut Marks,
    trail: &mut Vec<Literal>,
    clause: &[Literal],
) -> Result<bool, AllocError>
    ensures holds { MarksAssume clause.now marks.old marks.new }
    ensures met { IfOk result (λ yes. IsTrue yes → IsImplied clause.now marks.old) }
    ensures kept { KeepsNoMore marks.old marks.new }
    ensures done { IfOk result (λ yes. yes ≡ false → IsAssumed clause.now marks.new) }
{
    for literal in clause {
        if marks.is_marked(*literal) {
            return Ok(true);
        }
        assume_false(marks, trail, *literal)?;
    }
    Ok(false)
}
