// Clauses under marks.
ghost use Rattle.std.specs.Prelude.{◌≡◌, ◌↔◌, IfNone, IfSome, IsTrue, false};
ghost use Rattle.law_clauses.specs.Clauses.{negated};
ghost use Rattle.smt_clauses.specs.Loops.{Follows, IsRuledOut};
ghost use Rattle.smt_clauses.specs.Marked.{AddsMark, AllAreOut, IsFree, IsMarked, IsOut};
ghost use Rattle.smt_clauses.specs.Marked.{KeepsNoMore};
ghost use Rattle.smt_clauses.specs.Settled.{IsConflict, IsFalsified, IsGivenAt, IsGivenBy};
ghost use Rattle.smt_clauses.specs.Settled.{IsGivenLast, MarksFollow};
ghost use Rattle.smt_clauses.specs.View.{plain_clauses};

use crate::clause_list::ClauseList;
use crate::literal::{Literal, negation};
use crate::marks::Marks;

/// What a clause gives where a literal that was watched turned false.
#[derive(Clone, Copy)]
pub enum Settled {
    /// The other watched literal is true.
    Holds,
    /// This literal can be watched instead.
    Moves(Literal),
    /// All others are false, so the other watched literal was marked.
    Gives,
    /// All literals are false.
    Conflicts,
}

/// Whether a literal is false.
pub(crate) fn is_false(marks: &Marks, literal: Literal) -> bool
    ensures { IsTrue result ↔ IsMarked marks.now (negated literal) }
{
    marks.is_marked(negation(literal))
}

/// Whether a literal is this other one or false.
fn is_out(marks: &Marks, literal: Literal, other: Literal) -> bool
    ensures { IsTrue result ↔ IsOut marks.now other literal }
{
    literal == other || is_false(marks, literal)
}

/// A literal of a clause other than this one that isn't false.
pub fn find_other(clause: &[Literal], marks: &Marks, other: Literal) -> Option<Literal>
    ensures none { IfNone result (AllAreOut clause.now marks.now other) }
    ensures found { IfSome result (IsFree clause.now marks.now other) }
{
    for literal in clause {
        if !is_out(marks, *literal, other) {
            return Some(*literal);
        }
    }
    None
}

/// What is given by a clause all of whose other literals are false.
fn settle_last(marks: &mut Marks, other: Literal, kept: bool) -> Settled
    ensures given { IsGivenLast marks.old other result }
    ensures marks { AddsMark marks.old marks.new other }
    ensures conflict { IsConflict result → IsMarked marks.old (negated other) }
    ensures kept { kept ≡ false → KeepsNoMore marks.old marks.new }
{
    if is_false(marks, other) {
        return Settled::Conflicts;
    }
    marks.mark(other, kept);
    Settled::Gives
}

/// What a clause gives, of which this literal may be true, for good or until the next `forget`.
pub fn settle(clause: &[Literal], marks: &mut Marks, other: Literal, kept: bool) -> Settled
    ensures given { IsGivenBy clause.now marks.old other result }
    ensures marks { MarksFollow clause.now marks.old marks.new }
    ensures conflict { IsConflict result → IsFalsified clause.now marks.old }
    ensures kept { kept ≡ false → KeepsNoMore marks.old marks.new }
{
    if marks.is_marked(other) {
        return Settled::Holds;
    }
    match find_other(clause, marks, other) {
        Some(literal) => return Settled::Moves(literal),
        None => {}
    }
    settle_last(marks, other, kept)
}

/// What the clause at a place gives, where it is looked at.
pub fn settle_at(
    clauses: &ClauseList,
    place: usize,
    marks: &mut Marks,
    other: Literal,
    kept: bool,
) -> Settled
    ensures given { IsGivenAt (plain_clauses clauses.now) place marks.old other result }
    ensures follows { Follows (plain_clauses clauses.now) kept marks.old marks.new }
    ensures conflict { IsConflict result → IsRuledOut (plain_clauses clauses.now) marks.old }
{
    let Some(clause) = clauses.get(place) else {
        return Settled::Holds;
    };
    settle(clause, marks, other, kept)
}
