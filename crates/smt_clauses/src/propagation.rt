// What follows from clauses and marks by single clauses.
ghost use Rattle.std.specs.Prelude.{IfOk, IsTrue};
ghost use Rattle.smt_clauses.specs.Loops.{Follows, IsRuledOut};
ghost use Rattle.smt_clauses.specs.Visits.{IsClash};
ghost use Rattle.smt_clauses.specs.View.{plain_clauses};

use crate::agenda::Agenda;
use crate::clause_list::ClauseList;
use crate::literal::{Literal, negation};
use crate::marks::Marks;
use crate::scan::{Settled, settle_at};
use crate::watches::NONE;
use std::alloc::AllocError;

/// What became of a node.
#[derive(Clone, Copy)]
enum Visited {
    /// It still watches its literal.
    Stays,
    /// It was taken out of its list.
    Leaves,
    /// All literals of its clause are false.
    Clashes,
}

/// Visits the clause of a node that watches a literal, which is false. The node stands behind another one, or is the first.
fn visit_node(
    clauses: &ClauseList,
    agenda: &mut Agenda,
    marks: &mut Marks,
    falsified: Literal,
    previous: u32,
    node: u32,
    kept: bool,
) -> Result<Visited, AllocError>
    ensures follows { Follows (plain_clauses clauses.now) kept marks.old marks.new }
    ensures conflict { IfOk result
        (λ r. IsClash r → IsRuledOut (plain_clauses clauses.now) marks.old) }
{
    let place = (node / 2) as usize;
    if agenda.is_deleted(place) {
        agenda.watches.take_out(falsified, previous, node);
        return Ok(Visited::Leaves);
    }
    let other = agenda.watches.partner(node);
    match settle_at(clauses, place, marks, other, kept) {
        Settled::Holds => Ok(Visited::Stays),
        Settled::Moves(literal) => {
            agenda.watches.take_out(falsified, previous, node);
            agenda.watches.move_to(node, literal);
            Ok(Visited::Leaves)
        }
        Settled::Gives => {
            agenda.trail.push(other)?;
            Ok(Visited::Stays)
        }
        Settled::Conflicts => Ok(Visited::Clashes),
    }
}

/// Visits the clauses that watch a literal, which is false. Whether all literals of one are false.
fn visit(
    clauses: &ClauseList,
    agenda: &mut Agenda,
    marks: &mut Marks,
    falsified: Literal,
    kept: bool,
) -> Result<bool, AllocError>
    ensures follows { Follows (plain_clauses clauses.now) kept marks.old marks.new }
    ensures conflict { IfOk result
        (λ yes. IsTrue yes → IsRuledOut (plain_clauses clauses.now) marks.old) }
{
    let mut previous = NONE;
    let mut node = agenda.watches.head(falsified);
    'nodes: for _ in 0..agenda.watches.len() {
        if node == NONE {
            return Ok(false);
        }
        let following = agenda.watches.following(node);
        match visit_node(clauses, agenda, marks, falsified, previous, node, kept)? {
            Visited::Stays => previous = node,
            Visited::Leaves => {}
            Visited::Clashes => return Ok(true),
        }
        node = following;
    }
    Ok(false)
}

/// Visits the clauses that watch the negations of the literals of the trail, and of those that it gains. Whether all literals of a
/// clause are false.
pub(crate) fn propagate(
    clauses: &ClauseList,
    agenda: &mut Agenda,
    marks: &mut Marks,
    kept: bool,
) -> Result<bool, AllocError>
    ensures follows { Follows (plain_clauses clauses.now) kept marks.old marks.new }
    ensures conflict { IfOk result
        (λ yes. IsTrue yes → IsRuledOut (plain_clauses clauses.now) marks.old) }
{
    for place in 0..agenda.watches.width() {
        let Some(literal) = agenda.trail.get(place) else {
            return Ok(false);
        };
        let falsified = negation(*literal);
        if visit(clauses, agenda, marks, falsified, kept)? {
            return Ok(true);
        }
    }
    Ok(false)
}
