// Clauses, one behind the other.
ghost use Rattle.std.specs.Prelude.{◌≡◌, ◌↔◌, ◌≤◌, ◌++◌, ◌∷◌, [], length, option_copied, slice_get};
ghost use Rattle.std.specs.Prelude.{IsTrue, OnErr, OnOk};
ghost use Rattle.smt_clauses.specs.Spans.{AreWithin, clauses_of};
ghost use Rattle.smt_clauses.specs.Variables.{AreBelow, count_in, count_of};

use crate::literal::Literal;
use std::alloc::{AllocError, Global};

/// Where a clause's literals stand.
#[derive(Clone, Copy)]
pub(crate) struct Span {
    start: usize,
    end: usize,
}

/// One more than the greatest variable of a clause, or 0 where it is empty.
fn variables_in(clause: &[Literal]) -> usize
    ensures { result ≡ count_in clause.now }
{
    let mut count: usize = 0;
    for literal in clause {
        count = count.max((*literal / 2) as usize + 1);
    }
    count
}

/// A list of clauses, in which all literals stand one behind the other.
#[derive(Drop)]
pub struct ClauseList {
    literals: Vec<Literal>,
    spans: Vec<Span>,
    variables: usize,
    ghost within: { AreWithin (length literals.items) spans.items },
    ghost counted: { variables ≡ count_of (clauses_of literals.items spans.items) },
}

impl ClauseList {
    ghost use Rattle.smt_clauses.specs.View.{plain_clauses};

    /// No clause.
    pub fn new(alloc: Global) -> ClauseList
        ensures { plain_clauses result ≡ [] }
    {
        ClauseList {
            literals: Vec::new(alloc),
            spans: Vec::new(alloc),
            variables: 0,
        }
    }

    /// How many clauses there are.
    pub fn len(&self) -> usize
        ensures { result ≡ length (plain_clauses self.now) }
    {
        self.spans.len()
    }

    /// Whether there is none.
    pub fn is_empty(&self) -> bool
        ensures { IsTrue result ↔ (plain_clauses self.now ≡ []) }
    {
        self.spans.is_empty()
    }

    /// The clause at a place.
    pub fn get(&self, place: usize) -> Option<&[Literal]>
        ensures { option_copied result ≡ slice_get (plain_clauses self.now) place }
    {
        let span = self.spans.get(place)?;
        Some(&self.literals[span.start..span.end])
    }

    /// One more than the greatest variable that stands in a clause, or 0 where none does.
    pub fn variables(&self) -> usize
        ensures exact { result ≡ count_of (plain_clauses self.now) }
        ensures above { AreBelow result (plain_clauses self.now) }
    {
        self.variables
    }

    /// One more clause, at the end. An error leaves the list as it was.
    pub fn push(&mut self, clause: &[Literal]) -> Result<(), AllocError>
        ensures ok { OnOk result
            (plain_clauses self.new ≡ plain_clauses self.old ++ clause.now ∷ []) }
        ensures err { OnErr result (plain_clauses self.new ≡ plain_clauses self.old) }
    {
        let variables = self.variables.max(variables_in(clause));
        let start = self.literals.len();
        self.literals.extend_from_slice(clause)?;
        let end = self.literals.len();
        self.spans.push(Span { start, end })?;
        self.variables = variables;
        Ok(())
    }
}
