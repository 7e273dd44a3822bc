// The clauses that are known to be true where the formula is.
ghost use Rattle.std.specs.Prelude.{◌≡◌, IfOk, IsTrue, OnOk, false};
ghost use Rattle.law_clauses.specs.Clauses.{Truths};
ghost use Rattle.smt_clauses.specs.Loops.{Follows, IsRuledOut};
ghost use Rattle.smt_clauses.specs.View.{plain_clauses};
ghost use Rattle.smt_search.specs.Clauses.{AreAdded, AreImplied};

use smt_clauses::{ClauseList, Marks, Settled, assume, settle_at};
use std::alloc::{AllocError, Global};

/// A clause of a chain, and its literal that is true where all others are false.
#[derive(Clone, Copy)]
pub(crate) struct Link {
    /// The clause's place.
    pub(crate) place: u32,
    /// The literal.
    pub(crate) literal: u32,
}

/// Whether clauses, one behind the other, leave no literal of one of them.
fn clash(clauses: &ClauseList, marks: &mut Marks, links: &[Link]) -> bool
    ensures follows { Follows (plain_clauses clauses.now) false marks.old marks.new }
    ensures conflict { IsTrue result → IsRuledOut (plain_clauses clauses.now) marks.old }
{
    for link in links {
        match settle_at(clauses, link.place as usize, marks, link.literal, false) {
            Settled::Conflicts => return true,
            _ => {}
        }
    }
    false
}

/// A formula, what follows from it, and whether it is refuted.
#[derive(Drop)]
pub(crate) struct Ledger {
    clauses: ClauseList,
    marks: Marks,
    refuted: bool,
    scratch: Vec<u32>,
}

impl Ledger {
    ghost use Rattle.smt_search.specs.Allowed.{AddsClause, Allows, Implies, KeepsTruths};

    /// No clause, over so many literals.
    pub(crate) fn new(alloc: Global, literals: usize) -> Result<Ledger, AllocError>
        ensures { IfOk result (λ c. (v : Truths) → Allows v c) }
    {
        Ok(Ledger {
            clauses: ClauseList::new(alloc),
            marks: Marks::new(alloc, literals)?,
            refuted: false,
            scratch: Vec::new(alloc),
        })
    }

    /// Whether no truths are left.
    pub(crate) fn is_refuted(&self) -> bool
        ensures { (v : Truths) → Allows v self.now → result ≡ false }
    {
        self.refuted
    }

    /// The clauses.
    pub(crate) fn clauses(&self) -> &ClauseList {
        &self.clauses
    }

    /// One more clause, which truths have to make true.
    pub(crate) fn add(&mut self, clause: &[u32]) -> Result<(), AllocError>
        ensures { OnOk result (AddsClause clause.now self.old self.new) }
    {
        self.clauses.push(clause)?;
        if clause.is_empty() {
            self.refuted = true;
            return Ok(());
        }
        Ok(())
    }

    /// Whether a clause follows by a chain of clauses.
    fn follows(&mut self, clause: &[u32], links: &[Link]) -> Result<bool, AllocError>
        ensures follows { IfOk result (λ yes. IsTrue yes → Implies self.old clause.now) }
        ensures kept { KeepsTruths self.old self.new }
    {
        self.marks.forget();
        self.scratch.clear();
        if assume(&mut self.marks, &mut self.scratch, clause)? {
            return Ok(true);
        }
        Ok(clash(&self.clauses, &mut self.marks, links))
    }

    /// Adds a clause that follows. Whether it does.
    pub(crate) fn learn(&mut self, clause: &[u32], links: &[Link]) -> Result<bool, AllocError>
        ensures { OnOk result (KeepsTruths self.old self.new) }
    {
        if !self.follows(clause, links)? {
            return Ok(false);
        }
        self.add(clause)?;
        Ok(true)
    }

    /// Takes a literal for good that is the last one left of a clause. Where none is left, the
    /// formula is refuted.
    pub(crate) fn fix(&mut self, link: Link)
        ensures { KeepsTruths self.old self.new }
    {
        self.marks.forget();
        match settle_at(
            &self.clauses,
            link.place as usize,
            &mut self.marks,
            link.literal,
            true,
        ) {
            Settled::Conflicts => self.refuted = true,
            _ => {}
        }
    }

    /// Lets go of clauses: keeps those at these places, in this order.
    pub(crate) fn keep(&mut self, alloc: Global, places: &[u32]) -> Result<(), AllocError>
        ensures { OnOk result (KeepsTruths self.old self.new) }
    {
        let clauses = kept(alloc, &self.clauses, places)?;
        self.clauses = clauses;
        Ok(())
    }
}

/// Adds the clause at a place of other clauses.
fn copy_at(copy: &mut ClauseList, clauses: &ClauseList, place: u32) -> Result<(), AllocError>
    ensures { OnOk result (AreAdded clauses.now copy.old copy.new) }
{
    let Some(clause) = clauses.get(place as usize) else {
        return Ok(());
    };
    copy.push(clause)?;
    Ok(())
}

/// The clauses at these places.
fn kept(alloc: Global, clauses: &ClauseList, places: &[u32]) -> Result<ClauseList, AllocError>
    ensures { IfOk result (AreImplied clauses.now) }
{
    let mut copy = ClauseList::new(alloc);
    for place in places {
        copy_at(&mut copy, clauses, *place)?;
    }
    Ok(copy)
}
