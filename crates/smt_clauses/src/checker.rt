// The clauses of a proof, each of which follows from the formula.
ghost use Rattle.std.specs.Prelude.{◌≡◌, IfOk, IsTrue, OnOk, false};
ghost use Rattle.law_clauses.specs.Clauses.{Truths};

use crate::agenda::Agenda;
use crate::assumption::assume;
use crate::clause_index::ClauseIndex;
use crate::clause_list::ClauseList;
use crate::literal::Literal;
use crate::marks::Marks;
use crate::propagation::propagate;
use crate::scan::{Settled, find_other, settle};
use crate::watches::NONE;
use std::alloc::{AllocError, Global};

/// A formula with the clauses that a proof has added so far.
#[derive(Drop)]
pub(crate) struct Checker {
    clauses: ClauseList,
    index: ClauseIndex,
    agenda: Agenda,
    marks: Marks,
    refuted: bool,
}

impl Checker {
    ghost use Rattle.smt_clauses.specs.Allowed.{Allows, Implies, Keeps, KeepsReady, KeepsReadyWith};
    ghost use Rattle.smt_clauses.specs.Allowed.{KeepsWith};

    /// No clause, over so many literals.
    pub(crate) fn new(alloc: Global, literals: usize) -> Result<Checker, AllocError>
        ensures { IfOk result (λ c. (v : Truths) → Allows v c) }
    {
        Ok(Checker {
            clauses: ClauseList::new(alloc),
            index: ClauseIndex::new(alloc)?,
            agenda: Agenda::new(alloc, literals)?,
            marks: Marks::new(alloc, literals)?,
            refuted: false,
        })
    }

    /// Whether no truths are left.
    pub(crate) fn is_refuted(&self) -> bool
        ensures { (v : Truths) → Allows v self.now → result ≡ false }
    {
        self.refuted
    }

    /// Takes a literal, which was marked for good, to its end.
    fn go_on(&mut self, literal: Literal) -> Result<(), AllocError>
        ensures { OnOk result (KeepsReady self.old self.new) }
    {
        self.agenda.begin_with(literal)?;
        let refuted = propagate(&self.clauses, &mut self.agenda, &mut self.marks, true)?;
        self.refuted = refuted;
        Ok(())
    }

    /// Lets the last clause watch this literal and another one, or takes from it what it gives.
    fn attach(&mut self, clause: &[Literal], one: Literal) -> Result<(), AllocError>
        ensures { OnOk result (KeepsReadyWith clause.now self.old self.new) }
    {
        match settle(clause, &mut self.marks, one, true) {
            Settled::Holds => Ok(()),
            Settled::Moves(other) => {
                self.agenda.watches.watch(one, other);
                Ok(())
            }
            Settled::Gives => {
                self.go_on(one)?;
                Ok(())
            }
            Settled::Conflicts => {
                self.refuted = true;
                Ok(())
            }
        }
    }

    /// One more clause, which truths have to make true. Where none are left, it changes nothing.
    pub(crate) fn add(&mut self, clause: &[Literal]) -> Result<(), AllocError>
        ensures { OnOk result (KeepsWith clause.now self.old self.new) }
    {
        if self.refuted {
            return Ok(());
        }
        self.marks.forget();
        self.clauses.push(clause)?;
        self.index.push(clause)?;
        self.agenda.push()?;
        if clause.is_empty() {
            self.refuted = true;
            return Ok(());
        }
        let one = find_other(clause, &self.marks, NONE).unwrap_or(clause[0]);
        self.attach(clause, one)?;
        Ok(())
    }

    /// Whether a clause follows by unit propagation.
    fn follows(&mut self, clause: &[Literal]) -> Result<bool, AllocError>
        ensures follows { IfOk result (λ yes. IsTrue yes → Implies self.old clause.now) }
        ensures kept { Keeps self.old self.new }
    {
        self.marks.forget();
        self.agenda.trail.clear();
        if assume(&mut self.marks, &mut self.agenda.trail, clause)? {
            return Ok(true);
        }
        let yes = propagate(&self.clauses, &mut self.agenda, &mut self.marks, false)?;
        Ok(yes)
    }

    /// Adds a clause that follows. Whether it does.
    pub(crate) fn learn(&mut self, clause: &[Literal]) -> Result<bool, AllocError>
        ensures { OnOk result (Keeps self.old self.new) }
    {
        if !self.follows(clause)? {
            return Ok(false);
        }
        self.add(clause)?;
        Ok(true)
    }

    /// Looks at a clause no more. One that isn't there changes nothing. What was marked for good stays so, even where the clause
    /// was its reason: so it does no harm that a solver says that a clause of one literal is deleted.
    pub(crate) fn delete(&mut self, clause: &[Literal])
        ensures { Keeps self.old self.new }
    {
        if let Some(place) = self.index.take(clause) {
            self.agenda.delete(place);
        }
    }
}
