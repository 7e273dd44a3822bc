// The search: decisions, what follows from them, and what conflicts teach. Nothing here bears on
// whether an answer is right.
ghost use Rattle.std.specs.Prelude.{OnOk};
ghost use Rattle.smt_search.specs.Allowed.{KeepsTruths};

use crate::analysis::Analysis;
use crate::ledger::{Ledger, Link};
use crate::merits::Merits;
use crate::propagation::{Entered, Watches, clause_of};
use crate::restarts::Restarts;
use crate::table::{NONE, Table, small};
use crate::trail::{Trail, Value};
use smt_clauses::ClauseList;
use std::alloc::{AllocError, Global};

/// So many conflicts lie between two times at which clauses are let go, and by so many more each
/// time.
const SPAN: u64 = 2000;

const GROWTH: u64 = 50;

/// What the search knows.
#[derive(Drop)]
pub(crate) struct Search {
    trail: Trail,
    watches: Watches,
    analysis: Analysis,
    merits: Merits,
    restarts: Restarts,
    kept: Table<u32>,
    /// So many literals that are true with nothing decided were told to the ledger.
    fixed: u32,
    /// At so many conflicts clauses are let go.
    full: u64,
    span: u64,
}

/// Where the search stands.
#[derive(Clone, Copy)]
pub(crate) enum Stand {
    /// All literals of the clause at this place are false.
    Conflict(u32),
    /// Each variable has a value.
    Complete,
}

impl Search {
    /// Nothing known, of so many variables.
    pub(crate) fn new(alloc: Global, variables: usize) -> Result<Search, AllocError> {
        Ok(Search {
            trail: Trail::new(alloc, variables)?,
            watches: Watches::new(alloc, variables.wrapping_mul(2))?,
            analysis: Analysis::new(alloc, variables)?,
            merits: Merits::new(alloc)?,
            restarts: Restarts::new(),
            kept: Table::new(alloc, NONE, 0)?,
            fixed: 0,
            full: SPAN,
            span: SPAN,
        })
    }

    /// Enters the clause at a place at a time when nothing is decided. Where all its literals are
    /// false, its place.
    fn enter(&mut self, clauses: &ClauseList, place: u32) -> Result<u32, AllocError> {
        match self
            .watches
            .enter(clause_of(clauses, place), place, &self.trail)?
        {
            Entered::Rests => {}
            Entered::Gives(literal) => self.trail.assign(literal, place)?,
            Entered::Clashes => return Ok(place),
        }
        Ok(NONE)
    }

    /// Enters all clauses. The place of one whose literals are all false.
    fn enter_all(&mut self, clauses: &ClauseList) -> Result<u32, AllocError> {
        for place in 0..clauses.len() {
            let conflict = self.enter(clauses, small(place))?;
            if conflict != NONE {
                return Ok(conflict);
            }
        }
        self.watches.propagate(clauses, &mut self.trail)
    }

    /// Tells the ledger the literals that are true with nothing decided.
    fn fix_all(&mut self, ledger: &mut Ledger)
        ensures { KeepsTruths ledger.old ledger.new }
    {
        let end = self.trail.starts.at(0).min(self.trail.len());
        for at in self.fixed..end {
            let literal = self.trail.literals.at(at);
            let place = self.trail.reasons.at(literal / 2);
            ledger.fix(Link { place, literal });
        }
        self.fixed = end;
    }

    /// Tells the ledger of a clause that is false with nothing decided.
    pub(crate) fn conclude(&mut self, ledger: &mut Ledger, place: u32)
        ensures { KeepsTruths ledger.old ledger.new }
    {
        self.fix_all(ledger);
        let literal = match clause_of(ledger.clauses(), place).first() {
            Some(literal) => *literal,
            None => NONE,
        };
        ledger.fix(Link { place, literal });
    }

    /// Starts with the clauses of a ledger.
    pub(crate) fn start(&mut self, ledger: &mut Ledger) -> Result<(), AllocError>
        ensures { OnOk result (KeepsTruths ledger.old ledger.new) }
    {
        for _ in 0..ledger.clauses().len() {
            self.merits.push(0)?;
        }
        self.settle_in(ledger)?;
        Ok(())
    }

    /// Enters all clauses of a ledger, and tells it what follows with nothing decided.
    fn settle_in(&mut self, ledger: &mut Ledger) -> Result<(), AllocError>
        ensures { OnOk result (KeepsTruths ledger.old ledger.new) }
    {
        let conflict = self.enter_all(ledger.clauses())?;
        if conflict != NONE {
            self.conclude(ledger, conflict);
        } else {
            self.fix_all(ledger);
        }
        Ok(())
    }

    /// Decides until a conflict is met or each variable has a value.
    pub(crate) fn go_on(&mut self, clauses: &ClauseList) -> Result<Stand, AllocError> {
        for _ in 0..=self.trail.variables() {
            let conflict = self.watches.propagate(clauses, &mut self.trail)?;
            if conflict != NONE {
                return Ok(Stand::Conflict(conflict));
            }
            if !self.trail.decide()? {
                return Ok(Stand::Complete);
            }
        }
        Ok(Stand::Complete)
    }

    /// Takes the literal that a learned clause gives.
    fn take(&mut self, place: u32) -> Result<(), AllocError> {
        self.trail.back_to(self.analysis.back)?;
        self.merits.push(self.analysis.blocks)?;
        let clause = self.analysis.clause.as_slice();
        let one = match clause.first() {
            Some(literal) => *literal,
            None => NONE,
        };
        match clause.get(1) {
            Some(other) => self.watches.attach(place, one, *other)?,
            None => self.watches.skip()?,
        }
        self.trail.assign(one, place)
    }

    /// Whether nothing is decided.
    pub(crate) fn is_at_start(&self) -> bool {
        self.trail.level() == 0
    }

    /// Learns from a conflict where something is decided. Whether it could: it can't where the
    /// ledger doesn't follow.
    pub(crate) fn learn(&mut self, ledger: &mut Ledger, conflict: u32) -> Result<bool, AllocError>
        ensures { OnOk result (KeepsTruths ledger.old ledger.new) }
    {
        self.fix_all(ledger);
        self.analysis.learn(
            ledger.clauses(),
            &mut self.trail,
            &mut self.merits,
            conflict,
        )?;
        let place = small(ledger.clauses().len());
        if !ledger.learn(
            self.analysis.clause.as_slice(),
            self.analysis.links.as_slice(),
        )? {
            return Ok(false);
        }
        self.take(place)?;
        self.restarts.note(self.analysis.blocks);
        Ok(true)
    }

    /// Begins anew at times, and lets go of clauses.
    pub(crate) fn rest(&mut self, alloc: Global, ledger: &mut Ledger) -> Result<(), AllocError>
        ensures { OnOk result (KeepsTruths ledger.old ledger.new) }
    {
        let full = self.restarts.conflicts() >= self.full;
        if !full && !self.restarts.is_due() {
            return Ok(());
        }
        self.restarts.begin();
        self.trail.back_to(0)?;
        if full {
            self.reduce(alloc, ledger)?;
        }
        Ok(())
    }

    /// Whether a clause is true with nothing decided.
    fn is_satisfied(&self, clause: &[u32]) -> bool {
        for literal in clause {
            if self.trail.values.at(*literal) == Value::True {
                return true;
            }
        }
        false
    }

    /// Chooses the clauses that stay.
    fn choose(&mut self, clauses: &ClauseList) -> Result<(), AllocError> {
        self.kept.truncate(0);
        let mut bound = self.merits.middle()?;
        for place in 0..small(clauses.len()) {
            if self.merits.stays(place, &mut bound)
                && !self.is_satisfied(clause_of(clauses, place))
            {
                self.kept.push(place)?;
            }
        }
        self.merits.keep(self.kept.as_slice());
        Ok(())
    }

    /// Lets go of half of the clauses that may be let go, and of those that are true for good.
    fn reduce(&mut self, alloc: Global, ledger: &mut Ledger) -> Result<(), AllocError>
        ensures { OnOk result (KeepsTruths ledger.old ledger.new) }
    {
        let conflict = self.watches.propagate(ledger.clauses(), &mut self.trail)?;
        if conflict != NONE {
            self.conclude(ledger, conflict);
            return Ok(());
        }
        self.fix_all(ledger);
        self.choose(ledger.clauses())?;
        ledger.keep(alloc, self.kept.as_slice())?;
        self.watches.clear();
        self.span = self.span.wrapping_add(GROWTH);
        self.full = self.full.wrapping_add(self.span);
        self.settle_in(ledger)?;
        Ok(())
    }

    /// The values of the variables.
    pub(crate) fn values(&self, alloc: Global) -> Result<Vec<bool>, AllocError> {
        let mut values = Vec::new(alloc);
        for variable in 0..self.trail.variables() {
            values.push(self.trail.values.at(variable.wrapping_mul(2)) == Value::True)?;
        }
        Ok(values)
    }
}
