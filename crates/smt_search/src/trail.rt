// Which literals are true in the search, since when and why.
use crate::order::Order;
use crate::table::{NONE, Table};
use smt_clauses::negation;
use std::alloc::{AllocError, Global};

/// What a literal is in the search.
#[derive(Clone, Copy, PartialEq, Eq)]
pub(crate) enum Value {
    Open,
    True,
    False,
}

/// The literals in the order in which they turned true.
#[derive(Drop)]
pub(crate) struct Trail {
    /// By literal.
    pub(crate) values: Table<Value>,
    /// By variable, of how many decisions its truth hangs.
    pub(crate) levels: Table<u32>,
    /// By variable, the clause from which its truth follows, `NONE` for a decision.
    pub(crate) reasons: Table<u32>,
    /// By variable, its place in the trail.
    pub(crate) places: Table<u32>,
    pub(crate) literals: Table<u32>,
    /// By level, the place of its decision.
    pub(crate) starts: Table<u32>,
    /// By variable, its last truth.
    phases: Table<bool>,
    pub(crate) order: Order,
    /// From here on the literals are still to be propagated.
    pub(crate) head: u32,
}

impl Trail {
    /// Nothing is true, of so many variables.
    pub(crate) fn new(alloc: Global, variables: usize) -> Result<Trail, AllocError> {
        Ok(Trail {
            values: Table::new(alloc, Value::Open, variables.wrapping_mul(2))?,
            levels: Table::new(alloc, 0, variables)?,
            reasons: Table::new(alloc, NONE, variables)?,
            places: Table::new(alloc, 0, variables)?,
            literals: Table::new(alloc, NONE, 0)?,
            starts: Table::new(alloc, NONE, 0)?,
            phases: Table::new(alloc, false, variables)?,
            order: Order::new(alloc, variables)?,
            head: 0,
        })
    }

    /// How many decisions there are.
    pub(crate) fn level(&self) -> u32 {
        self.starts.len()
    }

    /// How many literals are true.
    pub(crate) fn len(&self) -> u32 {
        self.literals.len()
    }

    /// How many variables there are.
    pub(crate) fn variables(&self) -> u32 {
        self.phases.len()
    }

    /// Makes a literal true, for a reason.
    pub(crate) fn assign(&mut self, literal: u32, reason: u32) -> Result<(), AllocError> {
        let variable = literal / 2;
        let level = self.level();
        let place = self.len();
        self.values.put(literal, Value::True);
        self.values.put(negation(literal), Value::False);
        self.levels.put(variable, level);
        self.reasons.put(variable, reason);
        self.places.put(variable, place);
        self.literals.push(literal)?;
        Ok(())
    }

    /// Lets the literal at a place be open again.
    fn undo(&mut self, place: u32) -> Result<(), AllocError> {
        let literal = self.literals.at(place);
        self.values.put(literal, Value::Open);
        self.values.put(negation(literal), Value::Open);
        self.phases.put(literal / 2, literal % 2 == 0);
        self.order.put_back(literal / 2)
    }

    /// Goes back to where there were so many decisions.
    pub(crate) fn back_to(&mut self, level: u32) -> Result<(), AllocError> {
        if self.level() <= level {
            return Ok(());
        }
        let start = self.starts.at(level);
        for place in start..self.len() {
            self.undo(place)?;
        }
        self.literals.truncate(start);
        self.starts.truncate(level);
        self.head = start;
        Ok(())
    }

    /// The most active variable that has no truth, taken out of the order. `NONE` where there is
    /// none.
    fn next_open(&mut self) -> u32 {
        for _ in 0..self.variables() {
            let variable = self.order.take();
            if variable == NONE || self.values.at(variable.wrapping_mul(2)) == Value::Open {
                return variable;
            }
        }
        NONE
    }

    /// Decides on a variable. Whether one was left.
    pub(crate) fn decide(&mut self) -> Result<bool, AllocError> {
        let variable = self.next_open();
        if variable == NONE {
            return Ok(false);
        }
        let start = self.len();
        self.starts.push(start)?;
        let positive = variable.wrapping_mul(2);
        let literal = if self.phases.at(variable) {
            positive
        } else {
            negation(positive)
        };
        self.assign(literal, NONE)?;
        Ok(true)
    }
}
