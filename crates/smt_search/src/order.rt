// The variables by how much they took part in late conflicts.
use crate::table::{NONE, Table, small};
use std::alloc::{AllocError, Global};

/// Past this step all activities are made smaller.
const MOST: u64 = 1 << 50;

/// By how many bits.
const SHRINK: u64 = 1 << 40;

/// A binary heap of variables, the most active first.
#[derive(Drop)]
pub(crate) struct Order {
    activities: Table<u64>,
    heap: Table<u32>,
    /// By variable, its place in the heap, `NONE` where it isn't there.
    places: Table<u32>,
    step: u64,
}

impl Order {
    /// So many variables.
    pub(crate) fn new(alloc: Global, variables: usize) -> Result<Order, AllocError> {
        let mut order = Order {
            activities: Table::new(alloc, 0, variables)?,
            heap: Table::new(alloc, NONE, 0)?,
            places: Table::new(alloc, NONE, variables)?,
            step: 1 << 20,
        };
        for variable in 0..small(variables) {
            order.put_back(variable)?;
        }
        Ok(order)
    }

    /// Puts a variable at a place of the heap.
    fn seat(&mut self, place: u32, variable: u32) {
        self.heap.put(place, variable);
        self.places.put(variable, place);
    }

    /// Moves a variable up from a place to where it belongs.
    fn rise(&mut self, variable: u32, from: u32) {
        let activity = self.activities.at(variable);
        let mut place = from;
        for _ in 0..32 {
            if place == 0 {
                break;
            }
            let up = (place - 1) / 2;
            let above = self.heap.at(up);
            if self.activities.at(above) >= activity {
                break;
            }
            self.seat(place, above);
            place = up;
        }
        self.seat(place, variable);
    }

    /// The place of the more active variable below a place, past the end where there is none.
    fn below(&self, place: u32) -> u32 {
        let left = place.wrapping_mul(2).wrapping_add(1);
        let right = left.wrapping_add(1);
        if right < self.heap.len()
            && self.activities.at(self.heap.at(right)) > self.activities.at(self.heap.at(left))
        {
            right
        } else {
            left
        }
    }

    /// Moves a variable down from the top to where it belongs.
    fn sink(&mut self, variable: u32) {
        let activity = self.activities.at(variable);
        let mut place: u32 = 0;
        for _ in 0..32 {
            let down = self.below(place);
            let next = self.heap.at(down);
            if down >= self.heap.len() || self.activities.at(next) <= activity {
                break;
            }
            self.seat(place, next);
            place = down;
        }
        self.seat(place, variable);
    }

    /// Puts a variable into the heap, where it isn't there.
    pub(crate) fn put_back(&mut self, variable: u32) -> Result<(), AllocError> {
        if self.places.at(variable) == NONE {
            let place = self.heap.len();
            self.heap.push(variable)?;
            self.rise(variable, place);
        }
        Ok(())
    }

    /// Takes the most active variable out of the heap, `NONE` where it is empty.
    pub(crate) fn take(&mut self) -> u32 {
        let len = self.heap.len();
        if len == 0 {
            return NONE;
        }
        let first = self.heap.at(0);
        let last = self.heap.at(len - 1);
        self.heap.truncate(len - 1);
        self.places.put(first, NONE);
        if len > 1 {
            self.sink(last);
        }
        first
    }

    /// Makes all activities smaller, in the same order.
    fn rescale(&mut self) {
        for variable in 0..self.activities.len() {
            let activity = self.activities.at(variable);
            self.activities.put(variable, activity / SHRINK);
        }
        self.step = self.step / SHRINK;
    }

    /// Makes a variable more active.
    pub(crate) fn bump(&mut self, variable: u32) {
        let activity = self.activities.at(variable).wrapping_add(self.step);
        self.activities.put(variable, activity);
        let place = self.places.at(variable);
        if place != NONE {
            self.rise(variable, place);
        }
    }

    /// Makes all activities count less against the next ones.
    pub(crate) fn decay(&mut self) {
        self.step = self.step.wrapping_add(self.step / 20);
        if self.step > MOST {
            self.rescale();
        }
    }
}
