// What clauses are worth.
use crate::table::{NONE, Table};
use std::alloc::{AllocError, Global};

/// Clauses of no more levels than these stay.
const GLUE: u32 = 2;

/// What each clause is worth.
#[derive(Drop)]
pub(crate) struct Merits {
    /// By clause, of how many levels its literals were at least when it was learned or used; 0 for
    /// a clause of the formula.
    blocks: Table<u32>,
    /// The blocks of the clauses that may be let go, in order.
    ranks: Vec<u32>,
}

/// Which of the clauses that may be let go stay.
#[derive(Clone, Copy)]
pub(crate) struct Bound {
    /// Those of less blocks than this stay.
    blocks: u32,
    /// Of those of as many blocks, the first ones go, so many.
    surplus: usize,
}

impl Merits {
    /// No clause.
    pub(crate) fn new(alloc: Global) -> Result<Merits, AllocError> {
        Ok(Merits {
            blocks: Table::new(alloc, 0, 0)?,
            ranks: Vec::new(alloc),
        })
    }

    /// The next clause.
    pub(crate) fn push(&mut self, blocks: u32) -> Result<(), AllocError> {
        self.blocks.push(blocks)
    }

    /// Whether a clause may be let go.
    pub(crate) fn is_light(&self, place: u32) -> bool {
        self.blocks.at(place) > GLUE
    }

    /// Notes of how many levels a clause's literals are where it is used.
    pub(crate) fn improve(&mut self, place: u32, blocks: u32) {
        if blocks < self.blocks.at(place) {
            self.blocks.put(place, blocks);
        }
    }

    /// Where the worse half of the clauses that may be let go begins.
    pub(crate) fn middle(&mut self) -> Result<Bound, AllocError> {
        self.ranks.clear();
        for place in 0..self.blocks.len() {
            if self.is_light(place) {
                self.ranks.push(self.blocks.at(place))?;
            }
        }
        self.ranks.sort_unstable();
        let half = self.ranks.len() / 2;
        let blocks = match self.ranks.get(half) {
            Some(blocks) => *blocks,
            None => NONE,
        };
        let mut surplus: usize = 0;
        for at in half..self.ranks.len() {
            if let Some(rank) = self.ranks.get(at) {
                if *rank == blocks {
                    surplus = surplus.wrapping_add(1);
                }
            }
        }
        Ok(Bound { blocks, surplus })
    }

    /// Whether a clause stays.
    pub(crate) fn stays(&self, place: u32, bound: &mut Bound) -> bool {
        let blocks = self.blocks.at(place);
        if !self.is_light(place) || blocks < bound.blocks {
            return true;
        }
        if blocks > bound.blocks {
            return false;
        }
        if bound.surplus > 0 {
            bound.surplus -= 1;
            return false;
        }
        true
    }

    /// Forgets all clauses but those at these places, which ascend.
    pub(crate) fn keep(&mut self, places: &[u32]) {
        let mut next: u32 = 0;
        for place in places {
            let blocks = self.blocks.at(*place);
            self.blocks.put(next, blocks);
            next = next.wrapping_add(1);
        }
        self.blocks.truncate(next);
    }
}
