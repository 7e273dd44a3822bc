// Where a clause stands, by its literals in any order. Nothing here bears on what is proved: a deletion that finds another clause
// with the same sum, or none, leaves the checker as right as before, since to delete a clause is only not to look at it.
use crate::literal::Literal;
use std::alloc::{AllocError, Global};

const NONE: u32 = u32::MAX;

/// How many chains there are before any clause is.
const FIRST_CHAINS: usize = 16;

/// The sum that stands for a clause that was taken. Another clause that has it by chance is not found once the table has grown.
const TAKEN: u64 = 0;

/// Chains of clauses whose sums have the same rest, about one clause in a chain.
#[derive(Drop)]
pub(crate) struct ClauseIndex {
    heads: Vec<u32>,
    next: Vec<u32>,
    sums: Vec<u64>,
}

/// The same number for the same literals in any order.
fn sum_of(clause: &[Literal]) -> u64 {
    let mut sum: u64 = clause.len() as u64;
    for literal in clause {
        let mixed = (*literal as u64)
            .wrapping_add(0x9e37_79b9)
            .wrapping_mul(0x9e37_79b9_7f4a_7c15);
        let hash = (mixed ^ (mixed >> 29)).wrapping_mul(0xbf58_476d_1ce4_e5b9);
        sum = sum.wrapping_add(hash ^ (hash >> 32));
    }
    sum
}

impl ClauseIndex {
    /// No clause.
    pub(crate) fn new(alloc: Global) -> Result<ClauseIndex, AllocError> {
        Ok(ClauseIndex {
            heads: vec![in alloc; NONE; FIRST_CHAINS]?,
            next: Vec::new(alloc),
            sums: Vec::new(alloc),
        })
    }

    /// The chain of a sum. The number of chains is a power of two.
    fn chain_of(&self, sum: u64) -> usize {
        let last = (self.heads.len() as u64).wrapping_sub(1);
        ((sum ^ (sum >> 32)) & last) as usize
    }

    /// Puts the clause at a place in front of its chain, where it was not taken.
    fn link(&mut self, place: usize) {
        let sum = match self.sums.get(place) {
            Some(sum) => *sum,
            None => TAKEN,
        };
        if sum == TAKEN || place >= NONE as usize {
            return;
        }
        let chain = self.chain_of(sum);
        if let Some(head) = self.heads.get_mut(chain) {
            if let Some(next) = self.next.get_mut(place) {
                *next = *head;
                *head = place as u32;
            }
        }
    }

    /// Twice as many chains.
    fn grow(&mut self) -> Result<(), AllocError> {
        let chains = self.heads.len().saturating_mul(2);
        self.heads.clear();
        self.heads.resize(chains, NONE)?;
        for place in 0..self.sums.len() {
            self.link(place);
        }
        Ok(())
    }

    /// One more clause, at the next place.
    pub(crate) fn push(&mut self, clause: &[Literal]) -> Result<(), AllocError> {
        if self.next.len() >= self.heads.len() {
            self.grow()?;
        }
        let place = self.next.len();
        self.sums.push(sum_of(clause))?;
        self.next.push(NONE)?;
        self.link(place);
        Ok(())
    }

    /// The place behind this one in its chain.
    fn following(&self, place: u32) -> u32 {
        match self.next.get(place as usize) {
            Some(next) => *next,
            None => NONE,
        }
    }

    /// Takes the clause at a place, which stands behind another one or first in its chain, out of the chain.
    fn unlink(&mut self, chain: usize, previous: u32, place: u32) {
        let following = self.following(place);
        if previous == NONE {
            if let Some(head) = self.heads.get_mut(chain) {
                *head = following;
            }
        } else if let Some(next) = self.next.get_mut(previous as usize) {
            *next = following;
        }
        if let Some(sum) = self.sums.get_mut(place as usize) {
            *sum = TAKEN;
        }
    }

    /// The place of a clause with these literals, which is taken out.
    pub(crate) fn take(&mut self, clause: &[Literal]) -> Option<usize> {
        let sum = sum_of(clause);
        let chain = self.chain_of(sum);
        let mut previous = NONE;
        let mut place = *self.heads.get(chain)?;
        for _ in 0..self.next.len() {
            let found = *self.sums.get(place as usize)?;
            if found == sum {
                self.unlink(chain, previous, place);
                return Some(place as usize);
            }
            previous = place;
            place = self.following(place);
        }
        None
    }
}
