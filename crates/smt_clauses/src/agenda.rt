// What is still to be looked at. Nothing here bears on what is proved: a literal is marked and a conflict is told only where a
// clause was just gone through.
use crate::literal::Literal;
use crate::watches::Watches;
use std::alloc::{AllocError, Global};

/// Which clauses watch a literal, which were deleted, and the literals whose consequences are to be found, in order.
#[derive(Drop)]
pub(crate) struct Agenda {
    pub(crate) watches: Watches,
    pub(crate) trail: Vec<Literal>,
    deleted: Vec<bool>,
}

impl Agenda {
    /// No clause, over so many literals.
    pub(crate) fn new(alloc: Global, literals: usize) -> Result<Agenda, AllocError> {
        Ok(Agenda {
            watches: Watches::new(alloc, literals)?,
            trail: Vec::new(alloc),
            deleted: Vec::new(alloc),
        })
    }

    /// One more clause, which watches nothing.
    pub(crate) fn push(&mut self) -> Result<(), AllocError> {
        self.deleted.push(false)?;
        self.watches.push()?;
        Ok(())
    }

    /// Whether the clause at a place was deleted.
    pub(crate) fn is_deleted(&self, place: usize) -> bool {
        match self.deleted.get(place) {
            Some(deleted) => *deleted,
            None => false,
        }
    }

    /// Looks at the clause at a place no more.
    pub(crate) fn delete(&mut self, place: usize) {
        if let Some(deleted) = self.deleted.get_mut(place) {
            *deleted = true;
        }
    }

    /// Has the consequences of one literal to find.
    pub(crate) fn begin_with(&mut self, literal: Literal) -> Result<(), AllocError> {
        self.trail.clear();
        self.trail.push(literal)?;
        Ok(())
    }
}
