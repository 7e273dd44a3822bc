// Tables whose places out of range read as what they were filled with, and keep nothing.
use std::alloc::{AllocError, Global};

/// No place, no clause, no literal.
pub(crate) const NONE: u32 = u32::MAX;

/// A place as a small number, `NONE` where it is too large for one.
pub(crate) fn small(place: usize) -> u32 {
    if place < 4_294_967_295 {
        place as u32
    } else {
        NONE
    }
}

/// Values by place.
#[derive(Drop)]
pub(crate) struct Table<T> {
    items: Vec<T>,
    fill: T,
}

impl<T: Copy + Drop> Table<T> {
    /// This value at each of so many places.
    pub(crate) fn new(alloc: Global, fill: T, len: usize) -> Result<Table<T>, AllocError> {
        let mut items = Vec::new(alloc);
        for _ in 0..len {
            items.push(fill)?;
        }
        Ok(Table { items, fill })
    }

    /// The value at a place.
    pub(crate) fn at(&self, place: u32) -> T {
        match self.items.get(place as usize) {
            Some(value) => *value,
            None => self.fill,
        }
    }

    /// Puts a value at a place.
    pub(crate) fn put(&mut self, place: u32, value: T) {
        if let Some(slot) = self.items.get_mut(place as usize) {
            *slot = value;
        }
    }

    /// How many places there are.
    pub(crate) fn len(&self) -> u32 {
        small(self.items.len())
    }

    /// One more place.
    pub(crate) fn push(&mut self, value: T) -> Result<(), AllocError> {
        self.items.push(value)?;
        Ok(())
    }

    /// Keeps so many places.
    pub(crate) fn truncate(&mut self, len: u32) {
        self.items.truncate(len as usize);
    }

    /// The values, in order.
    pub(crate) fn as_slice(&self) -> &[T] {
        self.items.as_slice()
    }
}
