// Lists of entity types.
#![tactic(auto, using(crate::specs::TypeView::cedar_views, smt_term::specs::View::views))]

ghost use Rattle.std.specs.Prelude.{◌≡◌, ◌++◌, ◌∷◌, [], IfOk, OnErr, OnOk, length, map};
ghost use Rattle.smt_term.specs.Entities.{bytes_of_type};

use smt_term::{EntityType, TermError};
use std::alloc::{AllocError, Global};

/// Entity types, such as those of which an entity may be, in the order in which they were given.
#[derive(Debug, PartialEq, Eq, Drop)]
pub struct EntityTypeList {
    items: Vec<EntityType>,
}

impl EntityTypeList {
    ghost use Rattle.smt_values.specs.EntityTypes.{names_held, types_held};

    /// The empty list. Takes no memory.
    pub fn new(alloc: Global) -> EntityTypeList
        ensures { names_held result ≡ [] }
    {
        EntityTypeList {
            items: Vec::new(alloc),
        }
    }

    /// The list of these types, in this order. Takes no memory.
    pub fn of_items(items: Vec<EntityType>) -> EntityTypeList
        ensures { types_held result ≡ items.items }
    {
        EntityTypeList { items }
    }

    /// Appends a type.
    ///
    /// # Errors
    /// Want of memory. The list stays as it is.
    pub fn push(&mut self, item: EntityType) -> Result<(), AllocError>
        ensures pushed { OnOk result
            (names_held self.new ≡ names_held self.old ++ bytes_of_type item ∷ []) }
        ensures unchanged { OnErr result (names_held self.new ≡ names_held self.old) }
    {
        self.items.push(item)?;
        Ok(())
    }

    /// How many types it has.
    pub fn len(&self) -> usize
        ensures { result ≡ length (names_held self.now) }
    {
        self.items.len()
    }

    /// The types, in order.
    pub fn items(&self) -> &[EntityType]
        ensures same { result.now ≡ types_held self.now }
        ensures named { map bytes_of_type result.now ≡ names_held self.now }
    {
        self.items.as_slice()
    }

    /// An equal list, whose texts are shared.
    ///
    /// # Errors
    /// `Memory`, where there is none for the list.
    pub fn share(&self) -> Result<EntityTypeList, TermError>
        ensures { IfOk result (λ shared. names_held shared ≡ names_held self.now) }
    {
        let mut items: Vec<EntityType> = Vec::new(*self.items.allocator());
        for item in self.items.as_slice() {
            items.push(item.share()?)?;
        }
        Ok(EntityTypeList { items })
    }
}
