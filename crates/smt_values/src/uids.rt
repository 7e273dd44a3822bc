// Lists of entities' names.
ghost use Rattle.std.specs.Prelude.{◌≡◌, ◌++◌, ◌∷◌, [], IfOk, OnErr, OnOk, length, map};
ghost use Rattle.smt_term.specs.Entities.{texts_of_entity};
ghost use Rattle.smt_values.specs.View.{plain_uids, uids_held};

use smt_term::{EntityUID, TermError};
use std::alloc::{AllocError, Global};

/// A list of entities, such as the ancestors of one, in the order in which they were given.
#[derive(Debug, PartialEq, Eq, Drop)]
pub struct UidList {
    items: Vec<EntityUID>,
}

impl UidList {
    /// The empty list. Takes no memory.
    pub fn new(alloc: Global) -> UidList
        ensures { plain_uids result ≡ [] }
    {
        UidList {
            items: Vec::new(alloc),
        }
    }

    /// Appends an entity.
    ///
    /// # Errors
    /// Want of memory. The list stays as it is.
    pub fn push(&mut self, item: EntityUID) -> Result<(), AllocError>
        ensures pushed { OnOk result
            (plain_uids self.new ≡ plain_uids self.old ++ texts_of_entity item ∷ []) }
        ensures unchanged { OnErr result (plain_uids self.new ≡ plain_uids self.old) }
    {
        self.items.push(item)?;
        Ok(())
    }

    /// How many entities it has.
    pub fn len(&self) -> usize
        ensures { result ≡ length (plain_uids self.now) }
    {
        self.items.len()
    }

    /// The entities, in order.
    pub fn items(&self) -> &[EntityUID]
        ensures same { result.now ≡ uids_held self.now }
        ensures named { map texts_of_entity result.now ≡ plain_uids self.now }
    {
        self.items.as_slice()
    }

    /// An equal list, whose texts are shared.
    ///
    /// # Errors
    /// `Memory`, where there is none for the list.
    pub fn share(&self) -> Result<UidList, TermError>
        ensures { IfOk result (λ shared. plain_uids shared ≡ plain_uids self.now) }
    {
        let mut items: Vec<EntityUID> = Vec::new(*self.items.allocator());
        for item in self.items.as_slice() {
            items.push(item.share()?)?;
        }
        Ok(UidList { items })
    }
}
