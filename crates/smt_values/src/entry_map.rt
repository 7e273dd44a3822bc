// What a schema says of its entity types.
ghost use Rattle.std.specs.Prelude.{◌≡◌, [], IfOk, IsTrue, OnErr, OnOk, bytes_eq, length, map};
ghost use Rattle.std.specs.Prelude.{option_map};
ghost use Rattle.law_terms.specs.ValueOrder.{ascends, text_cmp};
ghost use Rattle.smt_term.specs.Entities.{bytes_of_type};

use crate::entries::{EntityEntry, put};
use smt_term::{EntityType, TermError};
use std::alloc::{AllocError, Global};

/// What a schema says of its entity types: pairs in the order of the types' bytes, each type once.
#[derive(Debug, PartialEq, Eq, Drop)]
pub struct EntryMap {
    items: Vec<(EntityType, EntityEntry)>,
    pub ghost ascending: { IsTrue (ascends text_cmp (map (λ p. bytes_of_type p.0) items.items)) },
}

impl EntryMap {
    ghost use Rattle.std.specs.BTreeMap.{insert_entry};
    ghost use Rattle.std.specs.Map.{lookup};
    ghost use Rattle.smt_values.specs.View.{entries_held, entry_named, plain_entries, plain_entry};

    /// The map without entity types. Takes no memory.
    pub fn new(alloc: Global) -> EntryMap
        ensures { plain_entries result ≡ [] }
    {
        EntryMap {
            items: Vec::new(alloc),
        }
    }

    /// Puts an entity type, with what is said of it, in its place in the order; where the map has the type, in place of what
    /// was said of it.
    ///
    /// # Errors
    /// Want of memory. The map stays as it is.
    #[tactic(auto, using(crate::proofs::PutEntry::ascends_put))]
    pub fn push(&mut self, item: (EntityType, EntityEntry)) -> Result<(), AllocError>
        ensures put { OnOk result (plain_entries self.new
            ≡ insert_entry text_cmp (plain_entries self.old) (bytes_of_type item.0)
            (plain_entry item.1)) }
        ensures unchanged { OnErr result (plain_entries self.new ≡ plain_entries self.old) }
    {
        put(&mut self.items, item)
    }

    /// How many entity types it has.
    pub fn len(&self) -> usize
        ensures { result ≡ length (plain_entries self.now) }
    {
        self.items.len()
    }

    /// The entity types with what is said of them, in order.
    pub fn items(&self) -> &[(EntityType, EntityEntry)]
        ensures same { result.now ≡ entries_held self.now }
        ensures named { map entry_named result.now ≡ plain_entries self.now }
    {
        self.items.as_slice()
    }

    /// What is said of an entity type, or `None` exactly where the map does not have the type.
    pub fn get(&self, ety: &EntityType) -> Option<&EntityEntry>
        ensures { option_map (λ entry. plain_entry entry.now) result
            ≡ lookup (bytes_eq (bytes_of_type ety.now)) (plain_entries self.now) }
    {
        for (name, entry) in self.items.as_slice() {
            if ety == name {
                return Some(entry);
            }
        }
        None
    }

    /// An equal map, whose texts are shared.
    ///
    /// # Errors
    /// `Memory`, where there is none for the map.
    pub fn share(&self) -> Result<EntryMap, TermError>
        ensures { IfOk result (λ shared. plain_entries shared ≡ plain_entries self.now) }
    {
        let mut items: Vec<(EntityType, EntityEntry)> = Vec::new(*self.items.allocator());
        for (name, entry) in self.items.as_slice() {
            items.push((name.share()?, entry.share()?))?;
        }
        Ok(EntryMap { items })
    }
}
