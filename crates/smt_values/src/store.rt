// Stores of entities.
ghost use Rattle.std.specs.Prelude.{◌≡◌, [], IfOk, OnErr, OnOk, length, map, option_map};
ghost use Rattle.std.proofs.Props.{props};
ghost use Rattle.std.specs.List.{IsDistinct};
ghost use Rattle.smt_term.specs.Entities.{texts_of_entity};
ghost use Rattle.smt_values.specs.Uids.{same_uid};

use crate::entity::{Entity, put};
use smt_term::{EntityUID, TermError};
use std::alloc::{AllocError, Global};

/// Stored entities, in the order in which they first came, one of each uid.
#[derive(Debug, PartialEq, Eq, Drop)]
pub struct Entities {
    items: Vec<Entity>,
    pub ghost distinct: { IsDistinct same_uid (map (λ e. texts_of_entity e.uid) items.items) } by { Prim.hlevel props },
}

impl Entities {
    ghost use Rattle.smt_values.specs.Stores.{entity_of, put_entity};
    ghost use Rattle.smt_values.specs.View.{entities_held, plain_entities, plain_stored};

    /// The store without entities. Takes no memory.
    #[tactic(auto, using(crate::proofs::PutEntity::none_distinct))]
    pub fn new(alloc: Global) -> Entities
        ensures { plain_entities result ≡ [] }
    {
        Entities {
            items: Vec::new(alloc),
        }
    }

    /// Puts an entity in the place of the one of its uid, or else at the end.
    ///
    /// # Errors
    /// Want of memory. The store stays as it is.
    #[tactic(auto, using(crate::proofs::PutEntity::distinct_entities))]
    pub fn push(&mut self, item: Entity) -> Result<(), AllocError>
        ensures put { OnOk result
            (plain_entities self.new ≡ put_entity (plain_stored item) (plain_entities self.old)) }
        ensures unchanged { OnErr result (plain_entities self.new ≡ plain_entities self.old) }
    {
        put(&mut self.items, item)
    }

    /// How many entities it has.
    pub fn len(&self) -> usize
        ensures { result ≡ length (plain_entities self.now) }
    {
        self.items.len()
    }

    /// The entities, in order.
    pub fn items(&self) -> &[Entity]
        ensures same { result.now ≡ entities_held self.now }
        ensures said { map plain_stored result.now ≡ plain_entities self.now }
    {
        self.items.as_slice()
    }

    /// The entity of a uid, or `None` exactly where the store has none.
    pub fn get(&self, uid: &EntityUID) -> Option<&Entity>
        ensures { option_map (λ entity. plain_stored entity.now) result
            ≡ entity_of (plain_entities self.now) (texts_of_entity uid.now) }
    {
        for entity in self.items.as_slice() {
            if entity.uid == *uid {
                return Some(entity);
            }
        }
        None
    }

    /// An equal store, whose texts are shared.
    ///
    /// # Errors
    /// `Memory`, where there is none for the store.
    pub fn share(&self) -> Result<Entities, TermError>
        ensures { IfOk result (λ shared. plain_entities shared ≡ plain_entities self.now) }
    {
        let mut items: Vec<Entity> = Vec::new(*self.items.allocator());
        for item in self.items.as_slice() {
            items.push(item.share()?)?;
        }
        Ok(Entities { items })
    }
}
