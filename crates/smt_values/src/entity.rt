// Entities, and how one gets into a list of them.
ghost use Rattle.std.specs.Prelude.{◌≡◌, IfOk, OnErr, OnOk, map};
ghost use Rattle.std.specs.List.{position_or_len};
ghost use Rattle.smt_term.specs.Entities.{texts_of_entity};
ghost use Rattle.smt_values.specs.Stores.{is_named, put_entity};
ghost use Rattle.smt_values.specs.View.{plain_stored};

use crate::PartialMap;
use crate::uids::UidList;
use smt_term::{EntityUID, TermError};
use std::alloc::AllocError;

/// A stored entity.
#[derive(Debug, PartialEq, Eq)]
pub struct Entity {
    /// The entity.
    pub uid: EntityUID,
    /// Its attributes, each with what is known of its value.
    pub attrs: PartialMap,
    /// Its ancestors.
    pub ancestors: UidList,
    /// Its tags, each with what is known of its value.
    pub tags: PartialMap,
}

// By hand, since a derived one is written out in each function that lets an entity go.
impl Drop for Entity {
    fn drop(self) {
        let Entity {
            uid: _,
            attrs: _,
            ancestors: _,
            tags: _,
        } = self;
    }
}

impl Entity {
    /// An equal entity, whose texts are shared.
    ///
    /// # Errors
    /// `Memory`, where there is none for the entity.
    pub fn share(&self) -> Result<Entity, TermError>
        ensures { IfOk result (λ shared. plain_stored shared ≡ plain_stored self.now) }
    {
        Ok(Entity {
            uid: self.uid.share()?,
            attrs: self.attrs.share()?,
            ancestors: self.ancestors.share()?,
            tags: self.tags.share()?,
        })
    }
}

/// Puts an entity in the place of the one of its uid, or else at the end.
///
/// # Errors
/// Want of memory. The list stays as it is.
#[tactic(auto, using(crate::proofs::PutEntity::entity_set, crate::proofs::PutEntity::entity_push))]
pub(crate) fn put(items: &mut Vec<Entity>, entity: Entity) -> Result<(), AllocError>
    ensures put { OnOk result (map plain_stored items.new.items
        ≡ put_entity (plain_stored entity) (map plain_stored items.old.items)) }
    ensures unchanged { OnErr result (items.new.items ≡ items.old.items) }
{
    let place = place_of(items.as_slice(), &entity.uid);
    if place < items.len() {
        items[place] = entity;
        return Ok(());
    }
    items.push(entity)?;
    Ok(())
}

// The place of the first entity of this uid, or the count of all.
fn place_of(items: &[Entity], uid: &EntityUID) -> usize
    ensures { result
        ≡ position_or_len (is_named (texts_of_entity uid.now)) (map plain_stored items.now) }
{
    let mut place = 0;
    for item in items {
        if item.uid == *uid {
            return place;
        }
        place += 1;
    }
    place
}
