// What a schema says of an entity type, and how that gets into a list.
ghost use Rattle.std.specs.Prelude.{◌≡◌, ◌≤◌, IfOk, OnErr, OnOk, length, map, option_map};
ghost use Rattle.std.specs.BTreeMap.{insert_entry};
ghost use Rattle.std.specs.List.{position_or_len};
ghost use Rattle.law_terms.specs.ValueOrder.{text_cmp};
ghost use Rattle.smt_term.specs.Entities.{bytes_of_type};
ghost use Rattle.smt_values.specs.TypeView.{plain_cedar};
ghost use Rattle.smt_values.specs.Entries.{is_not_above};
ghost use Rattle.smt_values.specs.View.{entry_named, plain_entry};

use crate::{Attributes, CedarType, EntityTypeList};
use smt_term::{EntityType, TermError, TextSet};
use std::alloc::AllocError;
use std::cmp::Ordering;

/// What a schema says of an entity type.
#[derive(Debug, PartialEq, Eq)]
pub enum EntityEntry {
    /// A type whose entities have attributes, ancestors and maybe tags.
    Standard {
        /// The types of the ancestors that its entities may have.
        ancestors: EntityTypeList,
        /// The attributes of its entities.
        attrs: Attributes,
        /// The type of the tags' values, where its entities may have tags.
        tags: Option<CedarType>,
    },
    /// A type whose entities are those of these ids.
    Enum(TextSet),
}

// By hand, since a derived one is written out in each function that lets an entry go.
impl Drop for EntityEntry {
    fn drop(self) {
        match self {
            EntityEntry::Standard {
                ancestors: _,
                attrs: _,
                tags: _,
            } => {}
            EntityEntry::Enum(_) => {}
        }
    }
}

impl EntityEntry {
    /// An equal entry, whose texts are shared.
    ///
    /// # Errors
    /// `Memory`, where there is none for the entry.
    #[tactic(auto, using(crate::proofs::Shared::attributes_alike))]
    pub fn share(&self) -> Result<EntityEntry, TermError>
        ensures { IfOk result (λ shared. plain_entry shared ≡ plain_entry self.now) }
    {
        match self {
            EntityEntry::Standard {
                ancestors,
                attrs,
                tags,
            } => Ok(EntityEntry::Standard {
                ancestors: ancestors.share()?,
                attrs: attrs.share()?,
                tags: shared_type(tags)?,
            }),
            EntityEntry::Enum(members) => Ok(EntityEntry::Enum(members.share()?)),
        }
    }
}

// The type of tags, where there is one, shared.
fn shared_type(tags: &Option<CedarType>) -> Result<Option<CedarType>, TermError>
    ensures { IfOk result
        (λ shared. option_map plain_cedar shared ≡ option_map plain_cedar tags.now) }
{
    match tags {
        Some(ty) => Ok(Some(ty.share()?)),
        None => Ok(None),
    }
}

/// Puts an entry in the place of its type.
///
/// # Errors
/// Want of memory. The list stays as it is.
#[tactic(auto, using(crate::proofs::PutEntry::entry_set, crate::proofs::PutEntry::entry_insert))]
pub(crate) fn put(
    items: &mut Vec<(EntityType, EntityEntry)>,
    item: (EntityType, EntityEntry),
) -> Result<(), AllocError>
    ensures put { OnOk result (map entry_named items.new.items
        ≡ insert_entry text_cmp (map entry_named items.old.items) (bytes_of_type item.0)
        (plain_entry item.1)) }
    ensures unchanged { OnErr result (items.new.items ≡ items.old.items) }
{
    let place = place_of(items.as_slice(), &item.0);
    if place < items.len() && items[place].0 == item.0 {
        items[place] = item;
        return Ok(());
    }
    items.insert(place, item)?;
    Ok(())
}

// The place of the first entry whose type is not below this one, or the count of all.
fn place_of(items: &[(EntityType, EntityEntry)], ety: &EntityType) -> usize
    ensures place { result
        ≡ position_or_len (is_not_above (bytes_of_type ety.now)) (map entry_named items.now) }
    ensures bound { result ≤ length items.now }
{
    let mut place = 0;
    for item in items {
        match ety.cmp(&item.0) {
            Ordering::Greater => place += 1,
            Ordering::Equal => return place,
            Ordering::Less => return place,
        }
    }
    place
}
