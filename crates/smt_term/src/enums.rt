// The enum types that an encoder reads of its environment.
ghost use Rattle.std.specs.Prelude.{◌≡◌, [], ℕ, List, IfOk, OnErr, bytes_eq, is_some, map, not};
ghost use Rattle.std.specs.Prelude.{option_map};
ghost use Rattle.std.specs.Bool.{OnFalse, OnTrue};
ghost use Rattle.std.specs.BTreeMap.{insert_entry};
ghost use Rattle.std.specs.Map.{update};
ghost use Rattle.std.specs.Rc.{rc_str_bytes};
ghost use Rattle.law_terms.specs.TypeValues.{members_of};
ghost use Rattle.law_terms.specs.ValueOrder.{text_cmp};
ghost use Rattle.smt_term.specs.Entities.{bytes_of_type};
ghost use Rattle.smt_term.specs.Enums.{enums_of};
ghost use Rattle.smt_term.specs.TextSets.{sorted_texts, texts_of};

use crate::entity::EntityType;
use crate::error::TermError;
use crate::texts::TextSet;
use smt_text::Text;
use std::alloc::Global;
use std::collections::BTreeMap;

/// Entity types whose entities are listed by name, in the order of the types' names, each with its members in the order of
/// their bytes.
#[derive(Debug, Drop)]
pub struct EnumTable {
    alloc: Global,
    types: BTreeMap<EntityType, TextSet>,
}

impl EnumTable {
    /// The table without enum types. Takes no memory.
    pub fn new(alloc: Global) -> EnumTable
        ensures { enums_of result ≡ [] }
    {
        EnumTable {
            alloc,
            types: BTreeMap::new(alloc),
        }
    }

    /// Enters an enum type with these members, which it sorts; of equal ones it keeps one. Where the table has the type, it
    /// stays as it is, and the answer is false.
    ///
    /// # Examples
    ///
    /// ```
    /// use kembura::{EntityType, EnumTable, Text};
    ///
    /// let mut enums = EnumTable::new(alloc);
    /// let color = EntityType(Text::from_str(alloc, "Color")?);
    /// let members = [Text::from_str(alloc, "red")?, Text::from_str(alloc, "green")?];
    /// assert!(rt; enums.insert(color, &members)?);
    /// ```
    ///
    /// # Errors
    /// `Memory`, where there is none for the entry. The table stays as it is.
    pub fn insert(&mut self, ety: EntityType, members: &[Text]) -> Result<bool, TermError>
        ensures added { IfOk result
            (λ added. added ≡ not (is_some (members_of (enums_of self.old) (bytes_of_type ety)))) }
        ensures entered { IfOk result (λ added.
            OnTrue added ((e : List ℕ) →
            members_of (enums_of self.new) e
            ≡ update bytes_eq (members_of (enums_of self.old)) (bytes_of_type ety)
            (Some (sorted_texts (map rc_str_bytes members.now))) e)) }
        ensures placed { IfOk result (λ added.
            OnTrue added (enums_of self.new
            ≡ insert_entry text_cmp (enums_of self.old) (bytes_of_type ety)
            (sorted_texts (map rc_str_bytes members.now)))) }
        ensures kept { IfOk result
            (λ added. OnFalse added (enums_of self.new ≡ enums_of self.old)) }
        ensures unchanged { OnErr result (enums_of self.new ≡ enums_of self.old) }
    {
        if self.types.contains_key(&ety) {
            return Ok(false);
        }
        let members = TextSet::new(self.alloc, members)?;
        self.types.insert(ety, members)?;
        Ok(true)
    }

    /// The members of an enum type, or `None` exactly where the table does not have the type.
    pub fn members_of(&self, ety: &EntityType) -> Option<&TextSet>
        ensures { option_map (λ set. texts_of set.now) result
            ≡ members_of (enums_of self.now) (bytes_of_type ety.now) }
    {
        self.types.get(ety)
    }
}
