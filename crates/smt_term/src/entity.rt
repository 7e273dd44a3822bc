// Entities: their types, their ids, and both together.
ghost use Rattle.std.specs.Prelude.{◌≡◌, IfOk};
ghost use Rattle.smt_term.specs.Entities.{bytes_of_id, bytes_of_type, texts_of_entity};

use crate::error::TermError;
use smt_text::{Text, share_text};

/// A type of entities, by its name. Types order by the bytes of their names.
#[derive(Debug, PartialEq, Eq, PartialOrd, Ord, Drop)]
pub struct EntityType(pub Text);

/// The id of an entity, which tells it from the others of its type. Ids order by their bytes.
#[derive(Debug, PartialEq, Eq, PartialOrd, Ord, Drop)]
pub struct EntityID(pub Text);

/// An entity. Entities order by their types, and those of one type by their ids.
#[derive(Debug, PartialEq, Eq, PartialOrd, Ord, Drop)]
pub struct EntityUID {
    /// The type.
    pub ety: EntityType,
    /// The id among the entities of the type.
    pub id: EntityID,
}

impl EntityType {
    /// An equal type that shares the name.
    ///
    /// # Errors
    /// `Memory`, where there is none for the type.
    pub fn share(&self) -> Result<EntityType, TermError>
        ensures { IfOk result (λ shared. bytes_of_type shared ≡ bytes_of_type self.now) }
    {
        Ok(EntityType(share_text(&self.0)?))
    }
}

impl EntityID {
    /// An equal id that shares the text.
    ///
    /// # Errors
    /// `Memory`, where there is none for the id.
    pub fn share(&self) -> Result<EntityID, TermError>
        ensures { IfOk result (λ shared. bytes_of_id shared ≡ bytes_of_id self.now) }
    {
        Ok(EntityID(share_text(&self.0)?))
    }
}

impl EntityUID {
    /// The type.
    pub fn type_name(&self) -> &EntityType
        ensures { result.now ≡ self.now.ety }
    {
        &self.ety
    }

    /// The id among the entities of the type.
    pub fn id(&self) -> &EntityID
        ensures { result.now ≡ self.now.id }
    {
        &self.id
    }

    /// An equal entity that shares its texts.
    ///
    /// # Errors
    /// `Memory`, where there is none for the entity.
    pub fn share(&self) -> Result<EntityUID, TermError>
        ensures { IfOk result (λ shared. texts_of_entity shared ≡ texts_of_entity self.now) }
    {
        Ok(EntityUID {
            ety: self.ety.share()?,
            id: self.id.share()?,
        })
    }
}
