// What there is to say of entities.
ghost use Rattle.std.specs.Prelude.{◌≡◌, IfOk, option_map};
ghost use Rattle.smt_term.specs.TextSets.{texts_of};
ghost use Rattle.smt_term.specs.Functions.{plain_unary};
ghost use Rattle.smt_symbolizer.specs.ByType.{said_by};
ghost use Rattle.smt_symbolizer.specs.EntityView.{plain_data, plain_entities, plain_tags};

use crate::by_type::ByType;
use smt_term::{EntityType, TermError, TextSet, UnaryFunction};

/// What there is to say of the tags of the entities of a type.
#[derive(Debug, PartialEq, Eq)]
pub struct SymTags {
    /// The set of the keys of an entity's tags, by the entity.
    pub keys: UnaryFunction,
    /// The value of a tag, by the record of the entity and of the tag's key.
    pub vals: UnaryFunction,
}

// By hand, since a derived one is written out in each function that lets tags go.
impl Drop for SymTags {
    fn drop(self) {
        let SymTags { keys: _, vals: _ } = self;
    }
}

/// What there is to say of the entities of a type.
#[derive(Debug, PartialEq, Eq)]
pub struct SymEntityData {
    /// The record of an entity's attributes, by the entity.
    pub attrs: UnaryFunction,
    /// For each type of ancestors the set of an entity's ancestors of that type, by the entity.
    pub ancestors: AncestorMap,
    /// The ids of all of the type's entities, where these are listed.
    pub members: Option<TextSet>,
    /// The tags of the entities, where they may have any.
    pub tags: Option<SymTags>,
}

// By hand, since a derived one is written out in each function that lets what is said of entities go.
impl Drop for SymEntityData {
    fn drop(self) {
        let SymEntityData {
            attrs: _,
            ancestors: _,
            members: _,
            tags: _,
        } = self;
    }
}

/// The sets of ancestors of the entities of a type, by the type of the ancestors.
pub type AncestorMap = ByType<UnaryFunction>;

/// What there is to say of entities, by their types.
pub type SymEntities = ByType<SymEntityData>;

impl SymTags {
    /// Equal tags that share their functions.
    ///
    /// # Errors
    /// `Memory`, where there is none for the functions.
    pub fn share(&self) -> Result<SymTags, TermError>
        ensures { IfOk result (λ shared. plain_tags shared ≡ plain_tags self.now) }
    {
        Ok(SymTags {
            keys: self.keys.share()?,
            vals: self.vals.share()?,
        })
    }
}

impl SymEntityData {
    /// What there is to say of the same entities, with the functions and the texts shared.
    ///
    /// # Errors
    /// `Memory`, where there is none for the maps and the functions.
    pub fn share(&self) -> Result<SymEntityData, TermError>
        ensures { IfOk result (λ shared. plain_data shared ≡ plain_data self.now) }
    {
        Ok(SymEntityData {
            attrs: self.attrs.share()?,
            ancestors: self.ancestors.share()?,
            members: shared_members(&self.members)?,
            tags: shared_tags(&self.tags)?,
        })
    }
}

impl ByType<UnaryFunction> {
    /// An equal map, whose types and functions are shared.
    ///
    /// # Errors
    /// `Memory`, where there is none for the map.
    pub fn share(&self) -> Result<AncestorMap, TermError>
        ensures { IfOk result
            (λ shared. said_by plain_unary shared ≡ said_by plain_unary self.now) }
    {
        let mut pairs: Vec<(EntityType, UnaryFunction)> = self.room();
        for (kind, function) in self.items() {
            pairs.push((kind.share()?, function.share()?))?;
        }
        Ok(ByType::of_ascending(pairs))
    }
}

impl ByType<SymEntityData> {
    /// An equal map, whose types and functions are shared.
    ///
    /// # Errors
    /// `Memory`, where there is none for the maps and the functions.
    pub fn share(&self) -> Result<SymEntities, TermError>
        ensures { IfOk result (λ shared. plain_entities shared ≡ plain_entities self.now) }
    {
        let mut pairs: Vec<(EntityType, SymEntityData)> = self.room();
        for (ety, own) in self.items() {
            pairs.push((ety.share()?, own.share()?))?;
        }
        Ok(ByType::of_ascending(pairs))
    }
}

// The ids of a type's entities, where these are listed, shared.
fn shared_members(members: &Option<TextSet>) -> Result<Option<TextSet>, TermError>
    ensures { IfOk result (λ shared. option_map texts_of shared ≡ option_map texts_of members.now) }
{
    match members {
        Some(ids) => Ok(Some(ids.share()?)),
        None => Ok(None),
    }
}

// The tags of a type's entities, where they may have any, shared.
fn shared_tags(tags: &Option<SymTags>) -> Result<Option<SymTags>, TermError>
    ensures { IfOk result
        (λ shared. option_map plain_tags shared ≡ option_map plain_tags tags.now) }
{
    match tags {
        Some(own) => Ok(Some(own.share()?)),
        None => Ok(None),
    }
}
