// What there is to say of the entities of each type.
ghost use Rattle.std.specs.Prelude.{◌≡◌, IfOk, map, option_map};
ghost use Rattle.smt_values.specs.View.{entry_named, plain_action, plain_entry, plain_schema};
ghost use Rattle.smt_values.specs.View.{plain_stored, plain_types};
ghost use Rattle.smt_values.specs.TypeView.{plain_cedar, plain_cedar_attributes};
ghost use Rattle.smt_term.specs.Functions.{plain_unary};
ghost use Rattle.smt_term.specs.Tables.{plain_entry as plain_pair};
ghost use Rattle.smt_term.specs.Entities.{bytes_of_type};
ghost use Rattle.smt_term.specs.Enums.{enums_of};
ghost use Rattle.smt_term.specs.TextSets.{texts_of};
ghost use Rattle.law_cedar.specs.Symbolized as stated;
ghost use Rattle.law_cedar.specs.Tables.{stored_of};
ghost use Rattle.smt_symbolizer.specs.Named.{said};
ghost use Rattle.smt_symbolizer.specs.Stored as held;
ghost use Rattle.smt_symbolizer.specs.EntityView.{plain_data, plain_entities, plain_tags};
ghost use Rattle.smt_values.specs.DefaultTerm.{default_term};
ghost use Rattle.smt_values.specs.Outcomes.{each};
ghost use Rattle.smt_values.specs.Refused.{IsGiven};

use crate::entity_data::{AncestorMap, SymEntities, SymEntityData, SymTags};
use crate::entries::ancestors_entry;
use crate::schema_types::{action_ids, action_types, actions_of, own_types};
use crate::tables::{ancestors_tables, attributes_table, table_of, table_of_sets, tags_tables};
use smt_term::{EntityType, EnumTable, Term, TermError, TermType, TextSet, TypeMap, UnaryFunction};
use smt_values::{
    ActionEntry, Attributes, CedarType, Entity, EntityEntry, EntityTypeList, Schema, SymbolizeError,
};
use std::alloc::{AllocError, Global};

// ---- enum types

/// The attributes of the entities of a type, which have none.
fn no_attributes(
    alloc: Global,
    ety: &EntityType,
    enums: &EnumTable,
) -> Result<UnaryFunction, TermError>
    ensures { IfOk result (λ f.
        plain_unary f
        ≡ stated.no_attributes_table (default_term (enums_of enums.now)) (bytes_of_type ety.now)) }
{
    let rty = TypeMap::new(alloc, &[])?;
    table_of(alloc, ety, TermType::Record { rty }, &[], enums)
}

/// An enum type.
fn enum_data(
    alloc: Global,
    ety: &EntityType,
    members: &TextSet,
    enums: &EnumTable,
) -> Result<SymEntityData, TermError>
    ensures { IfOk result (λ made.
        plain_data made
        ≡ stated.enum_data (default_term (enums_of enums.now)) (bytes_of_type ety.now)
        (texts_of members.now)) }
{
    let members = members.share()?;
    let ancestors = AncestorMap::new(alloc);
    let attrs = no_attributes(alloc, ety, enums)?;
    Ok(SymEntityData {
        attrs,
        ancestors,
        members: Some(members),
        tags: None,
    })
}

// ---- types whose entities are stored

/// The stored entities of a type, in the order of the store.
fn stored_of<'a>(
    alloc: Global,
    ety: &EntityType,
    entities: &'a [Entity],
) -> Result<Vec<&'a Entity>, AllocError>
    ensures { IfOk result (λ found.
        map (λ entity. plain_stored entity.now) found.items
        ≡ stored_of (bytes_of_type ety.now) (map plain_stored entities.now)) }
{
    let mut found: Vec<&'a Entity> = Vec::new(alloc);
    for entity in entities {
        if entity.uid.ety == *ety {
            found.push(entity)?;
        }
    }
    Ok(found)
}

/// The tags of these entities, where the type has any.
fn tags_held(
    alloc: Global,
    ety: &EntityType,
    tags: &Option<CedarType>,
    stored: &[&Entity],
    enums: &EnumTable,
) -> Result<Option<SymTags>, SymbolizeError>
    ensures { IsGiven (option_map plain_tags) result (held.tags_held_of
        (default_term (enums_of enums.now)) (bytes_of_type ety.now)
        (option_map plain_cedar tags.now) (map (λ entity. plain_stored entity.now) stored.now)) }
{
    match tags {
        Some(ty) => Ok(Some(tags_tables(alloc, ety, ty, stored, enums)?)),
        None => Ok(None),
    }
}

/// A type with these entities.
fn standard_data(
    alloc: Global,
    ety: &EntityType,
    kinds: &EntityTypeList,
    attrs: &Attributes,
    tags: &Option<CedarType>,
    stored: &[&Entity],
    enums: &EnumTable,
) -> Result<SymEntityData, SymbolizeError>
    ensures { IsGiven plain_data result (held.data_of (default_term (enums_of enums.now))
        (bytes_of_type ety.now) (plain_types kinds.now) (plain_cedar_attributes attrs.now)
        (option_map plain_cedar tags.now) (map (λ entity. plain_stored entity.now) stored.now)) }
{
    let attrs = attributes_table(alloc, ety, attrs, stored, enums)?;
    let tags = tags_held(alloc, ety, tags, stored, enums)?;
    let ancestors = ancestors_tables(alloc, ety, kinds, stored, enums)?;
    Ok(SymEntityData {
        attrs,
        ancestors,
        members: None,
        tags,
    })
}

/// A type by what the schema says of it.
fn type_data(
    alloc: Global,
    entities: &[Entity],
    ety: &EntityType,
    entry: &EntityEntry,
    enums: &EnumTable,
) -> Result<SymEntityData, SymbolizeError>
    ensures { IsGiven plain_data result (stated.type_data (default_term (enums_of enums.now))
        (map plain_stored entities.now) (bytes_of_type ety.now) (plain_entry entry.now)) }
{
    match entry {
        EntityEntry::Standard {
            ancestors,
            attrs,
            tags,
        } => {
            let stored = stored_of(alloc, ety, entities)?;
            standard_data(alloc, ety, ancestors, attrs, tags, stored.as_slice(), enums)
        }
        EntityEntry::Enum(members) => Ok(enum_data(alloc, ety, members, enums)?),
    }
}

/// A type by what the schema says of it, under its name.
fn typed_data(
    alloc: Global,
    entities: &[Entity],
    entry: &(EntityType, EntityEntry),
    enums: &EnumTable,
) -> Result<(EntityType, SymEntityData), SymbolizeError>
    ensures { IsGiven (said plain_data) result (stated.typed_data
        (default_term (enums_of enums.now)) (map plain_stored entities.now)
        (entry_named entry.now)) }
{
    let own = type_data(alloc, entities, &entry.0, &entry.1, enums)?;
    Ok((entry.0.share()?, own))
}

/// These types, by what the schema says of them, under their names.
fn all_typed_data(
    alloc: Global,
    entities: &[Entity],
    types: &[&(EntityType, EntityEntry)],
    enums: &EnumTable,
) -> Result<Vec<(EntityType, SymEntityData)>, SymbolizeError>
    ensures { IsGiven (λ pairs. map (said plain_data) pairs.items) result
        (each
        (stated.typed_data (default_term (enums_of enums.now)) (map plain_stored entities.now))
        (map (λ p. entry_named p.now) types.now)) }
{
    let mut pairs: Vec<(EntityType, SymEntityData)> = Vec::new(alloc);
    for entry in types {
        pairs.push(typed_data(alloc, entities, entry, enums)?)?;
    }
    Ok(pairs)
}

// ---- types of actions

/// These actions, each with the set of its ancestors of a type.
fn action_entries(
    alloc: Global,
    kind: &EntityType,
    actions: &[&ActionEntry],
) -> Result<Vec<(Term, Term)>, TermError>
    ensures { IfOk result (λ pairs.
        map plain_pair pairs.items
        ≡ map (stated.action_entry (bytes_of_type kind.now))
        (map (λ action. plain_action action.now) actions.now)) }
{
    let mut pairs: Vec<(Term, Term)> = Vec::new(alloc);
    for action in actions {
        pairs.push(ancestors_entry(alloc, kind, &action.uid, &action.ancestors)?)?;
    }
    Ok(pairs)
}

/// A type of ancestors, with the sets of the ancestors of these actions that are of it.
fn action_table(
    alloc: Global,
    ety: &EntityType,
    kind: &EntityType,
    actions: &[&ActionEntry],
    enums: &EnumTable,
) -> Result<(EntityType, UnaryFunction), TermError>
    ensures { IfOk result (λ pair.
        said plain_unary pair
        ≡ (
          bytes_of_type kind.now,
          held.action_table (default_term (enums_of enums.now)) (bytes_of_type ety.now)
              (bytes_of_type kind.now) (map (λ action. plain_action action.now) actions.now),
        )) }
{
    let pairs = action_entries(alloc, kind, actions)?;
    let name = kind.share()?;
    Ok((
        name,
        table_of_sets(alloc, ety, kind, pairs.as_slice(), enums)?,
    ))
}

/// These types of ancestors, each with the sets of the ancestors of these actions that are of it.
fn action_tables(
    alloc: Global,
    ety: &EntityType,
    kinds: &[EntityType],
    actions: &[&ActionEntry],
    enums: &EnumTable,
) -> Result<Vec<(EntityType, UnaryFunction)>, TermError>
    ensures { IfOk result (λ pairs.
        map (said plain_unary) pairs.items
        ≡ map (λ kind. (
          kind,
          held.action_table (default_term (enums_of enums.now)) (bytes_of_type ety.now) kind
              (map (λ action. plain_action action.now) actions.now),
        ))
        (map bytes_of_type kinds.now)) }
{
    let mut pairs: Vec<(EntityType, UnaryFunction)> = Vec::new(alloc);
    for kind in kinds {
        pairs.push(action_table(alloc, ety, kind, actions, enums)?)?;
    }
    Ok(pairs)
}

/// A type with these actions.
fn data_of_actions(
    alloc: Global,
    ety: &EntityType,
    kinds: &[EntityType],
    actions: &[&ActionEntry],
    enums: &EnumTable,
) -> Result<SymEntityData, TermError>
    ensures { IfOk result (λ made.
        plain_data made
        ≡ held.data_of_actions (default_term (enums_of enums.now)) (bytes_of_type ety.now)
        (map bytes_of_type kinds.now) (map (λ action. plain_action action.now) actions.now)) }
{
    let members = action_ids(alloc, actions)?;
    let pairs = action_tables(alloc, ety, kinds, actions, enums)?;
    let ancestors = AncestorMap::of_pairs(alloc, pairs)?;
    let attrs = no_attributes(alloc, ety, enums)?;
    Ok(SymEntityData {
        attrs,
        ancestors,
        members: Some(members),
        tags: None,
    })
}

/// A type of actions, under its name.
fn action_data(
    alloc: Global,
    ety: &EntityType,
    kinds: &[EntityType],
    actions: &[ActionEntry],
    enums: &EnumTable,
) -> Result<(EntityType, SymEntityData), TermError>
    ensures { IfOk result (λ pair.
        said plain_data pair
        ≡ (
          bytes_of_type ety.now,
          held.data_of_actions (default_term (enums_of enums.now)) (bytes_of_type ety.now)
              (map bytes_of_type kinds.now)
              (stated.actions_of (bytes_of_type ety.now) (map plain_action actions.now)),
        )) }
{
    let found = actions_of(alloc, ety, actions)?;
    let name = ety.share()?;
    Ok((
        name,
        data_of_actions(alloc, ety, kinds, found.as_slice(), enums)?,
    ))
}

/// These types of actions, under their names.
fn all_action_data(
    alloc: Global,
    kinds: &[EntityType],
    actions: &[ActionEntry],
    enums: &EnumTable,
) -> Result<Vec<(EntityType, SymEntityData)>, TermError>
    ensures { IfOk result (λ pairs.
        map (said plain_data) pairs.items
        ≡ map (λ type. (
          type,
          held.data_of_actions (default_term (enums_of enums.now)) type
              (map bytes_of_type kinds.now) (stated.actions_of type (map plain_action actions.now)),
        ))
        (map bytes_of_type kinds.now)) }
{
    let mut pairs: Vec<(EntityType, SymEntityData)> = Vec::new(alloc);
    for ety in kinds {
        pairs.push(action_data(alloc, ety, kinds, actions, enums)?)?;
    }
    Ok(pairs)
}

/// The types of the actions of a schema, under their names.
fn actions_data(
    alloc: Global,
    actions: &[ActionEntry],
    enums: &EnumTable,
) -> Result<Vec<(EntityType, SymEntityData)>, TermError>
    ensures { IfOk result (λ pairs.
        map (said plain_data) pairs.items
        ≡ map (λ type. (
          type,
          stated.action_data (default_term (enums_of enums.now)) (map plain_action actions.now)
              type,
        ))
        (stated.action_types (map plain_action actions.now))) }
{
    let kinds = action_types(alloc, actions)?;
    all_action_data(alloc, kinds.as_slice(), actions, enums)
}

// ---- all types

/// What there is to say of the entities of each type of a schema: of a type that an action has, what the schema says of its
/// actions; of an enum type, its members; of any other, what is stored of its entities. Where a table has no entry, its
/// function is the default of its type, for which `enums` has the enum types.
///
/// # Errors
/// By entity types in the order of their bytes: `CompileError` of the type of attributes, and the first refusal of the
/// stored entities' attributes, `PartialValue` where one of them is not known; then of the type of the tags, and of the
/// tags. `Memory`, where there is none for the terms.
pub(crate) fn entities_of(
    alloc: Global,
    schema: &Schema,
    entities: &[Entity],
    enums: &EnumTable,
) -> Result<SymEntities, SymbolizeError>
    ensures { IsGiven plain_entities result (stated.entities_of (default_term (enums_of enums.now))
        (plain_schema schema.now) (map plain_stored entities.now)) }
{
    let own = own_types(alloc, schema)?;
    let mut pairs = all_typed_data(alloc, entities, own.as_slice(), enums)?;
    let mut others = actions_data(alloc, schema.actions.items(), enums)?;
    pairs.append(&mut others)?;
    Ok(SymEntities::of_pairs(alloc, pairs)?)
}
