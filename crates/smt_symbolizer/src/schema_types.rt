// The types of a schema: those of actions, those that no action has, and those whose entities are listed.
ghost use Rattle.std.specs.Prelude.{◌≡◌, ℕ, List, IfOk, OnOk, [], ◌∷◌, map};
ghost use Rattle.std.specs.List.{filter_map};
ghost use Rattle.std.specs.Option.{option_or};
ghost use Rattle.std.specs.Rc.{rc_str_bytes};
ghost use Rattle.smt_values.specs.View.{entry_named, plain_action, plain_schema};
ghost use Rattle.smt_term.specs.Entities.{bytes_of_type};
ghost use Rattle.smt_term.specs.Enums.{enums_of};
ghost use Rattle.smt_term.specs.TextSets.{sorted_texts, texts_of};
ghost use Rattle.law_terms.specs.TypeValues.{members_of};
ghost use Rattle.law_cedar.specs.Symbolized as stated;
ghost use Rattle.smt_symbolizer.specs.Named.{said};

use smt_term::{EntityType, EnumTable, TermError, Text, TextSet};
use smt_text::share_text;
use smt_values::{ActionEntry, EntityEntry, Schema};
use std::alloc::{AllocError, Global};

/// Whether an action is of a type.
fn is_action_type(actions: &[ActionEntry], ety: &EntityType) -> bool
    ensures { result
        ≡ stated.is_action_type (map plain_action actions.now) (bytes_of_type ety.now) }
{
    for action in actions {
        if action.uid.ety == *ety {
            return true;
        }
    }
    false
}

/// The entity types of a schema that no action has.
pub(crate) fn own_types(
    alloc: Global,
    schema: &Schema,
) -> Result<Vec<&(EntityType, EntityEntry)>, AllocError>
    ensures { IfOk result (λ types.
        map (λ p. entry_named p.now) types.items ≡ stated.own_types (plain_schema schema.now)) }
{
    let actions = schema.actions.items();
    let mut types: Vec<&(EntityType, EntityEntry)> = Vec::new(alloc);
    for entry in schema.entity_types.items() {
        if !is_action_type(actions, &entry.0) {
            types.push(entry)?;
        }
    }
    Ok(types)
}

// ---- the types of actions

/// The names of the actions' types.
fn names_of_types(alloc: Global, actions: &[ActionEntry]) -> Result<Vec<Text>, AllocError>
    ensures { IfOk result (λ names.
        map rc_str_bytes names.items
        ≡ map (λ action. action.uid.0) (map plain_action actions.now)) }
{
    let mut names: Vec<Text> = Vec::new(alloc);
    for action in actions {
        names.push(share_text(&action.uid.ety.0)?)?;
    }
    Ok(names)
}

/// The types of these names.
fn types_named(alloc: Global, names: &[Text]) -> Result<Vec<EntityType>, AllocError>
    ensures { IfOk result (λ types. map bytes_of_type types.items ≡ map rc_str_bytes names.now) }
{
    let mut types: Vec<EntityType> = Vec::new(alloc);
    for name in names {
        types.push(EntityType(share_text(name)?))?;
    }
    Ok(types)
}

/// The types of actions, in the order of their bytes, each once.
pub(crate) fn action_types(
    alloc: Global,
    actions: &[ActionEntry],
) -> Result<Vec<EntityType>, TermError>
    ensures { IfOk result (λ types.
        map bytes_of_type types.items ≡ stated.action_types (map plain_action actions.now)) }
{
    let names = names_of_types(alloc, actions)?;
    let set = TextSet::new(alloc, names.as_slice())?;
    Ok(types_named(alloc, set.items())?)
}

/// The actions of a type.
pub(crate) fn actions_of<'a>(
    alloc: Global,
    ety: &EntityType,
    actions: &'a [ActionEntry],
) -> Result<Vec<&'a ActionEntry>, AllocError>
    ensures { IfOk result (λ found.
        map (λ action. plain_action action.now) found.items
        ≡ stated.actions_of (bytes_of_type ety.now) (map plain_action actions.now)) }
{
    let mut found: Vec<&ActionEntry> = Vec::new(alloc);
    for action in actions {
        if action.uid.ety == *ety {
            found.push(action)?;
        }
    }
    Ok(found)
}

/// The ids of these actions.
fn ids_of(alloc: Global, actions: &[&ActionEntry]) -> Result<Vec<Text>, AllocError>
    ensures { IfOk result (λ ids.
        map rc_str_bytes ids.items
        ≡ map (λ action. action.uid.1) (map (λ action. plain_action action.now) actions.now)) }
{
    let mut ids: Vec<Text> = Vec::new(alloc);
    for action in actions {
        ids.push(share_text(&action.uid.id.0)?)?;
    }
    Ok(ids)
}

/// The ids of these actions, in the order of their bytes, each once.
pub(crate) fn action_ids(alloc: Global, actions: &[&ActionEntry]) -> Result<TextSet, TermError>
    ensures { IfOk result (λ ids.
        texts_of ids
        ≡ sorted_texts
        (map (λ action. action.uid.1) (map (λ action. plain_action action.now) actions.now))) }
{
    let ids = ids_of(alloc, actions)?;
    TextSet::new(alloc, ids.as_slice())
}

// ---- the types whose entities are listed

/// A type with its members, both shared.
///
/// # Errors
/// `Memory`, where there is none for them.
pub fn listed(ety: &EntityType, members: &TextSet) -> Result<(EntityType, TextSet), TermError>
    ensures { IfOk result (λ p. said texts_of p ≡ (bytes_of_type ety.now, texts_of members.now)) }
{
    Ok((ety.share()?, members.share()?))
}

/// The enum types among these, each with its members.
fn enum_types(
    alloc: Global,
    types: &[&(EntityType, EntityEntry)],
) -> Result<Vec<(EntityType, TextSet)>, TermError>
    ensures { IfOk result (λ found.
        map (said texts_of) found.items
        ≡ filter_map stated.enum_entry (map (λ p. entry_named p.now) types.now)) }
{
    let mut found: Vec<(EntityType, TextSet)> = Vec::new(alloc);
    for entry in types {
        if let EntityEntry::Enum(members) = &entry.1 {
            found.push(listed(&entry.0, members)?)?;
        }
    }
    Ok(found)
}

/// A type of actions, with the ids of these.
fn listed_actions(
    alloc: Global,
    ety: &EntityType,
    actions: &[ActionEntry],
) -> Result<(EntityType, TextSet), TermError>
    ensures { IfOk result (λ p.
        said texts_of p
        ≡ (
          bytes_of_type ety.now,
          stated.action_ids (map plain_action actions.now) (bytes_of_type ety.now),
        )) }
{
    let found = actions_of(alloc, ety, actions)?;
    let ids = action_ids(alloc, found.as_slice())?;
    Ok((ety.share()?, ids))
}

/// These types of actions, each with the ids of its actions.
fn types_of_actions(
    alloc: Global,
    types: &[EntityType],
    actions: &[ActionEntry],
) -> Result<Vec<(EntityType, TextSet)>, TermError>
    ensures { IfOk result (λ found.
        map (said texts_of) found.items
        ≡ map (λ type. (type, stated.action_ids (map plain_action actions.now) type))
        (map bytes_of_type types.now)) }
{
    let mut found: Vec<(EntityType, TextSet)> = Vec::new(alloc);
    for ety in types {
        found.push(listed_actions(alloc, ety, actions)?)?;
    }
    Ok(found)
}

/// The types of a schema whose entities are listed, each with its members.
fn listed_pairs(alloc: Global, schema: &Schema) -> Result<Vec<(EntityType, TextSet)>, TermError>
    ensures { IfOk result
        (λ found. map (said texts_of) found.items ≡ stated.listed_types (plain_schema schema.now)) }
{
    let actions = schema.actions.items();
    let own = own_types(alloc, schema)?;
    let types = action_types(alloc, actions)?;
    let mut found = enum_types(alloc, own.as_slice())?;
    let mut others = types_of_actions(alloc, types.as_slice(), actions)?;
    found.append(&mut others)?;
    Ok(found)
}

/// Enters a type with its members, where the table does not have it.
fn enter(table: &mut EnumTable, ety: &EntityType, members: &TextSet) -> Result<(), TermError>
    ensures { OnOk result ((t : List ℕ) →
        members_of (enums_of table.new) t
        ≡ option_or (members_of (enums_of table.old) t)
        (members_of ((bytes_of_type ety.now, texts_of members.now) ∷ []) t)) }
{
    table.insert(ety.share()?, members.items())?;
    Ok(())
}

/// The table of these types, each with its members; of a type that is there twice the first counts.
///
/// # Errors
/// `Memory`, where there is none for the table.
pub(crate) fn table_of_members(
    alloc: Global,
    types: &[(EntityType, TextSet)],
) -> Result<EnumTable, TermError>
    ensures { IfOk result (λ table.
        (t : List ℕ) →
        members_of (enums_of table) t ≡ members_of (map (said texts_of) types.now) t) }
{
    let mut table = EnumTable::new(alloc);
    for (ety, members) in types {
        enter(&mut table, ety, members)?;
    }
    Ok(table)
}

/// The table of the types of a schema whose entities are listed, each with its members: of the enum types that no action
/// has, and of the types of actions, whose members are the ids of the actions.
///
/// # Errors
/// `Memory`, where there is none for the table.
pub(crate) fn listed_types(alloc: Global, schema: &Schema) -> Result<EnumTable, TermError>
    ensures { IfOk result (λ table.
        (t : List ℕ) →
        members_of (enums_of table) t
        ≡ members_of (stated.listed_types (plain_schema schema.now)) t) }
{
    let found = listed_pairs(alloc, schema)?;
    table_of_members(alloc, found.as_slice())
}
