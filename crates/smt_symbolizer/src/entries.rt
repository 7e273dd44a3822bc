// What tables have for each entity.
ghost use Rattle.std.specs.Prelude.{◌≡◌, IfOk, bytes_eq, map};
ghost use Rattle.std.specs.List.{filter};
ghost use Rattle.std.specs.Map.{keys_of};
ghost use Rattle.std.specs.Rc.{rc_str_bytes};
ghost use Rattle.smt_values.specs.View.{plain_stored, plain_uids};
ghost use Rattle.smt_values.specs.TypeView.{plain_cedar, plain_cedar_attributes};
ghost use Rattle.smt_values.specs.ValueView.{known_fields, plain_known};
ghost use Rattle.law_folding.specs.FoldRecords.{tag_record};
ghost use Rattle.smt_term.specs.Tables.{plain_entry};
ghost use Rattle.smt_term.specs.Entities.{bytes_of_type, texts_of_entity};
ghost use Rattle.law_cedar.specs.Tables as stated;
ghost use Rattle.law_cedar.specs.Tables.{entity_term, text_term};
ghost use Rattle.smt_symbolizer.specs.Stored.{all_tag_entries};
ghost use Rattle.smt_term.specs.View.{BuildsTerm, plain_terms};
ghost use Rattle.smt_values.specs.Outcomes.{each};
ghost use Rattle.smt_values.specs.Refused.{IsGiven};

use crate::values::{fields_term, known_value};
use smt_factory_core::{set_of, tag_of};
use smt_term::{Attr, EntityType, EntityUID, Term, TermError, TermType};
use smt_text::share_text;
use smt_values::{
    Attributes, CedarType, Entity, FromCedar, PartialMap, PartialValue, SymbolizeError, UidList,
};
use std::alloc::Global;

/// The entity as a term: its literal.
///
/// # Errors
/// `Memory`, where there is none for the term.
pub(crate) fn entity_term(uid: &EntityUID) -> Result<Term, TermError>
    ensures { BuildsTerm result (entity_term (texts_of_entity uid.now)) }
{
    Ok(Term::from(uid.share()?))
}

/// The text as a term.
fn text_term(text: &Attr) -> Result<Term, TermError>
    ensures { BuildsTerm result (text_term (rc_str_bytes text.now)) }
{
    Ok(Term::from(share_text(text)?))
}

/// Those of these entities that are of a type, as terms.
fn terms_of_type(
    alloc: Global,
    kind: &EntityType,
    uids: &[EntityUID],
) -> Result<Vec<Term>, TermError>
    ensures { IfOk result (λ ts.
        plain_terms ts.items
        ≡ map entity_term
        (filter (λ uid. bytes_eq uid.0 (bytes_of_type kind.now)) (map texts_of_entity uids.now))) }
{
    let mut terms: Vec<Term> = Vec::new(alloc);
    for uid in uids {
        if uid.ety == *kind {
            terms.push(entity_term(uid)?)?;
        }
    }
    Ok(terms)
}

/// The set of those of these entities that are of a type.
pub(crate) fn set_of_type(
    alloc: Global,
    kind: &EntityType,
    uids: &UidList,
) -> Result<Term, TermError>
    ensures { BuildsTerm result
        (stated.set_of_type (bytes_of_type kind.now) (plain_uids uids.now)) }
{
    let terms = terms_of_type(alloc, kind, uids.items())?;
    set_of(
        alloc,
        terms.as_slice(),
        TermType::Entity { ety: kind.share()? },
    )
}

// ---- attributes

/// An entity with the record of its attributes.
fn attributes_entry(
    alloc: Global,
    attrs: &Attributes,
    entity: &Entity,
) -> Result<(Term, Term), SymbolizeError>
    ensures { IsGiven plain_entry result
        (stated.attributes_entry (plain_cedar_attributes attrs.now) (plain_stored entity.now)) }
{
    let record = fields_term(alloc, attrs, &entity.attrs)?;
    Ok((entity_term(&entity.uid)?, record))
}

/// These entities, each with the record of its attributes.
pub(crate) fn attributes_entries(
    alloc: Global,
    attrs: &Attributes,
    stored: &[&Entity],
) -> Result<Vec<(Term, Term)>, SymbolizeError>
    ensures { IsGiven (λ pairs. map plain_entry pairs.items) result
        (each (stated.attributes_entry (plain_cedar_attributes attrs.now))
        (map (λ entity. plain_stored entity.now) stored.now)) }
{
    let mut pairs: Vec<(Term, Term)> = Vec::new(alloc);
    for entity in stored {
        pairs.push(attributes_entry(alloc, attrs, entity)?)?;
    }
    Ok(pairs)
}

// ---- ancestors

/// An entity with the set of its ancestors of a type.
pub(crate) fn ancestors_entry(
    alloc: Global,
    kind: &EntityType,
    uid: &EntityUID,
    ancestors: &UidList,
) -> Result<(Term, Term), TermError>
    ensures { IfOk result (λ pair.
        plain_entry pair
        ≡ (
          entity_term (texts_of_entity uid.now),
          stated.set_of_type (bytes_of_type kind.now) (plain_uids ancestors.now),
        )) }
{
    let set = set_of_type(alloc, kind, ancestors)?;
    Ok((entity_term(uid)?, set))
}

/// These entities, each with the set of its ancestors of a type.
pub(crate) fn ancestors_entries(
    alloc: Global,
    kind: &EntityType,
    stored: &[&Entity],
) -> Result<Vec<(Term, Term)>, TermError>
    ensures { IfOk result (λ pairs.
        map plain_entry pairs.items
        ≡ map (stated.ancestors_entry (bytes_of_type kind.now))
        (map (λ entity. plain_stored entity.now) stored.now)) }
{
    let mut pairs: Vec<(Term, Term)> = Vec::new(alloc);
    for entity in stored {
        pairs.push(ancestors_entry(alloc, kind, &entity.uid, &entity.ancestors)?)?;
    }
    Ok(pairs)
}

// ---- tags

/// The keys of tags, as terms.
fn key_terms(alloc: Global, tags: &PartialMap) -> Result<Vec<Term>, TermError>
    ensures { IfOk result
        (λ ts. plain_terms ts.items ≡ map text_term (keys_of (known_fields tags.now))) }
{
    let mut terms: Vec<Term> = Vec::new(alloc);
    for (name, _part) in tags.items() {
        terms.push(text_term(name)?)?;
    }
    Ok(terms)
}

/// An entity with the set of its tags' keys.
fn keys_entry(alloc: Global, entity: &Entity) -> Result<(Term, Term), TermError>
    ensures { IfOk result (λ pair. plain_entry pair ≡ stated.keys_entry (plain_stored entity.now)) }
{
    let terms = key_terms(alloc, &entity.tags)?;
    let set = set_of(alloc, terms.as_slice(), TermType::String)?;
    Ok((entity_term(&entity.uid)?, set))
}

/// These entities, each with the set of its tags' keys.
pub(crate) fn keys_entries(
    alloc: Global,
    stored: &[&Entity],
) -> Result<Vec<(Term, Term)>, TermError>
    ensures { IfOk result (λ pairs.
        map plain_entry pairs.items
        ≡ map stated.keys_entry (map (λ entity. plain_stored entity.now) stored.now)) }
{
    let mut pairs: Vec<(Term, Term)> = Vec::new(alloc);
    for entity in stored {
        pairs.push(keys_entry(alloc, entity)?)?;
    }
    Ok(pairs)
}

/// The record of an entity and of the key of a tag.
fn tag_key(alloc: Global, uid: &EntityUID, name: &Attr) -> Result<Term, TermError>
    ensures { BuildsTerm result
        (tag_record (entity_term (texts_of_entity uid.now)) (text_term (rc_str_bytes name.now))) }
{
    let entity = entity_term(uid)?;
    tag_of(alloc, entity, text_term(name)?)
}

/// The record of an entity and of the key of a tag, with the tag's value.
fn tag_entry(
    alloc: Global,
    ty: &CedarType,
    uid: &EntityUID,
    name: &Attr,
    part: &PartialValue,
) -> Result<(Term, Term), SymbolizeError>
    ensures { IsGiven plain_entry result (stated.tag_entry (plain_cedar ty.now)
        (texts_of_entity uid.now) (rc_str_bytes name.now, plain_known part.now)) }
{
    let v = known_value(part)?;
    let value = Term::from_value(alloc, v, ty)?;
    Ok((tag_key(alloc, uid, name)?, value))
}

/// The values of an entity's tags, each with its key.
fn tag_entries(
    alloc: Global,
    ty: &CedarType,
    entity: &Entity,
) -> Result<Vec<(Term, Term)>, SymbolizeError>
    ensures { IsGiven (λ pairs. map plain_entry pairs.items) result
        (stated.tag_entries (plain_cedar ty.now) (plain_stored entity.now)) }
{
    let mut pairs: Vec<(Term, Term)> = Vec::new(alloc);
    for (name, part) in entity.tags.items() {
        pairs.push(tag_entry(alloc, ty, &entity.uid, name, part)?)?;
    }
    Ok(pairs)
}

/// The values of these entities' tags, each with its key.
pub(crate) fn all_tag_entries(
    alloc: Global,
    ty: &CedarType,
    stored: &[&Entity],
) -> Result<Vec<(Term, Term)>, SymbolizeError>
    ensures { IsGiven (λ pairs. map plain_entry pairs.items) result
        (all_tag_entries (plain_cedar ty.now)
        (map (λ entity. plain_stored entity.now) stored.now)) }
{
    let mut pairs: Vec<(Term, Term)> = Vec::new(alloc);
    for entity in stored {
        let mut own = tag_entries(alloc, ty, entity)?;
        pairs.append(&mut own)?;
    }
    Ok(pairs)
}
