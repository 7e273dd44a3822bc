// Entity types and entities: their datatypes, and the entries of entities.
ghost use Rattle.std.specs.Prelude.{◌≡◌, ◌++◌, ◌∷◌, [], IfOk, IfSome, bytes_eq, codes, is_some};
ghost use Rattle.std.specs.Prelude.{map, option_map};
ghost use Rattle.std.specs.List.{list_any};
ghost use Rattle.std.specs.Rc.{rc_str_bytes};
ghost use Rattle.std.specs.String.{string_bytes};
ghost use Rattle.law_texts.specs.SharedTexts.{GivesText, texts};
ghost use Rattle.law_terms.specs.Faults.{entity_fault, entity_type_fault};
ghost use Rattle.smt_term.specs.Entities.{bytes_of_id, bytes_of_type};
ghost use Rattle.smt_term.specs.TextSets.{texts_of};
ghost use Rattle.law_lines.specs.Line.{spelled_constructor, spelled_lines, Bare};
ghost use Rattle.law_lines.specs.LineForms.{entity_body, entity_constructors, entity_lines};
ghost use Rattle.law_lines.specs.LineForms.{member_constructors};
ghost use Rattle.law_texts.specs.LineTexts.{comma_separated};
ghost use Rattle.law_lines.specs.EntryNames.{member_name, place_of};
ghost use Rattle.law_lines.specs.Spelling.{spelled};
ghost use Rattle.smt_spelling.specs.Entries as stated;
ghost use Rattle.smt_spelling.specs.Entries.{datatype_bytes, SaysEntry};
ghost use Rattle.smt_spelling.specs.TextFaults.{text_fault, Finds};

use crate::datatype::{Datatype, push_commas};
use crate::entry::Entry;
use crate::error::TextError;
use crate::pieces::concat;
use crate::record::attribute_place;
use crate::spell::{application_text, string_literal};
use itoa::Buffer;
use smt_term::{EntityType, EntityUID, Text, TextSet};
use std::alloc::{AllocError, Global};

/// The datatype of an entity type under a name: of an enum type, by its members, a constructor for each of them, and of
/// another type one with the id.
///
/// # Errors
/// `EmptyEnum` exactly where the enum type has no members.
pub fn entity_datatype(
    alloc: Global,
    ety: &EntityType,
    members: Option<&TextSet>,
    name: &str,
) -> Result<Datatype, TextError>
    ensures lines { IfOk result (λ datatype.
        datatype_bytes datatype name.now
        ≡ spelled_lines (entity_lines (option_map (λ set. texts_of set.now) members.entry)
        (bytes_of_type ety.now) name.now)) }
    ensures fault { Finds text_fault
        (entity_type_fault (bytes_of_type ety.now)
        (option_map (λ set. texts_of set.now) members.entry))
        result }
{
    match members {
        None => Ok(Datatype {
            comment: String::from_str(alloc, ety.0.as_str())?,
            constructors: entity_constructors(alloc, name)?,
        }),
        Some(members) => {
            if members.is_empty() {
                return Err(TextError::EmptyEnum(ety.share()?));
            }
            Ok(Datatype {
                comment: enum_comment(alloc, ety, members)?,
                constructors: member_constructors(alloc, members, name)?,
            })
        }
    }
}

/// `(E0 (E0_eid String))`, the constructor of entities, with the selector of the id.
fn entity_constructors(alloc: Global, name: &str) -> Result<Vec<Text>, AllocError>
    ensures { IfOk result
        (λ made. texts made.items ≡ map spelled_constructor (entity_constructors None name.now)) }
{
    let text = concat(alloc, &["(", name, " (", name, "_eid String))"])?;
    let constructor = Text::from_string(text)?;
    let mut constructors = Vec::with_capacity(alloc, 1)?;
    constructors.push(constructor)?;
    Ok(constructors)
}

/// `T::[a, b]`, an enum type with its members.
fn enum_comment(alloc: Global, ety: &EntityType, members: &TextSet) -> Result<String, AllocError>
    ensures { IfOk result (λ comment.
        string_bytes comment
        ≡ bytes_of_type ety.now
        ++ (codes "::[" ++ (comma_separated (texts_of members.now) ++ codes "]"))) }
{
    let mut comment = String::from_str(alloc, ety.0.as_str())?;
    comment.push_str("::[")?;
    push_commas(&mut comment, members.items())?;
    comment.push(']')?;
    Ok(comment)
}

/// `(E0_m0)`, `(E0_m1)` and so on, a constructor for each member.
fn member_constructors(
    alloc: Global,
    members: &TextSet,
    name: &str,
) -> Result<Vec<Text>, AllocError>
    ensures { IfOk result (λ made.
        texts made.items
        ≡ map spelled_constructor (member_constructors name.now 0 (texts_of members.now))) }
{
    let count = members.len();
    let mut constructors = Vec::with_capacity(alloc, count)?;
    for place in 0..count {
        constructors.push(member_constructor(alloc, name, place)?)?;
    }
    Ok(constructors)
}

/// `(E0_mi)`, the constructor of the member at a place.
fn member_constructor(alloc: Global, name: &str, place: usize) -> Result<Text, AllocError>
    ensures { GivesText result (spelled_constructor (Bare (member_name name.now place))) }
{
    let mut digits = Buffer::new();
    Text::from_string(concat(alloc, &["(", name, "_m", digits.format(place), ")"])?)
}

/// How an entity is entered, by the members of its type, where this is an enum type, and by the sort: a member by the name
/// of its constructor, and another entity by the constructor at its id.
///
/// # Errors
/// `MissingMember` exactly where the type is an enum type and the entity no member. `StringFailed` exactly where it is no
/// enum type and the id has a character above `SMT_LIB_MAX_CODE_POINT`.
pub fn entity_entry(
    alloc: Global,
    members: Option<&TextSet>,
    entity: &EntityUID,
    sort: &str,
) -> Result<Entry, TextError>
    ensures text { IfOk result (SaysEntry (stated.entity_entry
        (option_map (λ set. texts_of set.now) members.entry) (bytes_of_id entity.now.id)
        sort.now)) }
    ensures fault { Finds text_fault
        (entity_fault (bytes_of_type entity.now.ety) (bytes_of_id entity.now.id)
        (option_map (λ set. texts_of set.now) members.entry))
        result }
{
    match members {
        None => Ok(Entry::Body(entity_body(alloc, entity, sort)?)),
        Some(members) => match place_in(members, &entity.id.0) {
            Some(place) => Ok(Entry::Name(member_name(alloc, sort, place)?)),
            None => Err(TextError::MissingMember(entity.share()?)),
        },
    }
}

/// `(E0 "id")`, the constructor at the id.
fn entity_body(alloc: Global, entity: &EntityUID, sort: &str) -> Result<String, TextError>
    ensures text { IfOk result
        (λ body. string_bytes body ≡ spelled (entity_body sort.now (bytes_of_id entity.now.id))) }
    ensures fault { Finds text_fault
        (entity_fault (bytes_of_type entity.now.ety) (bytes_of_id entity.now.id) None) result }
{
    let id = string_literal(alloc, &entity.id.0)?;
    Ok(application_text(alloc, sort, &[id])?)
}

/// `E0_mi`, the name of the constructor of the member at a place.
fn member_name(alloc: Global, sort: &str, place: usize) -> Result<Text, AllocError>
    ensures { GivesText result (member_name sort.now place) }
{
    let mut digits = Buffer::new();
    Text::from_string(concat(alloc, &[sort, "_m", digits.format(place)])?)
}

/// The place of a text in a set, None where it is not there.
fn place_in(set: &TextSet, text: &Text) -> Option<usize>
    ensures place { IfSome result
        (λ place. place ≡ place_of (rc_str_bytes text.now) (texts_of set.now)) }
    ensures some { is_some result ≡ list_any (bytes_eq (rc_str_bytes text.now)) (texts_of set.now) }
{
    attribute_place(set.items(), text)
}
