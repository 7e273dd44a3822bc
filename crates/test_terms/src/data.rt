//! Patterns, sets of texts, entities and tables of enum types: a call, what it is given, and what it answers.

use crate::expected::{expect, expect_text};
use anyhow::{Context, Result};
use smt_term::PatternElem::{Char, Wildcard};
use smt_term::{EntityID, EntityType, EntityUID, EnumTable, OrdPattern, Pattern, Text, TextSet};
use std::alloc::Global;
use test_words::AMPLE;

/// The rows. What a call is given has a slash between two parts. In a pattern `*` is the wildcard, and `+` the star.
const ROWS: &[(&str, &str, &str)] = &[
    ("matches", "/", "true"),
    ("matches", "*/", "true"),
    ("matches", "*/anything", "true"),
    ("matches", "**/", "true"),
    ("matches", "a/a", "true"),
    ("matches", "a*/a", "true"),
    ("matches", "a*/abc", "true"),
    ("matches", "*a/ba", "true"),
    ("matches", "*a/aba", "true"),
    ("matches", "a*z/abz", "true"),
    ("matches", "a*z/az", "true"),
    ("matches", "a*b*c/abbc", "true"),
    ("matches", "a*b*c/acbc", "true"),
    ("matches", "*ab*ab*/aabab", "true"),
    ("matches", "*aab/aaaab", "true"),
    ("matches", "a**c/abc", "true"),
    ("matches", "+/*", "true"),
    ("matches", "a+*/a*b", "true"),
    ("matches", "é*😀/é→😀", "true"),
    ("matches", "/a", "false"),
    ("matches", "a/", "false"),
    ("matches", "a/b", "false"),
    ("matches", "a/aa", "false"),
    ("matches", "ab/a", "false"),
    ("matches", "a*/ba", "false"),
    ("matches", "*a/ab", "false"),
    ("matches", "a*z/abzc", "false"),
    ("matches", "a*z/a", "false"),
    ("matches", "a*a/a", "false"),
    ("matches", "a*b*c/acb", "false"),
    ("matches", "*ab*ab*/aabb", "false"),
    ("matches", "+/a", "false"),
    ("matches", "*+*/ab", "false"),
    ("matches", "é*😀/e→😀", "false"),
    // Patterns are ordered by their elements, and a wildcard comes behind each character.
    ("precedes", "/+", "true false"),
    ("precedes", "+/a", "true false"),
    ("precedes", "a/a+", "true false"),
    ("precedes", "a+/ab", "true false"),
    ("precedes", "ab/a*", "true false"),
    ("precedes", "a*/a*b", "true false"),
    ("precedes", "a*b/b", "true false"),
    ("precedes", "b/é", "true false"),
    ("precedes", "é/😀", "true false"),
    ("precedes", "😀/*", "true false"),
    ("precedes", "*/*a", "true false"),
    ("precedes", "a*+/a", "false false"),
    ("precedes", "a*+/a*+", "false true"),
    // The elements of a pattern, and whether it is equal to what it shares.
    (
        "elements",
        "a*+",
        "[Char('a'), Wildcard, Char('*')] true true",
    ),
    // The texts of a set in order, how many there are, whether there are none, and whether it is equal to what it shares.
    ("set", "", "[] 0 true true"),
    ("set", "b a b", "[\"a\", \"b\"] 2 false true"),
    ("set", "a B", "[\"B\", \"a\"] 2 false true"),
    ("set", "ab a b", "[\"a\", \"ab\", \"b\"] 3 false true"),
    ("set", "é z a", "[\"a\", \"z\", \"é\"] 3 false true"),
    ("contains", "b a b/b", "true"),
    ("contains", "b a b/ab", "false"),
    ("contains", "/a", "false"),
    // The type and the id of an entity, and whether it is equal to what it shares.
    ("entity", "A/b", "A b true"),
    ("entity", "A/ba", "A ba true"),
    ("entity", "AB/a", "AB a true"),
    ("entity", "a/", "a  true"),
    ("entity", "é/z", "é z true"),
    // Entities are ordered by type, and then by id.
    ("entities", "A/b A/ba", "true"),
    ("entities", "A/ba AB/a", "true"),
    ("entities", "AB/a a/", "true"),
    ("entities", "a/ é/z", "true"),
    ("entities", "A/b A/b", "false"),
    // A table of enum types: of each whether it enters, and then the members of types.
    (
        "enums",
        "Color:b a b,Color:c,Empty:,A:x,Empty:a/Color,Empty,A,Colo,color",
        "true false true true false [\"a\", \"b\"] [] [\"x\"] no type no type ",
    ),
    ("enums", "/Color", "no type "),
];

/// The pattern of this spelling.
fn pattern(alloc: Global, spelling: &str) -> Result<Pattern> {
    let mut elems = Vec::new(alloc);
    for c in spelling.chars() {
        elems.push(match c {
            '*' => Wildcard,
            '+' => Char('*'),
            _ => Char(c),
        })?;
    }
    Ok(Pattern::new(alloc, elems.as_slice())?)
}

/// A pattern that is ordered.
fn ordered(alloc: Global, spelling: &str) -> Result<OrdPattern> {
    Ok(OrdPattern::from(pattern(alloc, spelling)?))
}

/// Whether a pattern comes before another, and whether both are equal.
fn precedes(alloc: Global, first: &str, second: &str) -> Result<String> {
    let comes_before = ordered(alloc, first)? < ordered(alloc, second)?;
    let is_equal = pattern(alloc, first)? == pattern(alloc, second)?;
    Ok(format!(in alloc; "{comes_before} {is_equal}")?)
}

/// The elements of a pattern, and whether it is equal to what it shares, as it is and as one that is ordered.
fn elements(alloc: Global, spelling: &str) -> Result<String> {
    let given = pattern(alloc, spelling)?;
    let plain = given.share()? == given;
    let ordered = OrdPattern::from(given);
    let same = ordered.share()? == ordered;
    let elems = ordered.get_elems();
    Ok(format!(in alloc; "{elems:?} {plain} {same}")?)
}

/// The texts with spaces between them.
fn texts_in(alloc: Global, words: &str) -> Result<Vec<Text>> {
    let mut texts = Vec::new(alloc);
    for word in words.split_whitespace() {
        texts.push(Text::from_str(alloc, word)?)?;
    }
    Ok(texts)
}

/// The set of the texts with spaces between them.
fn set_of(alloc: Global, words: &str) -> Result<TextSet> {
    Ok(TextSet::new(alloc, texts_in(alloc, words)?.as_slice())?)
}

/// The texts of a set in order, how many there are, whether there are none, and whether it is equal to what it shares.
fn held(alloc: Global, set: &TextSet) -> Result<String> {
    let (texts, len, is_empty) = (set.items(), set.len(), set.is_empty());
    let same = set.share()? == *set;
    Ok(format!(in alloc; "{texts:?} {len} {is_empty} {same}")?)
}

/// The entity of a type with an id.
fn entity(alloc: Global, spelling: &str) -> Result<EntityUID> {
    let (ety, id) = spelling.split_once('/').context("a type and an id")?;
    Ok(EntityUID {
        ety: EntityType(Text::from_str(alloc, ety)?),
        id: EntityID(Text::from_str(alloc, id)?),
    })
}

/// The parts of an entity, and whether it is equal to what it shares.
fn parts(alloc: Global, entity: &EntityUID) -> Result<String> {
    let (ety, id) = (entity.type_name().0.as_str(), entity.id().0.as_str());
    let same = entity.share()? == *entity;
    Ok(format!(in alloc; "{ety} {id} {same}")?)
}

/// Enters types with their members into a table, and puts of each whether it entered.
fn enter(alloc: Global, said: &mut String, table: &mut EnumTable, types: &str) -> Result<()> {
    for entry in types.split_terminator(',') {
        let (name, members) = entry.split_once(':').context("a name and members")?;
        let ety = EntityType(Text::from_str(alloc, name)?);
        let entered = table.insert(ety, texts_in(alloc, members)?.as_slice())?;
        write!(said, "{entered} ")?;
    }
    Ok(())
}

/// Puts the members that a table has of each of these types.
fn put_members(alloc: Global, said: &mut String, table: &EnumTable, names: &str) -> Result<()> {
    for name in names.split(',') {
        match table.members_of(&EntityType(Text::from_str(alloc, name)?)) {
            Some(members) => write!(said, "{:?} ", members.items())?,
            None => said.push_str("no type ")?,
        }
    }
    Ok(())
}

/// Which types enter a table, and which members it then has.
fn enums(alloc: Global, types: &str, names: &str) -> Result<String> {
    let mut table = EnumTable::new(alloc);
    let mut said = String::new(alloc);
    enter(alloc, &mut said, &mut table, types)?;
    put_members(alloc, &mut said, &table, names)?;
    Ok(said)
}

/// A truth value as a text.
fn truth(alloc: Global, holds: bool) -> Result<String> {
    Ok(format!(in alloc; "{holds}")?)
}

/// Whether the first of two entities is less.
fn are_in_order(alloc: Global, entities: &str) -> Result<bool> {
    let (first, second) = entities.split_once(' ').context("two entities")?;
    Ok(entity(alloc, first)? < entity(alloc, second)?)
}

/// What the call of this name answers.
fn answer(alloc: Global, call: &str, given: &str) -> Result<String> {
    let (first, second) = given.split_once('/').unwrap_or((given, ""));
    match call {
        "matches" => truth(alloc, ordered(alloc, first)?.wildcard_match(second)),
        "precedes" => precedes(alloc, first, second),
        "elements" => elements(alloc, given),
        "set" => held(alloc, &set_of(alloc, given)?),
        "contains" => {
            let text = Text::from_str(alloc, second)?;
            truth(alloc, set_of(alloc, first)?.contains(&text))
        }
        "entity" => parts(alloc, &entity(alloc, given)?),
        "entities" => truth(alloc, are_in_order(alloc, given)?),
        _ => enums(alloc, first, second),
    }
}

#[test]
fn data_is_as_it_is_given(rt: HostRuntime) {
    for &(call, given, wanted) in ROWS {
        let said = answer(rt.alloc(), call, given).expect(&rt, "the row says a call");
        expect_text(&rt, given, said.as_str(), wanted);
    }
}

/// A pattern of many wildcards is looked for in a text of `a` 2000 times, and in one with a `b` behind it.
#[test]
fn many_wildcards_take_few_steps(rt: HostRuntime) {
    let found = ordered(rt.alloc(), "a*a*a*a*a*a*a*a*b").expect(&rt, AMPLE);
    let mut text = String::new(rt.alloc());
    for _ in 0..2000 {
        text.push('a').expect(&rt, AMPLE);
    }
    let matches = found.wildcard_match(text.as_str());
    expect(&rt, !matches, "a text without b does not match");
    text.push('b').expect(&rt, AMPLE);
    let matches = found.wildcard_match(text.as_str());
    expect(&rt, matches, "one with b at its end matches");
    expect(&rt, Char('😀') < Wildcard, "a character and a wildcard");
}
