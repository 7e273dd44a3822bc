// Stores with entities that replace others, schemas and the request environments that are theirs, and entity types in order.
use crate::expected::{expect, expect_at, expect_text, expect_text_at};
use crate::worlds::{text, type_named, types_named, uid};
use smt_term::TextSet;
use smt_values::{
    ActionEntry, ActionList, Attributes, CedarType, Entities, Entity, EntityEntry, EntryMap, Env,
    PartialMap, Request, RequestEnv, Schema, UidList, ValueMap,
};
use std::alloc::Global;
use std::process::Abort;
use test_words::AMPLE;

/// An entity with the one ancestor `Mark` of this id.
fn entity(rt: &impl Abort, alloc: Global, ety: &str, id: &str, mark: &str) -> Entity {
    let mut ancestors = UidList::new(alloc);
    ancestors
        .push(uid(rt, alloc, ("Mark", mark)))
        .expect(rt, AMPLE);
    Entity {
        uid: uid(rt, alloc, (ety, id)),
        attrs: PartialMap::new(alloc),
        ancestors,
        tags: PartialMap::new(alloc),
    }
}

/// A store of entities that were pushed in this order, each with its mark.
fn store(rt: &impl Abort, alloc: Global, given: &[(&str, &str, &str)]) -> Entities {
    let mut entities = Entities::new(alloc);
    for (ety, id, mark) in given {
        entities
            .push(entity(rt, alloc, ety, id, mark))
            .expect(rt, AMPLE);
    }
    entities
}

/// The marks of the entities of a store, in order, each behind a space.
fn marks(rt: &impl Abort, alloc: Global, entities: &Entities) -> String {
    let mut text = String::new(alloc);
    for entity in entities.items() {
        for ancestor in entity.ancestors.items() {
            text.push_str(" ").expect(rt, AMPLE);
            text.push_str(ancestor.id.0.as_str()).expect(rt, AMPLE);
        }
    }
    text
}

/// Entities with their marks, and the marks of the store that they make.
const STORES: &[(&[(&str, &str, &str)], &str)] = &[
    (&[], ""),
    (&[("User", "ann", "1"), ("User", "bob", "2")], " 1 2"),
    (
        &[
            ("User", "ann", "1"),
            ("User", "bob", "2"),
            ("User", "ann", "3"),
        ],
        " 3 2",
    ),
    (
        &[
            ("User", "ann", "1"),
            ("Group", "ann", "2"),
            ("User", "anna", "3"),
        ],
        " 1 2 3",
    ),
    (
        &[
            ("User", "", "1"),
            ("User", "\0", "2"),
            ("User", "\"", "3"),
            ("User", "\u{10ffff}", "4"),
            ("User", "\0", "5"),
        ],
        " 1 5 3 4",
    ),
    (
        &[
            ("a::b", "c", "1"),
            ("a", "b::c", "2"),
            ("", "a::b::c", "3"),
            ("a", "b::c", "4"),
        ],
        " 1 4 3",
    ),
];

/// Whether a store has the entity of this name.
fn has(rt: &impl Abort, alloc: Global, entities: &Entities, name: (&str, &str)) -> bool {
    let asked = uid(rt, alloc, name);
    match entities.get(&asked) {
        Some(found) => found.uid == asked,
        None => false,
    }
}

/// Whether a store has each of these entities.
fn has_each(
    rt: &impl Abort,
    alloc: Global,
    entities: &Entities,
    given: &[(&str, &str, &str)],
) -> bool {
    for &(ety, id, _mark) in given {
        if !has(rt, alloc, entities, (ety, id)) {
            return false;
        }
    }
    true
}

#[test]
fn entities_are_put_in_place(rt: HostRuntime) {
    let alloc = rt.alloc();
    for (at, (given, answer)) in STORES.iter().enumerate() {
        let entities = store(&rt, alloc, given);
        let marks = marks(&rt, alloc, &entities);
        expect_text_at(&rt, at, marks.as_str(), *answer);
        let found = has_each(&rt, alloc, &entities, given);
        expect_at(&rt, found, "each entity is found", at);
        let absent = uid(&rt, alloc, ("User", "nobody"));
        let is_absent = entities.get(&absent).is_none();
        expect_at(&rt, is_absent, "nobody is not found", at);
    }
}

/// The entry of an action that applies to these types.
fn action(
    rt: &impl Abort,
    alloc: Global,
    id: &str,
    principals: &[&str],
    resources: &[&str],
) -> ActionEntry {
    ActionEntry {
        uid: uid(rt, alloc, ("Action", id)),
        ancestors: UidList::new(alloc),
        principals: types_named(rt, alloc, principals),
        resources: types_named(rt, alloc, resources),
        context: Attributes::new(alloc),
    }
}

/// Entries of actions, and whether a schema of them has a `User` who does `view` to a `Photo`.
const SCHEMAS: &[(&[(&str, &[&str], &[&str])], bool)] = &[
    (&[], false),
    (&[("view", &["User"], &["Photo"])], true),
    (&[("view", &["Group", "User"], &["Album", "Photo"])], true),
    (&[("view", &["User"], &["Album"])], false),
    (&[("view", &["Group"], &["Photo"])], false),
    (
        &[
            ("edit", &["User"], &["Photo"]),
            ("view\0", &["User"], &["Photo"]),
        ],
        false,
    ),
    (
        &[("view", &["User"], &["Photo"]), ("view", &[], &[])],
        false,
    ),
    (
        &[
            ("view", &[], &[]),
            ("view", &["User"], &["Photo"]),
            ("edit", &[], &[]),
        ],
        true,
    ),
];

/// A schema of these actions.
fn schema_of(rt: &impl Abort, alloc: Global, given: &[(&str, &[&str], &[&str])]) -> Schema {
    let mut actions = ActionList::new(alloc);
    for (id, principals, resources) in given {
        let entry = action(rt, alloc, id, principals, resources);
        actions.push(entry).expect(rt, AMPLE);
    }
    Schema {
        entity_types: EntryMap::new(alloc),
        actions,
    }
}

#[test]
fn environments_of_schemas(rt: HostRuntime) {
    let alloc = rt.alloc();
    let asked = RequestEnv {
        principal: type_named(&rt, alloc, "User"),
        action: uid(&rt, alloc, ("Action", "view")),
        resource: type_named(&rt, alloc, "Photo"),
    };
    for (at, (given, answer)) in SCHEMAS.iter().enumerate() {
        let schema = schema_of(&rt, alloc, given);
        let is_right = asked.is_of(&schema) == *answer;
        expect_at(&rt, is_right, "whether it is of the schema", at);
    }
}

/// An enum type with one member of this id.
fn one_member(rt: &impl Abort, alloc: Global, id: &str) -> EntityEntry {
    let member = [text(rt, alloc, id)];
    EntityEntry::Enum(TextSet::new(alloc, &member).expect(rt, AMPLE))
}

/// What a schema says of a type that may have these ancestors and tags that are numbers.
fn with_tags(rt: &impl Abort, alloc: Global, ancestors: &[&str]) -> EntityEntry {
    EntityEntry::Standard {
        ancestors: types_named(rt, alloc, ancestors),
        attrs: Attributes::new(alloc),
        tags: Some(CedarType::Long),
    }
}

/// Enum types in this order, one of them twice, and then another of them as a type with tags.
fn entries(rt: &impl Abort, alloc: Global) -> EntryMap {
    let mut entries = EntryMap::new(alloc);
    for name in ["b", "a::b", "", "a", "\u{e9}", "b", "B"] {
        let mark = if entries.len() < 5 { "first" } else { "second" };
        let entry = (type_named(rt, alloc, name), one_member(rt, alloc, mark));
        entries.push(entry).expect(rt, AMPLE);
    }
    let entry = (type_named(rt, alloc, "a"), with_tags(rt, alloc, &["b"]));
    entries.push(entry).expect(rt, AMPLE);
    entries
}

/// The names of the types in order.
const NAMES: &[&str] = &["", "B", "a", "a::b", "b", "\u{e9}"];

#[test]
fn types_are_in_order(rt: HostRuntime) {
    let entries = entries(&rt, rt.alloc());
    expect(
        &rt,
        entries.len() == NAMES.len(),
        "how many types there are",
    );
    for ((ety, _entry), name) in entries.items().iter().zip(NAMES) {
        expect_text(&rt, "a type", ety.0.as_str(), *name);
    }
}

#[test]
fn the_last_entry_of_a_type_stays(rt: HostRuntime) {
    let alloc = rt.alloc();
    let entries = entries(&rt, alloc);
    let second = one_member(&rt, alloc, "second");
    let b = type_named(&rt, alloc, "b");
    expect(&rt, entries.get(&b) == Some(&second), "the last entry of b");
    let c = type_named(&rt, alloc, "c");
    expect(&rt, entries.get(&c).is_none(), "no entry of c");
}

#[test]
fn environments_hold_requests(rt: HostRuntime) {
    let alloc = rt.alloc();
    let env = Env {
        request: Request {
            principal: Some(uid(&rt, alloc, ("User", "ann"))),
            action: None,
            resource: None,
            context: Some(ValueMap::new(alloc)),
        },
        entities: store(&rt, alloc, &[("User", "ann", "1")]),
    };
    let principal = env.request.principal.as_ref().expect(&rt, "the one given");
    expect(&rt, env.entities.get(principal).is_some(), "the principal");
    expect(&rt, env.entities.len() == 1, "how many entities there are");
}
