// Schemas, requests and stores of tests, as data, and what the program has of them.
use smt_symbolizer::SymEnv;
use smt_term::{EntityID, EntityType, EntityUID, Text, TextSet};
use smt_values::{
    ActionEntry, ActionList, AttributeType, Attributes, CedarType, Entities, Entity, EntityEntry,
    EntityTypeList, EntryMap, Env, Literal, PartialMap, PartialValue, Request, RequestEnv, Schema,
    SymbolizeError, UidList, Value, ValueList, ValueMap,
};
use std::alloc::Global;
use std::process::Abort;
use test_words::AMPLE;

/// A Cedar type.
#[derive(Clone, Copy)]
pub(crate) enum Plain {
    /// No values.
    Never,
    /// Numbers.
    Long,
    /// Texts.
    Text,
}

/// A value, or that it is not known.
#[derive(Clone, Copy)]
pub(crate) enum Part {
    /// A number.
    Long(i64),
    /// A text.
    Text(&'static str),
    /// The empty set, which has no term at the types above.
    Set,
    /// A value that is not known.
    Unknown,
}

/// A type and an id.
pub(crate) type Name = (&'static str, &'static str);

/// The attributes of a type, each with whether it is required.
pub(crate) type Types = &'static [(&'static str, Plain, bool)];

/// What is known of attributes, or of tags.
pub(crate) type Parts = &'static [(&'static str, Part)];

/// What a schema says of a type.
#[derive(Clone, Copy)]
pub(crate) enum Kind {
    /// Its ancestors' types, its attributes and the type of its tags.
    Standard(&'static [&'static str], Types, Option<Plain>),
    /// The ids of its entities.
    Enum(&'static [&'static str]),
}

/// An action, its ancestors and the attributes of its context. It applies to principals and resources of type `User`.
pub(crate) type Action = (Name, &'static [Name], Types);

/// A stored entity: its name, attributes, ancestors and tags.
pub(crate) type Stored = (Name, Parts, &'static [Name], Parts);

/// A schema, a request by `User::"a"` to do an action to `User::"b"`, and a store.
#[derive(Clone, Copy)]
pub(crate) struct World {
    pub(crate) types: &'static [(&'static str, Kind)],
    pub(crate) actions: &'static [Action],
    pub(crate) asked: Name,
    pub(crate) known: (bool, bool, bool),
    pub(crate) context: Option<Parts>,
    pub(crate) stored: &'static [Stored],
}

/// A text that is held.
pub(crate) fn text(rt: &impl Abort, alloc: Global, bytes: &str) -> Text {
    Text::from_str(alloc, bytes).expect(rt, AMPLE)
}

/// The type of this name.
pub(crate) fn type_named(rt: &impl Abort, alloc: Global, name: &str) -> EntityType {
    EntityType(text(rt, alloc, name))
}

/// The entity of a type with an id.
pub(crate) fn uid(rt: &impl Abort, alloc: Global, (ety, id): (&str, &str)) -> EntityUID {
    EntityUID {
        ety: type_named(rt, alloc, ety),
        id: EntityID(text(rt, alloc, id)),
    }
}

/// A list of entities.
pub(crate) fn uids(rt: &impl Abort, alloc: Global, names: &[Name]) -> UidList {
    let mut list = UidList::new(alloc);
    for name in names {
        list.push(uid(rt, alloc, *name)).expect(rt, AMPLE);
    }
    list
}

/// The types of these names.
pub(crate) fn types_named(rt: &impl Abort, alloc: Global, names: &[&str]) -> EntityTypeList {
    let mut items = Vec::new(alloc);
    for name in names {
        items.push(type_named(rt, alloc, name)).expect(rt, AMPLE);
    }
    EntityTypeList::of_items(items)
}

/// A Cedar type.
pub(crate) fn cedar(ty: Plain) -> CedarType {
    match ty {
        Plain::Never => CedarType::Never,
        Plain::Long => CedarType::Long,
        Plain::Text => CedarType::String,
    }
}

/// The attributes of a record type.
pub(crate) fn attributes(rt: &impl Abort, alloc: Global, types: Types) -> Attributes {
    let mut pairs = Vec::new(alloc);
    for (name, ty, is_required) in types {
        let ty = AttributeType {
            attr_type: cedar(*ty),
            is_required: *is_required,
        };
        pairs.push((text(rt, alloc, name), ty)).expect(rt, AMPLE);
    }
    Attributes::of_pairs(alloc, pairs).expect(rt, AMPLE)
}

/// What is known of a value.
pub(crate) fn partial(rt: &impl Abort, alloc: Global, part: Part) -> PartialValue {
    match part {
        Part::Long(number) => PartialValue::Value(Value::Lit(Literal::Long(number))),
        Part::Text(bytes) => {
            PartialValue::Value(Value::Lit(Literal::String(text(rt, alloc, bytes))))
        }
        Part::Set => {
            let none = ValueList::new(alloc);
            PartialValue::Value(Value::Set(none))
        }
        Part::Unknown => PartialValue::Residual,
    }
}

/// What is known of attributes, or of tags.
pub(crate) fn partials(rt: &impl Abort, alloc: Global, parts: Parts) -> PartialMap {
    let mut pairs = Vec::new(alloc);
    for (name, part) in parts {
        let pair = (text(rt, alloc, name), partial(rt, alloc, *part));
        pairs.push(pair).expect(rt, AMPLE);
    }
    PartialMap::of_pairs(alloc, pairs).expect(rt, AMPLE)
}

/// A context, of the values of these that are known.
pub(crate) fn context(rt: &impl Abort, alloc: Global, parts: Parts) -> ValueMap {
    let mut pairs = Vec::new(alloc);
    for (name, part) in parts {
        if let PartialValue::Value(v) = partial(rt, alloc, *part) {
            pairs.push((text(rt, alloc, name), v)).expect(rt, AMPLE);
        }
    }
    ValueMap::of_pairs(alloc, pairs).expect(rt, AMPLE)
}

/// What a schema says of a type.
pub(crate) fn entry(rt: &impl Abort, alloc: Global, given: Kind) -> EntityEntry {
    match given {
        Kind::Standard(ancestors, attrs, tags) => EntityEntry::Standard {
            ancestors: types_named(rt, alloc, ancestors),
            attrs: attributes(rt, alloc, attrs),
            tags: tags.map(cedar),
        },
        Kind::Enum(ids) => {
            let mut members = Vec::new(alloc);
            for id in ids {
                members.push(text(rt, alloc, id)).expect(rt, AMPLE);
            }
            EntityEntry::Enum(TextSet::new(alloc, members.as_slice()).expect(rt, AMPLE))
        }
    }
}

/// What a schema says of an action, by its name, its ancestors and the attributes of its contexts.
fn action(
    rt: &impl Abort,
    alloc: Global,
    name: Name,
    ancestors: &[Name],
    context: Types,
) -> ActionEntry {
    ActionEntry {
        uid: uid(rt, alloc, name),
        ancestors: uids(rt, alloc, ancestors),
        principals: types_named(rt, alloc, &["User"]),
        resources: types_named(rt, alloc, &["User"]),
        context: attributes(rt, alloc, context),
    }
}

/// The schema of a world.
pub(crate) fn schema(rt: &impl Abort, alloc: Global, world: &World) -> Schema {
    let mut entity_types = EntryMap::new(alloc);
    for (name, given) in world.types {
        let pair = (type_named(rt, alloc, name), entry(rt, alloc, *given));
        entity_types.push(pair).expect(rt, AMPLE);
    }
    let mut actions = ActionList::new(alloc);
    for (name, ancestors, context) in world.actions {
        actions
            .push(action(rt, alloc, *name, ancestors, context))
            .expect(rt, AMPLE);
    }
    Schema {
        entity_types,
        actions,
    }
}

/// An entity, where it is known.
pub(crate) fn known(
    rt: &impl Abort,
    alloc: Global,
    is_known: bool,
    name: Name,
) -> Option<EntityUID> {
    if is_known {
        Some(uid(rt, alloc, name))
    } else {
        None
    }
}

/// The store of a world.
fn store(rt: &impl Abort, alloc: Global, stored: &[Stored]) -> Entities {
    let mut entities = Entities::new(alloc);
    for (name, attrs, ancestors, tags) in stored {
        let entity = Entity {
            uid: uid(rt, alloc, *name),
            attrs: partials(rt, alloc, attrs),
            ancestors: uids(rt, alloc, ancestors),
            tags: partials(rt, alloc, tags),
        };
        entities.push(entity).expect(rt, AMPLE);
    }
    entities
}

/// The request and the store of a world.
pub(crate) fn env(rt: &impl Abort, alloc: Global, world: &World) -> Env {
    let (principal, action, resource) = world.known;
    let context = match world.context {
        Some(parts) => Some(context(rt, alloc, parts)),
        None => None,
    };
    Env {
        request: Request {
            principal: known(rt, alloc, principal, ("User", "a")),
            action: known(rt, alloc, action, world.asked),
            resource: known(rt, alloc, resource, ("User", "b")),
            context,
        },
        entities: store(rt, alloc, world.stored),
    }
}

/// The symbolic environment of a world, or its refusal.
pub(crate) fn symbolized(
    rt: &impl Abort,
    alloc: Global,
    world: &World,
) -> Result<SymEnv, SymbolizeError> {
    let asked = RequestEnv {
        principal: type_named(rt, alloc, "User"),
        action: uid(rt, alloc, world.asked),
        resource: type_named(rt, alloc, "User"),
    };
    let schema = schema(rt, alloc, world);
    SymEnv::from_concrete_env(alloc, &asked, &schema, &env(rt, alloc, world))
}
