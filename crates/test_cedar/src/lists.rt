// Lists that grow: what is pushed stands at the end, or in its place where the items are in order, and of equal keys the last
// pair stays. An equal list comes of sharing.
use crate::expected::{expect, expect_text};
use crate::worlds::{text, type_named, uid};
use smt_symbolizer::{AncestorMap, SymEntities, SymEntityData, SymTags};
use smt_term::{TermType, TextSet, UnaryFunction, Uuf};
use smt_values::{
    ActionEntry, ActionList, AttributeType, Attributes, CedarType, Entities, Entity, EntityEntry,
    EntityTypeList, EntryMap, ExprList, Literal, PartialMap, PartialValue, RestrictedExpr, UidList,
    Value, ValueList, ValueMap,
};
use std::alloc::Global;
use std::fmt::Debug;
use std::process::Abort;
use std::rc::Rc;
use test_words::AMPLE;

/// How many items there are, whether the shared list is equal, and the items, as a text.
fn said<T: Debug>(rt: &impl Abort, alloc: Global, len: usize, items: &[T], same: bool) -> String {
    format!(in alloc; "{len} {same} {items:?}").expect(rt, AMPLE)
}

/// A number as a value.
fn long(number: i64) -> Value {
    Value::Lit(Literal::Long(number))
}

/// The attributes of the maps, in the order in which they are pushed.
const NAMES: &[(&str, i64)] = &[("b", 1), ("a", 2), ("b", 3), ("", 4)];

/// Two values.
fn two_values(rt: &impl Abort, alloc: Global) -> String {
    let mut list = ValueList::new(alloc);
    list.push(long(2)).expect(rt, AMPLE);
    list.push(long(1)).expect(rt, AMPLE);
    let shared = list.share().expect(rt, AMPLE);
    said(rt, alloc, list.len(), list.items(), shared == list)
}

/// Two expressions.
fn two_expressions(rt: &impl Abort, alloc: Global) -> String {
    let mut list = ExprList::new(alloc);
    list.push(RestrictedExpr::Other).expect(rt, AMPLE);
    let one = RestrictedExpr::Lit(Literal::Long(1));
    list.push(one).expect(rt, AMPLE);
    let shared = list.share().expect(rt, AMPLE);
    said(rt, alloc, list.len(), list.items(), shared == list)
}

/// Two types.
fn two_types(rt: &impl Abort, alloc: Global) -> String {
    let mut list = EntityTypeList::new(alloc);
    list.push(type_named(rt, alloc, "B")).expect(rt, AMPLE);
    list.push(type_named(rt, alloc, "A")).expect(rt, AMPLE);
    let shared = list.share().expect(rt, AMPLE);
    said(rt, alloc, list.len(), list.items(), shared == list)
}

/// Two entities' names.
fn two_names(rt: &impl Abort, alloc: Global) -> String {
    let mut list = UidList::new(alloc);
    list.push(uid(rt, alloc, ("T", "b"))).expect(rt, AMPLE);
    list.push(uid(rt, alloc, ("T", "a"))).expect(rt, AMPLE);
    let shared = list.share().expect(rt, AMPLE);
    said(rt, alloc, list.len(), list.items(), shared == list)
}

#[test]
fn lists_grow(rt: HostRuntime) {
    let alloc = rt.alloc();
    let values = two_values(&rt, alloc);
    let wanted = "2 true [Lit(Long(2)), Lit(Long(1))]";
    expect_text(&rt, "values", values.as_str(), wanted);
    let expressions = two_expressions(&rt, alloc);
    let wanted = "2 true [Other, Lit(Long(1))]";
    expect_text(&rt, "calls", expressions.as_str(), wanted);
    let types = two_types(&rt, alloc);
    let wanted = "2 true [EntityType(\"B\"), EntityType(\"A\")]";
    expect_text(&rt, "types", types.as_str(), wanted);
    let names = two_names(&rt, alloc);
    let wanted =
        "2 true [EntityUID { ety: EntityType(\"T\"), id: EntityID(\"b\") }, EntityUID { ety: EntityType(\"T\"), id: EntityID(\"a\") }]";
    expect_text(&rt, "names", names.as_str(), wanted);
}

/// Values by attributes.
fn fields(rt: &impl Abort, alloc: Global) -> String {
    let mut map = ValueMap::new(alloc);
    for (name, number) in NAMES {
        map.push((text(rt, alloc, name), long(*number)))
            .expect(rt, AMPLE);
    }
    let shared = map.share().expect(rt, AMPLE);
    said(rt, alloc, map.len(), map.items(), shared == map)
}

/// Values that are known where their number is even.
fn parts(rt: &impl Abort, alloc: Global) -> String {
    let mut map = PartialMap::new(alloc);
    for (name, number) in NAMES {
        let part = if number % 2 == 0 {
            PartialValue::Value(long(*number))
        } else {
            PartialValue::Residual
        };
        map.push((text(rt, alloc, name), part)).expect(rt, AMPLE);
    }
    let shared = map.share().expect(rt, AMPLE);
    said(rt, alloc, map.len(), map.items(), shared == map)
}

/// Attributes that are required where their number is even.
fn attributes(rt: &impl Abort, alloc: Global) -> String {
    let mut map = Attributes::new(alloc);
    for (name, number) in NAMES {
        let ty = AttributeType {
            attr_type: CedarType::Long,
            is_required: number % 2 == 0,
        };
        map.push((text(rt, alloc, name), ty)).expect(rt, AMPLE);
    }
    let shared = map.share().expect(rt, AMPLE);
    said(rt, alloc, map.len(), map.items(), shared == map)
}

#[test]
fn attributes_are_put_in_place(rt: HostRuntime) {
    let alloc = rt.alloc();
    let values = fields(&rt, alloc);
    let wanted = "3 true [(\"\", Lit(Long(4))), (\"a\", Lit(Long(2))), (\"b\", Lit(Long(3)))]";
    expect_text(&rt, "values", values.as_str(), wanted);
    let known = parts(&rt, alloc);
    let wanted =
        "3 true [(\"\", Value(Lit(Long(4)))), (\"a\", Value(Lit(Long(2)))), (\"b\", Residual)]";
    expect_text(&rt, "what is known of values", known.as_str(), wanted);
    let types = attributes(&rt, alloc);
    let wanted =
        "3 true [(\"\", AttributeType { attr_type: Long, is_required: true }), (\"a\", AttributeType { attr_type: Long, is_required: true }), (\"b\", AttributeType { attr_type: Long, is_required: false })]";
    expect_text(&rt, "types", types.as_str(), wanted);
}

/// A function of the interpretation, by its name.
fn function(rt: &impl Abort, alloc: Global, name: &str) -> UnaryFunction {
    let function = Uuf {
        id: text(rt, alloc, name),
        arg: TermType::Bool,
        out: TermType::Bool,
    };
    UnaryFunction::Uuf(Rc::new(alloc, function).expect(rt, AMPLE))
}

/// The function of each type of ancestors, by its name.
fn functions_held(rt: &impl Abort, alloc: Global, map: &AncestorMap) -> String {
    let mut said = String::new(alloc);
    for (ety, f) in map.items() {
        let name = match f {
            UnaryFunction::Uuf(function) => function.id.as_str(),
            UnaryFunction::Udf(_) => "a table",
        };
        let pair = format!(in alloc; "{:?} {name} ", ety.0).expect(rt, AMPLE);
        said.push_str(pair.as_str()).expect(rt, AMPLE);
    }
    said
}

#[test]
fn types_are_put_in_place(rt: HostRuntime) {
    let alloc = rt.alloc();
    let mut ancestors = AncestorMap::new(alloc);
    for (ety, f) in [("B", "f"), ("A", "g"), ("B", "h")] {
        let pair = (type_named(&rt, alloc, ety), function(&rt, alloc, f));
        ancestors.push(pair).expect(&rt, AMPLE);
    }
    let said = functions_held(&rt, alloc, &ancestors);
    expect_text(&rt, "types of ancestors", said.as_str(), "\"A\" g \"B\" h ");
    let same = ancestors.share().expect(&rt, AMPLE) == ancestors;
    expect(&rt, same && ancestors.len() == 2, "two types and the same");
    let mut entities = SymEntities::new(alloc);
    let pair = (type_named(&rt, alloc, "T"), data_of(&rt, alloc, ancestors));
    entities.push(pair).expect(&rt, AMPLE);
    let same = entities.share().expect(&rt, AMPLE) == entities;
    expect(&rt, same && entities.len() == 1, "one type and the same");
}

/// A type with these ancestors, with a member and with tags.
fn data_of(rt: &impl Abort, alloc: Global, ancestors: AncestorMap) -> SymEntityData {
    let members = TextSet::new(alloc, &[text(rt, alloc, "red")]).expect(rt, AMPLE);
    let tags = SymTags {
        keys: function(rt, alloc, "keys"),
        vals: function(rt, alloc, "vals"),
    };
    SymEntityData {
        attrs: function(rt, alloc, "attrs"),
        ancestors,
        members: Some(members),
        tags: Some(tags),
    }
}

/// An action that nothing else is said of.
fn action(rt: &impl Abort, alloc: Global) -> ActionEntry {
    ActionEntry {
        uid: uid(rt, alloc, ("Action", "view")),
        ancestors: UidList::new(alloc),
        principals: EntityTypeList::new(alloc),
        resources: EntityTypeList::new(alloc),
        context: Attributes::new(alloc),
    }
}

/// A type with tags.
fn with_tags(alloc: Global) -> EntityEntry {
    EntityEntry::Standard {
        ancestors: EntityTypeList::new(alloc),
        attrs: Attributes::new(alloc),
        tags: Some(CedarType::Set { element_type: None }),
    }
}

/// Whether a list of actions, entries of types and a store are equal to what they share.
fn shared_alike(rt: &impl Abort, alloc: Global) -> String {
    let mut actions = ActionList::new(alloc);
    actions.push(action(rt, alloc)).expect(rt, AMPLE);
    let mut entries = EntryMap::new(alloc);
    let standard = (type_named(rt, alloc, "User"), with_tags(alloc));
    entries.push(standard).expect(rt, AMPLE);
    let members = TextSet::new(alloc, &[text(rt, alloc, "red")]).expect(rt, AMPLE);
    let listed = (type_named(rt, alloc, "Color"), EntityEntry::Enum(members));
    entries.push(listed).expect(rt, AMPLE);
    let mut entities = Entities::new(alloc);
    let stored = Entity {
        uid: uid(rt, alloc, ("User", "a")),
        attrs: PartialMap::new(alloc),
        ancestors: UidList::new(alloc),
        tags: PartialMap::new(alloc),
    };
    entities.push(stored).expect(rt, AMPLE);
    let one = actions.share().expect(rt, AMPLE) == actions;
    let two = entries.share().expect(rt, AMPLE) == entries;
    let three = entities.share().expect(rt, AMPLE) == entities;
    let counts = (actions.len(), entries.len(), entities.len());
    format!(in alloc; "{one} {two} {three} {counts:?}").expect(rt, AMPLE)
}

#[test]
fn schemas_and_stores_are_shared(rt: HostRuntime) {
    let alloc = rt.alloc();
    let said = shared_alike(&rt, alloc);
    expect_text(
        &rt,
        "schemas and stores",
        said.as_str(),
        "true true true (1, 2, 1)",
    );
}
