// Worked examples: types and their terms, values and their terms, and the environment of a store of one user.
use crate::expected::expect_text;
use crate::worlds::{Kind, Part, Plain, World, symbolized, text, type_named, uid};
use smt_ext::Ext;
use smt_factory_core::{app, tag_of};
use smt_symbolizer::{SymEntityData, SymEnv};
use smt_term::{Term, TermType, UnaryFunction};
use smt_values::{
    AttributeType, Attributes, CedarType, EntityKind, ExprList, ExtFromCedar, FromCedar, Literal,
    OfType, OpenTag, RestrictedExpr, SymbolizeError, Value, ValueMap, of_record_type, value_of_ext,
};
use std::alloc::Global;
use std::process::Abort;
use test_words::AMPLE;

/// The type of the terms of a Cedar type, as a text.
fn type_said(rt: &impl Abort, alloc: Global, ty: &CedarType) -> String {
    format!(in alloc; "{:?}", TermType::of_type(alloc, ty)).expect(rt, AMPLE)
}

#[test]
fn types_have_terms(rt: HostRuntime) {
    let alloc = rt.alloc();
    let long = type_said(&rt, alloc, &CedarType::Long);
    let wanted = "Ok(Bitvec { n: Width { bits: 64 } })";
    expect_text(&rt, "numbers", long.as_str(), wanted);
    let any = type_said(&rt, alloc, &CedarType::Entity(EntityKind::AnyEntity));
    let refused = "Err(UnsupportedFeature(\"AnyEntity is not supported\"))";
    expect_text(&rt, "entities of any type", any.as_str(), refused);
    let types = of_record_type(alloc, &Attributes::new(alloc)).expect(&rt, AMPLE);
    let count = format!(in alloc; "{}", types.len()).expect(&rt, AMPLE);
    expect_text(&rt, "no attributes", count.as_str(), "0");
}

/// A number that an attribute is of, and whether each record has it.
fn number(is_required: bool) -> AttributeType {
    AttributeType {
        attr_type: CedarType::Long,
        is_required,
    }
}

/// The type of records of a number `a`, which they need not have, and maybe of a number `b`, which they need to have.
fn records(rt: &impl Abort, alloc: Global, with_b: bool) -> CedarType {
    let mut attrs = Attributes::new(alloc);
    attrs
        .push((text(rt, alloc, "a"), number(false)))
        .expect(rt, AMPLE);
    if with_b {
        attrs
            .push((text(rt, alloc, "b"), number(true)))
            .expect(rt, AMPLE);
    }
    CedarType::Record {
        attrs,
        open_attributes: OpenTag::ClosedAttributes,
    }
}

/// The term of the record whose `a` is 10, at such a type, as a text.
fn term_said(rt: &impl Abort, alloc: Global, with_b: bool) -> String {
    let mut fields = ValueMap::new(alloc);
    let ten = Value::Lit(Literal::Long(10));
    fields.push((text(rt, alloc, "a"), ten)).expect(rt, AMPLE);
    let v = Value::Record(fields);
    let said = match Term::from_value(alloc, &v, &records(rt, alloc, with_b)) {
        Ok(term) => format!(in alloc; "{term}"),
        Err(SymbolizeError::UnableToSymbolizeValue(given)) => {
            format!(in alloc; "no term, and the value is given back: {}", given == v)
        }
        Err(other) => format!(in alloc; "{other:?}"),
    };
    said.expect(rt, AMPLE)
}

#[test]
fn values_have_terms(rt: HostRuntime) {
    let alloc = rt.alloc();
    let seven = Term::from_literal(&Literal::Long(7)).expect(&rt, AMPLE);
    let said = format!(in alloc; "{seven}").expect(&rt, AMPLE);
    expect_text(&rt, "a literal", said.as_str(), "(bv64 7)");
    let missing = "no term, and the value is given back: true";
    let said = term_said(&rt, alloc, true);
    expect_text(&rt, "b is missing", said.as_str(), missing);
    let some = "{ a: Some((bv64 10)) }";
    let said = term_said(&rt, alloc, false);
    expect_text(&rt, "a alone", said.as_str(), some);
}

/// The call of `decimal` with this text.
fn decimal_call(rt: &impl Abort, alloc: Global, bytes: &str) -> RestrictedExpr {
    let mut args = ExprList::new(alloc);
    args.push(RestrictedExpr::Lit(Literal::String(text(rt, alloc, bytes))))
        .expect(rt, AMPLE);
    RestrictedExpr::Call {
        name: text(rt, alloc, "decimal"),
        args,
    }
}

#[test]
fn calls_have_values(rt: HostRuntime) {
    let alloc = rt.alloc();
    let call = decimal_call(&rt, alloc, "1.0");
    let x = Ext::try_from_restricted(alloc, &call).expect(&rt, AMPLE);
    let said = format!(in alloc; "{}", Term::from(x)).expect(&rt, AMPLE);
    expect_text(
        &rt,
        "a call of decimal",
        said.as_str(),
        "decimal(\"1.0000\")",
    );
    let made = value_of_ext(alloc, &x).expect(&rt, AMPLE);
    let again = Ext::try_from_value(alloc, &made).expect(&rt, AMPLE);
    let same = format!(in alloc; "{}", again == x).expect(&rt, AMPLE);
    expect_text(
        &rt,
        "the call that is made of a value",
        same.as_str(),
        "true",
    );
    let truth = Value::Lit(Literal::Bool(true));
    let refused = Ext::try_from_value(alloc, &truth);
    let refused = format!(in alloc; "{refused:?}").expect(&rt, AMPLE);
    let wanted = "Err(FromValue(Lit(Bool(true))))";
    expect_text(&rt, "a truth value", refused.as_str(), wanted);
}

/// A user of 3 years, who is in a group and has a tag. A user may view a user.
const ONE_USER: &World = &World {
    types: &[
        (
            "User",
            Kind::Standard(&["Group"], &[("age", Plain::Long, true)], Some(Plain::Text)),
        ),
        ("Color", Kind::Enum(&["red", "blue"])),
    ],
    actions: &[(("Action", "view"), &[], &[])],
    asked: ("Action", "view"),
    known: (true, true, true),
    context: Some(&[]),
    stored: &[(
        ("User", "a"),
        &[("age", Part::Long(3))],
        &[("Group", "g")],
        &[("k", Part::Text("v"))],
    )],
};

/// What a function has at a user of this id, as a text.
fn at_user(rt: &impl Abort, alloc: Global, f: &UnaryFunction, id: &str) -> String {
    let user = Term::from(uid(rt, alloc, ("User", id)));
    let term = app(alloc, f.share().expect(rt, AMPLE), user).expect(rt, AMPLE);
    format!(in alloc; "{term}").expect(rt, AMPLE)
}

/// The tag `k` of the user `a`, as a text.
fn tag_of_a(rt: &impl Abort, alloc: Global, values: &UnaryFunction) -> String {
    let user = Term::from(uid(rt, alloc, ("User", "a")));
    let key = Term::from(text(rt, alloc, "k"));
    let asked = tag_of(alloc, user, key).expect(rt, AMPLE);
    let term = app(alloc, values.share().expect(rt, AMPLE), asked).expect(rt, AMPLE);
    format!(in alloc; "{term}").expect(rt, AMPLE)
}

/// Compares what there is to say of users.
fn compare_users(rt: &impl Abort, alloc: Global, users: &SymEntityData) {
    let age = at_user(rt, alloc, &users.attrs, "a");
    expect_text(rt, "attributes", age.as_str(), "{ age: (bv64 3) }");
    let other = at_user(rt, alloc, &users.attrs, "z");
    expect_text(
        rt,
        "a user who is not stored",
        other.as_str(),
        "{ age: (bv64 0) }",
    );
    let group = type_named(rt, alloc, "Group");
    let groups = users.ancestors.get(&group).expect(rt, "there are groups");
    let held = at_user(rt, alloc, groups, "a");
    expect_text(rt, "ancestors", held.as_str(), "[Group::\"g\"]");
    if let Some(tags) = &users.tags {
        let keys = at_user(rt, alloc, &tags.keys, "a");
        expect_text(rt, "keys of tags", keys.as_str(), "[\"k\"]");
        let tag = tag_of_a(rt, alloc, &tags.vals);
        expect_text(rt, "a tag", tag.as_str(), "\"v\"");
    } else {
        panic!(rt; "users have tags");
    }
}

/// The members of a type that the table of a symbolic environment lists, as a text.
fn members(rt: &impl Abort, alloc: Global, env: &SymEnv, name: &str) -> String {
    let table = env.enum_table(alloc).expect(rt, AMPLE);
    match table.members_of(&type_named(rt, alloc, name)) {
        Some(ids) => format!(in alloc; "{:?}", ids.items()).expect(rt, AMPLE),
        None => String::from_str(alloc, "not listed").expect(rt, AMPLE),
    }
}

#[test]
fn a_user_is_stored(rt: HostRuntime) {
    let alloc = rt.alloc();
    let env = symbolized(&rt, alloc, ONE_USER).expect(&rt, AMPLE);
    let users = env
        .entities
        .get(&type_named(&rt, alloc, "User"))
        .expect(&rt, "the schema has users");
    compare_users(&rt, alloc, users);
    let colors = members(&rt, alloc, &env, "Color");
    expect_text(&rt, "an enum type", colors.as_str(), "[\"blue\", \"red\"]");
    let actions = members(&rt, alloc, &env, "Action");
    expect_text(&rt, "a type of actions", actions.as_str(), "[\"view\"]");
    let others = members(&rt, alloc, &env, "User");
    expect_text(&rt, "a type with attributes", others.as_str(), "not listed");
    let unknown = &World {
        context: None,
        ..*ONE_USER
    };
    let refused = symbolized(&rt, alloc, unknown).err();
    let refused = format!(in alloc; "{refused:?}").expect(&rt, AMPLE);
    let wanted = "Some(PartialRequest)";
    expect_text(&rt, "no context", refused.as_str(), wanted);
}
