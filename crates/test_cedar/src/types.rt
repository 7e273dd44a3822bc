// The types of terms of Cedar types, and each refusal.
use crate::expected::{expect, expect_text};
use crate::worlds::{text, types_named};
use smt_term::TermType;
use smt_values::{
    AttributeType, Attributes, BoolType, CedarType, EntityKind, OfType, OpenTag, of_record_type,
};
use std::alloc::Global;
use std::process::Abort;
use std::rc::Rc;
use test_words::AMPLE;

/// The Cedar type of sets of values of a type.
fn set(rt: &impl Abort, alloc: Global, element: CedarType) -> CedarType {
    CedarType::Set {
        element_type: Some(Rc::new(alloc, element).expect(rt, AMPLE)),
    }
}

/// The Cedar type of records of two attributes, `b` and then `a`, of which the first alone is required.
fn record(
    rt: &impl Abort,
    alloc: Global,
    open_attributes: OpenTag,
    b: CedarType,
    a: CedarType,
) -> CedarType {
    let mut pairs = Vec::new(alloc);
    let required = AttributeType {
        attr_type: b,
        is_required: true,
    };
    pairs
        .push((text(rt, alloc, "b"), required))
        .expect(rt, AMPLE);
    let optional = AttributeType {
        attr_type: a,
        is_required: false,
    };
    pairs
        .push((text(rt, alloc, "a"), optional))
        .expect(rt, AMPLE);
    CedarType::Record {
        attrs: Attributes::of_pairs(alloc, pairs).expect(rt, AMPLE),
        open_attributes,
    }
}

/// The Cedar type of entities of one of these types.
fn entity(rt: &impl Abort, alloc: Global, names: &[&str]) -> CedarType {
    CedarType::Entity(EntityKind::Entity(types_named(rt, alloc, names)))
}

/// The Cedar type of values of an extension type.
fn extension(rt: &impl Abort, alloc: Global, name: &str) -> CedarType {
    CedarType::ExtensionType {
        name: text(rt, alloc, name),
    }
}

/// The Cedar type of this spelling; any other spelling is the name of an extension type.
fn spelled(rt: &impl Abort, alloc: Global, spelling: &str) -> CedarType {
    let closed = OpenTag::ClosedAttributes;
    match spelling {
        "Bool" => CedarType::Bool(BoolType::AnyBool),
        "True" => CedarType::Bool(BoolType::True),
        "Long" => CedarType::Long,
        "String" => CedarType::String,
        "any entity" => CedarType::Entity(EntityKind::AnyEntity),
        "App::User" => entity(rt, alloc, &["App::User"]),
        "User or Group" => entity(rt, alloc, &["User", "Group"]),
        "Set<String>" => set(rt, alloc, CedarType::String),
        "Set<empty Set>" => set(rt, alloc, CedarType::Set { element_type: None }),
        "{b: String, a?: String}" => record(
            rt,
            alloc,
            closed,
            CedarType::String,
            CedarType::String,
        ),
        "{b: False, a?: Never}" => record(
            rt,
            alloc,
            closed,
            CedarType::Bool(BoolType::False),
            CedarType::Never,
        ),
        "{b: Never, a?: Never, ..}" => record(
            rt,
            alloc,
            OpenTag::OpenAttributes,
            CedarType::Never,
            CedarType::Never,
        ),
        name => extension(rt, alloc, name),
    }
}

/// Cedar types, each with what is answered of it.
const TYPES: &[(&str, &str)] = &[
    ("Bool", "Ok(Bool)"),
    ("Long", "Ok(Bitvec { n: Width { bits: 64 } })"),
    ("String", "Ok(String)"),
    ("Set<String>", "Ok(Set { ty: String })"),
    (
        "{b: String, a?: String}",
        "Ok(Record { rty: TypeMap { pairs: AttributePairs { items: [(\"a\", Option { ty: String }), (\"b\", String)] } } })",
    ),
    ("App::User", "Ok(Entity { ety: EntityType(\"App::User\") })"),
    ("ipaddr", "Ok(Ext { xty: IpAddr })"),
    ("a::decimal", "Ok(Ext { xty: Decimal })"),
    ("a::b::datetime", "Ok(Ext { xty: DateTime })"),
    ("a:::duration", "Ok(Ext { xty: Duration })"),
    (
        "decimal::money",
        "Err(UnsupportedFeature(\"unsupported extension money\"))",
    ),
    (
        "True",
        "Err(UnsupportedFeature(\"singleton Bool type is not supported\"))",
    ),
    (
        "any entity",
        "Err(UnsupportedFeature(\"AnyEntity is not supported\"))",
    ),
    (
        "User or Group",
        "Err(UnsupportedFeature(\"EntityLUB has multiple elements\"))",
    ),
    (
        "Set<empty Set>",
        "Err(UnsupportedFeature(\"empty set type is unsupported\"))",
    ),
    (
        "{b: Never, a?: Never, ..}",
        "Err(UnsupportedFeature(\"unsupported open attributes\"))",
    ),
    (
        "{b: False, a?: Never}",
        "Err(UnsupportedFeature(\"never type is not supported\"))",
    ),
];

/// What is answered of the Cedar type of this spelling.
fn answered(rt: &impl Abort, alloc: Global, spelling: &str) -> String {
    let ty = spelled(rt, alloc, spelling);
    let given = TermType::of_type(alloc, &ty);
    format!(in alloc; "{given:?}").expect(rt, AMPLE)
}

#[test]
fn types_and_refusals(rt: HostRuntime) {
    let alloc = rt.alloc();
    for &(spelling, answer) in TYPES {
        let text = answered(&rt, alloc, spelling);
        expect_text(&rt, spelling, text.as_str(), answer);
    }
}

#[test]
fn no_attributes_have_no_types(rt: HostRuntime) {
    let alloc = rt.alloc();
    let none = Attributes::new(alloc);
    let types = of_record_type(alloc, &none).expect(&rt, "no attribute is refused");
    expect(&rt, types.is_empty(), "no types");
}
