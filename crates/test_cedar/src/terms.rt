// The terms of values at types, each refusal, and the defaults of types.
use crate::expected::{expect_text, expect_text_at};
use crate::worlds::{text, type_named, uid};
use smt_bits::SIXTY_FOUR;
use smt_term::{EnumTable, ExtType, Term, TermType, TypeMap};
use smt_values::{
    AttributeType, Attributes, BoolType, CedarType, ExprList, FromCedar, Literal, OpenTag,
    RestrictedExpr, SymbolizeError, Value, ValueList, ValueMap, default_literal,
};
use std::alloc::Global;
use std::process::Abort;
use std::rc::Rc;
use test_words::AMPLE;

/// A value with no parts.
#[derive(Clone, Copy)]
enum Part {
    /// A truth value.
    Truth(bool),
    /// A number.
    Long(i64),
    /// A text.
    Text(&'static str),
    /// An entity of a type and of an id.
    Entity(&'static str, &'static str),
    /// A call of an extension function with a text.
    Call(&'static str, &'static str),
}

/// A value.
#[derive(Clone, Copy)]
enum Given {
    /// One with no parts.
    One(Part),
    /// The set of these.
    Set(&'static [Part]),
    /// The set whose one element is the set of these.
    SetOfSet(&'static [Part]),
    /// The record of these.
    Record(&'static [(&'static str, Part)]),
}

/// A Cedar type with no parts.
#[derive(Clone, Copy)]
enum Plain {
    /// No values.
    Never,
    /// `true` alone.
    True,
    /// Both truth values.
    Bool,
    /// Numbers.
    Long,
    /// Texts.
    Text,
}

/// A Cedar type.
#[derive(Clone, Copy)]
enum At {
    /// One with no parts.
    One(Plain),
    /// Sets.
    Set(Plain),
    /// The empty set alone.
    EmptySet,
    /// Records of `b`, which they need to have, and of `a`, which they need not.
    Record { b: Plain, a: Plain },
    /// The same, that may have more attributes.
    Open { b: Plain, a: Plain },
}

/// A call of a function with a text.
fn call(rt: &impl Abort, alloc: Global, name: &str, bytes: &str) -> RestrictedExpr {
    let mut args = Vec::new(alloc);
    let arg = RestrictedExpr::Lit(Literal::String(text(rt, alloc, bytes)));
    args.push(arg).expect(rt, AMPLE);
    RestrictedExpr::Call {
        name: text(rt, alloc, name),
        args: ExprList::of_items(args),
    }
}

/// A value with no parts.
fn part_value(rt: &impl Abort, alloc: Global, given: Part) -> Value {
    match given {
        Part::Truth(truth) => Value::Lit(Literal::Bool(truth)),
        Part::Long(number) => Value::Lit(Literal::Long(number)),
        Part::Text(bytes) => Value::Lit(Literal::String(text(rt, alloc, bytes))),
        Part::Entity(ty, id) => Value::Lit(Literal::EntityUID(uid(rt, alloc, (ty, id)))),
        Part::Call(name, bytes) => Value::ExtensionValue(call(rt, alloc, name, bytes)),
    }
}

/// The set of some values.
fn set(rt: &impl Abort, alloc: Global, given: &[Part]) -> Value {
    let mut items = Vec::new(alloc);
    for element in given {
        items
            .push(part_value(rt, alloc, *element))
            .expect(rt, AMPLE);
    }
    Value::Set(ValueList::of_items(items))
}

/// The record of some attributes.
fn record(rt: &impl Abort, alloc: Global, given: &[(&'static str, Part)]) -> Value {
    let mut pairs = Vec::new(alloc);
    for (name, field) in given {
        let pair = (text(rt, alloc, name), part_value(rt, alloc, *field));
        pairs.push(pair).expect(rt, AMPLE);
    }
    Value::Record(ValueMap::of_pairs(alloc, pairs).expect(rt, AMPLE))
}

/// A value.
fn value(rt: &impl Abort, alloc: Global, given: Given) -> Value {
    match given {
        Given::One(one) => part_value(rt, alloc, one),
        Given::Set(elements) => set(rt, alloc, elements),
        Given::SetOfSet(elements) => {
            let mut items = Vec::new(alloc);
            items.push(set(rt, alloc, elements)).expect(rt, AMPLE);
            Value::Set(ValueList::of_items(items))
        }
        Given::Record(fields) => record(rt, alloc, fields),
    }
}

/// A Cedar type with no parts.
fn plain_type(ty: Plain) -> CedarType {
    match ty {
        Plain::Never => CedarType::Never,
        Plain::True => CedarType::Bool(BoolType::True),
        Plain::Bool => CedarType::Bool(BoolType::AnyBool),
        Plain::Long => CedarType::Long,
        Plain::Text => CedarType::String,
    }
}

/// The attributes `b` and `a`, of which the first alone is required.
fn attributes(rt: &impl Abort, alloc: Global, b: Plain, a: Plain) -> Attributes {
    let mut pairs = Vec::new(alloc);
    let required = AttributeType {
        attr_type: plain_type(b),
        is_required: true,
    };
    pairs
        .push((text(rt, alloc, "b"), required))
        .expect(rt, AMPLE);
    let optional = AttributeType {
        attr_type: plain_type(a),
        is_required: false,
    };
    pairs
        .push((text(rt, alloc, "a"), optional))
        .expect(rt, AMPLE);
    Attributes::of_pairs(alloc, pairs).expect(rt, AMPLE)
}

/// A Cedar type.
fn type_at(rt: &impl Abort, alloc: Global, at: At) -> CedarType {
    match at {
        At::One(ty) => plain_type(ty),
        At::Set(element) => CedarType::Set {
            element_type: Some(Rc::new(alloc, plain_type(element)).expect(rt, AMPLE)),
        },
        At::EmptySet => CedarType::Set { element_type: None },
        At::Record { b, a } => CedarType::Record {
            attrs: attributes(rt, alloc, b, a),
            open_attributes: OpenTag::ClosedAttributes,
        },
        At::Open { b, a } => CedarType::Record {
            attrs: attributes(rt, alloc, b, a),
            open_attributes: OpenTag::OpenAttributes,
        },
    }
}

/// The term of a value at a type, or the refusal; `the value`, where that has the whole value.
fn said(rt: &impl Abort, alloc: Global, v: &Value, ty: &CedarType) -> String {
    let text = match Term::from_value(alloc, v, ty) {
        Ok(term) => format!(in alloc; "{term}"),
        Err(SymbolizeError::UnableToSymbolizeValue(given)) => {
            if given == *v {
                String::from_str(alloc, "no term of the value")
            } else {
                format!(in alloc; "no term of {given:?}")
            }
        }
        Err(other) => format!(in alloc; "{other:?}"),
    };
    text.expect(rt, AMPLE)
}

const NEVER: At = At::One(Plain::Never);

const LONGS: At = At::Record {
    b: Plain::Long,
    a: Plain::Long,
};

const ONE: Part = Part::Long(1);

const TEN: Part = Part::Long(10);

const WHOLE: &str = "no term of the value";

const UNSUPPORTED: &str = "CompileError(UnsupportedFeature(\"never type is not supported\"))";

const NO_DECIMAL: &str =
    "ExtError(FromValue(ExtensionValue(Call { name: \"decimal\", args: ExprList { items: [Lit(String(\"1.00000\"))] } })))";

const NO_DECIMAL_PART: Part = Part::Call("decimal", "1.00000");

const ROWS: &[(Given, At, &str)] = &[
    (Given::One(Part::Long(7)), At::One(Plain::Long), "(bv64 7)"),
    (
        Given::One(Part::Long(-1)),
        At::One(Plain::True),
        "(bv64 18446744073709551615)",
    ),
    (Given::One(Part::Truth(false)), NEVER, "false"),
    (Given::One(Part::Text("")), At::EmptySet, "\"\""),
    (
        Given::One(Part::Text("a\"\n\0\u{1f600}")),
        LONGS,
        "\"a\"\n\0\u{1f600}\"",
    ),
    (
        Given::One(Part::Entity("App::User", "x\"::y")),
        NEVER,
        "App::User::\"x\\\"::y\"",
    ),
    (
        Given::One(Part::Call("decimal", "1.5")),
        NEVER,
        "decimal(\"1.5000\")",
    ),
    (
        Given::One(Part::Call("ip", "10.0.0.0/8")),
        LONGS,
        "ip(\"10.0.0.0/8\")",
    ),
    (
        Given::One(Part::Call("duration", "5ms")),
        At::EmptySet,
        "duration(\"5ms\")",
    ),
    (Given::One(NO_DECIMAL_PART), NEVER, NO_DECIMAL),
    (Given::Set(&[]), At::Set(Plain::Bool), "[]"),
    (
        Given::Set(&[TEN, ONE, TEN]),
        At::Set(Plain::Long),
        "[(bv64 1), (bv64 10)]",
    ),
    (Given::Set(&[ONE]), At::Set(Plain::Text), "[(bv64 1)]"),
    (Given::Set(&[ONE]), At::Set(Plain::Never), UNSUPPORTED),
    (Given::Set(&[]), At::Set(Plain::Never), UNSUPPORTED),
    (
        Given::Set(&[ONE, NO_DECIMAL_PART]),
        At::Set(Plain::Never),
        NO_DECIMAL,
    ),
    (
        Given::SetOfSet(&[ONE]),
        At::Set(Plain::Never),
        "no term of Set(ValueList { items: [Lit(Long(1))] })",
    ),
    (Given::Set(&[ONE]), At::EmptySet, WHOLE),
    (Given::Set(&[]), At::EmptySet, WHOLE),
    (Given::Set(&[NO_DECIMAL_PART]), At::One(Plain::Long), WHOLE),
    (Given::Set(&[]), LONGS, WHOLE),
    (
        Given::Record(&[("b", ONE), ("a", TEN)]),
        LONGS,
        "{ a: Some((bv64 10)), b: (bv64 1) }",
    ),
    (
        Given::Record(&[("b", ONE)]),
        LONGS,
        "{ a: None, b: (bv64 1) }",
    ),
    (
        Given::Record(&[("b", ONE), ("c", TEN), ("", TEN), ("aa", NO_DECIMAL_PART)]),
        LONGS,
        "{ a: None, b: (bv64 1) }",
    ),
    (Given::Record(&[("a", TEN)]), LONGS, WHOLE),
    (Given::Record(&[]), LONGS, WHOLE),
    (Given::Record(&[("B", ONE), ("b\0", ONE)]), LONGS, WHOLE),
    (Given::Record(&[("a", NO_DECIMAL_PART)]), LONGS, NO_DECIMAL),
    (
        Given::Record(&[("a", TEN), ("b", NO_DECIMAL_PART)]),
        LONGS,
        NO_DECIMAL,
    ),
    (
        Given::Record(&[]),
        At::Record {
            b: Plain::Long,
            a: Plain::Never,
        },
        UNSUPPORTED,
    ),
    (
        Given::Record(&[("a", TEN)]),
        At::Record {
            b: Plain::Long,
            a: Plain::Never,
        },
        WHOLE,
    ),
    (
        Given::Record(&[("a", TEN), ("b", ONE)]),
        At::Record {
            b: Plain::Never,
            a: Plain::True,
        },
        "{ a: Some((bv64 10)), b: (bv64 1) }",
    ),
    (
        Given::Record(&[("a", TEN), ("b", ONE)]),
        At::Open {
            b: Plain::Long,
            a: Plain::Long,
        },
        WHOLE,
    ),
    (Given::Record(&[("b", ONE)]), At::Set(Plain::Long), WHOLE),
    (Given::Record(&[]), At::One(Plain::Long), WHOLE),
    (Given::Record(&[("b", NO_DECIMAL_PART)]), NEVER, WHOLE),
];

/// What is said of this value at this type.
fn said_at(rt: &impl Abort, alloc: Global, given: Given, ty: At) -> String {
    let v = value(rt, alloc, given);
    let ty = type_at(rt, alloc, ty);
    said(rt, alloc, &v, &ty)
}

#[test]
fn values_at_types(rt: HostRuntime) {
    let alloc = rt.alloc();
    for (at, (given, ty, answer)) in ROWS.iter().enumerate() {
        let said = said_at(&rt, alloc, *given, *ty);
        expect_text_at(&rt, at, said.as_str(), *answer);
    }
}

/// What none is of, which no text of a term says.
#[test]
fn none_of_its_type(rt: HostRuntime) {
    let alloc = rt.alloc();
    let v = record(&rt, alloc, &[("b", ONE)]);
    let ty = type_at(
        &rt,
        alloc,
        At::Record {
            b: Plain::Long,
            a: Plain::Text,
        },
    );
    let text = format!(in alloc; "{:?}", Term::from_value(alloc, &v, &ty)).expect(&rt, AMPLE);
    expect_text(
        &rt,
        "a record",
        text.as_str(),
        "Ok(Record(TermMap { pairs: AttributePairs { items: [(\"a\", None(String)), (\"b\", Prim(Bitvec(BitVec { width: Width { bits: 64 }, number: 1 })))] } }))",
    );
}

/// The enum types `Color`, of `red` and `blue`, and `Nothing`, of none.
fn enum_types(rt: &impl Abort, alloc: Global) -> EnumTable {
    let mut enums = EnumTable::new(alloc);
    let colors = [text(rt, alloc, "red"), text(rt, alloc, "blue")];
    let color = type_named(rt, alloc, "Color");
    enums.insert(color, &colors).expect(rt, AMPLE);
    let nothing = type_named(rt, alloc, "Nothing");
    enums.insert(nothing, &[]).expect(rt, AMPLE);
    enums
}

/// The type of this spelling; any other spelling is the name of an entity type.
fn spelled(rt: &impl Abort, alloc: Global, spelling: &str) -> TermType {
    match spelling {
        "Bool" => TermType::Bool,
        "Long" => TermType::Bitvec { n: SIXTY_FOUR },
        "String" => TermType::String,
        "Option<Bool>" => TermType::option_of(alloc, TermType::Bool).expect(rt, AMPLE),
        "Set<Bool>" => TermType::set_of(alloc, TermType::Bool).expect(rt, AMPLE),
        "decimal" => TermType::Ext {
            xty: ExtType::Decimal,
        },
        "ipaddr" => TermType::Ext {
            xty: ExtType::IpAddr,
        },
        "datetime" => TermType::Ext {
            xty: ExtType::DateTime,
        },
        "duration" => TermType::Ext {
            xty: ExtType::Duration,
        },
        "two attributes" => {
            let b = (text(rt, alloc, "b"), TermType::String);
            let a = (text(rt, alloc, "a"), TermType::Bool);
            TermType::Record {
                rty: TypeMap::new(alloc, &[b, a]).expect(rt, AMPLE),
            }
        }
        name => TermType::Entity {
            ety: type_named(rt, alloc, name),
        },
    }
}

/// Types, each with its default.
const DEFAULTS: &[(&str, &str)] = &[
    ("Bool", "false"),
    ("Long", "(bv64 0)"),
    ("String", "\"\""),
    ("User", "User::\"\""),
    ("Color", "Color::\"blue\""),
    ("Nothing", "Nothing::\"\""),
    ("Option<Bool>", "None"),
    ("Set<Bool>", "[]"),
    ("decimal", "decimal(\"0.0000\")"),
    ("ipaddr", "ip(\"0.0.0.0/32\")"),
    (
        "datetime",
        "datetime(\"1970-01-01\").offset(duration(\"0ms\"))",
    ),
    ("duration", "duration(\"0ms\")"),
    ("two attributes", "{ a: false, b: \"\" }"),
];

/// The default of the type of this spelling, as a text.
fn default_of(rt: &impl Abort, alloc: Global, enums: &EnumTable, spelling: &str) -> String {
    let ty = spelled(rt, alloc, spelling);
    let term = default_literal(alloc, &ty, enums).expect(rt, AMPLE);
    format!(in alloc; "{term}").expect(rt, AMPLE)
}

#[test]
fn defaults_of_types(rt: HostRuntime) {
    let alloc = rt.alloc();
    let enums = enum_types(&rt, alloc);
    for &(spelling, answer) in DEFAULTS {
        let text = default_of(&rt, alloc, &enums, spelling);
        expect_text(&rt, spelling, text.as_str(), answer);
    }
}

#[test]
fn an_attribute_alone(rt: HostRuntime) {
    let alloc = rt.alloc();
    let mut pairs = Vec::new(alloc);
    let optional = AttributeType {
        attr_type: CedarType::Long,
        is_required: false,
    };
    pairs
        .push((text(&rt, alloc, "a"), optional))
        .expect(&rt, AMPLE);
    let ty = CedarType::Record {
        attrs: Attributes::of_pairs(alloc, pairs).expect(&rt, AMPLE),
        open_attributes: OpenTag::ClosedAttributes,
    };
    let v = record(&rt, alloc, &[("a", TEN)]);
    let said = said(&rt, alloc, &v, &ty);
    expect_text(&rt, "a record", said.as_str(), "{ a: Some((bv64 10)) }");
}
