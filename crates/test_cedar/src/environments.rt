// What tables say of stored entities and of actions, what requests are refused, and which refusal comes first.
use crate::expected::{expect, expect_none_wrong};
use crate::worlds::{Action, Kind, Name, Part, Plain, World, symbolized, text, type_named, uid};
use smt_factory_core::{app, tag_of};
use smt_symbolizer::{SymEntityData, SymEnv, core_entity_type_into_entity_type, core_uid_into_uid};
use smt_term::{EnumTable, Term, UnaryFunction};
use std::alloc::Global;
use std::process::Abort;
use test_words::AMPLE;

/// What is asked of a symbolic environment.
#[derive(Clone, Copy)]
enum Question {
    /// The attributes of an entity.
    Attrs(Name),
    /// Its ancestors of a type.
    Ancestors(Name, &'static str),
    /// The keys of its tags.
    Keys(Name),
    /// A tag of it.
    Tag(Name, &'static str),
    /// The members of a type in the table of enum types.
    Members(&'static str),
    /// Whom the request names, and its context.
    Request,
    /// How many types have tables.
    Types,
}

/// A function at a term, as a text.
fn at(rt: &impl Abort, alloc: Global, f: &UnaryFunction, t: Term) -> String {
    let shared = f.share().expect(rt, AMPLE);
    let term = app(alloc, shared, t).expect(rt, AMPLE);
    format!(in alloc; "{term}").expect(rt, AMPLE)
}

/// A text that is an answer.
fn says(rt: &impl Abort, alloc: Global, bytes: &str) -> String {
    String::from_str(alloc, bytes).expect(rt, AMPLE)
}

/// What a function that may be missing has at an entity, as a text.
fn at_entity(rt: &impl Abort, alloc: Global, f: Option<&UnaryFunction>, name: Name) -> String {
    match f {
        Some(f) => at(rt, alloc, f, Term::from(uid(rt, alloc, name))),
        None => says(rt, alloc, "no table"),
    }
}

/// A tag of an entity, as a text.
fn tag(rt: &impl Abort, alloc: Global, held: &SymEntityData, name: Name, key: &str) -> String {
    match &held.tags {
        Some(tags) => {
            let key = Term::from(text(rt, alloc, key));
            let entity = Term::from(uid(rt, alloc, name));
            let asked = tag_of(alloc, entity, key).expect(rt, AMPLE);
            at(rt, alloc, &tags.vals, asked)
        }
        None => says(rt, alloc, "no table"),
    }
}

/// The members of a type in the table of enum types, as a text.
fn members(rt: &impl Abort, alloc: Global, table: &EnumTable, name: &str) -> String {
    match table.members_of(&type_named(rt, alloc, name)) {
        Some(members) => format!(in alloc; "{:?}", members.items()).expect(rt, AMPLE),
        None => says(rt, alloc, "not listed"),
    }
}

/// What there is to say of a type that has tables, as a text.
fn of_held(rt: &impl Abort, alloc: Global, held: &SymEntityData, question: Question) -> String {
    match question {
        Question::Attrs(name) => at_entity(rt, alloc, Some(&held.attrs), name),
        Question::Ancestors(name, other) => {
            let other = type_named(rt, alloc, other);
            at_entity(rt, alloc, held.ancestors.get(&other), name)
        }
        Question::Keys(name) => match &held.tags {
            Some(tags) => at_entity(rt, alloc, Some(&tags.keys), name),
            None => at_entity(rt, alloc, None, name),
        },
        Question::Tag(name, key) => tag(rt, alloc, held, name, key),
        Question::Members(_) | Question::Request | Question::Types => says(rt, alloc, ""),
    }
}

/// What there is to say of a type, as a text.
fn of_type(rt: &impl Abort, alloc: Global, env: &SymEnv, question: Question) -> String {
    let (ety, _id) = match question {
        Question::Attrs(name) | Question::Ancestors(name, _) => name,
        Question::Keys(name) | Question::Tag(name, _) => name,
        Question::Members(_) | Question::Request | Question::Types => ("", ""),
    };
    match env.entities.get(&type_named(rt, alloc, ety)) {
        Some(held) => of_held(rt, alloc, held, question),
        None => says(rt, alloc, "no type"),
    }
}

/// The answer to a question, as a text.
fn answer(rt: &impl Abort, alloc: Global, env: &SymEnv, question: Question) -> String {
    match question {
        Question::Members(name) => {
            let table = env.enum_table(alloc).expect(rt, AMPLE);
            members(rt, alloc, &table, name)
        }
        Question::Types => format!(in alloc; "{}", env.entities.len()).expect(rt, AMPLE),
        Question::Request => {
            let asked = &env.request;
            let (principal, action) = (&asked.principal, &asked.action);
            let (resource, context) = (&asked.resource, &asked.context);
            format!(in alloc; "{principal} {action} {resource} {context}").expect(rt, AMPLE)
        }
        other => of_type(rt, alloc, env, other),
    }
}

const A: Name = ("User", "a");

const VIEW: Name = ("Action", "view");

/// The action, with no ancestors and a context without attributes.
const PLAIN_VIEW: Action = (VIEW, &[], &[]);

/// No types but those of the action, and no entities.
const EMPTY: World = World {
    types: &[],
    actions: &[PLAIN_VIEW],
    asked: VIEW,
    known: (true, true, true),
    context: Some(&[]),
    stored: &[],
};

/// Users with ages, groups and tags, and groups with maybe a name.
const USERS: &World = &World {
    types: &[
        (
            "User",
            Kind::Standard(&["Group"], &[("age", Plain::Long, true)], Some(Plain::Text)),
        ),
        (
            "Group",
            Kind::Standard(&["Group"], &[("name", Plain::Text, false)], None),
        ),
        ("Color", Kind::Enum(&["red", "blue", "red"])),
        ("Gr\"oup\0::", Kind::Standard(&["\u{1f600}"], &[], None)),
    ],
    actions: &[
        PLAIN_VIEW,
        (
            ("Action", "edit"),
            &[VIEW, ("Other", "o")],
            &[("ip", Plain::Text, true)],
        ),
        (("Other", "o"), &[], &[]),
        (
            VIEW,
            &[("Action", "all"), ("Action", "all"), ("Other", "o")],
            &[("at", Plain::Long, true)],
        ),
    ],
    asked: VIEW,
    known: (true, true, true),
    context: Some(&[("at", Part::Long(7)), ("more", Part::Set)]),
    stored: &[
        (
            A,
            &[("age", Part::Long(3))],
            &[
                ("Group", "g"),
                ("User", "b"),
                ("Group", "a"),
                ("Group", "g"),
            ],
            &[("k", Part::Text("v")), ("j", Part::Text("w"))],
        ),
        (
            ("Group", "g"),
            &[],
            &[("Group", "top")],
            &[("k", Part::Unknown)],
        ),
        (
            ("Gr\"oup\0::", "\"\\\0::\u{1f600}"),
            &[],
            &[("\u{1f600}", "\""), ("", "\u{1f600}")],
            &[],
        ),
        (("Color", "green"), &[("age", Part::Unknown)], &[], &[]),
        (
            ("Action", "view"),
            &[("age", Part::Unknown)],
            &[("Action", "stored")],
            &[],
        ),
    ],
};

const QUESTIONS: &[(Question, &str)] = &[
    (Question::Types, "6"),
    (Question::Attrs(A), "{ age: (bv64 3) }"),
    (Question::Attrs(("User", "z")), "{ age: (bv64 0) }"),
    (
        Question::Ancestors(A, "Group"),
        "[Group::\"a\", Group::\"g\"]",
    ),
    (Question::Ancestors(("User", "z"), "Group"), "[]"),
    (Question::Ancestors(A, "User"), "no table"),
    (Question::Keys(A), "[\"j\", \"k\"]"),
    (Question::Keys(("User", "z")), "[]"),
    (Question::Tag(A, "k"), "\"v\""),
    (Question::Tag(A, "j"), "\"w\""),
    (Question::Tag(A, "i"), "\"\""),
    (Question::Tag(("User", "z"), "k"), "\"\""),
    (Question::Attrs(("Group", "g")), "{ name: None }"),
    (
        Question::Ancestors(("Group", "g"), "Group"),
        "[Group::\"top\"]",
    ),
    (Question::Keys(("Group", "g")), "no table"),
    (
        Question::Ancestors(("Gr\"oup\0::", "\"\\\0::\u{1f600}"), "\u{1f600}"),
        "[\u{1f600}::\"\\\"\"]",
    ),
    (Question::Attrs(("Color", "green")), "{}"),
    (Question::Ancestors(("Color", "red"), "Color"), "no table"),
    (Question::Keys(("Color", "red")), "no table"),
    (Question::Attrs(VIEW), "{}"),
    (Question::Ancestors(VIEW, "Action"), "[Action::\"all\"]"),
    (Question::Ancestors(VIEW, "Other"), "[Other::\"o\"]"),
    (
        Question::Ancestors(("Action", "edit"), "Action"),
        "[Action::\"view\"]",
    ),
    (Question::Members("Color"), "[\"blue\", \"red\"]"),
    (Question::Members("Action"), "[\"edit\", \"view\"]"),
    (Question::Members("Other"), "[\"o\"]"),
    (Question::Members("User"), "not listed"),
    (
        Question::Request,
        "User::\"a\" Action::\"view\" User::\"b\" { at: (bv64 7) }",
    ),
];

/// The place of the first of these questions that has another answer.
fn wrong_answer(
    rt: &impl Abort,
    alloc: Global,
    env: &SymEnv,
    rows: &[(Question, &str)],
) -> Option<usize> {
    for (at, (question, said)) in rows.iter().enumerate() {
        if answer(rt, alloc, env, *question).as_str() != *said {
            return Some(at);
        }
    }
    None
}

/// The same of questions about the environment of a world.
fn wrong_answer_of(
    rt: &impl Abort,
    alloc: Global,
    world: &World,
    rows: &[(Question, &str)],
) -> Option<usize> {
    let env = symbolized(rt, alloc, world).expect(rt, "the world is not refused");
    wrong_answer(rt, alloc, &env, rows)
}

#[test]
fn tables_of_a_store(rt: HostRuntime) {
    let wrong = wrong_answer_of(&rt, rt.alloc(), USERS, QUESTIONS);
    expect_none_wrong(&rt, wrong);
}

/// A type that the schema lists and an action has too, with attributes that are not known.
const ACTIONS_ALONE: &World = &World {
    types: &[
        ("Action", Kind::Enum(&["listed"])),
        (
            "Other",
            Kind::Standard(&[], &[("a", Plain::Never, true)], Some(Plain::Never)),
        ),
    ],
    actions: &[PLAIN_VIEW, (("Other", "o"), &[], &[])],
    stored: &[(
        ("Other", "o"),
        &[("a", Part::Unknown)],
        &[("Other", "p")],
        &[],
    )],
    ..EMPTY
};

const QUESTIONS_OF_ACTIONS: &[(Question, &str)] = &[
    (Question::Types, "2"),
    (Question::Members("Action"), "[\"view\"]"),
    (Question::Members("Other"), "[\"o\"]"),
    (Question::Attrs(("Other", "o")), "{}"),
    (Question::Keys(("Other", "o")), "no table"),
    (Question::Ancestors(("Other", "o"), "Other"), "[]"),
    (Question::Attrs(("User", "a")), "no type"),
    (
        Question::Request,
        "User::\"a\" Action::\"view\" User::\"b\" {}",
    ),
];

#[test]
fn types_of_actions(rt: HostRuntime) {
    let wrong = wrong_answer_of(&rt, rt.alloc(), ACTIONS_ALONE, QUESTIONS_OF_ACTIONS);
    expect_none_wrong(&rt, wrong);
}

/// The refusal of a world, as a text.
fn refused(rt: &impl Abort, alloc: Global, world: &World) -> String {
    match symbolized(rt, alloc, world) {
        Ok(_) => says(rt, alloc, "none"),
        Err(error) => format!(in alloc; "{error:?}").expect(rt, AMPLE),
    }
}

/// The actions of a context with a required number.
const NUMBERED: &[Action] = &[(VIEW, &[], &[("n", Plain::Long, true)])];

const LONG: Kind = Kind::Standard(&[], &[("n", Plain::Long, true)], Some(Plain::Long));

const NEVER: Kind = Kind::Standard(&[], &[("n", Plain::Never, true)], Some(Plain::Never));

const NEVER_TAGS: Kind = Kind::Standard(&[], &[("n", Plain::Long, true)], Some(Plain::Never));

const SETS: Kind = Kind::Standard(
    &[],
    &[("m", Plain::Long, true), ("n", Plain::Long, true)],
    None,
);

const PARTIAL: &str = "PartialValue";

const UNSUPPORTED: &str = "CompileError(UnsupportedFeature(\"never type is not supported\"))";

const NO_SET: &str = "UnableToSymbolizeValue(Set(ValueList { items: [] }))";

const NO_RECORD: &str =
    "UnableToSymbolizeValue(Record(ValueMap { pairs: AttributeMap { items: [] } }))";

/// Worlds whose request, or whose context, is refused first, and one that is not refused.
const REQUESTS: &[(World, &str)] = &[
    (EMPTY, "none"),
    (
        World {
            asked: ("Action", "edit"),
            ..EMPTY
        },
        "IllFormedTypeEnv",
    ),
    (
        World {
            asked: ("Action", "edit"),
            known: (false, true, true),
            context: None,
            ..EMPTY
        },
        "IllFormedTypeEnv",
    ),
    (
        World {
            known: (false, true, true),
            ..EMPTY
        },
        "PartialRequest",
    ),
    (
        World {
            known: (true, false, true),
            ..EMPTY
        },
        "PartialRequest",
    ),
    (
        World {
            known: (true, true, false),
            ..EMPTY
        },
        "PartialRequest",
    ),
    (
        World {
            context: None,
            ..EMPTY
        },
        "PartialRequest",
    ),
    (
        World {
            actions: NUMBERED,
            ..EMPTY
        },
        NO_RECORD,
    ),
    (
        World {
            actions: NUMBERED,
            known: (true, true, false),
            ..EMPTY
        },
        "PartialRequest",
    ),
    (
        World {
            actions: NUMBERED,
            types: &[("A", NEVER)],
            ..EMPTY
        },
        NO_RECORD,
    ),
];

/// Worlds whose types, or the attributes of whose entities, are refused first.
const TYPES: &[(World, &str)] = &[
    (
        World {
            types: &[("A", NEVER)],
            ..EMPTY
        },
        UNSUPPORTED,
    ),
    (
        World {
            types: &[("B", NEVER), ("A", LONG)],
            stored: &[(("A", "a"), &[("n", Part::Unknown)], &[], &[])],
            ..EMPTY
        },
        PARTIAL,
    ),
    (
        World {
            types: &[("A", NEVER), ("B", LONG)],
            stored: &[(("B", "b"), &[("n", Part::Unknown)], &[], &[])],
            ..EMPTY
        },
        UNSUPPORTED,
    ),
    (
        World {
            types: &[("A", NEVER)],
            stored: &[(("A", "a"), &[("n", Part::Unknown)], &[], &[])],
            ..EMPTY
        },
        UNSUPPORTED,
    ),
    (
        World {
            types: &[("A", SETS)],
            stored: &[(
                ("A", "a"),
                &[("m", Part::Set), ("n", Part::Unknown)],
                &[],
                &[],
            )],
            ..EMPTY
        },
        PARTIAL,
    ),
    (
        World {
            types: &[("A", SETS)],
            stored: &[
                (("A", "b"), &[("m", Part::Set), ("n", Part::Set)], &[], &[]),
                (("A", "a"), &[("m", Part::Unknown)], &[], &[]),
            ],
            ..EMPTY
        },
        NO_SET,
    ),
];

/// Worlds whose tags, or what stands before them, are refused first, and one whose entity is of no type.
const TAGS: &[(World, &str)] = &[
    (
        World {
            types: &[("A", NEVER_TAGS)],
            stored: &[(("A", "a"), &[], &[], &[])],
            ..EMPTY
        },
        NO_RECORD,
    ),
    (
        World {
            types: &[("A", NEVER_TAGS)],
            stored: &[(
                ("A", "a"),
                &[("n", Part::Long(1))],
                &[],
                &[("k", Part::Unknown)],
            )],
            ..EMPTY
        },
        UNSUPPORTED,
    ),
    (
        World {
            types: &[("A", LONG)],
            stored: &[(
                ("A", "a"),
                &[("n", Part::Long(1))],
                &[],
                &[("l", Part::Unknown), ("k", Part::Set)],
            )],
            ..EMPTY
        },
        NO_SET,
    ),
    (
        World {
            types: &[("A", LONG)],
            stored: &[(
                ("A", "a"),
                &[("n", Part::Long(1))],
                &[],
                &[("l", Part::Set), ("k", Part::Unknown)],
            )],
            ..EMPTY
        },
        PARTIAL,
    ),
    (
        World {
            types: &[("A", LONG)],
            stored: &[
                (
                    ("A", "a"),
                    &[("n", Part::Long(1))],
                    &[],
                    &[("k", Part::Unknown)],
                ),
                (("A", "b"), &[], &[], &[]),
            ],
            ..EMPTY
        },
        NO_RECORD,
    ),
    (
        World {
            types: &[("A", LONG)],
            stored: &[(("B", "a"), &[("n", Part::Unknown)], &[], &[])],
            ..EMPTY
        },
        "none",
    ),
];

/// The place of the first of these worlds that is refused for something else.
fn wrong(rt: &impl Abort, alloc: Global, rows: &[(World, &str)]) -> Option<usize> {
    for (at, (world, said)) in rows.iter().enumerate() {
        if refused(rt, alloc, world).as_str() != *said {
            return Some(at);
        }
    }
    None
}

#[test]
fn requests_are_refused(rt: HostRuntime) {
    expect_none_wrong(&rt, wrong(&rt, rt.alloc(), REQUESTS));
}

#[test]
fn types_are_refused(rt: HostRuntime) {
    expect_none_wrong(&rt, wrong(&rt, rt.alloc(), TYPES));
}

#[test]
fn tags_are_refused(rt: HostRuntime) {
    expect_none_wrong(&rt, wrong(&rt, rt.alloc(), TAGS));
}

#[test]
fn names_stay(rt: HostRuntime) {
    let user = uid(&rt, rt.alloc(), A);
    expect(&rt, core_uid_into_uid(&user) == &user, "an entity");
    let ety = core_entity_type_into_entity_type(&user.ety);
    expect(&rt, ety == &user.ety, "its type");
}
