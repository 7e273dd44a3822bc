// A question about a store: which other user than the one who asks is an admin of less than 18 years.
use crate::expected::expect_text;
use crate::worlds::{Kind, Part, Plain, World, symbolized, text, type_named, uid};
use smt_encode::Encoder;
use smt_factory::{app, bvslt, eq, not, record_get, set_member};
use smt_script::ListSink;
use smt_symbolizer::{SymEntityData, SymEnv};
use smt_term::{Term, TermType, TermVar};
use std::alloc::Global;
use std::process::Abort;
use test_words::AMPLE;

/// Users have an age, and are in groups. A user may view a user; `a` views `b`, and there is `c`.
const USERS: &World = &World {
    types: &[
        (
            "User",
            Kind::Standard(&["Group"], &[("age", Plain::Long, true)], None),
        ),
        ("Group", Kind::Standard(&[], &[], None)),
    ],
    actions: &[(("Action", "view"), &[], &[])],
    asked: ("Action", "view"),
    known: (true, true, true),
    context: Some(&[]),
    stored: &[
        (
            ("User", "a"),
            &[("age", Part::Long(41))],
            &[("Group", "admins")],
            &[],
        ),
        (
            ("User", "b"),
            &[("age", Part::Long(17))],
            &[("Group", "admins")],
            &[],
        ),
        (
            ("User", "c"),
            &[("age", Part::Long(16))],
            &[("Group", "guests")],
            &[],
        ),
    ],
};

/// The script of the question.
const SCRIPT: &str = r#"(declare-datatype Option (par (X) (
  (none)
  (some (val X)))))
; User
(declare-datatype E0 (
  (E0 (E0_eid String))))
; "someone"
(declare-const t0 E0)
(define-fun t1 () E0 (E0 "a"))
(define-fun t2 () Bool (= t0 t1))
(define-fun t3 () Bool (not t2))
; Group
(declare-datatype E1 (
  (E1 (E1_eid String))))
(define-fun t4 () E1 (E1 "admins"))
(define-fun t5 () (Set E1) (set.insert t4 (as set.empty (Set E1))))
(define-fun t6 () E0 (E0 "b"))
(define-fun t7 () Bool (= t0 t6))
(define-fun t8 () E0 (E0 "c"))
(define-fun t9 () Bool (= t0 t8))
(define-fun t10 () E1 (E1 "guests"))
(define-fun t11 () (Set E1) (set.insert t10 (as set.empty (Set E1))))
(define-fun t12 () (Set E1) (as set.empty (Set E1)))
(define-fun t13 () (Set E1) (ite t9 t11 t12))
(define-fun t14 () (Set E1) (ite t7 t5 t13))
(define-fun t15 () (Set E1) (ite t2 t5 t14))
(define-fun t16 () Bool (set.member t4 t15))
; {age}
(declare-datatype R2 (
  (R2 (R2_a0 (_ BitVec 64)))))
(define-fun t17 () R2 (R2 (_ bv41 64)))
(define-fun t18 () R2 (R2 (_ bv17 64)))
(define-fun t19 () R2 (R2 (_ bv16 64)))
(define-fun t20 () R2 (R2 (_ bv0 64)))
(define-fun t21 () R2 (ite t9 t19 t20))
(define-fun t22 () R2 (ite t7 t18 t21))
(define-fun t23 () R2 (ite t2 t17 t22))
(define-fun t24 () (_ BitVec 64) (R2_a0 t23))
(define-fun t25 () Bool (bvslt t24 (_ bv18 64)))
(assert t3)
(assert t16)
(assert t25)
"#;

/// Some user.
fn someone(rt: &impl Abort, alloc: Global) -> Term {
    Term::from(TermVar {
        id: text(rt, alloc, "someone"),
        ty: TermType::Entity {
            ety: type_named(rt, alloc, "User"),
        },
    })
}

/// Whether someone is not the one who asks.
fn is_another(rt: &impl Abort, alloc: Global, env: &SymEnv) -> Term {
    let asks = env.request.principal.share().expect(rt, AMPLE);
    let same = eq(alloc, someone(rt, alloc), asks).expect(rt, AMPLE);
    not(alloc, same).expect(rt, AMPLE)
}

/// Whether someone is an admin.
fn is_admin(rt: &impl Abort, alloc: Global, users: &SymEntityData) -> Term {
    let groups = users
        .ancestors
        .get(&type_named(rt, alloc, "Group"))
        .expect(rt, "users are in groups");
    let shared = groups.share().expect(rt, AMPLE);
    let held = app(alloc, shared, someone(rt, alloc)).expect(rt, AMPLE);
    let admins = Term::from(uid(rt, alloc, ("Group", "admins")));
    set_member(alloc, admins, held).expect(rt, AMPLE)
}

/// Whether someone is less than 18 years old.
fn is_minor(rt: &impl Abort, alloc: Global, users: &SymEntityData) -> Term {
    let shared = users.attrs.share().expect(rt, AMPLE);
    let record = app(alloc, shared, someone(rt, alloc)).expect(rt, AMPLE);
    let age = record_get(alloc, record, &text(rt, alloc, "age")).expect(rt, AMPLE);
    bvslt(alloc, age, Term::from(18i64)).expect(rt, AMPLE)
}

#[test]
fn a_question_has_its_script(rt: HostRuntime) {
    let alloc = rt.alloc();
    let env = symbolized(&rt, alloc, USERS).expect(&rt, AMPLE);
    let users = env
        .entities
        .get(&type_named(&rt, alloc, "User"))
        .expect(&rt, "the schema has users");
    let terms = [
        is_another(&rt, alloc, &env),
        is_admin(&rt, alloc, users),
        is_minor(&rt, alloc, users),
    ];
    let enums = env.enum_table(alloc).expect(&rt, AMPLE);
    let mut encoder = Encoder::new(alloc, &enums, ListSink::new(alloc));
    encoder
        .encode(&terms)
        .expect(&rt, "the terms have a script");
    let sink = encoder.into_script();
    let script = str::from_utf8(sink.bytes()).expect(&rt, "a script is UTF-8");
    expect_text(&rt, "the script", script, SCRIPT);
}
