// What is read of jobs: their variables and their steps in order, which terms are current behind these, and how long a job may be.
use crate::expected::{expect, expect_bytes, expect_text};
use smt_bits::EIGHT;
use smt_cli::{Job, JobError, Step, read_job};
use smt_term::{Term, TermList, TermType, TermVar};
use std::alloc::Global;
use std::io::Write;
use std::process::Abort;
use test_words::AMPLE;

/// The most bytes that a job may have.
const GREATEST_JOB: usize = 16_777_216;

/// The job of this last section, over a truth value `b` and 8 bits `x`.
fn job_of(rt: &impl Abort, alloc: Global, section: &str) -> Job {
    let text = format!(in alloc;
        "(job (enums) (vars (\"b\" Bool) (\"x\" (BitVec 8))) (funs) {section})"
    );
    let text = text.expect(rt, AMPLE);
    read_job(alloc, text.as_bytes()).expect(rt, "the text is a job")
}

/// Whether a variable has this name and this type.
fn is_variable(variable: &TermVar, id: &str, ty: &TermType) -> bool {
    variable.id.as_str() == id && variable.ty == *ty
}

/// Whether both variables are declared, in this order.
fn declares_both(rt: &impl Abort, alloc: Global) -> bool {
    let job = job_of(rt, alloc, "(terms)");
    match job.vars.items() {
        [b, x] => {
            job.vars.len() == 2
                && is_variable(b, "b", &TermType::Bool)
                && is_variable(x, "x", &TermType::Bitvec { n: EIGHT })
        }
        _ => false,
    }
}

#[test]
fn variables_are_in_order(rt: HostRuntime) {
    let declares = declares_both(&rt, rt.alloc());
    expect(&rt, declares, "both variables");
}

/// Whether a term is the constant `false`.
fn is_false(term: &Term) -> bool {
    *term == Term::from(false)
}

/// Whether these are `false`, `b` and `false`.
fn are_three(terms: &TermList) -> bool {
    match terms.items() {
        [first, Term::Var(second), third] => {
            is_false(first) && is_variable(second, "b", &TermType::Bool) && is_false(third)
        }
        _ => false,
    }
}

/// Whether the terms of a job are asserted by its one step, as they are written.
fn terms_stand_in_order(rt: &impl Abort, alloc: Global) -> bool {
    let job = job_of(rt, alloc, "(terms false (var \"b\") false)");
    match job.steps.items() {
        [Step::Assert(terms)] => are_three(terms),
        _ => false,
    }
}

/// Whether the steps of a job stand as they are written.
fn steps_stand_in_order(rt: &impl Abort, alloc: Global) -> bool {
    let section = "(steps (push) (assert false (var \"b\") false) (check) (pop))";
    let job = job_of(rt, alloc, section);
    match job.steps.items() {
        [Step::Push, Step::Assert(terms), Step::Check, Step::Pop] => are_three(terms),
        _ => false,
    }
}

#[test]
fn steps_are_in_order(rt: HostRuntime) {
    let stand = terms_stand_in_order(&rt, rt.alloc());
    expect(&rt, stand, "the terms of a job");
    let stand = steps_stand_in_order(&rt, rt.alloc());
    expect(&rt, stand, "the steps of a job");
}

/// Last sections of jobs, and the terms that are current behind their steps, each as it is printed, with a blank behind it.
const CURRENT: &[(&str, &str)] = &[
    ("(terms (var \"b\") false)", "b false "),
    ("(steps)", ""),
    (
        "(steps (assert) (check) (assert (var \"b\")) (assert (var \"b\")))",
        "b b ",
    ),
    // What was asserted in a level is current until the level is closed.
    (
        "(steps (assert (var \"b\")) (push) (assert false) (check) (pop) (assert (not (var \"b\"))))",
        "b not(b) ",
    ),
    // A pop closes the level that was opened last.
    (
        "(steps (push) (assert (var \"b\")) (push) (assert false) (pop) (assert true))",
        "b true ",
    ),
    (
        "(steps (push) (assert (var \"b\")) (push) (assert false) (pop) (pop) (check))",
        "",
    ),
    // Levels may stay open.
    (
        "(steps (push) (assert (var \"b\")) (push) (push) (assert false))",
        "b false ",
    ),
];

/// These terms as they are printed, each with a blank behind it.
fn printed(rt: &impl Abort, alloc: Global, terms: &TermList) -> Vec<u8> {
    let mut printed: Vec<u8> = Vec::new(alloc);
    for term in terms.items() {
        write!(printed, "{term} ").expect(rt, AMPLE);
    }
    printed
}

/// Stops the test where other terms are current behind the steps of this section, and names it.
fn expect_current(rt: &impl Abort, alloc: Global, section: &str, wanted: &str) {
    let job = job_of(rt, alloc, section);
    let current = job.current(alloc).expect(rt, AMPLE);
    let found = printed(rt, alloc, &current);
    expect_bytes(rt, section, found.as_slice(), wanted.as_bytes());
}

#[test]
fn current_terms_are_those_of_open_levels(rt: HostRuntime) {
    for &(section, wanted) in CURRENT {
        expect_current(&rt, rt.alloc(), section, wanted);
    }
}

/// Why the bytes are no job, None where they are one.
fn refusal_of(alloc: Global, bytes: &[u8]) -> Option<JobError> {
    read_job(alloc, bytes).err()
}

/// Whether the bytes were refused as too many.
fn is_too_large(refusal: Option<JobError>) -> bool {
    match refusal {
        Some(JobError::TooLarge) => true,
        _ => false,
    }
}

/// Whether the bytes were refused as no expression.
fn is_unreadable(refusal: Option<JobError>) -> bool {
    match refusal {
        Some(JobError::Parse(_)) => true,
        _ => false,
    }
}

#[test]
fn long_jobs_are_too_large(rt: HostRuntime) {
    let bytes = vec![in rt.alloc(); b' '; GREATEST_JOB + 1].expect(&rt, AMPLE);
    let refusal = refusal_of(rt.alloc(), bytes.as_slice());
    expect(&rt, is_too_large(refusal), "a byte too many");
    let refusal = refusal_of(rt.alloc(), &bytes.as_slice()[1..]);
    expect(&rt, is_unreadable(refusal), "the greatest length");
}

/// How many variables, functions, steps and current terms a job has, or why the text is none.
fn outcome(rt: &impl Abort, alloc: Global, text: &str) -> String {
    match read_job(alloc, text.as_bytes()) {
        Ok(job) => {
            let (vars, funs, steps) = (job.vars.len(), job.funs.len(), job.steps.len());
            let current = job.current(alloc).expect(rt, AMPLE);
            let terms = current.len();
            format!(in alloc; "{vars} {funs} {steps} {terms}").expect(rt, AMPLE)
        }
        Err(error) => format!(in alloc; "{error}").expect(rt, AMPLE),
    }
}

/// What is said of a section, a declaration, a step or a term that has no form.
const NO_FORM: &str =
    "the job has not the form (job (enums ..) (vars ..) (funs ..) (terms ..)) or (job .. (steps ..))";

/// What is said of a `(pop)` with no level open.
const UNBALANCED: &str = "a step closes a level where none is open";

/// Jobs, and what reading gives. Of two faults the first is named.
const OUTCOMES: &[(&str, &str)] = &[
    ("(job (enums) (vars) (funs) (terms))", "0 0 1 0"),
    ("(job (enums) (vars) (funs) (steps))", "0 0 0 0"),
    (
        "(job (enums) (vars) (funs) (steps (assert true false) (push) (assert true) (pop) (check)))",
        "0 0 5 2",
    ),
    (
        "(job (enums) (vars (\"x\" (Option (Entity \"U\")))) (funs (\"f\" (Entity \"U\") (Set (Entity \"G\")))) (terms (set.member (entity \"G\" \"g\") (uuf \"f\" (option.get (var \"x\"))))))",
        "1 1 1 1",
    ),
    (
        "(job (enums) (vars (\"x\" (Record (\"b\" Bool) (\"a\" (BitVec 8))))) (funs) (terms (record.get \"b\" (var \"x\")) (eq (var \"x\") (record (\"a\" (bv 8 3)) (\"b\" true)))))",
        "1 0 1 2",
    ),
    (
        "(job (enums) (vars (\"x\" (Record (\"b\" Bool) (\"b\" Foo)))) (funs) (terms))",
        "duplicate name b",
    ),
    (
        "(job (enums) (vars (\"x\" Bool) (\"x\" Foo)) (funs) (terms))",
        "duplicate name x",
    ),
    (
        "(job (enums) (vars (\"x\" Foo) (\"x\" Foo)) (funs) (terms))",
        "a type has no form",
    ),
    (
        "(job (enums) (vars) (funs (\"f\" (BitVec 0) Foo)) (terms))",
        "a width is out of bounds",
    ),
    (
        "(job (enums) (vars) (funs) (terms (foo (bar))))",
        "unknown name foo",
    ),
    (
        "(job (enums) (vars) (funs) (terms (not (foo (bar)))))",
        "unknown name foo",
    ),
    (
        "(job (enums) (vars) (funs) (terms (bv 2 4)))",
        "bad literal 4",
    ),
    (
        "(job (enums) (vars) (funs) (terms (eq (long \"5 \") (foo))))",
        "bad literal 5 ",
    ),
    (
        "(job (enums) (vars) (funs) (terms (not (bv 3 4))))",
        "a term is ill typed",
    ),
    (
        "(job (enums) (vars) (funs) (terms (bv 3 4) (foo)))",
        "a term is no Boolean",
    ),
    (
        "(job (enums) (vars) (funs) (terms (eq (set Bool true) (set Bool \"x\"))))",
        "a term is ill typed",
    ),
    (
        "(job (enums) (vars) (funs) (terms (eq (record (\"a\" (foo)) (\"a\" true)) (foo))))",
        "duplicate name a",
    ),
    (
        "(job (enums) (vars) (funs) (terms (string.like (\"a\" ?) (foo))))",
        NO_FORM,
    ),
    (
        "(job (enums) (vars) (funs) (terms (zero_extend 128 (foo))))",
        "a width is out of bounds",
    ),
    (
        "(job (enums) (vars) (funs) (terms (eq (none Bool) (some true)) (var \"y\")))",
        "unknown name y",
    ),
    (
        "(job (enums (\"T\" \"a\") (\"T\\u{a}\" \"b\") (\"T\" 5)) (vars) (funs) (terms))",
        NO_FORM,
    ),
    (
        "(job (enums (\"T\" \"a\") (\"T\") (5)) (vars) (funs) (terms))",
        "duplicate name T",
    ),
    (
        "(job (enums) (vars) (funs) (terms (eq (decimal \"1,5\") (foo))))",
        "bad literal 1,5",
    ),
    (
        "(job (enums) (vars) (funs) (steps (pop) (foo)))",
        UNBALANCED,
    ),
    (
        "(job (enums) (vars) (funs) (steps (push) (pop) (pop)) (terms))",
        UNBALANCED,
    ),
    ("(job (enums) (vars) (funs) (steps (foo) (pop)))", NO_FORM),
    // The step's own form comes before the level that is not open.
    ("(job (enums) (vars) (funs) (steps (pop 1)))", NO_FORM),
    (
        "(job (enums) (vars) (funs) (steps (assert (foo)) (pop)))",
        "unknown name foo",
    ),
    (
        "(job (enums) (vars) (funs) (steps (assert true (bv 3 4)) (pop)))",
        "a term is no Boolean",
    ),
    ("(job (enums) (vars) (funs) (steps) (terms))", NO_FORM),
    ("(job (enums) (vars) (funs) (terms) (steps (pop)))", NO_FORM),
    (
        "(job (enums) (vars) (funs) (steps (pop) (assert #b)))",
        "no number: no digit",
    ),
    (
        "(job (enums) (vars) (funs) (terms (foo) \"\\ud800\"))",
        "no string of characters: Bytes { items: [92, 117, 100, 56, 48, 48] }",
    ),
    (
        "(job (enums) (vars) (funs) (terms (foo) #b))",
        "no number: no digit",
    ),
    (
        "(job (enums) (vars) (funs) (terms (foo)) (",
        "unexpected end of the text",
    ),
    (
        "(job (enums) (vars) (funs) (terms (foo)))) #",
        "unexpected end of the text",
    ),
];

#[test]
fn the_first_fault_is_named(rt: HostRuntime) {
    for &(text, wanted) in OUTCOMES {
        let found = outcome(&rt, rt.alloc(), text);
        expect_text(&rt, text, found.as_str(), wanted);
    }
}
