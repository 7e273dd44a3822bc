//! Whole runs of the program that evaluates: the truths that it prints, and why it prints none.

use crate::ends::{End, expect_end, run_with};
use smt_eval::eval_run;
use std::alloc::Global;
use std::process::Abort;
use test_words::{AMPLE, texts_of};

/// A run, and how it ends.
struct Row {
    words: &'static [&'static str],
    input: &'static str,
    status: u8,
    put: &'static str,
    said: &'static str,
}

/// A run without words that is done.
const DONE: Row = Row {
    words: &[],
    input: "",
    status: 0,
    put: "",
    said: "",
};

/// Runs, with the truths that the standard's meaning of the operators gives.
const ROWS: &[Row] = &[
    Row {
        input: "(eval (job (enums) (vars (\"b\" Bool)) (funs) (terms (not (var \"b\")))) (vars (\"b\" false)) (funs) (gets) (selectors))",
        put: "true\nholds\n",
        ..DONE
    },
    // A remainder by zero is the number itself, and 127 is not negative.
    Row {
        input: "(eval (job (enums) (vars (\"x\" (BitVec 8))) (funs) (terms (eq (bvurem (var \"x\") (bv 8 0)) (var \"x\")) (bvslt (var \"x\") (bv 8 0)))) (vars (\"x\" (bv 8 127))) (funs) (gets) (selectors))",
        put: "true\nfalse\nfails\n",
        ..DONE
    },
    Row {
        input: "(eval (job (enums) (vars (\"x\" (BitVec 8))) (funs) (terms (eq (bvurem (var \"x\") (bv 8 0)) (var \"x\")) (bvslt (var \"x\") (bv 8 0)))) (vars) (funs) (gets) (selectors))",
        status: 3,
        said: "eval refused: Missing\n",
        ..DONE
    },
    // No term is false where there is none. A value may be any term that is built to a literal.
    Row {
        input: "(eval (job (enums) (vars (\"x\" (BitVec 8))) (funs) (terms )) (vars (\"x\" (bvadd (bv 8 1) (bv 8 2)))) (funs) (gets) (selectors))",
        put: "holds\n",
        ..DONE
    },
    // A shift by more places than there are bits leaves none, however far it goes.
    Row {
        input: "(eval (job (enums) (vars (\"x\" (BitVec 33)) (\"n\" (BitVec 33))) (funs) (terms (eq (bvshl (var \"x\") (var \"n\")) (bv 33 0)) (eq (bvlshr (var \"x\") (var \"n\")) (bv 33 0)) (eq (bvshl (var \"x\") (bv 33 1)) (bv 33 6)))) (vars (\"x\" (bv 33 3)) (\"n\" (bv 33 4294967296))) (funs) (gets) (selectors))",
        put: "true\ntrue\ntrue\nholds\n",
        ..DONE
    },
    Row {
        input: "(eval (job (enums) (vars (\"x\" (BitVec 64)) (\"n\" (BitVec 64))) (funs) (terms (eq (bvshl (var \"x\") (var \"n\")) (bv 64 0)) (eq (bvlshr (var \"x\") (var \"n\")) (bv 64 0)) (eq (bvshl (var \"x\") (bv 64 1)) (bv 64 6)))) (vars (\"x\" (bv 64 3)) (\"n\" (bv 64 4294967296))) (funs) (gets) (selectors))",
        put: "true\ntrue\ntrue\nholds\n",
        ..DONE
    },
    Row {
        input: "(eval (job (enums) (vars (\"x\" (BitVec 128)) (\"n\" (BitVec 128))) (funs) (terms (eq (bvshl (var \"x\") (var \"n\")) (bv 128 0)) (eq (bvlshr (var \"x\") (var \"n\")) (bv 128 0)) (eq (bvshl (var \"x\") (bv 128 1)) (bv 128 6)))) (vars (\"x\" (bv 128 3)) (\"n\" (bv 128 4294967296))) (funs) (gets) (selectors))",
        put: "true\ntrue\ntrue\nholds\n",
        ..DONE
    },
    // A selector has its table at ranges of the other family alone.
    Row {
        input: "(eval (job (enums) (vars (\"v\" IpAddr) (\"w\" IpAddr)) (funs) (terms (eq (ipaddr.addrV4 (var \"v\")) (bv 32 2)) (eq (ipaddr.addrV4 (var \"w\")) (bv 32 1)) (eq (ipaddr.addrV4 (ip \"0.0.0.9\")) (bv 32 9)))) (vars (\"v\" (ip \"::/0\")) (\"w\" (ip \"::1\"))) (funs) (gets) (selectors (\"ipaddr.addrV4\" (bv 32 1) ((ip \"::/0\") (bv 32 2)))))",
        put: "true\ntrue\ntrue\nholds\n",
        ..DONE
    },
    Row {
        input: "(eval (job (enums) (vars (\"v\" IpAddr) (\"w\" IpAddr)) (funs) (terms (eq (ipaddr.prefixV4 (var \"v\")) (some (bv 5 3))) (eq (ipaddr.prefixV4 (var \"w\")) (none (BitVec 5))) (eq (ipaddr.prefixV4 (ip \"1.2.3.0/24\")) (some (bv 5 24))))) (vars (\"v\" (ip \"::/0\")) (\"w\" (ip \"::1\"))) (funs) (gets) (selectors (\"ipaddr.prefixV4\" (none (BitVec 5)) ((ip \"::/0\") (some (bv 5 3))))))",
        put: "true\ntrue\ntrue\nholds\n",
        ..DONE
    },
    Row {
        input: "(eval (job (enums) (vars (\"v\" IpAddr) (\"w\" IpAddr)) (funs) (terms (eq (ipaddr.addrV6 (var \"v\")) (bv 128 2)) (eq (ipaddr.addrV6 (var \"w\")) (bv 128 1)) (eq (ipaddr.addrV6 (ip \"::9\")) (bv 128 9)))) (vars (\"v\" (ip \"1.2.3.4\")) (\"w\" (ip \"1.2.3.5\"))) (funs) (gets) (selectors (\"ipaddr.addrV6\" (bv 128 1) ((ip \"1.2.3.4\") (bv 128 2)))))",
        put: "true\ntrue\ntrue\nholds\n",
        ..DONE
    },
    Row {
        input: "(eval (job (enums) (vars (\"v\" IpAddr) (\"w\" IpAddr)) (funs) (terms (eq (ipaddr.prefixV6 (var \"v\")) (some (bv 7 9))) (eq (ipaddr.prefixV6 (var \"w\")) (none (BitVec 7))) (eq (ipaddr.prefixV6 (ip \"::/96\")) (some (bv 7 96))))) (vars (\"v\" (ip \"1.2.3.0/24\")) (\"w\" (ip \"1.2.3.0/25\"))) (funs) (gets) (selectors (\"ipaddr.prefixV6\" (none (BitVec 7)) ((ip \"1.2.3.0/24\") (some (bv 7 9))))))",
        put: "true\ntrue\ntrue\nholds\n",
        ..DONE
    },
    // Sets and records are values too.
    Row {
        input: "(eval (job (enums) (vars (\"s\" (Set (BitVec 8))) (\"r\" (Record (\"a\" Bool) (\"b\" String)))) (funs) (terms (set.member (bv 8 2) (var \"s\")) (set.subset (var \"s\") (set (BitVec 8) (bv 8 1))) (record.get \"a\" (var \"r\")) (eq (record.get \"b\" (var \"r\")) \"x\"))) (vars (\"s\" (set (BitVec 8) (bv 8 2) (bv 8 1) (bv 8 2))) (\"r\" (record (\"b\" \"x\") (\"a\" true)))) (funs) (gets) (selectors))",
        put: "true\nfalse\ntrue\ntrue\nfails\n",
        ..DONE
    },
    // Functions by their tables, and what is asserted in a level that is closed is no longer current.
    Row {
        input: "(eval (job (enums) (vars (\"b\" Bool)) (funs (\"f\" Bool (BitVec 2)) (\"g\" (BitVec 2) Bool)) (steps (assert (uuf \"g\" (uuf \"f\" (var \"b\")))) (push) (assert (not (var \"b\"))) (check) (pop) (assert (uuf \"g\" (uuf \"f\" (not (var \"b\"))))))) (vars (\"b\" true)) (funs (\"f\" (bv 2 0) (true (bv 2 3))) (\"g\" false ((bv 2 3) true))) (gets) (selectors))",
        put: "true\nfalse\nfails\n",
        ..DONE
    },
    Row {
        input: "(eval (job (enums) (vars (\"o\" (Option (BitVec 8)))) (funs) (terms (eq (option.get (var \"o\")) (bv 8 3)))) (vars (\"o\" (none (BitVec 8)))) (funs) (gets (Bool true) ((BitVec 8) (bv 8 3))) (selectors))",
        put: "true\nholds\n",
        ..DONE
    },
    // The get of another type is none of this one.
    Row {
        input: "(eval (job (enums) (vars (\"o\" (Option (BitVec 8)))) (funs) (terms (eq (option.get (var \"o\")) (bv 8 3)))) (vars (\"o\" (none (BitVec 8)))) (funs) (gets (Bool true)) (selectors))",
        status: 3,
        said: "eval refused: Missing\n",
        ..DONE
    },
    Row {
        input: "(eval (job (enums (\"Color\" \"red\" \"green\")) (vars (\"c\" (Entity \"Color\"))) (funs) (terms (eq (var \"c\") (entity \"Color\" \"red\")))) (vars (\"c\" (entity \"Color\" \"red\"))) (funs) (gets) (selectors))",
        put: "true\nholds\n",
        ..DONE
    },
    // No member of an enum type.
    Row {
        input: "(eval (job (enums (\"Color\" \"red\" \"green\")) (vars (\"c\" (Entity \"Color\"))) (funs) (terms (eq (var \"c\") (entity \"Color\" \"red\")))) (vars (\"c\" (entity \"Color\" \"blue\"))) (funs) (gets) (selectors))",
        status: 3,
        said: "eval refused: NotValue\n",
        ..DONE
    },
    Row {
        input: "(eval",
        status: 3,
        said: "eval refused: Parse\n",
        ..DONE
    },
    Row {
        input: "(eval)",
        status: 3,
        said: "eval refused: BadForm\n",
        ..DONE
    },
    Row {
        input: "(eval (job (enums) (vars) (funs) (terms true)) (vars) (funs) (gets (Boolean true)) (selectors))",
        status: 3,
        said: "eval refused: BadForm\n",
        ..DONE
    },
    // Of several faults the first: the job's before those of entries, and a form's before both.
    Row {
        input: "(eval (job (enums) (vars (\"b\" Bool)) (funs) (terms (var \"c\"))) (vars (\"z\" true)) (funs) (gets) (selectors))",
        status: 3,
        said: "eval refused: Job\n",
        ..DONE
    },
    Row {
        input: "(eval (job (enums) (vars (\"b\" Bool)) (funs) (terms (var \"c\"))) (vars) (funs) (gets (Bool)) (selectors))",
        status: 3,
        said: "eval refused: BadForm\n",
        ..DONE
    },
    Row {
        input: "(eval (job (enums) (vars (\"b\" Bool)) (funs) (terms (var \"b\"))) (vars (\"z\" (none Bool)) (\"b\" true) (\"b\" true)) (funs) (gets) (selectors))",
        status: 3,
        said: "eval refused: UnknownName\n",
        ..DONE
    },
    Row {
        input: "(eval (job (enums) (vars (\"b\" Bool)) (funs) (terms (var \"b\"))) (vars (\"b\" true)) (funs (\"b\" true)) (gets) (selectors))",
        status: 3,
        said: "eval refused: UnknownName\n",
        ..DONE
    },
    Row {
        input: "(eval (job (enums) (vars (\"b\" Bool)) (funs) (terms (var \"b\"))) (vars (\"b\" true)) (funs) (gets) (selectors (\"ipaddr.isV4\" true)))",
        status: 3,
        said: "eval refused: UnknownName\n",
        ..DONE
    },
    Row {
        input: "(eval (job (enums) (vars (\"b\" Bool)) (funs) (terms (var \"b\"))) (vars (\"b\" true) (\"b\" \"x\")) (funs) (gets) (selectors))",
        status: 3,
        said: "eval refused: DuplicateName\n",
        ..DONE
    },
    Row {
        input: "(eval (job (enums) (vars (\"b\" Bool)) (funs) (terms (var \"b\"))) (vars (\"b\" true)) (funs) (gets (Bool true) (Bool false)) (selectors))",
        status: 3,
        said: "eval refused: DuplicateName\n",
        ..DONE
    },
    Row {
        input: "(eval (job (enums) (vars (\"b\" Bool)) (funs (\"f\" Bool Bool)) (terms (uuf \"f\" (var \"b\")))) (vars (\"b\" true)) (funs (\"f\" true (true false) ((not false) \"x\"))) (gets) (selectors))",
        status: 3,
        said: "eval refused: DuplicateName\n",
        ..DONE
    },
    Row {
        input: "(eval (job (enums) (vars (\"b\" Bool)) (funs) (terms (var \"b\"))) (vars (\"b\" \"x\")) (funs) (gets) (selectors))",
        status: 3,
        said: "eval refused: NotValue\n",
        ..DONE
    },
    Row {
        input: "(eval (job (enums) (vars (\"b\" Bool)) (funs) (terms (var \"b\"))) (vars (\"b\" (var \"b\"))) (funs) (gets) (selectors))",
        status: 3,
        said: "eval refused: NotValue\n",
        ..DONE
    },
    // The key of a selector's table is of the other family.
    Row {
        input: "(eval (job (enums) (vars (\"b\" Bool)) (funs) (terms (var \"b\"))) (vars (\"b\" true)) (funs) (gets) (selectors (\"ipaddr.addrV4\" (bv 32 0) ((ip \"1.2.3.4\") (bv 32 1)))))",
        status: 3,
        said: "eval refused: NotValue\n",
        ..DONE
    },
    Row {
        input: "(eval (job (enums) (vars (\"b\" Bool)) (funs (\"f\" Bool Bool)) (terms (uuf \"f\" (var \"b\")))) (vars (\"b\" true)) (funs) (gets) (selectors))",
        status: 3,
        said: "eval refused: Missing\n",
        ..DONE
    },
    // A selector of a variable is asked for, though its value is not looked up.
    Row {
        input: "(eval (job (enums) (vars (\"v\" IpAddr)) (funs) (terms (ipaddr.isV4 (var \"v\")) (eq (ipaddr.addrV4 (var \"v\")) (bv 32 1)))) (vars (\"v\" (ip \"1.2.3.4\"))) (funs) (gets) (selectors))",
        status: 3,
        said: "eval refused: Missing\n",
        ..DONE
    },
    Row {
        words: &["all"],
        status: 2,
        said: "usage: smteval\n",
        ..DONE
    },
];

/// Runs the program on an input.
fn end_of(rt: &impl Abort, alloc: Global, words: &[&str], input: &[u8]) -> End {
    let words = texts_of(alloc, words).expect(rt, AMPLE);
    run_with(rt, alloc, input, |source, out, diag| {
        eval_run(alloc, words.as_slice(), source, out, diag)
    })
}

#[test]
fn evaluations_end_as_they_should(rt: HostRuntime) {
    let alloc = rt.alloc();
    for row in ROWS {
        let end = end_of(&rt, alloc, row.words, row.input.as_bytes());
        expect_end(&rt, row.input, &end, row.status, row.put, row.said);
    }
}

/// Appends these bytes so many times.
fn repeat(rt: &impl Abort, bytes: &mut Vec<u8>, part: &[u8], times: u64) {
    for _ in 0..times {
        bytes.extend_from_slice(part).expect(rt, AMPLE);
    }
}

/// An input with a term that is negated so many times: three brackets are open around it.
fn negated(rt: &impl Abort, alloc: Global, times: u64) -> Vec<u8> {
    let mut bytes = Vec::new(alloc);
    repeat(
        rt,
        &mut bytes,
        b"(eval (job (enums) (vars) (funs) (terms ",
        1,
    );
    repeat(rt, &mut bytes, b"(not ", times);
    repeat(rt, &mut bytes, b"true", 1);
    repeat(rt, &mut bytes, b")", times);
    repeat(rt, &mut bytes, b")) (vars) (funs) (gets) (selectors))", 1);
    bytes
}

/// At most 513 brackets are open at a place, one more than in a job.
#[test]
fn nesting_has_a_limit(rt: HostRuntime) {
    let alloc = rt.alloc();
    let deep = end_of(&rt, alloc, &[], negated(&rt, alloc, 510).as_slice());
    expect_end(&rt, "513 brackets", &deep, 0, "true\nholds\n", "");
    let deeper = end_of(&rt, alloc, &[], negated(&rt, alloc, 511).as_slice());
    expect_end(
        &rt,
        "514 brackets",
        &deeper,
        3,
        "",
        "eval refused: TooDeep\n",
    );
}
