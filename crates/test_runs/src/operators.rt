//! Each operator that is blasted, at all pairs of values of three bits.

use crate::blasts::expect_answer;
use std::alloc::Global;
use std::process::Abort;
use test_words::AMPLE;

/// What an operator gives at all pairs of values.
struct Row {
    /// Its application to `x` and `y`.
    form: &'static str,
    /// How many bits it gives, 0 for a truth.
    bits: usize,
    /// What it gives, a digit for each pair: for each value of `x`, from 0 to 7, those for the values of `y`.
    table: &'static str,
}

/// The operators, with what whole-number arithmetic gives modulo 8, on numbers without sign or in two's complement.
const ROWS: &[Row] = &[
    Row {
        form: "(bvadd (var \"x\") (var \"y\"))",
        bits: 3,
        table: "0123456712345670234567013456701245670123567012346701234570123456",
    },
    Row {
        form: "(bvsub (var \"x\") (var \"y\"))",
        bits: 3,
        table: "0765432110765432210765433210765443210765543210766543210776543210",
    },
    Row {
        form: "(bvneg (var \"x\"))",
        bits: 3,
        table: "0000000077777777666666665555555544444444333333332222222211111111",
    },
    Row {
        form: "(bvshl (var \"x\") (var \"y\"))",
        bits: 3,
        table: "0000000012400000240000003640000040000000524000006400000076400000",
    },
    Row {
        form: "(bvlshr (var \"x\") (var \"y\"))",
        bits: 3,
        table: "0000000010000000210000003100000042100000521000006310000073100000",
    },
    Row {
        form: "(zero_extend 2 (var \"x\"))",
        bits: 5,
        table: "0000000011111111222222223333333344444444555555556666666677777777",
    },
    Row {
        form: "(ite (bvult (var \"x\") (var \"y\")) (var \"x\") (var \"y\"))",
        bits: 3,
        table: "0000000001111111012222220123333301234444012345550123456601234567",
    },
    Row {
        form: "(eq (var \"x\") (var \"y\"))",
        bits: 0,
        table: "1000000001000000001000000001000000001000000001000000001000000001",
    },
    Row {
        form: "(bvult (var \"x\") (var \"y\"))",
        bits: 0,
        table: "0111111100111111000111110000111100000111000000110000000100000000",
    },
    Row {
        form: "(bvule (var \"x\") (var \"y\"))",
        bits: 0,
        table: "1111111101111111001111110001111100001111000001110000001100000001",
    },
    Row {
        form: "(bvslt (var \"x\") (var \"y\"))",
        bits: 0,
        table: "0111000000110000000100000000000011110111111100111111000111110000",
    },
    Row {
        form: "(bvsle (var \"x\") (var \"y\"))",
        bits: 0,
        table: "1111000001110000001100000001000011111111111101111111001111110001",
    },
    Row {
        form: "(bvnego (var \"x\"))",
        bits: 0,
        table: "0000000000000000000000000000000011111111000000000000000000000000",
    },
    Row {
        form: "(bvsaddo (var \"x\") (var \"y\"))",
        bits: 0,
        table: "0000000000010000001100000111000000001111000011100000110000001000",
    },
    Row {
        form: "(bvssubo (var \"x\") (var \"y\"))",
        bits: 0,
        table: "0000100000001100000011100000111101110000001100000001000000000000",
    },
];

/// The literal of a digit, of so many bits, or a truth.
fn literal(rt: &impl Abort, alloc: Global, bits: usize, digit: u8) -> String {
    let digit = char::from(digit);
    if bits == 0 {
        let truth = if digit == '1' { "true" } else { "false" };
        return String::from_str(alloc, truth).expect(rt, AMPLE);
    }
    format!(in alloc; "(bv {bits} {digit})").expect(rt, AMPLE)
}

/// The term that `x` and `y` have the values of this place, and the application has not this value.
fn counterexample(rt: &impl Abort, alloc: Global, row: &Row, place: usize, digit: u8) -> String {
    let (x, y) = (place / 8, place % 8);
    let value = literal(rt, alloc, row.bits, digit);
    format!(in alloc;
        "(and (eq (var \"x\") (bv 3 {x})) (and (eq (var \"y\") (bv 3 {y})) (not (eq {} {value}))))",
        row.form
    )
    .expect(rt, AMPLE)
}

/// The job that asks for values at which the application has another value than its table tells.
fn job_of(rt: &impl Abort, alloc: Global, row: &Row) -> String {
    let mut any = String::from_str(alloc, "false").expect(rt, AMPLE);
    for (place, digit) in row.table.bytes().enumerate() {
        let case = counterexample(rt, alloc, row, place, digit);
        any = format!(in alloc; "(or {any} {case})").expect(rt, AMPLE);
    }
    format!(in alloc;
        "(job (enums) (vars (\"x\" (BitVec 3)) (\"y\" (BitVec 3))) (funs) (terms {any}))"
    ).expect(rt, AMPLE)
}

#[test]
fn operators_have_their_values(rt: HostRuntime) {
    let alloc = rt.alloc();
    for row in ROWS {
        let job = job_of(&rt, alloc, row);
        expect_answer(&rt, alloc, job.as_str(), "(check-sat)", "unsat\n");
    }
}
