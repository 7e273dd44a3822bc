//! Small formulas with every answer. A literal is 2n or 2n + 1 for the variable n.

use crate::clause_proofs::formula_of;
use crate::expected::{expect, expect_count};
use smt_clauses::Literal;
use smt_search::{Answer, Limit, Truths, solve};
use std::alloc::Global;
use std::process::Abort;
use test_words::AMPLE;

/// More conflicts than any of these formulas takes.
const MANY: u64 = 10_000;

/// What is found.
#[derive(Clone, Copy, PartialEq, Eq)]
enum Found {
    Solved,
    Refuted,
    Undecided,
}

/// A formula, a limit, and what is found within it.
struct Row {
    label: &'static str,
    formula: &'static [&'static [Literal]],
    limit: u64,
    found: Found,
}

/// The four clauses over two variables.
const FOUR: &[&[Literal]] = &[&[0, 2], &[0, 3], &[1, 2], &[1, 3]];

/// Four pigeons in three holes.
const CROWDED: &[&[Literal]] = &[
    &[0, 2, 4],
    &[6, 8, 10],
    &[12, 14, 16],
    &[18, 20, 22],
    &[1, 7],
    &[1, 13],
    &[7, 13],
    &[1, 19],
    &[7, 19],
    &[13, 19],
    &[3, 9],
    &[3, 15],
    &[9, 15],
    &[3, 21],
    &[9, 21],
    &[15, 21],
    &[5, 11],
    &[5, 17],
    &[11, 17],
    &[5, 23],
    &[11, 23],
    &[17, 23],
];

/// Four pigeons in four holes.
const ROOMY: &[&[Literal]] = &[
    &[0, 2, 4, 6],
    &[8, 10, 12, 14],
    &[16, 18, 20, 22],
    &[24, 26, 28, 30],
    &[1, 9],
    &[1, 17],
    &[9, 17],
    &[1, 25],
    &[9, 25],
    &[17, 25],
    &[3, 11],
    &[3, 19],
    &[11, 19],
    &[3, 27],
    &[11, 27],
    &[19, 27],
    &[5, 13],
    &[5, 21],
    &[13, 21],
    &[5, 29],
    &[13, 29],
    &[21, 29],
    &[7, 15],
    &[7, 23],
    &[15, 23],
    &[7, 31],
    &[15, 31],
    &[23, 31],
];

/// Sums of two bits, once from either side, that agree.
const EVEN: &[&[Literal]] = &[
    &[1, 2, 4],
    &[0, 3, 4],
    &[0, 2, 5],
    &[1, 3, 5],
    &[7, 8, 4],
    &[6, 9, 4],
    &[6, 8, 5],
    &[7, 9, 5],
    &[1, 2, 10],
    &[0, 3, 10],
    &[0, 2, 11],
    &[1, 3, 11],
    &[7, 8, 10],
    &[6, 9, 10],
    &[6, 8, 11],
    &[7, 9, 11],
];

/// The same, of which one doesn't.
const ODD: &[&[Literal]] = &[
    &[1, 2, 4],
    &[0, 3, 4],
    &[0, 2, 5],
    &[1, 3, 5],
    &[7, 8, 4],
    &[6, 9, 4],
    &[6, 8, 5],
    &[7, 9, 5],
    &[1, 2, 10],
    &[0, 3, 10],
    &[0, 2, 11],
    &[1, 3, 11],
    &[6, 8, 10],
    &[7, 9, 10],
    &[7, 8, 11],
    &[6, 9, 11],
];

/// The formulas.
const ROWS: &[Row] = &[
    Row {
        label: "no clause",
        formula: &[],
        limit: MANY,
        found: Found::Solved,
    },
    Row {
        label: "the empty clause",
        formula: &[&[]],
        limit: MANY,
        found: Found::Refuted,
    },
    Row {
        label: "the empty clause beside another",
        formula: &[&[0], &[]],
        limit: 0,
        found: Found::Refuted,
    },
    Row {
        label: "one literal",
        formula: &[&[1]],
        limit: 0,
        found: Found::Solved,
    },
    Row {
        label: "a literal and its negation",
        formula: &[&[0], &[1]],
        limit: 0,
        found: Found::Refuted,
    },
    Row {
        label: "a clause that is always true",
        formula: &[&[0, 1]],
        limit: 0,
        found: Found::Solved,
    },
    Row {
        label: "a literal twice in a clause",
        formula: &[&[2, 2], &[3, 3, 5]],
        limit: 0,
        found: Found::Solved,
    },
    Row {
        label: "a literal twice in each clause",
        formula: &[&[2, 2], &[3, 3]],
        limit: 0,
        found: Found::Refuted,
    },
    Row {
        label: "a variable far from others",
        formula: &[&[600], &[601, 5]],
        limit: 0,
        found: Found::Solved,
    },
    Row {
        label: "what follows without a decision",
        formula: &[&[0], &[1, 2], &[3, 4], &[5, 1]],
        limit: 0,
        found: Found::Refuted,
    },
    Row {
        label: "four clauses",
        formula: FOUR,
        limit: MANY,
        found: Found::Refuted,
    },
    Row {
        label: "three of them",
        formula: &[&[0, 2], &[0, 3], &[1, 2]],
        limit: MANY,
        found: Found::Solved,
    },
    Row {
        label: "four clauses and one conflict",
        formula: FOUR,
        limit: 1,
        found: Found::Refuted,
    },
    Row {
        label: "four clauses and none",
        formula: FOUR,
        limit: 0,
        found: Found::Undecided,
    },
    Row {
        label: "pigeons",
        formula: CROWDED,
        limit: MANY,
        found: Found::Refuted,
    },
    Row {
        label: "pigeons and one conflict",
        formula: CROWDED,
        limit: 1,
        found: Found::Undecided,
    },
    Row {
        label: "pigeons and none",
        formula: CROWDED,
        limit: 0,
        found: Found::Undecided,
    },
    Row {
        label: "pigeons with room",
        formula: ROOMY,
        limit: MANY,
        found: Found::Solved,
    },
    Row {
        label: "even sums",
        formula: EVEN,
        limit: MANY,
        found: Found::Solved,
    },
    Row {
        label: "odd sums",
        formula: ODD,
        limit: MANY,
        found: Found::Refuted,
    },
];

/// Which answer it is.
fn kind_of(answer: &Answer) -> Found {
    match answer {
        Answer::Solved(_) => Found::Solved,
        Answer::Refuted => Found::Refuted,
        Answer::Undecided => Found::Undecided,
    }
}

/// Stops the test where something else is found of a row, and names it.
fn expect_row(rt: &impl Abort, alloc: Global, row: &Row) {
    let formula = formula_of(rt, alloc, row.formula);
    let mut limit = Limit::conflicts(row.limit);
    let answer = solve(alloc, &formula, &mut limit).expect(rt, AMPLE);
    expect(rt, kind_of(&answer) == row.found, row.label);
    if let Answer::Solved(truths) = &answer {
        expect_count(rt, row.label, truths.len(), formula.variables());
    }
}

#[test]
fn formulas_are_answered(rt: HostRuntime) {
    for row in ROWS {
        expect_row(&rt, rt.alloc(), row);
    }
}

/// Stops the test where a variable has another truth, or one past the end has one.
fn expect_truths(rt: &impl Abort, truths: &Truths) {
    for (variable, wanted) in [(0, false), (1, true), (2, true), (3, false)] {
        expect(rt, truths.truth(variable) == wanted, "a variable's truth");
    }
}

#[test]
fn truths_and_conflicts_are_told(rt: HostRuntime) {
    let formula = formula_of(&rt, rt.alloc(), &[&[2], &[1, 5], &[4]]);
    let mut limit = Limit::conflicts(3);
    let answer = solve(rt.alloc(), &formula, &mut limit).expect(&rt, AMPLE);
    expect(&rt, limit.left() == 3, "no conflict was met");
    match &answer {
        Answer::Solved(truths) => expect_truths(&rt, truths),
        Answer::Refuted | Answer::Undecided => expect(&rt, false, "the formula is solved"),
    }
}
