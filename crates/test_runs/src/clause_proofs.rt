//! Formulas with proofs, right and wrong. A literal is 2n or 2n + 1 for the variable n.

use crate::expected::{expect, expect_count};
use smt_clauses::{ClauseList, Literal, Outcome, Proof, check_proof, refutes};
use std::alloc::Global;
use std::process::Abort;
use test_words::AMPLE;

/// A step of a proof.
enum Step {
    Add(&'static [Literal]),
    Delete(&'static [Literal]),
}

/// A formula, the steps of a proof, and what comes of them.
struct Row {
    label: &'static str,
    formula: &'static [&'static [Literal]],
    proof: &'static [Step],
    outcome: Outcome,
}

/// The four clauses over two variables.
const FOUR: &[&[Literal]] = &[&[0, 2], &[0, 3], &[1, 2], &[1, 3]];

/// The variable 0 is true, and each clause over two others holds where it is.
const SIX: &[&[Literal]] = &[
    &[0, 2],
    &[0, 3],
    &[1, 4, 6],
    &[1, 4, 7],
    &[1, 5, 6],
    &[1, 5, 7],
];

/// Three pigeons in two holes.
const PIGEONS: &[&[Literal]] = &[
    &[0, 2],
    &[4, 6],
    &[8, 10],
    &[5, 1],
    &[9, 1],
    &[9, 5],
    &[7, 3],
    &[11, 3],
    &[11, 7],
];

/// Right proofs.
const RIGHT: &[Row] = &[
    Row {
        label: "four clauses",
        formula: FOUR,
        proof: &[Step::Add(&[0]), Step::Add(&[])],
        outcome: Outcome::Refuted,
    },
    Row {
        label: "a literal and its negation",
        formula: &[&[0], &[1]],
        proof: &[],
        outcome: Outcome::Refuted,
    },
    Row {
        label: "a clause behind a conflict",
        formula: &[&[0], &[1], &[2]],
        proof: &[],
        outcome: Outcome::Refuted,
    },
    Row {
        label: "the empty clause in the formula",
        formula: &[&[0, 2], &[]],
        proof: &[],
        outcome: Outcome::Refuted,
    },
    Row {
        label: "a literal twice in a clause",
        formula: &[&[2, 2], &[3, 3], &[0, 1]],
        proof: &[],
        outcome: Outcome::Refuted,
    },
    // The steps are those of cadical 1.5.3.
    Row {
        label: "pigeons",
        formula: PIGEONS,
        proof: &[
            Step::Add(&[11]),
            Step::Add(&[8]),
            Step::Add(&[1]),
            Step::Add(&[5]),
            Step::Add(&[2]),
            Step::Add(&[6]),
            Step::Add(&[]),
        ],
        outcome: Outcome::Refuted,
    },
    Row {
        label: "what follows from a step before",
        formula: SIX,
        proof: &[Step::Add(&[0]), Step::Add(&[4]), Step::Add(&[])],
        outcome: Outcome::Refuted,
    },
    Row {
        label: "a clause of one literal is deleted and stays true",
        formula: SIX,
        proof: &[Step::Add(&[0]), Step::Delete(&[0]), Step::Add(&[4])],
        outcome: Outcome::Refuted,
    },
    Row {
        label: "what is not there is deleted",
        formula: FOUR,
        proof: &[Step::Delete(&[0, 4]), Step::Delete(&[]), Step::Add(&[0])],
        outcome: Outcome::Refuted,
    },
    Row {
        label: "a clause that stands twice is deleted once",
        formula: &[&[0, 2], &[0, 2], &[0, 3], &[1, 2], &[1, 3]],
        proof: &[Step::Delete(&[2, 0]), Step::Add(&[0])],
        outcome: Outcome::Refuted,
    },
    Row {
        label: "a step over a variable that the formula lacks",
        formula: FOUR,
        proof: &[Step::Add(&[0, 40]), Step::Add(&[0, 41]), Step::Add(&[0])],
        outcome: Outcome::Refuted,
    },
];

/// Wrong proofs.
const WRONG: &[Row] = &[
    Row {
        label: "a literal unnegated",
        formula: SIX,
        proof: &[Step::Add(&[1]), Step::Add(&[4]), Step::Add(&[])],
        outcome: Outcome::DoesNotFollow(0),
    },
    Row {
        label: "what follows from a later step",
        formula: SIX,
        proof: &[Step::Add(&[4]), Step::Add(&[0]), Step::Add(&[])],
        outcome: Outcome::DoesNotFollow(0),
    },
    Row {
        label: "what follows from nothing",
        formula: &[&[0, 2]],
        proof: &[Step::Add(&[0, 2, 4]), Step::Add(&[0])],
        outcome: Outcome::DoesNotFollow(1),
    },
    Row {
        label: "the empty clause from nothing",
        formula: &[&[0, 2]],
        proof: &[Step::Add(&[])],
        outcome: Outcome::DoesNotFollow(0),
    },
    Row {
        label: "the empty clause at once",
        formula: PIGEONS,
        proof: &[Step::Add(&[])],
        outcome: Outcome::DoesNotFollow(0),
    },
    Row {
        label: "no step",
        formula: FOUR,
        proof: &[],
        outcome: Outcome::Unfinished,
    },
    Row {
        label: "no clause",
        formula: &[],
        proof: &[],
        outcome: Outcome::Unfinished,
    },
    Row {
        label: "the last step is not the empty clause",
        formula: SIX,
        proof: &[Step::Add(&[0])],
        outcome: Outcome::Unfinished,
    },
    Row {
        label: "a needed clause is deleted before its use",
        formula: FOUR,
        proof: &[Step::Delete(&[2, 0]), Step::Add(&[0]), Step::Add(&[])],
        outcome: Outcome::DoesNotFollow(1),
    },
    Row {
        label: "a clause that stands twice is deleted twice",
        formula: &[&[0, 2], &[0, 2], &[0, 3], &[1, 2], &[1, 3]],
        proof: &[
            Step::Delete(&[2, 0]),
            Step::Delete(&[0, 2]),
            Step::Add(&[0]),
        ],
        outcome: Outcome::DoesNotFollow(2),
    },
];

/// The formula of these clauses.
pub(crate) fn formula_of(rt: &impl Abort, alloc: Global, clauses: &[&[Literal]]) -> ClauseList {
    let mut formula = ClauseList::new(alloc);
    for clause in clauses {
        formula.push(clause).expect(rt, AMPLE);
    }
    formula
}

/// The steps of a row.
fn proof_of(rt: &impl Abort, alloc: Global, row: &Row) -> Proof {
    let mut proof = Proof::new(alloc);
    for step in row.proof {
        match step {
            Step::Add(clause) => proof.add(clause).expect(rt, AMPLE),
            Step::Delete(clause) => proof.delete(clause).expect(rt, AMPLE),
        }
    }
    proof
}

/// Stops the test where something else comes of a row, and names it.
fn expect_row(rt: &impl Abort, alloc: Global, row: &Row) {
    let formula = formula_of(rt, alloc, row.formula);
    let proof = proof_of(rt, alloc, row);
    let outcome = check_proof(alloc, &formula, &proof).expect(rt, AMPLE);
    expect(rt, outcome == row.outcome, row.label);
    let refuted = refutes(alloc, &formula, &proof).expect(rt, AMPLE);
    expect(rt, refuted == (row.outcome == Outcome::Refuted), row.label);
    expect_count(rt, row.label, proof.len(), row.proof.len());
}

#[test]
fn proofs_are_checked(rt: HostRuntime) {
    for row in RIGHT {
        expect_row(&rt, rt.alloc(), row);
    }
    for row in WRONG {
        expect_row(&rt, rt.alloc(), row);
    }
}

/// Clauses that a list is given in turn, and how many clauses and variables it then has.
const KEPT: &[(&[Literal], usize, usize)] = &[
    (&[], 1, 0),
    (&[5, 0], 2, 3),
    (&[1], 3, 3),
    (&[u32::MAX], 4, 2_147_483_648),
];

/// Stops the test where a list counts other clauses and variables.
fn expect_counts(rt: &impl Abort, list: &ClauseList, clauses: usize, variables: usize) {
    expect_count(rt, "clauses", list.len(), clauses);
    expect(
        rt,
        list.is_empty() == (clauses == 0),
        "whether there is none",
    );
    expect_count(rt, "variables", list.variables(), variables);
}

#[test]
fn clauses_are_kept(rt: HostRuntime) {
    let mut list = ClauseList::new(rt.alloc());
    expect_counts(&rt, &list, 0, 0);
    for &(clause, clauses, variables) in KEPT {
        list.push(clause).expect(&rt, AMPLE);
        expect_counts(&rt, &list, clauses, variables);
    }
    expect(
        &rt,
        list.get(1) == Some([5, 0].as_slice()),
        "the clause at 1",
    );
    expect(&rt, list.get(4) == None, "no clause at 4");
}
