//! Clauses over numbered variables, and gates as clauses; and clauses about the values of terms that hold in every
//! interpretation: definitions and laws, with no code to run.
//!
//! Read `specs/Clauses.antt` first: what literals and clauses are, and when clauses have no solution. `specs/Gates.antt` has
//! gates and the clauses that say the same of each, and `specs/Rows.antt` worked examples of both.
//!
//! In `specs/Statements.antt` and what stands on it, the variables of the clauses are statements about the values of terms, such
//! as that a term is true, that two have one value, or that a bit is set. Clauses that are valid one by one, and have no solution
//! together with the roots, leave no interpretation that makes the roots true. So terms are shown to be unsatisfiable by clauses
//! and a proof that these have no solution. `specs/Sequents.antt` has clauses of statements and what valid ones show, and
//! `specs/ValidRows.antt` worked examples. Each other page has the clauses of one subject, as functions to clauses, and the law
//! that what these give is valid. `specs/Shapes.antt` is what clauses ask of the types of terms, and `specs/Parts.antt` where
//! that comes from.
#![tactic(auto)]

pub mod laws;
pub mod rows;

ghost use Rattle.std.specs.Prelude.{◌≡◌, ℕ};
ghost use Rattle.law_clauses.specs.Clauses.{Truths, literal_truth, negated, opposite};
ghost use Rattle.law_clauses.specs.Gates.{CircuitsAreClauses, GatesAreClauses};
ghost use Rattle.law_clauses.specs.Rows.{ClauseRows, GateRows};

/// The negation of a literal is true where the literal is not.
pub fn negations_are_opposite()
    ensures { (v : Truths) (l : ℕ) → literal_truth v (negated l) ≡ opposite (literal_truth v l) }
{}

/// The clauses of a gate are true exactly where its variable has its truth.
pub fn gates_are_clauses()
    ensures { GatesAreClauses }
{}

/// The clauses of a circuit are true exactly where each variable has the truth of its gate.
pub fn circuits_are_clauses()
    ensures { CircuitsAreClauses }
{}

/// Literals, clauses and formulas, worked out.
pub fn clause_rows()
    ensures { ClauseRows }
{}

/// Gates and their clauses, worked out.
pub fn gate_rows()
    ensures { GateRows }
{}
