//! Texts of the format DIMACS: formulas in conjunctive normal form, and proofs as solvers write them (DRAT).
//!
//! Read `specs/Words.antt` first: the lines of a text and their words. `Entries` says what words mean, `Formulas` which texts are
//! formulas and of which clauses, and `Faults` why a text is none.
#![tactic(auto)]

mod body;
mod entry;
mod error;
mod formula;
mod header;
pub mod laws;
mod number;
mod problem;
mod proof;
mod words;

pub use error::{FormulaError, FormulaFault};
pub use formula::{Formula, GREATEST, read_formula};
pub use proof::{ProofError, read_proof};
