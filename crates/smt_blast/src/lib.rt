//! Bit-blasting: numbered terms over bitvectors (theory FixedSizeBitVectors) as numbered Boolean terms over their bits.
//!
//! What the new terms are to the old ones is said by `law_blasting`: `Blasted` has the Boolean terms that stand for a term,
//! `Numbering` the numbers of variables, and `Theorem` that old and new terms are true together. Read `specs/Standing.antt`
//! first, which says for which terms new nodes stand.
//!
//! A walk over the old nodes numbers the variables and finds the first refusal (`visit`). Then one pass over the nodes, in the
//! order of their places, makes the bits of each from those of its parts (`table`), by circuits (`operators`) of gates
//! (`gates`).
//!
//! The program `smtblast` reads a job from a source, and puts the script of its blasted terms to a sink: `specs/Run.antt` says what a run
//! does, `Meaning` what its script is worth, and `Causes` why it is refused.
#![tactic(auto)]

mod blasted;
mod blasting;
mod circuit;
mod command;
mod comparisons;
mod current;
mod error;
mod gates;
mod leaves;
mod marks;
mod names;
mod operators;
mod printing;
mod program;
mod reading;
mod shifts;
mod sort;
mod sums;
mod table;
mod variable;
mod visit;

pub use blasted::Blasted;
pub use blasting::blast;
pub use command::{Command, USAGE};
pub use error::BlastError;
pub use program::blast_run;
pub use variable::{BitVar, BitVarList};
