//! Foldings as functions of plain terms, and when a folded term may take the place of the application that was asked for.
//! Definitions and laws, with no code to run.
//!
//! Read `specs/Refinement.antt` first, which says when one term stands for another. `Applications` has what each call is asked
//! for, the files whose names begin with `Fold` what it gives, `Composites` the calls that are made of others, and `Built` what
//! is built for a whole term.
#![tactic(auto)]

pub mod laws;
