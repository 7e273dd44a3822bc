//! Bit-blasting: typed terms over bitvectors (theory FixedSizeBitVectors) as lists of Boolean terms, one for each bit, with the
//! same values. Definitions and laws, with no code to run.
//!
//! Read `specs/Circuits.antt` first: circuits of gates over lists of bits, and the numbers that such lists are.
//! `OperatorCircuits` has a circuit for each operator, `Blasted` the Boolean terms that stand for a term, and `Refusals` the
//! terms that have none. `Theorem` states what comes of it: the old Boolean terms and the new ones are true together, in
//! interpretations that go one to one onto each other.
#![tactic(auto)]

pub mod laws;
