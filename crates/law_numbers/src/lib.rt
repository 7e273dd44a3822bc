//! Bitvectors as whole numbers: the operators of SMT-LIB's theory FixedSizeBitVectors and of its logic QF_BV, numbers of 64
//! bits with sign, and the values of extension types with their order. Definitions and laws, with no code to run.
//!
//! Read `specs/BitVectors.antt` first; `BitOperators` has the operators of two bitvectors in one table, `Laws` what they mean
//! in two's complement, and `Extensions` the values of the extension types.
#![tactic(auto)]

pub mod laws;
