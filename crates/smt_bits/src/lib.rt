//! Bitvectors of 1 to 128 bits, with the arithmetic of SMT-LIB's theory FixedSizeBitVectors and of its logic QF_BV.
//!
//! A [`BitVec`] is a [`Width`] and a number below 2 to that width. Contracts see it by `width_of` and `number_of`
//! (`specs/BitVec.antt`), and say of each operation which function of whole numbers it computes (`BitVectors` of
//! `law_numbers`). A [`Fin`] is a number below a bound. No call takes memory.
#![tactic(auto)]

mod bitvec;
mod error;
mod fin;
pub mod laws;
mod number;
mod width;

pub use bitvec::BitVec;
pub use error::{BitVecError, BvCall};
pub use fin::Fin;
pub use number::{Int, Nat, nat};
pub use width::{
    EIGHT, FIVE, HUNDRED_TWENTY, HUNDRED_TWENTY_EIGHT, ONE, SEVEN, SIXTEEN, SIXTY_FOUR, THIRTY_TWO,
    TWO, Width,
};
