//! Laws of the definitions that the contracts cite, proved with no code.
ghost use Rattle.std.specs.Prelude.{◌≡◌, ◌==◌, ◌&&◌, ◌∷◌, ◌↔◌, [], IsTrue, map};
ghost use Rattle.std.specs.Cmp.{IsTotalOrder};
ghost use Rattle.std.specs.Ordering.{nat_cmp, ordering_then};
ghost use Rattle.std.specs.declared.cmp.Ordering.TheVariants.{Equal};
ghost use Rattle.smt_bits.specs.BitVec.{width_of, number_of};
ghost use Rattle.smt_bits.specs.Fin.{bound_of, value_of};
ghost use Rattle.smt_bits.specs.Width.{bits_in};
ghost use Rattle.smt_bits.specs.declared.bitvec.BitVec.{BitVec as Bits};
ghost use Rattle.smt_bits.specs.declared.error.BvCall.{BvCall as Call};
ghost use Rattle.smt_bits.specs.declared.fin.Fin.{Fin as Bounded};
ghost use Rattle.smt_bits.specs.declared.width.Width.{Width as Widths};

use crate::{
    BitVec, BvCall, EIGHT, FIVE, Fin, HUNDRED_TWENTY, HUNDRED_TWENTY_EIGHT, ONE, SEVEN, SIXTEEN,
    SIXTY_FOUR, THIRTY_TWO, TWO, Width,
};
use std::hash::Hash;

/// Bitvectors are ordered by width, then by number, and are equal where both are.
pub fn bitvectors_are_ordered()
    ensures order { (a b : Bits) → ⟦<BitVec as Ord>⟧.cmp a b
        ≡ ordering_then (nat_cmp (width_of a) (width_of b)) (nat_cmp (number_of a) (number_of b)) }
    ensures equality { (a b : Bits) → ⟦<BitVec as PartialEq>⟧.eq a b
        ≡ (width_of a == width_of b && number_of a == number_of b) }
    ensures one { (a b : Bits) → width_of a ≡ width_of b → number_of a ≡ number_of b → a ≡ b }
{}

/// Widths are ordered by their number of bits, and are equal where these are.
pub fn widths_are_ordered()
    ensures order { (a b : Widths) → ⟦<Width as Ord>⟧.cmp a b ≡ nat_cmp (bits_in a) (bits_in b) }
    ensures equality { (a b : Widths) → ⟦<Width as PartialEq>⟧.eq a b ≡ (bits_in a == bits_in b) }
    ensures one { (a b : Widths) → bits_in a ≡ bits_in b → a ≡ b }
{}

/// Numbers under a bound are ordered by the bound, then by the number, and are equal where both are.
pub fn bounded_numbers_are_ordered()
    ensures order { (a b : Bounded) → ⟦<Fin as Ord>⟧.cmp a b
        ≡ ordering_then (nat_cmp (bound_of a) (bound_of b)) (nat_cmp (value_of a) (value_of b)) }
    ensures equality { (a b : Bounded) → ⟦<Fin as PartialEq>⟧.eq a b
        ≡ (bound_of a == bound_of b && value_of a == value_of b) }
    ensures one { (a b : Bounded) → bound_of a ≡ bound_of b → value_of a ≡ value_of b → a ≡ b }
{}

/// The orders of the value types are total: of any two values one stands first or they are level, and it chains.
pub fn orders_are_total()
    ensures bitvectors { IsTotalOrder ⟦<BitVec as Ord>⟧.cmp }
    ensures widths { IsTotalOrder ⟦<Width as Ord>⟧.cmp }
    ensures bounded_numbers { IsTotalOrder ⟦<Fin as Ord>⟧.cmp }
{}

/// Two values are level in the order of their type exactly where they are one value.
pub fn orders_agree_with_equality()
    ensures bitvectors { (a b : Bits) → (⟦<BitVec as Ord>⟧.cmp a b ≡ Equal) ↔ (a ≡ b) }
    ensures widths { (a b : Widths) → (⟦<Width as Ord>⟧.cmp a b ≡ Equal) ↔ (a ≡ b) }
    ensures bounded_numbers { (a b : Bounded) → (⟦<Fin as Ord>⟧.cmp a b ≡ Equal) ↔ (a ≡ b) }
{}

/// Values that are equal write the same to a hasher.
pub fn equal_values_write_the_same()
    ensures bitvectors { (a b : Bits) → IsTrue (⟦<BitVec as PartialEq>⟧.eq a b)
        → ⟦<BitVec as Hash>⟧.hash_input a ≡ ⟦<BitVec as Hash>⟧.hash_input b }
    ensures widths { (a b : Widths) → IsTrue (⟦<Width as PartialEq>⟧.eq a b)
        → ⟦<Width as Hash>⟧.hash_input a ≡ ⟦<Width as Hash>⟧.hash_input b }
    ensures bounded_numbers { (a b : Bounded) → IsTrue (⟦<Fin as PartialEq>⟧.eq a b)
        → ⟦<Fin as Hash>⟧.hash_input a ≡ ⟦<Fin as Hash>⟧.hash_input b }
    ensures calls { (a b : Call) → IsTrue (⟦<BvCall as PartialEq>⟧.eq a b)
        → ⟦<BvCall as Hash>⟧.hash_input a ≡ ⟦<BvCall as Hash>⟧.hash_input b }
{}

/// The ten constants of widths, in ascending order. Each has the number of bits that it is named after.
pub fn constant_widths() -> [Width; 10]
    ensures { map bits_in result ≡ 1 ∷ 2 ∷ 5 ∷ 7 ∷ 8 ∷ 16 ∷ 32 ∷ 64 ∷ 120 ∷ 128 ∷ [] }
{
    [
        ONE,
        TWO,
        FIVE,
        SEVEN,
        EIGHT,
        SIXTEEN,
        THIRTY_TWO,
        SIXTY_FOUR,
        HUNDRED_TWENTY,
        HUNDRED_TWENTY_EIGHT,
    ]
}
