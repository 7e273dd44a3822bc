//! Laws of the operators on bitvectors, proved with no code.
ghost use Rattle.law_numbers.specs.Rows.{BitVectorRows};
ghost use Rattle.law_numbers.specs.Laws.{SignedHasItsBits, BitsAreTakenIntoRange};
ghost use Rattle.law_numbers.specs.Laws.{DivisionRoundsTowardZero, ModulusHasDivisorsSign};

/// Operators on bitvectors at chosen numbers.
pub fn bit_vector_rows()
    ensures { BitVectorRows }
{}

/// Two's complement values and their bits give each other, within the signed range.
pub fn signed_values_have_their_bits()
    ensures bits { SignedHasItsBits }
    ensures range { BitsAreTakenIntoRange }
{}

/// The signed quotient and remainder round toward 0, and the modulus has the divisor's sign.
pub fn signed_divisions_round()
    ensures quotient { DivisionRoundsTowardZero }
    ensures modulus { ModulusHasDivisorsSign }
{}
