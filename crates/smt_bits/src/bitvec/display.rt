//! How a bitvector is printed.
ghost use Rattle.std.specs.Prelude.{Some};
ghost use Rattle.smt_bits.specs.Printed.{bit_vector_text};

use super::BitVec;
use std::fmt;

impl fmt::Display for BitVec {
    ghost output = { λ b. Some (bit_vector_text b) };

    fn fmt<W: fmt::Write>(&self, f: &mut fmt::Formatter<W>) -> fmt::Result {
        let width = self.width.get();
        let number = self.number;
        write!(f, "(bv{width} {number})")
    }
}
