// The old variables with their numbers.
ghost use Rattle.std.specs.Prelude.{◌≡◌, ◌++◌, ◌∷◌, [], OnErr, OnOk, length, map};
ghost use Rattle.smt_blast.specs.View.{plain_bit_var, plain_bit_vars};

use smt_term::{TermType, Text};
use std::alloc::{AllocError, Global};

/// A variable with its number, by which the new variables are named that stand for it: `v3` for a Boolean of number 3, and
/// `v3_0`, `v3_1` and so on, from the lowest, for the bits of a bitvector.
#[derive(Debug, Drop)]
pub struct BitVar {
    /// The name by which the variable is known.
    pub id: Text,
    /// The type of its values.
    pub ty: TermType,
    /// Its number.
    pub number: usize,
}

/// A list of variables with their numbers.
#[derive(Debug, Drop)]
pub struct BitVarList {
    items: Vec<BitVar>,
}

impl BitVarList {
    /// The empty list. It takes no memory.
    pub fn new(alloc: Global) -> BitVarList
        ensures { plain_bit_vars result ≡ [] }
    {
        BitVarList {
            items: Vec::new(alloc),
        }
    }

    /// Appends a variable. An `Err` changes nothing.
    pub fn push(&mut self, item: BitVar) -> Result<(), AllocError>
        ensures ok { OnOk result
            (plain_bit_vars self.new ≡ plain_bit_vars self.old ++ plain_bit_var item ∷ []) }
        ensures err { OnErr result (plain_bit_vars self.new ≡ plain_bit_vars self.old) }
    {
        self.items.push(item)?;
        Ok(())
    }

    /// How many variables there are.
    pub fn len(&self) -> usize
        ensures { result ≡ length (plain_bit_vars self.now) }
    {
        self.items.len()
    }

    /// The variables, in order.
    pub fn items(&self) -> &[BitVar]
        ensures { map plain_bit_var result.now ≡ plain_bit_vars self.now }
    {
        self.items.as_slice()
    }
}
