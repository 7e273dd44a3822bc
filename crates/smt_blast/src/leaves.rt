// The bits of literals and of variables.
ghost use Rattle.std.specs.Prelude.{◌≡◌, ◌+◌, ◌≤◌, ◌++◌, IfOk, List, None, OnOk, Some, map};
ghost use Rattle.std.specs.Rc.{rc_str_bytes};
ghost use Rattle.law_blasting.specs.Blasted.{bit_names, new_names, new_variable, value_bits};
ghost use Rattle.law_blasting.specs.Circuits.{number_bits};
ghost use Rattle.law_blasting.specs.Refusals.{type_refusal};
ghost use Rattle.law_terms.specs.Meaning.{literal_value};
ghost use Rattle.law_terms.specs.Nodes.{TypeMeaning};
ghost use Rattle.law_terms.specs.Plain.{PlainTerm, PlainType};
ghost use Rattle.law_terms.specs.Types.{literal_type};
ghost use Rattle.smt_blast.specs.Sorts.{plain_sort};
ghost use Rattle.smt_blast.specs.Standing.{AreBits, Grows, Stands};
ghost use Rattle.smt_blast.specs.Tables.{literals};
ghost use Rattle.smt_nodes.specs.Interned.{meaning_in};
ghost use Rattle.smt_term.specs.View.{plain_literal};

use crate::gates::Gates;
use crate::names::{bit_name, variable_name};
use crate::sort::{Sort, sort_at};
use smt_nodes::{Interner, Label, NodeId};
use smt_term::{TermError, TermPrim, Text};

impl Gates {
    /// Appends the lowest bits of a number.
    fn push_number(&self, bits: &mut Vec<NodeId>, number: u128, count: u32) -> Result<(), TermError>
        ensures { (ts : List PlainTerm) → AreBits self.now.nodes bits.old.items ts →
            OnOk result
            (AreBits self.now.nodes bits.new.items (ts ++ literals (number_bits count number))) }
    {
        if count == 0 {
            return Ok(());
        }
        bits.push(self.literal(number % 2 == 1))?;
        self.push_number(bits, number / 2, count - 1)
    }

    /// The bits of a literal.
    pub(crate) fn literal_bits(&self, literal: &TermPrim) -> Result<Vec<NodeId>, TermError>
        ensures { IfOk result (λ bits.
            AreBits self.now.nodes bits.items (literals (value_bits
            (literal_type (plain_literal literal.now))
            (literal_value (plain_literal literal.now))))) }
    {
        let mut bits = Vec::new(self.alloc);
        match literal {
            TermPrim::Bitvec(value) => {
                self.push_number(&mut bits, value.to_nat(), value.width().get())?;
                Ok(bits)
            }
            TermPrim::Bool(truth) => {
                bits.push(self.literal(*truth))?;
                Ok(bits)
            }
            TermPrim::Entity(_) => Ok(bits),
            TermPrim::Ext(_) => Ok(bits),
            TermPrim::String(_) => Ok(bits),
        }
    }

    /// The new variable of a name.
    fn variable(&mut self, name: Text) -> Result<NodeId, TermError>
        ensures bit { IfOk result
            (λ id. Stands self.new.nodes id (new_variable (rc_str_bytes name))) }
        ensures grows { OnOk result (Grows self.old.nodes self.new.nodes 1) }
    {
        let ty = self.bool_type();
        self.enter(Label::Var(name), &[ty])
    }

    /// Appends the new variables of so many bits of a variable, from a place on. No place is beyond the greatest width.
    fn push_variables(
        &mut self,
        bits: &mut Vec<NodeId>,
        number: usize,
        place: u32,
        count: u32,
    ) -> Result<(), TermError>
        requires { place + count ≤ 128 }
        ensures bits { (ts : List PlainTerm) → AreBits self.old.nodes bits.old.items ts →
            OnOk result (AreBits self.new.nodes bits.new.items
            (ts ++ map new_variable (bit_names number place count))) }
        ensures grows { OnOk result (Grows self.old.nodes self.new.nodes count) }
    {
        if count == 0 {
            return Ok(());
        }
        let name = bit_name(self.alloc, number, place)?;
        let bit = self.variable(name)?;
        bits.push(bit)?;
        self.push_variables(bits, number, place + 1, count - 1)
    }

    /// The new variables of a variable.
    fn variable_bits(&mut self, sort: Sort, number: usize) -> Result<Vec<NodeId>, TermError>
        ensures bits { IfOk result (λ bits.
            AreBits self.new.nodes bits.items
            (map new_variable (new_names number (plain_sort sort)))) }
        ensures grows { OnOk result (Grows self.old.nodes self.new.nodes 128) }
    {
        let mut bits = Vec::new(self.alloc);
        match sort {
            Sort::Truth => {
                let name = variable_name(self.alloc, number)?;
                let bit = self.variable(name)?;
                bits.push(bit)?;
                Ok(bits)
            }
            Sort::Bits(width) => {
                self.push_variables(&mut bits, number, 0, width.get())?;
                Ok(bits)
            }
        }
    }

    /// The new variables of a variable, by the number of its type; none where the type is not blasted.
    pub(crate) fn variable_met(
        &mut self,
        old: &Interner,
        ty: NodeId,
        number: usize,
    ) -> Result<Vec<NodeId>, TermError>
        ensures bits { (t : PlainType) → meaning_in old.now ty ≡ Some (TypeMeaning t) →
            type_refusal t ≡ None →
            IfOk result
            (λ bits. AreBits self.new.nodes bits.items (map new_variable (new_names number t))) }
        ensures grows { OnOk result (Grows self.old.nodes self.new.nodes 128) }
    {
        match sort_at(old, ty) {
            Some(sort) => self.variable_bits(sort, number),
            None => Ok(Vec::new(self.alloc)),
        }
    }
}
