// The circuits of operators.
ghost use Rattle.std.specs.Prelude.{◌≡◌, ◌≤◌, ◌∷◌, [], IfOk, List, OnOk, length};
ghost use Rattle.law_blasting.specs.OperatorCircuits.{operator_circuit, term_gates, the_bit};
ghost use Rattle.law_blasting.specs.Sizes.{overflow_size, sum_size};
ghost use Rattle.law_terms.specs.Plain.{PlainTerm};
ghost use Rattle.smt_blast.specs.Chains.{added, leaves_range};
ghost use Rattle.smt_blast.specs.CircuitView.{connective_of, operator_of};
ghost use Rattle.smt_blast.specs.Standing.{AreBits, Grows, Stands};

use crate::circuit::{Chain, Circuit, Connective};
use crate::gates::Gates;
use crate::shifts::push_copies;
use smt_nodes::NodeId;
use smt_term::TermError;

impl Gates {
    /// The one bit of a Boolean.
    pub(crate) fn the_bit(&self, bits: &[NodeId]) -> NodeId
        ensures { (us : List PlainTerm) → AreBits self.now.nodes bits.now us →
            Stands self.now.nodes result (the_bit term_gates us) }
    {
        match bits.first() {
            Some(bit) => *bit,
            None => self.no(),
        }
    }

    // The one bit of an answer, as a list.
    fn alone(&self, bit: NodeId) -> Result<Vec<NodeId>, TermError>
        ensures { (u : PlainTerm) → Stands self.now.nodes bit u →
            IfOk result (λ bits. AreBits self.now.nodes bits.items (u ∷ [])) }
    {
        let mut bits = Vec::with_capacity(self.alloc, 1)?;
        bits.push(bit)?;
        Ok(bits)
    }

    // The bits of a sum or of a difference.
    fn sum(&mut self, chain: Chain, xs: &[NodeId], ys: &[NodeId]) -> Result<Vec<NodeId>, TermError>
        ensures bits { (us vs : List PlainTerm) → AreBits self.old.nodes xs.now us →
            AreBits self.old.nodes ys.now vs →
            IfOk result (λ bits.
            AreBits self.new.nodes bits.items (added term_gates chain us vs term_gates.no)) }
        ensures grows { OnOk result
            (Grows self.old.nodes self.new.nodes (sum_size (length xs.now))) }
    {
        let no = self.no();
        let mut sum = Vec::with_capacity(self.alloc, xs.len())?;
        self.add(chain, xs, ys, no, &mut sum)?;
        Ok(sum)
    }

    // Whether a sum or a difference leaves the signed range, as a list.
    fn overflow_alone(
        &mut self,
        chain: Chain,
        xs: &[NodeId],
        ys: &[NodeId],
    ) -> Result<Vec<NodeId>, TermError>
        ensures bits { (us vs : List PlainTerm) → AreBits self.old.nodes xs.now us →
            AreBits self.old.nodes ys.now vs →
            IfOk result (λ bits.
            AreBits self.new.nodes bits.items
            (leaves_range term_gates chain us vs term_gates.no ∷ [])) }
        ensures grows { OnOk result
            (Grows self.old.nodes self.new.nodes (overflow_size (length xs.now))) }
    {
        let no = self.no();
        let bit = self.overflow(chain, xs, ys, no)?;
        self.alone(bit)
    }

    // A connective of one or two Booleans; of another number of them nothing.
    fn connect_one(
        &mut self,
        connective: Connective,
        xs: &[NodeId],
    ) -> Result<Vec<NodeId>, TermError>
        ensures bits { (us : List PlainTerm) → AreBits self.old.nodes xs.now us →
            IfOk result (λ bits.
            AreBits self.new.nodes bits.items
            (operator_circuit term_gates (connective_of connective) (us ∷ []))) }
        ensures grows { OnOk result (Grows self.old.nodes self.new.nodes 1) }
    {
        match connective {
            Connective::Not => {
                let a = self.the_bit(xs);
                let bit = self.not(a)?;
                self.alone(bit)
            }
            Connective::And | Connective::Or => Ok(Vec::new(self.alloc)),
        }
    }

    fn connect_two(
        &mut self,
        connective: Connective,
        xs: &[NodeId],
        ys: &[NodeId],
    ) -> Result<Vec<NodeId>, TermError>
        ensures bits { (us vs : List PlainTerm) → AreBits self.old.nodes xs.now us →
            AreBits self.old.nodes ys.now vs →
            IfOk result (λ bits.
            AreBits self.new.nodes bits.items
            (operator_circuit term_gates (connective_of connective) (us ∷ vs ∷ []))) }
        ensures grows { OnOk result (Grows self.old.nodes self.new.nodes 1) }
    {
        let a = self.the_bit(xs);
        let b = self.the_bit(ys);
        match connective {
            Connective::And => {
                let bit = self.and(a, b)?;
                self.alone(bit)
            }
            Connective::Or => {
                let bit = self.or(a, b)?;
                self.alone(bit)
            }
            Connective::Not => Ok(Vec::new(self.alloc)),
        }
    }

    /// The circuit of an operator of one argument; of another operator nothing.
    pub(crate) fn of_one(
        &mut self,
        circuit: Circuit,
        xs: &[NodeId],
    ) -> Result<Vec<NodeId>, TermError>
        ensures bits { (us : List PlainTerm) → AreBits self.old.nodes xs.now us →
            IfOk result (λ bits.
            AreBits self.new.nodes bits.items
            (operator_circuit term_gates (operator_of circuit) (us ∷ []))) }
        ensures grows { length xs.now ≤ 128 →
            OnOk result (Grows self.old.nodes self.new.nodes 2048) }
    {
        match circuit {
            Circuit::Logic(connective) => self.connect_one(connective, xs),
            Circuit::Negation => {
                let zeros = self.zeros(xs)?;
                self.sum(Chain::Borrow, zeros.as_slice(), xs)
            }
            Circuit::NegationOverflow => {
                let zeros = self.zeros(xs)?;
                self.overflow_alone(Chain::Borrow, zeros.as_slice(), xs)
            }
            Circuit::ZeroExtension(count) => {
                let mut bits = Vec::from_slice(self.alloc, xs)?;
                push_copies(&mut bits, self.no(), count as usize)?;
                Ok(bits)
            }
            Circuit::Equal
            | Circuit::Choice
            | Circuit::Sum(_)
            | Circuit::Overflow(_)
            | Circuit::Shift(_)
            | Circuit::Test(_) => Ok(Vec::new(self.alloc)),
        }
    }

    /// The circuit of an operator of two arguments; of another operator nothing.
    pub(crate) fn of_two(
        &mut self,
        circuit: Circuit,
        xs: &[NodeId],
        ys: &[NodeId],
    ) -> Result<Vec<NodeId>, TermError>
        ensures bits { (us vs : List PlainTerm) → length xs.now ≤ 128 →
            AreBits self.old.nodes xs.now us → AreBits self.old.nodes ys.now vs →
            IfOk result (λ bits.
            AreBits self.new.nodes bits.items
            (operator_circuit term_gates (operator_of circuit) (us ∷ vs ∷ []))) }
        ensures grows { length xs.now ≤ 128 → length ys.now ≤ 128 →
            OnOk result (Grows self.old.nodes self.new.nodes 2048) }
    {
        match circuit {
            Circuit::Logic(connective) => self.connect_two(connective, xs, ys),
            Circuit::Equal => {
                let bit = self.equal(xs, ys)?;
                self.alone(bit)
            }
            Circuit::Sum(chain) => self.sum(chain, xs, ys),
            Circuit::Overflow(chain) => self.overflow_alone(chain, xs, ys),
            Circuit::Shift(direction) => self.shift(direction, 1, ys, xs),
            Circuit::Test(comparison) => {
                let bit = self.compare(comparison, xs, ys)?;
                self.alone(bit)
            }
            Circuit::Choice
            | Circuit::Negation
            | Circuit::NegationOverflow
            | Circuit::ZeroExtension(_) => Ok(Vec::new(self.alloc)),
        }
    }

    /// The circuit of an operator of three arguments; of another operator nothing.
    pub(crate) fn of_three(
        &mut self,
        circuit: Circuit,
        guard: &[NodeId],
        xs: &[NodeId],
        ys: &[NodeId],
    ) -> Result<Vec<NodeId>, TermError>
        ensures bits { (gs us vs : List PlainTerm) → AreBits self.old.nodes guard.now gs →
            AreBits self.old.nodes xs.now us → AreBits self.old.nodes ys.now vs →
            IfOk result (λ bits.
            AreBits self.new.nodes bits.items
            (operator_circuit term_gates (operator_of circuit) (gs ∷ us ∷ vs ∷ []))) }
        ensures grows { length xs.now ≤ 128 →
            OnOk result (Grows self.old.nodes self.new.nodes 2048) }
    {
        match circuit {
            Circuit::Choice => {
                let bit = self.the_bit(guard);
                let mut chosen = Vec::with_capacity(self.alloc, xs.len())?;
                self.choose(bit, xs, ys, &mut chosen)?;
                Ok(chosen)
            }
            _ => Ok(Vec::new(self.alloc)),
        }
    }
}
