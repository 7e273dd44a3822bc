// Choices and shifts.
ghost use Rattle.std.specs.Prelude.{◌≡◌, ◌≤◌, ◌+◌, ◌++◌, IfOk, List, OnOk, length, replicate};
ghost use Rattle.law_blasting.specs.Circuits.{any_of, choose, shift, zeros};
ghost use Rattle.law_blasting.specs.OperatorCircuits.{term_gates};
ghost use Rattle.law_blasting.specs.Sizes.{choose_size, shift_size};
ghost use Rattle.law_terms.specs.Plain.{PlainTerm};
ghost use Rattle.smt_blast.specs.Chains.{moved};
ghost use Rattle.smt_blast.specs.Standing.{AreBits, Grows, Stands};

use crate::circuit::Direction;
use crate::gates::Gates;
use smt_nodes::NodeId;
use smt_term::TermError;
use std::alloc::AllocError;

/// Appends a bit so many times.
pub(crate) fn push_copies(
    bits: &mut Vec<NodeId>,
    bit: NodeId,
    count: usize,
) -> Result<(), AllocError>
    ensures { OnOk result (bits.new.items ≡ bits.old.items ++ replicate count bit) }
{
    for place in 0..count {
        bits.push(bit)?;
    }
    Ok(())
}

impl Gates {
    /// Appends a choice bit by bit.
    pub(crate) fn choose(
        &mut self,
        bit: NodeId,
        xs: &[NodeId],
        ys: &[NodeId],
        chosen: &mut Vec<NodeId>,
    ) -> Result<(), TermError>
        ensures bits { (us vs ts : List PlainTerm) (c : PlainTerm) → Stands self.old.nodes bit c →
            AreBits self.old.nodes xs.now us → AreBits self.old.nodes ys.now vs →
            AreBits self.old.nodes chosen.old.items ts →
            OnOk result
            (AreBits self.new.nodes chosen.new.items (ts ++ choose term_gates c us vs)) }
        ensures count { length xs.now ≡ length ys.now →
            OnOk result (length chosen.new.items ≡ length chosen.old.items + length xs.now) }
        ensures grows { OnOk result
            (Grows self.old.nodes self.new.nodes (choose_size (length xs.now))) }
    {
        let Some((x, xs)) = xs.split_first() else {
            return Ok(());
        };
        let Some((y, ys)) = ys.split_first() else {
            return Ok(());
        };
        let one = self.ite(bit, *x, *y)?;
        chosen.push(one)?;
        self.choose(bit, xs, ys, chosen)
    }

    /// The bits moved by so many places, of which there are no more than bits.
    fn moved(
        &self,
        direction: Direction,
        places: usize,
        xs: &[NodeId],
    ) -> Result<Vec<NodeId>, TermError>
        requires { places ≤ length xs.now }
        ensures bits { (us : List PlainTerm) → AreBits self.now.nodes xs.now us →
            IfOk result
            (λ bits. AreBits self.now.nodes bits.items (moved term_gates direction places us)) }
        ensures count { IfOk result (λ bits. length bits.items ≡ length xs.now) }
    {
        let mut bits = Vec::with_capacity(self.alloc, xs.len())?;
        match direction {
            Direction::Up => {
                push_copies(&mut bits, self.no(), places)?;
                bits.extend_from_slice(&xs[..xs.len() - places])?;
                Ok(bits)
            }
            Direction::Down => {
                bits.extend_from_slice(&xs[places..])?;
                push_copies(&mut bits, self.no(), places)?;
                Ok(bits)
            }
        }
    }

    /// As many zeros as there are bits.
    pub(crate) fn zeros(&self, xs: &[NodeId]) -> Result<Vec<NodeId>, TermError>
        ensures bits { (us : List PlainTerm) → AreBits self.now.nodes xs.now us →
            IfOk result (λ bits. AreBits self.now.nodes bits.items (zeros term_gates us)) }
        ensures count { IfOk result (λ bits. length bits.items ≡ length xs.now) }
    {
        let mut zeros = Vec::with_capacity(self.alloc, xs.len())?;
        push_copies(&mut zeros, self.no(), xs.len())?;
        Ok(zeros)
    }

    /// Whether any bit is set.
    fn any_of(&mut self, bits: &[NodeId]) -> Result<NodeId, TermError>
        ensures bit { (us : List PlainTerm) → AreBits self.old.nodes bits.now us →
            IfOk result (λ id. Stands self.new.nodes id (any_of term_gates us)) }
        ensures grows { OnOk result (Grows self.old.nodes self.new.nodes (length bits.now)) }
    {
        match bits.split_first() {
            Some((first, others)) => {
                let others = self.any_of(others)?;
                self.or(*first, others)
            }
            None => Ok(self.no()),
        }
    }

    /// The bits moved by as many places as others say, the lowest of which counts so many places.
    pub(crate) fn shift(
        &mut self,
        direction: Direction,
        places: usize,
        amount: &[NodeId],
        xs: &[NodeId],
    ) -> Result<Vec<NodeId>, TermError>
        ensures bits { (us vs : List PlainTerm) → length xs.now ≤ 128 →
            AreBits self.old.nodes amount.now vs → AreBits self.old.nodes xs.now us →
            IfOk result (λ bits.
            AreBits self.new.nodes bits.items
            (shift term_gates (moved term_gates direction) (length xs.now) places vs us)) }
        ensures grows { length xs.now ≤ 128 →
            OnOk result (Grows self.old.nodes self.new.nodes
            (shift_size (length xs.now) places (length amount.now))) }
    {
        let mut bits = Vec::with_capacity(self.alloc, xs.len())?;
        let Some((bit, higher)) = amount.split_first() else {
            bits.extend_from_slice(xs)?;
            return Ok(bits);
        };
        if places < xs.len() {
            let moved = self.moved(direction, places, xs)?;
            self.choose(*bit, moved.as_slice(), xs, &mut bits)?;
            self.shift(direction, places.saturating_mul(2), higher, bits.as_slice())
        } else {
            let any = self.any_of(amount)?;
            let zeros = self.zeros(xs)?;
            self.choose(any, zeros.as_slice(), xs, &mut bits)?;
            Ok(bits)
        }
    }
}
