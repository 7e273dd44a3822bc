// Comparisons.
ghost use Rattle.std.specs.Prelude.{◌≡◌, ◌+◌, ◌++◌, IfOk, List, OnOk, length};
ghost use Rattle.law_blasting.specs.Circuits.{borrow_out, equal, with_top};
ghost use Rattle.law_blasting.specs.OperatorCircuits.{term_gates, test_circuit};
ghost use Rattle.law_blasting.specs.Sizes.{carry_size, equal_size};
ghost use Rattle.law_terms.specs.Plain.{PlainTerm};
ghost use Rattle.smt_blast.specs.CircuitView.{test_of};
ghost use Rattle.smt_blast.specs.Standing.{AreBits, Grows, Stands};

use crate::circuit::Comparison;
use crate::gates::Gates;
use smt_nodes::NodeId;
use smt_term::TermError;
use std::alloc::AllocError;

/// Appends bits with the highest of them exchanged for that of others.
fn push_with_top(bits: &mut Vec<NodeId>, xs: &[NodeId], ys: &[NodeId]) -> Result<(), AllocError>
    ensures { OnOk result (bits.new.items ≡ bits.old.items ++ with_top xs.now ys.now) }
{
    let Some((x, xs)) = xs.split_first() else {
        return Ok(());
    };
    let Some((y, ys)) = ys.split_first() else {
        return Ok(());
    };
    if xs.is_empty() {
        bits.push(*y)?;
        Ok(())
    } else {
        bits.push(*x)?;
        push_with_top(bits, xs, ys)
    }
}

impl Gates {
    /// Whether each bit is the one at its place.
    pub(crate) fn equal(&mut self, xs: &[NodeId], ys: &[NodeId]) -> Result<NodeId, TermError>
        ensures bit { (us vs : List PlainTerm) → AreBits self.old.nodes xs.now us →
            AreBits self.old.nodes ys.now vs →
            IfOk result (λ id. Stands self.new.nodes id (equal term_gates us vs)) }
        ensures grows { OnOk result
            (Grows self.old.nodes self.new.nodes (equal_size (length xs.now))) }
    {
        let Some((x, xs)) = xs.split_first() else {
            return Ok(self.yes());
        };
        let Some((y, ys)) = ys.split_first() else {
            return Ok(self.yes());
        };
        let one = self.eq(*x, *y)?;
        if xs.is_empty() {
            Ok(one)
        } else {
            let others = self.equal(xs, ys)?;
            self.and(one, others)
        }
    }

    /// What a difference borrows out of the highest place: whether the first is less.
    fn borrow_out(
        &mut self,
        xs: &[NodeId],
        ys: &[NodeId],
        borrow: NodeId,
    ) -> Result<NodeId, TermError>
        ensures bit { (us vs : List PlainTerm) (c : PlainTerm) → AreBits self.old.nodes xs.now us →
            AreBits self.old.nodes ys.now vs → Stands self.old.nodes borrow c →
            IfOk result (λ id. Stands self.new.nodes id (borrow_out term_gates us vs c)) }
        ensures grows { OnOk result
            (Grows self.old.nodes self.new.nodes (carry_size (length xs.now))) }
    {
        let Some((x, xs)) = xs.split_first() else {
            return Ok(borrow);
        };
        let Some((y, ys)) = ys.split_first() else {
            return Ok(borrow);
        };
        let equal = self.eq(*x, *y)?;
        let next = self.ite(equal, borrow, *y)?;
        self.borrow_out(xs, ys, next)
    }

    /// Whether the first is less.
    fn less(&mut self, xs: &[NodeId], ys: &[NodeId]) -> Result<NodeId, TermError>
        ensures bit { (us vs : List PlainTerm) → AreBits self.old.nodes xs.now us →
            AreBits self.old.nodes ys.now vs →
            IfOk result
            (λ id. Stands self.new.nodes id (borrow_out term_gates us vs term_gates.no)) }
        ensures grows { OnOk result
            (Grows self.old.nodes self.new.nodes (carry_size (length xs.now))) }
    {
        let no = self.no();
        self.borrow_out(xs, ys, no)
    }

    /// Whether the first is less in two's complement.
    fn signed_less(&mut self, xs: &[NodeId], ys: &[NodeId]) -> Result<NodeId, TermError>
        ensures bit { (us vs : List PlainTerm) → AreBits self.old.nodes xs.now us →
            AreBits self.old.nodes ys.now vs →
            IfOk result (λ id.
            Stands self.new.nodes id
            (borrow_out term_gates (with_top us vs) (with_top vs us) term_gates.no)) }
        ensures grows { OnOk result
            (Grows self.old.nodes self.new.nodes (carry_size (length xs.now))) }
    {
        let mut low = Vec::with_capacity(self.alloc, xs.len())?;
        push_with_top(&mut low, xs, ys)?;
        let mut high = Vec::with_capacity(self.alloc, ys.len())?;
        push_with_top(&mut high, ys, xs)?;
        self.less(low.as_slice(), high.as_slice())
    }

    /// A comparison.
    pub(crate) fn compare(
        &mut self,
        comparison: Comparison,
        xs: &[NodeId],
        ys: &[NodeId],
    ) -> Result<NodeId, TermError>
        ensures bit { (us vs : List PlainTerm) → AreBits self.old.nodes xs.now us →
            AreBits self.old.nodes ys.now vs →
            IfOk result
            (λ id. Stands self.new.nodes id (test_circuit term_gates (test_of comparison) us vs)) }
        ensures grows { OnOk result
            (Grows self.old.nodes self.new.nodes (carry_size (length xs.now + length ys.now) + 1)) }
    {
        match comparison {
            Comparison::Less => self.less(xs, ys),
            Comparison::SignedLess => self.signed_less(xs, ys),
            Comparison::AtMost => {
                let less = self.less(ys, xs)?;
                self.not(less)
            }
            Comparison::SignedAtMost => {
                let less = self.signed_less(ys, xs)?;
                self.not(less)
            }
        }
    }
}
