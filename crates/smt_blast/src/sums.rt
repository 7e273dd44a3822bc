// Sums and differences.
ghost use Rattle.std.specs.Prelude.{◌+◌, ◌*◌, ◌++◌, IfOk, List, OnOk, length};
ghost use Rattle.law_blasting.specs.OperatorCircuits.{term_gates};
ghost use Rattle.law_blasting.specs.Sizes.{overflow_size, sum_size};
ghost use Rattle.law_terms.specs.Plain.{PlainTerm};
ghost use Rattle.smt_blast.specs.Chains.{added, leaves_range, passed_on};
ghost use Rattle.smt_blast.specs.Standing.{AreBits, Grows, Stands};

use crate::circuit::Chain;
use crate::gates::Gates;
use smt_nodes::NodeId;
use smt_term::TermError;

impl Gates {
    /// What goes into the next place, by two bits, their equality, and what came into their place.
    fn pass_on(
        &mut self,
        chain: Chain,
        equal: NodeId,
        bits: (NodeId, NodeId),
        carry: NodeId,
    ) -> Result<NodeId, TermError>
        ensures bit { (u v c : PlainTerm) → Stands self.old.nodes equal (term_gates.eq u v) →
            Stands self.old.nodes bits.0 u → Stands self.old.nodes bits.1 v →
            Stands self.old.nodes carry c →
            IfOk result (λ id. Stands self.new.nodes id (passed_on term_gates chain u v c)) }
        ensures grows { OnOk result (Grows self.old.nodes self.new.nodes 1) }
    {
        match chain {
            Chain::Carry => self.ite(equal, bits.0, carry),
            Chain::Borrow => self.ite(equal, carry, bits.1),
        }
    }

    /// Appends the bits of a sum or of a difference.
    pub(crate) fn add(
        &mut self,
        chain: Chain,
        xs: &[NodeId],
        ys: &[NodeId],
        carry: NodeId,
        sum: &mut Vec<NodeId>,
    ) -> Result<(), TermError>
        ensures bits { (us vs ts : List PlainTerm) (c : PlainTerm) →
            AreBits self.old.nodes xs.now us → AreBits self.old.nodes ys.now vs →
            Stands self.old.nodes carry c → AreBits self.old.nodes sum.old.items ts →
            OnOk result
            (AreBits self.new.nodes sum.new.items (ts ++ added term_gates chain us vs c)) }
        ensures grows { OnOk result
            (Grows self.old.nodes self.new.nodes (sum_size (length xs.now))) }
    {
        let Some((x, xs)) = xs.split_first() else {
            return Ok(());
        };
        let Some((y, ys)) = ys.split_first() else {
            return Ok(());
        };
        let equal = self.eq(*x, *y)?;
        let bit = self.eq(equal, carry)?;
        sum.push(bit)?;
        let next = self.pass_on(chain, equal, (*x, *y), carry)?;
        self.add(chain, xs, ys, next, sum)
    }

    /// Whether a sum or a difference leaves the signed range.
    pub(crate) fn overflow(
        &mut self,
        chain: Chain,
        xs: &[NodeId],
        ys: &[NodeId],
        carry: NodeId,
    ) -> Result<NodeId, TermError>
        ensures bit { (us vs : List PlainTerm) (c : PlainTerm) → AreBits self.old.nodes xs.now us →
            AreBits self.old.nodes ys.now vs → Stands self.old.nodes carry c →
            IfOk result (λ id. Stands self.new.nodes id (leaves_range term_gates chain us vs c)) }
        ensures grows { OnOk result
            (Grows self.old.nodes self.new.nodes (overflow_size (length xs.now))) }
    {
        let Some((x, xs)) = xs.split_first() else {
            return Ok(self.no());
        };
        let Some((y, ys)) = ys.split_first() else {
            return Ok(self.no());
        };
        let equal = self.eq(*x, *y)?;
        let next = self.pass_on(chain, equal, (*x, *y), carry)?;
        if xs.is_empty() {
            let same = self.eq(carry, next)?;
            self.not(same)
        } else {
            self.overflow(chain, xs, ys, next)
        }
    }
}
