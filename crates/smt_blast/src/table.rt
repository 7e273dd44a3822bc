// The bits of old nodes, in the order of their places.
ghost use Rattle.std.specs.Prelude.{◌≡◌, ◌+◌, ◌*◌, ◌≤◌, IfOk, List, OnOk, Option, Some, length};
ghost use Rattle.std.specs.Prelude.{map, true};
ghost use Rattle.std.specs.List.{AllByRecursion};
ghost use Rattle.law_blasting.specs.Blasted.{Variables, blasted};
ghost use Rattle.law_blasting.specs.Laws.{root};
ghost use Rattle.law_blasting.specs.OperatorCircuits.{operator_circuit, term_gates, the_bit};
ghost use Rattle.law_blasting.specs.Passing.{Related};
ghost use Rattle.law_blasting.specs.Refusals.{is_supported};
ghost use Rattle.law_terms.specs.Plain.{PlainTerm};
ghost use Rattle.smt_blast.specs.CircuitView.{operator_of};
ghost use Rattle.smt_blast.specs.Marks.{HasSeen, IsMarked, IsSeen};
ghost use Rattle.smt_blast.specs.Standing.{AreBits, Grows};
ghost use Rattle.smt_blast.specs.Tables.{bits_in, HasBits, IsNext, IsTable, IsWholeTable};
ghost use Rattle.smt_nodes.specs.Interned.{nodes_of, StandFor};
ghost use Rattle.smt_nodes.specs.View.{ids_of, place_of};
ghost use Rattle.smt_term.specs.View.{plain_op};

use crate::circuit::{Circuit, circuit_of};
use crate::gates::Gates;
use crate::marks::Seen;
use smt_nodes::{IdList, Interner, Label, NodeId};
use smt_term::{Op, TermError};
use std::alloc::Global;

/// The bits of an old node, none where its place has no entry.
fn bits_at(table: &[IdList], id: NodeId) -> &[NodeId]
    ensures { result.now ≡ bits_in table.now (place_of id) }
{
    match table.get(id.place()) {
        Some(bits) => bits.items(),
        None => &[],
    }
}

impl Gates {
    /// The circuit of an operator at the bits of its arguments.
    fn application(
        &mut self,
        circuit: Circuit,
        arguments: &[NodeId],
        table: &[IdList],
    ) -> Result<Vec<NodeId>, TermError>
        ensures bits { (uss : List (List PlainTerm)) →
            Related (HasBits self.old.nodes table.now) arguments.now uss →
            IfOk result (λ bits.
            AreBits self.new.nodes bits.items
            (operator_circuit term_gates (operator_of circuit) uss)) }
        ensures grows { (uss : List (List PlainTerm)) →
            Related (HasBits self.old.nodes table.now) arguments.now uss →
            OnOk result (Grows self.old.nodes self.new.nodes 2048) }
    {
        match arguments {
            [] => Ok(Vec::new(self.alloc)),
            [a] => self.of_one(circuit, bits_at(table, *a)),
            [a, b] => self.of_two(circuit, bits_at(table, *a), bits_at(table, *b)),
            [a, b, c] => self.of_three(
                circuit,
                bits_at(table, *a),
                bits_at(table, *b),
                bits_at(table, *c),
            ),
            [_, _, _, _, ..] => Ok(Vec::new(self.alloc)),
        }
    }

    /// The circuit of an operator at the bits of its arguments.
    fn operated(
        &mut self,
        op: &Op,
        arguments: &[NodeId],
        table: &[IdList],
    ) -> Result<Vec<NodeId>, TermError>
        ensures bits { (uss : List (List PlainTerm)) → is_supported (plain_op op.now) ≡ true →
            Related (HasBits self.old.nodes table.now) arguments.now uss →
            IfOk result (λ bits.
            AreBits self.new.nodes bits.items (operator_circuit term_gates (plain_op op.now) uss)) }
        ensures grows { (uss : List (List PlainTerm)) →
            Related (HasBits self.old.nodes table.now) arguments.now uss →
            OnOk result (Grows self.old.nodes self.new.nodes 2048) }
    {
        match circuit_of(op) {
            Some(circuit) => self.application(circuit, arguments, table),
            None => Ok(Vec::new(self.alloc)),
        }
    }

    /// The bits of an old node that was seen, by those of the nodes before it.
    fn node_bits(
        &mut self,
        old: &Interner,
        seen: Seen,
        table: &[IdList],
    ) -> Result<Vec<NodeId>, TermError>
        ensures bits { (marks : List (Option Seen)) (vs : Variables)
            (s : IsSeen old.now marks vs seen.id seen) →
            IsTable old.now marks vs self.old.nodes table.now →
            length table.now ≡ place_of seen.id →
            IfOk result (λ bits. AreBits self.new.nodes bits.items (blasted vs s.term)) }
        ensures grows { (marks : List (Option Seen)) (vs : Variables) →
            IsSeen old.now marks vs seen.id seen →
            IsTable old.now marks vs self.old.nodes table.now →
            length table.now ≡ place_of seen.id →
            OnOk result (Grows self.old.nodes self.new.nodes 2048) }
    {
        let Some((ty, arguments)) = old.parts(seen.id).split_first() else {
            return Ok(Vec::new(self.alloc));
        };
        let Some(label) = old.label(seen.id) else {
            return Ok(Vec::new(self.alloc));
        };
        match label {
            Label::App(op) => self.operated(op, arguments, table),
            Label::Prim(literal) => self.literal_bits(literal),
            Label::Var(_) => self.variable_met(old, *ty, seen.number),
            _ => Ok(Vec::new(self.alloc)),
        }
    }

    /// The bits of an old node as they stand in the table: none where it was not seen.
    fn entry(
        &mut self,
        old: &Interner,
        mark: Option<Seen>,
        table: &[IdList],
    ) -> Result<IdList, TermError>
        ensures bits { (marks : List (Option Seen)) (vs : Variables) (seen : Seen)
            (s : IsSeen old.now marks vs seen.id seen) → mark ≡ Some seen →
            IsTable old.now marks vs self.old.nodes table.now →
            length table.now ≡ place_of seen.id →
            IfOk result (λ list. AreBits self.new.nodes (ids_of list) (blasted vs s.term)) }
        ensures grows { (marks : List (Option Seen)) (vs : Variables) →
            IsTable old.now marks vs self.old.nodes table.now →
            IsNext old.now marks vs table.now mark →
            OnOk result (Grows self.old.nodes self.new.nodes 2048) }
    {
        match mark {
            Some(seen) => {
                let bits = self.node_bits(old, seen, table)?;
                IdList::new(self.alloc, bits.as_slice())
            }
            None => IdList::new(self.alloc, &[]),
        }
    }

    /// The bits of all old nodes that were seen, by place.
    fn table(&mut self, old: &Interner, marks: &[Option<Seen>]) -> Result<Vec<IdList>, TermError>
        ensures table { (ids : List NodeId) (vs : Variables) → HasSeen old.now marks.now ids vs →
            IfOk result (λ table. IsWholeTable old.now marks.now vs self.new.nodes table.items) }
        ensures grows { (ids : List NodeId) (vs : Variables) → HasSeen old.now marks.now ids vs →
            OnOk result (Grows self.old.nodes self.new.nodes (2048 * length marks.now)) }
    {
        let mut table = Vec::with_capacity(self.alloc, marks.len())?;
        for mark in marks {
            let bits = self.entry(old, *mark, table.as_slice())?;
            table.push(bits)?;
        }
        Ok(table)
    }

    /// The first bits of nodes, as the table has them.
    fn first_bits(&self, table: &[IdList], ids: &[NodeId]) -> Result<Vec<NodeId>, TermError>
        ensures { (uss : List (List PlainTerm)) →
            Related (HasBits self.now.nodes table.now) ids.now uss →
            IfOk result (λ bits. AreBits self.now.nodes bits.items (map (the_bit term_gates) uss)) }
    {
        let mut bits = Vec::with_capacity(self.alloc, ids.len())?;
        for id in ids {
            let bit = self.the_bit(bits_at(table, *id));
            bits.push(bit)?;
        }
        Ok(bits)
    }

    /// The new terms of roots, behind the bits of all old nodes that were seen.
    fn roots(
        &mut self,
        old: &Interner,
        marks: &[Option<Seen>],
        roots: &[NodeId],
    ) -> Result<IdList, TermError>
        ensures roots { (ids : List NodeId) (vs : Variables) (ts : List PlainTerm) →
            HasSeen old.now marks.now ids vs → StandFor old.now roots.now ts →
            AllByRecursion (IsMarked marks.now) roots.now →
            IfOk result (λ list. AreBits self.new.nodes (ids_of list) (map (root vs) ts)) }
        ensures grows { (ids : List NodeId) (vs : Variables) → HasSeen old.now marks.now ids vs →
            OnOk result (Grows self.old.nodes self.new.nodes (2048 * length marks.now)) }
    {
        let table = self.table(old, marks)?;
        let bits = self.first_bits(table.as_slice(), roots)?;
        IdList::new(self.alloc, bits.as_slice())
    }
}

/// New nodes, and the numbers of the new terms of roots.
pub(crate) fn new_nodes(
    alloc: Global,
    old: &Interner,
    marks: &[Option<Seen>],
    roots: &[NodeId],
) -> Result<(Interner, IdList), TermError>
    ensures roots { (ids : List NodeId) (vs : Variables) (ts : List PlainTerm) →
        HasSeen old.now marks.now ids vs → StandFor old.now roots.now ts →
        AllByRecursion (IsMarked marks.now) roots.now →
        IfOk result (λ r. StandFor r.0 (ids_of r.1) (map (root vs) ts)) }
    ensures few { (ids : List NodeId) (vs : Variables) → HasSeen old.now marks.now ids vs →
        IfOk result (λ r. length (nodes_of r.0) ≤ 3 + 2048 * length marks.now) }
{
    let mut gates = Gates::new(alloc)?;
    let outcome = gates.roots(old, marks, roots);
    let nodes = gates.into_nodes();
    Ok((nodes, outcome?))
}
