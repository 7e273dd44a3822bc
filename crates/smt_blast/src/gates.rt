// Gates over numbered Boolean terms.
ghost use Rattle.std.specs.Prelude.{◌≡◌, ◌+◌, ◌≤◌, IfOk, IsTrue, List, OnOk, Some, false, length};
ghost use Rattle.std.specs.Prelude.{true};
ghost use Rattle.law_blasting.specs.OperatorCircuits.{term_gates};
ghost use Rattle.law_terms.specs.Meanings.{all_found, meanings, stands_for};
ghost use Rattle.law_terms.specs.Nodes.{Meaning, TypeMeaning};
ghost use Rattle.law_terms.specs.Plain.{BoolLiteral, BoolType, LiteralTerm, PlainTerm};
ghost use Rattle.smt_nodes.specs.Interned.{meaning_in, nodes_of, KeepsMeanings};
ghost use Rattle.smt_nodes.specs.Kinds.{is_bool_at};
ghost use Rattle.smt_nodes.specs.View.{places_of, plain_label};
ghost use Rattle.smt_blast.specs.Standing.{is_truth_at, Grows, Stands};

use smt_nodes::{IdList, Interner, Label, Node, NodeId};
use smt_term::{Op, TermError, TermPrim};
use std::alloc::Global;

/// New nodes, with the numbers of the Boolean type and of the two Boolean literals. They end by `into_nodes`.
pub(crate) struct Gates {
    pub(crate) alloc: Global,
    pub(crate) nodes: Interner,
    bool_type: NodeId,
    no: NodeId,
    yes: NodeId,
    ghost type_known: { IsTrue (is_bool_at (meaning_in nodes bool_type)) },
    ghost no_known: { IsTrue (is_truth_at false (meaning_in nodes no)) },
    ghost yes_known: { IsTrue (is_truth_at true (meaning_in nodes yes)) },
}

/// The number of the node of a label and of parts. A node that does not fit, which no gate has, gets the answer of no memory.
fn enter(
    alloc: Global,
    nodes: &mut Interner,
    label: Label,
    parts: &[NodeId],
) -> Result<NodeId, TermError>
    ensures meaning { (ms : List Meaning) →
        all_found (meanings (nodes_of nodes.old)) (places_of parts.now) ≡ Some ms →
        IfOk result (λ id. meaning_in nodes.new id ≡ stands_for (plain_label label) ms) }
    ensures kept { KeepsMeanings nodes.old nodes.new }
    ensures few { OnOk result (length (nodes_of nodes.new) ≤ length (nodes_of nodes.old) + 1) }
{
    let parts = IdList::new(alloc, parts)?;
    let node = Node { label, parts };
    if nodes.fits(&node) {
        nodes.add(node)
    } else {
        Err(TermError::Memory)
    }
}

impl Gates {
    /// The Boolean type and the two Boolean literals, and no other node.
    pub(crate) fn new(alloc: Global) -> Result<Gates, TermError>
        ensures { IfOk result (λ gates. length (nodes_of gates.nodes) ≤ 3) }
    {
        let mut nodes = Interner::new(alloc);
        let bool_type = enter(alloc, &mut nodes, Label::TBool, &[])?;
        let no = enter(
            alloc,
            &mut nodes,
            Label::Prim(TermPrim::Bool(false)),
            &[bool_type],
        )?;
        let yes = enter(
            alloc,
            &mut nodes,
            Label::Prim(TermPrim::Bool(true)),
            &[bool_type],
        )?;
        Ok(Gates {
            alloc,
            nodes,
            bool_type,
            no,
            yes,
        })
    }

    /// The new nodes.
    pub(crate) fn into_nodes(self) -> Interner
        ensures { result ≡ self.nodes }
    {
        let Gates {
            alloc: _,
            nodes,
            bool_type: _,
            no: _,
            yes: _,
        } = self;
        nodes
    }

    /// The number of the Boolean type.
    pub(crate) fn bool_type(&self) -> NodeId
        ensures { meaning_in self.now.nodes result ≡ Some (TypeMeaning BoolType) }
    {
        self.bool_type
    }

    /// The number of the literal `false`.
    pub(crate) fn no(&self) -> NodeId
        ensures { Stands self.now.nodes result term_gates.no }
    {
        self.no
    }

    /// The number of the literal `true`.
    pub(crate) fn yes(&self) -> NodeId
        ensures { Stands self.now.nodes result term_gates.yes }
    {
        self.yes
    }

    /// The number of a Boolean literal.
    pub(crate) fn literal(&self, truth: bool) -> NodeId
        ensures { Stands self.now.nodes result (LiteralTerm (BoolLiteral truth)) }
    {
        if truth { self.yes } else { self.no }
    }

    // The number of the node of a label and of parts.
    pub(crate) fn enter(&mut self, label: Label, parts: &[NodeId]) -> Result<NodeId, TermError>
        ensures meaning { (ms : List Meaning) →
            all_found (meanings (nodes_of self.old.nodes)) (places_of parts.now) ≡ Some ms →
            IfOk result (λ id. meaning_in self.new.nodes id ≡ stands_for (plain_label label) ms) }
        ensures grows { OnOk result (Grows self.old.nodes self.new.nodes 1) }
    {
        enter(self.alloc, &mut self.nodes, label, parts)
    }

    /// Negation.
    pub(crate) fn not(&mut self, a: NodeId) -> Result<NodeId, TermError>
        ensures bit { (u : PlainTerm) → Stands self.old.nodes a u →
            IfOk result (λ id. Stands self.new.nodes id (term_gates.not u)) }
        ensures grows { OnOk result (Grows self.old.nodes self.new.nodes 1) }
    {
        self.enter(Label::App(Op::Not), &[self.bool_type, a])
    }

    /// Conjunction.
    pub(crate) fn and(&mut self, a: NodeId, b: NodeId) -> Result<NodeId, TermError>
        ensures bit { (u v : PlainTerm) → Stands self.old.nodes a u → Stands self.old.nodes b v →
            IfOk result (λ id. Stands self.new.nodes id (term_gates.and u v)) }
        ensures grows { OnOk result (Grows self.old.nodes self.new.nodes 1) }
    {
        self.enter(Label::App(Op::And), &[self.bool_type, a, b])
    }

    /// Disjunction.
    pub(crate) fn or(&mut self, a: NodeId, b: NodeId) -> Result<NodeId, TermError>
        ensures bit { (u v : PlainTerm) → Stands self.old.nodes a u → Stands self.old.nodes b v →
            IfOk result (λ id. Stands self.new.nodes id (term_gates.or u v)) }
        ensures grows { OnOk result (Grows self.old.nodes self.new.nodes 1) }
    {
        self.enter(Label::App(Op::Or), &[self.bool_type, a, b])
    }

    /// Equality.
    pub(crate) fn eq(&mut self, a: NodeId, b: NodeId) -> Result<NodeId, TermError>
        ensures bit { (u v : PlainTerm) → Stands self.old.nodes a u → Stands self.old.nodes b v →
            IfOk result (λ id. Stands self.new.nodes id (term_gates.eq u v)) }
        ensures grows { OnOk result (Grows self.old.nodes self.new.nodes 1) }
    {
        self.enter(Label::App(Op::Eq), &[self.bool_type, a, b])
    }

    /// A choice by the first.
    pub(crate) fn ite(&mut self, a: NodeId, b: NodeId, c: NodeId) -> Result<NodeId, TermError>
        ensures bit { (u v w : PlainTerm) → Stands self.old.nodes a u → Stands self.old.nodes b v →
            Stands self.old.nodes c w →
            IfOk result (λ id. Stands self.new.nodes id (term_gates.ite u v w)) }
        ensures grows { OnOk result (Grows self.old.nodes self.new.nodes 1) }
    {
        self.enter(Label::App(Op::Ite), &[self.bool_type, a, b, c])
    }
}
