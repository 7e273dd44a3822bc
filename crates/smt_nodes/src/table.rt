// Nodes in their order, and a table that finds them.
ghost use Rattle.std.specs.Prelude.{◌≡◌, ◌<◌, ◌^◌, ◌++◌, ◌∷◌, [], Contains, IfNone, IfOk, IfSome};
ghost use Rattle.std.specs.Prelude.{None, OnErr, OnOk, Some, length, map};
ghost use Rattle.smt_nodes.specs.Index.{bits_of, first_at, has_parts, node_at, node_of, FindsByKey};
ghost use Rattle.smt_nodes.specs.Index.{FindsByLabel, FindsSame, IsIndex};
ghost use Rattle.smt_nodes.specs.View.{place_of, plain_node};

use crate::id::{IdList, NodeId};
use crate::node::{Label, Node};
use smt_bits::BitVec;
use smt_term::{TermError, TermPrim};
use std::alloc::Global;
use std::collections::BTreeMap;

// A node that is not the first one of its label, as the table finds it: by the number of the first one and by its parts. So to
// compare two keys is to compare numbers, and most keys have those numbers in them.
#[derive(PartialEq, Eq, PartialOrd, Ord, Drop)]
struct Key {
    first: NodeId,
    parts: IdList,
}

/// Nodes in the order in which they were entered. The node that was entered first of those with a label is found by the label,
/// and the others with the label by the number of the first one and by their parts. Most labels of literals, of variables, of
/// functions and of types have one node alone, which has no key.
pub(crate) struct Table {
    /// The nodes, in the order in which they were entered.
    pub(crate) nodes: Vec<Node>,
    // The first nodes of labels. A job has many literals of bits, so these have a map of their own, which holds no labels.
    firsts: BTreeMap<Label, NodeId>,
    bits: BTreeMap<BitVec, NodeId>,
    // The other nodes.
    ids: BTreeMap<Key, NodeId>,
}

// By hand, since a derived one is written out in each function that lets a table go.
impl Drop for Table {
    fn drop(self) {
        let Table {
            nodes: _,
            firsts: _,
            bits: _,
            ids: _,
        } = self;
    }
}

// The bits of which the label is a literal, None where it is no literal of bits.
fn bits_of(label: &Label) -> Option<BitVec>
    ensures { result ≡ bits_of label.now }
{
    match label {
        Label::Prim(literal) => match literal {
            TermPrim::Bitvec(bits) => Some(*bits),
            _ => None,
        },
        _ => None,
    }
}

impl Table {
    /// A table without nodes. Takes no memory.
    pub(crate) fn new(alloc: Global) -> Table
        ensures nodes { result.nodes.items ≡ [] }
        ensures index { IsIndex result }
    {
        Table {
            nodes: Vec::new(alloc),
            firsts: BTreeMap::new(alloc),
            bits: BTreeMap::new(alloc),
            ids: BTreeMap::new(alloc),
        }
    }

    /// The number of the node that was entered first of those with the label, None where no node has it. Takes no memory.
    pub(crate) fn first_of(&self, label: &Label) -> Option<NodeId>
        requires { IsIndex self.now }
        ensures first { result ≡ first_at self.now label.now }
        ensures within { IfSome result (λ id. place_of id < length self.now.nodes.items) }
    {
        match bits_of(label) {
            Some(bits) => self.bits.get(&bits).copied(),
            None => self.firsts.get(label).copied(),
        }
    }

    /// The number of a node that has these parts and the label of a first node, None where there is none.
    ///
    /// # Errors
    /// `Memory`, where there is none for the key.
    pub(crate) fn find(
        &self,
        alloc: Global,
        first: NodeId,
        parts: &[NodeId],
    ) -> Result<Option<NodeId>, TermError>
        requires index { IsIndex self.now }
        requires within { place_of first < length self.now.nodes.items }
        ensures found { (label : Label) → first_at self.now label ≡ Some first →
            IfOk result
            (λ found. IfSome found (λ id. node_at self.now id ≡ Some (node_of label parts.now))) }
        ensures missing { (label : Label) → first_at self.now label ≡ Some first →
            IfOk result (λ found.
            IfNone found
            (¬ Contains (map plain_node self.now.nodes.items) (node_of label parts.now))) }
    {
        if self.has_parts(first, parts) {
            return Ok(Some(first));
        }
        let key = Key {
            first,
            parts: IdList::new(alloc, parts)?,
        };
        Ok(self.ids.get(&key).copied())
    }

    // Whether these are the parts of the number's node.
    fn has_parts(&self, id: NodeId, parts: &[NodeId]) -> bool
        requires { place_of id < length self.now.nodes.items }
        ensures { result ≡ has_parts self.now id parts.now }
    {
        self.nodes[id.place()].parts.items() == parts
    }

    /// Enters a node by the first node of its label, and leaves the nodes as they were where there is no memory.
    ///
    /// # Errors
    /// `Memory`, where there is none for the node or for what finds it, or where no number is left.
    pub(crate) fn enter(&mut self, first: Option<NodeId>, node: Node) -> Result<NodeId, TermError>
        requires index { IsIndex self.old }
        requires first { first ≡ first_at self.old node.label }
        ensures place { IfOk result (λ id. place_of id ≡ length self.old.nodes.items) }
        ensures few { OnOk result (length self.old.nodes.items < 2 ^ 32) }
        ensures nodes { OnOk result (self.new.nodes.items ≡ self.old.nodes.items ++ node ∷ []) }
        ensures same_nodes { OnErr result (self.new.nodes.items ≡ self.old.nodes.items) }
        ensures index { IsIndex self.new }
    {
        let Ok(place) = u32::try_from(self.nodes.len()) else {
            return Err(TermError::Memory);
        };
        let id = NodeId { place };
        self.nodes.reserve(1)?;
        self.enter_id(first, &node, id)?;
        self.nodes.push(node)?;
        Ok(id)
    }

    // Lets the table find the number for the node: as the first one of its label where there is none, and else by its key.
    fn enter_id(&mut self, first: Option<NodeId>, node: &Node, id: NodeId) -> Result<(), TermError>
        ensures nodes { self.new.nodes ≡ self.old.nodes }
        ensures label { first ≡ None → OnOk result (FindsByLabel self.old self.new node.now id) }
        ensures key { (own : NodeId) → first ≡ Some own →
            OnOk result (FindsByKey self.old self.new own node.now id) }
        ensures same { OnErr result (FindsSame self.old self.new) }
    {
        match first {
            Some(first) => {
                let parts = node.parts.share()?;
                self.ids.insert(Key { first, parts }, id)?;
            }
            None => match bits_of(&node.label) {
                Some(bits) => {
                    self.bits.insert(bits, id)?;
                }
                None => {
                    self.firsts.insert(node.label.share()?, id)?;
                }
            },
        }
        Ok(())
    }
}
