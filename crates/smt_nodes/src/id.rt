// The numbers of nodes, and lists of them.
ghost use Rattle.std.specs.Prelude.{◌≡◌, ◌↔◌, [], IfOk, IsTrue, length};
ghost use Rattle.std.specs.Cmp.{on_equiv, on_per, on_po, on_total};
ghost use Rattle.std.specs.Cmp.Lexicographic.{lists_agrees, lists_equiv, lists_per, lists_po};
ghost use Rattle.std.specs.Cmp.Lexicographic.{lists_ties, lists_total, pointwise};
ghost use Rattle.std.specs.Cmp.Lexicographic.{slice_cmp, slice_partial_cmp};
ghost use Rattle.smt_nodes.specs.View.{ids_of, place_of};
ghost use Rattle.smt_nodes.specs.contracts.id.NodeIdEq.TheImpl.Laws as id_equivalence_laws;
ghost use Rattle.smt_nodes.specs.contracts.id.NodeIdOrd.TheImpl as id_order;
ghost use Rattle.smt_nodes.specs.contracts.id.NodeIdOrd.TheImpl.Laws as id_order_laws;
ghost use Rattle.smt_nodes.specs.contracts.id.NodeIdPartialEq.TheImpl as id_equality;
ghost use Rattle.smt_nodes.specs.contracts.id.NodeIdPartialEq.TheImpl.Laws as id_equality_laws;
ghost use Rattle.smt_nodes.specs.contracts.id.NodeIdPartialOrd.TheImpl as id_partial_order;
ghost use Rattle.smt_nodes.specs.contracts.id.NodeIdPartialOrd.TheImpl.Laws as id_partial_order_laws;

use smt_term::TermError;
use std::alloc::Global;
use std::cmp::Ordering;
use std::fmt;
use std::rc::RcSlice;

/// The number of a node: its place in the interner that gave it. There are 2^32 of them.
#[derive(Clone, Copy, Debug, PartialEq, Eq, PartialOrd, Ord)]
pub struct NodeId {
    /// How many nodes stand before the node.
    pub place: u32,
}

impl NodeId {
    /// How many nodes stand before it.
    pub fn place(self) -> usize
        ensures { result ≡ place_of self }
    {
        self.place as usize
    }
}

/// A list of numbers in the order in which they were given. A short one lies in the list itself; the holders of a longer one
/// share it.
pub struct IdList {
    items: Items,
}

// By hand, since a derived one is written out in each function that lets a list go.
impl Drop for IdList {
    fn drop(self) {
        let IdList { items: _ } = self;
    }
}

// The numbers of a list. Those of most nodes are few, so they take no memory of their own.
#[derive(Drop)]
enum Items {
    Empty,
    One([NodeId; 1]),
    Two([NodeId; 2]),
    Three([NodeId; 3]),
    More(RcSlice<NodeId>),
}

impl IdList {
    /// The list of these numbers, in this order. Takes memory for more than three.
    ///
    /// # Errors
    /// `Memory`, where there is none for the list.
    pub fn new(alloc: Global, items: &[NodeId]) -> Result<IdList, TermError>
        ensures { IfOk result (λ list. ids_of list ≡ items.now) }
    {
        let items = match items {
            [] => Items::Empty,
            [first] => Items::One([*first]),
            [first, second] => Items::Two([*first, *second]),
            [first, second, third] => Items::Three([*first, *second, *third]),
            [_, _, _, _, ..] => Items::More(RcSlice::from_slice(alloc, items)?),
        };
        Ok(IdList { items })
    }

    /// How many numbers it has.
    pub fn len(&self) -> usize
        ensures { result ≡ length (ids_of self.now) }
    {
        self.items().len()
    }

    /// Whether it has none.
    pub fn is_empty(&self) -> bool
        ensures { IsTrue result ↔ (ids_of self.now ≡ []) }
    {
        self.items().is_empty()
    }

    /// The numbers, in order.
    pub fn items(&self) -> &[NodeId]
        ensures { result.now ≡ ids_of self.now }
    {
        match &self.items {
            Items::Empty => &[],
            Items::One(items) => items,
            Items::Two(items) => items,
            Items::Three(items) => items,
            Items::More(items) => items.as_slice(),
        }
    }

    /// An equal list that shares the numbers.
    ///
    /// # Errors
    /// `Memory`, where there is none for the list.
    pub fn share(&self) -> Result<IdList, TermError>
        ensures { IfOk result (λ list. ids_of list ≡ ids_of self.now) }
    {
        let items = match &self.items {
            Items::Empty => Items::Empty,
            Items::One(items) => Items::One(*items),
            Items::Two(items) => Items::Two(*items),
            Items::Three(items) => Items::Three(*items),
            Items::More(items) => Items::More(items.clone()?),
        };
        Ok(IdList { items })
    }
}

impl fmt::Debug for IdList {
    fn fmt<W: fmt::Write>(&self, f: &mut fmt::Formatter<W>) -> fmt::Result {
        f.debug_list().entries(self.items()).finish()
    }
}

impl PartialEq for IdList {
    ghost eq = { λ a b. pointwise id_equality.ghosts.eq (ids_of a) (ids_of b) };

    ghost laws = { on_per ids_of (lists_per id_equality_laws.laws-law) };

    fn eq(&self, other: &IdList) -> bool {
        self.items() == other.items()
    }
}

impl Eq for IdList {
    ghost laws = { on_equiv ids_of (lists_equiv id_equivalence_laws.laws-law) };
}

impl PartialOrd for IdList {
    ghost partial_cmp = { λ a b.
        slice_partial_cmp id_partial_order.ghosts.partial_cmp (ids_of a) (ids_of b) };

    ghost laws = { on_po ids_of (lists_po id_partial_order_laws.laws-law) };

    fn partial_cmp(&self, other: &IdList) -> Option<Ordering> {
        self.items().partial_cmp(&other.items())
    }
}

impl Ord for IdList {
    ghost cmp = { λ a b. slice_cmp id_order.ghosts.cmp (ids_of a) (ids_of b) };

    ghost total = { on_total ids_of (lists_total id_order_laws.total-law) };

    ghost matches_partial_cmp = { λ a b.
        lists_agrees id_order_laws.matches_partial_cmp-law (ids_of a) (ids_of b) };

    ghost matches_eq = { λ a b.
        lists_ties id_order.ghosts.cmp id_order_laws.matches_eq-law (ids_of a) (ids_of b) };

    fn cmp(&self, other: &IdList) -> Ordering {
        self.items().cmp(&other.items())
    }
}
