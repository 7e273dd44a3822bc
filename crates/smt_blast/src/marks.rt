// Which old nodes are seen.
use smt_nodes::NodeId;

/// An old node that a walk has seen, and how many variables were seen before it: of a variable its number.
#[derive(Clone, Copy)]
pub(crate) struct Seen {
    pub(crate) id: NodeId,
    pub(crate) number: usize,
}
