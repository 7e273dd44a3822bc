//! The script of a sum that shares its terms.
//!
//! A variable of 64 bits is added to itself, the sum to itself, and so on, and the last sum is compared with the variable. As
//! a tree such a sum has 2 to the depth leaves, so that no tree of depth 40 is ever written out. By numbered nodes it has one
//! node a step, and its script one definition a step.
ghost use Rattle.std.specs.Prelude.{◌≡◌, ◌<◌};

use anyhow::{Result, bail};
use kembura::bits::SIXTY_FOUR;
use kembura::encode::Steps;
use kembura::nodes::{IdList, Interner, Label, Node, NodeId};
use kembura::{Encoder, EnumTable, ListSink, Op, Text};
use std::alloc::Global;
use std::sync::ledger::{Blank, Ledger};

/// The number of a node, which must fit.
fn added(alloc: Global, nodes: &mut Interner, label: Label, parts: &[NodeId]) -> Result<NodeId> {
    let node = Node {
        label,
        parts: IdList::new(alloc, parts)?,
    };
    if !nodes.fits(&node) {
        bail!("a node does not fit");
    }
    Ok(nodes.add(node)?)
}

/// A variable of 64 bits that is doubled so many times, compared with itself.
pub(crate) fn doubled(alloc: Global, nodes: &mut Interner, times: u32) -> Result<NodeId> {
    let bits = added(alloc, nodes, Label::TBitvec(SIXTY_FOUR), &[])?;
    let truth = added(alloc, nodes, Label::TBool, &[])?;
    let id = Text::from_str(alloc, "x")?;
    let variable = added(alloc, nodes, Label::Var(id), &[bits])?;
    let mut sum = variable;
    for _ in 0..times {
        sum = added(alloc, nodes, Label::App(Op::Bvadd), &[bits, sum, sum])?;
    }
    added(alloc, nodes, Label::App(Op::Eq), &[truth, sum, variable])
}

/// The script of the term for which a number stands, with its look-ups counted by a ledger of its own.
pub(crate) fn script_of<L: Ledger>(
    alloc: Global,
    nodes: Interner,
    id: NodeId,
    blank: Blank,
) -> Result<ListSink>
    requires name { blank.name ≡ L.name }
    requires parts { blank.parts ≡ L.parts }
    requires some { 0 < blank.parts }
{
    if !nodes.is_term(id) {
        bail!("the number stands for no term");
    }
    let enums = EnumTable::new(alloc);
    let mut encoder = Encoder::with_nodes(alloc, &enums, nodes, ListSink::new(alloc));
    let mut steps = Steps::<L>::new(blank);
    encoder.encode_nodes(&[id], &mut steps)?;
    Ok(encoder.into_script())
}
