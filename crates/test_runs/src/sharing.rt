//! Shared sums stay shared where they are blasted.

ghost use Rattle.std.specs.Prelude.{◌≡◌, [], ◌∷◌, List};
ghost use Rattle.law_terms.specs.Plain.{PlainTerm};
ghost use Rattle.law_terms.specs.Typing.{AreBoolean};
ghost use Rattle.smt_nodes.specs.Interned.{KeepsMeanings, StandFor, meaning_for, meaning_in};
ghost use Rattle.smt_nodes.specs.View.{plain_label};
ghost use Rattle.test_runs.specs.Sums.{IsSum, node_of};

use crate::expected::expect_count;
use smt_bits::SIXTY_FOUR;
use smt_blast::blast;
use smt_nodes::{IdList, Interner, Label, Node, NodeId};
use smt_term::{Op, Text};
use std::alloc::Global;
use std::process::Abort;
use test_words::AMPLE;

/// The number of a sum, and that of its type.
#[derive(Clone, Copy)]
struct Sum {
    ty: NodeId,
    id: NodeId,
}

/// The number of a node, which fits.
fn added(
    rt: &impl Abort,
    alloc: Global,
    nodes: &mut Interner,
    label: Label,
    parts: &[NodeId],
) -> NodeId
    ensures meaning { meaning_in nodes.new result
        ≡ meaning_for nodes.old (node_of (plain_label label) parts.now) }
    ensures kept { KeepsMeanings nodes.old nodes.new }
{
    let node = Node {
        label,
        parts: IdList::new(alloc, parts).expect(rt, AMPLE),
    };
    assert!(rt; nodes.fits(&node), "the node fits");
    nodes.add(node).ok().expect(rt, AMPLE)
}

/// A variable of 64 bits.
fn variable(rt: &impl Abort, alloc: Global, nodes: &mut Interner) -> Sum
    ensures { IsSum nodes.new result.ty result.id }
{
    let ty = added(rt, alloc, nodes, Label::TBitvec(SIXTY_FOUR), &[]);
    let name = Text::from_str(alloc, "x").expect(rt, AMPLE);
    let id = added(rt, alloc, nodes, Label::Var(name), &[ty]);
    Sum { ty, id }
}

/// A sum, and itself added to it.
fn doubled(rt: &impl Abort, alloc: Global, nodes: &mut Interner, sum: Sum) -> Sum
    requires { IsSum nodes.old sum.ty sum.id }
    ensures { IsSum nodes.new result.ty result.id }
{
    let parts = [sum.ty, sum.id, sum.id];
    let id = added(rt, alloc, nodes, Label::App(Op::Bvadd), &parts);
    Sum { ty: sum.ty, id }
}

/// A variable of 64 bits that is doubled so many times.
fn doubled_often(rt: &impl Abort, alloc: Global, nodes: &mut Interner, times: u32) -> Sum
    ensures { IsSum nodes.new result.ty result.id }
{
    let mut sum = variable(rt, alloc, nodes);
    for _ in 0..times {
        sum = doubled(rt, alloc, nodes, sum);
    }
    sum
}

/// Whether the negation of a sum overflows.
fn overflows(rt: &impl Abort, alloc: Global, nodes: &mut Interner, sum: Sum) -> NodeId
    requires { IsSum nodes.old sum.ty sum.id }
    ensures { (ts : List PlainTerm) × StandFor nodes.new (result ∷ []) ts × AreBoolean ts }
{
    let truth = added(rt, alloc, nodes, Label::TBool, &[]);
    added(rt, alloc, nodes, Label::App(Op::Bvnego), &[truth, sum.id])
}

/// How often the variable is doubled.
const TIMES: u32 = 40;

/// The most new nodes that the test takes. A full adder has three gates a bit, so the sums of 64 bits have 3 * 64 * 40 of
/// them; the bits of the variable and what is asked of the last sum have fewer than two more sums. Measured were 7877.
const MOST: usize = 3 * 64 * 42;

/// As a tree the last sum has 2 to the 40 leaves.
#[test]
fn shared_sums_stay_small(rt: HostRuntime) {
    let alloc = rt.alloc();
    let mut nodes = Interner::new(alloc);
    let sum = doubled_often(&rt, alloc, &mut nodes, TIMES);
    let root = overflows(&rt, alloc, &mut nodes, sum);
    let blasted = blast(alloc, &nodes, &[root]).ok().expect(&rt, AMPLE);
    let count = blasted.nodes.len();
    assert!(rt; count <= MOST, "there are {count} new nodes");
    expect_count(&rt, "new terms of one root", blasted.roots.len(), 1);
    expect_count(
        &rt,
        "how often the variable is numbered",
        blasted.vars.len(),
        1,
    );
}
