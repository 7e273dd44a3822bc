// The rows, answered one after the other.
use crate::expected::expect_text;
use crate::labels;
use crate::node_tables::TABLES;
use anyhow::{Context, Result};
use smt_nodes::{IdList, Interner, Label, Node, NodeId};
use smt_term::Term;
use std::alloc::Global;
use std::process::Abort;
use test_words::{one, terms};

/// How many places a row can name.
const PLACES: usize = 64;

/// The numbers of the first places: those of truth values, of options of these, and so on.
fn numbers(alloc: Global) -> Result<Vec<NodeId>> {
    let mut numbers = Vec::new(alloc);
    let mut nodes = Interner::new(alloc);
    let mut node = Node {
        label: Label::TBool,
        parts: IdList::new(alloc, &[])?,
    };
    for _ in 0..PLACES {
        let Some(number) = added(&mut nodes, node)? else {
            break;
        };
        numbers.push(number)?;
        node = Node {
            label: Label::TOption,
            parts: IdList::new(alloc, &[number])?,
        };
    }
    Ok(numbers)
}

/// The number of a node, None where it does not fit.
fn added(nodes: &mut Interner, node: Node) -> Result<Option<NodeId>> {
    if nodes.fits(&node) {
        Ok(Some(nodes.add(node)?))
    } else {
        Ok(None)
    }
}

/// The node of a row, whose parts have these places.
fn node(alloc: Global, numbers: &[NodeId], label: &str, places: &str) -> Result<Node> {
    let mut parts = Vec::new(alloc);
    for place in places.split_whitespace() {
        let place: usize = place.parse()?;
        parts.push(*numbers.get(place).context("no such place")?)?;
    }
    Ok(Node {
        label: labels::label(alloc, label)?,
        parts: IdList::new(alloc, parts.as_slice())?,
    })
}

/// The place of a number and how many nodes there are then; these words where there is no number.
fn placed(alloc: Global, nodes: &Interner, id: Option<NodeId>, none: &str) -> Result<String> {
    Ok(match id {
        Some(id) => {
            let (place, count) = (id.place(), nodes.len());
            format!(in alloc; "{place} of {count}")?
        }
        None => format!(in alloc; "{none}")?,
    })
}

/// The last term of these words.
fn term(alloc: Global, words: &str) -> Result<Term> {
    one(&mut terms(alloc, words)?)
}

/// What a row gets: its number and how many nodes there are then, and for a term that is entered how many parts its node has.
fn answer(alloc: Global, nodes: &mut Interner, numbers: &[NodeId], row: &str) -> Result<String> {
    let (label, rest) = row.split_once(' ').unwrap_or((row, ""));
    match label {
        "find" => {
            let id = nodes.find(&term(alloc, rest)?);
            placed(alloc, nodes, id, "not found")
        }
        "term" => {
            let id = nodes.intern(&term(alloc, rest)?)?;
            let parts = nodes.node(id).context("no node")?.parts.len();
            let place = placed(alloc, nodes, Some(id), "")?;
            Ok(format!(in alloc; "{place}, {parts} parts")?)
        }
        _ => {
            let id = added(nodes, node(alloc, numbers, label, rest)?)?;
            placed(alloc, nodes, id, "does not fit")
        }
    }
}

/// Expects of each row of a table that it gets the number that stands behind it, in an interner of the table's own.
fn expect_table(rt: &impl Abort, alloc: Global, numbers: &[NodeId], table: &str) {
    let mut nodes = Interner::new(alloc);
    for line in table.lines() {
        let (row, stated) = line.split_once(" = ").expect(rt, "a row and its number");
        let said = answer(alloc, &mut nodes, numbers, row);
        let said = said.expect(rt, "the row says a node or a term");
        expect_text(rt, row, said.as_str(), stated);
    }
}

#[test]
fn rows_get_numbers(rt: HostRuntime) {
    let numbers = numbers(rt.alloc()).expect(&rt, "there is memory for the test");
    for table in TABLES {
        expect_table(&rt, rt.alloc(), numbers.as_slice(), table);
    }
}
