// How a node is written: as it stands, as an equality, as `false`, or as a call.
#![tactic(auto, using(smt_term::specs::View::views))]

ghost use Rattle.std.specs.Prelude.{◌≡◌, ◌∷◌, List, IfOk, Some, map, option_map};
ghost use Rattle.smt_bits.specs.Width.{bits_in};
ghost use Rattle.smt_spelling.specs.Renderings.{plain_rendering, written_ids};
ghost use Rattle.smt_spelling.specs.NodeEntries.{is_call_label, is_negation_label, is_truth_type};
ghost use Rattle.smt_spelling.specs.NodeEntries.{rendering_in, second_last, width_of_type};
ghost use Rattle.smt_spelling.specs.NodeEntries.{written_parts, Rendered};
ghost use Rattle.smt_spelling.specs.NodeTexts.{IsNodeOf};
ghost use Rattle.law_terms.specs.Meanings.{all_found, meanings};
ghost use Rattle.law_terms.specs.Nodes.{Meaning, TermMeaning, TypeMeaning};
ghost use Rattle.smt_nodes.specs.Interned.{IsNumber, meaning_in, nodes_of};
ghost use Rattle.smt_nodes.specs.View.{places_of, plain_label};
ghost use Rattle.law_lines.specs.Lines as lines;
ghost use Rattle.law_terms.specs.Plain.{PlainTerm, PlainType, terms};
ghost use Rattle.law_terms.specs.Types.{type_of};

use smt_bits::Width;
use smt_nodes::{Interner, Label, Node, NodeId};
use smt_term::Op;
use std::alloc::{AllocError, Global};

/// This is how a node is written.
#[derive(Clone, Copy)]
pub enum Rendering {
    /// It is written as it stands, an application by its operator.
    Application,
    /// It is written as a call, whose function stands behind its arguments.
    Call,
    /// It is written as the equality of its operand with the least number of this width.
    EqualsIntMin(Width),
    /// It is written as `false`, without a line.
    False,
}

/// It says how a node is written, among these nodes. It takes no memory.
///
/// The overflow of a negation is written without its operator: it overflows exactly at the least number of its width,
/// and what is no bitvector does not overflow.
pub fn rendering_of(nodes: &Interner, node: &Node) -> Rendering
    ensures { (id : NodeId) (m : Meaning) → meaning_in nodes.now id ≡ Some m →
        IsNodeOf nodes.now id node.now → plain_rendering result ≡ rendering_in m }
{
    if is_negation_test(&node.label) {
        negation_rendering(nodes, node.parts.items())
    } else if is_call(&node.label) {
        Rendering::Call
    } else {
        Rendering::Application
    }
}

/// Whether this is the overflow test of a negation.
fn is_negation_test(label: &Label) -> bool
    ensures { result ≡ is_negation_label (plain_label label.now) }
{
    matches!(label, Label::App(Op::Bvnego))
}

/// Whether this is a function at arguments.
fn is_call(label: &Label) -> bool
    ensures { result ≡ is_call_label (plain_label label.now) }
{
    matches!(label, Label::Call)
}

/// How the overflow of a negation is written, by its type and its operands: it is a test of one operand.
fn negation_rendering(nodes: &Interner, parts: &[NodeId]) -> Rendering
    ensures { (type : PlainType) (ts : List PlainTerm) →
        all_found (meanings (nodes_of nodes.now)) (places_of parts.now) ≡ Some
        (TypeMeaning type ∷ map TermMeaning ts) →
        plain_rendering result ≡ Rendered (lines.negation_rendering (terms ts) type) }
{
    if parts.len() != 2 {
        return Rendering::Application;
    }
    if is_truth(nodes, parts[0]) {
        least_rendering(nodes, parts[1])
    } else {
        Rendering::Application
    }
}

/// Whether a type is that of truth values.
fn is_truth(nodes: &Interner, ty: NodeId) -> bool
    ensures { (t : PlainType) → meaning_in nodes.now ty ≡ Some (TypeMeaning t) →
        result ≡ is_truth_type t }
{
    matches!(nodes.label(ty), Some(Label::TBool))
}

/// The width of a type of bitvectors, None of another type.
fn width_in(nodes: &Interner, ty: NodeId) -> Option<Width>
    ensures { (t : PlainType) → meaning_in nodes.now ty ≡ Some (TypeMeaning t) →
        option_map bits_in result ≡ width_of_type t }
{
    match nodes.label(ty)? {
        Label::TBitvec(width) => Some(*width),
        _ => None,
    }
}

/// How the overflow of this operand's negation is written.
fn least_rendering(nodes: &Interner, operand: NodeId) -> Rendering
    ensures { (t : PlainTerm) → IsNumber nodes.now operand t →
        plain_rendering result ≡ Rendered (lines.least_rendering (type_of t)) }
{
    let parts = nodes.parts(operand);
    if parts.is_empty() {
        return Rendering::False;
    }
    match width_in(nodes, parts[0]) {
        Some(width) => Rendering::EqualsIntMin(width),
        None => Rendering::False,
    }
}

/// These are the parts that are written before a node, in order: parts as they stand, or the same in another order.
#[derive(Drop)]
pub enum WrittenParts<'a> {
    /// They are borrowed, as they stand.
    Given(&'a [NodeId]),
    /// They stand in another order, in a list of their own.
    Ordered(Vec<NodeId>),
}

impl WrittenParts<'_> {
    /// These are their numbers. It takes no memory.
    pub fn items(&self) -> &[NodeId]
        ensures { result.now ≡ written_ids self.now }
    {
        match self {
            WrittenParts::Given(parts) => parts,
            WrittenParts::Ordered(parts) => parts.as_slice(),
        }
    }
}

/// The parts of a call, the function behind the arguments.
fn function_last(alloc: Global, parts: &[NodeId]) -> Result<Vec<NodeId>, AllocError>
    ensures { IfOk result (λ order. order.items ≡ second_last parts.now) }
{
    let mut order = Vec::with_capacity(alloc, parts.len())?;
    match parts {
        [ty, function, arguments @ ..] => {
            order.push(*ty)?;
            order.extend_from_slice(arguments)?;
            order.push(*function)?;
        }
        _ => order.extend_from_slice(parts)?,
    }
    Ok(order)
}

impl Rendering {
    /// It gives the parts that are written before the node, in order: all, but for what is written as `false`, of which it is
    /// the type alone. It takes memory for a call alone.
    ///
    /// # Errors
    ///
    /// Only that there is no memory.
    pub fn written(self, alloc: Global, parts: &[NodeId]) -> Result<WrittenParts<'_>, AllocError>
        ensures { IfOk result
            (λ written. written_ids written ≡ written_parts (plain_rendering self) parts.now) }
    {
        Ok(match self {
            Rendering::Application | Rendering::EqualsIntMin(_) => WrittenParts::Given(parts),
            Rendering::Call => WrittenParts::Ordered(function_last(alloc, parts)?),
            Rendering::False => match parts {
                [] => WrittenParts::Given(parts),
                [..] => WrittenParts::Given(&parts[..1]),
            },
        })
    }
}
