// What numbered terms tell of foldings.
ghost use Rattle.std.specs.Prelude.{◌≡◌, IfNone, IfSome, Some, false};
ghost use Rattle.law_folding.specs.FoldConnectives.{are_opposites, is_negation as is_negation_of};
ghost use Rattle.law_terms.specs.Nodes.{TypeMeaning};
ghost use Rattle.law_terms.specs.Plain.{PlainTerm, PlainType};
ghost use Rattle.law_terms.specs.Types.{is_bits, type_of};
ghost use Rattle.smt_jobs.specs.Labels.{is_bits_negation, is_negation, is_open, is_truth};
ghost use Rattle.smt_nodes.specs.Interned.{IsNumber, meaning_in};

use crate::label::{
    is_bits_negation_label, is_bits_type_label, is_negation_label, is_open_label, is_truth_label,
};
use smt_nodes::{Interner, NodeId};

/// The number of a term's type.
pub(crate) fn type_at(nodes: &Interner, id: NodeId) -> Option<NodeId>
    ensures found { (t : PlainTerm) → IsNumber nodes.now id t →
        IfSome result (λ ty. meaning_in nodes.now ty ≡ Some (TypeMeaning (type_of t))) }
    ensures none { (t : PlainTerm) → IsNumber nodes.now id t → IfNone result ⊥ }
{
    nodes.parts(id).first().copied()
}

/// Whether a type is one of bitvectors.
pub(crate) fn is_bits_type(nodes: &Interner, ty: NodeId) -> bool
    ensures { (y : PlainType) → meaning_in nodes.now ty ≡ Some (TypeMeaning y) →
        result ≡ is_bits y }
{
    match nodes.label(ty) {
        Some(label) => is_bits_type_label(label),
        None => false,
    }
}

/// Whether a term is a variable or an application.
pub(crate) fn is_open(nodes: &Interner, id: NodeId) -> bool
    ensures { (t : PlainTerm) → IsNumber nodes.now id t → result ≡ is_open t }
{
    match nodes.label(id) {
        Some(label) => is_open_label(label),
        None => false,
    }
}

/// Whether a term is `true` or `false`.
pub(crate) fn is_truth(nodes: &Interner, id: NodeId) -> bool
    ensures { (t : PlainTerm) → IsNumber nodes.now id t → result ≡ is_truth t }
{
    match nodes.label(id) {
        Some(label) => is_truth_label(label),
        None => false,
    }
}

/// Whether a term is a negation of truth values.
pub(crate) fn is_negation(nodes: &Interner, id: NodeId) -> bool
    ensures { (t : PlainTerm) → IsNumber nodes.now id t → result ≡ is_negation t }
{
    match nodes.label(id) {
        Some(label) => is_negation_label(label),
        None => false,
    }
}

/// Whether a term is a negation of bitvectors.
pub(crate) fn is_bits_negation(nodes: &Interner, id: NodeId) -> bool
    ensures { (t : PlainTerm) → IsNumber nodes.now id t → result ≡ is_bits_negation t }
{
    match nodes.label(id) {
        Some(label) => is_bits_negation_label(label),
        None => false,
    }
}

/// Whether the second term is the negation of the first.
fn negates(nodes: &Interner, a: NodeId, b: NodeId) -> bool
    ensures none { (t u : PlainTerm) → IsNumber nodes.now a t → IsNumber nodes.now b u →
        result ≡ false → is_negation_of t u ≡ false }
    ensures plain { (u : PlainTerm) → IsNumber nodes.now b u → is_negation u ≡ false →
        result ≡ false }
{
    if !is_negation(nodes, b) {
        return false;
    }
    match nodes.parts(b) {
        [_, inner] => *inner == a,
        _ => true,
    }
}

/// Whether one of the two terms is the negation of the other.
pub(crate) fn are_opposites(nodes: &Interner, a: NodeId, b: NodeId) -> bool
    ensures none { (t u : PlainTerm) → IsNumber nodes.now a t → IsNumber nodes.now b u →
        result ≡ false → are_opposites t u ≡ false }
    ensures plain { (t u : PlainTerm) → IsNumber nodes.now a t → IsNumber nodes.now b u →
        is_negation t ≡ false → is_negation u ≡ false → result ≡ false }
{
    negates(nodes, a, b) || negates(nodes, b, a)
}
