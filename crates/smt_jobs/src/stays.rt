// Where nothing is folded: what the factory builds is the application itself.
ghost use Rattle.std.specs.Prelude.{◌≡◌, ◌∷◌, ◌||◌, [], IsTrue, false};
ghost use Rattle.law_terms.specs.Plain.{PlainTerm};
ghost use Rattle.law_terms.specs.TermOrder.{term_eq};
ghost use Rattle.smt_jobs.specs.Applied.{AreApart, Stays};
ghost use Rattle.smt_jobs.specs.Labels as kinds;
ghost use Rattle.smt_nodes.specs.Interned.{IsNumber};
ghost use Rattle.smt_term.specs.View.{plain_op};

use crate::look::{are_opposites, is_bits_negation, is_negation, is_open, is_truth};
use smt_nodes::{Interner, NodeId};
use smt_term::Op;

/// Whether it is `and` or `or`.
pub(crate) fn is_connective(op: &Op) -> bool
    ensures { result ≡ kinds.is_connective (plain_op op.now) }
{
    matches!(op, Op::And | Op::Or)
}

/// Whether it is equality.
pub(crate) fn is_equality(op: &Op) -> bool
    ensures { result ≡ kinds.is_equality (plain_op op.now) }
{
    matches!(op, Op::Eq)
}

/// Whether it is a choice.
pub(crate) fn is_choice(op: &Op) -> bool
    ensures { result ≡ kinds.is_choice (plain_op op.now) }
{
    matches!(op, Op::Ite)
}

/// Whether it goes from two bitvectors to one.
pub(crate) fn is_bits_operator(op: &Op) -> bool
    ensures { result ≡ kinds.is_bits_operator (plain_op op.now) }
{
    match op {
        Op::Bvadd | Op::Bvlshr | Op::Bvmul | Op::Bvsdiv | Op::Bvshl => true,
        Op::Bvsmod | Op::Bvsrem | Op::Bvsub | Op::Bvudiv | Op::Bvurem => true,
        _ => false,
    }
}

/// Whether it is a test of two bitvectors.
pub(crate) fn is_bits_test(op: &Op) -> bool
    ensures { result ≡ kinds.is_bits_test (plain_op op.now) }
{
    match op {
        Op::Bvsle | Op::Bvslt | Op::Bvule | Op::Bvult => true,
        Op::Bvsaddo | Op::Bvsmulo | Op::Bvssubo => true,
        _ => false,
    }
}

/// Whether it takes two bitvectors.
fn is_on_bits(op: &Op) -> bool
    ensures { result
        ≡ (kinds.is_bits_operator (plain_op op.now) || kinds.is_bits_test (plain_op op.now)) }
{
    is_bits_operator(op) || is_bits_test(op)
}

/// Whether the operator stays at one operand.
pub(crate) fn stays_at_one(nodes: &Interner, op: &Op, a: NodeId) -> bool
    ensures stays { (t : PlainTerm) → IsNumber nodes.now a t → IsTrue result →
        Stays (plain_op op.now) (t ∷ []) }
    ensures plain { (t : PlainTerm) → IsNumber nodes.now a t →
        IsTrue (kinds.is_unary (plain_op op.now)) → IsTrue (kinds.is_plain t) → IsTrue result }
{
    match op {
        Op::Not => !is_truth(nodes, a) && !is_negation(nodes, a),
        Op::Bvneg => is_open(nodes, a) && !is_bits_negation(nodes, a),
        Op::Bvnego => is_open(nodes, a),
        _ => false,
    }
}

/// Whether these differ, and none of them is `true` or `false`.
fn are_apart(nodes: &Interner, a: NodeId, b: NodeId) -> bool
    ensures apart { (t u : PlainTerm) → IsNumber nodes.now a t → IsNumber nodes.now b u →
        IsTrue result → AreApart t u }
    ensures plain { (t u : PlainTerm) → IsNumber nodes.now a t → IsNumber nodes.now b u →
        AreApart t u → IsTrue result }
{
    if a == b {
        return false;
    }
    if is_truth(nodes, a) {
        return false;
    }
    !is_truth(nodes, b)
}

/// Whether one of these is a variable or an application.
fn is_one_open(nodes: &Interner, a: NodeId, b: NodeId) -> bool
    ensures { (t u : PlainTerm) → IsNumber nodes.now a t → IsNumber nodes.now b u →
        result ≡ (kinds.is_open t || kinds.is_open u) }
{
    is_open(nodes, a) || is_open(nodes, b)
}

/// Whether the operator stays at two operands.
pub(crate) fn stays_at_two(nodes: &Interner, op: &Op, a: NodeId, b: NodeId) -> bool
    ensures stays { (t u : PlainTerm) → IsNumber nodes.now a t → IsNumber nodes.now b u →
        IsTrue result → Stays (plain_op op.now) (t ∷ u ∷ []) }
    ensures plain { (t u : PlainTerm) → IsNumber nodes.now a t → IsNumber nodes.now b u →
        IsTrue (kinds.is_binary (plain_op op.now)) → IsTrue (kinds.is_plain t) →
        IsTrue (kinds.is_plain u) → term_eq t u ≡ false → IsTrue result }
{
    if is_connective(op) {
        are_apart(nodes, a, b) && !are_opposites(nodes, a, b)
    } else if is_equality(op) {
        are_apart(nodes, a, b) && is_one_open(nodes, a, b)
    } else {
        is_on_bits(op) && is_one_open(nodes, a, b)
    }
}

/// Whether the operator stays at three operands.
pub(crate) fn stays_at_three(nodes: &Interner, op: &Op, a: NodeId, b: NodeId, c: NodeId) -> bool
    ensures stays { (g t u : PlainTerm) → IsNumber nodes.now a g → IsNumber nodes.now b t →
        IsNumber nodes.now c u → IsTrue result → Stays (plain_op op.now) (g ∷ t ∷ u ∷ []) }
    ensures plain { (g t u : PlainTerm) → IsNumber nodes.now a g → IsNumber nodes.now b t →
        IsNumber nodes.now c u → IsTrue (kinds.is_choice (plain_op op.now)) →
        IsTrue (kinds.is_plain g) → IsTrue (kinds.is_plain t) → IsTrue (kinds.is_plain u) →
        term_eq t u ≡ false → IsTrue result }
{
    if !is_choice(op) {
        return false;
    }
    if is_truth(nodes, a) {
        return false;
    }
    are_apart(nodes, b, c) && is_one_open(nodes, b, c)
}
