// The types that operators give to numbered terms.
ghost use Rattle.std.specs.Prelude.{◌≡◌, ◌∷◌, [], IfNone, IfSome, IsTrue, Some, false};
ghost use Rattle.law_terms.specs.Fits.{applies_no_function};
ghost use Rattle.law_terms.specs.Nodes.{ApplicationLabel, TypeMeaning};
ghost use Rattle.law_terms.specs.Plain.{BoolType, PlainTerm};
ghost use Rattle.smt_jobs.specs.Applied.{IsGiven, takes};
ghost use Rattle.smt_nodes.specs.Interned.{IsNumber, meaning_in};
ghost use Rattle.smt_term.specs.View.{plain_op};

use crate::look::{is_bits_type, type_at};
use crate::stays::{is_bits_operator, is_bits_test, is_choice, is_connective, is_equality};
use smt_nodes::{Interner, NodeId};
use smt_term::Op;

/// The type that an operator gives to one term, where it takes it. `truth` is the number of the type of truth values.
pub(crate) fn given_to_one(nodes: &Interner, op: &Op, truth: NodeId, a: NodeId) -> Option<NodeId>
    ensures given { (t : PlainTerm) → meaning_in nodes.now truth ≡ Some (TypeMeaning BoolType) →
        IsNumber nodes.now a t → IfSome result (IsGiven nodes.now (plain_op op.now) (t ∷ [])) }
    ensures none { (t : PlainTerm) → meaning_in nodes.now truth ≡ Some (TypeMeaning BoolType) →
        IsNumber nodes.now a t → IfNone result (takes (plain_op op.now) (t ∷ []) ≡ false) }
    ensures no_function { IfSome result
        (λ ty. IsTrue (applies_no_function (ApplicationLabel (plain_op op.now)))) }
{
    let own = type_at(nodes, a)?;
    match op {
        Op::Not => (own == truth).then_some(truth),
        Op::Bvneg => is_bits_type(nodes, own).then_some(own),
        Op::Bvnego => is_bits_type(nodes, own).then_some(truth),
        _ => None,
    }
}

/// The same of two terms.
pub(crate) fn given_to_two(
    nodes: &Interner,
    op: &Op,
    truth: NodeId,
    a: NodeId,
    b: NodeId,
) -> Option<NodeId>
    ensures given { (t u : PlainTerm) → meaning_in nodes.now truth ≡ Some (TypeMeaning BoolType) →
        IsNumber nodes.now a t → IsNumber nodes.now b u →
        IfSome result (IsGiven nodes.now (plain_op op.now) (t ∷ u ∷ [])) }
    ensures none { (t u : PlainTerm) → meaning_in nodes.now truth ≡ Some (TypeMeaning BoolType) →
        IsNumber nodes.now a t → IsNumber nodes.now b u →
        IfNone result (takes (plain_op op.now) (t ∷ u ∷ []) ≡ false) }
    ensures no_function { IfSome result
        (λ ty. IsTrue (applies_no_function (ApplicationLabel (plain_op op.now)))) }
{
    let own = type_at(nodes, a)?;
    if own != type_at(nodes, b)? {
        return None;
    }
    if is_equality(op) {
        Some(truth)
    } else if is_connective(op) {
        (own == truth).then_some(truth)
    } else if is_bits_operator(op) {
        is_bits_type(nodes, own).then_some(own)
    } else if is_bits_test(op) {
        is_bits_type(nodes, own).then_some(truth)
    } else {
        None
    }
}

/// The same of three terms.
pub(crate) fn given_to_three(
    nodes: &Interner,
    op: &Op,
    truth: NodeId,
    a: NodeId,
    b: NodeId,
    c: NodeId,
) -> Option<NodeId>
    ensures given { (g t u : PlainTerm) → meaning_in nodes.now truth ≡ Some (TypeMeaning BoolType) →
        IsNumber nodes.now a g → IsNumber nodes.now b t → IsNumber nodes.now c u →
        IfSome result (IsGiven nodes.now (plain_op op.now) (g ∷ t ∷ u ∷ [])) }
    ensures none { (g t u : PlainTerm) → meaning_in nodes.now truth ≡ Some (TypeMeaning BoolType) →
        IsNumber nodes.now a g → IsNumber nodes.now b t → IsNumber nodes.now c u →
        IfNone result (takes (plain_op op.now) (g ∷ t ∷ u ∷ []) ≡ false) }
    ensures no_function { IfSome result
        (λ ty. IsTrue (applies_no_function (ApplicationLabel (plain_op op.now)))) }
{
    let own = type_at(nodes, b)?;
    if is_choice(op) && type_at(nodes, a)? == truth && type_at(nodes, c)? == own {
        Some(own)
    } else {
        None
    }
}
