// Operators at numbered terms.
ghost use Rattle.std.specs.Prelude.{◌≡◌, ◌∷◌, [], IfNone, IfOk, IfSome, IsTrue, List, Some, false};
ghost use Rattle.law_terms.specs.Fits.{applies_no_function};
ghost use Rattle.law_terms.specs.Meanings.{all_found, meanings};
ghost use Rattle.law_terms.specs.Nodes.{ApplicationLabel, TypeMeaning};
ghost use Rattle.law_terms.specs.Plain.{Application, BoolType, PlainTerm, PlainType, terms};
ghost use Rattle.smt_jobs.specs.Applied.{ArePartsOf, IsBuilt, StandForTerms, is_plainly_applied};
ghost use Rattle.smt_nodes.specs.Interned.{IsNumber, KeepsMeanings, StandFor, meaning_in, nodes_of};
ghost use Rattle.smt_nodes.specs.View.{places_of};
ghost use Rattle.smt_term.specs.View.{plain_op};

use crate::given::{given_to_one, given_to_three, given_to_two};
use crate::stays::{stays_at_one, stays_at_three, stays_at_two};
use smt_nodes::{IdList, Interner, Label, Node, NodeId, Subject};
use smt_term::{Op, TermError, TermType};
use std::alloc::Global;

/// The number of the operator's application whose parts are these: the type that it gives, and its operands.
fn enter(
    nodes: &mut Interner,
    alloc: Global,
    op: &Op,
    parts: &[NodeId],
) -> Result<Option<NodeId>, TermError>
    requires no_function { IsTrue (applies_no_function (ApplicationLabel (plain_op op.now))) }
    requires parts { (ty : PlainType) × (ts : List PlainTerm)
        × ArePartsOf nodes.old parts.now ty ts }
    ensures meaning { (ty : PlainType) (ts : List PlainTerm) →
        ArePartsOf nodes.old parts.now ty ts →
        IfOk result (λ found.
        IfSome found (λ id. IsNumber nodes.new id (Application (plain_op op.now) (terms ts) ty))) }
    ensures some { IfOk result (λ found. IfNone found ⊥) }
    ensures kept { KeepsMeanings nodes.old nodes.new }
{
    let node = Node {
        label: Label::App(op.share()?),
        parts: IdList::new(alloc, parts)?,
    };
    Ok(Some(nodes.add(node)?))
}

/// The application to one term.
fn applied_to_one(
    nodes: &mut Interner,
    alloc: Global,
    op: &Op,
    truth: NodeId,
    a: NodeId,
) -> Result<Option<NodeId>, TermError>
    requires truth { meaning_in nodes.old truth ≡ Some (TypeMeaning BoolType) }
    requires a { (t : PlainTerm) × (IsNumber nodes.old a t) }
    ensures built { (t : PlainTerm) → IsNumber nodes.old a t →
        IfOk result (λ found. IfSome found (IsBuilt nodes.new (plain_op op.now) (t ∷ []))) }
    ensures none { (t : PlainTerm) → IsNumber nodes.old a t →
        IfOk result
        (λ found. IfNone found (is_plainly_applied (plain_op op.now) (t ∷ []) ≡ false)) }
    ensures kept { KeepsMeanings nodes.old nodes.new }
{
    let Some(ty) = given_to_one(nodes, op, truth, a) else {
        return Ok(None);
    };
    if stays_at_one(nodes, op, a) {
        enter(nodes, alloc, op, &[ty, a])
    } else {
        Ok(None)
    }
}

/// The application to two terms.
fn applied_to_two(
    nodes: &mut Interner,
    alloc: Global,
    op: &Op,
    truth: NodeId,
    a: NodeId,
    b: NodeId,
) -> Result<Option<NodeId>, TermError>
    requires truth { meaning_in nodes.old truth ≡ Some (TypeMeaning BoolType) }
    requires a { (t : PlainTerm) × (IsNumber nodes.old a t) }
    requires b { (t : PlainTerm) × (IsNumber nodes.old b t) }
    ensures built { (t u : PlainTerm) → IsNumber nodes.old a t → IsNumber nodes.old b u →
        IfOk result (λ found. IfSome found (IsBuilt nodes.new (plain_op op.now) (t ∷ u ∷ []))) }
    ensures none { (t u : PlainTerm) → IsNumber nodes.old a t → IsNumber nodes.old b u →
        IfOk result
        (λ found. IfNone found (is_plainly_applied (plain_op op.now) (t ∷ u ∷ []) ≡ false)) }
    ensures kept { KeepsMeanings nodes.old nodes.new }
{
    let Some(ty) = given_to_two(nodes, op, truth, a, b) else {
        return Ok(None);
    };
    if stays_at_two(nodes, op, a, b) {
        enter(nodes, alloc, op, &[ty, a, b])
    } else {
        Ok(None)
    }
}

/// The application to three terms.
fn applied_to_three(
    nodes: &mut Interner,
    alloc: Global,
    op: &Op,
    truth: NodeId,
    a: NodeId,
    b: NodeId,
    c: NodeId,
) -> Result<Option<NodeId>, TermError>
    requires truth { meaning_in nodes.old truth ≡ Some (TypeMeaning BoolType) }
    requires a { (t : PlainTerm) × (IsNumber nodes.old a t) }
    requires b { (t : PlainTerm) × (IsNumber nodes.old b t) }
    requires c { (t : PlainTerm) × (IsNumber nodes.old c t) }
    ensures built { (g t u : PlainTerm) → IsNumber nodes.old a g → IsNumber nodes.old b t →
        IsNumber nodes.old c u →
        IfOk result (λ found. IfSome found (IsBuilt nodes.new (plain_op op.now) (g ∷ t ∷ u ∷ []))) }
    ensures none { (g t u : PlainTerm) → IsNumber nodes.old a g → IsNumber nodes.old b t →
        IsNumber nodes.old c u →
        IfOk result
        (λ found. IfNone found (is_plainly_applied (plain_op op.now) (g ∷ t ∷ u ∷ []) ≡ false)) }
    ensures kept { KeepsMeanings nodes.old nodes.new }
{
    let Some(ty) = given_to_three(nodes, op, truth, a, b, c) else {
        return Ok(None);
    };
    if stays_at_three(nodes, op, a, b, c) {
        enter(nodes, alloc, op, &[ty, a, b, c])
    } else {
        Ok(None)
    }
}

/// The number of what the factory builds for an operator at the terms of these numbers, where the operator takes them and it is
/// seen at their nodes that nothing is folded, so that it is the application itself. It is `None` where it is not typed, where
/// something may be folded, and for the operators that are none of `not`, `and`, `or`, `eq`, `ite` and those from bitvectors to
/// bitvectors or truth values, but for `zero_extend`: then the factory is asked. It is never `None` where one of these operators
/// takes the terms, and they are different variables and applications without negations.
///
/// # Errors
///
/// `Memory`, where there is none for the node.
pub fn applied(
    nodes: &mut Interner,
    alloc: Global,
    op: &Op,
    operands: &[NodeId],
) -> Result<Option<NodeId>, TermError>
    requires operands { StandForTerms nodes.old operands.now }
    ensures built { (ts : List PlainTerm) → StandFor nodes.old operands.now ts →
        IfOk result (λ found. IfSome found (IsBuilt nodes.new (plain_op op.now) ts)) }
    ensures none { (ts : List PlainTerm) → StandFor nodes.old operands.now ts →
        IfOk result (λ found. IfNone found (is_plainly_applied (plain_op op.now) ts ≡ false)) }
    ensures kept { KeepsMeanings nodes.old nodes.new }
{
    let truth = nodes.intern_subject(Subject::Type(&TermType::Bool))?;
    match operands {
        [a] => applied_to_one(nodes, alloc, op, truth, *a),
        [a, b] => applied_to_two(nodes, alloc, op, truth, *a, *b),
        [a, b, c] => applied_to_three(nodes, alloc, op, truth, *a, *b, *c),
        _ => Ok(None),
    }
}
