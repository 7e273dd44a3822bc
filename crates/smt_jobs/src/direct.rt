#![tactic(auto, using(smt_term::specs::View::views, smt_sexpr::specs::View::views))]
// Terms of jobs, read from their bytes as numbered nodes: without an expression, and without a term where nothing is folded.
// What these functions do not read, `term.rt` reads; so they give terms alone, and no refusal.
ghost use Rattle.std.specs.Prelude.{ℕ, List, ◌≡◌, ◌<◌, ◌∷◌, [], IfOk, IfSome, IsTrue, Some, codes};
ghost use Rattle.std.specs.Prelude.{length, option_and_then, option_map};
ghost use Rattle.std.specs.Bool.{then_some};
ghost use Rattle.law_jobs.specs.Terms.{bits_literal as bits_stated};
ghost use Rattle.law_jobs.specs.Terms.{operator_named as operator_stated};
ghost use Rattle.law_numbers.specs.Widths.{is_width};
ghost use Rattle.law_terms.specs.Nodes.{TypeMeaning};
ghost use Rattle.law_texts.specs.Lexicon.{Begin, Name, Word};
ghost use Rattle.law_texts.specs.Tokens.{Spans};
ghost use Rattle.law_texts.specs.Reads.{IfRead};
ghost use Rattle.smt_jobs.specs.Direct.{is_atomic as atomic, IsConditionNumbered, IsNumbered};
ghost use Rattle.smt_jobs.specs.Direct.{ReadsBehind, ReadsOf, with_head};
ghost use Rattle.smt_nodes.specs.Interned.{IsNumber, KeepsMeanings, meaning_in};
ghost use Rattle.smt_term.specs.View.{plain_op, plain_term, plain_type, plain_variable};

use crate::applied;
use smt_bits::Width;
use smt_job_terms::{Declared, bits_literal, operator_named, term_from};
use smt_nodes::{Interner, Label, NodeId, Subject};
use smt_sexpr::{behind_close, behind_open, name_at, number_at, plain_text_at, read_next};
use smt_term::{Op, Term, TermError, TermType, TermVar};
use std::alloc::Global;

/// What was read at the front of a text: the number of a term, and what stands behind it; `None` where it is left to others.
type Front<'t> = Result<Option<(NodeId, &'t [u8])>, TermError>;

/// Numbers by the places of the declared variables. A number is tested before it is used, so any number may stand here.
pub(crate) type Known = Vec<NodeId>;

/// Whether a type has no types inside it.
fn is_atomic(ty: &TermType) -> bool
    ensures { result ≡ atomic (plain_type ty.now) }
{
    match ty {
        TermType::Bitvec { .. } | TermType::Bool | TermType::Entity { .. } => true,
        TermType::Ext { .. } | TermType::String => true,
        TermType::Option { .. } | TermType::Record { .. } | TermType::Set { .. } => false,
    }
}

/// Whether the number stands for a type. It is denied of a type that has types inside it.
fn is_type(nodes: &Interner, id: NodeId, ty: &TermType) -> bool
    ensures { IsTrue result → meaning_in nodes.now id ≡ Some (TypeMeaning (plain_type ty.now)) }
{
    let Some(label) = nodes.label(id) else {
        return false;
    };
    if !is_atomic(ty) {
        return false;
    }
    label.is_of_type(ty)
}

/// Whether the number stands for a variable. It is denied of a variable whose type has types inside it.
fn is_variable(nodes: &Interner, id: NodeId, variable: &TermVar) -> bool
    ensures { IsTrue result → IsNumber nodes.now id (plain_variable variable.now) }
{
    let Some(Label::Var(own)) = nodes.label(id) else {
        return false;
    };
    if *own != variable.id {
        return false;
    }
    match nodes.parts(id) {
        [ty] => is_type(nodes, *ty, &variable.ty),
        _ => false,
    }
}

/// Puts a number at a place.
fn remember(known: &mut Known, place: usize, id: NodeId) -> Result<(), TermError> {
    for _ in known.len()..place {
        known.push(id)?;
    }
    match known.get_mut(place) {
        Some(slot) => *slot = id,
        None => known.push(id)?,
    }
    Ok(())
}

/// The number of a declared variable, which stands at this place among those that are declared.
fn variable_number(
    nodes: &mut Interner,
    known: &mut Known,
    place: usize,
    variable: &TermVar,
) -> Result<NodeId, TermError>
    ensures number { IfOk result (λ id. IsNumber nodes.new id (plain_variable variable.now)) }
    ensures kept { KeepsMeanings nodes.old nodes.new }
{
    if let Some(id) = known.get(place) {
        if is_variable(nodes, *id, variable) {
            return Ok(*id);
        }
    }
    let id = nodes.intern(&Term::Var(variable.share()?))?;
    remember(known, place, id)?;
    Ok(id)
}

/// The variable whose id stands behind `(var`.
fn variable_at<'t>(
    declared: &Declared,
    nodes: &mut Interner,
    known: &mut Known,
    src: &'t [u8],
) -> Front<'t>
    ensures read { IfRead result (λ x.
        ReadsBehind (λ es. IsNumbered declared.now nodes.new x.0 (with_head (codes "var") es))
        src.now 0 x.1.now) }
    ensures kept { KeepsMeanings nodes.old nodes.new }
    ensures shorter { IfRead result (λ x. length x.1.now < length src.now) }
{
    let Some((id, rest)) = plain_text_at(src) else {
        return Ok(None);
    };
    let Some(rest) = behind_close(rest) else {
        return Ok(None);
    };
    let Some((place, variable)) = declared.variables.find(id) else {
        return Ok(None);
    };
    let number = variable_number(nodes, known, place, variable)?;
    Ok(Some((number, rest)))
}

/// The literal of a width and a number, where the width is from 1 to 128 and the number is one of that width.
fn literal_of(width: u128, number: u128) -> Option<Term>
    ensures { option_map plain_term result
        ≡ option_and_then (λ w. bits_stated w number) (then_some (is_width width) width) }
{
    bits_literal(Width::new(u32::try_from(width).ok()?)?, number)
}

/// The literal whose width and number stand behind `(bv`.
fn bits_at<'t>(declared: &Declared, nodes: &mut Interner, src: &'t [u8]) -> Front<'t>
    ensures read { IfRead result (λ x.
        ReadsBehind (λ es. IsNumbered declared.now nodes.new x.0 (with_head (codes "bv") es))
        src.now 0 x.1.now) }
    ensures kept { KeepsMeanings nodes.old nodes.new }
    ensures shorter { IfRead result (λ x. length x.1.now < length src.now) }
{
    let Some((width, rest)) = number_at(src) else {
        return Ok(None);
    };
    let Some((number, rest)) = number_at(rest) else {
        return Ok(None);
    };
    let Some(rest) = behind_close(rest) else {
        return Ok(None);
    };
    match literal_of(width, number) {
        Some(literal) => Ok(Some((nodes.intern(&literal)?, rest))),
        None => Ok(None),
    }
}

/// The term at the front, by its expression.
fn whole_at<'t>(
    alloc: Global,
    declared: &Declared,
    nodes: &mut Interner,
    src: &'t [u8],
    depth: usize,
) -> Front<'t>
    ensures read { IfRead result
        (λ x. ReadsOf (IsNumbered declared.now nodes.new x.0) src.now depth x.1.now) }
    ensures kept { KeepsMeanings nodes.old nodes.new }
    ensures shorter { IfRead result (λ x. length x.1.now < length src.now) }
{
    let Ok((expression, rest)) = read_next(alloc, src, depth) else {
        return Ok(None);
    };
    match term_from(alloc, declared, &expression) {
        Ok(term) => Ok(Some((nodes.intern(&term)?, rest))),
        Err(_) => Ok(None),
    }
}

/// A number, with what stands behind it.
fn with_rest(found: Option<NodeId>, rest: &[u8]) -> Option<(NodeId, &[u8])>
    ensures number { option_map (λ x. x.0) result ≡ found }
    ensures rest { IfSome result (λ x. x.1.now ≡ rest.now) }
{
    Some((found?, rest))
}

/// The application of an operator to the operands that stand behind its name, where nothing is folded.
#[cycle(direct)]
fn application_at<'t>(
    alloc: Global,
    declared: &Declared,
    nodes: &mut Interner,
    known: &mut Known,
    op: &Op,
    src: &'t [u8],
    depth: usize,
) -> Front<'t>
    ensures read { (head : List ℕ) → operator_stated head ≡ Some (plain_op op.now) →
        IfRead result (λ x.
        ReadsBehind (λ es. IsNumbered declared.now nodes.new x.0 (with_head head es)) src.now depth
        x.1.now) }
    ensures kept { KeepsMeanings nodes.old nodes.new }
    ensures shorter { IfRead result (λ x. length x.1.now < length src.now) }
{
    let mut operands = Vec::new(alloc);
    let mut rest = src;
    loop {
        if let Some(after) = behind_close(rest) {
            let found = applied(nodes, alloc, op, operands.as_slice())?;
            return Ok(with_rest(found, after));
        }
        let Some((id, after)) = term_at(alloc, declared, nodes, known, rest, depth)? else {
            return Ok(None);
        };
        operands.push(id)?;
        rest = after;
    }
}

/// The term at the front.
#[cycle(direct)]
fn term_at<'t>(
    alloc: Global,
    declared: &Declared,
    nodes: &mut Interner,
    known: &mut Known,
    src: &'t [u8],
    depth: usize,
) -> Front<'t>
    ensures read { IfRead result
        (λ x. ReadsOf (IsNumbered declared.now nodes.new x.0) src.now depth x.1.now) }
    ensures kept { KeepsMeanings nodes.old nodes.new }
    ensures shorter { IfRead result (λ x. length x.1.now < length src.now) }
{
    if depth == 0 {
        return Ok(None);
    }
    let Some((head, behind)) = head_at(src) else {
        return whole_at(alloc, declared, nodes, src, depth);
    };
    match head {
        "var" => variable_at(declared, nodes, known, behind),
        "bv" => bits_at(declared, nodes, behind),
        _ => match operator_named(head) {
            Some(op) => application_at(alloc, declared, nodes, known, &op, behind, depth - 1),
            None => whole_at(alloc, declared, nodes, src, depth),
        },
    }
}

/// The name behind the bracket that opens at the front.
fn head_at(src: &[u8]) -> Option<(&str, &[u8])>
    ensures read { IfSome result (λ x. Spans src.now (Begin ∷ Word (Name x.0.now) ∷ []) x.1.now) }
    ensures shorter { IfSome result (λ x. length x.1.now < length src.now) }
{
    name_at(behind_open(src)?)
}

/// The Boolean term at the front.
pub(crate) fn condition_at<'t>(
    alloc: Global,
    declared: &Declared,
    nodes: &mut Interner,
    known: &mut Known,
    src: &'t [u8],
    depth: usize,
) -> Front<'t>
    ensures read { IfRead result
        (λ x. ReadsOf (IsConditionNumbered declared.now nodes.new x.0) src.now depth x.1.now) }
    ensures kept { KeepsMeanings nodes.old nodes.new }
    ensures shorter { IfRead result (λ x. length x.1.now < length src.now) }
{
    let Some((id, rest)) = term_at(alloc, declared, nodes, known, src, depth)? else {
        return Ok(None);
    };
    let truth = nodes.intern_subject(Subject::Type(&TermType::Bool))?;
    match nodes.parts(id) {
        [ty, ..] if *ty == truth => Ok(Some((id, rest))),
        _ => Ok(None),
    }
}
