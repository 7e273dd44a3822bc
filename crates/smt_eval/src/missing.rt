// What an assignment lacks of what terms reach.
ghost use Rattle.std.specs.Prelude.{◌≡◌, IfOk, IsOkUnless, not, option_map};
ghost use Rattle.std.specs.List.{find};
ghost use Rattle.std.specs.Rc.{rc_str_bytes};
ghost use Rattle.law_assignments.specs.Covered as covered;
ghost use Rattle.law_assignments.specs.Inputs.{unless_missing};
ghost use Rattle.law_terms.specs.Plain.{ExtOp as ExtensionOf, PlainType, UufOp, VariableTerm};
ghost use Rattle.law_terms.specs.Plain.{record_fields, terms as in_order};
ghost use Rattle.law_terms.specs.Reached.{subterms, subterms_of_all, subterms_of_fields};
ghost use Rattle.smt_term.specs.View.{plain_fields, plain_function, plain_op, plain_term};
ghost use Rattle.smt_term.specs.View.{plain_terms, plain_type};
ghost use Rattle.smt_term.specs.ExtensionView.{plain_extension_op};
ghost use Rattle.smt_eval.specs.AssignmentView.{plain_assignment};
ghost use Rattle.smt_eval.specs.InputRefused.{IsInputReadAs};
ghost use Rattle.smt_eval.specs.ReaderView.{missing_behind};
ghost use Rattle.law_texts.specs.SharedTexts.{GivesText};

use crate::assignment::Assignment;
use crate::error::EvalError;
use smt_term::{ExtOp, Op, Term, TermMap, TermType, Text, Uuf};
use std::alloc::Global;

/// Whether the assignment gives a function a table of its types.
fn gives_function(given: &Assignment, function: &Uuf) -> bool
    ensures { result
        ≡ covered.gives_op (plain_assignment given.now) (UufOp (plain_function function.now))
        (plain_type function.now.out) }
{
    match given.function(&function.id) {
        Some(table) => table.arg.is_same_as(&function.arg) && table.out.is_same_as(&function.out),
        None => false,
    }
}

/// Whether the assignment gives an operator of the extension types a table, where it is a selector of IP ranges.
fn gives_extension(given: &Assignment, op: ExtOp) -> bool
    ensures { (ty : PlainType) →
        result
        ≡ covered.gives_op (plain_assignment given.now) (ExtensionOf (plain_extension_op op)) ty }
{
    match op {
        ExtOp::IpaddrAddrV4 | ExtOp::IpaddrAddrV6 | ExtOp::IpaddrPrefixV4 | ExtOp::IpaddrPrefixV6 =>
            given.selector(op).is_some(),
        ExtOp::DatetimeOfBitVec
        | ExtOp::DatetimeVal
        | ExtOp::DecimalVal
        | ExtOp::DurationOfBitVec
        | ExtOp::DurationVal
        | ExtOp::IpaddrIsV4 => true,
    }
}

/// Whether the assignment gives what an operator asks for, where it gives this type.
fn gives_op(given: &Assignment, op: &Op, ty: &TermType) -> bool
    ensures { result
        ≡ covered.gives_op (plain_assignment given.now) (plain_op op.now) (plain_type ty.now) }
{
    match op {
        Op::Uuf(function) => gives_function(given, function),
        Op::OptionGet => given.get(ty).is_some(),
        Op::Ext(op) => gives_extension(given, *op),
        _ => true,
    }
}

/// Whether the assignment gives a variable a literal of this type.
fn gives_variable(
    alloc: Global,
    given: &Assignment,
    id: &Text,
    ty: &TermType,
) -> Result<bool, EvalError>
    ensures gives { IfOk result (λ gives.
        gives
        ≡ covered.gives (plain_assignment given.now)
        (VariableTerm (rc_str_bytes id.now) (plain_type ty.now))) }
    ensures refusal { IsOkUnless result EvalError.Memory }
{
    match given.variable(id) {
        Some(value) => Ok(value.type_of(alloc)?.is_same_as(ty)),
        None => Ok(false),
    }
}

/// Whether the assignment gives what a term asks for itself.
fn gives(alloc: Global, given: &Assignment, term: &Term) -> Result<bool, EvalError>
    ensures gives { IfOk result
        (λ gives. gives ≡ covered.gives (plain_assignment given.now) (plain_term term.now)) }
    ensures refusal { IsOkUnless result EvalError.Memory }
{
    match term {
        Term::App { op, ret_ty, .. } => Ok(gives_op(given, op, ret_ty)),
        Term::Var(variable) => gives_variable(alloc, given, &variable.id, &variable.ty),
        Term::None(_) | Term::Prim(_) | Term::Record(_) | Term::Set { .. } | Term::Some(_) => Ok(
            true,
        ),
    }
}

/// The first part of some terms that the assignment does not give.
#[cycle(missing)]
fn missing_among<'t>(
    alloc: Global,
    given: &Assignment,
    terms: &'t [Term],
) -> Result<Option<&'t Term>, EvalError>
    ensures missing { IfOk result (λ missing.
        option_map (λ t. plain_term t.now) missing
        ≡ find (λ w. not (covered.gives (plain_assignment given.now) w))
        (subterms_of_all (in_order (plain_terms terms.now)))) }
    ensures refusal { IsOkUnless result EvalError.Memory }
{
    for term in terms {
        if let Some(missing) = missing_in(alloc, given, term)? {
            return Ok(Some(missing));
        }
    }
    Ok(None)
}

/// The first part of the terms of attributes that the assignment does not give.
#[cycle(missing)]
fn missing_in_fields<'t>(
    alloc: Global,
    given: &Assignment,
    fields: &'t TermMap,
) -> Result<Option<&'t Term>, EvalError>
    ensures missing { IfOk result (λ missing.
        option_map (λ t. plain_term t.now) missing
        ≡ find (λ w. not (covered.gives (plain_assignment given.now) w))
        (subterms_of_fields (record_fields (plain_fields fields.now)))) }
    ensures refusal { IsOkUnless result EvalError.Memory }
{
    for (_, term) in fields.items() {
        if let Some(missing) = missing_in(alloc, given, term)? {
            return Ok(Some(missing));
        }
    }
    Ok(None)
}

/// The first part inside a term that the assignment does not give.
#[cycle(missing)]
fn missing_inside<'t>(
    alloc: Global,
    given: &Assignment,
    term: &'t Term,
) -> Result<Option<&'t Term>, EvalError>
    ensures missing { IfOk result (λ missing.
        find (λ w. not (covered.gives (plain_assignment given.now) w))
        (subterms (plain_term term.now))
        ≡ missing_behind (plain_assignment given.now) (option_map (λ t. plain_term t.now) missing)
        (plain_term term.now)) }
    ensures refusal { IsOkUnless result EvalError.Memory }
{
    match term {
        Term::App { args, .. } => missing_among(alloc, given, args.items()),
        Term::None(_) | Term::Prim(_) | Term::Var(_) => Ok(None),
        Term::Record(fields) => missing_in_fields(alloc, given, fields),
        Term::Set { elts, .. } => missing_among(alloc, given, elts.items()),
        Term::Some(inside) => missing_in(alloc, given, inside),
    }
}

/// The first part of a term, the term itself last, that the assignment does not give.
#[cycle(missing)]
fn missing_in<'t>(
    alloc: Global,
    given: &Assignment,
    term: &'t Term,
) -> Result<Option<&'t Term>, EvalError>
    ensures missing { IfOk result (λ missing.
        option_map (λ t. plain_term t.now) missing
        ≡ find (λ w. not (covered.gives (plain_assignment given.now) w))
        (subterms (plain_term term.now))) }
    ensures refusal { IsOkUnless result EvalError.Memory }
{
    if let Some(missing) = missing_inside(alloc, given, term)? {
        return Ok(Some(missing));
    }
    if gives(alloc, given, term)? {
        Ok(None)
    } else {
        Ok(Some(term))
    }
}

/// The name by which it is told what an operator asks for.
fn asked_op(alloc: Global, op: &Op) -> Result<Text, EvalError>
    ensures asked { GivesText result (covered.asked_op (plain_op op.now)) }
    ensures refusal { IsOkUnless result EvalError.Memory }
{
    match op {
        Op::Uuf(function) => Ok(function.id.clone()?),
        Op::Ext(op) => Ok(Text::from_str(alloc, op.mk_name())?),
        _ => Ok(Text::from_str(alloc, op.mk_name())?),
    }
}

/// The name by which it is told what a term asks for itself.
fn asked(alloc: Global, term: &Term) -> Result<Text, EvalError>
    ensures asked { GivesText result (covered.asked (plain_term term.now)) }
    ensures refusal { IsOkUnless result EvalError.Memory }
{
    match term {
        Term::App { op, .. } => asked_op(alloc, op),
        Term::Var(variable) => Ok(variable.id.clone()?),
        Term::None(_) | Term::Prim(_) | Term::Record(_) | Term::Set { .. } | Term::Some(_) => Ok(
            Text::from_str(alloc, "")?,
        ),
    }
}

/// Refuses an assignment that lacks something that the terms reach, by the name of the first.
pub(crate) fn refuse_missing(
    alloc: Global,
    given: &Assignment,
    terms: &[Term],
) -> Result<(), EvalError>
    ensures { IsInputReadAs (λ u. tt) result (unless_missing
        (covered.first_missing (plain_assignment given.now) (plain_terms terms.now))) }
{
    match missing_among(alloc, given, terms)? {
        Some(term) => Err(EvalError::Missing(asked(alloc, term)?)),
        None => Ok(()),
    }
}
