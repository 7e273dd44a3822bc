// Terms as jobs state them, built as they are read.
ghost use Rattle.std.specs.Prelude.{◌≡◌, ◌<◌, ◌≤◌, Err, IfOk, IsOkUnless, List, drop, length, map};
ghost use Rattle.std.specs.List.{zip};
ghost use Rattle.std.specs.Rc.{rc_str_bytes};
ghost use Rattle.law_folding.specs.Built.{built};
ghost use Rattle.law_terms.specs.Plain.{PlainTerm};
ghost use Rattle.smt_term.specs.View.{plain_field, plain_op, plain_term, plain_terms, plain_type};
ghost use Rattle.smt_sexpr.specs.View.{plain, plain_list};
ghost use Rattle.law_jobs.specs.Declarations.{Declared as Stated};
ghost use Rattle.law_jobs.specs.Outcomes.{mapped, TypingFault};
ghost use Rattle.law_texts.specs.Outcomes.{demanded};
ghost use Rattle.law_jobs.specs.Terms as stated;
ghost use Rattle.law_jobs.specs.Terms.{Elements as ElementsForm, Fields as FieldsForm};
ghost use Rattle.law_jobs.specs.Terms.{Present as PresentForm};
ghost use Rattle.smt_job_terms.specs.TermView as view;
ghost use Rattle.smt_job_terms.specs.DeclarationView.{HasDeclared};
ghost use Rattle.smt_job_terms.specs.ReadAs.{IsReadAs};
ghost use Rattle.smt_job_terms.specs.TermView.{AreBuilt, StaysAsBuilt, plain_form};

use crate::form::{Form, atom_from, form_from};
use crate::operator::built_from;
use crate::{Declared, JobError};
use smt_factory_core::{record_of, set_of};
use smt_sexpr::{SExpr, name_in};
use smt_term::{Attr, Op, Term, TermType};
use std::alloc::Global;
use std::rc::Rc;

/// The application of an operator to operands that are built, where it takes them.
fn application_from(alloc: Global, op: &Op, operands: &[Term]) -> Result<Term, JobError>
    ensures { (written : List PlainTerm) → AreBuilt written operands.now →
        IsReadAs plain_term result
        (mapped built (demanded TypingFault (stated.applied (plain_op op.now) written))) }
{
    built_from(alloc, op, operands)?.ok_or(JobError::IllTyped)
}

/// Some of the first operand.
fn present_from(alloc: Global, operands: &[Term]) -> Result<Term, JobError>
    ensures { (written : List PlainTerm) → AreBuilt written operands.now →
        IsReadAs plain_term result (mapped built (stated.made PresentForm written)) }
{
    match operands {
        [operand, ..] => Ok(Term::Some(Rc::new(alloc, operand.share()?)?)),
        [] => Err(JobError::BadForm),
    }
}

/// Whether all operands are of a type.
fn are_of_type(alloc: Global, ty: &TermType, operands: &[Term]) -> Result<bool, JobError>
    ensures same { IfOk result
        (λ same. same ≡ stated.are_of_type (plain_type ty.now) (plain_terms operands.now)) }
    ensures refusal { IsOkUnless result JobError.Memory }
{
    for operand in operands {
        let same = operand.type_of(alloc)? == *ty;
        if !same {
            return Ok(false);
        }
    }
    Ok(true)
}

/// The set of the operands, where they are of the type of its elements.
fn set_from(alloc: Global, ty: TermType, operands: &[Term]) -> Result<Term, JobError>
    ensures { (written : List PlainTerm) → AreBuilt written operands.now →
        IsReadAs plain_term result
        (mapped built (stated.made (ElementsForm (plain_type ty)) written)) }
{
    if are_of_type(alloc, &ty, operands)? {
        Ok(set_of(alloc, operands, ty)?)
    } else {
        Err(JobError::IllTyped)
    }
}

/// These attributes, each with its operand.
fn fields_from(
    alloc: Global,
    names: &[Attr],
    operands: &[Term],
) -> Result<Vec<(Attr, Term)>, JobError>
    ensures fields { IfOk result (λ pairs.
        map plain_field pairs.items ≡ zip (map rc_str_bytes names.now) (plain_terms operands.now)) }
    ensures refusal { IsOkUnless result JobError.Memory }
{
    let mut pairs = Vec::new(alloc);
    for (name, operand) in names.iter().zip(operands.iter()) {
        pairs.push((name.clone()?, operand.share()?))?;
    }
    Ok(pairs)
}

/// The record of these attributes and operands.
fn record_from(alloc: Global, names: &[Attr], operands: &[Term]) -> Result<Term, JobError>
    ensures { (written : List PlainTerm) → AreBuilt written operands.now →
        IsReadAs plain_term result
        (mapped built (stated.made (FieldsForm (map rc_str_bytes names.now)) written)) }
{
    let pairs = fields_from(alloc, names, operands)?;
    Ok(record_of(alloc, pairs.as_slice())?)
}

/// What a form is of operands that are built.
fn made_from(alloc: Global, form: Form, operands: &[Term]) -> Result<Term, JobError>
    ensures { (written : List PlainTerm) → StaysAsBuilt (plain_form form) →
        AreBuilt written operands.now →
        IsReadAs plain_term result (mapped built (stated.made (plain_form form) written)) }
{
    match form {
        Form::Whole(term) => Ok(term),
        Form::Operator(op) => application_from(alloc, &op, operands),
        Form::OperatorBehind(op) => application_from(alloc, &op, operands),
        Form::Present => present_from(alloc, operands),
        Form::Elements(ty) => set_from(alloc, ty, operands),
        Form::Fields(names) => record_from(alloc, names.as_slice(), operands),
    }
}

/// The terms that the expressions from a place on state, as they are built.
#[cycle(terms)]
fn terms_from(
    alloc: Global,
    declared: &Declared,
    items: &[SExpr],
    first: usize,
) -> Result<Vec<Term>, JobError>
    ensures enough { (ds : Stated) → HasDeclared declared.now ds → first ≤ length items.now →
        IsReadAs (λ terms. plain_terms terms.items) result
        (mapped (map built) (stated.terms_of ds (plain_list (drop first items.now)))) }
    ensures few { length items.now < first → result ≡ Err JobError.BadForm }
{
    if items.len() < first {
        return Err(JobError::BadForm);
    }
    let others = &items[first..];
    let mut terms = Vec::new(alloc);
    for item in others {
        terms.push(term_from(alloc, declared, item)?)?;
    }
    Ok(terms)
}

/// The terms that the second expressions of pairs state.
#[cycle(terms)]
fn seconds_from(alloc: Global, declared: &Declared, items: &[SExpr]) -> Result<Vec<Term>, JobError>
    ensures { (ds : Stated) → HasDeclared declared.now ds →
        IsReadAs (λ terms. plain_terms terms.items) result
        (mapped (map built) (stated.second_terms ds (plain_list items.now))) }
{
    let mut terms = Vec::new(alloc);
    for item in items {
        let parts = match item {
            SExpr::App(inside) => inside.items(),
            SExpr::BitVec(_) | SExpr::Numeral(_) | SExpr::String(_) | SExpr::Symbol(_) =>
                return Err(JobError::BadForm),
        };
        let [_, second] = parts else {
            return Err(JobError::BadForm);
        };
        terms.push(term_from(alloc, declared, second)?)?;
    }
    Ok(terms)
}

/// The parts of a form, as they are built.
#[cycle(terms)]
fn parts_from(
    alloc: Global,
    declared: &Declared,
    form: &Form,
    items: &[SExpr],
) -> Result<Vec<Term>, JobError>
    ensures { (ds : Stated) → HasDeclared declared.now ds →
        IsReadAs (λ terms. plain_terms terms.items) result
        (mapped (map built) (view.parts_of ds (plain_form form.now) (plain_list items.now))) }
{
    match form {
        Form::Whole(_) => Ok(Vec::new(alloc)),
        Form::Operator(_) => terms_from(alloc, declared, items, 0),
        Form::Present => terms_from(alloc, declared, items, 0),
        Form::OperatorBehind(_) => terms_from(alloc, declared, items, 1),
        Form::Elements(_) => terms_from(alloc, declared, items, 1),
        Form::Fields(_) => seconds_from(alloc, declared, items),
    }
}

/// The term that an expression states, as it is built.
///
/// # Errors
///
/// The first fault from the left, as [`JobError`] orders those of a term. `Memory`, where there is none for the term.
#[cycle(terms)]
pub fn term_from(alloc: Global, declared: &Declared, expression: &SExpr) -> Result<Term, JobError>
    ensures { (ds : Stated) → HasDeclared declared.now ds →
        IsReadAs plain_term result (mapped built (stated.term_of ds (plain expression.now))) }
{
    let items = match expression {
        SExpr::App(inside) => inside.items(),
        SExpr::BitVec(_) | SExpr::Numeral(_) | SExpr::String(_) | SExpr::Symbol(_) =>
            return atom_from(expression),
    };
    let [first, operands @ ..] = items else {
        return Err(JobError::BadForm);
    };
    let head = name_in(first).ok_or(JobError::BadForm)?;
    let form = form_from(alloc, declared, head, operands)?;
    let parts = parts_from(alloc, declared, &form, operands)?;
    made_from(alloc, form, parts.as_slice())
}

/// The Boolean term that an expression states, as it is built: applications are folded, constants first.
///
/// # Errors
///
/// The first fault from the left, as [`JobError`] orders those of a term, and then `NotBool`. `Memory`, where there is none for the term.
pub fn condition_from(
    alloc: Global,
    declared: &Declared,
    expression: &SExpr,
) -> Result<Term, JobError>
    ensures { (ds : Stated) → HasDeclared declared.now ds →
        IsReadAs plain_term result (mapped built (stated.condition_of ds (plain expression.now))) }
{
    let term = term_from(alloc, declared, expression)?;
    if term.type_of(alloc)? == TermType::Bool {
        Ok(term)
    } else {
        Err(JobError::NotBool)
    }
}
