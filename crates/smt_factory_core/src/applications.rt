//! Applications as calls are asked for them.
#![tactic(auto, using(crate::proofs::Matching::matching))]

ghost use Rattle.std.specs.Prelude.{◌≡◌, ◌∷◌, [], IfOk};
ghost use Rattle.law_terms.specs.Plain.{Application, BoolType, terms};
ghost use Rattle.smt_term.specs.View.{BuildsTerm, plain_items, plain_op, plain_term, plain_type};

use smt_term::{Op, Term, TermError, TermList, TermType};
use std::alloc::Global;

/// The application of an operator to this argument, with this type.
///
/// # Errors
/// `Memory`, where there is none for the term.
pub fn unary_application(
    alloc: Global,
    op: Op,
    t: &Term,
    ret_ty: TermType,
) -> Result<Term, TermError>
    ensures { BuildsTerm result
        (Application (plain_op op) (terms (plain_term t.now ∷ [])) (plain_type ret_ty)) }
{
    let args = list_of_one(alloc, t)?;
    Ok(Term::App { op, args, ret_ty })
}

/// The application of an operator to these two arguments, with this type.
///
/// # Errors
/// `Memory`, where there is none for the term.
pub fn binary_application(
    alloc: Global,
    op: Op,
    t1: &Term,
    t2: &Term,
    ret_ty: TermType,
) -> Result<Term, TermError>
    ensures { BuildsTerm result (Application (plain_op op)
        (terms (plain_term t1.now ∷ plain_term t2.now ∷ [])) (plain_type ret_ty)) }
{
    let args = list_of_two(alloc, t1, t2)?;
    Ok(Term::App { op, args, ret_ty })
}

/// The application of an operator to these three arguments, with this type.
///
/// # Errors
/// `Memory`, where there is none for the term.
pub fn ternary_application(
    alloc: Global,
    op: Op,
    t1: &Term,
    t2: &Term,
    t3: &Term,
    ret_ty: TermType,
) -> Result<Term, TermError>
    ensures { BuildsTerm result (Application (plain_op op)
        (terms (plain_term t1.now ∷ plain_term t2.now ∷ plain_term t3.now ∷ []))
        (plain_type ret_ty)) }
{
    let args = list_of_three(alloc, t1, t2, t3)?;
    Ok(Term::App { op, args, ret_ty })
}

/// The application to this argument of an operator that gives a truth value.
///
/// # Errors
/// `Memory`, where there is none for the term.
pub fn unary_test(alloc: Global, op: Op, t: &Term) -> Result<Term, TermError>
    ensures { BuildsTerm result
        (Application (plain_op op) (terms (plain_term t.now ∷ [])) BoolType) }
{
    unary_application(alloc, op, t, TermType::Bool)
}

/// The application to these two arguments of an operator that gives a truth value.
///
/// # Errors
/// `Memory`, where there is none for the term.
pub fn binary_test(alloc: Global, op: Op, t1: &Term, t2: &Term) -> Result<Term, TermError>
    ensures { BuildsTerm result
        (Application (plain_op op) (terms (plain_term t1.now ∷ plain_term t2.now ∷ [])) BoolType) }
{
    binary_application(alloc, op, t1, t2, TermType::Bool)
}

fn list_of_one(alloc: Global, t: &Term) -> Result<TermList, TermError>
    ensures { IfOk result (λ ts. plain_items ts ≡ plain_term t.now ∷ []) }
{
    TermList::of_references(alloc, &[t])
}

fn list_of_two(alloc: Global, t1: &Term, t2: &Term) -> Result<TermList, TermError>
    ensures { IfOk result (λ ts. plain_items ts ≡ plain_term t1.now ∷ plain_term t2.now ∷ []) }
{
    TermList::of_references(alloc, &[t1, t2])
}

fn list_of_three(alloc: Global, t1: &Term, t2: &Term, t3: &Term) -> Result<TermList, TermError>
    ensures { IfOk result
        (λ ts. plain_items ts ≡ plain_term t1.now ∷ plain_term t2.now ∷ plain_term t3.now ∷ []) }
{
    TermList::of_references(alloc, &[t1, t2, t3])
}
