// The literal to which an assignment evaluates a term.
ghost use Rattle.std.specs.Prelude.{◌≡◌, ◌∷◌, [], Some, IfOk, IsOkUnless, MatchOption, false, map};
ghost use Rattle.std.specs.Prelude.{option_map};
ghost use Rattle.law_assignments.specs.Assignments.{PlainAssignment, interpretation};
ghost use Rattle.law_assignments.specs.Assignments.{is_of_other_family};
ghost use Rattle.law_assignments.specs.Laws.{IsLiteralFor};
ghost use Rattle.law_assignments.specs.Evaluated.{evaluated, evaluated_application};
ghost use Rattle.law_folding.specs.FoldFunctions.{entry_at};
ghost use Rattle.law_numbers.specs.BitOperators.{BitsOperator};
ghost use Rattle.law_terms.specs.Plain.{BitVecLiteral, BitsOp, ExtOp as ExtensionOf};
ghost use Rattle.law_terms.specs.Plain.{ExtensionLiteral, LiteralTerm, NoneTerm, OptionGetOp};
ghost use Rattle.law_terms.specs.Plain.{RecordTerm, UufOp, record_fields};
ghost use Rattle.law_terms.specs.Types.{result_type, type_of};
ghost use Rattle.smt_term.specs.Functions.{plain_definition};
ghost use Rattle.smt_term.specs.View.{BuildsTerm, plain_fields, plain_function, plain_literal};
ghost use Rattle.smt_term.specs.View.{plain_op, plain_term, plain_terms};
ghost use Rattle.smt_term.specs.View.{plain_type};
ghost use Rattle.smt_term.specs.ExtensionView.{plain_extension_op};
ghost use Rattle.smt_bits.specs.BitVec.{number_of, width_of};
ghost use Rattle.smt_ext.specs.IpOrder.{plain_range};
ghost use Rattle.smt_ext.specs.IpView.{range_of};
ghost use Rattle.smt_eval.specs.AssignmentView.{plain_assignment};
ghost use Rattle.smt_eval.specs.Evaluable.{AllHaveValuesIn, Answers, HasValueIn, IsNoLiteral};
ghost use Rattle.smt_eval.specs.Evaluable.{IsNoNone, IsShift, are_bits_literal};
ghost use Rattle.smt_eval.specs.Evaluable.{is_range};

use crate::assignment::Assignment;
use crate::error::EvalError;
use smt_bits::BitVec;
use smt_ext::{Ext, IPNet};
use smt_factory_core::{record_of, set_of};
use smt_job_terms::built_from;
use smt_term::{Attr, ExtOp, Op, Term, TermList, TermMap, TermPrim, TermType, Udf, Uuf};
use std::alloc::Global;
use std::rc::Rc;

/// The greatest number of places that the factory's shifts take.
const GREATEST_SHIFT: u128 = 4_294_967_295;

/// The entry of a table at a literal.
fn entry(table: &Udf, key: &Term) -> Result<Term, EvalError>
    ensures entry { BuildsTerm result (entry_at (plain_definition table.now) (plain_term key.now)) }
    ensures refusal { IsOkUnless result EvalError.Memory }
{
    match table.table.get(key) {
        Some(value) => Ok(value.share()?),
        None => Ok(table.default.share()?),
    }
}

/// The entry of the table of a function at a literal, where the assignment gives one.
fn at_function(given: &Assignment, function: &Uuf, key: &Term) -> Result<Option<Term>, EvalError>
    ensures answer { IfOk result (λ found.
        Answers (plain_assignment given.now) (UufOp (plain_function function.now))
        (plain_term key.now ∷ []) (option_map plain_term found)) }
    ensures refusal { IsOkUnless result EvalError.Memory }
{
    match given.function(&function.id) {
        Some(table) => Ok(Some(entry(table, key)?)),
        None => Ok(None),
    }
}

/// The inner type of a none.
#[tactic(auto, using(smt_term::specs::View::views), unfolding(smt_term::specs::View::plain_term))]
fn none_in(value: &Term) -> Option<&TermType>
    ensures { MatchOption result (IsNoNone (plain_term value.now))
        (λ ty. plain_term value.now ≡ NoneTerm (plain_type ty.now)) }
{
    match value {
        Term::None(ty) => Some(ty),
        Term::App { .. }
        | Term::Prim(_)
        | Term::Record(_)
        | Term::Set { .. }
        | Term::Some(_)
        | Term::Var(_) => None,
    }
}

/// What the assignment gives for `option.get` of none.
fn at_none(given: &Assignment, value: &Term) -> Result<Option<Term>, EvalError>
    ensures answer { IfOk result (λ found.
        Answers (plain_assignment given.now) OptionGetOp (plain_term value.now ∷ [])
        (option_map plain_term found)) }
    ensures refusal { IsOkUnless result EvalError.Memory }
{
    let Some(ty) = none_in(value) else {
        return Ok(None);
    };
    match given.get(ty) {
        Some(inside) => Ok(Some(inside.share()?)),
        None => Ok(None),
    }
}

/// What a term is as a literal.
#[tactic(auto, using(smt_term::specs::View::views), unfolding(smt_term::specs::View::plain_term))]
fn literal_in(value: &Term) -> Option<&TermPrim>
    ensures { MatchOption result (IsNoLiteral (plain_term value.now))
        (λ literal. plain_term value.now ≡ LiteralTerm (plain_literal literal.now)) }
{
    match value {
        Term::Prim(literal) => Some(literal),
        Term::App { .. }
        | Term::None(_)
        | Term::Record(_)
        | Term::Set { .. }
        | Term::Some(_)
        | Term::Var(_) => None,
    }
}

/// The IP range that a term is, as a literal.
fn range_in(value: &Term) -> Option<&IPNet>
    ensures { MatchOption result (is_range (plain_term value.now) ≡ false) (λ range.
        plain_term value.now ≡ LiteralTerm (ExtensionLiteral (plain_range (range_of range.now)))) }
{
    match literal_in(value)? {
        TermPrim::Ext(value) => match value {
            Ext::Ipaddr { ip } => Some(ip),
            Ext::Decimal { .. } | Ext::Datetime { .. } | Ext::Duration { .. } => None,
        },
        TermPrim::Bitvec(_) | TermPrim::Bool(_) | TermPrim::Entity(_) | TermPrim::String(_) => None,
    }
}

/// Whether a term is an IP range of the family to which the selector does not belong.
pub(crate) fn is_of_other_family(op: ExtOp, value: &Term) -> bool
    ensures { result ≡ is_of_other_family (plain_extension_op op) (plain_term value.now) }
{
    let Some(range) = range_in(value) else {
        return false;
    };
    match (op, range) {
        (ExtOp::IpaddrAddrV4 | ExtOp::IpaddrPrefixV4, IPNet::V6(_)) => true,
        (ExtOp::IpaddrAddrV6 | ExtOp::IpaddrPrefixV6, IPNet::V4(_)) => true,
        _ => false,
    }
}

/// The entry of the table of a selector at a range of the other family.
fn at_range(given: &Assignment, op: ExtOp, value: &Term) -> Result<Option<Term>, EvalError>
    ensures answer { IfOk result (λ found.
        Answers (plain_assignment given.now) (ExtensionOf (plain_extension_op op))
        (plain_term value.now ∷ []) (option_map plain_term found)) }
    ensures refusal { IsOkUnless result EvalError.Memory }
{
    if !is_of_other_family(op, value) {
        return Ok(None);
    }
    match given.selector(op) {
        Some(table) => Ok(Some(entry(table, value)?)),
        None => Ok(None),
    }
}

/// The bits that a term is, as a literal.
fn bits_in(value: &Term) -> Option<&BitVec>
    ensures { MatchOption result (are_bits_literal (plain_term value.now) ≡ false) (λ bits.
        plain_term value.now
        ≡ LiteralTerm (BitVecLiteral (width_of bits.now) (number_of bits.now))) }
{
    match literal_in(value)? {
        TermPrim::Bitvec(bits) => Some(bits),
        TermPrim::Bool(_) | TermPrim::Entity(_) | TermPrim::Ext(_) | TermPrim::String(_) => None,
    }
}

/// Zero, where bits are shifted by more places than the factory's shifts take.
fn far_shift(bits: &Term, places: &Term) -> Option<Term>
    ensures { (a : PlainAssignment) (o : BitsOperator) → IsShift o →
        Answers a (BitsOp o) (plain_term bits.now ∷ plain_term places.now ∷ [])
        (option_map plain_term result) }
{
    let bits = bits_in(bits)?;
    let places = bits_in(places)?;
    if places.to_nat() > GREATEST_SHIFT {
        Some(Term::from(BitVec::of_nat(bits.width(), 0)))
    } else {
        None
    }
}

/// What the assignment answers where the factory leaves an application to one literal.
fn answered_at_one(given: &Assignment, op: &Op, value: &Term) -> Result<Option<Term>, EvalError>
    ensures answer { IfOk result (λ found.
        Answers (plain_assignment given.now) (plain_op op.now) (plain_term value.now ∷ [])
        (option_map plain_term found)) }
    ensures refusal { IsOkUnless result EvalError.Memory }
{
    match op {
        Op::Uuf(function) => at_function(given, function, value),
        Op::OptionGet => at_none(given, value),
        Op::Ext(op) => at_range(given, *op, value),
        _ => Ok(None),
    }
}

/// What arithmetic answers where the factory leaves an application to two literals.
fn answered_at_two(op: &Op, left: &Term, right: &Term) -> Option<Term>
    ensures { (a : PlainAssignment) →
        Answers a (plain_op op.now) (plain_term left.now ∷ plain_term right.now ∷ [])
        (option_map plain_term result) }
{
    match op {
        Op::Bvshl => far_shift(left, right),
        Op::Bvlshr => far_shift(left, right),
        _ => None,
    }
}

/// What the assignment or arithmetic answers where the factory leaves an application to literals.
fn answered(given: &Assignment, op: &Op, values: &[Term]) -> Result<Option<Term>, EvalError>
    ensures answer { IfOk result (λ found.
        Answers (plain_assignment given.now) (plain_op op.now) (plain_terms values.now)
        (option_map plain_term found)) }
    ensures refusal { IsOkUnless result EvalError.Memory }
{
    match values {
        [value] => answered_at_one(given, op, value),
        [left, right] => Ok(answered_at_two(op, left, right)),
        _ => Ok(None),
    }
}

/// An operator at arguments that are evaluated.
fn applied(
    alloc: Global,
    given: &Assignment,
    op: &Op,
    values: &[Term],
    ty: &TermType,
) -> Result<Term, EvalError>
    ensures applied { result_type (plain_op op.now) (map type_of (plain_terms values.now)) ≡ Some
        (plain_type ty.now) →
        BuildsTerm result (evaluated_application (plain_assignment given.now) (plain_op op.now)
        (plain_terms values.now) (plain_type ty.now)) }
    ensures refusal { IsOkUnless result EvalError.Memory }
{
    if let Some(answer) = answered(given, op, values)? {
        return Ok(answer);
    }
    match built_from(alloc, op, values)? {
        Some(term) => Ok(term),
        // An operator that does not take the arguments stays.
        None => Ok(Term::App {
            op: op.share()?,
            args: TermList::new(alloc, values)?,
            ret_ty: ty.share()?,
        }),
    }
}

/// The literals to which the assignment evaluates terms, in order.
#[cycle(values)]
fn eval_all(alloc: Global, given: &Assignment, terms: &[Term]) -> Result<Vec<Term>, EvalError>
    ensures evaluated { AllHaveValuesIn (plain_assignment given.now) (plain_terms terms.now) →
        IfOk result (λ values.
        plain_terms values.items
        ≡ map (evaluated (plain_assignment given.now)) (plain_terms terms.now)) }
    ensures refusal { IsOkUnless result EvalError.Memory }
{
    let mut values = Vec::new(alloc);
    for term in terms {
        values.push(literal_of(alloc, given, term)?)?;
    }
    Ok(values)
}

/// The record of the literals to which the assignment evaluates the terms of attributes.
#[cycle(values)]
fn eval_fields(alloc: Global, given: &Assignment, fields: &TermMap) -> Result<Term, EvalError>
    ensures evaluated { HasValueIn (plain_assignment given.now)
        (RecordTerm (record_fields (plain_fields fields.now))) →
        BuildsTerm result (evaluated (plain_assignment given.now)
        (RecordTerm (record_fields (plain_fields fields.now)))) }
    ensures refusal { IsOkUnless result EvalError.Memory }
{
    let mut values: Vec<(Attr, Term)> = Vec::new(alloc);
    for (name, term) in fields.items() {
        values.push((name.clone()?, literal_of(alloc, given, term)?))?;
    }
    Ok(record_of(alloc, values.as_slice())?)
}

/// What the assignment evaluates a term to. What it does not give stays as it is.
#[cycle(values)]
fn literal_of(alloc: Global, given: &Assignment, t: &Term) -> Result<Term, EvalError>
    ensures evaluated { HasValueIn (plain_assignment given.now) (plain_term t.now) →
        BuildsTerm result (evaluated (plain_assignment given.now) (plain_term t.now)) }
    ensures refusal { IsOkUnless result EvalError.Memory }
{
    match t {
        Term::App { op, args, ret_ty } => {
            let values = eval_all(alloc, given, args.items())?;
            applied(alloc, given, op, values.as_slice(), ret_ty)
        }
        Term::None(_) | Term::Prim(_) => Ok(t.share()?),
        Term::Record(fields) => eval_fields(alloc, given, fields),
        Term::Set { elts_ty, elts } => {
            let values = eval_all(alloc, given, elts.items())?;
            Ok(set_of(alloc, values.as_slice(), elts_ty.share()?)?)
        }
        Term::Some(inside) => Ok(Term::Some(Rc::new(alloc, literal_of(alloc, given, inside)?)?)),
        Term::Var(variable) => match given.variable(&variable.id) {
            Some(value) => Ok(value.share()?),
            None => Ok(t.share()?),
        },
    }
}

/// The literal to which the assignment evaluates a term: it is of the term's type, and has in every interpretation the value that the
/// term has in the assignment's. What the assignment does not give stays as it is.
///
/// # Errors
///
/// `Memory`, where there is none for the literal.
pub fn eval(alloc: Global, given: &Assignment, t: &Term) -> Result<Term, EvalError>
    ensures evaluated { HasValueIn (plain_assignment given.now) (plain_term t.now) →
        BuildsTerm result (evaluated (plain_assignment given.now) (plain_term t.now)) }
    ensures value { HasValueIn (plain_assignment given.now) (plain_term t.now) →
        IfOk result (λ r.
        IsLiteralFor (interpretation (plain_assignment given.now)) (plain_term t.now)
        (type_of (plain_term t.now)) (plain_term r)) }
    ensures refusal { IsOkUnless result EvalError.Memory }
{
    literal_of(alloc, given, t)
}
