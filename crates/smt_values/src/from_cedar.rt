// The terms that stand for Cedar's values.
#![tactic(auto, using(crate::specs::TypeView::cedar_views, crate::specs::ValueView::value_views, smt_term::specs::View::views))]

ghost use Rattle.std.specs.Prelude.{◌≡◌, IfErr, IfOk, Ok, map, option_map};
ghost use Rattle.std.specs.Rc.{rc_str_bytes};
ghost use Rattle.smt_term.specs.View.{BuildsTerm, plain_field, plain_term, plain_terms};
ghost use Rattle.smt_values.specs.Cedar.{ClosedRecordType};
ghost use Rattle.smt_values.specs.TypeView.{plain_cedar, plain_cedar_attributes, record_with};
ghost use Rattle.smt_values.specs.TypeView.{set_with};
ghost use Rattle.smt_values.specs.Constructors.{value_of_value};
ghost use Rattle.smt_values.specs.PlainValues.{RecordValue, SetValue, values, value_fields};
ghost use Rattle.smt_values.specs.ValueView.{named_fields, plain_literal, plain_value_of};
ghost use Rattle.smt_values.specs.ValueView.{values_held};
ghost use Rattle.smt_values.specs.Refused.{IsGiven, IsNoTerm, IsRefusal};
ghost use Rattle.smt_values.specs.TermOfValue as stated;
ghost use Rattle.smt_values.specs.TermOfValue.{literal_term, term_of_value};

use crate::error::SymbolizeError;
use crate::{
    AttributeType, Attributes, CedarType, ExtFromCedar, Literal, OfType, OpenTag, Value, ValueList,
    ValueMap,
};
use smt_ext::Ext;
use smt_factory_core::{none_of, record_of, set_of, some_of};
use smt_term::{Attr, Term, TermError, TermType};
use smt_text::share_text;
use std::alloc::Global;
use std::rc::Rc;

/// A term that stands for a part of Cedar.
pub trait FromCedar {
    /// The literal that stands for a literal of Cedar. A Long is a bitvector of 64 bits.
    ///
    /// # Errors
    /// `Memory`, where there is none for the term.
    fn from_literal(l: &Literal) -> Result<Term, TermError>
        ensures { BuildsTerm result (literal_term (plain_literal l.now)) };

    /// The term that stands for a value at a type.
    ///
    /// A literal, and a value of an extension type, has its literal at any type. A set has the set of the terms of its elements
    /// at a set type with an element type. A record has, at a closed record type, the record of the terms of the type's
    /// attributes: where the type does not require the attribute, some of its term, or none where the record lacks it.
    /// Attributes that the type lacks are dropped.
    ///
    /// # Examples
    ///
    /// ```
    /// use kembura::Term;
    /// use kembura::values::{CedarType, FromCedar, Literal, Value};
    ///
    /// let ten = Value::Lit(Literal::Long(10));
    /// let term = Term::from_value(alloc, &ten, &CedarType::Long)?;
    /// assert_eq!(rt; term, Term::from(10i64));
    /// ```
    ///
    /// # Errors
    /// The first of these from the left, the elements of a set before its element type:
    /// `ExtError` of `FromValue` with a value that is to be one of an extension type and is none;
    /// `CompileError` where the type of elements, or of an attribute that the record lacks, has no type of terms;
    /// `UnableToSymbolizeValue` with any other value that has no term, which is the whole record where it lacks an attribute
    /// that its type requires.
    /// `Memory`, where there is none for the term or the refusal.
    fn from_value(alloc: Global, v: &Value, ty: &CedarType) -> Result<Term, SymbolizeError>
        ensures given { IfOk result
            (λ t. term_of_value (plain_cedar ty.now) (plain_value_of v.now) ≡ Ok (plain_term t)) }
        ensures refused { IfErr result
            (λ e. IsRefusal e (term_of_value (plain_cedar ty.now) (plain_value_of v.now))) };
}

impl FromCedar for Term {
    fn from_literal(l: &Literal) -> Result<Term, TermError> {
        match l {
            Literal::Bool(truth) => Ok(Term::from(*truth)),
            Literal::Long(number) => Ok(Term::from(*number)),
            Literal::String(text) => Ok(Term::from(share_text(text)?)),
            Literal::EntityUID(entity) => Ok(Term::from(entity.share()?)),
        }
    }

    fn from_value(alloc: Global, v: &Value, ty: &CedarType) -> Result<Term, SymbolizeError> {
        term_of(alloc, ty, v)
    }
}

/// The value of an attribute, where the record has it.
fn field_named<'a>(fields: &'a ValueMap, name: &Attr) -> Option<&'a Value>
    ensures { option_map (λ v. plain_value_of v.now) result
        ≡ stated.field_named (rc_str_bytes name.now) (value_fields (named_fields fields.now)) }
{
    for (other, value) in fields.items() {
        if name == other {
            return Some(value);
        }
    }
    None
}

/// The refusal of a set.
fn no_set(elements: &ValueList) -> SymbolizeError
    ensures { IsNoTerm result (SetValue (values (map plain_value_of (values_held elements.now)))) }
{
    match elements.share() {
        Ok(given) => SymbolizeError::UnableToSymbolizeValue(Value::Set(given)),
        Err(_) => SymbolizeError::Memory,
    }
}

/// The refusal of a record.
fn no_record(fields: &ValueMap) -> SymbolizeError
    ensures { IsNoTerm result (RecordValue (value_fields (named_fields fields.now))) }
{
    match fields.share() {
        Ok(given) => SymbolizeError::UnableToSymbolizeValue(Value::Record(given)),
        Err(_) => SymbolizeError::Memory,
    }
}

/// The term of a value that is to be one of an extension type.
fn extension_term(alloc: Global, v: &Value) -> Result<Term, SymbolizeError>
    ensures { IsGiven plain_term result
        (stated.extension_term (plain_value_of v.now) (value_of_value (plain_value_of v.now))) }
{
    Ok(Term::from(Ext::try_from_value(alloc, v)?))
}

/// The terms of the elements of a set, in order.
#[cycle(term_of)]
fn element_terms(
    alloc: Global,
    element: &CedarType,
    elements: &[Value],
) -> Result<Vec<Term>, SymbolizeError>
    ensures { IsGiven (λ terms. plain_terms terms.items) result
        (stated.terms_of_elements (term_of_value (plain_cedar element.now))
        (values (map plain_value_of elements.now))) }
{
    let mut terms: Vec<Term> = Vec::new(alloc);
    for v in elements {
        terms.push(term_of(alloc, element, v)?)?;
    }
    Ok(terms)
}

/// The term of a set.
#[cycle(term_of)]
fn set_term(
    alloc: Global,
    element: &Option<Rc<CedarType>>,
    elements: &ValueList,
) -> Result<Term, SymbolizeError>
    ensures { IsGiven plain_term result (term_of_value (set_with element.now)
        (SetValue (values (map plain_value_of (values_held elements.now))))) }
{
    match element {
        Some(element) => {
            let terms = element_terms(alloc, element, elements.items())?;
            let own = TermType::of_type(alloc, element)?;
            Ok(set_of(alloc, terms.as_slice(), own)?)
        }
        None => Err(no_set(elements)),
    }
}

/// The term of an attribute that a record has: some of it, where the type does not require the attribute.
fn held(alloc: Global, is_required: bool, term: Term) -> Result<Term, TermError>
    ensures { BuildsTerm result (stated.term_held is_required (plain_term term)) }
{
    if is_required {
        Ok(term)
    } else {
        some_of(alloc, term)
    }
}

/// The term of an attribute that a record lacks: none, where the type does not require it.
fn lacked(alloc: Global, ty: &AttributeType, fields: &ValueMap) -> Result<Term, SymbolizeError>
    ensures { IsGiven plain_term result (stated.term_lacked ty.now.is_required
        (plain_cedar ty.now.attr_type) (value_fields (named_fields fields.now))) }
{
    if ty.is_required {
        Err(no_record(fields))
    } else {
        Ok(none_of(TermType::of_type(alloc, &ty.attr_type)?))
    }
}

/// The term of an attribute in a record.
#[cycle(term_of)]
fn attribute_term(
    alloc: Global,
    ty: &AttributeType,
    name: &Attr,
    fields: &ValueMap,
) -> Result<Term, SymbolizeError>
    ensures { IsGiven plain_term result (stated.term_of_attribute
        (term_of_value (plain_cedar ty.now.attr_type)) (plain_cedar ty.now.attr_type)
        ty.now.is_required (value_fields (named_fields fields.now))
        (stated.field_named (rc_str_bytes name.now) (value_fields (named_fields fields.now)))) }
{
    match field_named(fields, name) {
        Some(v) => {
            let term = term_of(alloc, &ty.attr_type, v)?;
            Ok(held(alloc, ty.is_required, term)?)
        }
        None => lacked(alloc, ty, fields),
    }
}

/// The attributes of a record type in order, each with its term in a record.
#[cycle(term_of)]
fn attribute_terms(
    alloc: Global,
    attrs: &Attributes,
    fields: &ValueMap,
) -> Result<Vec<(Attr, Term)>, SymbolizeError>
    ensures { IsGiven (λ pairs. map plain_field pairs.items) result
        (stated.terms_of_attributes (plain_cedar_attributes attrs.now)
        (value_fields (named_fields fields.now))) }
{
    let mut pairs: Vec<(Attr, Term)> = Vec::new(alloc);
    for (name, ty) in attrs.items() {
        let term = attribute_term(alloc, ty, name, fields)?;
        pairs.push((share_text(name)?, term))?;
    }
    Ok(pairs)
}

/// The term of a record.
#[cycle(term_of)]
fn record_term(
    alloc: Global,
    attrs: &Attributes,
    open_attributes: OpenTag,
    fields: &ValueMap,
) -> Result<Term, SymbolizeError>
    ensures { IsGiven plain_term result (term_of_value
        (record_with open_attributes (plain_cedar_attributes attrs.now))
        (RecordValue (value_fields (named_fields fields.now)))) }
{
    match open_attributes {
        OpenTag::OpenAttributes => Err(no_record(fields)),
        OpenTag::ClosedAttributes => {
            let pairs = attribute_terms(alloc, attrs, fields)?;
            Ok(record_of(alloc, pairs.as_slice())?)
        }
    }
}

/// The term of a set at a type.
#[cycle(term_of)]
fn term_of_set(alloc: Global, ty: &CedarType, elements: &ValueList) -> Result<Term, SymbolizeError>
    ensures { IsGiven plain_term result (term_of_value (plain_cedar ty.now)
        (SetValue (values (map plain_value_of (values_held elements.now))))) }
{
    match ty {
        CedarType::Set { element_type } => set_term(alloc, element_type, elements),
        CedarType::Never => Err(no_set(elements)),
        CedarType::Bool(_) => Err(no_set(elements)),
        CedarType::Long => Err(no_set(elements)),
        CedarType::String => Err(no_set(elements)),
        CedarType::Record { .. } => Err(no_set(elements)),
        CedarType::Entity(_) => Err(no_set(elements)),
        CedarType::ExtensionType { .. } => Err(no_set(elements)),
    }
}

/// The term of a record at a type.
#[cycle(term_of)]
fn term_of_record(alloc: Global, ty: &CedarType, fields: &ValueMap) -> Result<Term, SymbolizeError>
    ensures { IsGiven plain_term result (term_of_value (plain_cedar ty.now)
        (RecordValue (value_fields (named_fields fields.now)))) }
{
    match ty {
        CedarType::Record {
            attrs,
            open_attributes,
        } => record_term(alloc, attrs, *open_attributes, fields),
        CedarType::Never => Err(no_record(fields)),
        CedarType::Bool(_) => Err(no_record(fields)),
        CedarType::Long => Err(no_record(fields)),
        CedarType::String => Err(no_record(fields)),
        CedarType::Set { .. } => Err(no_record(fields)),
        CedarType::Entity(_) => Err(no_record(fields)),
        CedarType::ExtensionType { .. } => Err(no_record(fields)),
    }
}

/// The term of a value at a type.
#[cycle(term_of)]
fn term_of(alloc: Global, ty: &CedarType, v: &Value) -> Result<Term, SymbolizeError>
    ensures { IsGiven plain_term result
        (term_of_value (plain_cedar ty.now) (plain_value_of v.now)) }
{
    match v {
        Value::Lit(literal) => Ok(Term::from_literal(literal)?),
        Value::Set(elements) => term_of_set(alloc, ty, elements),
        Value::Record(fields) => term_of_record(alloc, ty, fields),
        Value::ExtensionValue(_) => extension_term(alloc, v),
    }
}

/// The term that stands for a record at the closed record type of these attributes.
///
/// # Errors
/// Those of `from_value`.
pub fn from_record(
    alloc: Global,
    fields: &ValueMap,
    attrs: &Attributes,
) -> Result<Term, SymbolizeError>
    ensures { IsGiven plain_term result (term_of_value
        (ClosedRecordType (plain_cedar_attributes attrs.now))
        (RecordValue (value_fields (named_fields fields.now)))) }
{
    record_term(alloc, attrs, OpenTag::ClosedAttributes, fields)
}
