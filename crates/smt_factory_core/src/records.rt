//! Records of terms, and the attributes of records.
#![tactic(auto, using(smt_term::specs::View::views, crate::proofs::FoldingRecords::recording))]

ghost use Rattle.std.specs.Prelude.{◌≡◌, IfOk, MatchOption, None, Some, false, map};
ghost use Rattle.std.specs.Rc.{rc_str_bytes};
ghost use Rattle.law_folding.specs.Applications.{record_get_of};
ghost use Rattle.law_folding.specs.FoldRecords.{folded_record_get, record_of_pairs, tag_record};
ghost use Rattle.law_folding.specs.Parts.{is_record_term};
ghost use Rattle.law_folding.specs.RecordOf.{IsRecordOf};
ghost use Rattle.law_terms.specs.Plain.{RecordTerm, record_fields};
ghost use Rattle.law_terms.specs.Types.{attribute_type, type_of};
ghost use Rattle.law_terms.specs.Typing.{AreTyped};
ghost use Rattle.smt_term.specs.Maps.{plain_field, plain_fields};
ghost use Rattle.smt_term.specs.View.{BuildsTerm, plain_term, plain_type};
ghost use Rattle.smt_factory_core.specs.Results.{ResultRefines};

use crate::unary_application;
use smt_term::{Attr, Op, Term, TermError, TermMap, TermType, Text};
use smt_text::share_text;
use std::alloc::Global;

/// The record that has these attributes, each with the value of its term. The attributes stand in the order of their bytes; of
/// pairs of one attribute the last stays.
///
/// Where each of the terms is typed, so is the record, and each attribute has the type and the value of the term that was given
/// last with it.
///
/// # Errors
/// `Memory`, where there is none for the term.
pub fn record_of(alloc: Global, ats: &[(Attr, Term)]) -> Result<Term, TermError>
    ensures folded { BuildsTerm result (record_of_pairs (map plain_field ats.now)) }
    ensures record { AreTyped (map (λ p. plain_term p.1) ats.now) →
        IfOk result (λ r. IsRecordOf (map plain_field ats.now) (plain_term r)) }
{
    let fields = TermMap::new(alloc, ats)?;
    Ok(Term::Record(fields))
}

/// The record of an entity and of its tag, under the attributes of these names.
///
/// # Errors
/// `Memory`, where there is none for the term.
pub fn tag_of(alloc: Global, entity: Term, tag: Term) -> Result<Term, TermError>
    ensures { BuildsTerm result (tag_record (plain_term entity) (plain_term tag)) }
{
    let entity_name = Text::from_str(alloc, "entity")?;
    let tag_name = Text::from_str(alloc, "tag")?;
    record_of(alloc, &[(entity_name, entity), (tag_name, tag)])
}

/// The value of a record's attribute. Of a record that is given by its terms it is the attribute's term. What is no record, or
/// does not have the attribute, stays as it is.
///
/// # Errors
/// `Memory`, where there is none for the term.
pub fn record_get(alloc: Global, t: Term, a: &Attr) -> Result<Term, TermError>
    ensures folded { BuildsTerm result (folded_record_get (plain_term t) (rc_str_bytes a.now)) }
    ensures refines { ResultRefines result (record_get_of (plain_term t) (rc_str_bytes a.now)) }
{
    folded_record_get(alloc, &t, a)
}

// The value of a record's attribute, folded.
fn folded_record_get(alloc: Global, t: &Term, a: &Attr) -> Result<Term, TermError>
    ensures { BuildsTerm result (folded_record_get (plain_term t.now) (rc_str_bytes a.now)) }
{
    if let Some(fields) = given_fields(t) {
        return match fields.get(a) {
            Some(field) => field.share(),
            None => t.share(),
        };
    }
    match attribute_type(alloc, t, a)? {
        Some(ty) => unary_application(alloc, Op::RecordGet(share_text(a)?), t, ty),
        None => t.share(),
    }
}

// The terms of a record's attributes, where it is given by them.
fn given_fields(t: &Term) -> Option<&TermMap>
    ensures { MatchOption result (is_record_term (plain_term t.now) ≡ false)
        (λ m. plain_term t.now ≡ RecordTerm (record_fields (plain_fields m.now))) }
{
    match t {
        Term::Record(fields) => Some(fields),
        Term::App { .. }
        | Term::None(_)
        | Term::Prim(_)
        | Term::Set { .. }
        | Term::Some(_)
        | Term::Var(_) => None,
    }
}

// The type of an attribute, where the type of a term has it.
fn attribute_type(alloc: Global, t: &Term, a: &Attr) -> Result<Option<TermType>, TermError>
    ensures { IfOk result (λ o.
        MatchOption o (attribute_type (rc_str_bytes a.now) (type_of (plain_term t.now)) ≡ None)
        (λ ty.
        attribute_type (rc_str_bytes a.now) (type_of (plain_term t.now)) ≡ Some (plain_type ty))) }
{
    match &t.type_of(alloc)? {
        TermType::Record { rty } => match rty.get(a) {
            Some(ty) => Ok(Some(ty.share()?)),
            None => Ok(None),
        },
        TermType::Option { .. }
        | TermType::Bitvec { .. }
        | TermType::Bool
        | TermType::Entity { .. }
        | TermType::Ext { .. }
        | TermType::String
        | TermType::Set { .. } => Ok(None),
    }
}
