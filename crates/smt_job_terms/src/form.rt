// What terms are made of besides their parts.
ghost use Rattle.std.specs.Prelude.{◌≡◌, [], bytes_eq, decimal, map, option_map};
ghost use Rattle.std.specs.List.{list_any};
ghost use Rattle.std.specs.Rc.{rc_str_bytes};
ghost use Rattle.smt_bits.specs.Width.{bits_in};
ghost use Rattle.smt_sexpr.specs.View.{plain, plain_list};
ghost use Rattle.smt_term.specs.View.{plain_op, plain_term};
ghost use Rattle.law_jobs.specs.Declarations.{Declared as Stated};
ghost use Rattle.law_jobs.specs.Outcomes.{LiteralFault};
ghost use Rattle.law_jobs.specs.Terms as stated;
ghost use Rattle.smt_job_terms.specs.TermView as view;
ghost use Rattle.smt_job_terms.specs.DeclarationView.{HasDeclared};
ghost use Rattle.smt_job_terms.specs.ReadAs.{IsFault, IsReadAs};
ghost use Rattle.smt_job_terms.specs.TermView.{plain_form};
ghost use Rattle.law_texts.specs.SharedTexts.{GivesText};

use crate::extension::{datetime_in, decimal_in, duration_in, range_in};
use crate::operator::operator_named;
use crate::pattern::pattern_from;
use crate::{Declared, JobError, bad_literal, duplicate, type_from, unknown, width_in};
use smt_bits::{BitVec, Width};
use smt_sexpr::{SExpr, both, first_in, number_in, pair_in, sole, sole_text, text_in};
use smt_term::{Attr, EntityID, EntityType, EntityUID, Op, Term, TermType, TermVar, Text};
use smt_text::digits;
use std::alloc::{AllocError, Global};

/// What a term is made of besides its parts, and which of the expressions behind its head are its parts.
#[derive(Drop)]
pub(crate) enum Form {
    /// A term without parts.
    Whole(Term),
    /// An operator at all of them.
    Operator(Op),
    /// An operator at the second of two, the first of which belongs to the operator.
    OperatorBehind(Op),
    /// What is there of an option.
    Present,
    /// The elements of a set, behind their type.
    Elements(TermType),
    /// The values of these attributes, each the second of a pair.
    Fields(Vec<Attr>),
}

/// A literal by its name.
fn truth_named(name: &str) -> Option<Term>
    ensures { option_map plain_term result ≡ stated.truth_named name.now }
{
    match name {
        "true" => Some(Term::from(true)),
        "false" => Some(Term::from(false)),
        _ => None,
    }
}

/// The term that an atom states.
pub(crate) fn atom_from(expression: &SExpr) -> Result<Term, JobError>
    ensures { IsReadAs plain_term result (view.atom_outcome (plain expression.now)) }
{
    match expression {
        SExpr::Symbol(name) => truth_named(name.as_str()).ok_or(JobError::BadForm),
        SExpr::String(text) => Ok(Term::from(text.clone()?)),
        SExpr::BitVec(bits) => Ok(Term::from(*bits)),
        SExpr::Numeral(_) | SExpr::App(_) => Err(JobError::BadForm),
    }
}

/// The variable of the id that is stated.
fn variable_form(declared: &Declared, operands: &[SExpr]) -> Result<Form, JobError>
    ensures { (ds : Stated) → HasDeclared declared.now ds →
        IsReadAs plain_form result (stated.variable_form ds (plain_list operands.now)) }
{
    let id = sole_text(operands).ok_or(JobError::BadForm)?;
    match declared.variables.type_of(id) {
        Some(ty) => Ok(Form::Whole(Term::Var(TermVar {
            id: id.clone()?,
            ty: ty.share()?,
        }))),
        None => Err(unknown(id)),
    }
}

/// The literal of a width and a number, where the number is one of that width.
pub fn bits_literal(width: Width, number: u128) -> Option<Term>
    ensures { option_map plain_term result ≡ stated.bits_literal (bits_in width) number }
{
    let bits = BitVec::of_nat(width, number);
    if bits.to_nat() == number {
        Some(Term::from(bits))
    } else {
        None
    }
}

/// A number in decimal.
fn decimal_text(alloc: Global, number: u128) -> Result<Text, AllocError>
    ensures { GivesText result (decimal number) }
{
    Text::from_string(format!(in alloc; "{number}")?)
}

/// The refusal of a number that is too great for its width.
fn great_number(alloc: Global, number: u128) -> JobError
    ensures { IsFault result (LiteralFault (decimal number)) }
{
    match decimal_text(alloc, number) {
        Ok(text) => JobError::BadLiteral(text),
        Err(_) => JobError::Memory,
    }
}

/// The literal of the width and the number that are stated.
fn bits_form(alloc: Global, operands: &[SExpr]) -> Result<Form, JobError>
    ensures { IsReadAs plain_form result (stated.bits_form (plain_list operands.now)) }
{
    let (width, number) = both(operands).ok_or(JobError::BadForm)?;
    let number = number_in(number).ok_or(JobError::BadForm)?;
    let width = width_in(width).ok_or(JobError::BadWidth)?;
    match bits_literal(width, number) {
        Some(literal) => Ok(Form::Whole(literal)),
        None => Err(great_number(alloc, number)),
    }
}

/// A number of 64 bits, by its text.
fn long_in(text: &str) -> Option<i64>
    ensures { result ≡ stated.long_in text.now }
{
    let (negative, magnitude) = digits::split_minus(text.as_bytes());
    if digits::are_digits(magnitude) {
        digits::with_sign(negative, digits::number(magnitude)?)
    } else {
        None
    }
}

/// The literal of 64 bits that is stated.
fn long_form(operands: &[SExpr]) -> Result<Form, JobError>
    ensures { IsReadAs plain_form result
        (stated.literal_form stated.long_literal (plain_list operands.now)) }
{
    let text = sole_text(operands).ok_or(JobError::BadForm)?;
    match long_in(text.as_str()) {
        Some(number) => Ok(Form::Whole(Term::from(number))),
        None => Err(bad_literal(text)),
    }
}

/// The entity of the type and the id that are stated.
fn entity_form(operands: &[SExpr]) -> Result<Form, JobError>
    ensures { IsReadAs plain_form result (stated.entity_form (plain_list operands.now)) }
{
    let (ty, id) = both(operands).ok_or(JobError::BadForm)?;
    let ty = text_in(ty).ok_or(JobError::BadForm)?;
    let id = text_in(id).ok_or(JobError::BadForm)?;
    Ok(Form::Whole(Term::from(EntityUID {
        ety: EntityType(ty.clone()?),
        id: EntityID(id.clone()?),
    })))
}

/// The decimal of the text that is stated.
fn decimal_form(alloc: Global, operands: &[SExpr]) -> Result<Form, JobError>
    ensures { IsReadAs plain_form result
        (stated.literal_form stated.decimal_literal (plain_list operands.now)) }
{
    let text = sole_text(operands).ok_or(JobError::BadForm)?;
    match decimal_in(alloc, text.as_str())? {
        Some(value) => Ok(Form::Whole(Term::from(value))),
        None => Err(bad_literal(text)),
    }
}

/// The IP range of the text that is stated.
fn range_form(alloc: Global, operands: &[SExpr]) -> Result<Form, JobError>
    ensures { IsReadAs plain_form result
        (stated.literal_form stated.range_literal (plain_list operands.now)) }
{
    let text = sole_text(operands).ok_or(JobError::BadForm)?;
    match range_in(alloc, text.as_str())? {
        Some(value) => Ok(Form::Whole(Term::from(value))),
        None => Err(bad_literal(text)),
    }
}

/// The datetime of the text that is stated.
fn datetime_form(alloc: Global, operands: &[SExpr]) -> Result<Form, JobError>
    ensures { IsReadAs plain_form result
        (stated.literal_form stated.datetime_literal (plain_list operands.now)) }
{
    let text = sole_text(operands).ok_or(JobError::BadForm)?;
    match datetime_in(alloc, text.as_str())? {
        Some(value) => Ok(Form::Whole(Term::from(value))),
        None => Err(bad_literal(text)),
    }
}

/// The duration of the text that is stated.
fn duration_form(alloc: Global, operands: &[SExpr]) -> Result<Form, JobError>
    ensures { IsReadAs plain_form result
        (stated.literal_form stated.duration_literal (plain_list operands.now)) }
{
    let text = sole_text(operands).ok_or(JobError::BadForm)?;
    match duration_in(alloc, text.as_str())? {
        Some(value) => Ok(Form::Whole(Term::from(value))),
        None => Err(bad_literal(text)),
    }
}

/// The absent option of the type that is stated.
fn none_form(alloc: Global, operands: &[SExpr]) -> Result<Form, JobError>
    ensures { IsReadAs plain_form result (stated.none_form (plain_list operands.now)) }
{
    let ty = sole(operands).ok_or(JobError::BadForm)?;
    Ok(Form::Whole(Term::None(type_from(alloc, ty)?)))
}

/// What is there of an option.
fn some_form(operands: &[SExpr]) -> Result<Form, JobError>
    ensures { IsReadAs plain_form result (stated.some_form (plain_list operands.now)) }
{
    let _ = sole(operands).ok_or(JobError::BadForm)?;
    Ok(Form::Present)
}

/// The elements of the type that is stated first.
fn set_form(alloc: Global, operands: &[SExpr]) -> Result<Form, JobError>
    ensures { IsReadAs plain_form result (stated.set_form (plain_list operands.now)) }
{
    let ty = first_in(operands).ok_or(JobError::BadForm)?;
    Ok(Form::Elements(type_from(alloc, ty)?))
}

/// The name of a pair of a name and a term.
fn field_name(expression: &SExpr) -> Option<&Text>
    ensures { option_map (λ name. rc_str_bytes name.now) result
        ≡ stated.field_name (plain expression.now) }
{
    let (name, _) = pair_in(expression)?;
    text_in(name)
}

/// The names of pairs of a name and a term.
fn field_names(alloc: Global, items: &[SExpr]) -> Result<Vec<Attr>, JobError>
    ensures { IsReadAs (λ names. map rc_str_bytes names.items) result
        (stated.field_names (plain_list items.now)) }
{
    let mut names = Vec::new(alloc);
    for item in items {
        let name = field_name(item).ok_or(JobError::BadForm)?;
        names.push(name.clone()?)?;
    }
    Ok(names)
}

/// Whether a name is one of these.
fn is_among(names: &[Attr], name: &Attr) -> bool
    ensures { result ≡ list_any (bytes_eq (rc_str_bytes name.now)) (map rc_str_bytes names.now) }
{
    names.iter().any(|other| name == other)
}

/// Refuses the first name that stood before.
fn refuse_doubles(names: &[Attr]) -> Result<(), JobError>
    ensures { IsReadAs (λ u. map rc_str_bytes names.now) result
        (stated.new_names [] (map rc_str_bytes names.now)) }
{
    for place in 0..names.len() {
        if is_among(&names[..place], &names[place]) {
            return Err(duplicate(&names[place]));
        }
    }
    Ok(())
}

/// The attributes of a record.
fn record_form(alloc: Global, operands: &[SExpr]) -> Result<Form, JobError>
    ensures { IsReadAs plain_form result (stated.record_form (plain_list operands.now)) }
{
    let names = field_names(alloc, operands)?;
    refuse_doubles(names.as_slice())?;
    Ok(Form::Fields(names))
}

/// The extension by so many bits, at most 127.
fn extension_by(bits: u128) -> Option<Op>
    ensures { option_map plain_op result ≡ stated.extension_by bits }
{
    if bits <= 127 {
        Some(Op::ZeroExtend(u32::try_from(bits).ok()?))
    } else {
        None
    }
}

/// The extension by the number of bits that is stated.
fn extension_form(operands: &[SExpr]) -> Result<Form, JobError>
    ensures { IsReadAs plain_form result (stated.extension_form (plain_list operands.now)) }
{
    let (bits, _) = both(operands).ok_or(JobError::BadForm)?;
    let bits = number_in(bits).ok_or(JobError::BadWidth)?;
    Ok(Form::OperatorBehind(extension_by(bits).ok_or(JobError::BadWidth)?))
}

/// The selection of the attribute that is stated.
fn selection_form(operands: &[SExpr]) -> Result<Form, JobError>
    ensures { IsReadAs plain_form result (stated.selection_form (plain_list operands.now)) }
{
    let (attribute, _) = both(operands).ok_or(JobError::BadForm)?;
    let attribute = text_in(attribute).ok_or(JobError::BadForm)?;
    Ok(Form::OperatorBehind(Op::RecordGet(attribute.clone()?)))
}

/// The comparison with the pattern that is stated.
fn like_form(alloc: Global, operands: &[SExpr]) -> Result<Form, JobError>
    ensures { IsReadAs plain_form result (stated.like_form (plain_list operands.now)) }
{
    let (pattern, _) = both(operands).ok_or(JobError::BadForm)?;
    Ok(Form::OperatorBehind(Op::StringLike(pattern_from(alloc, pattern)?)))
}

/// The function of the id that is stated.
fn function_form(declared: &Declared, operands: &[SExpr]) -> Result<Form, JobError>
    ensures { (ds : Stated) → HasDeclared declared.now ds →
        IsReadAs plain_form result (stated.function_form ds (plain_list operands.now)) }
{
    let (id, _) = both(operands).ok_or(JobError::BadForm)?;
    let id = text_in(id).ok_or(JobError::BadForm)?;
    match declared.functions.function_of(id) {
        Some(function) => Ok(Form::OperatorBehind(Op::Uuf(function.clone()?))),
        None => Err(unknown(id)),
    }
}

/// The operator of another name.
fn operator_form(name: &Text) -> Result<Form, JobError>
    ensures { IsReadAs plain_form result (stated.operator_form (rc_str_bytes name.now)) }
{
    match operator_named(name.as_str()) {
        Some(op) => Ok(Form::Operator(op)),
        None => Err(unknown(name)),
    }
}

/// The form of a head and of what stands behind it.
pub(crate) fn form_from(
    alloc: Global,
    declared: &Declared,
    head: &Text,
    operands: &[SExpr],
) -> Result<Form, JobError>
    ensures { (ds : Stated) → HasDeclared declared.now ds →
        IsReadAs plain_form result
        (stated.form_of ds (rc_str_bytes head.now) (plain_list operands.now)) }
{
    match head.as_str() {
        "var" => variable_form(declared, operands),
        "bv" => bits_form(alloc, operands),
        "long" => long_form(operands),
        "entity" => entity_form(operands),
        "decimal" => decimal_form(alloc, operands),
        "ip" => range_form(alloc, operands),
        "datetime" => datetime_form(alloc, operands),
        "duration" => duration_form(alloc, operands),
        "none" => none_form(alloc, operands),
        "some" => some_form(operands),
        "set" => set_form(alloc, operands),
        "record" => record_form(alloc, operands),
        "zero_extend" => extension_form(operands),
        "record.get" => selection_form(operands),
        "string.like" => like_form(alloc, operands),
        "uuf" => function_form(declared, operands),
        _ => operator_form(head),
    }
}
