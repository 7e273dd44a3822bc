#![tactic(auto, using(crate::specs::ValueView::value_views))]
// The values of extension types that Cedar's values and expressions say.
ghost use Rattle.std.specs.Prelude.{◌≡◌, IfErr, IfOk, Some, option_map};
ghost use Rattle.std.specs.Rc.{rc_str_bytes};
ghost use Rattle.smt_ext.specs.ExtOrder.{plain_value};
ghost use Rattle.smt_ext.specs.Milliseconds.{datetime_value, duration_value};
ghost use Rattle.law_numbers.specs.Extensions.{DatetimeOf, DecimalOf};
ghost use Rattle.smt_ext.specs.IpOrder.{plain_range};
ghost use Rattle.law_extensions.specs.DatetimeTexts as datetimes;
ghost use Rattle.law_extensions.specs.DecimalTexts as decimals;
ghost use Rattle.law_extensions.specs.DurationTexts as durations;
ghost use Rattle.law_extensions.specs.RangeTexts as ranges;
ghost use Rattle.smt_values.specs.Constructors as stated;
ghost use Rattle.smt_values.specs.Constructors.{value_of_expression, value_of_value};
ghost use Rattle.smt_values.specs.RefusedValues.{IsExpressionRefusal, IsValueRefusal};
ghost use Rattle.smt_values.specs.ValueView.{arguments_of, plain_expression, plain_literal};
ghost use Rattle.smt_values.specs.ValueView.{plain_value_of};

use crate::expression::RestrictedExpr;
use crate::ext_error::ExtError;
use crate::literal::Literal;
use crate::value::Value;
use smt_ext::{Datetime, DatetimeError, Duration, Ext, ExtParseError};
use smt_term::Text;
use std::alloc::{AllocError, Global};

/// A value of an extension type that Cedar's values and expressions say.
pub trait ExtFromCedar {
    /// The value of an extension type that a value is.
    ///
    /// # Errors
    /// `FromValue` with an equal value exactly where it is none: where it is no call of `decimal`, `datetime`, `duration` or
    /// `ip` with one text that is read so, and no `offset` of a call of `datetime` and one of `duration` whose sum is in 64
    /// bits. `Memory`, where there is none for the refusal.
    fn try_from_value(alloc: Global, v: &Value) -> Result<Ext, ExtError>
        ensures read { IfOk result
            (λ x. value_of_value (plain_value_of v.now) ≡ Some (plain_value x)) }
        ensures refused { IfErr result (IsValueRefusal (plain_value_of v.now)) };

    /// The value of an extension type that an expression says.
    ///
    /// # Errors
    /// `FromRestrictedExpr` with an equal expression exactly where it says none, as for values; `Memory`, where there is
    /// none for the refusal.
    fn try_from_restricted(alloc: Global, e: &RestrictedExpr) -> Result<Ext, ExtError>
        ensures read { IfOk result
            (λ x. value_of_expression (plain_expression e.now) ≡ Some (plain_value x)) }
        ensures refused { IfErr result (IsExpressionRefusal (plain_expression e.now)) };
}

impl ExtFromCedar for Ext {
    fn try_from_value(alloc: Global, v: &Value) -> Result<Ext, ExtError> {
        match of_value(alloc, v)? {
            Some(value) => Ok(value),
            None => Err(ExtError::FromValue(v.share()?)),
        }
    }

    fn try_from_restricted(alloc: Global, e: &RestrictedExpr) -> Result<Ext, ExtError> {
        match of_expression(alloc, e)? {
            Some(value) => Ok(value),
            None => Err(ExtError::FromRestrictedExpr(e.share()?)),
        }
    }
}

/// The value of an extension type that a value is, where it is one.
fn of_value(alloc: Global, v: &Value) -> Result<Option<Ext>, AllocError>
    ensures { IfOk result
        (λ made. option_map plain_value made ≡ value_of_value (plain_value_of v.now)) }
{
    match v {
        Value::ExtensionValue(call) => of_expression(alloc, call),
        Value::Lit(_) => Ok(None),
        Value::Set(_) => Ok(None),
        Value::Record(_) => Ok(None),
    }
}

/// The value that an expression says, where it says one.
fn of_expression(alloc: Global, e: &RestrictedExpr) -> Result<Option<Ext>, AllocError>
    ensures { IfOk result
        (λ made. option_map plain_value made ≡ value_of_expression (plain_expression e.now)) }
{
    match e {
        RestrictedExpr::Call { name, args } => of_call(alloc, name.as_str(), args.items()),
        RestrictedExpr::Lit(_) => Ok(None),
        RestrictedExpr::Other => Ok(None),
    }
}

/// What a call of the function of this name makes of these arguments.
fn of_call(alloc: Global, name: &str, args: &[RestrictedExpr]) -> Result<Option<Ext>, AllocError>
    ensures { IfOk result (λ made.
        option_map plain_value made ≡ stated.value_of_call name.now (arguments_of args.now)) }
{
    match name {
        "decimal" => decimal_of(alloc, args),
        "datetime" => datetime_of(alloc, args),
        "duration" => duration_of(alloc, args),
        "ip" => range_of(alloc, args),
        "offset" => offset_of(alloc, args),
        _ => Ok(None),
    }
}

/// The text of a literal that is a text.
fn text_in(literal: &Literal) -> Option<&Text>
    ensures { option_map (λ text. rc_str_bytes text.now) result
        ≡ stated.text_in (plain_literal literal.now) }
{
    match literal {
        Literal::String(text) => Some(text),
        Literal::Bool(_) => None,
        Literal::Long(_) => None,
        Literal::EntityUID(_) => None,
    }
}

/// The text of an expression that is a text.
fn text_of(e: &RestrictedExpr) -> Option<&Text>
    ensures { option_map (λ text. rc_str_bytes text.now) result
        ≡ stated.text_of (plain_expression e.now) }
{
    match e {
        RestrictedExpr::Lit(literal) => text_in(literal),
        RestrictedExpr::Call { .. } => None,
        RestrictedExpr::Other => None,
    }
}

/// The text, where there is exactly one argument and it is a text.
fn sole_text(args: &[RestrictedExpr]) -> Option<&Text>
    ensures { option_map (λ text. rc_str_bytes text.now) result
        ≡ stated.sole_text (arguments_of args.now) }
{
    match args {
        [] => None,
        [sole] => text_of(sole),
        [_, _, ..] => None,
    }
}

/// The decimal that the one text writes.
fn decimal_of(alloc: Global, args: &[RestrictedExpr]) -> Result<Option<Ext>, AllocError>
    ensures { IfOk result
        (λ made. option_map plain_value made ≡ stated.decimal_of (arguments_of args.now)) }
{
    match sole_text(args) {
        Some(text) => decimal_in(alloc, text.as_str()),
        None => Ok(None),
    }
}

/// The IP range that the one text writes.
fn range_of(alloc: Global, args: &[RestrictedExpr]) -> Result<Option<Ext>, AllocError>
    ensures { IfOk result
        (λ made. option_map plain_value made ≡ stated.range_of (arguments_of args.now)) }
{
    match sole_text(args) {
        Some(text) => range_in(alloc, text.as_str()),
        None => Ok(None),
    }
}

/// The moment that the one text writes, as a value.
fn datetime_of(alloc: Global, args: &[RestrictedExpr]) -> Result<Option<Ext>, AllocError>
    ensures { IfOk result
        (λ made. option_map plain_value made ≡ stated.datetime_of (arguments_of args.now)) }
{
    match moment_of(alloc, args)? {
        Some(dt) => Ok(Some(Ext::Datetime { dt })),
        None => Ok(None),
    }
}

/// The span that the one text writes, as a value.
fn duration_of(alloc: Global, args: &[RestrictedExpr]) -> Result<Option<Ext>, AllocError>
    ensures { IfOk result
        (λ made. option_map plain_value made ≡ stated.duration_of (arguments_of args.now)) }
{
    match span_of(alloc, args)? {
        Some(d) => Ok(Some(Ext::Duration { d })),
        None => Ok(None),
    }
}

/// The moment that the one text writes.
fn moment_of(alloc: Global, args: &[RestrictedExpr]) -> Result<Option<Datetime>, AllocError>
    ensures { IfOk result
        (λ moment. option_map datetime_value moment ≡ stated.moment_of (arguments_of args.now)) }
{
    match sole_text(args) {
        Some(text) => datetime_in(alloc, text.as_str()),
        None => Ok(None),
    }
}

/// The span that the one text writes.
fn span_of(alloc: Global, args: &[RestrictedExpr]) -> Result<Option<Duration>, AllocError>
    ensures { IfOk result
        (λ span. option_map duration_value span ≡ stated.span_of (arguments_of args.now)) }
{
    match sole_text(args) {
        Some(text) => duration_in(alloc, text.as_str()),
        None => Ok(None),
    }
}

/// The arguments of an expression that is a call of this function.
fn called<'a>(name: &str, e: &'a RestrictedExpr) -> Option<&'a [RestrictedExpr]>
    ensures { option_map (λ args. arguments_of args.now) result
        ≡ stated.called name.now (plain_expression e.now) }
{
    match e {
        RestrictedExpr::Call { name: given, args } => {
            if name == given.as_str() {
                Some(args.items())
            } else {
                None
            }
        }
        RestrictedExpr::Lit(_) => None,
        RestrictedExpr::Other => None,
    }
}

/// The moment of a call of `datetime`.
fn moment_called(alloc: Global, e: &RestrictedExpr) -> Result<Option<Datetime>, AllocError>
    ensures { IfOk result (λ moment.
        option_map datetime_value moment ≡ stated.moment_called (plain_expression e.now)) }
{
    match called("datetime", e) {
        Some(args) => moment_of(alloc, args),
        None => Ok(None),
    }
}

/// The span of a call of `duration`.
fn span_called(alloc: Global, e: &RestrictedExpr) -> Result<Option<Duration>, AllocError>
    ensures { IfOk result
        (λ span. option_map duration_value span ≡ stated.span_called (plain_expression e.now)) }
{
    match called("duration", e) {
        Some(args) => span_of(alloc, args),
        None => Ok(None),
    }
}

/// A moment so much later, where that is in 64 bits, as a value.
fn later(moment: &Datetime, span: &Duration) -> Option<Ext>
    ensures { option_map plain_value result
        ≡ option_map DatetimeOf
        (stated.later (datetime_value moment.now) (duration_value span.now)) }
{
    match moment.offset(span) {
        Some(dt) => Some(Ext::Datetime { dt }),
        None => None,
    }
}

/// The moment of a call of `datetime`, later by the span of a call of `duration`, as a value.
fn offset_between(
    alloc: Global,
    first: &RestrictedExpr,
    second: &RestrictedExpr,
) -> Result<Option<Ext>, AllocError>
    ensures { IfOk result (λ made.
        option_map plain_value made
        ≡ option_map DatetimeOf
        (stated.offset_between (plain_expression first.now, plain_expression second.now))) }
{
    match moment_called(alloc, first)? {
        Some(moment) => match span_called(alloc, second)? {
            Some(span) => Ok(later(&moment, &span)),
            None => Ok(None),
        },
        None => Ok(None),
    }
}

/// What `offset` makes of these arguments.
fn offset_of(alloc: Global, args: &[RestrictedExpr]) -> Result<Option<Ext>, AllocError>
    ensures { IfOk result
        (λ made. option_map plain_value made ≡ stated.offset_of (arguments_of args.now)) }
{
    match args {
        [] => Ok(None),
        [_] => Ok(None),
        [first, second] => offset_between(alloc, first, second),
        [_, _, _, ..] => Ok(None),
    }
}

/// The decimal that a text writes.
fn decimal_in(alloc: Global, text: &str) -> Result<Option<Ext>, AllocError>
    ensures { IfOk result (λ made.
        option_map plain_value made ≡ option_map DecimalOf (decimals.decimal_in text.now)) }
{
    match Ext::parse_decimal(alloc, text) {
        Ok(value) => Ok(Some(value)),
        Err(ExtParseError::Memory) => Err(AllocError),
        Err(_) => Ok(None),
    }
}

/// The IP range that a text writes.
fn range_in(alloc: Global, text: &str) -> Result<Option<Ext>, AllocError>
    ensures { IfOk result
        (λ made. option_map plain_value made ≡ option_map plain_range (ranges.range_in text.now)) }
{
    match Ext::parse_ip(alloc, text) {
        Ok(value) => Ok(Some(value)),
        Err(ExtParseError::Memory) => Err(AllocError),
        Err(_) => Ok(None),
    }
}

/// The moment that a text writes.
fn datetime_in(alloc: Global, text: &str) -> Result<Option<Datetime>, AllocError>
    ensures { IfOk result
        (λ moment. option_map datetime_value moment ≡ datetimes.datetime_in text.now) }
{
    match Datetime::parse(alloc, text) {
        Ok(moment) => Ok(Some(moment)),
        Err(DatetimeError::Memory) => Err(AllocError),
        Err(_) => Ok(None),
    }
}

/// The span that a text writes.
fn duration_in(alloc: Global, text: &str) -> Result<Option<Duration>, AllocError>
    ensures { IfOk result
        (λ span. option_map duration_value span ≡ durations.duration_in text.now) }
{
    match Duration::parse(alloc, text) {
        Ok(span) => Ok(Some(span)),
        Err(DatetimeError::Memory) => Err(AllocError),
        Err(_) => Ok(None),
    }
}
