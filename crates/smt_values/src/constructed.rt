#![tactic(auto, using(crate::specs::ValueView::value_views))]
// The calls that make values of extension types.
ghost use Rattle.std.specs.Prelude.{◌≡◌, IfErr, IfOk, ℤ};
ghost use Rattle.std.specs.Rc.{rc_str_bytes};
ghost use Rattle.smt_ext.specs.ExtOrder.{plain_value};
ghost use Rattle.smt_values.specs.Constructed.{call_with, constructor_of, datetime_call};
ghost use Rattle.smt_values.specs.Constructed.{duration_call};
ghost use Rattle.smt_values.specs.PlainValues.{ExtensionValue};
ghost use Rattle.smt_values.specs.ValueView.{plain_expression, plain_value_of};

use crate::expression::{ExprList, RestrictedExpr};
use crate::ext_error::ExtError;
use crate::literal::Literal;
use crate::value::Value;
use smt_ext::Ext;
use smt_term::{TermError, Text};
use std::alloc::{AllocError, Global};

/// The value that says a value of an extension type: a call of `decimal` or `ip` with its printed text, of `duration` with
/// its milliseconds, or the `offset` of `1970-01-01` by the milliseconds of a datetime.
///
/// # Errors
/// `Memory`, where there is none for the value.
pub fn value_of_ext(alloc: Global, x: &Ext) -> Result<Value, ExtError>
    ensures made { IfOk result
        (λ v. plain_value_of v ≡ ExtensionValue (constructor_of (plain_value x.now))) }
    ensures refused { IfErr result (λ e. e ≡ ExtError.Memory) }
{
    Ok(Value::ExtensionValue(constructor_of_ext(alloc, x)?))
}

/// The call that makes a value of an extension type.
fn constructor_of_ext(alloc: Global, x: &Ext) -> Result<RestrictedExpr, TermError>
    ensures { IfOk result (λ call. plain_expression call ≡ constructor_of (plain_value x.now)) }
{
    match x {
        Ext::Decimal { d } => {
            let text = format!(in alloc; "{d}")?;
            call_with_text(alloc, "decimal", text.as_str())
        }
        Ext::Ipaddr { ip } => {
            let text = format!(in alloc; "{ip}")?;
            call_with_text(alloc, "ip", text.as_str())
        }
        Ext::Datetime { dt } => offset_call(alloc, i64::from(dt)),
        Ext::Duration { d } => duration_call_of(alloc, d.to_milliseconds()),
    }
}

/// A call of this function with one text.
fn call_with_text(alloc: Global, name: &str, text: &str) -> Result<RestrictedExpr, TermError>
    ensures { IfOk result (λ call. plain_expression call ≡ call_with name.now text.now) }
{
    let sole = RestrictedExpr::Lit(Literal::String(Text::from_str(alloc, text)?));
    let mut args = ExprList::new(alloc);
    args.push(sole)?;
    Ok(RestrictedExpr::Call {
        name: Text::from_str(alloc, name)?,
        args,
    })
}

/// The call of `duration` with so many milliseconds.
fn duration_call_of(alloc: Global, milliseconds: i64) -> Result<RestrictedExpr, TermError>
    ensures { IfOk result (λ call. plain_expression call ≡ duration_call milliseconds) }
{
    let text = format!(in alloc; "{milliseconds}ms")?;
    call_with_text(alloc, "duration", text.as_str())
}

/// The call of `offset` that makes the moment so many milliseconds from 1970.
fn offset_call(alloc: Global, milliseconds: i64) -> Result<RestrictedExpr, TermError>
    ensures { IfOk result (λ call. plain_expression call ≡ datetime_call milliseconds) }
{
    let start = call_with_text(alloc, "datetime", "1970-01-01")?;
    let span = duration_call_of(alloc, milliseconds)?;
    let mut args = ExprList::new(alloc);
    args.push(start)?;
    args.push(span)?;
    Ok(RestrictedExpr::Call {
        name: Text::from_str(alloc, "offset")?,
        args,
    })
}
