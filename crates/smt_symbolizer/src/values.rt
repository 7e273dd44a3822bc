// Values that are known, and the terms of records of them.
ghost use Rattle.std.specs.Prelude.{◌≡◌, map};
ghost use Rattle.std.specs.Rc.{rc_str_bytes};
ghost use Rattle.smt_values.specs.TypeView.{plain_cedar_attributes};
ghost use Rattle.smt_values.specs.ValueView.{known_fields, named_field, named_fields, plain_known};
ghost use Rattle.smt_values.specs.ValueView.{plain_value_of};
ghost use Rattle.law_cedar.specs.Tables as stated;
ghost use Rattle.smt_term.specs.View.{plain_term};
ghost use Rattle.smt_values.specs.Outcomes.{each};
ghost use Rattle.smt_values.specs.Refused.{IsGiven};

use smt_term::{Attr, Term};
use smt_text::share_text;
use smt_values::{
    Attributes, PartialMap, PartialValue, SymbolizeError, Value, ValueMap, from_record,
};
use std::alloc::Global;

/// The value, where it is known.
pub(crate) fn known_value(part: &PartialValue) -> Result<&Value, SymbolizeError>
    ensures { IsGiven (λ v. plain_value_of v.now) result
        (stated.known_value (plain_known part.now)) }
{
    match part {
        PartialValue::Value(v) => Ok(v),
        PartialValue::Residual => Err(SymbolizeError::PartialValue),
    }
}

/// An attribute with its value, where that is known.
fn known_pair(name: &Attr, part: &PartialValue) -> Result<(Attr, Value), SymbolizeError>
    ensures { IsGiven named_field result
        (stated.known_field (rc_str_bytes name.now, plain_known part.now)) }
{
    let value = known_value(part)?;
    let name = share_text(name)?;
    Ok((name, value.share()?))
}

/// The attributes of a map with their values, where all of these are known.
fn known_pairs(alloc: Global, fields: &PartialMap) -> Result<Vec<(Attr, Value)>, SymbolizeError>
    ensures { IsGiven (λ pairs. map named_field pairs.items) result
        (each stated.known_field (known_fields fields.now)) }
{
    let mut pairs: Vec<(Attr, Value)> = Vec::new(alloc);
    for (name, part) in fields.items() {
        pairs.push(known_pair(name, part)?)?;
    }
    Ok(pairs)
}

/// The values of a map, where all of them are known.
fn known_values(alloc: Global, fields: &PartialMap) -> Result<ValueMap, SymbolizeError>
    ensures { IsGiven named_fields result (each stated.known_field (known_fields fields.now)) }
{
    let pairs = known_pairs(alloc, fields)?;
    Ok(ValueMap::of_pairs(alloc, pairs)?)
}

/// The term of a record of attributes, all of which have to be known.
pub(crate) fn fields_term(
    alloc: Global,
    attrs: &Attributes,
    fields: &PartialMap,
) -> Result<Term, SymbolizeError>
    ensures { IsGiven plain_term result
        (stated.fields_term (plain_cedar_attributes attrs.now) (known_fields fields.now)) }
{
    let held = known_values(alloc, fields)?;
    from_record(alloc, &held, attrs)
}
