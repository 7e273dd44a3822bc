// The values of extension types that texts state.
ghost use Rattle.std.specs.Prelude.{◌≡◌, IfOk, option_map};
ghost use Rattle.smt_ext.specs.ExtOrder.{plain_value};
ghost use Rattle.law_terms.specs.Plain.{ExtensionLiteral};
ghost use Rattle.law_jobs.specs.Terms as stated;

use smt_ext::{Ext, ExtParseError};
use std::alloc::{AllocError, Global};

/// A decimal, by its text.
pub(crate) fn decimal_in(alloc: Global, text: &str) -> Result<Option<Ext>, AllocError>
    ensures { IfOk result (λ value.
        option_map (λ v. ExtensionLiteral (plain_value v)) value
        ≡ stated.decimal_literal text.now) }
{
    match Ext::parse_decimal(alloc, text) {
        Ok(value) => Ok(Some(value)),
        Err(ExtParseError::Memory) => Err(AllocError),
        Err(_) => Ok(None),
    }
}

/// An IP range, by its text.
pub(crate) fn range_in(alloc: Global, text: &str) -> Result<Option<Ext>, AllocError>
    ensures { IfOk result (λ value.
        option_map (λ v. ExtensionLiteral (plain_value v)) value ≡ stated.range_literal text.now) }
{
    match Ext::parse_ip(alloc, text) {
        Ok(value) => Ok(Some(value)),
        Err(ExtParseError::Memory) => Err(AllocError),
        Err(_) => Ok(None),
    }
}

/// A datetime, by its text.
pub(crate) fn datetime_in(alloc: Global, text: &str) -> Result<Option<Ext>, AllocError>
    ensures { IfOk result (λ value.
        option_map (λ v. ExtensionLiteral (plain_value v)) value
        ≡ stated.datetime_literal text.now) }
{
    match Ext::parse_datetime(alloc, text) {
        Ok(value) => Ok(Some(value)),
        Err(ExtParseError::Memory) => Err(AllocError),
        Err(_) => Ok(None),
    }
}

/// A duration, by its text.
pub(crate) fn duration_in(alloc: Global, text: &str) -> Result<Option<Ext>, AllocError>
    ensures { IfOk result (λ value.
        option_map (λ v. ExtensionLiteral (plain_value v)) value
        ≡ stated.duration_literal text.now) }
{
    match Ext::parse_duration(alloc, text) {
        Ok(value) => Ok(Some(value)),
        Err(ExtParseError::Memory) => Err(AllocError),
        Err(_) => Ok(None),
    }
}
