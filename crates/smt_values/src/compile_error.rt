// Why a Cedar type has no type of terms.
#![tactic(auto, using(crate::specs::TypeView::cedar_views, smt_term::specs::View::views))]

ghost use Rattle.std.specs.Prelude.{◌≡◌, IfOk};
ghost use Rattle.std.specs.String.{string_bytes};
ghost use Rattle.smt_values.specs.RefusedTypes.{IsRefusalBy};
ghost use Rattle.smt_values.specs.TypeOfCedar.{unsupported_extension};

use smt_term::{TermError, Text};
use std::alloc::{AllocError, AllocFailed, Global};
use thiserror::Error;

/// Why no term stands for a part of Cedar.
#[derive(Debug, PartialEq, Eq, Drop, Error)]
pub enum CompileError {
    /// The part is not supported, for the reason that the text gives.
    #[error("{0}")]
    UnsupportedFeature(Text),
    /// There was no memory for the result.
    #[error("out of memory for a term")]
    Memory,
}

/// The refusal of a part for this reason.
pub(crate) fn unsupported(alloc: Global, reason: &str) -> CompileError
    ensures { IsRefusalBy result reason.now }
{
    match Text::from_str(alloc, reason) {
        Ok(text) => CompileError::UnsupportedFeature(text),
        Err(_) => CompileError::Memory,
    }
}

/// The reason why an extension type of this name has no type of terms.
fn extension_reason(alloc: Global, name: &str) -> Result<String, AllocError>
    ensures { IfOk result (λ text. string_bytes text ≡ unsupported_extension name.now) }
{
    let mut text = String::from_str(alloc, "unsupported extension ")?;
    text.push_str(name)?;
    Ok(text)
}

/// The refusal of an extension type of this name.
pub(crate) fn unsupported_extension(alloc: Global, name: &str) -> CompileError
    ensures { IsRefusalBy result (unsupported_extension name.now) }
{
    match extension_reason(alloc, name) {
        Ok(reason) => unsupported(alloc, reason.as_str()),
        Err(_) => CompileError::Memory,
    }
}

impl From<AllocError> for CompileError {
    ghost use Rattle.std.specs.Prelude.{◌≡◌};
    ghost use Rattle.smt_values.specs.declared.compile_error.CompileError.TheVariants.{Memory};

    ghost from_gives = { λ cause error. error ≡ Memory };

    fn from(_error: AllocError) -> CompileError {
        CompileError::Memory
    }
}

impl<T: Drop> From<AllocFailed<T>> for CompileError {
    ghost use Rattle.std.specs.Prelude.{◌≡◌};
    ghost use Rattle.smt_values.specs.declared.compile_error.CompileError.TheVariants.{Memory};

    ghost from_gives = { λ cause error. error ≡ Memory };

    fn from(_error: AllocFailed<T>) -> CompileError {
        CompileError::Memory
    }
}

impl From<TermError> for CompileError {
    ghost use Rattle.std.specs.Prelude.{◌≡◌};
    ghost use Rattle.smt_values.specs.declared.compile_error.CompileError.TheVariants.{Memory};

    ghost from_gives = { λ cause error. error ≡ Memory };

    fn from(_error: TermError) -> CompileError {
        CompileError::Memory
    }
}
