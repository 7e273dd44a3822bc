// Why a value has no term.
#![tactic(auto, using(crate::specs::TypeView::cedar_views, crate::specs::ValueView::value_views, smt_term::specs::View::views))]

use crate::{CompileError, ExtError, Value};
use smt_term::TermError;
use std::alloc::{AllocError, AllocFailed};
use thiserror::Error;

/// Why no term stands for a part of Cedar's values and requests.
#[derive(Debug, PartialEq, Eq, Drop, Error)]
pub enum SymbolizeError {
    /// The value has no term at the type that it stands at.
    #[error("unable to symbolize value {0:?}")]
    UnableToSymbolizeValue(Value),
    /// No type of terms stands for a Cedar type. The inner error is never its `Memory`.
    #[error("compile error")]
    CompileError(CompileError),
    /// The value is no value of an extension type: always `FromValue`.
    #[error("extension error")]
    ExtError(ExtError),
    /// A part of a request is missing. No call of this crate answers it.
    #[error("partial request not supported")]
    PartialRequest,
    /// A value is not known. No call of this crate answers it.
    #[error("partial value not supported")]
    PartialValue,
    /// A request is of no environment of the schema. No call of this crate answers it.
    #[error("ill-formed type environment")]
    IllFormedTypeEnv,
    /// Kept for its name. No call answers it.
    #[error("entities error")]
    EntitiesError,
    /// There was no memory for the result.
    #[error("out of memory")]
    Memory,
}

impl From<CompileError> for SymbolizeError {
    ghost use Rattle.std.specs.Prelude.{◌≡◌};
    ghost use Rattle.smt_values.specs.Refused.{type_refusal};

    ghost from_gives = { λ refused error. error ≡ type_refusal refused };

    fn from(error: CompileError) -> SymbolizeError {
        match error {
            CompileError::Memory => SymbolizeError::Memory,
            other => SymbolizeError::CompileError(other),
        }
    }
}

impl From<ExtError> for SymbolizeError {
    ghost use Rattle.std.specs.Prelude.{◌≡◌};
    ghost use Rattle.smt_values.specs.Refused.{value_refusal};

    ghost from_gives = { λ refused error. error ≡ value_refusal refused };

    fn from(error: ExtError) -> SymbolizeError {
        match error {
            ExtError::Memory => SymbolizeError::Memory,
            other => SymbolizeError::ExtError(other),
        }
    }
}

impl From<TermError> for SymbolizeError {
    ghost use Rattle.std.specs.Prelude.{◌≡◌};
    ghost use Rattle.smt_values.specs.declared.error.SymbolizeError.TheVariants.{Memory};

    ghost from_gives = { λ cause error. error ≡ Memory };

    fn from(_error: TermError) -> SymbolizeError {
        SymbolizeError::Memory
    }
}

impl From<AllocError> for SymbolizeError {
    ghost use Rattle.std.specs.Prelude.{◌≡◌};
    ghost use Rattle.smt_values.specs.declared.error.SymbolizeError.TheVariants.{Memory};

    ghost from_gives = { λ cause error. error ≡ Memory };

    fn from(_error: AllocError) -> SymbolizeError {
        SymbolizeError::Memory
    }
}

impl<T: Drop> From<AllocFailed<T>> for SymbolizeError {
    ghost use Rattle.std.specs.Prelude.{◌≡◌};
    ghost use Rattle.smt_values.specs.declared.error.SymbolizeError.TheVariants.{Memory};

    ghost from_gives = { λ cause error. error ≡ Memory };

    fn from(_error: AllocFailed<T>) -> SymbolizeError {
        SymbolizeError::Memory
    }
}
