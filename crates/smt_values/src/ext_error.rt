#![tactic(auto, using(crate::specs::ValueView::value_views))]
// Why a value or an expression is no value of an extension type.
use crate::expression::RestrictedExpr;
use crate::value::Value;
use smt_ext::{DatetimeError, DecimalError, ExtParseError, IPError};
use smt_term::{TermError, Text};
use std::alloc::{AllocError, AllocFailed};
use thiserror::Error;

/// Why a value or an expression is no value of an extension type, or why none was made.
#[derive(Debug, PartialEq, Eq, Drop, Error)]
pub enum ExtError {
    /// The value is no call that makes a value of an extension type.
    #[error("fail to convert value to an extension term: {0:?}")]
    FromValue(Value),
    /// The expression is no call that makes a value of an extension type.
    #[error("fail to convert expression to an extension term: {0:?}")]
    FromRestrictedExpr(RestrictedExpr),
    /// A text is no datetime, or no duration. No call answers it.
    #[error("datetime error")]
    DatetimeError(DatetimeError),
    /// A text is no decimal. No call answers it.
    #[error("decimal error")]
    DecimalError(DecimalError),
    /// A text is no IP range. No call answers it.
    #[error("IP error")]
    IPError(IPError),
    /// Kept for its name. No call answers it.
    #[error("evaluation error when converting to value")]
    EvaluationError,
    /// Kept for its name. No call answers it.
    #[error("extension function `{0}` not found")]
    ExtensionFunctionNotFound(Text),
    /// Kept for its name. No call answers it.
    #[error("extension function returned a partial value")]
    UnsupportedPartialValue,
    /// Kept for its name. No call answers it.
    #[error("failed to parse extension function name")]
    ExtensionFunctionParseError,
    /// There was no memory for the result.
    #[error("out of memory")]
    Memory,
}

impl From<DecimalError> for ExtError {
    ghost use Rattle.std.specs.Prelude.{◌≡◌};
    ghost use Rattle.smt_values.specs.RefusedValues.{decimal_refusal};

    ghost from_gives = { λ refused error. error ≡ decimal_refusal refused };

    fn from(error: DecimalError) -> ExtError {
        match error {
            DecimalError::Memory => ExtError::Memory,
            other => ExtError::DecimalError(other),
        }
    }
}

impl From<DatetimeError> for ExtError {
    ghost use Rattle.std.specs.Prelude.{◌≡◌};
    ghost use Rattle.smt_values.specs.RefusedValues.{datetime_refusal};

    ghost from_gives = { λ refused error. error ≡ datetime_refusal refused };

    fn from(error: DatetimeError) -> ExtError {
        match error {
            DatetimeError::Memory => ExtError::Memory,
            other => ExtError::DatetimeError(other),
        }
    }
}

impl From<IPError> for ExtError {
    ghost use Rattle.std.specs.Prelude.{◌≡◌};
    ghost use Rattle.smt_values.specs.RefusedValues.{range_refusal};

    ghost from_gives = { λ refused error. error ≡ range_refusal refused };

    fn from(error: IPError) -> ExtError {
        match error {
            IPError::Memory => ExtError::Memory,
            other => ExtError::IPError(other),
        }
    }
}

impl From<ExtParseError> for ExtError {
    ghost use Rattle.std.specs.Prelude.{◌≡◌};
    ghost use Rattle.smt_values.specs.RefusedValues.{reader_refusal};

    ghost from_gives = { λ refused error. error ≡ reader_refusal refused };

    fn from(error: ExtParseError) -> ExtError {
        match error {
            ExtParseError::DecimalError(inner) => ExtError::from(inner),
            ExtParseError::DatetimeError(inner) => ExtError::from(inner),
            ExtParseError::IPError(inner) => ExtError::from(inner),
            ExtParseError::Memory => ExtError::Memory,
        }
    }
}

impl From<AllocError> for ExtError {
    ghost use Rattle.std.specs.Prelude.{◌≡◌};
    ghost use Rattle.smt_values.specs.declared.ext_error.ExtError.TheVariants.{Memory};

    ghost from_gives = { λ cause error. error ≡ Memory };

    fn from(_error: AllocError) -> ExtError {
        ExtError::Memory
    }
}

impl<T: Drop> From<AllocFailed<T>> for ExtError {
    ghost use Rattle.std.specs.Prelude.{◌≡◌};
    ghost use Rattle.smt_values.specs.declared.ext_error.ExtError.TheVariants.{Memory};

    ghost from_gives = { λ cause error. error ≡ Memory };

    fn from(_error: AllocFailed<T>) -> ExtError {
        ExtError::Memory
    }
}

impl From<TermError> for ExtError {
    ghost use Rattle.std.specs.Prelude.{◌≡◌};
    ghost use Rattle.smt_values.specs.declared.ext_error.ExtError.TheVariants.{Memory};

    ghost from_gives = { λ cause error. error ≡ Memory };

    fn from(_error: TermError) -> ExtError {
        ExtError::Memory
    }
}
