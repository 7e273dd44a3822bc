// Why there is no text.
ghost use Rattle.std.specs.Prelude.{◌≡◌};

use smt_term::{EntityType, EntityUID, OrdPattern, TermError, Text};
use std::alloc::AllocError;

/// Why there is no text of a type, a literal or an application.
#[derive(Debug, Drop)]
pub enum TextError {
    /// This entity is of an enum type, and no member of it.
    MissingMember(EntityUID),
    /// This string literal, or this id of an entity, has a character above `SMT_LIB_MAX_CODE_POINT`.
    StringFailed(Text),
    /// This pattern has a character above `SMT_LIB_MAX_CODE_POINT`.
    PatternFailed(OrdPattern),
    /// This enum type has no members.
    EmptyEnum(EntityType),
    /// There was no memory.
    Memory,
}

impl From<AllocError> for TextError {
    ghost use Rattle.std.specs.Prelude.{◌≡◌};
    ghost use Rattle.smt_spelling.specs.declared.error.TextError.TheVariants.{Memory};

    ghost from_gives = { λ _ error. error ≡ Memory };

    fn from(_error: AllocError) -> TextError {
        TextError::Memory
    }
}

impl From<TermError> for TextError {
    ghost use Rattle.std.specs.Prelude.{◌≡◌};
    ghost use Rattle.smt_spelling.specs.declared.error.TextError.TheVariants.{Memory};

    ghost from_gives = { λ _ error. error ≡ Memory };

    fn from(error: TermError) -> TextError {
        match error {
            TermError::Memory => TextError::Memory,
        }
    }
}
