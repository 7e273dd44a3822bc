// Why an encoder refuses.
ghost use Rattle.std.specs.Prelude.{◌≡◌};

use smt_bits::BitVecError;
use smt_script::SinkError;
use smt_spelling::{SelectorError, TextError};
use smt_term::{Attr, EntityType, EntityUID, OrdPattern, TermError, TermType, Text};
use std::alloc::{AllocError, AllocFailed};
use thiserror::Error;

/// Why a call of an encoder did not write its lines.
#[derive(Debug, PartialEq, Eq, Drop, Error)]
pub enum EncodeError {
    /// The sink failed, which its count of faults shows.
    #[error("the sink of the script failed")]
    Io,
    /// This entity is of an enum type, and no member of it.
    #[error("an entity of an enum type is no member of it")]
    EnumMissingMember(EntityUID),
    /// A term takes this attribute of a record that does not have it.
    #[error("a record does not have the attribute that is taken of it")]
    RecordMissingAttr(Attr),
    /// A term takes an attribute of a value of this type, which is no record type.
    #[error("an attribute is taken of a type that is no record type")]
    ExpectRecord(TermType),
    /// A term takes an attribute of a value of this type, which has no name among the types.
    #[error("an attribute is taken of a type that has no name")]
    MissingTypeEncoding(TermType),
    /// A term takes an attribute of a record, and has no operand.
    #[error("an attribute is taken of no term")]
    MalformedRecordGet,
    /// This string literal, or this id of an entity, has a character above `SMT_LIB_MAX_CODE_POINT`.
    #[error("a string has a character above U+2FFFF")]
    EncodeStringFailed(Text),
    /// This pattern has a character above `SMT_LIB_MAX_CODE_POINT`.
    #[error("a pattern has a character above U+2FFFF")]
    EncodePatternFailed(OrdPattern),
    /// This enum type has no members, so its terms have no values.
    #[error("an enum type has no members")]
    EmptyEnum(EntityType),
    /// An earlier call of this encoder answered an error.
    #[error("the encoder is spent")]
    Spent,
    /// No level is open that could be closed.
    #[error("no level of the script is open")]
    NoScope,
    /// A call on bitvectors was refused. No call of an encoder gives this; it is for callers that build terms and encode them
    /// under one error.
    #[error("a call on bitvectors was refused")]
    BitVecError(BitVecError),
    /// There was no memory for a text, a name, an entry or, in the sink, for a line.
    #[error("out of memory for the script")]
    Memory,
}

/// Why terms were not written.
#[derive(Drop)]
pub(crate) enum WriteError {
    /// The sink did not take a line.
    Sink(SinkError),
    /// There was no text for a line, or no memory for a name.
    Text(TextError),
    /// There was no selector for an attribute.
    Selector(SelectorError),
}

impl From<WriteError> for EncodeError {
    ghost use Rattle.std.specs.Prelude.{◌≡◌};
    ghost use Rattle.smt_encode.specs.Errors.{encode_error};

    ghost from_gives = { λ inner error. error ≡ encode_error inner };

    fn from(error: WriteError) -> EncodeError {
        match error {
            WriteError::Sink(error) => EncodeError::from(error),
            WriteError::Text(TextError::MissingMember(entity)) => {
                EncodeError::EnumMissingMember(entity)
            }
            WriteError::Text(TextError::StringFailed(text)) => {
                EncodeError::EncodeStringFailed(text)
            }
            WriteError::Text(TextError::PatternFailed(pattern)) => {
                EncodeError::EncodePatternFailed(pattern)
            }
            WriteError::Text(TextError::EmptyEnum(ety)) => EncodeError::EmptyEnum(ety),
            WriteError::Text(TextError::Memory) => EncodeError::Memory,
            WriteError::Selector(SelectorError::NoOperand) => EncodeError::MalformedRecordGet,
            WriteError::Selector(SelectorError::Unnamed(ty)) => {
                EncodeError::MissingTypeEncoding(ty)
            }
            WriteError::Selector(SelectorError::NoRecord(ty)) => EncodeError::ExpectRecord(ty),
            WriteError::Selector(SelectorError::Lacks(attribute)) => {
                EncodeError::RecordMissingAttr(attribute)
            }
            WriteError::Selector(SelectorError::Memory) => EncodeError::Memory,
        }
    }
}

impl From<SinkError> for EncodeError {
    ghost use Rattle.std.specs.Prelude.{◌≡◌};
    ghost use Rattle.smt_encode.specs.Errors.{refusal_at};

    ghost from_gives = { λ inner error. error ≡ refusal_at inner };

    fn from(error: SinkError) -> EncodeError {
        match error {
            SinkError::Fault => EncodeError::Io,
            SinkError::Memory => EncodeError::Memory,
        }
    }
}

impl From<BitVecError> for EncodeError {
    ghost use Rattle.std.specs.Prelude.{◌≡◌};
    ghost use Rattle.smt_encode.specs.declared.error.EncodeError.TheVariants.{};
    ghost use Rattle.smt_encode.specs.declared.error.EncodeError.TheVariants.{BitVecError as BitsRefused};

    ghost from_gives = { λ inner error. error ≡ BitsRefused inner };

    fn from(error: BitVecError) -> EncodeError {
        EncodeError::BitVecError(error)
    }
}

impl From<TermError> for EncodeError {
    ghost use Rattle.std.specs.Prelude.{◌≡◌};
    ghost use Rattle.smt_encode.specs.declared.error.EncodeError.TheVariants.{Memory};

    ghost from_gives = { λ _ error. error ≡ Memory };

    fn from(error: TermError) -> EncodeError {
        match error {
            TermError::Memory => EncodeError::Memory,
        }
    }
}

impl From<AllocError> for EncodeError {
    ghost use Rattle.std.specs.Prelude.{◌≡◌};
    ghost use Rattle.smt_encode.specs.declared.error.EncodeError.TheVariants.{Memory};

    ghost from_gives = { λ _ error. error ≡ Memory };

    fn from(_error: AllocError) -> EncodeError {
        EncodeError::Memory
    }
}

impl<T: Drop> From<AllocFailed<T>> for EncodeError {
    ghost use Rattle.std.specs.Prelude.{◌≡◌};
    ghost use Rattle.smt_encode.specs.declared.error.EncodeError.TheVariants.{Memory};

    ghost from_gives = { λ _ error. error ≡ Memory };

    fn from(_error: AllocFailed<T>) -> EncodeError {
        EncodeError::Memory
    }
}

impl From<SinkError> for WriteError {
    ghost use Rattle.std.specs.Prelude.{◌≡◌};
    ghost use Rattle.smt_encode.specs.declared.error.WriteError.TheVariants.{Sink};

    ghost from_gives = { λ inner error. error ≡ Sink inner };

    fn from(error: SinkError) -> WriteError {
        WriteError::Sink(error)
    }
}

impl From<TextError> for WriteError {
    ghost use Rattle.std.specs.Prelude.{◌≡◌};
    ghost use Rattle.smt_encode.specs.declared.error.WriteError.TheVariants.{Text};

    ghost from_gives = { λ inner error. error ≡ Text inner };

    fn from(error: TextError) -> WriteError {
        WriteError::Text(error)
    }
}

impl From<SelectorError> for WriteError {
    ghost use Rattle.std.specs.Prelude.{◌≡◌};
    ghost use Rattle.smt_encode.specs.declared.error.WriteError.TheVariants.{Selector};

    ghost from_gives = { λ inner error. error ≡ Selector inner };

    fn from(error: SelectorError) -> WriteError {
        WriteError::Selector(error)
    }
}

impl From<TermError> for WriteError {
    ghost use Rattle.std.specs.Prelude.{◌≡◌};
    ghost use Rattle.smt_spelling.specs.declared.error.TextError.TheVariants.{Memory};
    ghost use Rattle.smt_encode.specs.declared.error.WriteError.TheVariants.{Text};

    ghost from_gives = { λ _ error. error ≡ Text Memory };

    fn from(error: TermError) -> WriteError {
        match error {
            TermError::Memory => WriteError::Text(TextError::Memory),
        }
    }
}

impl From<AllocError> for WriteError {
    ghost use Rattle.std.specs.Prelude.{◌≡◌};
    ghost use Rattle.smt_spelling.specs.declared.error.TextError.TheVariants.{Memory};
    ghost use Rattle.smt_encode.specs.declared.error.WriteError.TheVariants.{Text};

    ghost from_gives = { λ _ error. error ≡ Text Memory };

    fn from(_error: AllocError) -> WriteError {
        WriteError::Text(TextError::Memory)
    }
}

impl<T: Drop> From<AllocFailed<T>> for WriteError {
    ghost use Rattle.std.specs.Prelude.{◌≡◌};
    ghost use Rattle.smt_spelling.specs.declared.error.TextError.TheVariants.{Memory};
    ghost use Rattle.smt_encode.specs.declared.error.WriteError.TheVariants.{Text};

    ghost from_gives = { λ _ error. error ≡ Text Memory };

    fn from(_error: AllocFailed<T>) -> WriteError {
        WriteError::Text(TextError::Memory)
    }
}
