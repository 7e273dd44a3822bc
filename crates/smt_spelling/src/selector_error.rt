// Why there is no selector of an attribute.
#![tactic(auto, using(smt_term::specs::View::views))]

ghost use Rattle.std.specs.Prelude.{◌≡◌};

use smt_term::{Attr, TermError, TermType};
use std::alloc::AllocError;

/// This is why there is no selector of an attribute.
#[derive(Debug, Drop)]
pub enum SelectorError {
    /// There is no operand.
    NoOperand,
    /// The operand's type is this one, which has no name.
    Unnamed(TermType),
    /// The operand's type is this one, which has a name, and is no record type.
    NoRecord(TermType),
    /// The operand's type does not have this attribute.
    Lacks(Attr),
    /// There was no memory.
    Memory,
}

impl From<TermError> for SelectorError {
    ghost use Rattle.std.specs.Prelude.{◌≡◌};
    ghost use Rattle.smt_spelling.specs.declared.selector_error.SelectorError.TheVariants.{Memory};

    ghost from_gives = { λ _ error. error ≡ Memory };

    fn from(error: TermError) -> SelectorError {
        match error {
            TermError::Memory => SelectorError::Memory,
        }
    }
}

impl From<AllocError> for SelectorError {
    ghost use Rattle.std.specs.Prelude.{◌≡◌};
    ghost use Rattle.smt_spelling.specs.declared.selector_error.SelectorError.TheVariants.{Memory};

    ghost from_gives = { λ _ error. error ≡ Memory };

    fn from(_error: AllocError) -> SelectorError {
        SelectorError::Memory
    }
}
