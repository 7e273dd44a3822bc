#![tactic(auto, using(crate::specs::ValueView::value_views))]
// Literals.
ghost use Rattle.std.specs.Prelude.{◌≡◌, IfOk};
ghost use Rattle.smt_values.specs.ValueView.{plain_literal};

use smt_term::{EntityUID, TermError, Text};
use smt_text::share_text;

/// A literal of Cedar.
#[derive(Debug, PartialEq, Eq, Drop)]
pub enum Literal {
    /// A truth value.
    Bool(bool),
    /// A signed integer of 64 bits.
    Long(i64),
    /// A text.
    String(Text),
    /// An entity.
    EntityUID(EntityUID),
}

impl Literal {
    /// An equal literal that shares its texts.
    ///
    /// # Errors
    /// `Memory`, where there is none for the literal.
    pub fn share(&self) -> Result<Literal, TermError>
        ensures { IfOk result (λ shared. plain_literal shared ≡ plain_literal self.now) }
    {
        match self {
            Literal::Bool(truth) => Ok(Literal::Bool(*truth)),
            Literal::Long(number) => Ok(Literal::Long(*number)),
            Literal::String(text) => Ok(Literal::String(share_text(text)?)),
            Literal::EntityUID(entity) => Ok(Literal::EntityUID(entity.share()?)),
        }
    }
}
