#![tactic(auto, using(crate::specs::View::views), unfolding(crate::specs::TypeView::plain_type, crate::specs::View::plain_term))]
// Uninterpreted functions of one argument.
ghost use Rattle.std.specs.Prelude.{◌≡◌, IfOk};
ghost use Rattle.smt_term.specs.View.{plain_function};

use crate::{TermError, TermType};
use smt_text::{Text, share_text};

/// An uninterpreted function: its id and its types. Two functions of one id and different types are different. Functions order
/// by their fields as declared.
///
/// # Examples
///
/// ```
/// use kembura::{Encoder, EnumTable, ListSink, TermType, Text, Uuf};
///
/// let id = Text::from_str(alloc, "is_open")?;
/// let is_open = Uuf { id, arg: TermType::String, out: TermType::Bool };
/// let enums = EnumTable::new(alloc);
/// let mut encoder = Encoder::new(alloc, &enums, ListSink::new(alloc));
/// let name = encoder.encode_uuf(&is_open)?;
/// assert_eq!(rt; name.as_str(), "f0");
/// ```
#[derive(Debug, PartialEq, Eq, PartialOrd, Ord, Drop)]
pub struct Uuf {
    /// The name by which it is known.
    pub id: Text,
    /// The type of its argument.
    pub arg: TermType,
    /// The type of its values.
    pub out: TermType,
}

impl Uuf {
    /// An equal function that shares its id and its types.
    ///
    /// # Errors
    /// `Memory`, where there is none for the function.
    pub fn share(&self) -> Result<Uuf, TermError>
        ensures { IfOk result (λ shared. plain_function shared ≡ plain_function self.now) }
    {
        Ok(Uuf {
            id: share_text(&self.id)?,
            arg: self.arg.share()?,
            out: self.out.share()?,
        })
    }
}
