// The datatypes by which types are declared.
ghost use Rattle.std.specs.Prelude.{◌≡◌, ◌++◌, OnOk};
ghost use Rattle.std.specs.String.{string_bytes};
ghost use Rattle.law_texts.specs.SharedTexts.{texts};
ghost use Rattle.law_texts.specs.LineTexts.{comma_separated};
ghost use Rattle.smt_script.specs.Sink.{Puts};
ghost use Rattle.smt_spelling.specs.Entries.{datatype_bytes};

use smt_script::{Sink, SinkError, SmtLibScript};
use smt_term::Text;
use std::alloc::AllocError;

/// The datatype by which a type is declared.
#[derive(Drop)]
pub struct Datatype {
    pub(crate) comment: String,
    pub(crate) constructors: Vec<Text>,
}

impl Datatype {
    /// Puts its lines under a name.
    pub fn put<S: Sink>(&self, script: &mut S, name: &str) -> Result<(), SinkError>
        ensures { Puts S.contents S.faults S.has_room S.place script.old script.new
            (datatype_bytes self.now name.now) result }
    {
        script.comment(self.comment.as_str())?;
        script.declare_datatype(name, &[], self.constructors.as_slice())
    }
}

/// Appends texts with a comma and a space between each two.
pub(crate) fn push_commas(text: &mut String, pieces: &[Text]) -> Result<(), AllocError>
    ensures { OnOk result
        (string_bytes text.new ≡ string_bytes text.old ++ comma_separated (texts pieces.now)) }
{
    let mut gap = "";
    for piece in pieces {
        text.push_str(gap)?;
        text.push_str(piece.as_str())?;
        gap = ", ";
    }
    Ok(())
}
