// How terms are entered: by their own lines, or by a name alone.
ghost use Rattle.smt_script.specs.Sink.{Puts};

use smt_script::{Sink, SinkError, SmtLibScript};
use smt_term::Text;

/// How a term that has no name yet is entered.
#[derive(Drop)]
pub enum Entry {
    /// As a constant that is declared behind this comment.
    Constant(String),
    /// By a definition with this body.
    Body(String),
    /// Under this name, without a line.
    Name(Text),
}

impl Entry {
    ghost use Rattle.smt_spelling.specs.Entries.{entry_bytes};

    /// Puts its lines.
    pub fn put<S: Sink>(&self, script: &mut S, name: &str, sort: &str) -> Result<(), SinkError>
        ensures { Puts S.contents S.faults S.has_room S.place script.old script.new
            (entry_bytes self.now name.now sort.now) result }
    {
        match self {
            Entry::Constant(comment) => {
                script.comment(comment.as_str())?;
                script.declare_const(name, sort)
            }
            Entry::Body(body) => script.define_fun(name, &[], sort, body.as_str()),
            Entry::Name(_) => Ok(()),
        }
    }
}
