// Replies to commands.
use smt_text::Text;

/// What is replied to a command.
#[derive(Debug, PartialEq, Eq, Drop)]
pub enum Reply {
    /// Nothing is put.
    Nothing,
    /// One line, without its line feed.
    Line(Text),
    /// The lines of a model, each with its line feed.
    Model(Text),
    /// Nothing, and nothing comes behind it: the command was `exit`.
    Ended,
}
