//! What all programs have: the words of a command line, the streams of a process, and how a run ends.
//!
//! Read `specs/Words.antt` first, which says what words ask for, then `Ends`, which says how a run ends.
#![tactic(auto)]

mod end;
mod process;
mod words;

pub use end::{Refused, end_run, put_text};
pub use process::{Begun, begin, end_with};
pub use words::{Asked, WordsError, asked_of, command_words, put_installed, words_of};
