//! The lines of a script that are stated for terms, apart from any code, with the law that they are a script.
//!
//! Read `specs/Lines.antt` first, which says what lines stand for a term; `LineForms` has how each line is written,
//! `EntryNames` the names, and `Text` the bytes and the names of a whole script. `Rows`, `Every` and `Hostile` have worked
//! examples, byte for byte.
#![tactic(auto)]

pub mod names;
pub mod rows;
pub mod scripts;
pub mod texts;
