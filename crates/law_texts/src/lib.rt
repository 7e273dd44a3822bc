//! Texts, as several crates cite them: characters, digits, escapes, texts between quotes, the lexicon of SMT-LIB and its
//! S-expressions, and the bytes of the lines of a script. Definitions and laws, with no code to run.
//!
//! Read `specs/Lexicon.antt` and `specs/Reading.antt` first (SMT-LIB 2.7, chapter 3, Lexicon and S-expressions): which bytes
//! are which text. `Characters`, `Escapes` and `Quoting` say how a string stands between quotes (theory UnicodeStrings),
//! `Digits` which numbers digits stand for, and `LineTexts` how commands are spelled.
#![tactic(auto)]

pub mod laws;
