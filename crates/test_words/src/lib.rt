//! The words of all tests, in which the rows of `test_terms` and `test_scripts` say texts, types, functions, operators, enum types
//! and terms, and in which terms are printed. What else a row may say stands with its test, and so do comparisons: they may end the
//! process, and no function outside tests may.
//!
//! A row is words with a space between two. A word has a head and, behind a colon, what it holds, as `var:x:bool`.
//!
//! | What | How it is spelled |
//! |---|---|
//! | a text | its characters, of which `\n`, `\r`, `\\`, `\"` and `\u{2ffff}` stand for one each, so `\u{20}` for a space and `\u{3a}` for
//! a colon |
//! | several texts | with a comma behind each; behind the last, where it has a character, the comma may be left out |
//! | a pattern | a text, in which `*` stands for any text |
//! | a type | the number of bits of bitvectors, `bool`, `string`, `decimal`, `datetime`, `duration`, `ip`, `@NAME` of entities, or
//! `%NAME=TYPE,NAME=TYPE` of records, whose attributes are of no type with `%`; `?TYPE` is that of options, `*TYPE` that of sets, and
//! `.TYPE` that of records with the one attribute `a` |
//! | a function | `ID:TYPE:TYPE`: its id, the type of its argument and that of its values |
//! | an operator | its name, and behind `=` what it holds: `record.get=NAME`, `string.like=PATTERN`, `zero_extend=COUNT`, and of a function
//! `call=ID=TYPE=TYPE` |
//! | an enum type | `NAME:MEMBER:MEMBER`, with any number of members |
//!
//! A word for a term leaves it on a stack, as it is:
//!
//! | Word | The term |
//! |---|---|
//! | `true`, `false`, `int:NUMBER`, `byte:NUMBER`, `bits:WIDTH:NUMBER` | a literal: `int` of 64 bits with sign, `byte` of 8 bits |
//! | `text:TEXT`, `entity:NAME:ID` | a string, and an entity of the type of this name |
//! | `decimal:TEXT`, `datetime:TEXT`, `duration:TEXT`, `ip:TEXT` | a value of an extension type, by its text |
//! | `var:ID:TYPE`, `none:TYPE` | a variable, and none of an option of this type |
//! | `some`, `set:COUNT:TYPE`, `record:NAME,NAME` | some of the last term, the set of so many last terms, each of this type, and the record
//! of these attributes with the last terms in order |
//! | `app:OPERATOR:COUNT:TYPE` | the operator at so many last terms, which claims this type |
//! | `call:FUNCTION` | an uninterpreted function at the last term |
#![tactic(auto)]

mod missing;
mod operators;
mod plain;
mod printed;
mod spelling;
mod stack;
mod types;

pub use missing::text_or;
pub use operators::{function, operator};
pub use plain::{entity, term, terms, variable};
pub use printed::{put_term, put_terms, put_type};
pub use spelling::{enter, pattern, spelling_of, text, texts, texts_of};
pub use stack::{fields, last_of, one, pairs, taken, two};
pub use types::{extension_type, type_of};

/// Why a test stops where a call gives nothing.
pub const AMPLE: &str = "there is memory for the test";
