//! What scripts mean: their state, the values of their expressions and their models, with laws of them.
//!
//! Read `specs/Script.antt` first: commands, what they declare, and what a script comes to (SMT-LIB 2.7, chapters 3 and 4).
//! `Value` says what expressions are worth and which interpretations are models (chapter 5), `ScriptOperators` has the
//! operators of the theories, and `Sorts` the sorts of expressions and of values. `Rows`, `NoScripts` and `SelectorRows`
//! have worked examples.
#![tactic(auto)]

pub mod evaluation;
pub mod samples;
pub mod scripts;
