//! S-expressions of SMT-LIB: their values, a reader of texts that hold one, and texts between quotes.
//!
//! Which bytes are which expression is said by `Lexicon` and `Reading` of `law_texts` (SMT-LIB 2.7, chapter 3, Lexicon and
//! S-expressions). Read `specs/View.antt` first, which says what an expression of the program says, then `Refusals`, which says
//! why a text is refused.
#![tactic(auto)]

pub mod error;
mod escape;
pub mod expression;
pub mod front;
pub mod front_atoms;
pub mod laws;
mod lexeme;
mod number;
pub mod parse;
pub mod parts;
mod printed;
pub mod quote;
mod token;

pub use error::{IntFault, SExprParseError};
pub use expression::{SExpr, SExprs};
pub use front::{behind_close, behind_open, is_blank};
pub use front_atoms::{name_at, number_at, plain_text_at};
pub use parse::{parse_sexpr, parse_sexpr_within, read_next};
pub use parts::{
    both, first_apart, first_in, inside_of, name_in, number_in, pair_in, section, sole, sole_in,
    sole_text, text_in, three, triple_in,
};
pub use quote::quote_string;
pub use smt_text::Text;
