//! A small solver for scripts of Boolean constants (SMT-LIB 2.7, theory Core), which tells the truth.
//!
//! [`Mini`] is fed one command after the other and replies to each. Which commands it takes, what it replies and which model it
//! shows is said by files of `law_verdicts`: `Fragment`, `Machine` and `FirstModel`. Read `specs/Stands.antt` first, which says
//! for which state of that machine a value of the program stands.
#![tactic(auto)]

mod command;
mod error;
mod formula;
mod gate;
mod levels;
mod mini;
mod model;
mod names;
mod option;
mod reply;
mod rows;
mod search;
mod tables;
mod within;
mod words;

pub use error::MiniError;
pub use mini::Mini;
pub use reply::Reply;
pub use smt_text::Text;
