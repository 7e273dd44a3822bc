//! What jobs declare and the terms that they have: enum types, variables, functions, types and terms, as expressions state them.
//!
//! Each function here reads one part of a job from its expression. What it has to find there, what is built of it, and what the
//! first fault of another expression is, stands in `law_jobs`; read `specs/ReadAs.antt` first, which says what reading gives by
//! that. Of a term first its form is read, then its parts, and then the factory builds it, or it is ill typed
//! (`specs/TermView.antt`). The steps of a job, and the bytes of a whole one, are read by `smt_jobs`.
#![tactic(auto, using(smt_term::specs::View::views, smt_sexpr::specs::View::views))]

mod declaration;
mod enums;
mod error;
mod extension;
mod form;
mod lists;
mod operator;
mod pattern;
mod term;
mod types;

pub use declaration::{Declared, Functions, Variables, functions_from, variables_from};
pub use enums::enums_from;
pub use error::{JobError, bad_literal, duplicate, unknown};
pub use form::bits_literal;
pub use lists::{UufList, VarList};
pub use operator::{built_from, operator_named};
pub use term::{condition_from, term_from};
pub use types::{type_from, width_in};
