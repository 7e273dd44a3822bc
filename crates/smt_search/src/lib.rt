//! A search in memory for truths of variables that make clauses true.
//!
//! [`solve`] answers with truths that make each clause of a formula true, or that there are none, or that
//! the limit of conflicts was met. The search learns clauses from conflicts (CDCL), but nothing that it
//! does bears on whether its answer is right:
//!
//! - `ledger` holds clauses that are true where the formula is. A learned clause is added where a chain of
//!   earlier clauses shows that it follows, and a formula is refuted where a chain leaves no literal of a
//!   clause.
//! - `model` looks at truths over the formula as it was given.
//! - `odometer` goes through all truths of the variables, where the search came to neither.
//!
//! `search` and what it stands on (`order`, `trail`, `propagation`, `analysis`, `merits`, `restarts`) only
//! choose, and promise nothing but to be safe. Read `specs/Answers.antt` first.
#![tactic(auto)]

mod analysis;
mod answer;
mod ledger;
mod limit;
mod merits;
mod model;
mod odometer;
mod order;
mod propagation;
mod restarts;
mod search;
mod solving;
mod table;
mod trail;
mod truths;

pub use answer::Answer;
pub use limit::Limit;
pub use solving::solve;
pub use truths::Truths;
