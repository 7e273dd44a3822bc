//! Clauses, and a checker of proofs that they have no solution.
//!
//! A proof is a list of steps (as in the format DRAT): a clause that is added has to follow from the formula and the clauses
//! added before it by unit propagation, and a clause that is deleted is not looked at any more. A formula is refuted where the
//! empty clause follows. [`refutes`] answers whether a proof shows that, and [`check_proof`] which step does not follow.
//!
//! What clauses mean is said by `law_clauses: Clauses`. Read `specs/View.antt` and `specs/ProofView.antt` first: the clauses of
//! a [`ClauseList`] and the steps of a [`Proof`].
//!
//! [`Marks`], [`settle_at`] and [`assume`] serve a search that keeps an account of what follows. Each says what it does to the
//! truths of the variables under which all marked literals are true.
//!
//! That a right proof is accepted is tested and not proved. No claim rests on which clauses watch which literals, nor on how a
//! deleted clause is found.
#![tactic(auto)]

mod agenda;
mod assumption;
mod checker;
mod clause_index;
mod clause_list;
mod literal;
mod marks;
mod outcome;
mod proof;
mod propagation;
mod refutation;
mod scan;
mod watches;

pub use assumption::assume;
pub use clause_list::ClauseList;
pub use literal::{Literal, negation};
pub use marks::Marks;
pub use outcome::Outcome;
pub use proof::Proof;
pub use refutation::{check_proof, refutes};
pub use scan::{Settled, find_other, settle, settle_at};
