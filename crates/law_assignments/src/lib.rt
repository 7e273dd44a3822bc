//! Assignments of literals to what terms leave open, the interpretations that they give, and the evaluation of terms in them.
//! Definitions and laws, with no code to run.
//!
//! Read `specs/Assignments.antt` first. `Evaluated` says to which literal an assignment evaluates a term, and `Models` what it
//! is worth that all terms of a script evaluate to true. `Inputs` and `Written` say which bytes are which job with which
//! assignment, and what the first fault of other bytes is.
#![tactic(auto)]

pub mod laws;
