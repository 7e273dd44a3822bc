//! Terms as data, and what they mean: their types, values, faults and orders, and what they reach of an interpretation.
//! Definitions and laws, with no code to run.
//!
//! Read `specs/Plain.antt` first: types, operators and terms. `Types` and `Typing` say which terms are typed, `Values` and
//! `TypeValues` what values there are, `Meaning` and `Operators` what value a term has, `Interpretations` and `Reached` what is
//! open to interpretation, and `Faults` what an encoder refuses.
//!
//! Terms, types and functions are numbered nodes too: `Nodes` says what a node is, `Meanings` what it stands for, `Fits` and
//! `Graphs` when it fits the nodes before it, and `NodeLaws` that no two nodes stand for one thing.
#![tactic(auto)]

pub mod laws;
