//! The main theorem: the stated text of conditions is a script, and its models are exactly the interpretations that make all
//! conditions true. Definitions and laws, with no code to run.
//!
//! Read `specs/Headline.antt` first, which says what the theorem states of bytes, terms and names, and `Conditions`, which says
//! of which terms. `Carry` and `CarriedInterpretations` carry values and interpretations from terms to scripts and back, and
//! `CarriedOperators` states that every operator commutes with that. `Fits` says when a script, its terms and their names fit,
//! which is all that the theorem needs. `WellWritten` says that such scripts are well sorted, define each term at most once,
//! and have no more commands than what the terms reach asks for.
#![tactic(auto)]

pub mod commuting;
pub mod conditions;
pub mod datatypes;
pub mod fitting;
pub mod headline;
pub mod rows;
pub mod selections;
pub mod there_and_back;
pub mod values;
pub mod well_sorted;
