//! What bytes are which job: declarations and terms in one S-expression, and the first fault where they are none. Definitions
//! and laws, with no code to run.
//!
//! Read `specs/Jobs.antt` first, then `Steps`, `Declarations`, `Types` and `Terms`, which say what each part of a job states. `Outcomes`
//! has the kinds of faults.
#![tactic(auto)]

pub mod laws;
