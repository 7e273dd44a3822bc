//! What a solver's verdict on a script is worth: which links to solvers are honest, and what their `unsat` says of the terms
//! that the script stands for. Definitions and laws, with no code to run.
//!
//! Read `specs/Honesty.antt` and `specs/Verdicts.antt` first, `specs/Dialogues.antt` for a script that grows, on which the
//! solver is asked several times, and `specs/Idle.antt` for a session that is reset between its questions. A small solver shows
//! that there are honest ones: `Fragment` has the scripts of Boolean constants that it takes (theory Core), `Machine` what it
//! replies to each command, `FirstModel` which model it finds first, and `Honest` that it is honest.
#![tactic(auto)]

pub mod laws;
