//! Tests of whole runs of the programs, each from its words to its status, over sources, sinks and solvers in memory, and those
//! of the public calls of `smt_encode`, `smt_blast`, `smt_clauses` and `smt_search`. They stand outside the crates that they call:
//! a crate with tests is proved twice, with them and without, and here they are proved alone.
#![tactic(auto)]

#[cfg(test)]
mod blasts;
#[cfg(test)]
mod checks;
#[cfg(test)]
mod clause_proofs;
#[cfg(test)]
mod encoder;
#[cfg(test)]
mod ends;
#[cfg(test)]
mod evaluations;
#[cfg(test)]
mod expected;
#[cfg(test)]
mod jobs;
#[cfg(test)]
mod operators;
#[cfg(test)]
mod reviews;
#[cfg(test)]
mod rows;
#[cfg(test)]
mod runs;
#[cfg(test)]
mod sat_runs;
#[cfg(test)]
mod searches;
#[cfg(test)]
mod sharing;
#[cfg(test)]
mod sources;
#[cfg(test)]
mod steps;
#[cfg(test)]
mod tables;
