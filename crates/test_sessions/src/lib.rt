//! Tests of sessions with solvers over links in memory, of pools of them, of reviews over pools, of sessions with shells in place of
//! solvers, and of the small solver. They stand outside the crates that they call: a crate with tests is proved twice, with them and
//! without, and here they are proved alone.
#![tactic(auto)]

#[cfg(test)]
mod expected;
#[cfg(test)]
mod in_hand;
#[cfg(test)]
mod pools;
#[cfg(test)]
mod reviews;
#[cfg(test)]
mod sessions;
#[cfg(test)]
mod shells;
#[cfg(test)]
mod small_solver;
#[cfg(test)]
mod small_streams;
