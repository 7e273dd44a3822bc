//! Tests of Cedar's types, values and stores, of the terms that stand for values, of symbolic environments, and of the script
//! of a question about a store. They stand outside the crates that they call: a crate with tests is proved twice, with them and
//! without, and here they are proved alone.
#![tactic(auto)]

#[cfg(test)]
mod environments;
#[cfg(test)]
mod examples;
#[cfg(test)]
mod expected;
#[cfg(test)]
mod lists;
#[cfg(test)]
mod questions;
#[cfg(test)]
mod stores;
#[cfg(test)]
mod terms;
#[cfg(test)]
mod types;
#[cfg(test)]
mod values;
#[cfg(test)]
mod worlds;
