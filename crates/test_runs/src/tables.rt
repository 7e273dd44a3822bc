//! Jobs and what a run on each leaves, a table for each subject.

mod bitvectors;
pub(crate) mod bytes;
mod connectives;
mod depth;
mod enums;
mod extensions;
mod names;
mod refused;
mod steps;
mod strings;
mod terms;

/// The tables of jobs that are one line each.
pub(crate) const TABLES: &[&str] = &[
    connectives::ROWS,
    bitvectors::ROWS,
    names::ROWS,
    strings::ROWS,
    terms::ROWS,
    enums::ROWS,
    extensions::ROWS,
    depth::ROWS,
    refused::ROWS,
    steps::ROWS,
];
