//! Rows and their answers, a table for each subject.

mod applied;
pub(crate) mod bitvectors;
mod collections;
mod connectives;
pub(crate) mod containment;
pub(crate) mod datetimes;
pub(crate) mod decimals;
pub(crate) mod durations;
mod extensions;
mod fields;
mod forms;
mod functions;
mod ill_typed;
pub(crate) mod ip_ranges;
mod literals;
mod operators;
mod options;
mod order;
mod parts;
pub(crate) mod past_ascii;
mod refused;
mod texts;
mod types;

/// The tables.
pub(crate) const TABLES: &[&str] = &[
    connectives::ROWS,
    options::ROWS,
    collections::ROWS,
    fields::ROWS,
    applied::ROWS,
    extensions::ROWS,
    functions::ROWS,
    types::ROWS,
    literals::ROWS,
    forms::ROWS,
    parts::ROWS,
    operators::ROWS,
    refused::ROWS,
    ill_typed::ROWS,
    order::ROWS,
    texts::ROWS,
];
