//! Rows and their scripts, a table for each subject.

mod bitvectors;
mod booleans;
mod characters;
pub(crate) mod conditions;
mod entities;
mod enums;
mod extensions;
mod functions;
mod options;
mod records;
mod refused;
mod sets;
mod strings;

/// The tables.
pub(crate) const TABLES: &[&str] = &[
    booleans::ROWS,
    bitvectors::ROWS,
    strings::ROWS,
    conditions::ROWS,
    enums::ROWS,
    entities::ROWS,
    options::ROWS,
    sets::ROWS,
    functions::ROWS,
    records::ROWS,
    extensions::ROWS,
    characters::ROWS,
    refused::ROWS,
];
