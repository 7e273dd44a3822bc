// What a word behind the problem line says.
ghost use Rattle.std.specs.Prelude.{◌≡◌, ◌<◌, ◌≤◌, ◌^◌, ◌*◌};
ghost use Rattle.smt_dimacs.specs.Entries.{entry_of, negated_entry, plain_entry};
ghost use Rattle.smt_dimacs.specs.Read.{IsReadOf};

use crate::number::number_up_to;
use smt_clauses::Literal;
use smt_text::digits::{are_digits, behind};

/// What a word says.
#[derive(Clone, Copy)]
pub(crate) enum Entry {
    /// That a clause ends.
    End,
    /// A literal of a variable that there is.
    Literal(Literal),
    /// A literal of a variable that there is not.
    Large,
    /// Nothing: it is no number.
    Nothing,
}

/// What digits say.
fn read_plain(digits: &[u8], variables: u32) -> Entry
    requires { variables ≤ 2 ^ 30 }
    ensures { IsReadOf variables (plain_entry digits.now) result }
{
    if !are_digits(digits) {
        return Entry::Nothing;
    }
    match number_up_to(digits, variables) {
        Some(0) => Entry::End,
        Some(n) => Entry::Literal(2 * (n - 1)),
        None => Entry::Large,
    }
}

/// What digits behind a minus say.
fn read_negated(digits: &[u8], variables: u32) -> Entry
    requires { variables ≤ 2 ^ 30 }
    ensures { IsReadOf variables (negated_entry digits.now) result }
{
    if !are_digits(digits) {
        return Entry::Nothing;
    }
    match number_up_to(digits, variables) {
        Some(0) => Entry::Nothing,
        Some(n) => Entry::Literal(2 * (n - 1) + 1),
        None => Entry::Large,
    }
}

/// What a word says in a formula over so many variables.
pub(crate) fn read_entry(word: &[u8], variables: u32) -> Entry
    requires { variables ≤ 2 ^ 30 }
    ensures { IsReadOf variables (entry_of word.now) result }
{
    match behind(word, b'-') {
        Some(digits) => read_negated(digits, variables),
        None => read_plain(word, variables),
    }
}
