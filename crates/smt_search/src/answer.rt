// What is found.
use crate::truths::Truths;

/// What is found of a formula.
#[derive(Drop)]
pub enum Answer {
    /// These truths of the variables make each clause true.
    Solved(Truths),
    /// No truths make each clause true.
    Refuted,
    /// Neither was found within the limit.
    Undecided,
}
