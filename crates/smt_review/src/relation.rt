// What two conditions are compared by.

/// What is asked of two conditions.
#[derive(Clone, Copy, Debug, PartialEq, Eq, Drop)]
pub enum Relation {
    /// Both are true in the same interpretations.
    Equivalent,
    /// Wherever the first is true the second is.
    Implies,
    /// Nowhere are both true.
    Disjoint,
}
