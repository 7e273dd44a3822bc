// What a proof shows.

/// What comes of going through a proof.
#[derive(Clone, Copy, Debug, PartialEq, Eq)]
pub enum Outcome {
    /// The formula has no solution.
    Refuted,
    /// The clause that the step at this place adds does not follow by unit propagation, or only by a step that comes later.
    DoesNotFollow(usize),
    /// Each step follows, and all of them together do not give the empty clause.
    Unfinished,
}
