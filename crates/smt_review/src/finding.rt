// What a review finds.
ghost use Rattle.std.specs.Prelude.{◌≡◌};
ghost use Rattle.smt_review.specs.Reviews.{decision_for};

use smt_solve::Decision;

/// What a review finds of a relation of two conditions.
#[derive(Clone, Copy, Debug, PartialEq, Eq, Drop)]
pub enum Finding {
    /// The relation holds in every interpretation: the solver says that the difference is never true.
    Holds,
    /// The relation fails in some interpretation: the solver says that the difference may be true.
    Fails,
    /// The solver does not say.
    Unknown,
}

impl Finding {
    /// What a decision on the difference says of the relation.
    pub(crate) fn by(decision: Decision) -> Finding
        ensures { decision_for result ≡ decision }
    {
        match decision {
            Decision::Sat => Finding::Fails,
            Decision::Unsat => Finding::Holds,
            Decision::Unknown => Finding::Unknown,
        }
    }
}
