// The term that is true exactly where a relation does not hold.
ghost use Rattle.std.specs.Prelude.{◌≡◌};
ghost use Rattle.law_folding.specs.Builder.{folding};
ghost use Rattle.smt_term.specs.View.{BuildsTerm, plain_term};
ghost use Rattle.smt_review.specs.Differences.{difference_by};

use crate::relation::Relation;
use smt_factory_core::{and, eq, not};
use smt_term::{Term, TermError};
use std::alloc::Global;

/// The difference of two Boolean terms, folded: it is true exactly where the relation does not hold of them.
///
/// # Errors
/// `Memory`, where there is none for the term.
pub fn difference(alloc: Global, relation: Relation, a: Term, b: Term) -> Result<Term, TermError>
    ensures folded { BuildsTerm result
        (difference_by folding relation (plain_term a) (plain_term b)) }
{
    match relation {
        Relation::Equivalent => {
            let same = eq(alloc, a, b)?;
            not(alloc, same)
        }
        Relation::Implies => {
            let other = not(alloc, b)?;
            and(alloc, a, other)
        }
        Relation::Disjoint => and(alloc, a, b),
    }
}
