//! The two calls by which ranges of one family are compared.
ghost use Rattle.std.specs.Prelude.{◌≡◌};
ghost use Rattle.smt_factory.specs.Closures.{AreByRule};

use smt_term::{Term, TermError};

/// A call that tells whether a range is of a family, and one that gives the lowest and the highest address of such a range.
#[derive(Debug, Drop)]
pub struct RangeRule<F, G> {
    pub(crate) is_ip: F,
    pub(crate) range: G,
}

impl<F, G> RangeRule<F, G>
where
    F: Fn(Term) -> Result<Term, TermError>,
    G: Fn(Term) -> Result<(Term, Term), TermError>,
{
    /// The rule of these two calls.
    ///
    /// # Conditions
    /// Both may be called at any term. At a term whose value is an IP range, `is_ip` gives what stands for a Boolean term, and
    /// `range` what stands for the lowest and the highest address as bitvectors of one width, the same for every term; where the
    /// Boolean is true, the lowest is at most the highest.
    pub fn new(is_ip: F, range: G) -> RangeRule<F, G>
        requires test { F.IsAlwaysCallable is_ip }
        requires bounds { G.IsAlwaysCallable range }
        requires rule { AreByRule (F.post is_ip) (G.post range) }
        ensures test { result.is_ip ≡ is_ip }
        ensures bounds { result.range ≡ range }
        ensures rule { AreByRule (F.post result.is_ip) (G.post result.range) }
    {
        RangeRule { is_ip, range }
    }
}
