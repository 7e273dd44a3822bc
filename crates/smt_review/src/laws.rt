// What a difference tells, which pools may be asked, what findings of small solvers are worth, and worked examples, proved with no code.
ghost use Rattle.smt_review.specs.Differences.{DifferencesTell};
ghost use Rattle.smt_review.specs.Rows.{RelationRows};
ghost use Rattle.smt_review.specs.Sessions.{UnusedSessionsAreIdle};
ghost use Rattle.smt_review.specs.SmallFindings.{SmallFindingsAreBelieved};
ghost use Rattle.smt_pool.specs.Pool.{pool_starter, pool_state};

use smt_pool::SolverPool;
use smt_solve::Starter;

/// Where no interpretation makes the difference of two conditions true, the relation holds of them in every interpretation.
pub fn differences_tell()
    ensures { DifferencesTell }
{}

/// A pool that was just opened over a starter may be asked for a review.
pub fn opened_pools_may_be_asked<P: Starter>(pool: &SolverPool<P>)
    ensures { (starter : P) →
        UnusedSessionsAreIdle P.L.state P.L.allows (P.allows starter)
        (P.allows (pool_starter pool.now)) (pool_state P.state pool.now).idle }
{
    let _ = pool;
}

/// Relations of truth values, and differences of chosen terms.
pub fn relation_rows()
    ensures { RelationRows }
{}

/// Where a run over a starter of small solvers found that a relation holds of the two terms of a job, it holds of them, as they are
/// written, in every interpretation. No solver is trusted for it.
pub fn small_findings_are_believed()
    ensures { SmallFindingsAreBelieved }
{}
