// The review of two conditions over a pool of sessions.
ghost use Rattle.std.specs.Prelude.{◌≡◌, ◌≤◌, ◌↔◌, IfErr, IfOk, IsErrOf};
ghost use Rattle.law_terms.specs.Plain.{BoolType};
ghost use Rattle.law_terms.specs.Typing.{Typed};
ghost use Rattle.smt_term.specs.Enums.{enums_of};
ghost use Rattle.smt_term.specs.View.{plain_term};
ghost use Rattle.smt_solve.specs.Link.{AllowsTheSame};
ghost use Rattle.law_verdicts.specs.Honesty.{IsHonest};
ghost use Rattle.law_verdicts.specs.Idle.{TellsAll};
ghost use Rattle.smt_pool.specs.Pool.{pool_starter, pool_state};
ghost use Rattle.smt_pool.specs.declared.error.SolverPoolError.TheVariants.{AcquireTimeout};
ghost use Rattle.smt_review.specs.Differences.{AreRelated};
ghost use Rattle.smt_review.specs.Reviews.{Finds, WhyNotReviewed};
ghost use Rattle.smt_review.specs.Sessions.{AreIdleSessions, MayBeAskedAgain};

use crate::ask::ask;
use crate::error::ReviewError;
use crate::finding::Finding;
use crate::relation::Relation;
use smt_pool::SolverPool;
use smt_solve::Starter;
use smt_term::{EnumTable, Term};
use std::alloc::Global;

/// Asks a session of a pool whether a relation holds of two conditions, by their difference.
///
/// The session is sent `(set-logic ALL)`, the script of the difference as a new encoder writes it, and `(check-sat)` (SMT-LIB 2.7,
/// chapter 4), and answers one line: `unsat` is `Holds`, `sat` is `Fails` and `unknown` is `Unknown`. Then it is given back to the
/// pool, which sends it `(reset)` and keeps it for the next caller.
///
/// `Holds` may be believed where the starter's links are honest, and tell what they were sent and what was read: then the relation
/// holds of the two conditions in every interpretation. The idle sessions of the pool have to be as those of a new pool, of which
/// the law `opened_pools_may_be_asked` speaks, or as a review left them. The solver has to take more than one check, unless the pool
/// is used once. cvc5, where it reads from a pipe, does so only with its option `--incremental`.
///
/// # Examples
///
/// ```
/// use kembura::pool::SolverPoolConfig;
/// use kembura::review::{Finding, Relation, review};
/// use kembura::{ChildStarter, EnumTable, SolverCommand, SolverPool, Text};
///
/// let args = [Text::from_str(alloc, "--incremental")?];
/// let command = SolverCommand::cvc5(alloc, None, &args)?;
/// let starter = ChildStarter::new(rt.clone()?);
/// let mut pool = SolverPool::new(alloc, 0, SolverPoolConfig::default(), command, starter)?;
/// let enums = EnumTable::new(alloc);
/// let finding = review(alloc, &enums, &mut pool, Relation::Equivalent, before, after)?;
/// assert_eq!(rt; finding, Finding::Holds);
/// ```
///
/// # Errors
///
/// `Encode` comes with the first fault of the difference, and its session's link has gone back to the starter. `Pool` comes where no
/// session was handed out, by the causes of `acquire`. `Solver` comes where the session failed, by the causes of `check_sat`, or with
/// `Io` where the link failed before the check; its link has gone back to the starter, whose count of link faults shows a failed link.
/// `Memory` comes where there is no memory. After each answer as many sessions are out as before, and another review may follow.
pub fn review<P: Starter>(
    alloc: Global,
    enums: &EnumTable,
    pool: &mut SolverPool<P>,
    relation: Relation,
    a: Term,
    b: Term,
) -> Result<Finding, ReviewError>
    requires first { Typed (plain_term a) BoolType }
    requires second { Typed (plain_term b) BoolType }
    requires permits { (pool_state P.state pool.old).permits ≤ (pool_state P.state pool.old).max }
    requires idle { AreIdleSessions P.L.state P.L.allows (P.allows (pool_starter pool.old))
        (pool_state P.state pool.old).idle }
    ensures found { IfOk result (Finds P.L.state P.L.allows (pool_state P.state pool.old)
        (pool_state P.state pool.new) (P.allows (pool_starter pool.old)) (enums_of enums.now)
        relation (plain_term a) (plain_term b)) }
    ensures believed { ((link : P.L) → TellsAll (P.L.state link)) →
        IsHonest (P.allows (pool_starter pool.old)) →
        IfOk result (λ finding.
        finding ≡ Finding.Holds →
        AreRelated (enums_of enums.now) relation (plain_term a) (plain_term b)) }
    ensures refused { IfErr result (WhyNotReviewed P.L.state P.L.allows
        (pool_state P.state pool.old) (pool_state P.state pool.new) (enums_of enums.now) relation
        (plain_term a) (plain_term b)) }
    ensures timeout { IsErrOf result (ReviewError.Pool AcquireTimeout)
        ↔ ((pool_state P.state pool.old).permits ≡ 0) }
    ensures kept { MayBeAskedAgain P.L.state P.L.allows (P.allows (pool_starter pool.new))
        (pool_state P.state pool.old) (pool_state P.state pool.new) }
    ensures allows { AllowsTheSame (P.allows (pool_starter pool.old))
        (P.allows (pool_starter pool.new)) }
{
    let mut session = pool.acquire()?;
    let answer = ask(alloc, enums, relation, a, b, &mut session);
    match pool.release(session) {
        Ok(_) => answer,
        Err(_) => Err(ReviewError::Memory),
    }
}
