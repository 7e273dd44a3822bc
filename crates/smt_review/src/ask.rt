// The question to a session about the difference of two conditions.
ghost use Rattle.std.specs.Prelude.{◌≡◌, false, is_err, IfErr, IfOk, OnOk, [], ◌∷◌};
ghost use Rattle.law_terms.specs.Faults.{first_fault};
ghost use Rattle.law_terms.specs.Plain.{BoolType};
ghost use Rattle.law_terms.specs.Typing.{Typed};
ghost use Rattle.smt_term.specs.Enums.{enums_of};
ghost use Rattle.smt_term.specs.View.{plain_term};
ghost use Rattle.smt_script.specs.Memory.{list_bytes};
ghost use Rattle.smt_solve.specs.Link.{AllowsTheSame};
ghost use Rattle.law_verdicts.specs.Idle.{AnswersQuestion};
ghost use Rattle.smt_pool.specs.Pooled.{pooled_failed, pooled_link, pooled_number, pooled_state};
ghost use Rattle.smt_review.specs.Reviews.{IsAskable, WhyNothingFound, WhyUnwritten, decision_for};
ghost use Rattle.smt_review.specs.Reviews.{difference_of, text_for};

use crate::differences::difference;
use crate::error::ReviewError;
use crate::finding::Finding;
use crate::relation::Relation;
use smt_encode::Encoder;
use smt_pool::PooledSolver;
use smt_script::ListSink;
use smt_solve::{Link, Solver};
use smt_term::{EnumTable, Term};
use std::alloc::Global;

/// Writes the script of the difference of two conditions in memory.
pub(crate) fn script_of(
    alloc: Global,
    enums: &EnumTable,
    relation: Relation,
    a: Term,
    b: Term,
) -> Result<ListSink, ReviewError>
    requires first { Typed (plain_term a) BoolType }
    requires second { Typed (plain_term b) BoolType }
    ensures text { IfOk result (λ script.
        list_bytes script ≡ text_for (enums_of enums.now) relation (plain_term a) (plain_term b)) }
    ensures askable { OnOk result
        (IsAskable (enums_of enums.now) relation (plain_term a) (plain_term b)) }
    ensures refused { IfErr result (WhyUnwritten (first_fault (enums_of enums.now)
        (difference_of relation (plain_term a) (plain_term b) ∷ []))) }
{
    let differs = [difference(alloc, relation, a, b)?];
    let mut encoder = Encoder::new(alloc, enums, ListSink::new(alloc));
    encoder.encode(&differs)?;
    Ok(encoder.into_script())
}

/// Asks a session whether a relation holds of two conditions. The session has failed after an error.
pub(crate) fn ask<L: Link>(
    alloc: Global,
    enums: &EnumTable,
    relation: Relation,
    a: Term,
    b: Term,
    session: &mut PooledSolver<L>,
) -> Result<Finding, ReviewError>
    requires first { Typed (plain_term a) BoolType }
    requires second { Typed (plain_term b) BoolType }
    requires unfailed { pooled_failed session.old ≡ false }
    ensures answered { IfOk result (λ finding.
        AnswersQuestion (L.allows (pooled_link session.old)) (pooled_state L.state session.old)
        (pooled_state L.state session.new)
        (text_for (enums_of enums.now) relation (plain_term a) (plain_term b))
        (decision_for finding)) }
    ensures askable { OnOk result
        (IsAskable (enums_of enums.now) relation (plain_term a) (plain_term b)) }
    ensures refused { IfErr result (λ e.
        WhyNothingFound (enums_of enums.now) relation (plain_term a) (plain_term b) e
        (pooled_state L.state session.old) (pooled_state L.state session.new)) }
    ensures failed { pooled_failed session.new ≡ is_err result }
    ensures number { pooled_number session.new ≡ pooled_number session.old }
    ensures allows { AllowsTheSame (L.allows (pooled_link session.old))
        (L.allows (pooled_link session.new)) }
{
    session.send_lines(b"(set-logic ALL)\n")?;
    let script = match script_of(alloc, enums, relation, a, b) {
        Ok(script) => script,
        Err(error) => {
            session.mark_failed();
            return Err(error);
        }
    };
    session.send_lines(script.bytes())?;
    Ok(Finding::by(session.check_sat()?))
}
