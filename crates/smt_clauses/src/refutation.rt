// Proofs that clauses have no solution.
ghost use Rattle.std.specs.Prelude.{◌≡◌, IfOk, IsTrue, OnOk, false};
ghost use Rattle.law_clauses.specs.Clauses.{HaveNoSolution};
ghost use Rattle.smt_clauses.specs.View.{plain_clauses};
ghost use Rattle.smt_clauses.specs.ProofView.{plain_steps};
ghost use Rattle.smt_clauses.specs.Allowed.{AllowsNone, AllowsSolutions, Keeps, KeepsSolutions};
ghost use Rattle.smt_clauses.specs.Outcomes.{AddsAt, IsRefuted, TellsAddition};

use crate::checker::Checker;
use crate::clause_list::ClauseList;
use crate::outcome::Outcome;
use crate::proof::Proof;
use std::alloc::{AllocError, Global};

/// Adds the clause of a formula at a place.
fn add_at(checker: &mut Checker, formula: &ClauseList, place: usize) -> Result<(), AllocError>
    ensures { OnOk result (KeepsSolutions (plain_clauses formula.now) checker.old checker.new) }
{
    let Some(clause) = formula.get(place) else {
        return Ok(());
    };
    checker.add(clause)?;
    Ok(())
}

/// A checker that has the clauses of a formula, over so many literals.
fn formula_of(alloc: Global, formula: &ClauseList, literals: usize) -> Result<Checker, AllocError>
    ensures { IfOk result (AllowsSolutions (plain_clauses formula.now)) }
{
    let mut checker = Checker::new(alloc, literals)?;
    for place in 0..formula.len() {
        add_at(&mut checker, formula, place)?;
    }
    Ok(checker)
}

/// Takes the step of a proof at a place. Whether it could: a deletion can be taken always.
fn step_at(checker: &mut Checker, proof: &Proof, place: usize) -> Result<bool, AllocError>
    ensures keeps { OnOk result (Keeps checker.old checker.new) }
    ensures adds { IfOk result (λ could. could ≡ false → AddsAt (plain_steps proof.now) place) }
{
    let Some(clause) = proof.clauses.get(place) else {
        return Ok(true);
    };
    let Some(deletes) = proof.deletes_at(place) else {
        return Ok(true);
    };
    if deletes {
        checker.delete(clause);
        return Ok(true);
    }
    let follows = checker.learn(clause)?;
    Ok(follows)
}

/// Goes through a proof until the clauses are refuted, or a step does not follow.
fn go_through(checker: &mut Checker, proof: &Proof) -> Result<Outcome, AllocError>
    ensures refuted { IfOk result (λ o. IsRefuted o → AllowsNone checker.old) }
    ensures place { IfOk result (TellsAddition (plain_steps proof.now)) }
{
    for place in 0..proof.len() {
        if checker.is_refuted() {
            return Ok(Outcome::Refuted);
        }
        if !step_at(checker, proof, place)? {
            return Ok(Outcome::DoesNotFollow(place));
        }
    }
    if checker.is_refuted() {
        Ok(Outcome::Refuted)
    } else {
        Ok(Outcome::Unfinished)
    }
}

/// Goes through a proof, and answers whether it shows that the clauses of a formula have no solution, or which step does not
/// follow. Any formula and any steps are taken. The steps behind a refutation are not looked at.
///
/// Tables take 16 bytes for each variable up to the greatest of the formula and the proof.
pub fn check_proof(
    alloc: Global,
    formula: &ClauseList,
    proof: &Proof,
) -> Result<Outcome, AllocError>
    ensures refuted { IfOk result (λ o. IsRefuted o → HaveNoSolution (plain_clauses formula.now)) }
    ensures place { IfOk result (TellsAddition (plain_steps proof.now)) }
{
    let variables = formula.variables().max(proof.clauses.variables());
    let mut checker = formula_of(alloc, formula, variables.saturating_mul(2))?;
    let outcome = go_through(&mut checker, proof)?;
    Ok(outcome)
}

/// Whether a proof shows that the clauses of a formula have no solution: [`check_proof`] answers [`Outcome::Refuted`].
pub fn refutes(alloc: Global, formula: &ClauseList, proof: &Proof) -> Result<bool, AllocError>
    ensures refuted { IfOk result (λ yes. IsTrue yes → HaveNoSolution (plain_clauses formula.now)) }
{
    match check_proof(alloc, formula, proof)? {
        Outcome::Refuted => Ok(true),
        Outcome::DoesNotFollow(_) | Outcome::Unfinished => Ok(false),
    }
}
