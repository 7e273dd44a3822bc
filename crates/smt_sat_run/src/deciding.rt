// What is found of a formula.
ghost use Rattle.std.specs.Prelude.{IfErr, IfNone, IfOk};
ghost use Rattle.law_clauses.specs.Clauses.{HaveNoSolution};
ghost use Rattle.smt_clauses.specs.View.{plain_clauses};
ghost use Rattle.smt_script.specs.Sink.{Rose};
ghost use Rattle.smt_search.specs.Answers.{IsRight};
ghost use Rattle.smt_sat_run.specs.Causes.{HasProofCause};

use crate::refusal::Refusal;
use crate::verdict::ProofRefusal;
use smt_clauses::{Outcome, check_proof};
use smt_dimacs::{Formula, GREATEST, ProofError, read_proof};
use smt_script::{InputError, Source, read_input};
use smt_search::{Answer, Limit, solve};
use std::alloc::{AllocError, Global};

/// Searches over at most so many conflicts.
pub(crate) fn search(alloc: Global, formula: &Formula, most: u64) -> Result<Answer, AllocError>
    ensures { IfOk result (IsRight (plain_clauses formula.now.clauses)) }
{
    let mut limit = Limit::conflicts(most);
    solve(alloc, &formula.clauses, &mut limit)
}

/// Goes through the proof of these bytes. Why it was not gone through, None where it shows that the formula has no solution.
fn check_bytes(
    alloc: Global,
    formula: &Formula,
    bytes: &[u8],
) -> Result<Option<ProofRefusal>, AllocError>
    ensures { IfOk result (λ refusal. IfNone refusal
        (HaveNoSolution (plain_clauses formula.now.clauses))) }
{
    let proof = match read_proof(alloc, bytes) {
        Ok(proof) => proof,
        Err(ProofError::BadStep { line }) => return Ok(Some(ProofRefusal::BadStep(line))),
        Err(ProofError::TooLarge) => return Ok(Some(ProofRefusal::TooLarge)),
        Err(ProofError::Memory) => return Err(AllocError),
    };
    match check_proof(alloc, &formula.clauses, &proof)? {
        Outcome::Refuted => Ok(None),
        Outcome::DoesNotFollow(place) => {
            Ok(Some(ProofRefusal::Step((place as u64).saturating_add(1))))
        }
        Outcome::Unfinished => Ok(Some(ProofRefusal::Incomplete)),
    }
}

/// Reads a proof and goes through it. Why it was not gone through, None where it shows that the formula has no solution.
pub(crate) fn check<P: Source>(
    alloc: Global,
    formula: &Formula,
    source: &mut P,
) -> Result<Option<ProofRefusal>, Refusal>
    ensures right { IfOk result (λ refusal. IfNone refusal
        (HaveNoSolution (plain_clauses formula.now.clauses))) }
    ensures refused { IfErr result (HasProofCause
        (Rose (P.faults source.old) (P.faults source.new))) }
{
    match read_input(alloc, source, GREATEST) {
        Ok(bytes) => Ok(check_bytes(alloc, formula, bytes.as_slice())?),
        Err(InputError::TooLarge) => Ok(Some(ProofRefusal::TooLarge)),
        Err(InputError::Fault) => Err(Refusal::Source),
        Err(InputError::Memory) => Err(Refusal::Memory),
    }
}
