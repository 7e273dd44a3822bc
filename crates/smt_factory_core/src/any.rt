//! The disjunction of what a call answers at each of several terms.
#![tactic(auto, using(crate::proofs::FoldingConnectives::folding))]

ghost use Rattle.std.specs.List.{AllByRecursion};
ghost use Rattle.std.specs.Prelude.{IfOk, map};
ghost use Rattle.smt_factory_core.specs.AnyOf.{GivesBooleans, GivesRefinements, IsAnyOf};
ghost use Rattle.smt_factory_core.specs.AnyOf.{IsTrueWhereOneIs};
ghost use Rattle.law_folding.specs.Builder.{applied};
ghost use Rattle.law_folding.specs.Composites.{any_of};
ghost use Rattle.law_terms.specs.Plain.{PlainTerm};
ghost use Rattle.smt_term.specs.View.{plain_term, plain_terms};
ghost use Rattle.smt_factory_core.specs.Results.{ResultRefines};

use crate::connectives::or;
use smt_term::{Term, TermError};
use std::alloc::Global;

/// The disjunction of what `f` answers at each of the terms: false, then each answer before what came of those in front.
///
/// Where each answer stands for an original that its term determines, the result stands for the disjunction of these. Where
/// each is a typed Boolean term, so is the result, and it is true exactly where one of them is.
///
/// # Conditions
/// `f` may be called at any term.
///
/// # Errors
/// `Memory`, where there is none for the term, and where `f` answers it.
pub fn any_true<F>(alloc: Global, f: &F, ts: &[Term]) -> Result<Term, TermError>
where
    F: Fn(Term) -> Result<Term, TermError>,
    requires { F.IsAlwaysCallable f.now }
    ensures folded { IfOk result (λ r. IsAnyOf (F.post f.now) (plain_terms ts.now) (plain_term r)) }
    ensures refines { (original : PlainTerm → PlainTerm) →
        GivesRefinements (F.post f.now) original →
        ResultRefines result (any_of applied (map original (plain_terms ts.now))) }
    ensures truth { AllByRecursion (GivesBooleans (F.post f.now)) (plain_terms ts.now) →
        IfOk result (λ r. IsTrueWhereOneIs (F.post f.now) (plain_terms ts.now) (plain_term r)) }
{
    let mut any = Term::from(false);
    for t in ts {
        any = or(alloc, f(t.share()?)?, any)?;
    }
    Ok(any)
}
