// A job's steps, written piece by piece: a piece has the lines of the steps up to the next check.
ghost use Rattle.std.specs.Prelude.{ℕ, List, [], ◌∷◌, ◌≡◌, ◌≤◌, false, IfErr, IfOk, IsErrOf};
ghost use Rattle.std.specs.Prelude.{IsTrue, MatchOption, None, OnOk, is_err};
ghost use Rattle.std.specs.Prelude.{length, map};
ghost use Rattle.law_terms.specs.Faults.{first_fault};
ghost use Rattle.smt_term.specs.Enums.{enums_of};
ghost use Rattle.law_theorem.specs.Fits.{Stages, encoding_of, new_stages};
ghost use Rattle.law_jobs.specs.Steps.{AreBalanced, asserted};
ghost use Rattle.smt_runs.specs.JobTexts.{stages_of_step, text_of_step};
ghost use Rattle.std.specs.Io.KnownBytes.{append_known};
ghost use Rattle.smt_jobs.specs.Numbers.{all_steps_stand, step_by, step_stands, steps_by};
ghost use Rattle.smt_encode.specs.Encoded.{enums_in, is_spent, nodes_in, sink_of, HasEncoding};
ghost use Rattle.smt_encode.specs.Encoded.{Keeps};
ghost use Rattle.smt_encode.specs.Refusals.{HasCause};
ghost use Rattle.smt_encode.specs.declared.error.EncodeError.TheVariants.{Spent as IsSpentError};
ghost use Rattle.smt_nodes.specs.declared.interner.Interner.{Interner};
ghost use Rattle.smt_jobs.specs.declared.numbered.NumberedStep.TheVariants.{Check as IsCheck};
ghost use Rattle.smt_runs.specs.Pieces.{PutsPiece, PutsSteps, StopsAt};

use smt_encode::{EncodeError, Encoder, Steps};
use smt_jobs::NumberedStep;
use smt_script::{Sink, SmtLibScript};
use std::sync::ledger::Ledger;

/// Writes a step that is no check.
fn put_step<L: Ledger, S: Sink>(
    encoder: &mut Encoder<'_, S>,
    step: &NumberedStep,
    look_ups: &mut Steps<L>,
) -> Result<(), EncodeError>
    requires stands { IsTrue (step_stands (nodes_in encoder.old) step.now) }
    requires no_check { step.now ≡ IsCheck → ⊥ }
    requires unspent { is_spent encoder.old ≡ false }
    ensures got { (x : Stages) → HasEncoding encoder.old (encoding_of x) →
        OnOk result (S.contents (sink_of encoder.new)
        ≡ append_known (S.contents (sink_of encoder.old))
        (text_of_step (enums_in encoder.old) (step_by (nodes_in encoder.old) step.now) x)) }
    ensures stands { (x : Stages) → HasEncoding encoder.old (encoding_of x) →
        OnOk result (HasEncoding encoder.new (encoding_of
        (stages_of_step (enums_in encoder.old) (step_by (nodes_in encoder.old) step.now) x))) }
    ensures faultless { OnOk result (first_fault (enums_in encoder.old)
        (asserted (step_by (nodes_in encoder.old) step.now ∷ [])) ≡ None) }
    ensures refused { (x : Stages) → HasEncoding encoder.old (encoding_of x) →
        AreBalanced (length x.below) (step_by (nodes_in encoder.old) step.now ∷ []) →
        HasCause (S.faults (sink_of encoder.old)) (S.faults (sink_of encoder.new))
        (first_fault (enums_in encoder.old)
        (asserted (step_by (nodes_in encoder.old) step.now ∷ [])))
        result }
    ensures spent { is_spent encoder.new ≡ is_err result }
    ensures fresh { IsErrOf result IsSpentError → ⊥ }
    ensures numbers { nodes_in encoder.new ≡ nodes_in encoder.old }
    ensures kept { Keeps S.faults S.place encoder.old encoder.new }
{
    match step {
        NumberedStep::Assert(ids) => encoder.encode_nodes(ids.as_slice(), look_ups),
        NumberedStep::Push => encoder.push(),
        NumberedStep::Pop => encoder.pop(),
        NumberedStep::Check => unreachable!(),
    }
}

/// The next step and those behind it, None where no step is left or the next one is a check.
fn before_check(steps: &[NumberedStep]) -> Option<(&NumberedStep, &[NumberedStep])>
    ensures { MatchOption result ((nodes : Interner) → StopsAt (steps_by nodes steps.now))
        (λ p. (steps.now ≡ p.0.now ∷ p.1.now) × (p.0.now ≡ IsCheck → ⊥)) }
{
    match steps.split_first() {
        None | Some((NumberedStep::Check, _)) => None,
        found => found,
    }
}

/// Writes the steps up to the next check, and answers those that are left: none, or a check and those behind it.
fn put_until_check<'s, L: Ledger, S: Sink>(
    encoder: &mut Encoder<'_, S>,
    steps: &'s [NumberedStep],
    look_ups: &mut Steps<L>,
) -> Result<&'s [NumberedStep], EncodeError>
    requires stand { IsTrue (all_steps_stand (nodes_in encoder.old) steps.now) }
    requires unspent { is_spent encoder.old ≡ false }
    ensures puts { (x : Stages) → HasEncoding encoder.old (encoding_of x) →
        IfOk result (λ left.
        PutsPiece (enums_in encoder.old) (S.contents (sink_of encoder.old))
        (S.contents (sink_of encoder.new)) encoder.new x (steps_by (nodes_in encoder.old) steps.now)
        (steps_by (nodes_in encoder.old) left.now)) }
    ensures stand { IfOk result (λ left. IsTrue (all_steps_stand (nodes_in encoder.old) left.now)) }
    ensures refused { (x : Stages) → HasEncoding encoder.old (encoding_of x) →
        AreBalanced (length x.below) (steps_by (nodes_in encoder.old) steps.now) →
        HasCause (S.faults (sink_of encoder.old)) (S.faults (sink_of encoder.new))
        (first_fault (enums_in encoder.old) (asserted (steps_by (nodes_in encoder.old) steps.now)))
        result }
    ensures spent { is_spent encoder.new ≡ is_err result }
    ensures fresh { IsErrOf result IsSpentError → ⊥ }
    ensures numbers { nodes_in encoder.new ≡ nodes_in encoder.old }
    ensures kept { Keeps S.faults S.place encoder.old encoder.new }
{
    let mut left = steps;
    while let Some((step, rest)) = before_check(left) {
        put_step(encoder, step, look_ups)?;
        left = rest;
    }
    Ok(left)
}

/// Writes the steps up to the next check onto `out`, and answers the encoder and the steps that are left.
pub fn put_piece<'a, 's, L: Ledger, W: Sink>(
    encoder: Encoder<'a, ()>,
    steps: &'s [NumberedStep],
    out: &mut W,
    look_ups: &mut Steps<L>,
) -> (Encoder<'a, ()>, Result<&'s [NumberedStep], EncodeError>)
    requires stand { IsTrue (all_steps_stand (nodes_in encoder) steps.now) }
    requires unspent { is_spent encoder ≡ false }
    ensures puts { (x : Stages) → HasEncoding encoder.entry (encoding_of x) →
        IfOk result.1 (λ left.
        PutsPiece (enums_in encoder.entry) (W.contents out.old) (W.contents out.new) result.0 x
        (steps_by (nodes_in encoder.entry) steps.now)
        (steps_by (nodes_in encoder.entry) left.now)) }
    ensures stand { IfOk result.1
        (λ left. IsTrue (all_steps_stand (nodes_in encoder.entry) left.now)) }
    ensures refused { (x : Stages) → HasEncoding encoder.entry (encoding_of x) →
        AreBalanced (length x.below) (steps_by (nodes_in encoder.entry) steps.now) →
        HasCause (W.faults out.old) (W.faults out.new)
        (first_fault (enums_in encoder.entry)
        (asserted (steps_by (nodes_in encoder.entry) steps.now)))
        result.1 }
    ensures spent { is_spent result.0 ≡ is_err result.1 }
    ensures fresh { IsErrOf result.1 IsSpentError → ⊥ }
    ensures numbers { nodes_in result.0 ≡ nodes_in encoder.entry }
    ensures enums { enums_in result.0 ≡ enums_in encoder.entry }
    ensures later { W.faults out.old ≤ W.faults out.new }
{
    let mut encoder = encoder.attach(out);
    let outcome = put_until_check(&mut encoder, steps, look_ups);
    let (encoder, _lent) = encoder.detach();
    (encoder, outcome)
}
