// A solver that is asked by the steps of a job: each piece of the script is made, sent and answered before the next is made.
ghost use Rattle.std.specs.Prelude.{ℕ, List, [], ◌∷◌, ◌++◌, ◌≡◌, ◌≤◌, ◌≢◌, false, IfErr, IfOk};
ghost use Rattle.std.specs.Prelude.{IsTrue, OnOk, Some, is_err, length};
ghost use Rattle.std.specs.Io.KnownBytes.{append_known};
ghost use Rattle.law_terms.specs.Faults.{first_fault};
ghost use Rattle.smt_term.specs.Enums.{enums_of};
ghost use Rattle.law_theorem.specs.Fits.{Stages, encoding_of};
ghost use Rattle.law_jobs.specs.Steps.{AreBalanced, PlainStep, asserted};
ghost use Rattle.smt_script.specs.Memory.{list_bytes};
ghost use Rattle.smt_script.specs.Sink.{Rose};
ghost use Rattle.smt_solve.specs.Link.{AllowsTheSame, IsUnused};
ghost use Rattle.smt_solve.specs.Session.{session_failed, session_link, state_by};
ghost use Rattle.smt_jobs.specs.Numbers.{all_steps_stand, steps_by};
ghost use Rattle.smt_encode.specs.Encoded.{enums_in, is_spent, nodes_in, HasEncoding};
ghost use Rattle.smt_runs.specs.Asking.{AsksAll, StopsAsking, verdict_line};
ghost use Rattle.smt_runs.specs.Jobs.{HasPrintCause};
ghost use Rattle.smt_runs.specs.Pieces.{PutsPiece};
ghost use Rattle.smt_runs.specs.Progress.{AtPiece};
ghost use Rattle.smt_runs.specs.Speaking.{SpeaksNext, StopsSpeaking};
ghost use Rattle.law_verdicts.specs.Dialogues.{AnsweredCheck};

use crate::pieces::put_piece;
use crate::refusal::Refusal;
use smt_encode::{Encoder, Steps};
use smt_jobs::NumberedStep;
use smt_pool::{ask_behind, begin_dialogue, send_more};
use smt_script::{ListSink, Sink};
use smt_solve::{Decision, Link, LocalSolver};
use std::alloc::Global;
use std::sync::ledger::Ledger;

/// The line that says a decision.
fn line_of(decision: Decision) -> &'static str
    ensures { result.now ≡ verdict_line decision }
{
    match decision {
        Decision::Sat => "sat\n",
        Decision::Unsat => "unsat\n",
        Decision::Unknown => "unknown\n",
    }
}

/// The lines of the steps up to the next check, in memory, and the steps that are left.
pub(crate) fn next_piece<'a, 's, L: Ledger>(
    alloc: Global,
    encoder: Encoder<'a, ()>,
    steps: &'s [NumberedStep],
    look_ups: &mut Steps<L>,
) -> (
    Encoder<'a, ()>,
    Result<(ListSink, &'s [NumberedStep]), Refusal>,
)
    requires stand { IsTrue (all_steps_stand (nodes_in encoder) steps.now) }
    requires unspent { is_spent encoder ≡ false }
    requires balanced { (x : Stages) × HasEncoding encoder (encoding_of x)
        × AreBalanced (length x.below) (steps_by (nodes_in encoder) steps.now) }
    ensures puts { (x : Stages) → HasEncoding encoder.entry (encoding_of x) →
        IfOk result.1 (λ p.
        PutsPiece (enums_in encoder.entry) (Some []) (Some (list_bytes p.0)) result.0 x
        (steps_by (nodes_in encoder.entry) steps.now) (steps_by (nodes_in encoder.entry) p.1.now)) }
    ensures stand { IfOk result.1 (λ p. IsTrue (all_steps_stand (nodes_in encoder.entry) p.1.now)) }
    ensures refused { IfErr result.1 (HasPrintCause
        (first_fault (enums_in encoder.entry)
        (asserted (steps_by (nodes_in encoder.entry) steps.now)))
        ⊥) }
    ensures unspent { is_spent result.0 ≡ is_err result.1 }
    ensures numbers { nodes_in result.0 ≡ nodes_in encoder.entry }
    ensures enums { enums_in result.0 ≡ enums_in encoder.entry }
{
    let mut lines = ListSink::new(alloc);
    let (encoder, outcome) = put_piece(encoder, steps, &mut lines, look_ups);
    match outcome {
        Ok(left) => (encoder, Ok((lines, left))),
        Err(error) => (encoder, Err(Refusal::of(error))),
    }
}

/// Asks about these lines behind those before, and puts the word of the answer. It is handed on before more is asked.
fn put_verdict<K: Link, W: Sink>(
    session: &mut LocalSolver<K>,
    lines: &[u8],
    out: &mut W,
) -> Result<(), Refusal>
    requires { session_failed session.old ≡ false }
    ensures asked { OnOk result (SpeaksNext (K.allows (session_link session.old))
        (state_by K.state session.old) (state_by K.state session.new) (W.contents out.old)
        (W.contents out.new) lines.now) }
    ensures refused { IfErr result (StopsSpeaking (K.allows (session_link session.old))
        (state_by K.state session.old) (state_by K.state session.new) (W.contents out.old)
        (W.contents out.new) (Rose (W.faults out.old) (W.faults out.new)) lines.now) }
    ensures unfailed { OnOk result (session_failed session.new ≡ false) }
    ensures later { W.faults out.old ≤ W.faults out.new }
    ensures allows { AllowsTheSame (K.allows (session_link session.old))
        (K.allows (session_link session.new)) }
{
    let decision = ask_behind(session, lines)?;
    out.put(line_of(decision).as_bytes())?;
    Ok(out.flush()?)
}

/// Asks a solver by the steps of a job, of which `lines` are those before the first check, and `left` the steps from it on. The
/// word of each answer is put, and handed on, before the next lines are made.
pub(crate) fn converse<'a, L: Ledger, K: Link, W: Sink>(
    alloc: Global,
    encoder: Encoder<'a, ()>,
    lines: ListSink,
    left: &[NumberedStep],
    session: &mut LocalSolver<K>,
    out: &mut W,
    look_ups: &mut Steps<L>,
) -> Result<(), Refusal>
    requires at { (steps : List PlainStep)
        × AtPiece (enums_in encoder) encoder steps (steps_by (nodes_in encoder) left.now) []
        (list_bytes lines) }
    requires stand { IsTrue (all_steps_stand (nodes_in encoder) left.now) }
    requires unspent { is_spent encoder ≡ false }
    requires unfailed { session_failed session.old ≡ false }
    requires unused { IsUnused (state_by K.state session.old) }
    ensures asked { (steps : List PlainStep) →
        AtPiece (enums_in encoder.entry) encoder.entry steps
        (steps_by (nodes_in encoder.entry) left.now) [] (list_bytes lines) →
        OnOk result ((checks : List AnsweredCheck) × (rest : List ℕ)
        × AsksAll (enums_in encoder.entry) steps (W.contents out.old) (W.contents out.new)
        (K.allows (session_link session.old)) (state_by K.state session.new) checks rest) }
    ensures refused { (steps : List PlainStep) →
        AtPiece (enums_in encoder.entry) encoder.entry steps
        (steps_by (nodes_in encoder.entry) left.now) [] (list_bytes lines) →
        IfErr result (StopsAsking (enums_in encoder.entry) steps (W.contents out.old)
        (W.contents out.new) (Rose (W.faults out.old) (W.faults out.new))
        (K.allows (session_link session.old)) (state_by K.state session.new)) }
    ensures later { W.faults out.old ≤ W.faults out.new }
{
    begin_dialogue(session)?;
    let mut encoder = encoder;
    let mut lines = lines;
    let mut left = left;
    while let Some((_, behind)) = left.split_first() {
        put_verdict(session, lines.bytes(), out)?;
        let (next, piece) = next_piece(alloc, encoder, behind, look_ups);
        encoder = next;
        let (more, later) = piece?;
        lines = more;
        left = later;
    }
    if lines.bytes().is_empty() {
        return Ok(());
    }
    Ok(send_more(session, lines.bytes())?)
}
