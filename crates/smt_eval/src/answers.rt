// The truths of a job's current terms in an assignment, and their lines.
ghost use Rattle.std.specs.Prelude.{◌≡◌, ◌≤◌, Bool, IfOk, IsErrOf, IsOkUnless, OnOk};
ghost use Rattle.std.specs.Io.KnownBytes.{append_known};
ghost use Rattle.law_assignments.specs.InputLaws.{IsEvaluable};
ghost use Rattle.law_folding.specs.Applications.{truth_literal};
ghost use Rattle.law_jobs.specs.Steps.{current};
ghost use Rattle.smt_eval.specs.AssignmentView.{plain_assignment};
ghost use Rattle.smt_jobs.specs.JobView.{plain_job};
ghost use Rattle.smt_script.specs.Sink.{Rose};
ghost use Rattle.smt_script.specs.declared.sink.SinkError.TheVariants.{Fault};
ghost use Rattle.smt_term.specs.View.{plain_term};
ghost use Rattle.smt_eval.specs.Answers.{all_true, answer_text, truth_line, truths_in};
ghost use Rattle.smt_eval.specs.Answers.{verdict_line};

use crate::{EvalError, EvalInput, eval};
use smt_script::{Sink, SinkError};
use smt_term::{Term, TermPrim};
use std::alloc::Global;

/// The truth that a literal says.
#[tactic(auto, using(smt_term::specs::View::views), unfolding(smt_term::specs::View::plain_term))]
fn truth_in(literal: &Term) -> bool
    ensures { (b : Bool) → plain_term literal.now ≡ truth_literal b → result ≡ b }
{
    match literal {
        Term::Prim(TermPrim::Bool(truth)) => *truth,
        _ => false,
    }
}

/// The truths of the terms that are current behind all steps of the job.
pub(crate) fn truths_of(alloc: Global, input: &EvalInput) -> Result<Vec<bool>, EvalError>
    requires evaluable { IsEvaluable (plain_job input.now.job) (plain_assignment input.now.given) }
    ensures truths { IfOk result (λ truths.
        truths.items
        ≡ truths_in (plain_assignment input.now.given) (current (plain_job input.now.job).steps)) }
    ensures refusal { IsOkUnless result EvalError.Memory }
{
    let Ok(terms) = input.job.current(alloc) else {
        return Err(EvalError::Memory);
    };
    let mut truths = Vec::new(alloc);
    for term in terms.items() {
        let value = eval(alloc, &input.given, term)?;
        truths.push(truth_in(&value))?;
    }
    Ok(truths)
}

/// The line of a truth.
fn line_of_truth(truth: bool) -> &'static str
    ensures { result.now ≡ truth_line truth }
{
    if truth { "true\n" } else { "false\n" }
}

/// The last line.
fn line_of_verdict(holds: bool) -> &'static str
    ensures { result.now ≡ verdict_line holds }
{
    if holds { "holds\n" } else { "fails\n" }
}

/// Whether all are true.
fn are_all(truths: &[bool]) -> bool
    ensures { result ≡ all_true truths.now }
{
    truths.iter().all(|truth| *truth)
}

/// Puts a line for each truth, and the last line.
pub(crate) fn put_truths<W: Sink>(truths: &[bool], out: &mut W) -> Result<(), SinkError>
    ensures puts { OnOk result
        (W.contents out.new ≡ append_known (W.contents out.old) (answer_text truths.now)) }
    ensures cause { IsErrOf result Fault → Rose (W.faults out.old) (W.faults out.new) }
    ensures later { W.faults out.old ≤ W.faults out.new }
{
    for truth in truths {
        out.put(line_of_truth(*truth).as_bytes())?;
    }
    out.put(line_of_verdict(are_all(truths)).as_bytes())
}
