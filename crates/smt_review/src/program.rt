// The run of the program, from its words to its status.
ghost use Rattle.std.specs.Prelude.{◌≡◌, ◌↔◌, ◌≤◌, false, true, None, Some, IfErr, OnOk};
ghost use Rattle.law_texts.specs.SharedTexts.{texts};
ghost use Rattle.smt_program.specs.Ends.{SaysLine};
ghost use Rattle.smt_script.specs.Sink.{Rose};
ghost use Rattle.smt_solve.specs.Link.{AllowsTheSame};
ghost use Rattle.smt_runs.specs.Runs.{Does, Fails, HasCause, Knows, Reads, Reports, around};
ghost use Rattle.smt_runs.specs.Runs.{StartFailed, does_own, requested};
ghost use Rattle.smt_review.specs.Causes.{WhyNotDone, WhyNotReviewed};
ghost use Rattle.smt_review.specs.Run.{IsComplete, IsDone, ReviewsPair, finding_line};
ghost use Rattle.smt_review.specs.Words.{commanded, solver_named, usage_line};

use crate::command::{Command, TEXTS, command_of, solver_of};
use crate::finding::Finding;
use crate::pair::{read_whole, two_terms};
use crate::question::review_once;
use crate::relation::Relation;
use smt_program::put_text;
use smt_runs::{Refusal, Task, Texts, run_task};
use smt_script::{Sink, Source};
use smt_solve::Starter;
use smt_text::Text;
use std::alloc::Global;

/// The line of a finding.
fn line_of(finding: Finding) -> &'static str
    ensures { result.now ≡ finding_line finding }
{
    match finding {
        Finding::Holds => "holds\n",
        Finding::Fails => "fails\n",
        Finding::Unknown => "unknown\n",
    }
}

/// Reads a job of two terms, asks a solver whether the relation holds of them, and puts what was found.
fn review_job<R: Source, W: Sink, P: Starter>(
    alloc: Global,
    words: &[Text],
    relation: Relation,
    source: &mut R,
    out: &mut W,
    starter: &mut P,
) -> Result<(), Refusal>
    requires { commanded (texts words.now) ≡ Some (Command.Review relation) }
    ensures done { OnOk result (Reads
        (ReviewsPair P.L.state P.L.allows (P.allows starter.old) (solver_named (texts words.now))
        relation (around R.remaining W.contents source.old out.old (P.state starter.old))
        (around R.remaining W.contents source.new out.new (P.state starter.new)))
        (R.remaining source.old) (R.remaining source.new)) }
    ensures failed { IfErr result (Fails (Rose (R.faults source.old) (R.faults source.new))
        (Rose (W.faults out.old) (W.faults out.new))) }
    ensures known { IfErr result (WhyNotReviewed P.L.state (solver_named (texts words.now)) relation
        (around R.remaining W.contents source.old out.old (P.state starter.old))
        (around R.remaining W.contents source.new out.new (P.state starter.new))) }
    ensures later { W.faults out.old ≤ W.faults out.new }
    ensures allows { AllowsTheSame (P.allows starter.old) (P.allows starter.new) }
{
    let job = read_whole(alloc, source)?;
    let Some((a, b)) = two_terms(&job.steps) else {
        return Err(Refusal::NotTwo);
    };
    let Ok(solver) = solver_of(alloc, words) else {
        return Err(Refusal::Memory);
    };
    let Ok(a) = a.share() else {
        return Err(Refusal::Memory);
    };
    let Ok(b) = b.share() else {
        return Err(Refusal::Memory);
    };
    let finding = review_once(alloc, &job.enums, relation, a, b, &solver, starter)?;
    put_text(line_of(finding), out)
}

impl<R: Source, P: Starter> Task<R, P> for Command {
    ghost use Rattle.std.specs.Prelude.{true};
    ghost use Rattle.smt_solve.specs.Link.{AllowsTheSame};
    ghost use Rattle.smt_runs.specs.Runs.{seen};
    ghost use Rattle.smt_review.specs.Causes.{WhyNotDone};
    ghost use Rattle.smt_review.specs.Run.{IsDone};
    ghost use Rattle.smt_review.specs.Words.{commanded, solver_named, usage_line};

    ghost named = { commanded };

    ghost usage = { usage_line };

    ghost reads = { λ _. true };

    ghost uses = { λ _. true };

    ghost keeps = { λ before after. AllowsTheSame (P.allows before) (P.allows after) };

    ghost does = { λ command words before after. IsDone P.L.state P.L.allows
        (P.allows before.beside) (solver_named words) command (seen P.state before)
        (seen P.state after) };

    ghost knows = { λ command words before after. WhyNotDone P.L.state (solver_named words) command
        (seen P.state before) (seen P.state after) };

    fn named_by(words: &[Text]) -> Option<Command> {
        command_of(words)
    }

    fn texts() -> Texts {
        TEXTS
    }

    fn perform<W: Sink>(
        self,
        alloc: Global,
        words: &[Text],
        source: &mut R,
        beside: &mut P,
        out: &mut W,
    ) -> Result<(), Refusal> {
        match self {
            Command::Review(relation) => review_job(alloc, words, relation, source, out, beside),
        }
    }
}

/// Runs the program over these words, and answers the status with which it ends.
///
/// `equivalent`, `implies` or `disjoint` with a PATH and ARGS behind it reads a job from the source, whose steps are one assertion of
/// two terms, starts the solver, and asks it about the difference of the terms as `review` does: its link is sent `(set-logic ALL)`, the
/// text of the difference, `(check-sat)` and, where it has answered, `(reset)`, which it may still hold back when it goes back to the
/// starter. Then `holds`, `fails` or `unknown` is put to `out` and flushed. Where the starter is honest and its links tell all, `holds`
/// may be believed: the relation holds of the terms, as they are written, in every interpretation of them. `--help` and `--version` put
/// a text. The run flushes `out` once at its end, also where it is refused.
///
/// 0: what was asked for is put to `out`, and the source of a job is read to its end. 2: the words are no command. 3: the bytes are no
/// job, or its steps are not one assertion of two terms; no solver was started. 4: the difference has no script. 5: the source failed.
/// 6: `out` failed. 7: there was no memory. 8: the session with the solver failed. 9: the solver did not start. With 2, 3, 4, 5, 8 and 9
/// nothing is put to `out`. But for 0, one line is put to `diag`; whether that went well changes no status.
///
/// Where nothing failed and there was memory, a job of two terms ends with 0 or 8 where their difference has no fault, and with 4 or 8
/// where it has one. Other jobs, and bytes that are no job, end with 3.
///
/// # Examples
///
/// ```
/// use kembura::review::review_run;
/// use kembura::script::{ReadSource, WriteSink};
/// use kembura::{ChildStarter, Text};
///
/// let words = [Text::from_str(alloc, "implies")?, Text::from_str(alloc, "cvc5")?];
/// let mut source = ReadSource::new(rt.stdin());
/// let mut out = WriteSink::new(rt.stdout());
/// let mut diag = WriteSink::new(rt.stderr());
/// let mut starter = ChildStarter::new(rt.clone()?);
/// let status = review_run(alloc, &words, &mut source, &mut out, &mut diag, &mut starter);
/// ```
pub fn review_run<R: Source, W: Sink, D: Sink, P: Starter>(
    alloc: Global,
    words: &[Text],
    source: &mut R,
    out: &mut W,
    diag: &mut D,
    starter: &mut P,
) -> u8
    ensures done { result ≡ 0 → Does
        (around R.remaining W.contents source.old out.old (P.state starter.old))
        (around R.remaining W.contents source.new out.new (P.state starter.new))
        (IsDone P.L.state P.L.allows (P.allows starter.old) (solver_named (texts words.now)))
        (requested commanded (texts words.now)) }
    ensures usage { result ≡ 2 ↔ (requested commanded (texts words.now) ≡ None) }
    ensures complete { IsComplete (requested commanded (texts words.now)) (R.remaining source.old)
        (Rose (R.faults source.old) (R.faults source.new))
        (Rose (W.faults out.old) (W.faults out.new))
        (StartFailed (P.state starter.old) (P.state starter.new)) result }
    ensures unread { does_own (λ _. true) (requested commanded (texts words.now)) ≡ false →
        source.new ≡ source.old }
    ensures unstarted { does_own (λ _. true) (requested commanded (texts words.now)) ≡ false →
        starter.new ≡ starter.old }
    ensures report { Reports (requested commanded (texts words.now)) usage_line
        (out.new ≡ out.old) (diag.new ≡ diag.old)
        (SaysLine D.contents D.faults D.has_room D.place diag.old diag.new)
        (HasCause (Rose (R.faults source.old) (R.faults source.new))
        (Rose (W.faults out.old) (W.faults out.new))
        (Knows (around R.remaining W.contents source.old out.old (P.state starter.old))
        (around R.remaining W.contents source.new out.new (P.state starter.new))
        (WhyNotDone P.L.state (solver_named (texts words.now)))
        (requested commanded (texts words.now)))
        (Does (around R.remaining W.contents source.old out.old (P.state starter.old))
        (around R.remaining W.contents source.new out.new (P.state starter.new))
        (IsDone P.L.state P.L.allows (P.allows starter.old) (solver_named (texts words.now)))
        (requested commanded (texts words.now)))) result }
    ensures allows { AllowsTheSame (P.allows starter.old) (P.allows starter.new) }
{
    run_task::<Command, R, P, W, D>(alloc, words, source, starter, out, diag)
}
