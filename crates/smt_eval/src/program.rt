// The run of the program, from its words to its status.
ghost use Rattle.std.specs.Prelude.{◌≡◌, ◌↔◌, ◌≤◌, false, true, IfErr, None, OnOk};
ghost use Rattle.law_texts.specs.SharedTexts.{texts};
ghost use Rattle.smt_program.specs.Ends.{SaysLine};
ghost use Rattle.smt_script.specs.Sink.{Rose};
ghost use Rattle.smt_runs.specs.Runs.{Does, Fails, HasCause, Knows, Reports, around, does_own};
ghost use Rattle.smt_runs.specs.Runs.{requested};
ghost use Rattle.smt_eval.specs.Causes.{WhyNotEvaluated};
ghost use Rattle.smt_eval.specs.Run.{IsComplete, ReadsAndEvaluates};
ghost use Rattle.smt_eval.specs.Words.{commanded, usage_line};

use crate::answers::{put_truths, truths_of};
use crate::command::{Command, TEXTS};
use crate::reading::input_from;
use smt_runs::{Refusal, Task, Texts, run_task};
use smt_script::{Sink, Source};
use smt_text::Text;
use std::alloc::Global;

/// Reads a job with an assignment, and puts the truths of its terms.
fn evaluate<R: Source, W: Sink>(alloc: Global, source: &mut R, out: &mut W) -> Result<(), Refusal>
    ensures done { OnOk result (ReadsAndEvaluates
        (around R.remaining W.contents source.old out.old tt)
        (around R.remaining W.contents source.new out.new tt)) }
    ensures failed { IfErr result (Fails (Rose (R.faults source.old) (R.faults source.new))
        (Rose (W.faults out.old) (W.faults out.new))) }
    ensures known { IfErr result (WhyNotEvaluated
        (around R.remaining W.contents source.old out.old tt)
        (around R.remaining W.contents source.new out.new tt)) }
    ensures later { W.faults out.old ≤ W.faults out.new }
{
    let input = input_from(alloc, source)?;
    let truths = truths_of(alloc, &input)?;
    Ok(put_truths(truths.as_slice(), out)?)
}

impl<R: Source> Task<R, ()> for Command {
    ghost use Rattle.std.specs.Prelude.{false, true};
    ghost use Rattle.smt_eval.specs.Causes.{WhyNotEvaluated};
    ghost use Rattle.smt_eval.specs.Run.{ReadsAndEvaluates};
    ghost use Rattle.smt_eval.specs.Words.{commanded, usage_line};

    ghost named = { commanded };

    ghost usage = { usage_line };

    ghost reads = { λ _. true };

    ghost uses = { λ _. false };

    ghost keeps = { λ _ _. Unit {0} };

    ghost does = { λ _ _. ReadsAndEvaluates };

    ghost knows = { λ _ _. WhyNotEvaluated };

    fn named_by(words: &[Text]) -> Option<Command> {
        match words {
            [] => Some(Command::Evaluate),
            _ => None,
        }
    }

    fn texts() -> Texts {
        TEXTS
    }

    fn perform<W: Sink>(
        self,
        alloc: Global,
        words: &[Text],
        source: &mut R,
        beside: &mut (),
        out: &mut W,
    ) -> Result<(), Refusal> {
        evaluate(alloc, source, out)
    }
}

/// Runs the program over these words, and answers the status with which it ends.
///
/// Without words it reads the source to its end and a job with an assignment of its bytes (`smt_eval`), and puts a line to `out` for
/// each term that is current behind all steps of the job: `true` or `false`, as it is in the interpretation that the assignment gives.
/// The last line is `holds` where all are true, and else `fails`. `--help` and `--version` put a text. The run flushes `out` once at its
/// end.
///
/// `holds` comes exactly where the interpretation makes all these terms true as they are built, and, of a job that has a script,
/// exactly where it is carried to a model of the script that `run` puts for the job. Then the terms are true, as they are written, in
/// each interpretation of them that agrees with it on what the built terms reach.
///
/// 0: what was asked for is put. 2: there are other words. 3: the bytes are no job with an assignment. 5: the source failed. 6: `out`
/// failed. 7: there was no memory. With 2, 3 and 5 nothing is put to `out`. But for 0, one line is put to `diag`; whether that went
/// well changes no status.
///
/// Where neither the source nor `out` failed and there was memory, a job with an assignment ends with 0, and any other bytes with 3.
///
/// # Examples
///
/// ```
/// use kembura::eval_run;
/// use kembura::script::{ReadSource, WriteSink};
///
/// let mut source = ReadSource::new(rt.stdin());
/// let mut out = WriteSink::new(rt.stdout());
/// let mut diag = WriteSink::new(rt.stderr());
/// let status = eval_run(alloc, &[], &mut source, &mut out, &mut diag);
/// ```
pub fn eval_run<R: Source, W: Sink, D: Sink>(
    alloc: Global,
    words: &[Text],
    source: &mut R,
    out: &mut W,
    diag: &mut D,
) -> u8
    ensures done { result ≡ 0 → Does (around R.remaining W.contents source.old out.old tt)
        (around R.remaining W.contents source.new out.new tt) (λ _. ReadsAndEvaluates)
        (requested commanded (texts words.now)) }
    ensures usage { result ≡ 2 ↔ (requested commanded (texts words.now) ≡ None) }
    ensures complete { IsComplete (requested commanded (texts words.now))
        (R.remaining source.old) (Rose (R.faults source.old) (R.faults source.new))
        (Rose (W.faults out.old) (W.faults out.new)) result }
    ensures unread { does_own (λ _. true) (requested commanded (texts words.now)) ≡ false →
        source.new ≡ source.old }
    ensures report { Reports (requested commanded (texts words.now)) usage_line
        (out.new ≡ out.old) (diag.new ≡ diag.old)
        (SaysLine D.contents D.faults D.has_room D.place diag.old diag.new)
        (HasCause (Rose (R.faults source.old) (R.faults source.new))
        (Rose (W.faults out.old) (W.faults out.new))
        (Knows (around R.remaining W.contents source.old out.old tt)
        (around R.remaining W.contents source.new out.new tt) (λ _. WhyNotEvaluated)
        (requested commanded (texts words.now)))
        (Does (around R.remaining W.contents source.old out.old tt)
        (around R.remaining W.contents source.new out.new tt) (λ _. ReadsAndEvaluates)
        (requested commanded (texts words.now)))) result }
{
    run_task::<Command, R, (), W, D>(alloc, words, source, &mut (), out, diag)
}
