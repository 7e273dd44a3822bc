// The run of the program, from its words to its status.
ghost use Rattle.std.specs.Prelude.{◌≡◌, ◌↔◌, ◌≤◌, false, true, IfErr, None, OnOk};
ghost use Rattle.law_texts.specs.SharedTexts.{texts};
ghost use Rattle.smt_program.specs.Ends.{SaysLine};
ghost use Rattle.smt_script.specs.Sink.{Rose};
ghost use Rattle.smt_runs.specs.Runs.{Does, Fails, HasCause, Knows, Reports, around, does_own};
ghost use Rattle.smt_runs.specs.Runs.{requested};
ghost use Rattle.smt_blast.specs.Causes.{WhyNotBlasted};
ghost use Rattle.smt_blast.specs.Run.{IsComplete, ReadsAndPrints};
ghost use Rattle.smt_blast.specs.Words.{commanded, usage_line};

use crate::command::{Command, TEXTS};
use crate::printing::put_blasted;
use crate::reading::blast_job;
use smt_runs::{Refusal, Task, Texts, run_task};
use smt_script::{Sink, Source};
use smt_text::Text;
use std::alloc::Global;

/// Reads a job, and puts the script of its blasted terms.
fn print<R: Source, W: Sink>(alloc: Global, source: &mut R, out: &mut W) -> Result<(), Refusal>
    ensures done { OnOk result (ReadsAndPrints
        (around R.remaining W.contents source.old out.old tt)
        (around R.remaining W.contents source.new out.new tt)) }
    ensures failed { IfErr result (Fails (Rose (R.faults source.old) (R.faults source.new))
        (Rose (W.faults out.old) (W.faults out.new))) }
    ensures known { IfErr result (WhyNotBlasted
        (around R.remaining W.contents source.old out.old tt)
        (around R.remaining W.contents source.new out.new tt)) }
    ensures later { W.faults out.old ≤ W.faults out.new }
{
    let blasted = blast_job(alloc, source)?;
    put_blasted(alloc, blasted, out)
}

impl<R: Source> Task<R, ()> for Command {
    ghost use Rattle.std.specs.Prelude.{false, true};
    ghost use Rattle.smt_blast.specs.Causes.{WhyNotBlasted};
    ghost use Rattle.smt_blast.specs.Run.{ReadsAndPrints};
    ghost use Rattle.smt_blast.specs.Words.{commanded, usage_line};

    ghost named = { commanded };

    ghost usage = { usage_line };

    ghost reads = { λ _. true };

    ghost uses = { λ _. false };

    ghost keeps = { λ _ _. Unit {0} };

    ghost does = { λ _ _. ReadsAndPrints };

    ghost knows = { λ _ _. WhyNotBlasted };

    fn named_by(words: &[Text]) -> Option<Command> {
        match words {
            [] => Some(Command::Blast),
            _ => None,
        }
    }

    fn texts() -> Texts {
        TEXTS
    }

    fn perform<W: Sink>(
        self,
        alloc: Global,
        words: &[Text],
        source: &mut R,
        beside: &mut (),
        out: &mut W,
    ) -> Result<(), Refusal> {
        print(alloc, source, out)
    }
}

/// Runs the program over these words, and answers the status with which it ends.
///
/// Without words it reads the source to its end, reads a job of its bytes (`smt_jobs`), blasts the terms that are current behind
/// all its steps, as they are built (`smt_blast`), and puts the script of the new terms to `out`. `--help` and `--version` put a
/// text. The run flushes `out` once at its end.
///
/// The script is one over Booleans alone. An interpretation of the current terms makes them true exactly where its bits, restricted
/// to what the new terms reach, are carried to a model of the script, and each interpretation of the script is, for its names, what
/// the bits of one of the terms are carried to. So the script has a model exactly where the terms can be true together.
///
/// 0: what was asked for is put. 2: there are other words. 3: the bytes are no job. 5: the source failed. 6: `out` failed. 7: there
/// was no memory. 10: a current term has an operator without a circuit, or a type that is neither Bool nor a bitvector type. With 2,
/// 3, 5 and 10 nothing is put to `out`. But for 0, one line is put to `diag`; whether that went well changes no status.
///
/// Where neither the source nor `out` failed and there was memory, a job without such an operator and type ends with 0, one that has
/// one with 10, and any other bytes with 3.
///
/// # Examples
///
/// ```
/// use kembura::blast_run;
/// use kembura::script::{ReadSource, WriteSink};
///
/// let mut source = ReadSource::new(rt.stdin());
/// let mut out = WriteSink::new(rt.stdout());
/// let mut diag = WriteSink::new(rt.stderr());
/// let status = blast_run(alloc, &[], &mut source, &mut out, &mut diag);
/// ```
pub fn blast_run<R: Source, W: Sink, D: Sink>(
    alloc: Global,
    words: &[Text],
    source: &mut R,
    out: &mut W,
    diag: &mut D,
) -> u8
    ensures done { result ≡ 0 → Does (around R.remaining W.contents source.old out.old tt)
        (around R.remaining W.contents source.new out.new tt) (λ _. ReadsAndPrints)
        (requested commanded (texts words.now)) }
    ensures usage { result ≡ 2 ↔ (requested commanded (texts words.now) ≡ None) }
    ensures complete { IsComplete (requested commanded (texts words.now))
        (R.remaining source.old) (Rose (R.faults source.old) (R.faults source.new))
        (Rose (W.faults out.old) (W.faults out.new)) result }
    ensures unread { does_own (λ _. true) (requested commanded (texts words.now)) ≡ false →
        source.new ≡ source.old }
    ensures report { Reports (requested commanded (texts words.now)) usage_line
        (out.new ≡ out.old) (diag.new ≡ diag.old)
        (SaysLine D.contents D.faults D.has_room D.place diag.old diag.new)
        (HasCause (Rose (R.faults source.old) (R.faults source.new))
        (Rose (W.faults out.old) (W.faults out.new))
        (Knows (around R.remaining W.contents source.old out.old tt)
        (around R.remaining W.contents source.new out.new tt) (λ _. WhyNotBlasted)
        (requested commanded (texts words.now)))
        (Does (around R.remaining W.contents source.old out.old tt)
        (around R.remaining W.contents source.new out.new tt) (λ _. ReadsAndPrints)
        (requested commanded (texts words.now)))) result }
{
    run_task::<Command, R, (), W, D>(alloc, words, source, &mut (), out, diag)
}
