// The frame of a run: from the words of a program to its status.
ghost use Rattle.std.specs.Prelude.{ℕ, ◌≡◌, ◌⊎◌, ◌↔◌, ◌≤◌, Bool, false, List, None, Option};
ghost use Rattle.std.specs.Prelude.{Some};
ghost use Rattle.std.specs.Prelude.{IfErr, OnOk};
ghost use Rattle.law_texts.specs.SharedTexts.{texts};
ghost use Rattle.smt_program.specs.Ends.{SaysLine};
ghost use Rattle.smt_script.specs.Sink.{Rose};
ghost use Rattle.smt_runs.specs.Runs.{Around, Does, Fails, HasCause, Knows, Reports};
ghost use Rattle.smt_runs.specs.Runs.{around, does_own, requested};
ghost use Rattle.smt_runs.specs.declared.refusal.Refusal.{Refusal as Why};

use crate::refusal::Refusal;
use smt_program::{Asked, asked_of, end_run, put_text};
use smt_script::{Sink, Source};
use smt_text::Text;
use std::alloc::Global;

/// What a program says of itself.
#[derive(Clone, Copy, Debug, Drop)]
pub struct Texts {
    /// What `--help` puts.
    pub help: &'static str,
    /// What `--version` puts.
    pub version: &'static str,
    /// The line that is said where the words are no command, with its LF.
    pub usage: &'static str,
}

/// What a program does by its words, over a source and what stands beside it, as a starter of solvers.
pub trait Task<R: Source, P>: Copy {
    /// What words name.
    ghost named: { List (List ℕ) → Option Self };

    /// The line that is said where the words are no command.
    ghost usage: { List ℕ };

    /// Whether it reads the source.
    ghost reads: { Self → Bool };

    /// Whether it uses what stands beside.
    ghost uses: { Self → Bool };

    /// What stays of what stands beside, whether it is done or refused.
    ghost keeps: { P → P → Type 0 };

    /// What is done, by the words.
    ghost does: { Self → List (List ℕ) → Around P → Around P → Type 0 };

    /// What is known where it is refused, by the words.
    ghost knows: { Self → List (List ℕ) → Around P → Around P → Why → Type 0 };

    /// What the words name, None where they are no command of the program's own.
    fn named_by(words: &[Text]) -> Option<Self>
        ensures { result ≡ named (texts words.now) };

    /// What the program says of itself.
    fn texts() -> Texts
        ensures { result.usage.now ≡ usage };

    /// Does it.
    fn perform<W: Sink>(
        self,
        alloc: Global,
        words: &[Text],
        source: &mut R,
        beside: &mut P,
        out: &mut W,
    ) -> Result<(), Refusal>
        requires { named (texts words.now) ≡ Some self }
        ensures done { OnOk result (does self (texts words.now)
            (around R.remaining W.contents source.old out.old beside.old)
            (around R.remaining W.contents source.new out.new beside.new)) }
        ensures failed { IfErr result (Fails (Rose (R.faults source.old) (R.faults source.new))
            (Rose (W.faults out.old) (W.faults out.new))) }
        ensures known { IfErr result (knows self (texts words.now)
            (around R.remaining W.contents source.old out.old beside.old)
            (around R.remaining W.contents source.new out.new beside.new)) }
        ensures unread { reads self ≡ false → source.new ≡ source.old }
        ensures unused { uses self ≡ false → beside.new ≡ beside.old }
        ensures kept { keeps beside.old beside.new }
        ensures later { W.faults out.old ≤ W.faults out.new };
}

/// Does what the words ask for.
fn put_answer<T: Task<R, P>, R: Source, P, W: Sink>(
    alloc: Global,
    words: &[Text],
    request: Asked<T>,
    source: &mut R,
    beside: &mut P,
    out: &mut W,
) -> Result<(), Refusal>
    requires { requested T.named (texts words.now) ≡ Some request }
    ensures done { OnOk result (Does
        (around R.remaining W.contents source.old out.old beside.old)
        (around R.remaining W.contents source.new out.new beside.new)
        (λ task. T.does task (texts words.now)) (Some request)) }
    ensures failed { IfErr result (Fails (Rose (R.faults source.old) (R.faults source.new))
        (Rose (W.faults out.old) (W.faults out.new))) }
    ensures known { IfErr result (Knows
        (around R.remaining W.contents source.old out.old beside.old)
        (around R.remaining W.contents source.new out.new beside.new)
        (λ task. T.knows task (texts words.now)) (Some request)) }
    ensures unread { does_own T.reads (Some request) ≡ false → source.new ≡ source.old }
    ensures unused { does_own T.uses (Some request) ≡ false → beside.new ≡ beside.old }
    ensures kept { T.keeps beside.old beside.new ⊎ (beside.new ≡ beside.old) }
    ensures later { W.faults out.old ≤ W.faults out.new }
{
    match request {
        Asked::Own(task) => task.perform(alloc, words, source, beside, out),
        Asked::Help => put_text(T::texts().help, out),
        Asked::Version => put_text(T::texts().version, out),
    }
}

/// Does what the words ask for, and answers the status with which the run ends.
///
/// 0: it is done. 2: the words are no command; nothing is done. Any other status is that of a refusal. The run flushes `out` once at
/// its end, also where not all was put, and a flush that fails ends it as a put that fails does. But for 0, one line is put to `diag`;
/// whether that went well changes no status.
pub fn run_task<T: Task<R, P>, R: Source, P, W: Sink, D: Sink>(
    alloc: Global,
    words: &[Text],
    source: &mut R,
    beside: &mut P,
    out: &mut W,
    diag: &mut D,
) -> u8
    ensures done { result ≡ 0 → Does
        (around R.remaining W.contents source.old out.old beside.old)
        (around R.remaining W.contents source.new out.new beside.new)
        (λ task. T.does task (texts words.now)) (requested T.named (texts words.now)) }
    ensures usage { result ≡ 2 ↔ (requested T.named (texts words.now) ≡ None) }
    ensures unread { does_own T.reads (requested T.named (texts words.now)) ≡ false →
        source.new ≡ source.old }
    ensures unused { does_own T.uses (requested T.named (texts words.now)) ≡ false →
        beside.new ≡ beside.old }
    ensures kept { T.keeps beside.old beside.new ⊎ (beside.new ≡ beside.old) }
    ensures report { Reports (requested T.named (texts words.now)) T.usage
        (out.new ≡ out.old) (diag.new ≡ diag.old)
        (SaysLine D.contents D.faults D.has_room D.place diag.old diag.new)
        (HasCause (Rose (R.faults source.old) (R.faults source.new))
        (Rose (W.faults out.old) (W.faults out.new))
        (Knows (around R.remaining W.contents source.old out.old beside.old)
        (around R.remaining W.contents source.new out.new beside.new)
        (λ task. T.knows task (texts words.now)) (requested T.named (texts words.now)))
        (Does (around R.remaining W.contents source.old out.old beside.old)
        (around R.remaining W.contents source.new out.new beside.new)
        (λ task. T.does task (texts words.now)) (requested T.named (texts words.now))))
        result }
{
    let Some(request) = asked_of(words, T::named_by(words)) else {
        // A diagnosis that is not put changes no status.
        let _ = diag.put(T::texts().usage.as_bytes());
        return 2;
    };
    let outcome = match put_answer(alloc, words, request, source, beside, out) {
        Ok(()) => Ok(0),
        Err(refusal) => Err(refusal),
    };
    end_run(outcome, out, diag)
}
