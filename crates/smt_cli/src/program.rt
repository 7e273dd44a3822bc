// The run of the program, from its words to its status.
ghost use Rattle.std.specs.Prelude.{◌≡◌, ◌↔◌, ◌≤◌, false, None, Some, IfErr, OnOk};
ghost use Rattle.law_texts.specs.SharedTexts.{texts};
ghost use Rattle.smt_program.specs.Ends.{SaysLine};
ghost use Rattle.smt_script.specs.Sink.{Rose};
ghost use Rattle.smt_solve.specs.Link.{AllowsTheSame};
ghost use Rattle.smt_runs.specs.Runs.{Does, Fails, HasCause, Knows, Reads, Reports, around};
ghost use Rattle.smt_runs.specs.Runs.{StartFailed, does_own, requested};
ghost use Rattle.smt_cli.specs.Causes.{WhyNotChecked, WhyNotDone, WhyNotPrinted};
ghost use Rattle.smt_cli.specs.Run.{Checks, IsComplete, IsDone, Prints};
ghost use Rattle.smt_cli.specs.Words.{asks_solver, commanded, generation_named, reads_job};
ghost use Rattle.smt_cli.specs.Words.{solver_named, usage_line};

use crate::checking::put_verdicts;
use crate::command::{Command, TEXTS, command_of, seed_and_count, solver_of};
use crate::generation::put_summary;
use crate::printing::put_script;
use smt_runs::{Refusal, Task, Texts, read_source, run_task};
use smt_script::{Sink, Source};
use smt_solve::Starter;
use smt_term::Text;
use std::alloc::Global;

/// Reads a job, and puts its script.
fn print<R: Source, W: Sink>(alloc: Global, source: &mut R, out: &mut W) -> Result<(), Refusal>
    ensures done { OnOk result (Reads (Prints (W.contents out.old) (W.contents out.new))
        (R.remaining source.old) (R.remaining source.new)) }
    ensures failed { IfErr result (Fails (Rose (R.faults source.old) (R.faults source.new))
        (Rose (W.faults out.old) (W.faults out.new))) }
    ensures known { IfErr result
        (WhyNotPrinted (R.remaining source.old) (W.contents out.old) (W.contents out.new)) }
    ensures later { W.faults out.old ≤ W.faults out.new }
{
    let job = read_source(alloc, source)?;
    put_script(alloc, job, out)
}

/// Reads a job, asks a solver by its steps, and puts the verdicts.
fn check<R: Source, W: Sink, P: Starter>(
    alloc: Global,
    words: &[Text],
    source: &mut R,
    out: &mut W,
    starter: &mut P,
) -> Result<(), Refusal>
    requires { commanded (texts words.now) ≡ Some Command.Check }
    ensures done { OnOk result (Reads (Checks P.L.state (P.allows starter.old)
        (solver_named (texts words.now))
        (around R.remaining W.contents source.old out.old (P.state starter.old))
        (around R.remaining W.contents source.new out.new (P.state starter.new)))
        (R.remaining source.old) (R.remaining source.new)) }
    ensures failed { IfErr result (Fails (Rose (R.faults source.old) (R.faults source.new))
        (Rose (W.faults out.old) (W.faults out.new))) }
    ensures known { IfErr result (WhyNotChecked P.L.state (P.allows starter.old)
        (solver_named (texts words.now))
        (around R.remaining W.contents source.old out.old (P.state starter.old))
        (around R.remaining W.contents source.new out.new (P.state starter.new))) }
    ensures later { W.faults out.old ≤ W.faults out.new }
    ensures allows { AllowsTheSame (P.allows starter.old) (P.allows starter.new) }
{
    let job = read_source(alloc, source)?;
    let Ok(solver) = solver_of(alloc, words) else {
        return Err(Refusal::Memory);
    };
    put_verdicts(alloc, job, &solver, out, starter)
}

impl<R: Source, P: Starter> Task<R, P> for Command {
    ghost use Rattle.smt_solve.specs.Link.{AllowsTheSame};
    ghost use Rattle.smt_runs.specs.Runs.{seen};
    ghost use Rattle.smt_cli.specs.Causes.{WhyNotDone};
    ghost use Rattle.smt_cli.specs.Run.{IsDone};
    ghost use Rattle.smt_cli.specs.Words.{asks_solver, commanded, generation_named, reads_job};
    ghost use Rattle.smt_cli.specs.Words.{solver_named, usage_line};

    ghost named = { commanded };

    ghost usage = { usage_line };

    ghost reads = { reads_job };

    ghost uses = { asks_solver };

    ghost keeps = { λ before after. AllowsTheSame (P.allows before) (P.allows after) };

    ghost does = { λ command words before after. IsDone P.L.state (P.allows before.beside)
        (solver_named words) (seen P.state before) (seen P.state after) (generation_named words)
        command };

    ghost knows = { λ command words before after. WhyNotDone P.L.state (P.allows before.beside)
        (solver_named words) (seen P.state before) (seen P.state after) command };

    fn named_by(words: &[Text]) -> Option<Command> {
        command_of(words)
    }

    fn texts() -> Texts {
        TEXTS
    }

    fn perform<W: Sink>(
        self,
        alloc: Global,
        words: &[Text],
        source: &mut R,
        beside: &mut P,
        out: &mut W,
    ) -> Result<(), Refusal> {
        match self {
            Command::Script => print(alloc, source, out),
            Command::Check => check(alloc, words, source, out, beside),
            Command::Generate => {
                let (seed, count) = seed_and_count(words);
                put_summary(alloc, seed, count, out)
            }
        }
    }
}

/// Runs the program over these words, and answers the status with which it ends.
///
/// 0: what was asked for is put to `out`, and for `script` and `check` the source is read to its end. 2: the words are no
/// command. 3: the job was refused. 4: a term of the job has no script. 5: the source failed. 6: `out` failed. 7: there was no
/// memory. 8: the session with the solver failed. 9: the solver did not start. With 2, 3, 5 and 9 nothing is put to `out`.
/// But for 0, one line is put to `diag`; whether that went well changes no status.
///
/// What `script` puts with 0 is a script that means the terms of the job which are current at its end. It is well sorted, defines
/// each term that lives at its end once, from the names and the inline literals of its parts, and has no more commands than its
/// steps ask for. A check is a line `(check-sat)`.
///
/// `check PATH ARGS..` makes the lines up to the first check, starts the solver, and sends it `(set-logic ALL)` and these lines. For
/// each check it sends `(check-sat)`, reads one line, and puts its word to `out`: `sat`, `unsat` or `unknown`. `out` is flushed before
/// the next lines are made. A job with a section `terms` has one check, behind its terms. Where the solver is honest, so that it says
/// `unsat` only of scripts without a model, `unsat` means that no interpretation makes all terms of the job true that are current at
/// this check. A link to a solver that was started goes back to the starter before the run ends, unless there was no memory to take it
/// back, with 7. With 0, 4 and 6 the solver was not killed, with 8 only for what it answered. With 4, 6, 7 and 8 `out` has the words of
/// the checks that the solver answered before, and no other, with 6 and 7 perhaps a first part of one more. What lines the starter's
/// links may give stays as it was.
///
/// `gen SEED N` makes a job of N terms from the number SEED, encodes it onto a sink that counts, and puts six lines: how many
/// terms the job has, how many of its variables the script declares, how many other names of terms it has, how many assertions,
/// how many bytes, at most 2^64 - 1, and the sum of these bytes modulo 2^64. No line of the script is kept.
///
/// The run flushes `out` once at its end, so that nothing of what was put is held back. A flush that fails ends it as a put that
/// fails does. Where the run is refused before that, `out` is flushed for what was put until then, and whether that goes well
/// changes no status.
///
/// 3, 4 and 5 come of `script` and `check` alone, 8 and 9 of `check`. Other words leave the source as it was, unread, and but for
/// `check` the starter is left as it was. Where neither the source nor `out` nor the start failed and there was memory, `script`
/// ends with 0 for a job whose built terms have no fault, and `check` with 0 or 8 for one. For another job `script` ends with 4, and
/// so does `check`, unless its session fails at a check before the fault. Both end with 3 for any other bytes. `gen`, `--help` and
/// `--version` end with 0.
///
/// # Examples
///
/// ```
/// use kembura::script::{ReadSource, WriteSink};
/// use kembura::{ChildStarter, Text, run};
///
/// let words = [Text::from_str(alloc, "script")?];
/// let mut source = ReadSource::new(rt.stdin());
/// let mut out = WriteSink::new(rt.stdout());
/// let mut diag = WriteSink::new(rt.stderr());
/// let mut starter = ChildStarter::new(rt.clone()?);
/// let status = run(alloc, &words, &mut source, &mut out, &mut diag, &mut starter);
/// ```
pub fn run<R: Source, W: Sink, D: Sink, P: Starter>(
    alloc: Global,
    words: &[Text],
    source: &mut R,
    out: &mut W,
    diag: &mut D,
    starter: &mut P,
) -> u8
    ensures done { result ≡ 0 → Does
        (around R.remaining W.contents source.old out.old (P.state starter.old))
        (around R.remaining W.contents source.new out.new (P.state starter.new))
        (λ command before after. IsDone P.L.state (P.allows starter.old)
        (solver_named (texts words.now)) before after (generation_named (texts words.now)) command)
        (requested commanded (texts words.now)) }
    ensures usage { result ≡ 2 ↔ (requested commanded (texts words.now) ≡ None) }
    ensures complete { IsComplete (requested commanded (texts words.now)) (R.remaining source.old)
        (Rose (R.faults source.old) (R.faults source.new))
        (Rose (W.faults out.old) (W.faults out.new))
        (StartFailed (P.state starter.old) (P.state starter.new)) result }
    ensures unread { does_own reads_job (requested commanded (texts words.now)) ≡ false →
        source.new ≡ source.old }
    ensures unstarted { does_own asks_solver (requested commanded (texts words.now)) ≡ false →
        starter.new ≡ starter.old }
    ensures report { Reports (requested commanded (texts words.now)) usage_line
        (out.new ≡ out.old) (diag.new ≡ diag.old)
        (SaysLine D.contents D.faults D.has_room D.place diag.old diag.new)
        (HasCause (Rose (R.faults source.old) (R.faults source.new))
        (Rose (W.faults out.old) (W.faults out.new))
        (Knows (around R.remaining W.contents source.old out.old (P.state starter.old))
        (around R.remaining W.contents source.new out.new (P.state starter.new))
        (λ command before after. WhyNotDone P.L.state (P.allows starter.old)
        (solver_named (texts words.now)) before after command)
        (requested commanded (texts words.now)))
        (Does (around R.remaining W.contents source.old out.old (P.state starter.old))
        (around R.remaining W.contents source.new out.new (P.state starter.new))
        (λ command before after. IsDone P.L.state (P.allows starter.old)
        (solver_named (texts words.now)) before after (generation_named (texts words.now)) command)
        (requested commanded (texts words.now)))) result }
    ensures allows { AllowsTheSame (P.allows starter.old) (P.allows starter.new) }
{
    run_task::<Command, R, P, W, D>(alloc, words, source, starter, out, diag)
}
