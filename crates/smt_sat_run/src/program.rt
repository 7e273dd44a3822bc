// The run of the program, from its words to its status.
ghost use Rattle.std.specs.Prelude.{◌≡◌, ◌↔◌, ◌⊎◌, ℕ, List, None, IfErr, IfOk, OnOk};
ghost use Rattle.std.specs.Io.KnownBytes.{append_known};
ghost use Rattle.law_texts.specs.SharedTexts.{texts};
ghost use Rattle.smt_script.specs.Sink.{Rose};
ghost use Rattle.smt_sat_run.specs.Around.{around};
ghost use Rattle.smt_sat_run.specs.Causes.{HasAnswerCause, HasCause, HasPutCause, LeavesOutput};
ghost use Rattle.smt_sat_run.specs.Run.{Answers, IsDone, IsSaid, MayPutLine, Reports};
ghost use Rattle.smt_sat_run.specs.Words.{commanded};

use crate::answer::{answer_text, verdict_from};
use crate::command::{Command, HELP, VERSION, command_of};
use crate::deciding::{check, search};
use crate::reading::read_source;
use crate::refusal::Refusal;
use crate::verdict::Verdict;
use smt_script::{Sink, Source};
use smt_text::Text;
use std::alloc::{AllocError, Global};

/// Puts a text, and flushes the sink.
fn put_text<W: Sink>(out: &mut W, text: &[u8]) -> Result<(), Refusal>
    ensures puts { OnOk result (W.contents out.new ≡ append_known (W.contents out.old) text.now) }
    ensures refused { IfErr result (HasPutCause (Rose (W.faults out.old) (W.faults out.new))) }
{
    let put = out.put(text);
    let flushed = out.flush();
    put?;
    Ok(flushed?)
}

/// Reads a formula, searches over at most so many conflicts, and puts what was found.
fn answer_by_search<R: Source, W: Sink>(
    alloc: Global,
    most: u64,
    source: &mut R,
    out: &mut W,
) -> Result<Verdict, Refusal>
    ensures said { IfOk result (Answers (R.remaining source.old) (R.remaining source.new)
        (W.contents out.old) (W.contents out.new)) }
    ensures refused { IfErr result (HasAnswerCause
        (Rose (R.faults source.old) (R.faults source.new))
        (Rose (W.faults out.old) (W.faults out.new)) (R.remaining source.old)) }
    ensures untouched { IfErr result (LeavesOutput (W.contents out.old) (W.contents out.new)) }
{
    let formula = read_source(alloc, source)?;
    let answer = search(alloc, &formula, most)?;
    let text = answer_text(alloc, formula.variables, &answer)?;
    put_text(out, text.as_slice())?;
    Ok(verdict_from(&answer))
}

/// Reads a formula and a proof, goes through the proof, and puts what that shows.
fn answer_by_proof<R: Source, P: Source, W: Sink>(
    alloc: Global,
    source: &mut R,
    proof: &mut P,
    out: &mut W,
) -> Result<Verdict, Refusal>
    ensures said { IfOk result (Answers (R.remaining source.old) (R.remaining source.new)
        (W.contents out.old) (W.contents out.new)) }
    ensures refused { IfErr result (HasAnswerCause
        (Rose (R.faults source.old) (R.faults source.new)
        ⊎ Rose (P.faults proof.old) (P.faults proof.new))
        (Rose (W.faults out.old) (W.faults out.new)) (R.remaining source.old)) }
    ensures untouched { IfErr result (LeavesOutput (W.contents out.old) (W.contents out.new)) }
{
    let formula = read_source(alloc, source)?;
    match check(alloc, &formula, proof)? {
        None => {
            put_text(out, b"s UNSATISFIABLE\n")?;
            Ok(Verdict::Unsatisfiable)
        }
        Some(why) => {
            put_text(out, b"s UNKNOWN\n")?;
            Ok(Verdict::Refused(why))
        }
    }
}

/// Puts what the words ask for.
fn respond<R: Source, P: Source, W: Sink>(
    alloc: Global,
    words: &[Text],
    source: &mut R,
    proof: &mut P,
    out: &mut W,
) -> Result<Verdict, Refusal>
    ensures said { IfOk result (IsSaid
        (around R.remaining R.faults P.faults W.contents W.faults source.old proof.old out.old)
        (around R.remaining R.faults P.faults W.contents W.faults source.new proof.new out.new)
        (commanded (texts words.now))) }
    ensures refused { IfErr result (HasCause
        (around R.remaining R.faults P.faults W.contents W.faults source.old proof.old out.old)
        (around R.remaining R.faults P.faults W.contents W.faults source.new proof.new out.new)
        (commanded (texts words.now))) }
    ensures untouched { IfErr result (LeavesOutput (W.contents out.old) (W.contents out.new)) }
{
    match command_of(words) {
        Some(Command::Search(most)) => answer_by_search(alloc, most, source, out),
        Some(Command::Check) => answer_by_proof(alloc, source, proof, out),
        Some(Command::Help) => {
            put_text(out, HELP.as_bytes())?;
            Ok(Verdict::Told)
        }
        Some(Command::Version) => {
            put_text(out, VERSION.as_bytes())?;
            Ok(Verdict::Told)
        }
        None => Err(Refusal::Usage),
    }
}

/// Puts a line, where there was memory for it. Whether that went well changes nothing.
fn say<D: Sink>(diag: &mut D, line: Result<Vec<u8>, AllocError>)
    ensures { (text : List ℕ) → IfOk line (λ line. line.items ≡ text)
        → MayPutLine D.contents D.faults D.has_room D.place diag.old diag.new text }
{
    if let Ok(line) = line {
        let _ = diag.put(line.as_slice());
    }
}

/// Runs the program over these words, and answers the status with which it ends.
///
/// Without words it reads the source to its end, reads a formula of its bytes (`smt_dimacs`), searches for truths of its variables
/// that make all clauses true (`smt_search`), and puts what was found to `out`. `--conflicts N` limits the search. `--proof FILE` has
/// the run go through the proof that `proof` gives, in place of searching (`smt_clauses`). `--help`, `-h` and `--version` put a text.
///
/// 20: no truths make all clauses of the formula true. 10: some do, and they are put. 0: nothing was found, or the text of a word is
/// put. 2: the words are no command. 3: the bytes are no formula. 5: a source failed. 6: `out` failed. 7: there was no memory. With
/// 2, 3 and 5 nothing is put to `out`. With these and with 6 and 7 one line is put to `diag`, and with 0 where a proof was refused;
/// whether that went well changes no status.
///
/// 10 and 20 stand on no premise: neither the search nor a proof is believed.
pub fn sat_run<R: Source, P: Source, W: Sink, D: Sink>(
    alloc: Global,
    words: &[Text],
    source: &mut R,
    proof: &mut P,
    out: &mut W,
    diag: &mut D,
) -> u8
    ensures done { IsDone
        (around R.remaining R.faults P.faults W.contents W.faults source.old proof.old out.old)
        (around R.remaining R.faults P.faults W.contents W.faults source.new proof.new out.new)
        (commanded (texts words.now)) result }
    ensures usage { result ≡ 2 ↔ (commanded (texts words.now) ≡ None) }
    ensures report { Reports D.contents D.faults D.has_room D.place diag.old diag.new
        (around R.remaining R.faults P.faults W.contents W.faults source.old proof.old out.old)
        (around R.remaining R.faults P.faults W.contents W.faults source.new proof.new out.new)
        (commanded (texts words.now)) result }
{
    match respond(alloc, words, source, proof, out) {
        Ok(Verdict::Refused(why)) => {
            say(diag, why.line(alloc));
            0
        }
        Ok(verdict) => verdict.status(),
        Err(refusal) => {
            say(diag, refusal.line(alloc));
            refusal.status()
        }
    }
}
