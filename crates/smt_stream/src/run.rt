// The run of the program.
ghost use Rattle.std.specs.Prelude.{◌≡◌, ◌≢◌, ◌⊎◌, Err, None, Some, Result, IfErr, IfOk, OnOk};
ghost use Rattle.law_texts.specs.SharedTexts.{texts};
ghost use Rattle.std.specs.Io.KnownBytes.{append_known};
ghost use Rattle.smt_script.specs.Sink.{Puts, Rose};
ghost use Rattle.smt_script.specs.declared.sink.SinkError.{SinkError};
ghost use Rattle.law_verdicts.specs.Streams.{Standing, put_at_end, status_at};
ghost use Rattle.smt_stream.specs.Heard.{IsAt, IsLed};
ghost use Rattle.smt_stream.specs.Runs.{HasCause, IsDone, IsRefused};
ghost use Rattle.smt_stream.specs.Words.{commanded};

use crate::command::{Command, HELP, VERSION, command_of};
use crate::putting::take_and_flush;
use crate::refusal::Refusal;
use crate::stop::Stop;
use crate::stream::{Stage, Stream};
use smt_script::{Sink, Source};
use smt_text::Text;
use std::alloc::Global;

/// How many bytes one read asks for.
const PIECE: usize = 65_536;

/// Leads a stream over the bytes of a source, up to the end of either. What is put is flushed before the next read.
fn converse<R: Source, W: Sink>(
    alloc: Global,
    source: &mut R,
    out: &mut W,
) -> Result<Stream, Refusal>
    ensures led { IfOk result (IsLed (R.remaining source.old) (R.remaining source.new)
        (W.contents out.old) (W.contents out.new)) }
    ensures same { OnOk result (W.faults out.new ≡ W.faults out.old) }
    ensures cause { IfErr result (HasCause ⊥ (Rose (R.faults source.old) (R.faults source.new))
        (Rose (W.faults out.old) (W.faults out.new))) }
{
    let mut buffer = Vec::from_elem(alloc, 0u8, PIECE)?;
    let piece = buffer.as_mut_slice();
    let mut stream = Stream::new(alloc);
    loop {
        let count = source.read(piece)?;
        if count == 0 {
            return Ok(stream);
        }
        match take_and_flush(&mut stream, &piece[..count], out) {
            Ok(()) => {}
            Err(refusal) => return Err(refusal),
        }
        match stream.stage {
            Stage::Waiting => {}
            Stage::Exited | Stage::Stopped => return Ok(stream),
        }
    }
}

/// Puts what is put at the end of a stream, and answers the status of the run.
fn finish<W: Sink>(stream: &Stream, out: &mut W) -> Result<u8, Refusal>
    ensures done { (last : Standing) → IsAt stream.now last →
        IfOk result (λ status.
        (status ≡ status_at last)
        × (W.contents out.new ≡ append_known (W.contents out.old) (put_at_end last))) }
    ensures cause { IfErr result (HasCause ⊥ ⊥ (Rose (W.faults out.old) (W.faults out.new))) }
{
    match stream.stage {
        Stage::Exited => Ok(0),
        Stage::Stopped => Ok(3),
        Stage::Waiting if stream.scanner.depth == 0 => Ok(0),
        Stage::Waiting => {
            out.put(Stop::NotScript.line().as_bytes())?;
            out.flush()?;
            Ok(3)
        }
    }
}

/// Puts a text, and flushes it.
fn put_text<W: Sink>(text: &str, out: &mut W) -> Result<u8, Refusal>
    ensures done { IfOk result (λ status.
        (W.contents out.new ≡ append_known (W.contents out.old) text.now) × (status ≡ 0)) }
    ensures cause { IfErr result (HasCause ⊥ ⊥ (Rose (W.faults out.old) (W.faults out.new))) }
{
    out.put(text.as_bytes())?;
    out.flush()?;
    Ok(0)
}

/// Does what the words ask for, and answers the status of the run.
fn answer<R: Source, W: Sink>(
    alloc: Global,
    words: &[Text],
    source: &mut R,
    out: &mut W,
) -> Result<u8, Refusal>
    ensures done { IfOk result (IsDone (R.remaining source.old) (R.remaining source.new)
        (W.contents out.old) (W.contents out.new) (commanded (texts words.now))) }
    ensures unread { commanded (texts words.now) ≢ Some Command.Solve → source.new ≡ source.old }
    ensures usage { commanded (texts words.now) ≡ None →
        (result ≡ Err Refusal.Usage) × (out.new ≡ out.old) }
    ensures cause { IfErr result (HasCause (commanded (texts words.now) ≡ None)
        (Rose (R.faults source.old) (R.faults source.new))
        (Rose (W.faults out.old) (W.faults out.new))) }
{
    match command_of(words) {
        Some(Command::Solve) => {
            let stream = converse(alloc, source, out)?;
            finish(&stream, out)
        }
        Some(Command::Help) => put_text(HELP, out),
        Some(Command::Version) => put_text(VERSION, out),
        None => Err(Refusal::Usage),
    }
}

/// Runs the program over these words, and answers the status with which it ends.
///
/// Without words it reads the source piece by piece, feeds each command to a small solver as soon as its last bracket has come, and
/// puts each reply to `out` and flushes it before it reads on. What is put at each byte is said by `law_verdicts: Streams`: where the
/// bytes are commands, it is what the machine of `law_verdicts: Machine` replies to them. `--help` and `--version` put a text.
///
/// 0: `exit` came, or the source ended outside a command, or a text was put. 3: an error was put to `out` as the last line: the bytes
/// are no script, a command or all bytes together are too long, or a command is too deep. 2: there are other words. 5: the source
/// failed. 6: `out` failed. 7: there was no memory. With 2, 5, 6 and 7 one line is put to `diag`, and whether that went well changes
/// no status.
///
/// # Examples
///
/// ```
/// use kembura::mini_run;
/// use kembura::script::{ReadSource, WriteSink};
///
/// let mut source = ReadSource::new(rt.stdin());
/// let mut out = WriteSink::new(rt.stdout());
/// let mut diag = WriteSink::new(rt.stderr());
/// let status = mini_run(alloc, &[], &mut source, &mut out, &mut diag);
/// ```
pub fn mini_run<R: Source, W: Sink, D: Sink>(
    alloc: Global,
    words: &[Text],
    source: &mut R,
    out: &mut W,
    diag: &mut D,
) -> u8
    ensures ran { (IsDone (R.remaining source.old) (R.remaining source.new) (W.contents out.old)
        (W.contents out.new) (commanded (texts words.now)) result × (diag.new ≡ diag.old))
        ⊎ IsRefused (commanded (texts words.now) ≡ None)
        (Rose (R.faults source.old) (R.faults source.new))
        (Rose (W.faults out.old) (W.faults out.new)) (λ line.
        (put : Result (Unit {0}) SinkError)
        × Puts D.contents D.faults D.has_room D.place diag.old diag.new line put)
        result }
    ensures usage { commanded (texts words.now) ≡ None → (result ≡ 2) × (out.new ≡ out.old) }
    ensures unread { commanded (texts words.now) ≢ Some Command.Solve → source.new ≡ source.old }
{
    match answer(alloc, words, source, out) {
        Ok(status) => status,
        Err(refusal) => {
            // A diagnosis that is not put changes no status.
            let _ = diag.put(refusal.line().as_bytes());
            refusal.status()
        }
    }
}
