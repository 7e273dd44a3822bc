// How a run ends: what was put is flushed, and a refusal is said.
ghost use Rattle.std.specs.Prelude.{ℕ, ◌≡◌, ◌≤◌, List, OnOk, IfErr};
ghost use Rattle.std.specs.Io.KnownBytes.{append_known};
ghost use Rattle.smt_program.specs.Ends.{Ends, IsUnput, SaysLine};
ghost use Rattle.smt_script.specs.Sink.{Rose};

use smt_script::{Sink, SinkError};

/// Why a run was not done.
pub trait Refused {
    /// The status with which a run ends that is refused so.
    ghost status_gives: { Self → ℕ };

    /// The line that says it, with its LF.
    ghost line_gives: { Self → List ℕ };

    /// The status with which a run ends that is refused so.
    fn status(&self) -> u8
        ensures { result ≡ status_gives self.now };

    /// The line that says it, with its LF.
    fn line(&self) -> &'static str
        ensures { result.now ≡ line_gives self.now };
}

/// Puts a text.
pub fn put_text<E: From<SinkError>, W: Sink>(text: &str, out: &mut W) -> Result<(), E>
    ensures done { OnOk result (W.contents out.new ≡ append_known (W.contents out.old) text.now) }
    ensures refused { IfErr result (IsUnput E.From.from_gives
        (Rose (W.faults out.old) (W.faults out.new))) }
    ensures later { W.faults out.old ≤ W.faults out.new }
{
    out.put(text.as_bytes())?;
    Ok(())
}

/// Ends a run: flushes `out`, also where not all was put, says a refusal on `diag`, and answers the status.
///
/// Whether the line of a refusal went well changes no status.
pub fn end_run<E: Refused + From<SinkError> + Drop, W: Sink, D: Sink>(
    outcome: Result<u8, E>,
    out: &mut W,
    diag: &mut D,
) -> u8
    ensures ends { Ends E.Refused.status_gives E.Refused.line_gives E.From.from_gives
        (Rose (W.faults out.old) (W.faults out.new)) (diag.new ≡ diag.old)
        (SaysLine D.contents D.faults D.has_room D.place diag.old diag.new) outcome result }
    ensures held { W.contents out.new ≡ W.contents out.old }
    ensures later { W.faults out.old ≤ W.faults out.new }
{
    let flushed = out.flush();
    let outcome = match outcome {
        Ok(status) => match flushed {
            Ok(()) => Ok(status),
            Err(error) => Err(E::from(error)),
        },
        Err(refusal) => Err(refusal),
    };
    match outcome {
        Ok(status) => status,
        Err(refusal) => {
            // A diagnosis that is not put changes no status.
            let _ = diag.put(refusal.line().as_bytes());
            refusal.status()
        }
    }
}
