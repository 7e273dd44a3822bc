// Bytes that are taken, and what is put for them.
ghost use Rattle.std.specs.Prelude.{◌≡◌, IfErr, OnOk, [], ◌∷◌, ◌++◌};
ghost use Rattle.std.specs.Rc.{rc_str_bytes};
ghost use Rattle.std.specs.Io.KnownBytes.{append_known};
ghost use Rattle.smt_script.specs.Sink.{Rose};
ghost use Rattle.law_verdicts.specs.Streams.{Standing};
ghost use Rattle.smt_stream.specs.Heard.{IsAt, heard_text};
ghost use Rattle.smt_stream.specs.Runs.{HasCause, Says};

use crate::refusal::Refusal;
use crate::stream::{Heard, Stream};
use smt_mini::Reply;
use smt_script::Sink;
use smt_text::Text;

/// Puts a line, with its line feed.
fn put_line<W: Sink>(text: &Text, out: &mut W) -> Result<(), Refusal>
    ensures done { OnOk result (W.contents out.new
        ≡ append_known (W.contents out.old) (rc_str_bytes text.now ++ 10 ∷ [])) }
    ensures same { OnOk result (W.faults out.new ≡ W.faults out.old) }
    ensures cause { IfErr result (HasCause ⊥ ⊥ (Rose (W.faults out.old) (W.faults out.new))) }
{
    out.put(text.as_str().as_bytes())?;
    out.put(b"\n")?;
    Ok(())
}

/// Puts what is heard at a byte.
fn put_heard<W: Sink>(heard: Heard, out: &mut W) -> Result<(), Refusal>
    ensures done { OnOk result
        (W.contents out.new ≡ append_known (W.contents out.old) (heard_text heard)) }
    ensures same { OnOk result (W.faults out.new ≡ W.faults out.old) }
    ensures cause { IfErr result (HasCause ⊥ ⊥ (Rose (W.faults out.old) (W.faults out.new))) }
{
    match heard {
        Heard::Reply(Reply::Nothing) | Heard::Reply(Reply::Ended) => Ok(()),
        Heard::Reply(Reply::Line(text)) => put_line(&text, out),
        Heard::Reply(Reply::Model(text)) => Ok(out.put(text.as_str().as_bytes())?),
        Heard::Stop(stop) => Ok(out.put(stop.line().as_bytes())?),
    }
}

/// Takes a byte, and puts what is put for it.
fn take_byte<W: Sink>(stream: &mut Stream, byte: u8, out: &mut W) -> Result<(), Refusal>
    ensures done { (first : Standing) → IsAt stream.old first →
        OnOk result ((last : Standing)
        × Says first (byte ∷ []) (W.contents out.old) (W.contents out.new) last
        × IsAt stream.new last) }
    ensures same { OnOk result (W.faults out.new ≡ W.faults out.old) }
    ensures cause { IfErr result (HasCause ⊥ ⊥ (Rose (W.faults out.old) (W.faults out.new))) }
{
    match stream.take(byte) {
        Ok(heard) => put_heard(heard, out),
        Err(_) => Err(Refusal::Memory),
    }
}

/// Takes bytes, and puts what is put for each.
pub fn take_piece<W: Sink>(stream: &mut Stream, piece: &[u8], out: &mut W) -> Result<(), Refusal>
    ensures done { (first : Standing) → IsAt stream.old first →
        OnOk result ((last : Standing)
        × Says first piece.now (W.contents out.old) (W.contents out.new) last
        × IsAt stream.new last) }
    ensures same { OnOk result (W.faults out.new ≡ W.faults out.old) }
    ensures cause { IfErr result (HasCause ⊥ ⊥ (Rose (W.faults out.old) (W.faults out.new))) }
{
    let mut rest = piece;
    while let Some((byte, more)) = rest.split_first() {
        take_byte(stream, *byte, out)?;
        rest = more;
    }
    Ok(())
}

/// Takes bytes, puts what is put for each, and flushes it.
pub fn take_and_flush<W: Sink>(
    stream: &mut Stream,
    piece: &[u8],
    out: &mut W,
) -> Result<(), Refusal>
    ensures done { (first : Standing) → IsAt stream.old first →
        OnOk result ((last : Standing)
        × Says first piece.now (W.contents out.old) (W.contents out.new) last
        × IsAt stream.new last) }
    ensures same { OnOk result (W.faults out.new ≡ W.faults out.old) }
    ensures cause { IfErr result (HasCause ⊥ ⊥ (Rose (W.faults out.old) (W.faults out.new))) }
{
    take_piece(stream, piece, out)?;
    out.flush()?;
    Ok(())
}
