// Lines out of a buffered reader.
ghost use Rattle.std.specs.Prelude.{◌<◌};
ghost use Rattle.smt_script.specs.Bytes.{bytes_in};
ghost use Rattle.smt_solve.specs.Line.{AppendsLine, AppendsStep};

use crate::{LineEnd, next_line};
use smt_script::Bytes;
use std::io;
use std::io::{BufRead, ErrorKind};

/// How far one look at a reader came with a line.
#[derive(Clone, Copy, Debug, PartialEq, Eq, Drop)]
pub(crate) enum Step {
    /// This many bytes were appended, none of which is LF, and there is room for more.
    More(usize),
    /// The line has ended.
    Ended(LineEnd),
}

/// Appends what the reader has at hand of the line, at most `room` bytes.
///
/// The bytes are taken from the reader once they are appended, so that none is lost where there is no memory for them.
fn append_step<B: BufRead>(reader: &mut B, line: &mut Bytes, room: usize) -> io::Result<Step>
    requires { 0 < room }
    ensures { AppendsStep (B.remaining reader.old) (B.remaining reader.new) (bytes_in line.old)
        (bytes_in line.new) room result }
{
    let bytes = match reader.fill_buf() {
        Ok(bytes) => bytes,
        // A signal came before any byte.
        Err(error) if error.kind() == ErrorKind::Interrupted => return Ok(Step::More(0)),
        Err(error) => return Err(error),
    };
    let (count, end) = next_line(bytes, room);
    line.append(&bytes[..count])?;
    reader.consume(count);
    // Where the bytes at hand have ended, more may come. The reader has ended where none was at hand.
    if end == LineEnd::End && count > 0 {
        return Ok(Step::More(count));
    }
    Ok(Step::Ended(end))
}

/// Appends the next line with its LF to `line`, at most `limit` bytes, and answers how it ended.
///
/// On an error a first part of the line may be appended.
pub(crate) fn append_line<B: BufRead>(
    reader: &mut B,
    line: &mut Bytes,
    limit: usize,
) -> io::Result<LineEnd>
    ensures { AppendsLine (B.remaining reader.old) (B.remaining reader.new) (bytes_in line.old)
        (bytes_in line.new) limit result }
{
    let mut room = limit;
    // Nothing says that signals end, and each loop has to.
    for _ in 0..u64::MAX {
        if room == 0 {
            return Ok(LineEnd::TooLong);
        }
        match append_step(reader, line, room)? {
            Step::More(count) => room -= count,
            Step::Ended(end) => return Ok(end),
        }
    }
    Err(io::Error::from(ErrorKind::TimedOut))
}
