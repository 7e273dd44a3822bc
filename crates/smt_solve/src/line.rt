// Where lines end.
ghost use Rattle.std.specs.Prelude.{◌≤◌, length, take, drop};
ghost use Rattle.smt_solve.specs.Link.{EndsAs};

use crate::link::LineEnd;

/// How many bytes the next line takes of those at hand, at most `limit`, and how it ends.
///
/// A line ends with its first LF, which is counted: the answer is that number of bytes and `Line`. Where all bytes at hand are
/// fewer than `limit` and none is LF, they are all counted, and it is `End`: more may come where the bytes were not the last.
/// Where the first `limit` bytes have no LF, it is `limit` and `TooLong`, also for a limit of 0. It reads no byte behind those
/// that it counts, and takes no memory.
pub fn next_line(bytes: &[u8], limit: usize) -> (usize, LineEnd)
    ensures within { result.0 ≤ length bytes.now }
    ensures ending { EndsAs result.1 (take result.0 bytes.now) limit
        (Some (drop result.0 bytes.now)) }
{
    let mut at = 0;
    while at < limit {
        if at == bytes.len() {
            return (at, LineEnd::End);
        }
        if bytes[at] == b'\n' {
            return (at + 1, LineEnd::Line);
        }
        at += 1;
    }
    (at, LineEnd::TooLong)
}
