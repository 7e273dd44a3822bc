// How a process begins: its words, and its streams.
ghost use Rattle.std.specs.Prelude.{◌≡◌, ◌⊎◌, IfErr, IfOk, Ok};
ghost use Rattle.smt_program.specs.Ends.{SaysLine};
ghost use Rattle.smt_program.specs.Words.{IsAnswered};

use crate::words::{WordsError, command_words, put_installed};
use smt_script::{BufferedSink, ReadSource, Sink, WriteSink};
use smt_text::Text;
use std::env::Env;
use std::io::{BufWriter, Read, Write};

/// How many bytes of standard output are held back at most, to be written at once.
const PIECE: usize = 65_536;

/// What a run stands on.
#[derive(Drop)]
pub struct Begun<I, O: Write + Drop, E> {
    /// The words behind the program's name.
    pub words: Vec<Text>,
    /// Standard input.
    pub source: ReadSource<I>,
    /// Standard output. The run flushes it at its end.
    pub out: BufferedSink<BufWriter<O>>,
    /// Standard error.
    pub diag: WriteSink<E>,
}

/// Says why there is no run, and answers the status with which the process ends.
pub fn end_with<D: Sink>(diag: &mut D, line: &str, status: u8) -> u8
    ensures status { result ≡ status }
    ensures said { SaysLine D.contents D.faults D.has_room D.place diag.old diag.new line.now }
{
    // A line that is not put changes no status.
    let _ = diag.put(line.as_bytes());
    status
}

/// The words of a process and its streams, or the status with which it ends without a run.
///
/// Where the words ask for the version, `installed` is put first: it names what was installed, and is empty elsewhere.
///
/// # Errors
///
/// 2 comes where a word is not UTF-8, and `usage` is said; 6 where standard output fails; 7 where there is no memory.
pub fn begin<R: Env + AllocGlobal, I: Read + Drop, O: Write + Drop, E: Write + Drop>(
    rt: &R,
    usage: &str,
    installed: &str,
    input: I,
    output: O,
    error: E,
) -> Result<Begun<I, O, E>, u8>
    ensures words { IfOk result (λ begun. IsAnswered (Ok begun.words)) }
    ensures status { IfErr result (λ status. (status ≡ 2) ⊎ ((status ≡ 6) ⊎ (status ≡ 7))) }
{
    let mut diag = WriteSink::new(error);
    let words = match command_words(rt) {
        Ok(words) => words,
        Err(WordsError::NotText) => return Err(end_with(&mut diag, usage, 2)),
        Err(WordsError::Memory) => return Err(end_with(&mut diag, "memory\n", 7)),
    };
    let Ok(output) = BufWriter::with_capacity(rt.alloc(), PIECE, output) else {
        return Err(end_with(&mut diag, "memory\n", 7));
    };
    let mut out = BufferedSink::new(output);
    if put_installed(words.as_slice(), installed, &mut out).is_err() {
        return Err(end_with(&mut diag, "sink fault\n", 6));
    }
    Ok(Begun {
        words,
        source: ReadSource::new(input),
        out,
        diag,
    })
}
