// What gives bytes.
ghost use Rattle.std.specs.Prelude.{ℕ, List, Option, ◌∷◌, ◌<◌, ◌≤◌, length};
ghost use Rattle.smt_script.specs.Sink.{unreferenced};
ghost use Rattle.smt_script.specs.Source.{ReadsNext};

use std::alloc::{AllocError, Global};
use std::io::Read;
use thiserror::Error;

/// A source failed to give bytes. Its count of faults shows it.
#[derive(Clone, Copy, Debug, PartialEq, Eq, Drop, Error)]
#[error("the source failed to give bytes")]
pub struct SourceFault;

/// Why a source was not made.
#[derive(Clone, Copy, Debug, PartialEq, Eq, Drop, Error)]
pub enum SourceError {
    /// There was no memory for its bytes.
    #[error("out of memory for the bytes of a source")]
    Memory,
}

impl From<AllocError> for SourceError {
    ghost use Rattle.std.specs.Prelude.{◌≡◌};
    ghost use Rattle.smt_script.specs.declared.source.SourceError.TheVariants.{Memory};

    ghost from_gives = { λ _ error. error ≡ Memory };

    fn from(_error: AllocError) -> SourceError {
        SourceError::Memory
    }
}

/// What gives bytes, piece by piece, up to an end.
pub trait Source {
    /// The bytes that are left, where it tells them.
    ghost remaining: { Self → Option (List ℕ) };

    /// How often it has failed. The count stands still at 2^64 - 1.
    ghost faults: { Self → ℕ };

    /// It certainly fails at no read.
    ghost never_fails: { Self → Type 0 };

    /// The references that lead to it, the outermost first.
    ghost place: { Self → List ℕ } = { unreferenced };

    /// Puts the next bytes at the front of a buffer that is not empty, and answers how many; 0 is
    /// the end.
    ///
    /// A fault takes no byte, and comes only where the source's count of faults rose in this call,
    /// or stands at its last value.
    fn read(&mut self, buffer: &mut [u8]) -> Result<usize, SourceFault>
        requires { 0 < length buffer.old }
        ensures { ReadsNext remaining faults never_fails place self.old self.new buffer.new
            result };
}

/// A mutable reference to a source is a source with the same meanings.
impl<S: Source> Source for &mut S {
    ghost remaining = { λ s. S.remaining s.now };

    ghost faults = { λ s. S.faults s.now };

    ghost never_fails = { λ s. S.never_fails s.now };

    ghost place = { λ s. s.ghost_name ∷ S.place s.now };

    fn read(&mut self, buffer: &mut [u8]) -> Result<usize, SourceFault> {
        (**self).read(buffer)
    }
}

/// Reads any reader, tells nothing of what is left, and counts the reads that failed.
#[derive(Debug, Drop)]
pub struct ReadSource<R> {
    reader: R,
    faults: u64,
}

impl<R: Read> ReadSource<R> {
    ghost use Rattle.std.specs.Prelude.{◌≡◌};
    ghost use Rattle.smt_script.specs.Source.{reader_of, read_faults};

    /// A source over `reader` that has not failed yet.
    pub fn new(reader: R) -> ReadSource<R>
        ensures same_reader { reader_of result ≡ reader }
        ensures no_faults { read_faults result ≡ 0 }
    {
        ReadSource { reader, faults: 0 }
    }
}

impl<R: Read> Source for ReadSource<R> {
    ghost use Rattle.std.specs.Io.KnownBytes.{ReadConsumes};
    ghost use Rattle.smt_script.specs.Sink.{untold, unreferenced};
    ghost use Rattle.smt_script.specs.Source.{ReadsNext, never_certain, reader_of, read_faults};

    ghost remaining = { untold };

    ghost faults = { read_faults };

    ghost never_fails = { never_certain };

    /// Reads once. Whatever error the reader gives is a fault.
    fn read(&mut self, buffer: &mut [u8]) -> Result<usize, SourceFault>
        requires { 0 < length buffer.old }
        ensures reads { ReadsNext untold read_faults never_certain unreferenced self.old self.new
            buffer.new result }

        // where the reader tells what it has left
        ensures given { ReadConsumes (R.remaining (reader_of self.old))
            (R.remaining (reader_of self.new)) result buffer.new }
    {
        match self.reader.read(buffer) {
            Ok(count) => Ok(count),
            Err(_) => {
                self.faults = self.faults.saturating_add(1);
                Err(SourceFault)
            }
        }
    }
}

/// Gives the bytes of a list, and fails at chosen reads.
#[derive(Debug, Drop)]
pub struct MemorySource {
    bytes: Vec<u8>,
    at: usize,
    fails: Vec<u64>,
    reads: u64,
    faults: u64,
    ghost within: { at ≤ length bytes.items },
}

impl MemorySource {
    ghost use Rattle.std.specs.Prelude.{IfOk, IsOkUnless};
    ghost use Rattle.smt_script.specs.MemorySource.{IsUnread};

    /// A source of these bytes. The reads whose numbers, counted from 1, are in `fails` are to
    /// fail.
    ///
    /// # Errors
    ///
    /// `Memory` comes where there is no memory for copies of the bytes and the numbers.
    pub fn new(alloc: Global, bytes: &[u8], fails: &[u64]) -> Result<MemorySource, SourceError>
        ensures unread { IfOk result (λ s. IsUnread s bytes.now fails.now) }
        ensures refusal { IsOkUnless result SourceError.Memory }
    {
        Ok(MemorySource {
            bytes: Vec::from_slice(alloc, bytes)?,
            at: 0,
            fails: Vec::from_slice(alloc, fails)?,
            reads: 0,
            faults: 0,
        })
    }
}

impl Source for MemorySource {
    ghost use Rattle.smt_script.specs.Sink.{unreferenced};
    ghost use Rattle.smt_script.specs.MemorySource.{memory_remaining, memory_faults};
    ghost use Rattle.smt_script.specs.MemorySource.{memory_never_fails, ReadsInMemory};
    ghost use Rattle.smt_script.specs.Source.{ReadsNext};

    ghost remaining = { memory_remaining };

    ghost faults = { memory_faults };

    ghost never_fails = { memory_never_fails };

    /// Gives as many of the bytes that are left as the buffer takes, or fails where this read is
    /// to fail.
    fn read(&mut self, buffer: &mut [u8]) -> Result<usize, SourceFault>
        requires { 0 < length buffer.old }
        ensures reads { ReadsNext memory_remaining memory_faults memory_never_fails unreferenced
            self.old self.new buffer.new result }
        ensures exact { ReadsInMemory self.old self.new buffer.new result }
    {
        self.reads = self.reads.saturating_add(1);
        if self.fails.contains(&self.reads) {
            self.faults = self.faults.saturating_add(1);
            return Err(SourceFault);
        }
        let left = &self.bytes.as_slice()[self.at..];
        let count = left.len().min(buffer.len());
        buffer[..count].copy_from_slice(&left[..count]);
        self.at += count;
        Ok(count)
    }
}
