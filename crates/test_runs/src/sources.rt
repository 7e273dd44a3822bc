// Sources, and whole inputs that are read of them.
ghost use Rattle.std.specs.Prelude.{◌≡◌, ◌≤◌, length, MatchResult};

use crate::expected::{expect, expect_bytes};
use smt_cli::{InputError, MemorySource, ReadSource, Source, SourceFault, read_input};
use std::alloc::Global;
use std::io::{self, Read};
use std::process::Abort;
use test_words::AMPLE;

/// Stops the test where a read gives another answer, and names it.
fn expect_read(
    rt: &impl Abort,
    label: &str,
    read: Result<usize, SourceFault>,
    wanted: Result<usize, SourceFault>,
) {
    assert!(rt; read == wanted, "{label}: {read:?}, not {wanted:?}");
}

#[test]
fn memory_is_read_in_pieces(rt: HostRuntime) {
    let mut source = MemorySource::new(rt.alloc(), b"abcde", &[2]).expect(&rt, AMPLE);
    let mut buffer = *b"....";
    let read = source.read(&mut buffer);
    expect_read(&rt, "four bytes", read, Ok(4));
    expect_bytes(&rt, "the first four", &buffer, b"abcd");
    let read = source.read(&mut buffer);
    expect_read(&rt, "a fault", read, Err(SourceFault));
    expect_bytes(&rt, "behind the fault", &buffer, b"abcd");
    let read = (&mut source).read(&mut buffer);
    expect_read(&rt, "one byte", read, Ok(1));
    expect_bytes(&rt, "the last one", &buffer, b"ebcd");
    let read = source.read(&mut buffer);
    expect_read(&rt, "the end", read, Ok(0));
}

/// Gives what it has, three bytes a read, and then fails.
#[derive(Drop)]
struct BrokenReader {
    bytes: &'static [u8],
}

impl Read for BrokenReader {
    fn read(&mut self, buf: &mut [u8]) -> io::Result<usize> {
        let count = self.bytes.len().min(buf.len()).min(3);
        if count == 0 {
            return Err(io::Error::from(io::ErrorKind::UnexpectedEof));
        }
        buf[..count].copy_from_slice(&self.bytes[..count]);
        self.bytes = &self.bytes[count..];
        Ok(count)
    }
}

/// Stops the test where an input is read, or refused for another reason, and names it.
fn expect_refusal(
    rt: &impl Abort,
    label: &str,
    read: Result<Vec<u8>, InputError>,
    wanted: InputError,
) {
    assert!(rt; read.err() == Some(wanted), "{label}: not {wanted:?}");
}

#[test]
fn readers_are_read(rt: HostRuntime) {
    let alloc = rt.alloc();
    let mut whole = ReadSource::new(b"abcd".as_slice());
    let read = read_input(alloc, &mut whole, 4).expect(&rt, "an input of four bytes is read");
    expect_bytes(&rt, "four bytes", read.as_slice(), b"abcd");
    let mut long = ReadSource::new(b"abcde".as_slice());
    let read = read_input(alloc, &mut long, 4);
    expect_refusal(&rt, "five bytes", read, InputError::TooLarge);
    let mut broken = ReadSource::new(BrokenReader { bytes: b"abcd" });
    let read = read_input(alloc, &mut broken, 4);
    expect_refusal(&rt, "a broken reader", read, InputError::Fault);
}

/// From memory an input that is not too large is read whole, but for want of memory.
fn read_memory(alloc: Global, bytes: &[u8], greatest: usize) -> Result<Vec<u8>, InputError>
    requires { length bytes.now ≤ greatest }
    ensures { MatchResult result (λ read. read.items ≡ bytes.now)
        (λ error. error ≡ InputError.Memory) }
{
    let Ok(mut source) = MemorySource::new(alloc, bytes, &[]) else {
        return Err(InputError::Memory);
    };
    read_input(alloc, &mut source, greatest)
}

#[test]
fn inputs_of_many_pieces(rt: HostRuntime) {
    let alloc = rt.alloc();
    let bytes = vec![in alloc; 7u8; 200_000].expect(&rt, AMPLE);
    let read = read_memory(alloc, bytes.as_slice(), bytes.len()).expect(&rt, AMPLE);
    expect(&rt, read == bytes, "an input of many pieces");
    let mut long = MemorySource::new(alloc, bytes.as_slice(), &[]).expect(&rt, AMPLE);
    let read = read_input(alloc, &mut long, 199_999);
    expect_refusal(&rt, "a byte too many", read, InputError::TooLarge);
    let mut failing = MemorySource::new(alloc, bytes.as_slice(), &[3]).expect(&rt, AMPLE);
    let read = read_input(alloc, &mut &mut failing, 200_000);
    expect_refusal(&rt, "a third piece that fails", read, InputError::Fault);
}
