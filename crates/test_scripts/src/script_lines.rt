//! The lines of a script over each sink, and sinks and writers that fail.

ghost use Rattle.std.specs.Prelude.{◌++◌, ◌≡◌, IsOk, codes, length};
ghost use Rattle.law_texts.specs.LineTexts.{declare_const_text};
ghost use Rattle.smt_script.specs.Memory.{memory_bytes, memory_has_room};

use crate::expected::{expect, expect_bytes};
use smt_script::{
    BufferedSink, CountSink, ListSink, MemorySink, Sink, SinkError, SmtLibScript, Text, WriteSink,
};
use std::alloc::Global;
use std::io::{self, Write};
use std::process::Abort;
use test_words::{AMPLE, texts_of};

/// What `put_lines` puts, as the table of lines spells it.
const LINES: &str = "\
(declare-datatype Option (par (X) (\n  (none)\n  (some (val X)))))
; \"b\"
(declare-const t0 Bool)
(define-fun t1 () Bool (not t0))
(assert t1)
(declare-datatype E0 (\n  ))
; a  b c
(define-fun f ((x Int) (y Bool)) Int x)
(declare-datatype D (\n  (c)))
(declare-datatype D (par ( ) (\n  (c))))
(push 1)
(pop 1)
(set-logic ALL)
(set-option :produce-models true)
(check-sat)
(get-model)
(reset)
(exit)
";

/// Why a test stops where a sink takes no line.
const TAKEN: &str = "the sink takes the line";

/// A datatype with these parameters and constructors.
fn declare_datatype<S: Sink>(
    rt: &impl Abort,
    sink: &mut S,
    alloc: Global,
    id: &str,
    parameters: &[&str],
    constructors: &[&str],
) {
    let parameters = texts_of(alloc, parameters).expect(rt, AMPLE);
    let constructors = texts_of(alloc, constructors).expect(rt, AMPLE);
    sink.declare_datatype(id, parameters.as_slice(), constructors.as_slice())
        .expect(rt, TAKEN);
}

/// An argument of a function, with its sort.
fn argument(rt: &impl Abort, alloc: Global, id: &str, sort: &str) -> (Text, Text) {
    (
        Text::from_str(alloc, id).expect(rt, AMPLE),
        Text::from_str(alloc, sort).expect(rt, AMPLE),
    )
}

/// A function of two arguments, which gives the first.
fn define_first<S: Sink>(rt: &impl Abort, sink: &mut S, alloc: Global) {
    let arguments = [
        argument(rt, alloc, "x", "Int"),
        argument(rt, alloc, "y", "Bool"),
    ];
    sink.define_fun("f", &arguments, "Int", "x")
        .expect(rt, TAKEN);
}

/// The lines of a variable and of its negation.
fn put_negation<S: Sink>(rt: &impl Abort, sink: &mut S) {
    sink.comment("\"b\"").expect(rt, TAKEN);
    sink.declare_const("t0", "Bool").expect(rt, TAKEN);
    sink.define_fun("t1", &[], "Bool", "(not t0)")
        .expect(rt, TAKEN);
    sink.assert("t1").expect(rt, TAKEN);
}

/// The lines by which a script speaks to a solver.
fn put_questions<S: Sink>(rt: &impl Abort, sink: &mut S) {
    sink.push().expect(rt, TAKEN);
    sink.pop().expect(rt, TAKEN);
    sink.set_logic("ALL").expect(rt, TAKEN);
    sink.set_option("produce-models", "true").expect(rt, TAKEN);
    sink.check_sat().expect(rt, TAKEN);
    sink.get_model().expect(rt, TAKEN);
    sink.reset().expect(rt, TAKEN);
    sink.exit().expect(rt, TAKEN);
}

/// Puts the lines of the table.
fn put_lines<S: Sink>(rt: &impl Abort, sink: &mut S, alloc: Global) {
    declare_datatype(
        rt,
        sink,
        alloc,
        "Option",
        &["X"],
        &["(none)", "(some (val X))"],
    );
    put_negation(rt, sink);
    declare_datatype(rt, sink, alloc, "E0", &[], &[]);
    sink.comment("a\r\nb\nc").expect(rt, TAKEN);
    define_first(rt, sink, alloc);
    declare_datatype(rt, sink, alloc, "D", &[""], &["(c)"]);
    declare_datatype(rt, sink, alloc, "D", &["", ""], &["(c)"]);
    put_questions(rt, sink);
}

/// Stops the test where this is not put, and names it.
fn expect_put(rt: &impl Abort, label: &str, put: Result<(), SinkError>) {
    assert!(rt; put == Ok(()), "{label} is not put");
}

/// Stops the test where this is not refused for a fault of the sink, and names it.
fn expect_fault(rt: &impl Abort, label: &str, put: Result<(), SinkError>) {
    assert!(rt; put == Err(SinkError::Fault), "{label} is not refused");
}

/// Expects that these are the bytes of the lines.
fn expect_table(rt: &impl Abort, bytes: &[u8]) {
    expect_bytes(rt, "the lines", bytes, LINES.as_bytes());
}

/// The sink has room for just the lines.
#[test]
fn lines_are_spelled_in_memory(rt: HostRuntime) {
    let mut memory = MemorySink::new(rt.alloc(), &[], LINES.len()).expect(&rt, AMPLE);
    put_lines(&rt, &mut memory, rt.alloc());
    expect_table(&rt, memory.bytes());
}

/// Here through a reference to the sink.
#[test]
fn lines_are_spelled_in_a_list(rt: HostRuntime) {
    let mut list = ListSink::new(rt.alloc());
    put_lines(&rt, &mut &mut list, rt.alloc());
    expect_table(&rt, list.bytes());
}

#[test]
fn lines_are_spelled_to_a_writer(rt: HostRuntime) {
    let mut writer = ShortWriter::new(rt.alloc(), 1000);
    put_lines(&rt, &mut WriteSink::new(&mut writer), rt.alloc());
    expect_table(&rt, writer.bytes.as_slice());
}

#[test]
fn lines_are_spelled_through_a_buffer(rt: HostRuntime) {
    let mut writer = ShortWriter::new(rt.alloc(), 1000);
    put_lines(&rt, &mut BufferedSink::new(&mut writer), rt.alloc());
    expect_table(&rt, writer.bytes.as_slice());
}

/// In a sink with room a line is put, whatever the allocator does.
fn declare_in_room(sink: &mut MemorySink, id: &str) -> Result<(), SinkError>
    requires { memory_has_room sink.old (length (declare_const_text id.now (codes "Bool"))) }
    ensures room { IsOk result }
    ensures bytes { memory_bytes sink.new
        ≡ memory_bytes sink.old ++ declare_const_text id.now (codes "Bool") }
{
    sink.declare_const(id, "Bool")
}

/// Puts to a sink whose second put and fourth are planned to fail, with what they answer.
const PLANNED: &[(&str, Result<(), SinkError>)] = &[
    ("ab", Ok(())),
    ("cd", Err(SinkError::Fault)),
    ("ef", Ok(())),
    ("gh", Err(SinkError::Fault)),
];

/// Whether each of the planned puts answers so.
fn puts_are_planned(planned: &mut MemorySink) -> bool {
    for &(bytes, want) in PLANNED {
        if planned.put(bytes.as_bytes()) != want {
            return false;
        }
    }
    planned.bytes() == b"abef".as_slice()
}

/// The second put and the fourth are planned to fail.
fn puts_fail_as_planned(rt: &impl Abort, alloc: Global) {
    let mut planned = MemorySink::new(alloc, &[2, 4], 10).expect(rt, AMPLE);
    expect(rt, puts_are_planned(&mut planned), "puts that are planned");
}

/// Expects that a sink with room for one line takes the front of a second one.
fn expect_front_of_second(rt: &impl Abort, small: &mut MemorySink) {
    expect_fault(rt, "a second line", small.assert("t0"));
    let front = b"(declare-const t0 Bool)\n(asser";
    expect_bytes(rt, "the front of the second line", small.bytes(), front);
}

#[test]
fn memory_sinks_fail(rt: HostRuntime) {
    puts_fail_as_planned(&rt, rt.alloc());
    let mut small = MemorySink::new(rt.alloc(), &[], 30).expect(&rt, AMPLE);
    expect_put(&rt, "a line with room", declare_in_room(&mut small, "t0"));
    expect_front_of_second(&rt, &mut small);
}

/// Takes at most three bytes a write, and fails where it has `room` bytes.
#[derive(Drop)]
struct ShortWriter {
    bytes: Vec<u8>,
    room: usize,
    flushes: u32,
}

impl ShortWriter {
    fn new(alloc: Global, room: usize) -> ShortWriter {
        ShortWriter {
            bytes: Vec::new(alloc),
            room,
            flushes: 0,
        }
    }
}

impl Write for ShortWriter {
    fn write(&mut self, buf: &[u8]) -> io::Result<usize> {
        let taken = buf
            .len()
            .min(3)
            .min(self.room.saturating_sub(self.bytes.len()));
        self.bytes.extend_from_slice(&buf[..taken])?;
        Ok(taken)
    }

    fn flush(&mut self) -> io::Result<()> {
        self.flushes = self.flushes.saturating_add(1);
        Ok(())
    }
}

/// Stops the test where a writer was not flushed so many times.
fn expect_flushes(rt: &impl Abort, writer: &ShortWriter, wanted: u32) {
    let flushes = writer.flushes;
    assert!(rt; flushes == wanted, "{flushes} flushes, not {wanted}");
}

#[test]
fn writers_fail(rt: HostRuntime) {
    let mut writer = ShortWriter::new(rt.alloc(), 28);
    let mut sink = WriteSink::new(&mut writer);
    expect_put(&rt, "a line", sink.declare_const("t0", "Bool"));
    expect_put(&rt, "what fills the writer", sink.put(b"(as"));
    expect_fault(&rt, "what has no room", sink.put(b"sert"));
    expect_put(&rt, "no byte", sink.put(b""));
    let taken = b"(declare-const t0 Bool)\n(ass";
    expect_bytes(&rt, "what the writer took", writer.bytes.as_slice(), taken);
    expect_flushes(&rt, &writer, 1);
}

/// Puts two lines to a sink with room for one, and flushes it behind each.
fn put_and_flush<S: Sink>(rt: &impl Abort, sink: &mut S) {
    expect_put(rt, "the first line", sink.declare_const("t0", "Bool"));
    expect_put(rt, "a flush behind it", sink.flush());
    expect_fault(rt, "the second line", sink.assert("t0"));
    expect_put(rt, "a flush behind that", sink.flush());
}

#[test]
fn sinks_are_flushed(rt: HostRuntime) {
    let alloc = rt.alloc();
    // A line is flushed where it ends, and by each flush.
    let mut writer = ShortWriter::new(alloc, 28);
    put_and_flush(&rt, &mut WriteSink::new(&mut writer));
    expect_flushes(&rt, &writer, 3);
    // Here by each flush alone.
    let mut writer = ShortWriter::new(alloc, 28);
    put_and_flush(&rt, &mut BufferedSink::new(&mut writer));
    expect_flushes(&rt, &writer, 2);
    // This one holds nothing back.
    let mut memory = MemorySink::new(alloc, &[], 28).expect(&rt, AMPLE);
    put_and_flush(&rt, &mut &mut memory);
}

/// Takes all bytes, and fails at each flush.
#[derive(Drop)]
struct StuckWriter {
    bytes: Vec<u8>,
}

impl Write for StuckWriter {
    fn write(&mut self, buf: &[u8]) -> io::Result<usize> {
        self.bytes.extend_from_slice(buf)?;
        Ok(buf.len())
    }

    fn flush(&mut self) -> io::Result<()> {
        Err(io::Error::from(io::ErrorKind::BrokenPipe))
    }
}

/// Puts a line through a buffer. It is held back, and its flush fails.
fn flush_buffered(rt: &impl Abort, writer: &mut StuckWriter) {
    let mut sink = BufferedSink::new(writer);
    expect_put(rt, "a line", sink.put(b"a\n"));
    expect_fault(rt, "its flush", (&mut sink).flush());
}

/// Puts a line to a writer. It is flushed at its end, which fails, as each flush does.
fn flush_at_end(rt: &impl Abort, writer: &mut StuckWriter) {
    let mut sink = WriteSink::new(writer);
    expect_put(rt, "the front of a line", sink.put(b"b"));
    expect_fault(rt, "its end", sink.put(b"\n"));
    expect_fault(rt, "a flush behind it", sink.flush());
}

#[test]
fn flushes_fail(rt: HostRuntime) {
    let mut writer = StuckWriter {
        bytes: Vec::new(rt.alloc()),
    };
    flush_buffered(&rt, &mut writer);
    flush_at_end(&rt, &mut writer);
    let bytes = writer.bytes.as_slice();
    expect_bytes(&rt, "what the writer took", bytes, b"a\nb\n");
}

/// How many bytes these pieces have, and their sum, as a sink that counts says it.
fn counted(pieces: &[&str]) -> Result<(u64, u64), SinkError> {
    let mut sink = CountSink::new();
    for piece in pieces {
        sink.put(piece.as_bytes())?;
    }
    Ok((sink.bytes(), sink.sum()))
}

/// Pieces, how many bytes they have, and their sum.
const COUNTED: &[(&[&str], u64, u64)] = &[
    (&[], 0, 0),
    (&["", ""], 0, 0),
    (&["abc"], 3, 294),
    (&["(assert ", "t0", ")\n"], 12, 945),
    (&["é", "~"], 3, 490),
];

/// Stops the test where these pieces do not have so many bytes and this sum, and names them.
fn expect_counted(rt: &impl Abort, pieces: &[&str], bytes: u64, sum: u64) {
    let counted = counted(pieces);
    assert!(rt; counted == Ok((bytes, sum)), "{pieces:?}: {counted:?}");
}

#[test]
fn bytes_are_counted(rt: HostRuntime) {
    for &(pieces, bytes, sum) in COUNTED {
        expect_counted(&rt, pieces, bytes, sum);
    }
}
