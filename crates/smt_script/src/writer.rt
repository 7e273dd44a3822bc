// The edge to the outside.
ghost use Rattle.std.specs.Prelude.{◌≡◌, OnOk, IsOkUnless};
ghost use Rattle.std.specs.Io.KnownBytes.{Appends, Keeps};

use crate::sink::{Sink, SinkError};
use std::io::Write;

/// Writes to any writer and flushes it in `flush` alone, tells nothing of what it wrote, and counts the puts and the flushes
/// that failed.
///
/// It is for a program's standard output, where one flush at the end is enough, if its answer is looked at. [`WriteSink`] is
/// for what has to arrive line by line, as at a solver.
#[derive(Debug, Drop)]
pub struct BufferedSink<W> {
    writer: W,
    faults: u64,
}

impl<W: Write> BufferedSink<W> {
    ghost use Rattle.smt_script.specs.Writer.{buffered_faults, buffered_writer};

    /// A sink over `writer` that has not failed yet.
    pub fn new(writer: W) -> BufferedSink<W>
        ensures same_writer { buffered_writer result ≡ writer }
        ensures no_faults { buffered_faults result ≡ 0 }
    {
        BufferedSink { writer, faults: 0 }
    }
}

impl<W: Write> Sink for BufferedSink<W> {
    ghost use Rattle.smt_script.specs.Sink.{Flushes, Puts, untold, uncertain, unreferenced};
    ghost use Rattle.smt_script.specs.Writer.{buffered_faults, buffered_writer};

    ghost contents = { untold };

    ghost faults = { buffered_faults };

    ghost has_room = { uncertain };

    /// Writes all bytes. A write that takes nothing of bytes that are left is a fault.
    fn put(&mut self, bytes: &[u8]) -> Result<(), SinkError>
        ensures puts { Puts untold buffered_faults uncertain unreferenced self.old self.new
            bytes.now result }
        ensures refusal { IsOkUnless result SinkError.Fault }

        // where the writer tells what it holds
        ensures written { OnOk result (Appends (W.contents (buffered_writer self.old))
            (W.contents (buffered_writer self.new)) bytes.now) }
    {
        if self.writer.write_all(bytes).is_err() {
            self.faults = self.faults.saturating_add(1);
            return Err(SinkError::Fault);
        }
        Ok(())
    }

    /// Flushes the writer.
    fn flush(&mut self) -> Result<(), SinkError>
        ensures flushes { Flushes untold buffered_faults uncertain unreferenced self.old self.new
            result }
        ensures refusal { IsOkUnless result SinkError.Fault }

        // where the writer tells what it holds
        ensures written { Keeps (W.contents (buffered_writer self.old))
            (W.contents (buffered_writer self.new)) }
    {
        if self.writer.flush().is_err() {
            self.faults = self.faults.saturating_add(1);
            return Err(SinkError::Fault);
        }
        Ok(())
    }
}

/// Writes to any writer and flushes it behind each LF as well, tells nothing of what it wrote, and counts the puts and the
/// flushes that failed.
#[derive(Debug, Drop)]
pub struct WriteSink<W> {
    buffered: BufferedSink<W>,
}

impl<W: Write> WriteSink<W> {
    ghost use Rattle.smt_script.specs.Writer.{writer_of, write_faults};

    /// A sink over `writer` that has not failed yet.
    pub fn new(writer: W) -> WriteSink<W>
        ensures same_writer { writer_of result ≡ writer }
        ensures no_faults { write_faults result ≡ 0 }
    {
        WriteSink {
            buffered: BufferedSink::new(writer),
        }
    }
}

impl<W: Write> Sink for WriteSink<W> {
    ghost use Rattle.smt_script.specs.Sink.{Flushes, Puts, untold, uncertain, unreferenced};
    ghost use Rattle.smt_script.specs.Writer.{writer_of, write_faults};

    ghost contents = { untold };

    ghost faults = { write_faults };

    ghost has_room = { uncertain };

    /// Writes all bytes, and flushes where they end with LF. A write that takes nothing of bytes
    /// that are left is a fault.
    fn put(&mut self, bytes: &[u8]) -> Result<(), SinkError>
        ensures puts { Puts untold write_faults uncertain unreferenced self.old self.new
            bytes.now result }
        ensures refusal { IsOkUnless result SinkError.Fault }

        // where the writer tells what it holds
        ensures written { OnOk result (Appends (W.contents (writer_of self.old))
            (W.contents (writer_of self.new)) bytes.now) }
    {
        self.buffered.put(bytes)?;
        if bytes.last() == Some(&b'\n') {
            self.buffered.flush()?;
        }
        Ok(())
    }

    /// Flushes the writer.
    fn flush(&mut self) -> Result<(), SinkError>
        ensures flushes { Flushes untold write_faults uncertain unreferenced self.old self.new
            result }
        ensures refusal { IsOkUnless result SinkError.Fault }

        // where the writer tells what it holds
        ensures written { Keeps (W.contents (writer_of self.old))
            (W.contents (writer_of self.new)) }
    {
        self.buffered.flush()
    }
}
