// A sink that always fails.
ghost use Rattle.std.specs.Prelude.{◌≡◌, Err};
ghost use Rattle.smt_script.specs.Memory.{counted};
ghost use Rattle.smt_script.specs.Sink.{Flushes, Puts, uncertain, unreferenced};
ghost use Rattle.smt_solve.specs.FailedWriter.{failed_contents, failed_faults};

use smt_script::{Sink, SinkError};

/// Takes nothing: each put and each flush fails, and is counted. It takes no memory.
#[derive(Debug, Drop)]
pub struct FailedWriter {
    faults: u64,
}

impl FailedWriter {
    /// A sink of which nothing was asked yet.
    pub fn new() -> FailedWriter
        ensures { failed_faults result ≡ 0 }
    {
        FailedWriter { faults: 0 }
    }

    /// How often it has failed. The count stands still at 2^64 - 1.
    pub fn faults(&self) -> u64
        ensures { result ≡ failed_faults self.now }
    {
        self.faults
    }
}

impl Sink for FailedWriter {
    ghost contents = { failed_contents };

    ghost faults = { failed_faults };

    ghost has_room = { uncertain };

    /// Fails.
    fn put(&mut self, bytes: &[u8]) -> Result<(), SinkError>
        ensures puts { Puts failed_contents failed_faults uncertain unreferenced self.old self.new
            bytes.now result }
        ensures fails { result ≡ Err SinkError.Fault }
        ensures counts { failed_faults self.new ≡ counted (failed_faults self.old) }
    {
        self.faults = self.faults.saturating_add(1);
        Err(SinkError::Fault)
    }

    /// Fails.
    fn flush(&mut self) -> Result<(), SinkError>
        ensures flushes { Flushes failed_contents failed_faults uncertain unreferenced self.old
            self.new result }
        ensures fails { result ≡ Err SinkError.Fault }
        ensures counts { failed_faults self.new ≡ counted (failed_faults self.old) }
    {
        self.faults = self.faults.saturating_add(1);
        Err(SinkError::Fault)
    }
}
