// Sinks in memory.
ghost use Rattle.std.specs.Prelude.{◌≡◌, ◌≤◌, [], IfOk, OnErr, IsOkUnless, vec_len, vec_capacity};

use crate::sink::{Sink, SinkError};
use std::alloc::Global;

/// Takes bytes up to a room that is reserved, and fails at chosen puts.
#[derive(Debug, Drop)]
pub struct MemorySink {
    bytes: Vec<u8>,
    fails: Vec<u64>,
    puts: u64,
    room: usize,
    faults: u64,
    ghost within: { vec_len bytes ≤ room },
    ghost reserved: { room ≤ vec_capacity bytes },
}

impl MemorySink {
    ghost use Rattle.smt_script.specs.Memory.{memory_bytes, IsFresh};

    /// An empty sink with room for `room` bytes, which it reserves now. The puts whose numbers,
    /// counted from 1, are in `fails` are to fail.
    pub fn new(alloc: Global, fails: &[u64], room: usize) -> Result<MemorySink, SinkError>
        ensures fresh { IfOk result (λ s. IsFresh s fails.now room) }
        ensures refusal { IsOkUnless result SinkError.Memory }
    {
        let (Ok(bytes), Ok(fails)) = (
            Vec::with_capacity(alloc, room),
            Vec::from_slice(alloc, fails),
        ) else {
            return Err(SinkError::Memory);
        };
        Ok(MemorySink {
            bytes,
            fails,
            puts: 0,
            room,
            faults: 0,
        })
    }

    /// The bytes that it holds.
    pub fn bytes(&self) -> &[u8]
        ensures { result.now ≡ memory_bytes self.now }
    {
        self.bytes.as_slice()
    }
}

impl Sink for MemorySink {
    ghost use Rattle.smt_script.specs.Sink.{Puts, unreferenced};
    ghost use Rattle.smt_script.specs.Memory.{memory_contents, memory_faults, memory_has_room};
    ghost use Rattle.smt_script.specs.Memory.{PutsInMemory};

    ghost contents = { memory_contents };

    ghost faults = { memory_faults };

    ghost has_room = { memory_has_room };

    /// Appends the bytes that fit, or none where this put is to fail. It takes no memory.
    fn put(&mut self, bytes: &[u8]) -> Result<(), SinkError>
        ensures puts { Puts memory_contents memory_faults memory_has_room unreferenced self.old
            self.new bytes.now result }
        ensures exact { PutsInMemory self.old self.new bytes.now result }
    {
        self.puts = self.puts.saturating_add(1);
        if self.fails.contains(&self.puts) {
            self.faults = self.faults.saturating_add(1);
            return Err(SinkError::Fault);
        }
        let left = self.room - self.bytes.len();
        if left < bytes.len() {
            self.bytes.extend_from_slice(&bytes[..left]).unwrap();
            self.faults = self.faults.saturating_add(1);
            return Err(SinkError::Fault);
        }
        self.bytes.extend_from_slice(bytes).unwrap();
        Ok(())
    }
}

/// Takes bytes as long as there is memory.
#[derive(Debug, Drop)]
pub struct ListSink {
    bytes: Vec<u8>,
}

impl ListSink {
    ghost use Rattle.smt_script.specs.Memory.{list_bytes};

    /// An empty sink.
    ///
    /// # Examples
    ///
    /// ```
    /// use kembura::{ListSink, Sink};
    ///
    /// let mut script = ListSink::new(alloc);
    /// script.put(b"(check-sat)\n")?;
    /// assert_eq!(rt; script.bytes().len(), 12);
    /// ```
    pub fn new(alloc: Global) -> ListSink
        ensures { list_bytes result ≡ [] }
    {
        ListSink {
            bytes: Vec::new(alloc),
        }
    }

    /// The bytes that it holds.
    pub fn bytes(&self) -> &[u8]
        ensures { result.now ≡ list_bytes self.now }
    {
        self.bytes.as_slice()
    }
}

impl Sink for ListSink {
    ghost use Rattle.smt_script.specs.Sink.{Puts, faultless, uncertain, unreferenced};
    ghost use Rattle.smt_script.specs.Memory.{list_bytes, list_contents};

    ghost contents = { list_contents };

    ghost faults = { faultless };

    ghost has_room = { uncertain };

    /// Appends all bytes, or none where there is no memory for them.
    fn put(&mut self, bytes: &[u8]) -> Result<(), SinkError>
        ensures puts { Puts list_contents faultless uncertain unreferenced self.old self.new
            bytes.now result }
        ensures refusal { IsOkUnless result SinkError.Memory }
        ensures unchanged { OnErr result (list_bytes self.new ≡ list_bytes self.old) }
    {
        match self.bytes.extend_from_slice(bytes) {
            Ok(()) => Ok(()),
            Err(_) => Err(SinkError::Memory),
        }
    }
}
