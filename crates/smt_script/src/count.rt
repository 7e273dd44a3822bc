// A sink that counts.
ghost use Rattle.std.specs.Prelude.{◌≡◌, ◌+◌, ◌-◌, ◌^◌, ◌%◌, min, length, sum, [], IsOk};

use crate::sink::{Sink, SinkError};
use crate::told::Told;

/// Counts bytes, and keeps none of them.
///
/// Contracts see it as the list of all bytes put. That list exists in proofs alone, and nothing holds it at run time. Two facts
/// tie it to what is held: the count and the sum agree with it.
#[derive(Debug, Drop)]
pub struct CountSink {
    count: u64,
    total: u64,
    told: Told,
    ghost counted: { count ≡ min (length told.bytes) (2 ^ 64 - 1) },
    ghost added: { total ≡ sum told.bytes % 2 ^ 64 },
}

/// `total` and all of these bytes added up, modulo 2^64.
fn added_up(total: u64, bytes: &[u8]) -> u64
    ensures { result ≡ (total + sum bytes.now) % 2 ^ 64 }
{
    let mut sum = total;
    for byte in bytes {
        sum = sum.wrapping_add(u64::from(*byte));
    }
    sum
}

impl CountSink {
    ghost use Rattle.smt_script.specs.Count.{count_bytes};

    /// A sink to which nothing was put. It takes no memory.
    pub fn new() -> CountSink
        ensures { count_bytes result ≡ [] }
    {
        CountSink {
            count: 0,
            total: 0,
            told: Told::new(),
        }
    }

    /// How many bytes were put in all. The number stands still at 2^64 - 1.
    pub fn bytes(&self) -> u64
        ensures { result ≡ min (length (count_bytes self.now)) (2 ^ 64 - 1) }
    {
        self.count
    }

    /// The sum of all bytes put, modulo 2^64.
    pub fn sum(&self) -> u64
        ensures { result ≡ sum (count_bytes self.now) % 2 ^ 64 }
    {
        self.total
    }
}

impl Sink for CountSink {
    ghost use Rattle.smt_script.specs.Sink.{Puts, certain, faultless, unreferenced};
    ghost use Rattle.smt_script.specs.Count.{count_contents};

    ghost contents = { count_contents };

    ghost faults = { faultless };

    ghost has_room = { certain };

    /// Counts all bytes and adds them up. It never fails, and takes no memory.
    fn put(&mut self, bytes: &[u8]) -> Result<(), SinkError>
        ensures puts { Puts count_contents faultless certain unreferenced self.old self.new
            bytes.now result }
        ensures taken { IsOk result }
    {
        self.count = self.count.saturating_add(bytes.len() as u64);
        self.total = added_up(self.total, bytes);
        self.told.append(bytes);
        Ok(())
    }
}
