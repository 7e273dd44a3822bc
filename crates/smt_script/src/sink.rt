// What takes bytes.
ghost use Rattle.std.specs.Prelude.{ℕ, List, Option, ◌∷◌};
ghost use Rattle.smt_script.specs.Sink.{Flushes, Puts, unreferenced};

use thiserror::Error;

/// Why a sink did not take all bytes of a put, or did not hand on what it held back.
#[derive(Clone, Copy, Debug, PartialEq, Eq, Drop, Error)]
pub enum SinkError {
    /// What takes the bytes failed. The sink's count of faults shows it.
    #[error("the sink failed to take bytes")]
    Fault,
    /// There was no memory for the bytes.
    #[error("no memory for the bytes of the sink")]
    Memory,
}

/// What takes bytes, piece by piece. It may hold bytes back that it took, until it is flushed.
pub trait Sink {
    /// The bytes that it holds, where it tells them.
    ghost contents: { Self → Option (List ℕ) };

    /// How often it has failed. The count stands still at 2^64 - 1.
    ghost faults: { Self → ℕ };

    /// It certainly takes this many bytes more, in whatever pieces.
    ghost has_room: { Self → ℕ → Type 0 };

    /// The references that lead to it, the outermost first.
    ghost place: { Self → List ℕ } = { unreferenced };

    /// Appends all of `bytes`, or on an error a first part of them.
    ///
    /// `Fault` comes only where the sink's count of faults rose in this call, or stands at its last
    /// value, and with Ok the count stands still. `Memory` may come at any put, unless the sink
    /// certainly takes the bytes.
    fn put(&mut self, bytes: &[u8]) -> Result<(), SinkError>
        ensures { Puts contents faults has_room place self.old self.new bytes.now result };

    /// Hands on all bytes that it took and still holds back. After an error it may still hold some of them back.
    ///
    /// What it holds and what it certainly takes stay as they are, also on an error. `Fault` comes only where the sink's count
    /// of faults rose in this call, or stands at its last value, with Ok the count stands still, and no error comes of a sink
    /// that certainly takes bytes. The provided body is for a sink that holds nothing back: it does nothing.
    fn flush(&mut self) -> Result<(), SinkError>
        ensures { Flushes contents faults has_room place self.old self.new result }
    {
        Ok(())
    }
}

/// A mutable reference to a sink is a sink with the same meanings.
impl<S: Sink> Sink for &mut S {
    ghost contents = { λ s. S.contents s.now };

    ghost faults = { λ s. S.faults s.now };

    ghost has_room = { λ s. S.has_room s.now };

    ghost place = { λ s. s.ghost_name ∷ S.place s.now };

    fn put(&mut self, bytes: &[u8]) -> Result<(), SinkError> {
        (**self).put(bytes)
    }

    fn flush(&mut self) -> Result<(), SinkError> {
        (**self).flush()
    }
}
