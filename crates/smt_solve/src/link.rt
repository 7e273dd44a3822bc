// A link to a solver.
ghost use Rattle.std.specs.Prelude.{ℕ, List};
ghost use Rattle.smt_script.specs.Bytes.{bytes_in};
ghost use Rattle.smt_solve.specs.Link.{AllowsTheSame, AsksEnd, HandsOn, Kills, LinkState};
ghost use Rattle.smt_solve.specs.Link.{ReadsLine, Sends};

use smt_script::Bytes;
use thiserror::Error;

/// Why a call of a link was not done.
#[derive(Clone, Copy, Debug, PartialEq, Eq, Drop, Error)]
pub enum LinkError {
    /// What leads to the solver failed. The link's count of faults shows it.
    #[error("the link to the solver failed")]
    Fault,
    /// There was no memory for the bytes.
    #[error("no memory for the bytes of the link to the solver")]
    Memory,
}

/// How a read of a line ended.
#[derive(Clone, Copy, Debug, PartialEq, Eq, Drop)]
pub enum LineEnd {
    /// A whole line was read, with its LF.
    Line,
    /// Nothing is left to come, and what was read has no LF.
    End,
    /// As many bytes as allowed were read, none of which is LF.
    TooLong,
}

/// Whether a solver has ended, and how.
#[derive(Clone, Copy, Debug, PartialEq, Eq, Drop)]
pub enum Ended {
    /// It has not ended.
    Running,
    /// It ended with this code.
    Code(i32),
    /// It was killed, or ended without a code.
    Killed,
}

/// What leads to a solver: takes the bytes of commands, and gives the lines of answers.
///
/// What a link tells of itself is `LinkState` of `specs/Link.antt`. `LinkError::Fault` comes only where its count of faults
/// rose in the call, or stands at its last value, and with Ok the count stands still; `LinkError::Memory` may come of any call.
pub trait Link {
    /// What was sent, read and is to come, whether it has ended or was killed, and how often it failed.
    ghost state: { Self → LinkState };

    /// Which line may follow a text that was sent and the lines that were read. No call changes it.
    ghost allows: { Self → List ℕ → List ℕ → List ℕ → Type 0 };

    /// Sends all of `bytes`, or on an error a first part of them. They may be held back until `flush`.
    ///
    /// A solver may answer what it is sent, so that more is to come. But a link whose answers ended inside a line gives nothing
    /// more, whatever it is sent: where nothing is to come and the last byte that was read is no LF, nothing is to come
    /// afterwards.
    fn send(&mut self, bytes: &[u8]) -> Result<(), LinkError>
        ensures sends { Sends (state self.old) (state self.new) bytes.now result }
        ensures allows { AllowsTheSame (allows self.old) (allows self.new) };

    /// Hands on all bytes that were sent and are still held back.
    fn flush(&mut self) -> Result<(), LinkError>
        ensures hands_on { HandsOn (state self.old) (state self.new) result }
        ensures allows { AllowsTheSame (allows self.old) (allows self.new) };

    /// Appends the next line with its LF to `line`, at most `limit` bytes, and answers how it ended.
    ///
    /// The bytes that it appends, also on an error, are those that it takes from what is to come. A line that it gives is one
    /// that it allows, also a last line that ends without LF because the answers ended.
    fn read_line(&mut self, line: &mut Bytes, limit: usize) -> Result<LineEnd, LinkError>
        ensures reads { ReadsLine (allows self.old) (state self.old) (state self.new)
            (bytes_in line.old) (bytes_in line.new) limit result }
        ensures allows { AllowsTheSame (allows self.old) (allows self.new) };

    /// Whether the solver has ended, and how. It waits for nothing.
    fn ended(&mut self) -> Result<Ended, LinkError>
        ensures asks { AsksEnd (state self.old) (state self.new) result }
        ensures allows { AllowsTheSame (allows self.old) (allows self.new) };

    /// Kills the solver. After an error it may be killed or not.
    fn kill(&mut self) -> Result<(), LinkError>
        ensures kills { Kills (state self.old) (state self.new) result }
        ensures allows { AllowsTheSame (allows self.old) (allows self.new) };
}
