// Why a run was not done.
ghost use Rattle.std.specs.Prelude.{◌≡◌};
ghost use Rattle.smt_stream.specs.Runs.{line_of, status_of};

use smt_script::{SinkError, SourceFault};
use std::alloc::AllocError;

/// Why a run was not done.
#[derive(Debug, Clone, Copy, PartialEq, Eq, Drop)]
pub enum Refusal {
    /// There are words behind the program's name.
    Usage,
    /// The source failed.
    Source,
    /// The sink failed.
    Sink,
    /// There was no memory.
    Memory,
}

impl Refusal {
    /// The status with which the run ends.
    pub fn status(self) -> u8
        ensures { result ≡ status_of self }
    {
        match self {
            Refusal::Usage => 2,
            Refusal::Source => 5,
            Refusal::Sink => 6,
            Refusal::Memory => 7,
        }
    }

    /// The line that the program says of it, with its LF.
    pub fn line(self) -> &'static str
        ensures { result.now ≡ line_of self }
    {
        match self {
            Refusal::Usage => "usage: smtmini\n",
            Refusal::Source => "source fault\n",
            Refusal::Sink => "sink fault\n",
            Refusal::Memory => "memory\n",
        }
    }
}

impl From<SinkError> for Refusal {
    ghost use Rattle.std.specs.Prelude.{◌≡◌};
    ghost use Rattle.smt_stream.specs.Runs.{sink_refusal};

    ghost from_gives = { λ error refusal. refusal ≡ sink_refusal error };

    fn from(error: SinkError) -> Refusal {
        match error {
            SinkError::Fault => Refusal::Sink,
            SinkError::Memory => Refusal::Memory,
        }
    }
}

impl From<SourceFault> for Refusal {
    ghost use Rattle.std.specs.Prelude.{◌≡◌};
    ghost use Rattle.smt_stream.specs.declared.refusal.Refusal.TheVariants.{Source};

    ghost from_gives = { λ _ refusal. refusal ≡ Source };

    fn from(_fault: SourceFault) -> Refusal {
        Refusal::Source
    }
}

impl From<AllocError> for Refusal {
    ghost use Rattle.std.specs.Prelude.{◌≡◌};
    ghost use Rattle.smt_stream.specs.declared.refusal.Refusal.TheVariants.{Memory};

    ghost from_gives = { λ _ refusal. refusal ≡ Memory };

    fn from(_error: AllocError) -> Refusal {
        Refusal::Memory
    }
}
