// Why a run is refused.
ghost use Rattle.std.specs.Prelude.{◌≡◌, IfOk};
ghost use Rattle.smt_sat_run.specs.Refusal.{line_of, status_of};

use crate::lines::line_of_fault;
use smt_dimacs::{FormulaError, FormulaFault};
use smt_script::{InputError, SinkError};
use std::alloc::{AllocError, Global};

/// Why a run was not done.
#[derive(Clone, Copy, Debug, PartialEq, Eq, Drop)]
pub enum Refusal {
    /// The words are no command.
    Usage,
    /// The text is no formula, or has too many variables or clauses.
    Formula {
        /// What is wrong with it.
        fault: FormulaFault,
        /// In which line, counted from 1.
        line: u64,
    },
    /// The text of the formula has more than 2^30 bytes.
    TooLarge,
    /// The source of the formula failed, or that of the proof.
    Source,
    /// The sink failed.
    Sink,
    /// There was no memory.
    Memory,
}

impl Refusal {
    /// The status with which the program ends.
    pub fn status(self) -> u8
        ensures { result ≡ status_of self }
    {
        match self {
            Refusal::Usage => 2,
            Refusal::Formula { .. } => 3,
            Refusal::TooLarge => 3,
            Refusal::Source => 5,
            Refusal::Sink => 6,
            Refusal::Memory => 7,
        }
    }

    /// The line that the program says of it, with its LF.
    pub fn line(self, alloc: Global) -> Result<Vec<u8>, AllocError>
        ensures { IfOk result (λ line. line.items ≡ line_of self) }
    {
        match self {
            Refusal::Usage => Vec::from_slice(
                alloc,
                b"usage: smtsat [--conflicts N | --proof FILE] < FORMULA\n",
            ),
            Refusal::Formula { fault, line } => line_of_fault(alloc, fault, line),
            Refusal::TooLarge => Vec::from_slice(alloc, b"formula refused: TooLarge\n"),
            Refusal::Source => Vec::from_slice(alloc, b"source fault\n"),
            Refusal::Sink => Vec::from_slice(alloc, b"sink fault\n"),
            Refusal::Memory => Vec::from_slice(alloc, b"memory\n"),
        }
    }
}

impl From<InputError> for Refusal {
    ghost use Rattle.std.specs.Prelude.{◌≡◌};
    ghost use Rattle.smt_sat_run.specs.Refusal.{input_refusal};

    ghost from_gives = { λ error refusal. refusal ≡ input_refusal error };

    fn from(error: InputError) -> Refusal {
        match error {
            InputError::Fault => Refusal::Source,
            InputError::TooLarge => Refusal::TooLarge,
            InputError::Memory => Refusal::Memory,
        }
    }
}

impl From<FormulaError> for Refusal {
    ghost use Rattle.std.specs.Prelude.{◌≡◌};
    ghost use Rattle.smt_sat_run.specs.Refusal.{formula_refusal};

    ghost from_gives = { λ error refusal. refusal ≡ formula_refusal error };

    fn from(error: FormulaError) -> Refusal {
        match error {
            FormulaError::Refused { fault, line } => Refusal::Formula { fault, line },
            FormulaError::TooLarge => Refusal::TooLarge,
            FormulaError::Memory => Refusal::Memory,
        }
    }
}

impl From<SinkError> for Refusal {
    ghost use Rattle.std.specs.Prelude.{◌≡◌};
    ghost use Rattle.smt_sat_run.specs.Refusal.{sink_refusal};

    ghost from_gives = { λ error refusal. refusal ≡ sink_refusal error };

    fn from(error: SinkError) -> Refusal {
        match error {
            SinkError::Fault => Refusal::Sink,
            SinkError::Memory => Refusal::Memory,
        }
    }
}

impl From<AllocError> for Refusal {
    ghost use Rattle.std.specs.Prelude.{◌≡◌};
    ghost use Rattle.smt_sat_run.specs.declared.refusal.Refusal.TheVariants.{Memory};

    ghost from_gives = { λ _ refusal. refusal ≡ Memory };

    fn from(_error: AllocError) -> Refusal {
        Refusal::Memory
    }
}
