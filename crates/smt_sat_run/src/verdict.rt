// What a run found.
ghost use Rattle.std.specs.Prelude.{◌≡◌, IfOk};
ghost use Rattle.smt_sat_run.specs.Refusal.{proof_line, verdict_status};

use crate::lines::numbered_line;
use std::alloc::{AllocError, Global};

/// Why a proof was not gone through to its end.
#[derive(Clone, Copy, Debug, PartialEq, Eq, Drop)]
pub enum ProofRefusal {
    /// The step of this number, counted from 1, does not follow.
    Step(u64),
    /// The proof ended without the empty clause.
    Incomplete,
    /// In the line of this number stands what is no step.
    BadStep(u64),
    /// The proof has more than 2^30 bytes.
    TooLarge,
}

impl ProofRefusal {
    /// The line that the program says of it, with its LF.
    pub fn line(self, alloc: Global) -> Result<Vec<u8>, AllocError>
        ensures { IfOk result (λ line. line.items ≡ proof_line self) }
    {
        match self {
            ProofRefusal::Step(number) => numbered_line(alloc, b"proof refused: step ", number),
            ProofRefusal::Incomplete => Vec::from_slice(alloc, b"proof refused: incomplete\n"),
            ProofRefusal::BadStep(line) => {
                numbered_line(alloc, b"proof refused: BadStep at line ", line)
            }
            ProofRefusal::TooLarge => Vec::from_slice(alloc, b"proof refused: TooLarge\n"),
        }
    }
}

/// What a run that was not refused said.
#[derive(Clone, Copy, Debug, PartialEq, Eq, Drop)]
pub enum Verdict {
    /// Truths that make all clauses true.
    Satisfiable,
    /// That no truths make all clauses true.
    Unsatisfiable,
    /// That neither was found.
    Unknown,
    /// That nothing is known, since the proof was refused.
    Refused(ProofRefusal),
    /// The text of a word.
    Told,
}

impl Verdict {
    /// The status with which the program ends.
    pub fn status(self) -> u8
        ensures { result ≡ verdict_status self }
    {
        match self {
            Verdict::Satisfiable => 10,
            Verdict::Unsatisfiable => 20,
            Verdict::Unknown => 0,
            Verdict::Refused(_) => 0,
            Verdict::Told => 0,
        }
    }
}
