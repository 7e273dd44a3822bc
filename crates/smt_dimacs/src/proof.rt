// Proofs, read from their texts.
ghost use Rattle.std.specs.Prelude.{◌<◌, length, IsErrOf};
ghost use Rattle.smt_dimacs.specs.Formulas.{greatest};

use crate::entry::{Entry, read_entry};
use crate::formula::GREATEST;
use crate::words::begins_comment;
use smt_clauses::{Literal, Proof};
use std::alloc::{AllocError, Global};
use thiserror::Error;

/// How many variables a proof may speak of.
const VARIABLES: u32 = 1 << 30;

/// Why a proof was not read.
#[derive(Clone, Copy, Debug, PartialEq, Eq, Drop, Error)]
pub enum ProofError {
    /// What stands in a line is no step, or the last step has no 0 behind it.
    #[error("BadStep at line {line}")]
    BadStep {
        /// In which line, counted from 1.
        line: u64,
    },
    /// The text has more than 2^30 bytes.
    #[error("TooLarge")]
    TooLarge,
    /// There was no memory for the proof.
    #[error("out of memory for the proof")]
    Memory,
}

impl From<AllocError> for ProofError {
    ghost use Rattle.std.specs.Prelude.{◌≡◌};
    ghost use Rattle.smt_dimacs.specs.declared.proof.ProofError.TheVariants.{Memory};

    ghost from_gives = { λ _ error. error ≡ Memory };

    fn from(_error: AllocError) -> ProofError {
        ProofError::Memory
    }
}

/// What was read of a proof: the steps, and what there is of the next one.
#[derive(Drop)]
struct Steps {
    proof: Proof,
    clause: Vec<Literal>,
    deletes: bool,
}

impl Steps {
    /// Takes a word. Whether it is one of a step.
    fn take_word(&mut self, word: &[u8]) -> Result<bool, AllocError> {
        match read_entry(word, VARIABLES) {
            Entry::End => {
                self.end_step()?;
                Ok(true)
            }
            Entry::Literal(literal) => {
                self.clause.push(literal)?;
                Ok(true)
            }
            Entry::Large => Ok(false),
            Entry::Nothing => Ok(self.begin_deletion(word)),
        }
    }

    /// Ends a step.
    fn end_step(&mut self) -> Result<(), AllocError> {
        if self.deletes {
            self.proof.delete(self.clause.as_slice())?;
        } else {
            self.proof.add(self.clause.as_slice())?;
        }
        self.clause.clear();
        self.deletes = false;
        Ok(())
    }

    /// Begins a deletion, where the word is `d` and stands first. Whether it is so.
    fn begin_deletion(&mut self, word: &[u8]) -> bool {
        let begins = self.is_between() && word == b"d".as_slice();
        if begins {
            self.deletes = true;
        }
        begins
    }

    /// Whether no step is begun.
    fn is_between(&self) -> bool {
        self.clause.is_empty() && !self.deletes
    }

    /// Takes the words of a line. Whether each is one of a step.
    fn take_line(&mut self, line: &[u8]) -> Result<bool, AllocError> {
        if begins_comment(line) {
            return Ok(true);
        }
        for run in line.split(|byte| byte.is_ascii_whitespace()) {
            if !run.is_empty() && !self.take_word(run)? {
                return Ok(false);
            }
        }
        Ok(true)
    }
}

/// Reads a proof that clauses have no solution, as solvers write it (DRAT, as text).
///
/// The lines that begin with `c` are comments. The words of the others are steps: the literals of a clause that is added, ended by
/// 0, or `d` and the literals of a clause that is deleted, ended by 0. A variable is at most 2^30.
///
/// Nothing is said of what is read, since `smt_clauses` believes no proof.
///
/// # Errors
///
/// `BadStep` comes where a word is not one of a step, with its line, or where the last step has no 0, with the last line. `TooLarge`
/// comes where the text has more than 2^30 bytes, and `Memory` where there is no memory for the proof.
pub fn read_proof(alloc: Global, text: &[u8]) -> Result<Proof, ProofError>
    ensures { IsErrOf result ProofError.TooLarge → greatest < length text.now }
{
    if text.len() > GREATEST {
        return Err(ProofError::TooLarge);
    }
    let mut steps = Steps {
        proof: Proof::new(alloc),
        clause: Vec::new(alloc),
        deletes: false,
    };
    let mut number: u64 = 0;
    for line in text.split(|byte| *byte == b'\n') {
        number = number.saturating_add(1);
        if !steps.take_line(line)? {
            return Err(ProofError::BadStep { line: number });
        }
    }
    if !steps.is_between() {
        return Err(ProofError::BadStep { line: number });
    }
    Ok(steps.proof)
}
