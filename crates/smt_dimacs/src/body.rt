// What stands behind the problem line.
ghost use Rattle.std.specs.Prelude.{◌≡◌, ℕ, None, [], ◌∷◌, IfErr, OnOk};
ghost use Rattle.smt_clauses.specs.View.{plain_clauses};
ghost use Rattle.smt_dimacs.specs.Entries.{entry_of};
ghost use Rattle.smt_dimacs.specs.Faults.{IsWordFault};
ghost use Rattle.smt_dimacs.specs.Words.{runs_of, words_of};

use crate::entry::{Entry, read_entry};
use crate::error::{FormulaError, FormulaFault};
use crate::problem::Problem;
use crate::words::begins_comment;
use smt_clauses::{ClauseList, Literal};
use std::alloc::Global;

/// The clauses that were read, and the literals of one of which no 0 came yet.
#[derive(Drop)]
pub(crate) struct Body {
    pub(crate) clauses: ClauseList,
    pub(crate) clause: Vec<Literal>,
}

/// What is wrong with a word that is no number.
fn fault_of(word: &[u8]) -> FormulaFault
    requires { entry_of word.now ≡ None }
    ensures { (variables : ℕ) → IsWordFault variables word.now result }
{
    match word {
        b"p" => FormulaFault::SecondHeader,
        b"%" => FormulaFault::PercentSign,
        _ => FormulaFault::NoNumber,
    }
}

impl Body {
    ghost use Rattle.smt_dimacs.specs.Read.{HasBodyCause, TakesMore};

    /// What is read before the first line.
    pub(crate) fn new(alloc: Global) -> Body
        ensures clauses { plain_clauses result.clauses ≡ [] }
        ensures clause { result.clause.items ≡ [] }
    {
        Body {
            clauses: ClauseList::new(alloc),
            clause: Vec::new(alloc),
        }
    }

    /// Takes a word of the line of this number.
    fn take_word(&mut self, problem: Problem, word: &[u8], line: u64) -> Result<(), FormulaError>
        ensures ok { OnOk result (TakesMore problem.variables (word.now ∷ []) self.old self.new) }
        ensures err { IfErr result (HasBodyCause problem.variables (word.now ∷ []) line) }
    {
        match read_entry(word, problem.variables) {
            Entry::End => {
                self.clauses.push(self.clause.as_slice())?;
                self.clause.clear();
                Ok(())
            }
            Entry::Literal(literal) => match self.clause.push(literal) {
                Ok(()) => Ok(()),
                Err(_) => Err(FormulaError::Memory),
            },
            Entry::Large => Err(FormulaError::Refused {
                fault: FormulaFault::LargeVariable,
                line,
            }),
            Entry::Nothing => Err(FormulaError::Refused {
                fault: fault_of(word),
                line,
            }),
        }
    }

    /// Takes the runs of bytes between white space of the line of this number.
    fn take_runs(&mut self, problem: Problem, line: &[u8], number: u64) -> Result<(), FormulaError>
        ensures ok { OnOk result
            (TakesMore problem.variables (runs_of line.now) self.old self.new) }
        ensures err { IfErr result (HasBodyCause problem.variables (runs_of line.now) number) }
    {
        for run in line.split(|byte| byte.is_ascii_whitespace()) {
            if !run.is_empty() {
                self.take_word(problem, run, number)?;
            }
        }
        Ok(())
    }

    /// Takes the words of the line of this number.
    pub(crate) fn take_line(
        &mut self,
        problem: Problem,
        line: &[u8],
        number: u64,
    ) -> Result<(), FormulaError>
        ensures ok { OnOk result
            (TakesMore problem.variables (words_of line.now) self.old self.new) }
        ensures err { IfErr result (HasBodyCause problem.variables (words_of line.now) number) }
    {
        if begins_comment(line) {
            Ok(())
        } else {
            self.take_runs(problem, line, number)
        }
    }
}
