// The problem line, read from its words.
ghost use Rattle.std.specs.Prelude.{◌≡◌, ◌<◌, ◌⊎◌, IfErr, IfNone, IfOk, IfSome, IsTrue, map};
ghost use Rattle.law_texts.specs.Digits.{decimal_number, is_numeral};
ghost use Rattle.smt_dimacs.specs.Faults.{IsProblemFault};
ghost use Rattle.smt_dimacs.specs.Formulas.{greatest};
ghost use Rattle.smt_dimacs.specs.Read.{HasProblemCause, IsProblemOf};
ghost use Rattle.smt_dimacs.specs.Words.{words_of};

use crate::error::{FormulaError, FormulaFault};
use crate::number::number_up_to;
use crate::problem::Problem;
use crate::words::words_in;
use smt_text::digits::are_digits;
use std::alloc::Global;

/// How many variables and clauses are read at most.
const MOST: u32 = 1 << 30;

/// The problem of so many variables and clauses, where these are not too many.
fn counted(variables: &[u8], clauses: &[u8]) -> Option<Problem>
    requires variables_written { IsTrue (is_numeral variables.now) }
    requires clauses_written { IsTrue (is_numeral clauses.now) }
    ensures variables_are { IfSome result (λ p. p.variables ≡ decimal_number variables.now) }
    ensures clauses_are { IfSome result (λ p. p.clauses ≡ decimal_number clauses.now) }
    ensures large { IfNone result ((greatest < decimal_number variables.now)
        ⊎ (greatest < decimal_number clauses.now)) }
{
    let variables = number_up_to(variables, MOST)?;
    let clauses = number_up_to(clauses, MOST)?;
    Some(Problem { variables, clauses })
}

/// The problem that words say, None where there are none.
fn problem_of(words: &[&[u8]]) -> Result<Option<Problem>, FormulaFault>
    ensures ok { IfOk result (IsProblemOf (map (λ word. word.now) words.now)) }
    ensures err { IfErr result (IsProblemFault (map (λ word. word.now) words.now)) }
{
    match words {
        [] => Ok(None),
        [p, ..] if *p != b"p".as_slice() => Err(FormulaFault::NoHeader),
        [_, format, variables, clauses]
            if *format == b"cnf".as_slice() && are_digits(variables) && are_digits(clauses) => {
            match counted(variables, clauses) {
                Some(problem) => Ok(Some(problem)),
                None => Err(FormulaFault::LargeHeader),
            }
        }
        _ => Err(FormulaFault::BadHeader),
    }
}

/// The problem that the line of this number says, None where it has no words.
pub(crate) fn begin(
    alloc: Global,
    line: &[u8],
    number: u64,
) -> Result<Option<Problem>, FormulaError>
    ensures ok { IfOk result (IsProblemOf (words_of line.now)) }
    ensures err { IfErr result (HasProblemCause (words_of line.now) number) }
{
    let words = words_in(alloc, line)?;
    match problem_of(words.as_slice()) {
        Ok(problem) => Ok(problem),
        Err(fault) => Err(FormulaError::Refused {
            fault,
            line: number,
        }),
    }
}
