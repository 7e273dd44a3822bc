// Formulas, read from their texts.
ghost use Rattle.std.specs.Prelude.{◌≡◌, ◌≤◌, length, IfErr, IfOk, List, ℕ};
ghost use Rattle.smt_clauses.specs.View.{plain_clauses};
ghost use Rattle.smt_dimacs.specs.Faults.{HasCause, IsMemoryForFormulas};
ghost use Rattle.smt_dimacs.specs.Formulas.{IsFormula, IsSmall};
ghost use Rattle.smt_dimacs.specs.Read.{HasEndCause, HasRead, IsFinished};

use crate::body::Body;
use crate::error::{FormulaError, FormulaFault};
use crate::header::begin;
use crate::problem::Problem;
use smt_clauses::ClauseList;
use std::alloc::Global;

/// How many bytes are read at most.
pub const GREATEST: usize = 1 << 30;

/// A formula in conjunctive normal form. A literal is a number: 2n is the variable n, and 2n + 1 its negation.
#[derive(Drop)]
pub struct Formula {
    /// How many variables there are, by the problem line.
    pub variables: u32,
    /// The clauses.
    pub clauses: ClauseList,
}

/// The formula that was read to the end of its text, in the line of this number.
fn finish(problem: Option<Problem>, body: Body, line: u64) -> Result<Formula, FormulaError>
    ensures ok { IfOk result (IsFinished problem body) }
    ensures err { IfErr result (HasEndCause problem body line) }
{
    let refused = |fault| Err(FormulaError::Refused { fault, line });
    let Some(problem) = problem else {
        return refused(FormulaFault::NoHeader);
    };
    if !body.clause.is_empty() {
        return refused(FormulaFault::OpenClause);
    }
    let clauses = problem.clauses as usize;
    if body.clauses.len() > clauses {
        return refused(FormulaFault::TooManyClauses);
    }
    if body.clauses.len() < clauses {
        return refused(FormulaFault::TooFewClauses);
    }
    Ok(Formula {
        variables: problem.variables,
        clauses: body.clauses,
    })
}

/// Reads a formula of the format DIMACS.
///
/// The lines that begin with `c` are comments, wherever they stand. Of the others the first that has words is the problem line
/// `p cnf VARIABLES CLAUSES`, and the words behind it are the numbers of the clauses' literals, each clause ended by 0.
///
/// # Errors
///
/// `Refused` comes where the text is no formula, or has more than 2^30 variables or clauses, with a fault and the line in which it
/// is. `TooLarge` comes where the text has more than 2^30 bytes, and `Memory` where there is no memory for the formula. So a formula
/// with at most 2^30 bytes, variables and clauses is read wherever there is memory for it.
pub fn read_formula(alloc: Global, text: &[u8]) -> Result<Formula, FormulaError>
    ensures found { IfOk result (λ f. IsFormula text.now f.variables (plain_clauses f.clauses)) }
    ensures small { IfOk result (λ f. IsSmall text.now f.variables
        (length (plain_clauses f.clauses))) }
    ensures refused { IfErr result (HasCause text.now) }
    ensures complete { IfErr result (IsMemoryForFormulas text.now) }
{
    if text.len() > GREATEST {
        return Err(FormulaError::TooLarge);
    }
    let mut problem = None;
    let mut body = Body::new(alloc);
    let mut number: u64 = 0;
    for line in text.split(|byte| *byte == b'\n') {
        number += 1;
        match problem {
            None => problem = begin(alloc, line, number)?,
            Some(known) => body.take_line(known, line, number)?,
        }
    }
    finish(problem, body, number)
}
