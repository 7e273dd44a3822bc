// Why a text is no formula.
use std::alloc::AllocError;
use thiserror::Error;

/// What is wrong with a text that is no formula.
#[derive(Clone, Copy, Debug, PartialEq, Eq, Drop, Error)]
pub enum FormulaFault {
    /// The first line that is no comment and has words is not the problem line, or there is no such line.
    #[error("NoHeader")]
    NoHeader,
    /// The problem line is not `p cnf VARIABLES CLAUSES`.
    #[error("BadHeader")]
    BadHeader,
    /// The problem line says that there are more than 2^30 variables or clauses.
    #[error("LargeHeader")]
    LargeHeader,
    /// A word behind the problem line is `p`.
    #[error("SecondHeader")]
    SecondHeader,
    /// A word behind the problem line is `%`, as in files that end with such a line.
    #[error("PercentSign")]
    PercentSign,
    /// A word behind the problem line is no number.
    #[error("NoNumber")]
    NoNumber,
    /// A literal is above the variables of the problem line.
    #[error("LargeVariable")]
    LargeVariable,
    /// There are more clauses than the problem line says.
    #[error("TooManyClauses")]
    TooManyClauses,
    /// There are fewer clauses than the problem line says.
    #[error("TooFewClauses")]
    TooFewClauses,
    /// The last clause has no 0 behind it.
    #[error("OpenClause")]
    OpenClause,
}

/// Why a formula was not read.
#[derive(Clone, Copy, Debug, PartialEq, Eq, Drop, Error)]
pub enum FormulaError {
    /// The text is no formula, or is too large.
    #[error("{fault} at line {line}")]
    Refused {
        /// What is wrong.
        fault: FormulaFault,
        /// In which line, counted from 1.
        line: u64,
    },
    /// The text has more than 2^30 bytes.
    #[error("TooLarge")]
    TooLarge,
    /// There was no memory for the formula.
    #[error("out of memory for the formula")]
    Memory,
}

impl From<AllocError> for FormulaError {
    ghost use Rattle.std.specs.Prelude.{◌≡◌};
    ghost use Rattle.smt_dimacs.specs.declared.error.FormulaError.TheVariants.{Memory};

    ghost from_gives = { λ _ error. error ≡ Memory };

    fn from(_error: AllocError) -> FormulaError {
        FormulaError::Memory
    }
}
