// The lines that say what is wrong.
ghost use Rattle.std.specs.Prelude.{◌≡◌, ◌++◌, IfOk, codes, decimal};
ghost use Rattle.smt_sat_run.specs.Lines.{fault_line, name_of};

use itoa::Buffer;
use smt_dimacs::FormulaFault;
use std::alloc::{AllocError, Global};

/// The name of a fault.
fn fault_name(fault: FormulaFault) -> &'static str
    ensures { result.now ≡ name_of fault }
{
    match fault {
        FormulaFault::NoHeader => "NoHeader",
        FormulaFault::BadHeader => "BadHeader",
        FormulaFault::LargeHeader => "LargeHeader",
        FormulaFault::SecondHeader => "SecondHeader",
        FormulaFault::PercentSign => "PercentSign",
        FormulaFault::NoNumber => "NoNumber",
        FormulaFault::LargeVariable => "LargeVariable",
        FormulaFault::TooManyClauses => "TooManyClauses",
        FormulaFault::TooFewClauses => "TooFewClauses",
        FormulaFault::OpenClause => "OpenClause",
    }
}

/// A text, a number behind it, and a line end.
pub(crate) fn numbered_line(alloc: Global, text: &[u8], number: u64) -> Result<Vec<u8>, AllocError>
    ensures { IfOk result (λ line. line.items ≡ text.now ++ decimal number ++ codes "\n") }
{
    let mut buffer = Buffer::new();
    let mut line = Vec::from_slice(alloc, text)?;
    line.extend_from_slice(buffer.format(number).as_bytes())?;
    line.extend_from_slice(b"\n")?;
    Ok(line)
}

/// The line that says a fault in a line of the formula.
pub(crate) fn line_of_fault(
    alloc: Global,
    fault: FormulaFault,
    line: u64,
) -> Result<Vec<u8>, AllocError>
    ensures { IfOk result (λ text. text.items ≡ fault_line fault line) }
{
    let mut text = Vec::from_slice(alloc, b"formula refused: ")?;
    text.extend_from_slice(fault_name(fault).as_bytes())?;
    text.extend_from_slice(b" at line ")?;
    numbered_line(alloc, text.as_slice(), line)
}
