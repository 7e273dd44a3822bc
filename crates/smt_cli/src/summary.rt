// The summary of a script, and its text.
ghost use Rattle.std.specs.Prelude.{◌≡◌, ◌++◌, IfOk, OnOk};
ghost use Rattle.std.specs.String.{string_bytes};
ghost use Rattle.smt_cli.specs.Generation.{number_line, summary_lines};

use std::alloc::{AllocError, Global};

/// What the script of a job has.
#[derive(Clone, Copy, Debug, PartialEq, Eq, Drop)]
pub(crate) struct Summary {
    /// How many terms the job has.
    pub(crate) terms: usize,
    /// How many of the job's variables the script declares.
    pub(crate) variables: usize,
    /// How many other names of terms it has.
    pub(crate) definitions: usize,
    /// How many assertions it has.
    pub(crate) assertions: usize,
    /// How many bytes it has, at most 2^64 - 1.
    pub(crate) bytes: u64,
    /// The sum of its bytes, modulo 2^64.
    pub(crate) sum: u64,
}

/// Appends a line: a word, a space and a number.
fn push_line(alloc: Global, text: &mut String, word: &str, number: u64) -> Result<(), AllocError>
    ensures { OnOk result
        (string_bytes text.new ≡ string_bytes text.old ++ number_line word.now number) }
{
    let line = format!(in alloc; "{word} {number}\n")?;
    text.push_str(line.as_str())
}

impl Summary {
    /// A line for each number.
    pub(crate) fn text(self, alloc: Global) -> Result<String, AllocError>
        ensures { IfOk result (λ text. string_bytes text ≡ summary_lines self) }
    {
        let mut text = String::new(alloc);
        push_line(alloc, &mut text, "terms", self.terms as u64)?;
        push_line(alloc, &mut text, "variables", self.variables as u64)?;
        push_line(alloc, &mut text, "definitions", self.definitions as u64)?;
        push_line(alloc, &mut text, "assertions", self.assertions as u64)?;
        push_line(alloc, &mut text, "bytes", self.bytes)?;
        push_line(alloc, &mut text, "sum", self.sum)?;
        Ok(text)
    }
}
