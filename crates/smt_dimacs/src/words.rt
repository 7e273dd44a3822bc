// The words of a line.
ghost use Rattle.std.specs.Prelude.{◌≡◌, map, IfOk};
ghost use Rattle.smt_dimacs.specs.Words.{is_comment, runs_of, words_of};

use std::alloc::{AllocError, Global};

/// Whether a line is a comment.
pub(crate) fn begins_comment(line: &[u8]) -> bool
    ensures { result ≡ is_comment line.now }
{
    match line {
        [first, ..] => *first == b'c',
        [] => false,
    }
}

/// The runs of bytes between white space.
fn runs_in<'a>(alloc: Global, line: &'a [u8]) -> Result<Vec<&'a [u8]>, AllocError>
    ensures { IfOk result (λ runs. map (λ run. run.now) runs.items ≡ runs_of line.now) }
{
    line.split(|byte| byte.is_ascii_whitespace())
        .filter(|run| !run.is_empty())
        .collect(alloc)
}

/// The words of a line.
pub(crate) fn words_in<'a>(alloc: Global, line: &'a [u8]) -> Result<Vec<&'a [u8]>, AllocError>
    ensures { IfOk result (λ words. map (λ word. word.now) words.items ≡ words_of line.now) }
{
    if begins_comment(line) {
        Ok(Vec::new(alloc))
    } else {
        runs_in(alloc, line)
    }
}
