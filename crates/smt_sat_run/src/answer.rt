// The texts of answers.
ghost use Rattle.std.specs.Prelude.{◌≡◌, ◌≤◌, ◌^◌, IfOk};
ghost use Rattle.smt_search.specs.Given.{truths};
ghost use Rattle.smt_sat_run.specs.Answers.{SaysAnswer, SaysTruths, verdict_of};

use crate::values::values_text;
use crate::verdict::Verdict;
use smt_search::{Answer, Truths};
use std::alloc::{AllocError, Global};

/// The text that says which truths of so many variables were found.
fn truths_text(alloc: Global, variables: u32, found: &Truths) -> Result<Vec<u8>, AllocError>
    requires { variables ≤ 2 ^ 30 }
    ensures { IfOk result (λ text. SaysTruths (truths found.now) variables text.items) }
{
    let values = values_text(alloc, variables, found)?;
    let mut text = Vec::from_slice(alloc, b"s SATISFIABLE\n")?;
    text.extend_from_slice(values.as_slice())?;
    Ok(text)
}

/// The text that says an answer on so many variables.
pub(crate) fn answer_text(
    alloc: Global,
    variables: u32,
    answer: &Answer,
) -> Result<Vec<u8>, AllocError>
    requires { variables ≤ 2 ^ 30 }
    ensures { IfOk result (λ text. SaysAnswer variables answer.now text.items) }
{
    match answer {
        Answer::Solved(found) => truths_text(alloc, variables, found),
        Answer::Refuted => Vec::from_slice(alloc, b"s UNSATISFIABLE\n"),
        Answer::Undecided => Vec::from_slice(alloc, b"s UNKNOWN\n"),
    }
}

/// What a run finds by an answer.
pub(crate) fn verdict_from(answer: &Answer) -> Verdict
    ensures { result ≡ verdict_of answer.now }
{
    match answer {
        Answer::Solved(_) => Verdict::Satisfiable,
        Answer::Refuted => Verdict::Unsatisfiable,
        Answer::Undecided => Verdict::Unknown,
    }
}
