// The question for a model, and its answer.
ghost use Rattle.std.specs.Rc.{rc_str_bytes};
ghost use Rattle.std.specs.String.{string_bytes};
ghost use Rattle.smt_solve.specs.Answers.{StripsTo, opening};
ghost use Rattle.smt_solve.specs.Link.{AllowsTheSame};
ghost use Rattle.smt_solve.specs.Model.{AsksModel, AsksWithModel, IsNotOpening, PushesLine};
ghost use Rattle.smt_solve.specs.Model.{ReadsModel, ReadsNextLine, ReadsOpening};
ghost use Rattle.smt_solve.specs.Model.{ReadsRest, TakesLine, TakesOpening};
ghost use Rattle.smt_solve.specs.Question.{JudgesLine};

use crate::answer::{Decision, DecisionWithModel, is_closing, is_opening, strip};
use crate::error::SolverError;
use crate::link::Link;
use crate::question::{ask_decision, end_answers, read_reply, refuse_text, send_command};
use smt_text::Text;
use std::alloc::Global;

/// How many bytes a model has at most.
pub const MODEL_LIMIT: usize = 16777216;

/// Appends a line to a model, where it is in UTF-8 and the model does not become too long.
fn push_line(model: &mut String, line: &[u8]) -> Result<(), SolverError>
    ensures { PushesLine (string_bytes model.old) (string_bytes model.new) line.now result }
{
    let Ok(utf8) = str::from_utf8(line) else {
        return Err(SolverError::Io);
    };
    if model.len() > MODEL_LIMIT || utf8.len() > MODEL_LIMIT - model.len() {
        return Err(SolverError::AnswerTooLong);
    }
    match model.push_str(utf8) {
        Ok(()) => Ok(()),
        Err(_) => Err(SolverError::Memory),
    }
}

/// Whether a line opens a model.
fn judge_opening<L: Link>(alloc: Global, link: &mut L, line: &[u8]) -> Result<(), SolverError>
    ensures judges { JudgesLine (λ _. StripsTo line.now opening) IsNotOpening line.now
        (L.state link.old) (L.state link.new) result }
    ensures allows { AllowsTheSame (L.allows link.old) (L.allows link.new) }
{
    if line.is_empty() {
        return Err(end_answers(alloc, link));
    }
    let text = strip(line);
    if is_opening(text) {
        return Ok(());
    }
    Err(refuse_text(alloc, link, text))
}

/// Takes the first line of a model.
fn take_opening<L: Link>(
    alloc: Global,
    link: &mut L,
    line: &[u8],
    model: &mut String,
) -> Result<(), SolverError>
    ensures takes { TakesOpening line.now (L.state link.old) (L.state link.new)
        (string_bytes model.new) result }
    ensures allows { AllowsTheSame (L.allows link.old) (L.allows link.new) }
{
    judge_opening(alloc, link, line)?;
    model.clear();
    push_line(model, line)
}

/// Reads the first line of a model.
fn read_opening<L: Link>(alloc: Global, link: &mut L, model: &mut String) -> Result<(), SolverError>
    ensures reads { ReadsOpening (L.allows link.old) (L.state link.old) (L.state link.new)
        (string_bytes model.new) result }
    ensures allows { AllowsTheSame (L.allows link.old) (L.allows link.new) }
{
    let line = read_reply(alloc, link)?;
    take_opening(alloc, link, line.items(), model)
}

/// Takes a further line of a model, and answers whether it is the last.
fn take_line<L: Link>(
    alloc: Global,
    link: &mut L,
    line: &[u8],
    model: &mut String,
) -> Result<bool, SolverError>
    ensures takes { TakesLine line.now (L.state link.old) (L.state link.new)
        (string_bytes model.old) (string_bytes model.new) result }
    ensures allows { AllowsTheSame (L.allows link.old) (L.allows link.new) }
{
    if line.is_empty() {
        return Err(end_answers(alloc, link));
    }
    match push_line(model, line) {
        Ok(()) => Ok(is_closing(strip(line))),
        Err(error) => Err(error),
    }
}

/// Reads a further line of a model, and answers whether it is the last.
fn read_next<L: Link>(alloc: Global, link: &mut L, model: &mut String) -> Result<bool, SolverError>
    ensures reads { ReadsNextLine (L.allows link.old) (L.state link.old) (L.state link.new)
        (string_bytes model.old) (string_bytes model.new) result }
    ensures allows { AllowsTheSame (L.allows link.old) (L.allows link.new) }
{
    let line = read_reply(alloc, link)?;
    take_line(alloc, link, line.items(), model)
}

/// Reads all further lines of a model.
fn read_rest<L: Link>(alloc: Global, link: &mut L, model: &mut String) -> Result<(), SolverError>
    ensures reads { ReadsRest (L.allows link.old) (L.state link.old) (L.state link.new)
        (string_bytes model.old) (string_bytes model.new) result }
    ensures allows { AllowsTheSame (L.allows link.old) (L.allows link.new) }
{
    for _ in 0..u64::MAX {
        if read_next(alloc, link, model)? {
            return Ok(());
        }
    }
    // No model has so many lines.
    Err(SolverError::Memory)
}

/// Asks for the model that the last question found, and reads it.
fn read_model<L: Link>(alloc: Global, link: &mut L, model: &mut String) -> Result<(), SolverError>
    ensures reads { ReadsModel (L.allows link.old) (L.state link.old) (L.state link.new)
        (string_bytes model.new) result }
    ensures allows { AllowsTheSame (L.allows link.old) (L.allows link.new) }
{
    send_command(link, b"(get-model)\n")?;
    read_opening(alloc, link, model)?;
    read_rest(alloc, link, model)
}

/// Asks for the model that the last question found.
fn ask_model<L: Link>(alloc: Global, link: &mut L) -> Result<Text, SolverError>
    ensures asks { AsksModel (L.allows link.old) (L.state link.old) (L.state link.new) rc_str_bytes
        result }
    ensures allows { AllowsTheSame (L.allows link.old) (L.allows link.new) }
{
    let mut model = String::new(alloc);
    read_model(alloc, link, &mut model)?;
    match Text::from_str(alloc, model.as_str()) {
        Ok(text) => Ok(text),
        Err(_) => Err(SolverError::Memory),
    }
}

/// Asks whether the assertions have a model, and for one.
pub(crate) fn ask_with_model<L: Link>(
    alloc: Global,
    link: &mut L,
) -> Result<DecisionWithModel, SolverError>
    ensures asks { AsksWithModel (L.allows link.old) (L.state link.old) (L.state link.new) result }
    ensures allows { AllowsTheSame (L.allows link.old) (L.allows link.new) }
{
    match ask_decision(alloc, link)? {
        Decision::Sat => match ask_model(alloc, link) {
            Ok(model) => Ok(DecisionWithModel::Sat { model }),
            Err(error) => Err(error),
        },
        Decision::Unsat => Ok(DecisionWithModel::Unsat),
        Decision::Unknown => Ok(DecisionWithModel::Unknown),
    }
}
