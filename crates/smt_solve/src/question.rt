// What is asked of a link, and its answer.
ghost use Rattle.std.specs.Prelude.{◌≡◌, IfOk};
ghost use Rattle.std.specs.Rc.{rc_str_bytes};
ghost use Rattle.std.specs.String.{string_bytes};
ghost use Rattle.smt_script.specs.Bytes.{bytes_in};
ghost use Rattle.smt_solve.specs.Answers.{IsNoDecision, decision_word, end_message, StripsTo};
ghost use Rattle.smt_solve.specs.Link.{AllowsTheSame};
ghost use Rattle.smt_solve.specs.Question.{AsksDecision, AsksRunner, AsksRunning, EndsAnswers};
ghost use Rattle.smt_solve.specs.Question.{IsEndError, JudgesLine, KillsLink};
ghost use Rattle.smt_solve.specs.Question.{ReadsReply, RefusesText, SendsCommand, TellsMessage};
ghost use Rattle.smt_solve.specs.Question.{TellsOther};

use crate::answer::{Decision, decision_of, error_message, is_parse_error, strip};
use crate::error::SolverError;
use crate::link::{Ended, LineEnd, Link, LinkError};
use smt_script::Bytes;
use smt_text::Text;
use std::alloc::{AllocError, Global};

/// How many bytes of a line are read at most.
pub const LINE_LIMIT: usize = 65536;

/// Sends a command.
pub(crate) fn send_text<L: Link>(link: &mut L, text: &[u8]) -> Result<(), SolverError>
    ensures sends { SendsCommand (L.state link.old) (L.state link.new) text.now result }
    ensures allows { AllowsTheSame (L.allows link.old) (L.allows link.new) }
{
    match link.send(text) {
        Ok(()) => Ok(()),
        Err(LinkError::Fault) => Err(SolverError::Io),
        Err(LinkError::Memory) => Err(SolverError::Memory),
    }
}

/// Sends a command, and hands it on.
pub(crate) fn send_command<L: Link>(link: &mut L, text: &[u8]) -> Result<(), SolverError>
    ensures sends { SendsCommand (L.state link.old) (L.state link.new) text.now result }
    ensures allows { AllowsTheSame (L.allows link.old) (L.allows link.new) }
{
    send_text(link, text)?;
    match link.flush() {
        Ok(()) => Ok(()),
        Err(LinkError::Fault) => Err(SolverError::Io),
        Err(LinkError::Memory) => Err(SolverError::Memory),
    }
}

/// Kills the solver.
pub(crate) fn kill_link<L: Link>(link: &mut L) -> Result<(), SolverError>
    ensures kills { KillsLink (L.state link.old) (L.state link.new) result }
    ensures allows { AllowsTheSame (L.allows link.old) (L.allows link.new) }
{
    match link.kill() {
        Ok(()) => Ok(()),
        Err(LinkError::Fault) => Err(SolverError::Io),
        Err(LinkError::Memory) => Err(SolverError::Memory),
    }
}

/// What tells how the solver has ended.
fn end_text(alloc: Global, ended: Ended) -> Result<String, AllocError>
    ensures { IfOk result (λ text. string_bytes text ≡ end_message ended) }
{
    match ended {
        Ended::Running => String::from_str(
            alloc,
            "Solver process terminated unexpectedly with status: Running",
        ),
        Ended::Code(code) => {
            format!(in alloc; "Solver process terminated unexpectedly with status: Some({code})")
        }
        Ended::Killed => String::from_str(
            alloc,
            "Solver process terminated unexpectedly with status: None",
        ),
    }
}

/// The error that tells how the solver has ended.
fn end_error(alloc: Global, ended: Ended) -> SolverError
    ensures { IsEndError ended result }
{
    let Ok(text) = end_text(alloc, ended) else {
        return SolverError::Memory;
    };
    match Text::from_str(alloc, text.as_str()) {
        Ok(message) => SolverError::Solver(message),
        Err(_) => SolverError::Memory,
    }
}

/// Refuses a solver that has ended.
fn ask_running<L: Link>(alloc: Global, link: &mut L) -> Result<(), SolverError>
    ensures asks { AsksRunning (L.state link.old) (L.state link.new) result }
    ensures allows { AllowsTheSame (L.allows link.old) (L.allows link.new) }
{
    match link.ended() {
        Ok(Ended::Running) => Ok(()),
        Ok(ended) => Err(end_error(alloc, ended)),
        Err(LinkError::Fault) => Err(SolverError::Io),
        Err(LinkError::Memory) => Err(SolverError::Memory),
    }
}

/// Reads a line, which has no byte where the answers have ended.
pub(crate) fn read_reply<L: Link>(alloc: Global, link: &mut L) -> Result<Bytes, SolverError>
    ensures reads { ReadsReply (L.allows link.old) (L.state link.old) (L.state link.new) bytes_in
        result }
    ensures allows { AllowsTheSame (L.allows link.old) (L.allows link.new) }
{
    let mut line = Bytes::new(alloc);
    match link.read_line(&mut line, LINE_LIMIT) {
        Ok(LineEnd::TooLong) => Err(SolverError::AnswerTooLong),
        Ok(_) => Ok(line),
        Err(LinkError::Fault) => Err(SolverError::Io),
        Err(LinkError::Memory) => Err(SolverError::Memory),
    }
}

/// Kills a solver whose answers have ended, and gives the error that tells so.
pub(crate) fn end_answers<L: Link>(alloc: Global, link: &mut L) -> SolverError
    ensures gives { EndsAnswers (L.state link.old) (L.state link.new) result }
    ensures allows { AllowsTheSame (L.allows link.old) (L.allows link.new) }
{
    match kill_link(link) {
        Ok(()) => end_error(alloc, Ended::Killed),
        Err(error) => error,
    }
}

/// The error that tells of a message, before which the solver is killed where it could not read.
fn tell_error<L: Link>(alloc: Global, link: &mut L, message: &[u8]) -> SolverError
    ensures tells { TellsMessage message.now (L.state link.old) (L.state link.new) result }
    ensures allows { AllowsTheSame (L.allows link.old) (L.allows link.new) }
{
    let Ok(utf8) = str::from_utf8(message) else {
        return SolverError::Io;
    };
    if is_parse_error(message) {
        if let Err(error) = kill_link(link) {
            return error;
        }
    }
    match Text::from_str(alloc, utf8) {
        Ok(told) => SolverError::Solver(told),
        Err(_) => SolverError::Memory,
    }
}

/// The error that tells of a text.
fn tell_other(alloc: Global, text: &[u8]) -> SolverError
    ensures { TellsOther text.now result }
{
    let Ok(utf8) = str::from_utf8(text) else {
        return SolverError::Io;
    };
    match Text::from_str(alloc, utf8) {
        Ok(told) => SolverError::UnrecognizedSolverOutput(told),
        Err(_) => SolverError::Memory,
    }
}

/// The error that tells of the text of a line.
pub(crate) fn refuse_text<L: Link>(alloc: Global, link: &mut L, text: &[u8]) -> SolverError
    ensures refuses { RefusesText text.now (L.state link.old) (L.state link.new) result }
    ensures allows { AllowsTheSame (L.allows link.old) (L.allows link.new) }
{
    match error_message(text) {
        Some(message) => tell_error(alloc, link, message),
        None => tell_other(alloc, text),
    }
}

/// The decision that a line says.
fn judge_decision<L: Link>(
    alloc: Global,
    link: &mut L,
    line: &[u8],
) -> Result<Decision, SolverError>
    ensures judges { JudgesLine (λ d. StripsTo line.now (decision_word d)) IsNoDecision line.now
        (L.state link.old) (L.state link.new) result }
    ensures allows { AllowsTheSame (L.allows link.old) (L.allows link.new) }
{
    if line.is_empty() {
        return Err(end_answers(alloc, link));
    }
    let text = strip(line);
    match decision_of(text) {
        Some(decision) => Ok(decision),
        None => Err(refuse_text(alloc, link, text)),
    }
}

/// Asks a solver that runs whether the assertions have a model.
fn ask_runner<L: Link>(alloc: Global, link: &mut L) -> Result<Decision, SolverError>
    ensures asks { AsksRunner (L.allows link.old) (L.state link.old) (L.state link.new) result }
    ensures allows { AllowsTheSame (L.allows link.old) (L.allows link.new) }
{
    send_command(link, b"(check-sat)\n")?;
    let line = read_reply(alloc, link)?;
    judge_decision(alloc, link, line.items())
}

/// Asks whether the assertions have a model.
pub(crate) fn ask_decision<L: Link>(alloc: Global, link: &mut L) -> Result<Decision, SolverError>
    ensures asks { AsksDecision (L.allows link.old) (L.state link.old) (L.state link.new) result }
    ensures allows { AllowsTheSame (L.allows link.old) (L.allows link.new) }
{
    ask_running(alloc, link)?;
    ask_runner(alloc, link)
}
