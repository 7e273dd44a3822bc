// The lines by which a solver answers.
ghost use Rattle.std.specs.Prelude.{◌≡◌, ◌≢◌, ◌≤◌, ◌<◌, ◌-◌, IsTrue, MatchBool, MatchOption};
ghost use Rattle.std.specs.Prelude.{length, slice_index, take, drop};
ghost use Rattle.smt_solve.specs.Answers.{AllBlank, IsNoDecision, IsNoError, StripsTo, closing};
ghost use Rattle.smt_solve.specs.Answers.{decision_word, error_line, is_blank};
ghost use Rattle.smt_solve.specs.Answers.{is_parse_error, opening};

use smt_text::Text;

/// Whether the assertions of a script have a model. Decisions are ordered as they stand here.
#[derive(Clone, Copy, Debug, PartialEq, Eq, PartialOrd, Ord, Drop)]
pub enum Decision {
    /// They have one.
    Sat,
    /// They have none.
    Unsat,
    /// The solver does not say.
    Unknown,
}

/// Whether the assertions of a script have a model, and which. Decisions are ordered as they stand here, and two that have a
/// model by the model's text.
#[derive(Debug, PartialEq, Eq, PartialOrd, Ord, Drop)]
pub enum DecisionWithModel {
    /// They have this one, as the solver spells it.
    Sat {
        /// The lines of the model, from `(` to `)`.
        model: Text,
    },
    /// They have none.
    Unsat,
    /// The solver does not say.
    Unknown,
}

fn is_blank(byte: u8) -> bool
    ensures { result ≡ is_blank byte }
{
    byte == b' ' || byte == b'\t' || byte == b'\n' || byte == b'\r'
}

/// How many blanks stand at the front.
fn blanks_in_front(bytes: &[u8]) -> usize
    ensures within { result ≤ length bytes.now }
    ensures blanks { AllBlank (take result bytes.now) }
    ensures stops { result < length bytes.now → ¬ IsTrue (is_blank (slice_index bytes.now result)) }
{
    let mut at = 0;
    while at < bytes.len() {
        if !is_blank(bytes[at]) {
            return at;
        }
        at += 1;
    }
    at
}

/// Where the blanks at the end begin.
fn blanks_at_end(bytes: &[u8]) -> usize
    ensures within { result ≤ length bytes.now }
    ensures blanks { AllBlank (drop result bytes.now) }
    ensures stops { 0 < result → ¬ IsTrue (is_blank (slice_index bytes.now (result - 1))) }
{
    let mut end = bytes.len();
    while end > 0 {
        if !is_blank(bytes[end - 1]) {
            return end;
        }
        end -= 1;
    }
    end
}

/// The line without the blanks at its ends.
pub(crate) fn strip(line: &[u8]) -> &[u8]
    ensures { StripsTo line.now result.now }
{
    let rest = &line[blanks_in_front(line)..];
    &rest[..blanks_at_end(rest)]
}

/// The decision that has this word.
pub(crate) fn decision_of(text: &[u8]) -> Option<Decision>
    ensures { MatchOption result (IsNoDecision text.now) (λ d. text.now ≡ decision_word d) }
{
    match text {
        b"sat" => Some(Decision::Sat),
        b"unsat" => Some(Decision::Unsat),
        b"unknown" => Some(Decision::Unknown),
        _ => None,
    }
}

/// The message of the error that the text tells of.
pub(crate) fn error_message(text: &[u8]) -> Option<&[u8]>
    ensures { MatchOption result (IsNoError text.now)
        (λ message. text.now ≡ error_line message.now) }
{
    match text.strip_prefix(b"(error \"") {
        Some(rest) => rest.strip_suffix(b"\")"),
        None => None,
    }
}

/// Whether the message says that the solver could not read what it was sent.
pub(crate) fn is_parse_error(message: &[u8]) -> bool
    ensures { result ≡ is_parse_error message.now }
{
    message.starts_with(b"Parse Error: ")
}

/// Whether the text opens a model.
pub(crate) fn is_opening(text: &[u8]) -> bool
    ensures { MatchBool result (text.now ≡ opening) (text.now ≢ opening) }
{
    matches!(text, b"(")
}

/// Whether the text closes a model.
pub(crate) fn is_closing(text: &[u8]) -> bool
    ensures { MatchBool result (text.now ≡ closing) (text.now ≢ closing) }
{
    matches!(text, b")")
}
