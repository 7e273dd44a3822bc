// Texts that are put together of pieces: the room that they take is taken once.
ghost use Rattle.std.specs.Prelude.{◌≡◌, ◌-◌, ◌^◌, IfOk, length, min};
ghost use Rattle.std.specs.List.{flat_map};
ghost use Rattle.std.specs.String.{string_bytes};
ghost use Rattle.law_texts.specs.LineTexts.{spaced};
ghost use Rattle.law_texts.specs.SharedTexts.{texts};

use smt_term::Text;
use std::alloc::{AllocError, Global};

/// The pieces one behind the other, in room for just these.
pub(crate) fn concat(alloc: Global, pieces: &[&str]) -> Result<String, AllocError>
    ensures { IfOk result (λ text. string_bytes text ≡ flat_map (λ piece. piece.now) pieces.now) }
{
    let mut text = String::with_capacity(alloc, concat_len(pieces))?;
    for piece in pieces {
        text.push_str(piece)?;
    }
    Ok(text)
}

/// How many bytes the pieces have together, or the greatest number where it is less.
fn concat_len(pieces: &[&str]) -> usize
    ensures { result ≡ min (length (flat_map (λ piece. piece.now) pieces.now)) (2 ^ 64 - 1) }
{
    let mut len: usize = 0;
    for piece in pieces {
        len = len.saturating_add(piece.len());
    }
    len
}

/// How many bytes the pieces have with a space between each two, or the greatest number where it is less.
pub(crate) fn spaced_len(pieces: &[Text]) -> usize
    ensures { result ≡ min (length (spaced (texts pieces.now))) (2 ^ 64 - 1) }
{
    let mut len = pieces.len().saturating_sub(1);
    for piece in pieces {
        len = len.saturating_add(piece.len());
    }
    len
}
