//! What stands at the front of a text besides expressions: white space, comments and brackets (SMT-LIB 2.7, chapter 3,
//! Lexicon).
#![tactic(auto)]

ghost use Rattle.std.specs.Prelude.{◌≡◌, ℕ, ◌<◌, ◌≤◌, ◌↔◌, [], ◌∷◌, false, length, IsTrue, IfSome};
ghost use Rattle.std.specs.Prelude.{IfNone, List};
ghost use Rattle.law_texts.specs.Lexicon.{Token, Begin, End};
ghost use Rattle.law_texts.specs.Tokens.{HasTokens, Spans};
ghost use Rattle.smt_sexpr.specs.Pieces.{begins_blank};

use crate::lexeme::{comment_len, without_space};
use smt_text::digits::behind;

// What follows a comment at the front.
fn behind_comment(src: &[u8]) -> Option<&[u8]>
    ensures found { IfSome result (λ rest. Spans src.now [] rest.now) }
    ensures shorter { IfSome result (λ rest. length rest.now < length src.now) }
    ensures none { IfNone result ((inside : List ℕ) → src.now ≡ 59 ∷ inside → ⊥) }
{
    let text = behind(src, b';')?;
    Some(text.split_at(comment_len(text)).1)
}

/// The text from the first byte on that is neither white space nor in a comment.
pub(crate) fn without_blanks(src: &[u8]) -> &[u8]
    ensures blank { Spans src.now [] result.now }
    ensures first { begins_blank result.now ≡ false }
    ensures shorter { length result.now ≤ length src.now }
{
    let mut rest = without_space(src);
    while let Some(after) = behind_comment(rest) {
        rest = without_space(after);
    }
    rest
}

/// What follows the bracket that opens at the front of a text, or `None` where none does. White space and comments may
/// stand before it.
pub fn behind_open(src: &[u8]) -> Option<&[u8]>
    ensures found { IfSome result (λ rest. Spans src.now (Begin ∷ []) rest.now) }
    ensures none { IfNone result ((ts : List Token) → HasTokens src.now (Begin ∷ ts) → ⊥) }
    ensures shorter { IfSome result (λ rest. length rest.now < length src.now) }
{
    behind(without_blanks(src), b'(')
}

/// What follows the bracket that closes at the front of a text, or `None` where none does. White space and comments may
/// stand before it.
pub fn behind_close(src: &[u8]) -> Option<&[u8]>
    ensures found { IfSome result (λ rest. Spans src.now (End ∷ []) rest.now) }
    ensures none { IfNone result ((ts : List Token) → HasTokens src.now (End ∷ ts) → ⊥) }
    ensures shorter { IfSome result (λ rest. length rest.now < length src.now) }
{
    behind(without_blanks(src), b')')
}

/// Whether a text has nothing but white space and comments.
pub fn is_blank(src: &[u8]) -> bool
    ensures { IsTrue result ↔ HasTokens src.now [] }
{
    without_blanks(src).is_empty()
}
