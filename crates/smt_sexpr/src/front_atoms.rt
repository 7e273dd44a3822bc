//! Atoms at the front of a text, read where they stand, so that no memory is taken: symbols, strings whose characters stand as
//! themselves, and numerals (SMT-LIB 2.7, chapter 3, Lexicon).
#![tactic(auto)]

ghost use Rattle.std.specs.Prelude.{◌≡◌, ◌<◌, ℕ, List, [], ◌∷◌, length, encode_utf8_all, true};
ghost use Rattle.std.specs.Prelude.{IfSome, IfNone, IsTrue};
ghost use Rattle.std.specs.List.{list_all};
ghost use Rattle.std.specs.Str.{IsAscii};
ghost use Rattle.std.proofs.Math.Utf8.{scalars};
ghost use Rattle.law_texts.specs.Lexicon.{Quoted, Word, Name, Number, Text};
ghost use Rattle.law_texts.specs.Reads.{begins_number};
ghost use Rattle.law_texts.specs.Tokens.{Spans, StandsFirst};
ghost use Rattle.smt_sexpr.specs.Pieces.{HasPlainText, StandsFor, begins_symbol, stands_as_itself};
ghost use Rattle.smt_sexpr.specs.Refusals.{IsTokenFault};
ghost use Rattle.smt_sexpr.specs.declared.error.IntFault.TheVariants.{PosOverflow};
ghost use Rattle.smt_sexpr.specs.declared.error.SExprParseError.TheVariants.{Utf8Error};
ghost use Rattle.smt_sexpr.specs.declared.error.SExprParseError.TheVariants.{ParseIntError};

use crate::front::without_blanks;
use crate::lexeme::{goes_on_symbol, plain_len, symbol_len};
use smt_text::digits::{behind, split_digits, wide_number};
use std::str;

fn begins_name(src: &[u8]) -> bool
    ensures { result ≡ begins_symbol src.now }
{
    match src.split_first() {
        Some((byte, _)) => !byte.is_ascii_digit() && goes_on_symbol(*byte),
        None => false,
    }
}

fn begins_numeral(src: &[u8]) -> bool
    ensures { result ≡ begins_number src.now }
{
    match src.split_first() {
        Some((byte, _)) => byte.is_ascii_digit(),
        None => false,
    }
}

/// The symbol that begins a text, and what follows it, or `None` where its bytes are not UTF-8.
pub(crate) fn symbol(src: &[u8]) -> Option<(&str, &[u8])>
    requires { begins_symbol src.now ≡ true }
    ensures found { IfSome result (λ x. StandsFor (Word (Name x.0.now) ∷ []) src.now x.1.now) }
    ensures none { IfNone result (IsTokenFault Utf8Error src.now) }
{
    let (bytes, rest) = src.split_at(symbol_len(src));
    match str::from_utf8(bytes) {
        Ok(name) => Some((name, rest)),
        Err(_) => None,
    }
}

/// The numeral that begins a text, and what follows it, or `None` where it is 2 to the 128 or more.
pub(crate) fn numeral(src: &[u8]) -> Option<(u128, &[u8])>
    requires { begins_number src.now ≡ true }
    ensures found { IfSome result (λ x. StandsFor (Word (Number x.0) ∷ []) src.now x.1.now) }
    ensures none { IfNone result (IsTokenFault (ParseIntError PosOverflow) src.now) }
{
    let (digits, rest) = split_digits(src);
    match wide_number(digits) {
        Some(value) => Some((value, rest)),
        None => None,
    }
}

// The string whose opening quote stands before the text, where each of its characters is ASCII and stands as itself, and what
// follows its closing quote.
fn plain_text(src: &[u8]) -> Option<(&str, &[u8])>
    ensures found { IfSome result
        (λ x. StandsFor (Word (Text x.0.now) ∷ []) (34 ∷ src.now) x.1.now) }
    ensures ascii { IfSome result (λ x. IsAscii x.0.now) }
    ensures none { IfNone result ((text rest : List ℕ) →
        StandsFirst (34 ∷ src.now) (Quoted text) rest → IsTrue (list_all stands_as_itself text) →
        ⊥) }
{
    let (bytes, end) = src.split_at(plain_len(src));
    let rest = behind(end, b'"')?;
    // A doubled quote stands for a quote inside the string.
    let None = behind(rest, b'"') else {
        return None;
    };
    match str::from_utf8(bytes) {
        Ok(text) => Some((text, rest)),
        Err(_) => None,
    }
}

/// The symbol at the front of a text, and what follows it, or `None` where none stands there or its bytes are not UTF-8. White
/// space and comments may stand before it. Takes no memory.
pub fn name_at(src: &[u8]) -> Option<(&str, &[u8])>
    ensures found { IfSome result (λ x. Spans src.now (Word (Name x.0.now) ∷ []) x.1.now) }
    ensures none { IfNone result
        ((name rest : List ℕ) → Spans src.now (Word (Name name) ∷ []) rest → ⊥) }
    ensures shorter { IfSome result (λ x. length x.1.now < length src.now) }
{
    let text = without_blanks(src);
    if begins_name(text) {
        symbol(text)
    } else {
        None
    }
}

/// The string at the front of a text, each of whose characters is ASCII and stands as itself, so that neither a quote nor a
/// backslash is inside, and what follows it, or `None` where none stands there, as where the string has other characters. White
/// space and comments may stand before it. Takes no memory.
pub fn plain_text_at(src: &[u8]) -> Option<(&str, &[u8])>
    ensures found { IfSome result (λ x. Spans src.now (Word (Text x.0.now) ∷ []) x.1.now) }
    ensures characters { IfSome result (λ x. scalars x.0.now ≡ true) }
    ensures encoded { IfSome result (λ x. encode_utf8_all x.0.now ≡ x.0.now) }
    ensures none { IfNone result ((text rest : List ℕ) → HasPlainText src.now text rest → ⊥) }
    ensures shorter { IfSome result (λ x. length x.1.now < length src.now) }
{
    plain_text(behind(without_blanks(src), b'"')?)
}

/// The numeral at the front of a text, below 2 to the 128, and what follows it, or `None` where none stands there. White space
/// and comments may stand before it. Takes no memory.
pub fn number_at(src: &[u8]) -> Option<(u128, &[u8])>
    ensures found { IfSome result (λ x. Spans src.now (Word (Number x.0) ∷ []) x.1.now) }
    ensures none { IfNone result
        ((number : ℕ) (rest : List ℕ) → Spans src.now (Word (Number number) ∷ []) rest → ⊥) }
    ensures shorter { IfSome result (λ x. length x.1.now < length src.now) }
{
    let text = without_blanks(src);
    if begins_numeral(text) {
        numeral(text)
    } else {
        None
    }
}
