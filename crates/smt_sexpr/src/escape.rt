//! The characters of strings (SMT-LIB 2.7, theory UnicodeStrings).
#![tactic(auto, using(crate::specs::View::views))]

ghost use Rattle.std.specs.Prelude.{◌≡◌, ◌+◌, ◌<◌, [], ◌∷◌, length, take, drop, IfOk, IfSome};
ghost use Rattle.std.specs.Prelude.{IfNone, is_some, IsTrue};
ghost use Rattle.std.specs.List.{list_all};
ghost use Rattle.std.specs.Str.{chars};
ghost use Rattle.std.specs.String.{string_bytes};
ghost use Rattle.std.proofs.Math.Utf8.{scalars};
ghost use Rattle.law_texts.specs.Characters.{is_hexadecimal};
ghost use Rattle.law_texts.specs.Escapes.{short_escape, braced_escape, escape, decoded};
ghost use Rattle.law_texts.specs.Front.{ReadsTo};
ghost use Rattle.law_texts.specs.Digits.{number_in};

use crate::number::number_of_digits;
use smt_text::SMT_LIB_MAX_CODE_POINT;
use std::alloc::{AllocError, Global};

pub fn is_base_16(byte: u8) -> bool
    ensures { result ≡ is_hexadecimal byte }
{
    matches!(byte, b'0'..=b'9' | b'A'..=b'F' | b'a'..=b'f')
}

fn are_base_16(bytes: &[u8]) -> bool
    ensures { result ≡ list_all is_hexadecimal bytes.now }
{
    bytes.iter().all(|byte| is_base_16(*byte))
}

// The first `n` bytes, or all where there are fewer.
fn first(bytes: &[u8], n: usize) -> &[u8]
    ensures { result.now ≡ take n bytes.now }
{
    bytes.split_at(n.min(bytes.len())).0
}

// What follows the first `n` bytes.
fn without(bytes: &[u8], n: usize) -> &[u8]
    ensures { result.now ≡ drop n bytes.now }
{
    bytes.split_at(n.min(bytes.len())).1
}

// The code point of at most five digits.
fn point_of(digits: &[u8]) -> u32
    requires short { length digits.now < 6 }
    requires each { IsTrue (list_all is_hexadecimal digits.now) }
    ensures { result ≡ number_in 16 digits.now }
{
    match number_of_digits(16, digits) {
        Some(point) => point as u32,
        None => 0,
    }
}

// The code point of four digits behind `\u`.
fn short_point(bytes: &[u8]) -> Option<u32>
    ensures { ReadsTo (λ p. record { len = 6; point = p }) result (short_escape bytes.now) }
{
    let digits = first(without(bytes, 2), 4);
    if first(bytes, 2) == b"\\u".as_slice() && digits.len() == 4 && are_base_16(digits) {
        Some(point_of(digits))
    } else {
        None
    }
}

// The code point of `k` digits between braces behind `\u`.
fn braced_point(k: usize, bytes: &[u8]) -> Option<u32>
    requires { k < 6 }
    ensures { ReadsTo (λ p. record { len = k + 4; point = p }) result (braced_escape k bytes.now) }
{
    let digits = first(without(bytes, 3), k);
    let end = first(without(bytes, 3 + k), 1);
    if first(bytes, 3) == b"\\u{".as_slice() && end == b"}".as_slice() && are_base_16(digits) {
        let point = point_of(digits);
        if point <= SMT_LIB_MAX_CODE_POINT {
            Some(point)
        } else {
            None
        }
    } else {
        None
    }
}

// The code point of the escape at the front, and its length.
fn escape_at(bytes: &[u8]) -> Option<(u32, usize)>
    ensures { ReadsTo (λ x. record { len = x.1; point = x.0 }) result (escape bytes.now) }
{
    if let Some(point) = short_point(bytes) {
        return Some((point, 6));
    }
    if let Some(point) = braced_point(1, bytes) {
        return Some((point, 5));
    }
    if let Some(point) = braced_point(2, bytes) {
        return Some((point, 6));
    }
    if let Some(point) = braced_point(3, bytes) {
        return Some((point, 7));
    }
    if let Some(point) = braced_point(4, bytes) {
        return Some((point, 8));
    }
    match braced_point(5, bytes) {
        Some(point) => Some((point, 9)),
        None => None,
    }
}

// The first code point of a string's text, and the text behind it.
fn split_point(text: &[u8]) -> Option<(u32, &[u8])>
    ensures found { IfSome result (λ x. decoded 0 text.now ≡ x.0 ∷ decoded 0 x.1.now) }
    ensures shorter { IfSome result (λ x. length x.1.now < length text.now) }
    ensures none { IfNone result (text.now ≡ []) }
{
    let (byte, rest) = text.split_first()?;
    if *byte != b'\\' {
        return Some((u32::from(*byte), rest));
    }
    match escape_at(text) {
        Some((point, len)) => Some((point, without(rest, len.saturating_sub(1)))),
        None => Some((u32::from(*byte), rest)),
    }
}

/// The characters of a string's text, or `None` where a code point is no character.
pub fn decode(alloc: Global, text: &[u8]) -> Result<Option<String>, AllocError>
    ensures found { IfOk result (λ o. IfSome o (λ s. chars (string_bytes s) ≡ decoded 0 text.now)) }
    ensures held { IfOk result (λ o. is_some o ≡ scalars (decoded 0 text.now)) }
{
    let mut characters = String::new(alloc);
    let mut rest = text;
    loop {
        let Some((point, behind)) = split_point(rest) else {
            return Ok(Some(characters));
        };
        let Some(c) = char::from_u32(point) else {
            return Ok(None);
        };
        characters.push(c)?;
        rest = behind;
    }
}
