//! The piece at the front of a text: white space, a comment, a bracket or an atom (SMT-LIB 2.7, chapter 3, Lexicon).
#![tactic(auto, using(crate::specs::View::views))]

ghost use Rattle.std.specs.Prelude.{◌≡◌, ℕ, ◌<◌, [], ◌∷◌, List, length, IfOk, IfErr, true};
ghost use Rattle.std.specs.List.{flat_map, take_while};
ghost use Rattle.law_texts.specs.Reads.{IfRead, IfUnread, IsQuoted, begins_number};
ghost use Rattle.law_texts.specs.Lexicon.{is_binary, is_hexadecimal, quote_twice};
ghost use Rattle.law_texts.specs.Reading.{brackets};
ghost use Rattle.smt_script.specs.Bytes.{bytes_in};
ghost use Rattle.smt_sexpr.specs.Pieces.{StandsFor, begins_atom, begins_symbol};
ghost use Rattle.smt_sexpr.specs.Refusals.{IsTokenFault, IsRawString};
ghost use Rattle.smt_sexpr.specs.View.{plain, lexeme_tokens};

use crate::error::{IntFault, SExprParseError};
use crate::escape::{decode, is_base_16};
use crate::expression::SExpr;
use crate::front_atoms::{numeral, symbol};
use crate::lexeme::{comment_len, is_white_space, run_len};
use crate::number::literal;
use smt_script::Bytes;
use smt_text::Text;
use smt_text::digits::behind;
use std::alloc::{AllocError, Global};

/// A piece of a text.
#[derive(Drop)]
pub enum Lexeme {
    /// White space or a comment.
    Blank,
    /// A bracket that opens.
    Open,
    /// A bracket that closes.
    Close,
    /// A literal, a numeral, a string or a symbol.
    Atom(SExpr),
}

fn is_base_2(byte: u8) -> bool
    ensures { result ≡ is_binary byte }
{
    matches!(byte, b'0' | b'1')
}

// How many binary digits stand at the front.
fn binary_len(src: &[u8]) -> usize
    ensures { result ≡ length (take_while is_binary src.now) }
{
    src.iter().take_while(|byte| is_base_2(**byte)).count()
}

// How many hexadecimal digits stand at the front.
fn hexadecimal_len(src: &[u8]) -> usize
    ensures { result ≡ length (take_while is_hexadecimal src.now) }
{
    src.iter().take_while(|byte| is_base_16(**byte)).count()
}

// The literal whose digits stand behind `#b`, and what follows it.
fn split_binary(src: &[u8]) -> Result<(SExpr, &[u8]), SExprParseError>
    ensures found { IfOk result
        (λ x. StandsFor (brackets (plain x.0)) (35 ∷ 98 ∷ src.now) x.1.now) }
    ensures fault { IfErr result (λ e. IsTokenFault e (35 ∷ 98 ∷ src.now)) }
{
    let (digits, rest) = src.split_at(binary_len(src));
    match literal(2, 1, digits) {
        Ok(bits) => Ok((SExpr::BitVec(bits), rest)),
        Err(fault) => Err(fault),
    }
}

// The literal whose digits stand behind `#x`, and what follows it.
fn split_hexadecimal(src: &[u8]) -> Result<(SExpr, &[u8]), SExprParseError>
    ensures found { IfOk result
        (λ x. StandsFor (brackets (plain x.0)) (35 ∷ 120 ∷ src.now) x.1.now) }
    ensures fault { IfErr result (λ e. IsTokenFault e (35 ∷ 120 ∷ src.now)) }
{
    let (digits, rest) = src.split_at(hexadecimal_len(src));
    match literal(16, 4, digits) {
        Ok(bits) => Ok((SExpr::BitVec(bits), rest)),
        Err(fault) => Err(fault),
    }
}

// The literal whose base and digits stand behind `#`, and what follows it.
fn split_literal(src: &[u8]) -> Result<(SExpr, &[u8]), SExprParseError>
    ensures found { IfOk result (λ x. StandsFor (brackets (plain x.0)) (35 ∷ src.now) x.1.now) }
    ensures fault { IfErr result (λ e. IsTokenFault e (35 ∷ src.now)) }
{
    let Some((base, digits)) = src.split_first() else {
        return Err(SExprParseError::UnexpectedEnd);
    };
    match *base {
        b'b' => split_binary(digits),
        b'x' => split_hexadecimal(digits),
        _ => Err(SExprParseError::UnexpectedEnd),
    }
}

// The numeral at the front, and what follows it.
fn split_number(src: &[u8]) -> Result<(SExpr, &[u8]), SExprParseError>
    requires { begins_number src.now ≡ true }
    ensures found { IfOk result (λ x. StandsFor (brackets (plain x.0)) src.now x.1.now) }
    ensures fault { IfErr result (λ e. IsTokenFault e src.now) }
{
    match numeral(src) {
        Some((value, rest)) => Ok((SExpr::Numeral(value), rest)),
        None => Err(SExprParseError::ParseIntError(IntFault::PosOverflow)),
    }
}

// The symbol at the front, and what follows it.
fn split_name(alloc: Global, src: &[u8]) -> Result<(SExpr, &[u8]), SExprParseError>
    requires { begins_symbol src.now ≡ true }
    ensures found { IfOk result (λ x. StandsFor (brackets (plain x.0)) src.now x.1.now) }
    ensures fault { IfErr result (λ e. IsTokenFault e src.now) }
{
    let Some((name, rest)) = symbol(src) else {
        return Err(SExprParseError::Utf8Error);
    };
    let text = Text::from_str(alloc, name)?;
    Ok((SExpr::Symbol(text), rest))
}

// The text of a string, each doubled quote once, and what follows its closing quote. `src` stands behind the opening one.
fn split_quoted(alloc: Global, src: &[u8]) -> Result<Option<(Vec<u8>, &[u8])>, AllocError>
    ensures found { IfRead result (λ x. IsQuoted src.now x.0.items x.1.now) }
    ensures none { IfUnread result ((text rest : List ℕ) → IsQuoted src.now text rest → ⊥) }
{
    let mut text = Vec::new(alloc);
    let mut rest = src;
    loop {
        let (run, quote) = rest.split_at(run_len(rest));
        text.extend_from_slice(run)?;
        let Some(after) = behind(quote, b'"') else {
            return Ok(None);
        };
        let Some(more) = behind(after, b'"') else {
            return Ok(Some((text, after)));
        };
        text.push(b'"')?;
        rest = more;
    }
}

// The refusal of a string, by the bytes between its quotes.
fn refused_string(alloc: Global, raw: &[u8]) -> SExprParseError
    ensures { IsRawString raw.now result }
{
    let mut bytes = Bytes::new(alloc);
    match bytes.append(raw) {
        Ok(()) => SExprParseError::StringParseError(bytes),
        Err(_) => SExprParseError::Memory,
    }
}

// The string at the front, and what follows it. `src` stands behind the opening quote.
fn split_string(alloc: Global, src: &[u8]) -> Result<(SExpr, &[u8]), SExprParseError>
    ensures found { IfOk result (λ x. StandsFor (brackets (plain x.0)) (34 ∷ src.now) x.1.now) }
    ensures fault { IfErr result (λ e. IsTokenFault e (34 ∷ src.now)) }
{
    let Some((text, rest)) = split_quoted(alloc, src)? else {
        return Err(SExprParseError::UnexpectedEnd);
    };
    let Some(characters) = decode(alloc, text.as_slice())? else {
        let (raw, _) = src.split_at(src.len() - rest.len() - 1);
        return Err(refused_string(alloc, raw));
    };
    let characters = Text::from_string(characters)?;
    Ok((SExpr::String(characters), rest))
}

// The atom at the front, and what follows it.
fn split_atom(alloc: Global, src: &[u8]) -> Result<(SExpr, &[u8]), SExprParseError>
    requires { begins_atom src.now ≡ true }
    ensures found { IfOk result (λ x. StandsFor (brackets (plain x.0)) src.now x.1.now) }
    ensures fault { IfErr result (λ e. IsTokenFault e src.now) }
{
    let Some((byte, inside)) = src.split_first() else {
        return Err(SExprParseError::UnexpectedEnd);
    };
    match *byte {
        b'"' => split_string(alloc, inside),
        b'#' => split_literal(inside),
        b'0'..=b'9' => split_number(src),
        _ => split_name(alloc, src),
    }
}

/// The piece at the front of a text that isn't empty, and what follows it.
pub fn split_lexeme(alloc: Global, src: &[u8]) -> Result<(Lexeme, &[u8]), SExprParseError>
    requires { 0 < length src.now }
    ensures found { IfOk result (λ x. StandsFor (lexeme_tokens x.0) src.now x.1.now) }
    ensures fault { IfErr result (λ e. IsTokenFault e src.now) }
{
    let Some((byte, inside)) = src.split_first() else {
        return Err(SExprParseError::UnexpectedEnd);
    };
    if is_white_space(*byte) {
        return Ok((Lexeme::Blank, inside));
    }
    match *byte {
        b';' => Ok((Lexeme::Blank, inside.split_at(comment_len(inside)).1)),
        b'(' => Ok((Lexeme::Open, inside)),
        b')' => Ok((Lexeme::Close, inside)),
        _ => match split_atom(alloc, src) {
            Ok((atom, rest)) => Ok((Lexeme::Atom(atom), rest)),
            Err(fault) => Err(fault),
        },
    }
}
