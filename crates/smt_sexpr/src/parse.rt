//! The reader of texts that hold one expression (SMT-LIB 2.7, chapter 3, Lexicon and S-expressions).
#![tactic(auto, using(crate::specs::View::views))]

ghost use Rattle.std.specs.Prelude.{◌≡◌, ◌≢◌, ◌+◌, ◌<◌, ◌≤◌, ◌&&◌, ◌⊎◌, Bool, true, false, [], ◌∷◌};
ghost use Rattle.std.specs.Prelude.{◌++◌, List, length, IfOk, IfErr};
ghost use Rattle.std.specs.Prelude.{IfSome, IfNone};
ghost use Rattle.law_texts.specs.Lexicon.{Token, Begin, End};
ghost use Rattle.law_texts.specs.Reading.{Expression, brackets, nesting};
ghost use Rattle.law_texts.specs.Tokens.{HasTokens, IsReadWithin, IsRead, Spans};
ghost use Rattle.smt_sexpr.specs.OpenLists.{Adds, IsNext, IsScanned, IsStepFault, levels};
ghost use Rattle.smt_sexpr.specs.Refusals.{HasTokenFault, IsRefused, open_lists};
ghost use Rattle.smt_sexpr.specs.View.{plain, lexeme_nesting, lexeme_tokens, lists_in};
ghost use Rattle.smt_sexpr.specs.declared.error.SExprParseError.TheVariants.{TrailingTokens};
ghost use Rattle.smt_sexpr.specs.declared.error.SExprParseError.TheVariants.{TooDeep, Memory};

use crate::error::SExprParseError;
use crate::expression::{SExpr, SExprs};
use crate::token::{Lexeme, split_lexeme};
use std::alloc::Global;

fn has_no_token(lexeme: &Lexeme) -> bool
    ensures blank { result ≡ true → lexeme_tokens lexeme.now ≡ [] }
    ensures token { result ≡ false →
        (t : Token) × (ts : List Token) × (lexeme_tokens lexeme.now ≡ t ∷ ts) }
{
    match lexeme {
        Lexeme::Blank => true,
        Lexeme::Open => false,
        Lexeme::Close => false,
        Lexeme::Atom(_) => false,
    }
}

// Lets a piece go, and says whether it was blank.
fn was_blank(lexeme: Lexeme) -> bool
    ensures blank { result ≡ true → lexeme_tokens lexeme ≡ [] }
    ensures token { result ≡ false →
        (t : Token) × (ts : List Token) × (lexeme_tokens lexeme ≡ t ∷ ts) }
{
    has_no_token(&lexeme)
}

fn both(one: bool, other: bool) -> bool
    ensures { result ≡ (one && other) }
{
    one && other
}

// Whether a text has no tokens.
fn has_no_tokens(alloc: Global, src: &[u8]) -> Result<bool, SExprParseError>
    ensures found { IfOk result (λ blank. IsScanned blank src.now []) }
    ensures fault { IfErr result (λ e. HasTokenFault e src.now) }
{
    let mut rest = src;
    let mut blank = true;
    while !rest.is_empty() {
        match split_lexeme(alloc, rest) {
            Ok((lexeme, after)) => {
                blank = both(blank, was_blank(lexeme));
                rest = after;
            }
            Err(fault) => return Err(fault),
        }
    }
    Ok(blank)
}

// The refusal of brackets, unless what follows them has a token fault.
fn refused(alloc: Global, rest: &[u8], fault: SExprParseError) -> SExprParseError
    ensures { HasTokenFault result rest.now
        ⊎ ((result ≡ fault) × ((blank : Bool) × IsScanned blank rest.now [])) }
{
    match has_no_tokens(alloc, rest) {
        Ok(_) => fault,
        Err(first) => first,
    }
}

// The expression, where no token follows it.
fn finish(alloc: Global, rest: &[u8], expression: SExpr) -> Result<SExpr, SExprParseError>
    ensures found { IfOk result (λ e. (e ≡ expression) × IsScanned true rest.now []) }
    ensures fault { IfErr result
        (λ e. HasTokenFault e rest.now ⊎ ((e ≡ TrailingTokens) × IsScanned false rest.now [])) }
{
    match has_no_tokens(alloc, rest) {
        Ok(true) => Ok(expression),
        Ok(false) => Err(SExprParseError::TrailingTokens),
        Err(fault) => Err(fault),
    }
}

// Puts an expression into the innermost list that is open, or gives it back where none is.
fn put(lists: &mut Vec<SExprs>, item: SExpr) -> Result<Option<SExpr>, SExprParseError>
    ensures inside { IfOk result
        (λ o. IfNone o (Adds (plain item) (lists_in lists.old.items) (lists_in lists.new.items))) }
    ensures whole { IfOk result
        (λ o. IfSome o (λ e. (e ≡ item) × (lists_in lists.old.items ≡ []))) }
    ensures error { IfErr result (λ e. e ≡ Memory) }
{
    let Some(mut items) = lists.pop() else {
        return Ok(Some(item));
    };
    items.push(item)?;
    lists.push(items)?;
    Ok(None)
}

// Puts an expression whose brackets are within the depth.
fn add(
    lists: &mut Vec<SExprs>,
    item: SExpr,
    max_depth: usize,
) -> Result<Option<SExpr>, SExprParseError>
    requires shallow { levels (lists_in lists.old.items) ≤ max_depth }
    requires item_shallow { nesting (plain item) + length (lists_in lists.old.items) ≤ max_depth }
    ensures next { IfOk result (λ o.
        IsNext o max_depth (lists_in lists.old.items) (brackets (plain item))
        (lists_in lists.new.items)) }
    ensures error { IfErr result (λ e. e ≡ Memory) }
{
    match put(lists, item) {
        Ok(None) => Ok(None),
        Ok(Some(whole)) => Ok(Some(whole)),
        Err(fault) => Err(fault),
    }
}

// Opens a list.
fn begin(
    alloc: Global,
    lists: &mut Vec<SExprs>,
    max_depth: usize,
) -> Result<Option<SExpr>, SExprParseError>
    requires { levels (lists_in lists.old.items) ≤ max_depth }
    ensures next { IfOk result (λ o.
        IsNext o max_depth (lists_in lists.old.items) (Begin ∷ []) (lists_in lists.new.items)) }
    ensures fault { IfErr result
        (λ e. IsStepFault e max_depth (open_lists (lists_in lists.old.items) ++ Begin ∷ [])) }
{
    if lists.len() >= max_depth {
        return Err(SExprParseError::TooDeep);
    }
    lists.push(SExprs::new(alloc))?;
    Ok(None)
}

// Closes the innermost list that is open.
fn end(lists: &mut Vec<SExprs>, max_depth: usize) -> Result<Option<SExpr>, SExprParseError>
    requires { levels (lists_in lists.old.items) ≤ max_depth }
    ensures next { IfOk result
        (λ o. IsNext o max_depth (lists_in lists.old.items) (End ∷ []) (lists_in lists.new.items)) }
    ensures fault { IfErr result
        (λ e. IsStepFault e max_depth (open_lists (lists_in lists.old.items) ++ End ∷ [])) }
{
    let Some(items) = lists.pop() else {
        return Err(SExprParseError::UnclosedSExpr);
    };
    match add(lists, SExpr::App(items), max_depth) {
        Ok(whole) => Ok(whole),
        Err(fault) => Err(fault),
    }
}

// What a piece makes of the lists that are open: a whole expression, or other open lists.
fn step(
    alloc: Global,
    lists: &mut Vec<SExprs>,
    lexeme: Lexeme,
    max_depth: usize,
) -> Result<Option<SExpr>, SExprParseError>
    requires shallow { levels (lists_in lists.old.items) ≤ max_depth }
    requires atomic { lexeme_nesting lexeme ≡ 0 }
    ensures next { IfOk result (λ o.
        IsNext o max_depth (lists_in lists.old.items) (lexeme_tokens lexeme)
        (lists_in lists.new.items)) }
    ensures fault { IfErr result (λ e.
        IsStepFault e max_depth (open_lists (lists_in lists.old.items) ++ lexeme_tokens lexeme)) }
{
    match lexeme {
        Lexeme::Blank => Ok(None),
        Lexeme::Open => begin(alloc, lists, max_depth),
        Lexeme::Close => end(lists, max_depth),
        Lexeme::Atom(atom) => match add(lists, atom, max_depth) {
            Ok(whole) => Ok(whole),
            Err(fault) => Err(fault),
        },
    }
}

/// The expression at the front of a text, with at most `max_depth` brackets open at a place, and what follows it. White
/// space and comments may stand before it. The grammar is that of [`parse_sexpr_within`].
///
/// # Errors
///
/// As [`parse_sexpr_within`] of the whole text, but `TrailingTokens`.
pub fn read_next(
    alloc: Global,
    src: &[u8],
    max_depth: usize,
) -> Result<(SExpr, &[u8]), SExprParseError>
    ensures found { IfOk result (λ x. Spans src.now (brackets (plain x.0)) x.1.now) }
    ensures shallow { IfOk result (λ x. nesting (plain x.0) ≤ max_depth) }
    ensures shorter { IfOk result (λ x. length x.1.now < length src.now) }
    ensures refused { IfErr result (λ fault. IsRefused fault max_depth src.now) }
    ensures complete { IfErr result (λ fault.
        (e : Expression) (ts : List Token) → HasTokens src.now (brackets e ++ ts) →
        nesting e ≤ max_depth → fault ≡ Memory) }
{
    let mut lists: Vec<SExprs> = Vec::new(alloc);
    let mut rest = src;
    while !rest.is_empty() {
        match split_lexeme(alloc, rest) {
            Ok((lexeme, after)) => match step(alloc, &mut lists, lexeme, max_depth) {
                Ok(None) => rest = after,
                Ok(Some(whole)) => return Ok((whole, after)),
                Err(fault) => return Err(refused(alloc, after, fault)),
            },
            Err(fault) => return Err(fault),
        }
    }
    Err(SExprParseError::UnexpectedEnd)
}

// The one expression that a text holds.
fn read_one(alloc: Global, src: &[u8], max_depth: usize) -> Result<SExpr, SExprParseError>
    ensures found { IfOk result (λ e. IsReadWithin src.now max_depth (plain e)) }
    ensures refused { IfErr result (λ fault. IsRefused fault max_depth src.now) }
{
    match read_next(alloc, src, max_depth) {
        Ok((expression, rest)) => finish(alloc, rest, expression),
        Err(fault) => Err(fault),
    }
}

/// The one expression that a text holds (SMT-LIB 2.7, chapter 3, Lexicon and S-expressions), with at most `max_depth`
/// brackets open at a place.
///
/// White space is space, tab, LF, CR and form feed, and a comment goes from a semicolon to the end of its line. A literal
/// in base 2 or 16 has at most 128 bits, a numeral is below 2 to the 128 and may have leading zeros, and a symbol is the
/// longest run of other bytes up to white space, a bracket, a semicolon, a quote or `#`. In a string a byte from 128 up is
/// the character of that number, and an escape is the character of its code point (theory UnicodeStrings).
///
/// # Errors
///
/// The first fault of a token from the left: `UnexpectedEnd` at `#` without `b` or `x` and at a string without an end,
/// `ParseIntError` at a literal without digits and at a number from 2 to the 128 up, `IntegerOverflow` at a wider literal
/// of a smaller number, `Utf8Error` at a symbol and `StringParseError` at the escape of a surrogate. Where there is none in
/// the whole text, the first fault of brackets: `UnclosedSExpr`, `TooDeep`, `TrailingTokens`, or `UnexpectedEnd` where the
/// text ends before an expression does. `Memory`, where there is none left.
pub fn parse_sexpr_within(
    alloc: Global,
    src: &[u8],
    max_depth: usize,
) -> Result<SExpr, SExprParseError>
    ensures found { IfOk result (λ e. IsReadWithin src.now max_depth (plain e)) }
    ensures refused { IfErr result (λ fault. IsRefused fault max_depth src.now) }
    ensures complete { IfErr result
        (λ fault. (e : Expression) → IsReadWithin src.now max_depth e → fault ≡ Memory) }
{
    match read_one(alloc, src, max_depth) {
        Ok(expression) => Ok(expression),
        Err(fault) => Err(fault),
    }
}

/// As [`parse_sexpr_within`], however many brackets are open. No text opens more than it has bytes.
///
/// # Examples
///
/// ```
/// use kembura::expressions::{SExpr, parse_sexpr};
///
/// let read = parse_sexpr(alloc, b"(assert true)")?;
/// if let SExpr::App(items) = &read {
///     assert_eq!(rt; items.len(), 2);
/// }
/// ```
///
/// # Errors
///
/// As [`parse_sexpr_within`], but `TooDeep`.
pub fn parse_sexpr(alloc: Global, src: &[u8]) -> Result<SExpr, SExprParseError>
    ensures found { IfOk result (λ e. IsRead src.now (plain e)) }
    ensures refused { IfErr result (λ fault. IsRefused fault (length src.now) src.now) }
    ensures not_too_deep { IfErr result (λ fault. fault ≢ TooDeep) }
    ensures complete { IfErr result
        (λ fault. (e : Expression) → IsRead src.now e → fault ≡ Memory) }
{
    match read_one(alloc, src, src.len()) {
        Ok(expression) => Ok(expression),
        Err(fault) => Err(fault),
    }
}
