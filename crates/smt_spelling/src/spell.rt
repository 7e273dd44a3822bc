// The texts of names, sorts, literals, ids and applications.
ghost use Rattle.std.specs.Prelude.{◌≡◌, ◌++◌, ◌∷◌, List, IfOk, codes, decimal};
ghost use Rattle.std.specs.List.{join_by};
ghost use Rattle.std.specs.Cow.{cow_str_bytes};
ghost use Rattle.std.specs.Rc.{rc_str_bytes};
ghost use Rattle.std.specs.String.{string_bytes};
ghost use Rattle.smt_bits.specs.BitVec.{number_of, width_of};
ghost use Rattle.smt_bits.specs.Width.{bits_in};
ghost use Rattle.smt_spelling.specs.Spelled.{AreSpelled};
ghost use Rattle.smt_spelling.specs.TextFaults.{text_fault, Finds};
ghost use Rattle.law_scripts.specs.Meanings.{as_sort};
ghost use Rattle.law_scripts.specs.Script.{group, name};
ghost use Rattle.law_scripts.specs.Sorts as sorts;
ghost use Rattle.law_texts.specs.Reading.{Expression};
ghost use Rattle.law_terms.specs.Faults.{EncodeStringFailed, fault_unless, is_string};
ghost use Rattle.law_lines.specs.Lines as lines;
ghost use Rattle.law_lines.specs.LineForms.{operator_head, set_body};
ghost use Rattle.law_lines.specs.TermTexts.{string_text};
ghost use Rattle.law_lines.specs.Spelling.{spelled};
ghost use Rattle.law_scripts.specs.Sorts.{bit_sort};
ghost use Rattle.law_terms.specs.Plain.{ZeroExtendOp};
ghost use Rattle.smt_term.specs.View.{plain_op};
ghost use Rattle.law_texts.specs.SharedTexts.{GivesText, texts};

use crate::error::TextError;
use crate::extension::extension_head;
use crate::pieces::{concat, spaced_len};
use itoa::Buffer;
use smt_bits::{BitVec, Width};
use smt_term::{Op, Text};
use smt_text::{push_spaced, quote_string};
use std::alloc::{AllocError, Global};
use std::borrow::CowStr;

/// `tm`, the name of the entry at place `place` of the table of terms.
pub(crate) fn term_name(alloc: Global, place: usize) -> Result<Text, AllocError>
    ensures { GivesText result (codes "t" ++ decimal place) }
{
    numbered_name(alloc, "t", place)
}

/// `Ek`, the name of the datatype of an entity type, where k named sorts are there already.
pub(crate) fn entity_name(alloc: Global, place: usize) -> Result<Text, AllocError>
    ensures { GivesText result (codes "E" ++ decimal place) }
{
    numbered_name(alloc, "E", place)
}

/// `Rk`, the name of the datatype of a record type, where k named sorts are there already.
pub(crate) fn record_name(alloc: Global, place: usize) -> Result<Text, AllocError>
    ensures { GivesText result (codes "R" ++ decimal place) }
{
    numbered_name(alloc, "R", place)
}

/// `fj`, the name of a function, where j functions are there already.
pub(crate) fn function_name(alloc: Global, place: usize) -> Result<Text, AllocError>
    ensures { GivesText result (codes "f" ++ decimal place) }
{
    numbered_name(alloc, "f", place)
}

/// A word and a number behind it.
fn numbered_name(alloc: Global, word: &str, number: usize) -> Result<Text, AllocError>
    ensures { GivesText result (word.now ++ decimal number) }
{
    let mut buffer = Buffer::new();
    let digits = buffer.format(number);
    let mut name = String::with_capacity(alloc, word.len().saturating_add(digits.len()))?;
    name.push_str(word)?;
    name.push_str(digits)?;
    Text::from_string(name)
}

/// `(_ BitVec n)`, the sort of bitvectors of a width (FixedSizeBitVectors).
pub(crate) fn bits_sort(alloc: Global, width: Width) -> Result<Text, AllocError>
    ensures { GivesText result (spelled (bit_sort (bits_in width))) }
{
    let mut digits = Buffer::new();
    let width = digits.format(width.get());
    Text::from_string(concat(alloc, &["(_ BitVec ", width, ")"])?)
}

/// `(_ bvN n)`, the literal of the number N of width n (the abbreviation of the logic QF_BV).
pub(crate) fn bits_literal(alloc: Global, bits: &BitVec) -> Result<Text, AllocError>
    ensures { GivesText result (spelled (lines.bits (width_of bits.now) (number_of bits.now))) }
{
    let mut number_digits = Buffer::new();
    let number = number_digits.format(bits.to_nat());
    let mut width_digits = Buffer::new();
    let width = width_digits.format(bits.width().get());
    Text::from_string(concat(alloc, &["(_ bv", number, " ", width, ")"])?)
}

/// `(Option S)`, the sort of options of a sort.
pub(crate) fn option_sort(alloc: Global, inner: Text) -> Result<Text, AllocError>
    ensures { (e : Expression) → rc_str_bytes inner ≡ spelled e →
        GivesText result (spelled (sorts.option_sort e)) }
{
    Text::from_string(application_text(alloc, "Option", &[inner])?)
}

/// `(Set S)`, the sort of sets of a sort.
pub(crate) fn set_sort(alloc: Global, inner: Text) -> Result<Text, AllocError>
    ensures { (e : Expression) → rc_str_bytes inner ≡ spelled e →
        GivesText result (spelled (sorts.set_sort e)) }
{
    Text::from_string(application_text(alloc, "Set", &[inner])?)
}

/// A string between quotes (UnicodeStrings), or its refusal where a character is above `SMT_LIB_MAX_CODE_POINT`.
pub(crate) fn string_literal(alloc: Global, text: &Text) -> Result<Text, TextError>
    ensures text { GivesText result (spelled (string_text (rc_str_bytes text.now))) }
    ensures fault { Finds text_fault
        (fault_unless (is_string (rc_str_bytes text.now))
        (EncodeStringFailed (rc_str_bytes text.now)))
        result }
{
    match quote_string(alloc, text.as_str())? {
        Some(literal) => Ok(literal),
        None => Err(TextError::StringFailed(text.clone()?)),
    }
}

/// `(as WORD S)`: the constant of this name that has this sort.
pub(crate) fn as_text(alloc: Global, word: &str, sort: &str) -> Result<String, AllocError>
    ensures { (e : Expression) → sort.now ≡ spelled e →
        IfOk result (λ text. string_bytes text ≡ spelled (as_sort word.now e)) }
{
    concat(alloc, &["(as ", word, " ", sort, ")"])
}

/// `(some x)`.
pub(crate) fn some_text(alloc: Global, operands: &[Text]) -> Result<String, AllocError>
    ensures { (es : List Expression) → AreSpelled es operands.now →
        IfOk result (λ text. string_bytes text ≡ spelled (group (name (codes "some") ∷ es))) }
{
    application_text(alloc, "some", operands)
}

/// `(f x)`: a function at its arguments.
pub fn call_text(alloc: Global, function: &str, operands: &[Text]) -> Result<String, AllocError>
    ensures { (f : Expression) (es : List Expression) → function.now ≡ spelled f →
        AreSpelled es operands.now →
        IfOk result (λ text. string_bytes text ≡ spelled (group (f ∷ es))) }
{
    application_text(alloc, function, operands)
}

/// `(set.insert x y (as set.empty S))`: a set of this sort by its elements, `(as set.empty S)` where there is none.
pub fn set_text(alloc: Global, sort: &str, mut elements: Vec<Text>) -> Result<String, AllocError>
    ensures { (e : Expression) (es : List Expression) → sort.now ≡ spelled e →
        AreSpelled es elements.items →
        IfOk result (λ text. string_bytes text ≡ spelled (set_body e es)) }
{
    let empty = as_text(alloc, "set.empty", sort)?;
    if elements.is_empty() {
        return Ok(empty);
    }
    elements.push(Text::from_string(empty)?)?;
    application_text(alloc, "set.insert", elements.as_slice())
}

/// What stands before the operands of an application.
pub(crate) fn head_text(alloc: Global, op: &Op) -> Result<CowStr<'static>, AllocError>
    ensures { IfOk result (λ head. cow_str_bytes head ≡ spelled (operator_head (plain_op op.now))) }
{
    match op {
        Op::Eq => Ok(CowStr::Borrowed("=")),
        Op::Ext(op) => Ok(CowStr::Borrowed(extension_head(*op))),
        Op::OptionGet => Ok(CowStr::Borrowed("val")),
        Op::StringLike(_) => Ok(CowStr::Borrowed("str.in_re")),
        Op::ZeroExtend(bits) => Ok(CowStr::Owned(zero_extension(alloc, *bits)?)),
        _ => Ok(CowStr::Borrowed(op.mk_name())),
    }
}

/// `(_ zero_extend k)` (QF_BV).
fn zero_extension(alloc: Global, bits: u32) -> Result<String, AllocError>
    ensures { IfOk result
        (λ head. string_bytes head ≡ spelled (operator_head (ZeroExtendOp bits))) }
{
    let mut digits = Buffer::new();
    concat(alloc, &["(_ zero_extend ", digits.format(bits), ")"])
}

/// `(HEAD x y)`: the operands behind the head, with a space between each two. The space behind the head stays
/// where there is no operand.
pub(crate) fn application_text(
    alloc: Global,
    head: &str,
    operands: &[Text],
) -> Result<String, AllocError>
    ensures { IfOk result (λ text.
        string_bytes text
        ≡ codes "("
        ++ (head.now
        ++ (codes " " ++ (join_by (λ x. x) (codes " ") (texts operands.now) ++ codes ")")))) }
{
    let inner = head.len().saturating_add(spaced_len(operands));
    let mut text = String::with_capacity(alloc, inner.saturating_add("( )".len()))?;
    text.push('(')?;
    text.push_str(head)?;
    text.push(' ')?;
    push_spaced(&mut text, operands)?;
    text.push(')')?;
    Ok(text)
}
