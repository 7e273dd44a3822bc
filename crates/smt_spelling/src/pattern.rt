// The texts of patterns, as regular expressions of the theory UnicodeStrings.
ghost use Rattle.std.specs.Prelude.{◌≡◌, List, [], ◌∷◌, codes, IfOk, IfSome, is_some, map};
ghost use Rattle.std.specs.Rc.{rc_str_bytes};
ghost use Rattle.smt_spelling.specs.Spelled.{AreSpelled};
ghost use Rattle.smt_spelling.specs.TextFaults.{text_fault, Finds};
ghost use Rattle.law_lines.specs.Spelling.{spelled};
ghost use Rattle.law_scripts.specs.WrittenStrings.{part_expr, pattern_expr};
ghost use Rattle.law_scripts.specs.Script.{group, name};
ghost use Rattle.law_texts.specs.Reading.{Expression};
ghost use Rattle.law_terms.specs.Faults.{EncodePatternFailed, fault_unless, is_pattern_part};
ghost use Rattle.smt_term.specs.PatternView.{plain_ord_pattern, plain_part};
ghost use Rattle.law_terms.specs.Plain.{Character, PatternPart};
ghost use Rattle.std.specs.List.{list_all};
ghost use Rattle.law_texts.specs.SharedTexts.{GivesText};

use crate::error::TextError;
use crate::spell::application_text;
use smt_term::{OrdPattern, PatternElem, Text};
use smt_text::quote_string;
use std::alloc::{AllocError, Global};

/// The regular expression of a pattern, or its refusal where a character is above `SMT_LIB_MAX_CODE_POINT`.
pub(crate) fn pattern_text(alloc: Global, pattern: &OrdPattern) -> Result<Text, TextError>
    ensures text { GivesText result (spelled (pattern_expr (plain_ord_pattern pattern.now))) }
    ensures fault { Finds text_fault
        (fault_unless (list_all is_pattern_part (plain_ord_pattern pattern.now))
        (EncodePatternFailed (plain_ord_pattern pattern.now)))
        result }
{
    match part_texts(alloc, pattern.get_elems())? {
        Some(parts) => Ok(joined_text(alloc, parts.as_slice())?),
        None => Err(TextError::PatternFailed(pattern.share()?)),
    }
}

/// The texts of a pattern's elements, in order. None where there is one that no string can have.
fn part_texts(alloc: Global, elems: &[PatternElem]) -> Result<Option<Vec<Text>>, AllocError>
    ensures text { IfOk result (λ found.
        IfSome found (λ texts. AreSpelled (map part_expr (map plain_part elems.now)) texts.items)) }
    ensures some { IfOk result
        (λ found. is_some found ≡ list_all is_pattern_part (map plain_part elems.now)) }
{
    let mut parts = Vec::new(alloc);
    for elem in elems {
        match part_text(alloc, *elem)? {
            Some(part) => parts.push(part)?,
            None => return Ok(None),
        }
    }
    Ok(Some(parts))
}

/// `(re.* re.allchar)` of the wildcard, `(str.to_re "c")` of a character. None of one that no string can have.
fn part_text(alloc: Global, elem: PatternElem) -> Result<Option<Text>, AllocError>
    ensures text { IfOk result (λ found.
        IfSome found (λ text. rc_str_bytes text ≡ spelled (part_expr (plain_part elem)))) }
    ensures some { IfOk result (λ found. is_some found ≡ is_pattern_part (plain_part elem)) }
{
    match elem {
        PatternElem::Char(c) => character_text(alloc, c),
        PatternElem::Wildcard => Ok(Some(Text::from_str(alloc, "(re.* re.allchar)")?)),
    }
}

/// `(str.to_re "c")`.
fn character_text(alloc: Global, c: char) -> Result<Option<Text>, AllocError>
    ensures text { IfOk result
        (λ found. IfSome found (λ text. rc_str_bytes text ≡ spelled (part_expr (Character c)))) }
    ensures some { IfOk result (λ found. is_some found ≡ is_pattern_part (Character c)) }
{
    let mut alone = String::new(alloc);
    alone.push(c)?;
    match quote_string(alloc, alone.as_str())? {
        Some(quoted) => Ok(Some(to_re_text(alloc, quoted)?)),
        None => Ok(None),
    }
}

/// `(str.to_re x)`.
fn to_re_text(alloc: Global, operand: Text) -> Result<Text, AllocError>
    ensures { (e : Expression) → rc_str_bytes operand ≡ spelled e →
        GivesText result (spelled (group (name (codes "str.to_re") ∷ e ∷ []))) }
{
    Text::from_string(application_text(alloc, "str.to_re", &[operand])?)
}

/// The regular expression of some parts by their texts: of none the empty text, of one that one alone.
fn joined_text(alloc: Global, parts: &[Text]) -> Result<Text, AllocError>
    ensures { (ps : List PatternPart) → AreSpelled (map part_expr ps) parts.now →
        GivesText result (spelled (pattern_expr ps)) }
{
    match parts {
        [] => Text::from_str(alloc, "(str.to_re \"\")"),
        [alone] => alone.clone(),
        _ => Text::from_string(application_text(alloc, "re.++", parts)?),
    }
}
