// The texts of literals.
ghost use Rattle.std.specs.Prelude.{◌≡◌, IfOk, is_some};
ghost use Rattle.smt_spelling.specs.Entries.{string_fault, SaysInline};
ghost use Rattle.law_lines.specs.TermTexts.{inline_text};
ghost use Rattle.smt_spelling.specs.TextFaults.{text_fault, Finds};
ghost use Rattle.smt_term.specs.View.{plain_literal};

use crate::error::TextError;
use crate::spell::{bits_literal, string_literal};
use smt_term::{TermPrim, Text};
use std::alloc::Global;

/// The text of a literal, which stands wherever it is used, or its refusal. None of an entity and of
/// an extension value, which get a name.
pub(crate) fn literal_text(alloc: Global, literal: &TermPrim) -> Result<Option<Text>, TextError>
    ensures text { IfOk result (SaysInline (inline_text (plain_literal literal.now))) }
    ensures fault { Finds text_fault (string_fault (plain_literal literal.now)) result }
{
    match literal {
        TermPrim::Bitvec(bits) => Ok(Some(bits_literal(alloc, bits)?)),
        TermPrim::Bool(truth) => {
            let text = if *truth { "true" } else { "false" };
            Ok(Some(Text::from_str(alloc, text)?))
        }
        TermPrim::Entity(_) | TermPrim::Ext(_) => Ok(None),
        TermPrim::String(text) => Ok(Some(string_literal(alloc, text)?)),
    }
}
