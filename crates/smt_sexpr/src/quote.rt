//! The text between quotes, as a script has it.
#![tactic(auto)]

ghost use Rattle.std.specs.Prelude.{◌≡◌, IfOk, IfErr, IfSome, is_some};
ghost use Rattle.std.specs.List.{list_all};
ghost use Rattle.std.specs.Rc.{rc_str_bytes};
ghost use Rattle.std.specs.Str.{chars};
ghost use Rattle.law_texts.specs.Characters.{is_code_point};
ghost use Rattle.law_texts.specs.Quoting.{quoted};

use crate::error::SExprParseError;
use smt_text::Text;
use std::alloc::Global;

/// The text between quotes, as a script has it (SMT-LIB 2.7, theory UnicodeStrings), or `None` where a character is above
/// 196607: no string of that theory holds one.
///
/// The characters 32 to 126 stand as themselves, but the quote is written twice and the backslash is `\u{5c}`. Each
/// other is `\u{h}`, in lower-case hexadecimal without leading zeros. What it gives is read as one string, that of `s`
/// (`laws::quoted_texts_are_read`).
///
/// # Errors
///
/// `Memory`, where there is none left.
pub fn quote_string(alloc: Global, s: &str) -> Result<Option<Text>, SExprParseError>
    ensures found { IfOk result (λ o. IfSome o (λ text. rc_str_bytes text ≡ quoted (chars s.now))) }
    ensures some { IfOk result (λ o. is_some o ≡ list_all is_code_point (chars s.now)) }
    ensures error { IfErr result (λ e. e ≡ SExprParseError.Memory) }
{
    Ok(smt_text::quote_string(alloc, s)?)
}
