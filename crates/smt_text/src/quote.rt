// Texts between quotes, as the strings of a script.
ghost use Rattle.std.specs.Prelude.{◌≡◌, ◌++◌, IfOk, IfSome, OnOk, is_some};
ghost use Rattle.std.specs.List.{list_all};
ghost use Rattle.std.specs.Rc.{rc_str_bytes};
ghost use Rattle.std.specs.Str.{chars};
ghost use Rattle.std.specs.String.{string_bytes};
ghost use Rattle.law_texts.specs.Characters.{is_code_point};
ghost use Rattle.law_texts.specs.Quoting.{quoted, quoted_character};

use crate::text::Text;
use std::alloc::{AllocError, Global};

/// The greatest code point of a character in a string of SMT-LIB 2.7 (theory UnicodeStrings).
pub const SMT_LIB_MAX_CODE_POINT: u32 = 0x2ffff;

/// Whether a string of SMT-LIB may hold each character.
fn is_string(s: &str) -> bool
    ensures { result ≡ list_all is_code_point (chars s.now) }
{
    s.chars().all(|c| u32::from(c) <= SMT_LIB_MAX_CODE_POINT)
}

/// Appends a character as it stands between quotes.
fn push_quoted(text: &mut String, c: char) -> Result<(), AllocError>
    ensures { OnOk result (string_bytes text.new ≡ string_bytes text.old ++ quoted_character c) }
{
    match c {
        '"' => text.push_str("\"\""),
        '\\' => text.push_str("\\u{5c}"),
        ' '..='~' => text.push(c),
        _ => {
            let code = u32::from(c);
            write!(text, "\\u{{{code:x}}}")
        }
    }
}

/// The characters between two quotes.
fn quoted_text(alloc: Global, s: &str) -> Result<String, AllocError>
    ensures { IfOk result (λ text. string_bytes text ≡ quoted (chars s.now)) }
{
    let mut text = String::from_str(alloc, "\"")?;
    for c in s.chars() {
        push_quoted(&mut text, c)?;
    }
    text.push('"')?;
    Ok(text)
}

/// The text between quotes, as a script has it (SMT-LIB 2.7, theory UnicodeStrings), or `None` where a character is above
/// 196607: no string of that theory holds one.
///
/// The characters 32 to 126 stand as themselves, but the quote is written twice and the backslash is `\u{5c}`. Each
/// other is `\u{h}`, in lower-case hexadecimal without leading zeros.
pub fn quote_string(alloc: Global, s: &str) -> Result<Option<Text>, AllocError>
    ensures found { IfOk result (λ o. IfSome o (λ text. rc_str_bytes text ≡ quoted (chars s.now))) }
    ensures some { IfOk result (λ o. is_some o ≡ list_all is_code_point (chars s.now)) }
{
    if !is_string(s) {
        return Ok(None);
    }
    let text = quoted_text(alloc, s)?;
    Ok(Some(Text::from_string(text)?))
}
