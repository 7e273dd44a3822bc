// Ids between quotes, on one line.
ghost use Rattle.std.specs.Prelude.{◌≡◌, ◌++◌, IfOk, OnOk, encode_utf8};
ghost use Rattle.std.specs.List.{flat_map};
ghost use Rattle.std.specs.String.{string_bytes};
ghost use Rattle.law_texts.specs.Quoting.{quoted_id, quoted_id_byte};

use std::alloc::{AllocError, Global};

/// Appends a character of an id: the quote, the backslash and the controls of ASCII by an escape.
fn push_escaped(quoted: &mut String, c: char) -> Result<(), AllocError>
    ensures { OnOk result (string_bytes quoted.new
        ≡ string_bytes quoted.old ++ flat_map quoted_id_byte (encode_utf8 c)) }
{
    match c {
        '\0' => quoted.push_str("\\0"),
        '\t' => quoted.push_str("\\t"),
        '\n' => quoted.push_str("\\n"),
        '\r' => quoted.push_str("\\r"),
        '"' => quoted.push_str("\\\""),
        '\\' => quoted.push_str("\\\\"),
        _ => {
            if c.is_ascii_control() {
                let code = u32::from(c);
                write!(quoted, "\\u{{{code:x}}}")
            } else {
                quoted.push(c)
            }
        }
    }
}

/// An id between quotes, on one line, as the comments of a script have it.
pub fn quote_id(alloc: Global, id: &str) -> Result<String, AllocError>
    ensures { IfOk result (λ quoted. string_bytes quoted ≡ quoted_id id.now) }
{
    let mut quoted = String::from_str(alloc, "\"")?;
    for c in id.chars() {
        push_escaped(&mut quoted, c)?;
    }
    quoted.push('"')?;
    Ok(quoted)
}
