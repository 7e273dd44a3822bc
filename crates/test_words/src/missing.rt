//! Texts that may be missing.
ghost use Rattle.std.specs.Option.{option_map_or};
ghost use Rattle.std.specs.Prelude.{◌≡◌, IfOk};
ghost use Rattle.std.specs.Rc.{rc_str_bytes};
ghost use Rattle.std.specs.String.{string_bytes};

use anyhow::Result;
use smt_term::Text;
use std::alloc::Global;

/// A text as it is, or other words where there is none.
pub fn text_or(alloc: Global, text: Option<&Text>, missing: &str) -> Result<String>
    ensures { IfOk result (λ line.
        string_bytes line
        ≡ option_map_or (λ found. rc_str_bytes found.now) text.entry missing.now) }
{
    let line = match text {
        Some(found) => found.as_str(),
        None => missing,
    };
    Ok(String::from_str(alloc, line)?)
}
