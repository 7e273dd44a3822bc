// Shared texts, and texts with a space between each two.
ghost use Rattle.std.specs.Prelude.{◌≡◌, ◌++◌, OnOk};
ghost use Rattle.std.specs.Rc.{rc_str_bytes};
ghost use Rattle.std.specs.String.{string_bytes};
ghost use Rattle.law_texts.specs.LineTexts.{spaced};
ghost use Rattle.law_texts.specs.SharedTexts.{GivesText, texts};

use std::alloc::AllocError;
use std::rc::RcStr;

/// A text in UTF-8 that its holders share.
///
/// # Examples
///
/// ```
/// use kembura::Text;
///
/// let id = Text::from_str(alloc, "context.hour")?;
/// assert_eq!(rt; id.as_str(), "context.hour");
/// ```
pub type Text = RcStr;

/// A text that shares the bytes of `text`.
///
/// # Examples
///
/// ```
/// use kembura::Text;
/// use kembura::texts::share_text;
///
/// let id = Text::from_str(alloc, "context.hour")?;
/// let shared = share_text(&id)?;
/// assert_eq!(rt; shared, id);
/// ```
pub fn share_text(text: &Text) -> Result<Text, AllocError>
    ensures { GivesText result (rc_str_bytes text.now) }
{
    Ok(text.clone()?)
}

/// Appends texts with a space between each two.
pub fn push_spaced(text: &mut String, pieces: &[Text]) -> Result<(), AllocError>
    ensures { OnOk result
        (string_bytes text.new ≡ string_bytes text.old ++ spaced (texts pieces.now)) }
{
    let mut gap = "";
    for piece in pieces {
        text.push_str(gap)?;
        text.push_str(piece.as_str())?;
        gap = " ";
    }
    Ok(())
}
