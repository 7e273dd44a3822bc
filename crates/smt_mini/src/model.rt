// The text of a model.
ghost use Rattle.std.specs.Prelude.{◌≡◌, ◌++◌, OnOk, map};
ghost use Rattle.std.specs.Rc.{rc_str_bytes};
ghost use Rattle.std.specs.String.{string_bytes};
ghost use Rattle.law_verdicts.specs.Machine as machine;
ghost use Rattle.law_texts.specs.SharedTexts.{GivesText};

use smt_text::Text;
use std::alloc::{AllocError, Global};

/// Appends the line of a constant.
fn push_line(text: &mut String, name: &Text, truth: bool) -> Result<(), AllocError>
    ensures { OnOk result (string_bytes text.new
        ≡ string_bytes text.old ++ machine.truth_line (rc_str_bytes name.now) truth) }
{
    text.push_str("  (define-fun ")?;
    text.push_str(name.as_str())?;
    text.push_str(" () Bool ")?;
    text.push_str(if truth { "true" } else { "false" })?;
    text.push_str(")\n")
}

/// Appends the lines of constants with their truths.
fn push_lines(text: &mut String, names: &[Text], truths: &[bool]) -> Result<(), AllocError>
    ensures { OnOk result (string_bytes text.new
        ≡ string_bytes text.old ++ machine.truth_lines (map rc_str_bytes names.now) truths.now) }
{
    let mut rest = names;
    let mut truths_left = truths;
    while let Some((name, more)) = rest.split_first() {
        let Some((truth, more_truths)) = truths_left.split_first() else {
            return Ok(());
        };
        push_line(text, name, *truth)?;
        rest = more;
        truths_left = more_truths;
    }
    Ok(())
}

/// A model that gives these constants these truths, as `get-model` is answered.
pub fn model_text(alloc: Global, names: &[Text], truths: &[bool]) -> Result<Text, AllocError>
    ensures { GivesText result (machine.model_text (map rc_str_bytes names.now) truths.now) }
{
    let mut text = String::from_str(alloc, "(\n")?;
    push_lines(&mut text, names, truths)?;
    text.push_str(")\n")?;
    Text::from_str(alloc, text.as_str())
}
