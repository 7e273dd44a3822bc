// The names of new variables.
ghost use Rattle.std.specs.Prelude.{◌≡◌};
ghost use Rattle.law_blasting.specs.Blasted as blasted;
ghost use Rattle.law_texts.specs.SharedTexts.{GivesText};

use smt_term::Text;
use std::alloc::{AllocError, Global};

/// `vk`, the name of the new variable that stands for the Boolean variable of number k.
pub(crate) fn variable_name(alloc: Global, number: usize) -> Result<Text, AllocError>
    ensures { GivesText result (blasted.variable_name number) }
{
    Text::from_string(format!(in alloc; "v{number}")?)
}

/// `vk_i`, the name of the new variable that stands for a bit of the variable of number k, the lowest being 0.
pub(crate) fn bit_name(alloc: Global, number: usize, place: u32) -> Result<Text, AllocError>
    ensures { GivesText result (blasted.bit_name number place) }
{
    Text::from_string(format!(in alloc; "v{number}_{place}")?)
}
