ghost use Rattle.law_theorem.specs.Selections.{InterpretationsGiveReached, SelectorsAreOpen};
ghost use Rattle.law_theorem.specs.Selections.{TheseAreSelected};

/// The text of conditions leaves nothing to an interpretation but what they reach.
pub fn selectors_are_open()
    ensures { SelectorsAreOpen }
{}

/// An interpretation of that text gives what the conditions reach values and tables of their sorts.
pub fn interpretations_give_reached()
    ensures { InterpretationsGiveReached }
{}

/// Texts that leave a selector open.
pub fn these_are_selected()
    ensures { TheseAreSelected }
{}
