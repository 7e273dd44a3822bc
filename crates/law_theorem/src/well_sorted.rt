//! Laws of the sorts, the definitions and the number of the commands of scripts, proved with no code.
ghost use Rattle.law_theorem.specs.SortedExample.{DoubleNegationIsWellWritten};
ghost use Rattle.law_theorem.specs.FlatScripts.{FittingStatesAreFlat};
ghost use Rattle.law_theorem.specs.SortedScripts.{FittingStatesAreSorted, SortsGoBack};
ghost use Rattle.law_theorem.specs.WellWritten.{CallsAreWellWritten, CallsKeepWellWritten};
ghost use Rattle.law_theorem.specs.WellWritten.{IdleLinesKeepWellWritten, TextsAreWellWritten};

/// Where a stage fits, all that is live is well sorted, and is defined once from the names and the inline texts of its parts.
pub fn states_are_well_written()
    ensures back { SortsGoBack }
    ensures sorted { FittingStatesAreSorted }
    ensures flat { FittingStatesAreFlat }
{}

/// The script of calls whose terms are conditions is well sorted, each command with the declarations that stand before it.
/// It defines each live term once and flat, and has no more commands than what the terms reach and the calls ask for.
pub fn calls_are_well_written()
    ensures texts { TextsAreWellWritten }
    ensures calls { CallsAreWellWritten }
    ensures kept { CallsKeepWellWritten }
    ensures idle { IdleLinesKeepWellWritten }
{}

/// The negation of a negation: its script, and small scripts that are well sorted or not, and flat or not.
pub fn double_negation_is_well_written()
    ensures { DoubleNegationIsWellWritten }
{}
