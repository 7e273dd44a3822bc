ghost use Rattle.law_scripts.specs.Meanings.{ApplicationsHaveSorts, ConstructorsApply};
ghost use Rattle.law_scripts.specs.Meanings.{BareConstructorsHaveValues, DatatypesLeave};
ghost use Rattle.law_scripts.specs.Meanings.{ExtensionsApply, FunctionsApply, MatchesApply};
ghost use Rattle.law_scripts.specs.Meanings.{NonesHaveValues, OperatorsApply};
ghost use Rattle.law_scripts.specs.Meanings.{OperatorsAreFoundBySpelling, PopsGiveBack};
ghost use Rattle.law_scripts.specs.Meanings.{SelectorsApply, SetsHaveValues, StepsKeepLevels};
ghost use Rattle.law_scripts.specs.Meanings.{TestsApply};
ghost use Rattle.law_scripts.specs.ScriptOrder.{OrderIsTotal, PutsKeepSets, SameIsEqual};
ghost use Rattle.law_scripts.specs.Value.{FreeNamesDecide, NamesHaveValues, StepsKeepValues};

/// What a command leaves has the values of what was there before it, and a new name has its own.
pub fn commands_keep_values()
    ensures kept { StepsKeepValues }
    ensures named { NamesHaveValues }
    ensures free { FreeNamesDecide }
{}

/// The order of script values is total, and values of one place in it are one value.
pub fn script_values_are_ordered()
    ensures equal { SameIsEqual }
    ensures total { OrderIsTotal }
    ensures sets { PutsKeepSets }
{}

/// Operators and their names in scripts are one to one.
pub fn operators_are_found_by_spelling()
    ensures { OperatorsAreFoundBySpelling }
{}

/// What operators and declared names give where they are applied.
pub fn applications_have_values()
    ensures operators { OperatorsApply }
    ensures constructors { ConstructorsApply }
    ensures standing { BareConstructorsHaveValues }
    ensures functions { FunctionsApply }
    ensures selectors { SelectorsApply }
    ensures sorts { ApplicationsHaveSorts }
    ensures extensions { ExtensionsApply }
    ensures tests { TestsApply }
    ensures matching { MatchesApply }
    ensures nones { NonesHaveValues }
    ensures sets { SetsHaveValues }
{}

/// What a datatype leaves, and what a level.
pub fn datatypes_and_levels_leave()
    ensures datatypes { DatatypesLeave }
    ensures levels { PopsGiveBack }
    ensures within { StepsKeepLevels }
{}
