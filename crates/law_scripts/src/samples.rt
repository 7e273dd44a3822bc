ghost use Rattle.law_scripts.specs.LongRows.{LongSampleIsScript};
ghost use Rattle.law_scripts.specs.NoScripts.{NoCommands, NoScripts, WholeTexts};
ghost use Rattle.law_scripts.specs.SelectorRows.{EitherIsClosed, OpenSelectorRows};
ghost use Rattle.law_scripts.specs.SelectorRows.{PairSampleIsScript};
ghost use Rattle.law_scripts.specs.Rows.{BuiltInDeclaredIsNone, EnumSampleIsScript, EscapesDecode};
ghost use Rattle.law_scripts.specs.Rows.{LevelSampleIsScript, OperatorsGive};
ghost use Rattle.law_scripts.specs.Rows.{RecordSampleIsScript, SampleIsScript, SelectorsSampled};
ghost use Rattle.law_scripts.specs.Rows.{SortedSamples, TwiceDeclaredIsNone};
ghost use Rattle.law_scripts.specs.Rows.{UseBeforeDeclarationIsNone};

/// What is a script, and what is none.
pub fn scripts_and_none()
    ensures script { SampleIsScript }
    ensures enums { EnumSampleIsScript }
    ensures records { RecordSampleIsScript }
    ensures levels { LevelSampleIsScript }
    ensures sorted { SortedSamples }
    ensures operators { OperatorsGive }
    ensures selectors { SelectorsSampled }
    ensures built_in { BuiltInDeclaredIsNone }
    ensures used { UseBeforeDeclarationIsNone }
    ensures twice { TwiceDeclaredIsNone }
    ensures escapes { EscapesDecode }
{}

/// A long script is one, and well sorted.
pub fn long_sample()
    ensures { LongSampleIsScript }
{}

/// Which selectors are left open to an interpretation; a script with none of them has its models.
pub fn open_selectors()
    ensures pairs { PairSampleIsScript }
    ensures either { EitherIsClosed }
    ensures rows { OpenSelectorRows }
{}

/// Texts that are no scripts, each beside one that is, and texts that are whole.
pub fn no_scripts()
    ensures texts { NoScripts }
    ensures commands { NoCommands }
    ensures whole { WholeTexts }
{}
