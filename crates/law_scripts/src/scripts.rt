ghost use Rattle.law_scripts.specs.DeclarationLines.{ConstantsExtend, DatatypesDeclare};
ghost use Rattle.law_scripts.specs.DeclarationLines.{DatatypesExtend, FunctionsExtend};
ghost use Rattle.law_scripts.specs.Numerals.{NumberedNames, NumeralsArePrinted, NumeralsDiffer};
ghost use Rattle.law_scripts.specs.WrittenStrings.{PatternsWrite, TextsWrite};
ghost use Rattle.law_scripts.specs.CommandLines.{BitSortsWrite, BitsHaveValues, BitsWrite};
ghost use Rattle.law_scripts.specs.CommandLines.{CommandsExtend, DatatypeLine, DeclareFunLine};
ghost use Rattle.law_scripts.specs.CommandLines.{GroupsWrite, PlainLines, SelectorsWrite};
ghost use Rattle.law_scripts.specs.CommandLines.{SetLogicLine, SetOptionLine, SortedCommentsAdd};
ghost use Rattle.law_scripts.specs.CommandLines.{SortedLinesAdd};
ghost use Rattle.law_scripts.specs.Written.{AppliedText, AssertLine, AssertionsExtend};
ghost use Rattle.law_scripts.specs.Written.{BracketsWrite, CommandsAreLines, CommentsAdd};
ghost use Rattle.law_scripts.specs.Written.{CommentsAreLines, CommentsExtend, DeclareConstLine};
ghost use Rattle.law_scripts.specs.Written.{DefineFunLine, DefinitionsExtend, LinesAdd};
ghost use Rattle.law_scripts.specs.Written.{NamesWrite, NumeralsWrite, OneState, OptionLines};
ghost use Rattle.law_scripts.specs.Written.{OpenScriptsAreWhole, StringsWrite};

/// A script comes to one state.
pub fn one_state()
    ensures { OneState }
{}

/// A line behind a whole script adds its command, and nothing else.
pub fn lines_add()
    ensures { LinesAdd }
{}

/// A comment behind a whole script adds nothing.
pub fn comments_add()
    ensures { CommentsAdd }
{}

/// What is written between brackets is read as a list of what each item writes.
pub fn what_is_written_is_read()
    ensures names { NamesWrite }
    ensures strings { StringsWrite }
    ensures numerals { NumeralsWrite }
    ensures brackets { BracketsWrite }
    ensures commands { CommandsAreLines }
    ensures comments { CommentsAreLines }
{}

/// The lines of the first commands.
pub fn first_lines_are_lines()
    ensures declare_const { DeclareConstLine }
    ensures define_fun { DefineFunLine }
    ensures assert { AssertLine }
    ensures applied { AppliedText }
    ensures option { OptionLines }
{}

/// Names made of a letter and a number are names, and differ, as numbers do.
pub fn numbered_names_differ()
    ensures numerals { NumeralsDiffer }
    ensures printed { NumeralsArePrinted }
    ensures names { NumberedNames }
{}

/// A line at the end of an open script leaves an open script.
pub fn lines_extend()
    ensures whole { OpenScriptsAreWhole }
    ensures definition { DefinitionsExtend }
    ensures assertion { AssertionsExtend }
    ensures comment { CommentsExtend }
{}

/// The texts of literals and applications, and the lines of the other commands.
pub fn texts_are_read()
    ensures groups { GroupsWrite }
    ensures bits { BitsWrite }
    ensures bit_sorts { BitSortsWrite }
    ensures bit_values { BitsHaveValues }
    ensures datatype { DatatypeLine }
    ensures selectors { SelectorsWrite }
    ensures declare_fun { DeclareFunLine }
    ensures set_logic { SetLogicLine }
    ensures set_option { SetOptionLine }
    ensures plain { PlainLines }
    ensures extends { CommandsExtend }
    ensures sorted_lines { SortedLinesAdd }
    ensures sorted_comments { SortedCommentsAdd }
{}

/// What is written of code points is read as these.
pub fn quoted_texts_are_read()
    ensures texts { TextsWrite }
    ensures patterns { PatternsWrite }
{}

/// What the lines of declarations leave of an open script.
pub fn declarations_extend()
    ensures constants { ConstantsExtend }
    ensures functions { FunctionsExtend }
    ensures datatypes { DatatypesExtend }
    ensures declared { DatatypesDeclare }
{}
