ghost use Rattle.law_theorem.specs.Fits.{CallListsKeepFit, CallsKeepFit, CommentsKeepFit};
ghost use Rattle.law_theorem.specs.Fits.{DrawnNamesDiffer, EmptyTextFits};
ghost use Rattle.law_theorem.specs.Fits.{FittingTextsRepresent, IdleLinesKeepFit, KeysAreSound};
ghost use Rattle.law_theorem.specs.Fits.{TheseAreIdle};
ghost use Rattle.law_theorem.specs.Sessions.{FittingTextsAreScripts, SessionsKeepFit};
ghost use Rattle.law_theorem.specs.FittingStates.{OptionIsDeclared, AssertionsSelectNothing};
ghost use Rattle.law_theorem.specs.FittingStates.{FittingStagesDeclare};
ghost use Rattle.law_theorem.specs.FittingStates.{InterpretationsGiveNames, NamesAreOpen};
ghost use Rattle.law_theorem.specs.FittingStates.{ReachedIsDeclared, ReachedAreOpen, TermsAreNamed};
ghost use Rattle.law_theorem.specs.FittingStates.{NamedTypesAreDeclared};

/// The law behind the main theorem: wherever a script, the terms that are encoded in it and their names fit, its state
/// represents the terms.
pub fn fitting_texts_represent()
    ensures { FittingTextsRepresent }
{}

/// The empty text fits stages without names and terms, and each stated call keeps this.
pub fn calls_keep_fit()
    ensures empty { EmptyTextFits }
    ensures one { CallsKeepFit }
    ensures all { CallListsKeepFit }
{}

/// A line that declares and asserts nothing keeps it, such as `(set-logic ALL)` or `(check-sat)`, and so does a comment.
pub fn idle_lines_keep_fit()
    ensures commands { IdleLinesKeepFit }
    ensures these { TheseAreIdle }
    ensures comments { CommentsKeepFit }
{}

/// What goes to a solver in one session keeps it: calls, and between them lines that change nothing.
pub fn sessions_keep_fit()
    ensures { SessionsKeepFit }
{}

/// Wherever a text fits, the main theorem holds of it, for the names that live and the terms of all levels.
pub fn fitting_texts_are_scripts()
    ensures { FittingTextsAreScripts }
{}

/// What has an entry is typed and has no fault.
pub fn keys_are_sound()
    ensures { KeysAreSound }
{}

/// Names that are drawn by the places of their entries differ.
pub fn drawn_names_differ()
    ensures { DrawnNamesDiffer }
{}

/// The datatype `Option` is declared, and no datatype has the name of a sort that is built in.
pub fn option_is_declared()
    ensures { OptionIsDeclared }
{}

/// Each type whose parts have names is declared, and nothing else builds its values.
pub fn named_types_are_declared()
    ensures { NamedTypesAreDeclared }
{}

/// What encodable terms that have texts reach is named.
pub fn terms_are_named()
    ensures { TermsAreNamed }
{}

/// A state that fits the names of encodable terms declares what they reach.
pub fn reached_is_declared()
    ensures { ReachedIsDeclared }
{}

/// Each variable and function that is reached is declared with its sort, and has no body.
pub fn reached_are_open()
    ensures { ReachedAreOpen }
{}

/// What is declared without a body is a variable or a function that is reached.
pub fn names_are_open()
    ensures { NamesAreOpen }
{}

/// Where a stage fits, its state declares what carrying asks for, and its free names are those that are reached.
pub fn fitting_stages_declare()
    ensures { FittingStagesDeclare }
{}

/// An assertion applies no selector.
pub fn assertions_select_nothing()
    ensures { AssertionsSelectNothing }
{}

/// An interpretation of the script gives what is reached values and tables of their sorts.
pub fn interpretations_give_names()
    ensures { InterpretationsGiveNames }
{}
