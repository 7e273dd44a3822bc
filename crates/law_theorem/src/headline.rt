ghost use Rattle.law_theorem.specs.Example.{NegationIsItsScript};
ghost use Rattle.law_theorem.specs.Stated.{ConditionsAreTheirScripts, StatedCallsFit};
ghost use Rattle.law_theorem.specs.TextValues.{ReachedHaveTexts, ScriptNamesLast};

/// In each script each name has what its command gives it.
pub fn names_last()
    ensures { ScriptNamesLast }
{}

/// In each interpretation, carried over, the text of all that the terms of a fitting stage reach has the carried value.
pub fn reached_have_texts()
    ensures { ReachedHaveTexts }
{}

/// The main theorem: the stated text of conditions is a script, with one assertion for each, and its models are exactly the
/// interpretations that make the conditions true, carried over by the one-to-one table of names.
pub fn conditions_are_their_scripts()
    ensures { ConditionsAreTheirScripts }
{}

/// The stated text of a list of calls fits what they leave.
pub fn stated_calls_fit()
    ensures { StatedCallsFit }
{}

/// The negation of one variable: its script, whose models give the variable the value false.
pub fn negation_is_its_script()
    ensures { NegationIsItsScript }
{}
