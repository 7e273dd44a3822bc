//! Laws of assignments, as interpretations and as models, of evaluation and of inputs, proved with no code.
ghost use Rattle.law_assignments.specs.Covered.{NothingMissingIsCovered};
ghost use Rattle.law_assignments.specs.Laws.{CoveredIsInterpretation, EachIsCovered};
ghost use Rattle.law_assignments.specs.Laws.{EvaluatedIsTheValue, OneLiteralHasTheValue};
ghost use Rattle.law_assignments.specs.Laws.{TrueInAllIsEvaluated, TruthIsEvaluated};
ghost use Rattle.law_assignments.specs.Laws.{TruthOfTheBuiltIsOfTheWritten};
ghost use Rattle.law_assignments.specs.Rows.{EvaluationRows, GivenIsSound, MissingRows};
ghost use Rattle.law_assignments.specs.Rows.{OthersAreNotSound};
ghost use Rattle.law_assignments.specs.Models.{HoldsMeansModel, RestrictionsAreInterpretations};
ghost use Rattle.law_assignments.specs.InputLaws.{InputsAreEvaluable, InputsAreNotRefused};
ghost use Rattle.law_assignments.specs.InputRows.{InputRows};

/// Nothing is missing exactly where the assignment gives all that the terms reach. Then it gives all that each of them reaches.
pub fn nothing_missing_is_covered()
    ensures covered { NothingMissingIsCovered }
    ensures each { EachIsCovered }
{}

/// To what a sound assignment evaluates a term whose reach it covers, is a literal of the term's type, and has in every
/// interpretation the value that the term has in the assignment's. No other literal of the type has.
pub fn evaluated_is_the_value()
    ensures evaluated { EvaluatedIsTheValue }
    ensures one { OneLiteralHasTheValue }
{}

/// Boolean terms evaluate to their truth, so all to true exactly where the assignment's interpretation makes all of them true.
/// Where it does so with what is built for terms, each interpretation of the terms that agrees with it makes these true.
pub fn truth_is_evaluated()
    ensures term { TruthIsEvaluated }
    ensures all { TrueInAllIsEvaluated }
    ensures written { TruthOfTheBuiltIsOfTheWritten }
{}

/// A sound assignment that covers what terms reach gives an interpretation of them.
pub fn covered_is_interpretation()
    ensures { CoveredIsInterpretation }
{}

/// What chosen terms evaluate to, what chosen assignments lack, and which of them are sound.
pub fn assignment_rows()
    ensures evaluation { EvaluationRows }
    ensures missing { MissingRows }
    ensures sound { GivenIsSound }
    ensures others { OthersAreNotSound }
{}

/// Terms all evaluate to true exactly where what they reach of the assignment is, carried over, a model of their script.
pub fn holds_means_model()
    ensures restricted { RestrictionsAreInterpretations }
    ensures model { HoldsMeansModel }
{}

/// The terms that are built of an input's job are Booleans, and its assignment is sound and gives all that they reach.
pub fn inputs_are_evaluable()
    ensures { InputsAreEvaluable }
{}

/// Bytes are one input at most, and an input has no fault.
pub fn inputs_are_not_refused()
    ensures { InputsAreNotRefused }
{}

/// What chosen inputs state, and the first faults of others.
pub fn input_rows()
    ensures { InputRows }
{}
