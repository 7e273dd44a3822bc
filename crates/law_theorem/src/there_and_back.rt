ghost use Rattle.law_theorem.specs.CarriedInterpretations.{BackIsInterpretation};
ghost use Rattle.law_theorem.specs.CarriedInterpretations.{CarriedInterpretationsHaveSorts};
ghost use Rattle.law_theorem.specs.CarriedInterpretations.{CarryingBackAgrees};
ghost use Rattle.law_theorem.specs.CarriedInterpretations.{InterpretationsComeBack};
ghost use Rattle.law_theorem.specs.Open.{GivenNamesInterpret, NamesAgree};

/// A carried interpretation gives each name a value or a table of its sort.
pub fn carried_interpretations_have_sorts()
    ensures { CarriedInterpretationsHaveSorts }
{}

/// What comes back of a script's interpretation is an interpretation of the terms.
pub fn back_is_interpretation()
    ensures { BackIsInterpretation }
{}

/// That, carried again, gives each name what the script's interpretation gives.
pub fn carrying_back_agrees()
    ensures { CarryingBackAgrees }
{}

/// What is carried of an interpretation comes back, as far as the terms reach it.
pub fn interpretations_come_back()
    ensures { InterpretationsComeBack }
{}

/// What gives the reached names values of their sorts is an interpretation of the script.
pub fn given_names_interpret()
    ensures { GivenNamesInterpret }
{}

/// Interpretations that agree on the reached names agree for the script.
pub fn names_agree()
    ensures { NamesAgree }
{}
