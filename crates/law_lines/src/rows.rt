ghost use Rattle.law_lines.specs.Every.{EveryOperator};
ghost use Rattle.law_lines.specs.Hostile.{HostileTexts};
ghost use Rattle.law_lines.specs.Rows.{Condition, EmptyRecord, EnumMember, HostileFunction};
ghost use Rattle.law_lines.specs.Rows.{HostileVariable, Levels, Negation, NoTerm};
ghost use Rattle.law_lines.specs.Rows.{RecordOfOne, Repeated, Shifted, TrueTerm, TwoOfOneId};
ghost use Rattle.law_lines.specs.Scripts.{ConditionIsEncodable};

/// What is written for a few terms.
pub fn worked_rows()
    ensures none { NoTerm }
    ensures truth { TrueTerm }
    ensures negation { Negation }
    ensures repeated { Repeated }
    ensures two { TwoOfOneId }
    ensures record_of_one { RecordOfOne }
    ensures enum_member { EnumMember }
    ensures shifted { Shifted }
    ensures empty_record { EmptyRecord }
    ensures hostile_variable { HostileVariable }
    ensures hostile_function { HostileFunction }
    ensures levels { Levels }
{}

/// What is written for a condition on a request.
pub fn a_condition()
    ensures { Condition }
{}

/// What is written for terms with every operator.
pub fn every_operator()
    ensures { EveryOperator }
{}

/// What is written for texts with characters that scripts do not have.
pub fn hostile_texts()
    ensures { HostileTexts }
{}

/// A term that meets the premise.
pub fn an_encodable_condition()
    ensures { ConditionIsEncodable }
{}
