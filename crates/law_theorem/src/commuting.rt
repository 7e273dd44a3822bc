ghost use Rattle.law_theorem.specs.CarriedOperators.{AttributesAreSelected, ConstructorsCommute};
ghost use Rattle.law_theorem.specs.CarriedOperators.{ExtensionsAreSelected, InsertionsCommute};
ghost use Rattle.law_theorem.specs.CarriedOperators.{NegationsCommute, OperatorsCommute};
ghost use Rattle.law_theorem.specs.CarriedOperators.{OptionsAreSelected, TablesAreRead};

/// An operator of scripts at carried values gives the carried value of what it gives in terms.
pub fn operators_commute()
    ensures { OperatorsCommute }
{}

/// Elements that are put into the empty set make the carried set.
pub fn insertions_commute()
    ensures { InsertionsCommute }
{}

/// A finite table that is carried gives the carried value of what the table gives.
pub fn tables_are_read()
    ensures { TablesAreRead }
{}

/// The selector of an attribute gives the carried value of the attribute.
pub fn attributes_are_selected()
    ensures { AttributesAreSelected }
{}

/// The selector of an option gives what is inside, or what the interpretation has for none.
pub fn options_are_selected()
    ensures { OptionsAreSelected }
{}

/// The selectors of the extension types, also at the other family.
pub fn extensions_are_selected()
    ensures { ExtensionsAreSelected }
{}

/// The constructors of datetimes and durations, and the test of an IP range's family.
pub fn constructors_commute()
    ensures { ConstructorsCommute }
{}

/// The overflow of a negation is an equality with the least number of the width.
pub fn negations_commute()
    ensures { NegationsCommute }
{}
