//! Laws of the functions on values of the extension types, and of the functions that read their texts, proved with no code.
ghost use Rattle.law_extensions.specs.Answers.{AnswersHaveValues, ArgumentsHaveValues};
ghost use Rattle.law_extensions.specs.Rows.{ContainmentExamples, RuleExamples, TimeExamples};
ghost use Rattle.law_extensions.specs.Laws.{ContainmentIsTold, DatetimesAreMoved};
ghost use Rattle.law_extensions.specs.Laws.{DatetimesAreSplit, DecimalsAreCompared};
ghost use Rattle.law_extensions.specs.Laws.{DurationsAreMeasured, ExtensionFunctionsAreFolded};
ghost use Rattle.law_extensions.specs.Laws.{FamiliesAreTold, FreeBitsAreCounted};
ghost use Rattle.law_extensions.specs.Laws.{RangesAreBlocks, RangesAreBounded};
ghost use Rattle.law_extensions.specs.FoldedRows.{DecimalRows, IpRows, TimeRows};
ghost use Rattle.law_extensions.specs.Rules.{RulesAreKept};
ghost use Rattle.law_extensions.specs.Values.{ContainmentHasValues, TimesHaveValues};
ghost use Rattle.law_extensions.specs.TextRows.{DatetimeExamples, DecimalExamples};
ghost use Rattle.law_extensions.specs.TextRows.{DurationExamples, RangeExamples};
ghost use Rattle.law_extensions.specs.Readings.{DatetimesAreRead, DecimalsAreRead};
ghost use Rattle.law_extensions.specs.Readings.{DurationsAreRead, RangesAreRead};

/// Each function: what it is folded to stands for the application.
pub fn extension_functions_are_folded()
    ensures { ExtensionFunctionsAreFolded }
{}

/// Literals of decimals: a comparison is folded to whether their numbers compare so.
pub fn decimals_are_compared()
    ensures { DecimalsAreCompared }
{}

/// Literals of IP ranges: each function is folded to the literal of its answer. A range lies in another where all its
/// addresses are the other's.
pub fn ranges_are_compared()
    ensures families { FamiliesAreTold }
    ensures free { FreeBitsAreCounted }
    ensures blocks { RangesAreBlocks }
    ensures bounds { RangesAreBounded }
    ensures containment { ContainmentIsTold }
{}

/// Literals of datetimes and durations: each function is folded to the literal of its answer, or to none where that leaves
/// the 64 bits.
pub fn times_are_computed()
    ensures units { DurationsAreMeasured }
    ensures moved { DatetimesAreMoved }
    ensures split { DatetimesAreSplit }
{}

/// Any terms, in an interpretation: containment is that of the ranges which are their values, and the answer of the arithmetic of
/// datetimes and durations is that at their values.
pub fn extension_functions_have_values()
    ensures containment { ContainmentHasValues }
    ensures times { TimesHaveValues }
{}

/// Whatever stands for an application tells the same in every interpretation of that application, and a typed term without fault
/// has a value of its type for it to be told of.
pub fn answers_have_values()
    ensures answers { AnswersHaveValues }
    ensures arguments { ArgumentsHaveValues }
{}

/// Rules on IP ranges: each family's test with its bounds is one, and by any rule what is built of a term and a list is true
/// exactly where the term is of the family and lies in one of the list that is.
pub fn range_rules_are_kept()
    ensures { RulesAreKept }
{}

/// Foldings of the functions at chosen literals.
pub fn extension_function_rows()
    ensures decimals { DecimalRows }
    ensures ranges { IpRows }
    ensures times { TimeRows }
{}

/// The functions at a variable, by the values that an interpretation gives it, and rules on IP ranges.
pub fn values_of_extension_functions()
    ensures containment { ContainmentExamples }
    ensures rules { RuleExamples }
    ensures times { TimeExamples }
{}

/// A text is read to a number of ten-thousandths exactly where it is a decimal with that value.
pub fn decimals_are_read()
    ensures { DecimalsAreRead }
{}

/// A text is read to a number of milliseconds exactly where it is a duration with that value.
pub fn durations_are_read()
    ensures { DurationsAreRead }
{}

/// A text is read to an IP range exactly where it writes that range.
pub fn ranges_are_read()
    ensures { RangesAreRead }
{}

/// A text is read to a number of milliseconds since 1970-01-01T00:00:00Z exactly where it is a datetime with that value.
pub fn datetimes_are_read()
    ensures { DatetimesAreRead }
{}

/// Texts that are read, each with its value, and texts that are refused.
pub fn texts_by_example()
    ensures decimals { DecimalExamples }
    ensures durations { DurationExamples }
    ensures ranges { RangeExamples }
    ensures datetimes { DatetimeExamples }
{}
