//! Laws of foldings and of what stands for what, proved with no code.
ghost use Rattle.law_folding.specs.Built.{BuiltTermsRefine, FoldingAddsNoFault};
ghost use Rattle.law_folding.specs.Congruence.{Congruence};
ghost use Rattle.law_folding.specs.FoldRows.{ApartRows, BitsRows, ConnectiveRows, EqualityRows};
ghost use Rattle.law_folding.specs.FoldRows.{ExtensionRows, FunctionRows, OptionRows};
ghost use Rattle.law_folding.specs.FoldRows.{RecordRows, SetRows, StringRows};
ghost use Rattle.law_folding.specs.Laws.{AnswersRefine, AnyIsTrue, BitsAreFolded};
ghost use Rattle.law_folding.specs.Laws.{ConnectivesAreFolded, EqualityAndChoiceAreFolded};
ghost use Rattle.law_folding.specs.Laws.{ExtensionsAreFolded, FunctionsAreFolded};
ghost use Rattle.law_folding.specs.Laws.{InterpretationsPass, LiteralsAreEqualByValue};
ghost use Rattle.law_folding.specs.Laws.{OptionsAreFolded, RecordsAreFolded, SetsAreFolded};
ghost use Rattle.law_folding.specs.Laws.{RefinementIsKept, StringLikeIsFolded};
ghost use Rattle.law_folding.specs.Laws.{TestsAreFolded, ValuesPass};

/// A term stands for itself, onward, in applications, `some`, records and sets, and in the tests for none and for the
/// empty set; and an interpretation of terms is one of the terms that stand for them, in which they have the same values.
pub fn refinement_is_kept()
    ensures kept { RefinementIsKept }
    ensures interpretations { InterpretationsPass }
    ensures values { ValuesPass }
{}

/// A term of another value, of another type, or that reaches a variable more, does not stand for a term.
pub fn refinement_tells_apart()
    ensures { ApartRows }
{}

/// Two literals of one type are equal exactly where their values are.
pub fn literals_are_equal_by_value()
    ensures { LiteralsAreEqualByValue }
{}

/// `not`, `and`, `or`, `implies` and the disjunction of many: what they are folded to stands for them. The last is true
/// where one of its terms is.
pub fn connectives_are_folded()
    ensures folded { ConnectivesAreFolded }
    ensures any { AnyIsTrue }
{}

/// `eq` and `ite`: what they are folded to stands for them.
pub fn equality_and_choice_are_folded()
    ensures { EqualityAndChoiceAreFolded }
{}

/// The operators from bits to bits: what they are folded to stands for them.
pub fn bits_are_folded()
    ensures { BitsAreFolded }
{}

/// The tests of bits: what they are folded to stands for them.
pub fn tests_are_folded()
    ensures { TestsAreFolded }
{}

/// `string_like`: what it is folded to stands for it.
pub fn strings_are_folded()
    ensures { StringLikeIsFolded }
{}

/// The calls on sets: what they are folded to stands for them.
pub fn sets_are_folded()
    ensures { SetsAreFolded }
{}

/// The calls on options: what they are folded to stands for them.
pub fn options_are_folded()
    ensures { OptionsAreFolded }
{}

/// An attribute of a record: what it is folded to stands for the application. Where a typed term has the attribute, it has in
/// every interpretation the attribute's value.
pub fn records_are_folded()
    ensures { RecordsAreFolded }
{}

/// The operators of the extension types: what they are folded to stands for them.
pub fn extensions_are_folded()
    ensures { ExtensionsAreFolded }
{}

/// A function at a term: what it is folded to stands for the application, where the keys of its table are literals. Where the
/// table and the argument are typed, it has in every interpretation the function's value at the argument's value.
pub fn functions_are_folded()
    ensures { FunctionsAreFolded }
{}

/// Each construction of the foldings, at terms that stand for others, stands for the application to those. So does what is
/// made of them.
pub fn foldings_are_congruent()
    ensures { Congruence }
{}

/// What is built for a typed term, each application folded after its arguments, stands for it.
pub fn built_terms_refine()
    ensures { BuiltTermsRefine }
{}

/// What is built for a typed term without fault has no fault: folding drops faults and adds none.
pub fn folding_adds_no_fault()
    ensures { FoldingAddsNoFault }
{}

/// A literal with the operator's value at two literals stands for the application, whoever computed it.
pub fn answers_refine()
    ensures { AnswersRefine }
{}

/// Foldings of chosen terms.
pub fn fold_rows()
    ensures connectives { ConnectiveRows }
    ensures equality { EqualityRows }
    ensures bits { BitsRows }
    ensures strings { StringRows }
    ensures sets { SetRows }
    ensures options { OptionRows }
    ensures records { RecordRows }
    ensures extensions { ExtensionRows }
    ensures functions { FunctionRows }
{}
