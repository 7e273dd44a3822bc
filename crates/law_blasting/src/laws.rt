//! Laws of circuits and of blasted terms, proved with no code.
ghost use Rattle.law_blasting.specs.CircuitLaws.{BitsHaveNumbers, DifferencesAreTaken};
ghost use Rattle.law_blasting.specs.CircuitLaws.{DifferencesOverflow, ExtensionsKeep};
ghost use Rattle.law_blasting.specs.CircuitLaws.{LessIsBorrowed};
ghost use Rattle.law_blasting.specs.CircuitLaws.{LessIsSigned, NegationsAreTaken};
ghost use Rattle.law_blasting.specs.CircuitLaws.{NegationsOverflow, NumbersAreCompared};
ghost use Rattle.law_blasting.specs.CircuitLaws.{NumbersHaveBits};
ghost use Rattle.law_blasting.specs.CircuitLaws.{ShiftsGoDown, ShiftsGoUp, SumsAreAdded};
ghost use Rattle.law_blasting.specs.CircuitLaws.{SumsOverflow};
ghost use Rattle.law_blasting.specs.Sizes.{ShiftsAreSmall};
ghost use Rattle.law_blasting.specs.Rows.{BlastedRows};
ghost use Rattle.law_blasting.specs.Laws.{BitsAreBooleans, BitsAreOneToOne, BitsAreOnto};
ghost use Rattle.law_blasting.specs.Laws.{BlastKeepsValues, BlastedTermsAreTyped, FormsStay};
ghost use Rattle.law_blasting.specs.Laws.{NewNamesDiffer, OperatorCircuitsPass, RootsKeepValues};
ghost use Rattle.law_blasting.specs.Laws.{TermCircuitsPass, TermGatesPass};
ghost use Rattle.law_blasting.specs.NewTerms.{BooleanTermsAreFormed, BooleanTermsHaveNoFault};
ghost use Rattle.law_blasting.specs.NewTerms.{BooleansInterpret, NewTermsAreBoolean};
ghost use Rattle.law_blasting.specs.Numbering.{ListsAreWalked, NumbersStay, VariablesAreDistinct};
ghost use Rattle.law_blasting.specs.Numbering.{VariablesAreNumbered};
ghost use Rattle.law_blasting.specs.Numbering.{VariablesAreSupported, WalksAddNothing};
ghost use Rattle.law_blasting.specs.Numbering.{WalksAreStated, WalksNumber};
ghost use Rattle.law_blasting.specs.Theorem.{BlastIsFaithful};

/// The bits of a number are that number, and the number of bits has these bits.
pub fn bits_are_numbers()
    ensures numbers { NumbersHaveBits }
    ensures bits { BitsHaveNumbers }
{}

/// Bits are equal at each place exactly where their numbers are equal.
pub fn numbers_are_compared()
    ensures { NumbersAreCompared }
{}

/// Zeros above the highest bit leave the number as it is.
pub fn extensions_keep()
    ensures { ExtensionsKeep }
{}

/// A ripple-carry adder adds.
pub fn sums_are_added()
    ensures { SumsAreAdded }
{}

/// A ripple-borrow subtractor subtracts, and borrows exactly where the first is less.
pub fn differences_are_taken()
    ensures difference { DifferencesAreTaken }
    ensures less { LessIsBorrowed }
    ensures negation { NegationsAreTaken }
{}

/// A barrel shifter shifts, by any number of places, and has few gates.
pub fn shifts_go()
    ensures up { ShiftsGoUp }
    ensures down { ShiftsGoDown }
    ensures small { ShiftsAreSmall }
{}

/// A subtractor with the two highest bits exchanged borrows exactly where the first is less in two's complement.
pub fn signed_numbers_are_compared()
    ensures { LessIsSigned }
{}

/// A sum leaves the signed range exactly where the two highest carries differ, and a difference where the two highest
/// borrows do.
pub fn results_overflow()
    ensures sums { SumsOverflow }
    ensures differences { DifferencesOverflow }
    ensures negations { NegationsOverflow }
{}

/// Gates that are terms, the circuits of them, and the circuit of each operator have the truths that gates and circuits of
/// truths give.
pub fn circuits_of_terms()
    ensures gates { TermGatesPass }
    ensures circuits { TermCircuitsPass }
    ensures operators { OperatorCircuitsPass }
{}

/// Blasted terms are Booleans, as many as the old term's type has bits, and have the bits of what the old term means. A
/// Boolean has one blasted term, with the same value.
pub fn blast_keeps_values()
    ensures types { BlastedTermsAreTyped }
    ensures values { BlastKeepsValues }
    ensures roots { RootsKeepValues }
{}

/// The names of the new variables differ, and interpretations of the old variables go one to one onto those of the new.
pub fn bits_are_values()
    ensures names { NewNamesDiffer }
    ensures booleans { BitsAreBooleans }
    ensures one_to_one { BitsAreOneToOne }
    ensures onto { BitsAreOnto }
{}

/// Blasted terms are Boolean terms over the new variables alone. Such terms are formed and have no fault, and Booleans for
/// the variables are an interpretation of them.
pub fn new_terms_are_boolean()
    ensures terms { NewTermsAreBoolean }
    ensures formed { BooleanTermsAreFormed }
    ensures faults { BooleanTermsHaveNoFault }
    ensures interpreted { BooleansInterpret }
{}

/// A walk meets variables in the order in which terms reach them, and stops at their first refusal. A term that was walked
/// over adds nothing, and keeps its blasted terms under more variables.
pub fn walks_number_variables()
    ensures one { WalksAreStated }
    ensures all { ListsAreWalked }
    ensures numbered { WalksNumber }
    ensures again { WalksAddNothing }
    ensures stays { NumbersStay }
{}

/// The variables of terms have each of theirs, each once, and of supported types where no term is refused.
pub fn terms_have_variables()
    ensures numbered { VariablesAreNumbered }
    ensures distinct { VariablesAreDistinct }
    ensures supported { VariablesAreSupported }
{}

/// Connectives of Booleans keep their form.
pub fn forms_stay()
    ensures { FormsStay }
{}

/// Each interpretation gives the old terms the values that its bits give the new ones, and each interpretation of the new
/// terms is the bits of one of the old.
pub fn blast_is_faithful()
    ensures { BlastIsFaithful }
{}

/// Names, values and refusals of chosen terms.
pub fn blasted_rows()
    ensures { BlastedRows }
{}
