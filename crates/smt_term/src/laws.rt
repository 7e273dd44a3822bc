//! Laws of the program's terms, which compare as what they say, of tables of terms and of functions of one argument, proved
//! with no code.
#![tactic(auto, using(crate::specs::View::views))]

ghost use Rattle.smt_term.specs.Maps.{FieldPairsAreSorted, TypePairsAreSorted};
ghost use Rattle.smt_term.specs.Program.{EqualFunctionsSayTheSame, EqualListsSayTheSame};
ghost use Rattle.smt_term.specs.Program.{EqualLiteralsSayTheSame, EqualOperatorsSayTheSame};
ghost use Rattle.smt_term.specs.Program.{EqualSetsSayTheSame, EqualTermsSayTheSame};
ghost use Rattle.smt_term.specs.Program.{EqualTypesSayTheSame, EqualVariablesSayTheSame};
ghost use Rattle.smt_term.specs.Program.{FunctionsCompareAsPlain, ListsCompareAsPlain};
ghost use Rattle.smt_term.specs.Program.{LiteralsCompareAsPlain, OperatorsCompareAsPlain};
ghost use Rattle.smt_term.specs.Program.{SetsCompareAsPlain, TermMapsAreOrdered, TermsAreFormed};
ghost use Rattle.smt_term.specs.Program.{TermsCompareAsPlain, TypesCompareAsPlain};
ghost use Rattle.smt_term.specs.Program.{VariablesCompareAsPlain};
ghost use Rattle.smt_term.specs.Orders.{DefinitionsAreOrdered, FunctionsAreOrdered};
ghost use Rattle.smt_term.specs.Orders.{TermTablesAreOrdered};
ghost use Rattle.smt_term.specs.Tables.{TermPairsAreSorted, TermTablesAscend};

/// What the program's terms and types keep.
pub fn program_terms()
    ensures formed { TermsAreFormed }
    ensures equality { EqualTermsSayTheSame }
    ensures type_equality { EqualTypesSayTheSame }
    ensures order { TermsCompareAsPlain }
    ensures type_order { TypesCompareAsPlain }
{}

/// What the program's terms are made of compares as what it says, and is equal exactly where it says the same.
pub fn program_parts()
    ensures function_order { FunctionsCompareAsPlain }
    ensures function_equality { EqualFunctionsSayTheSame }
    ensures op_order { OperatorsCompareAsPlain }
    ensures op_equality { EqualOperatorsSayTheSame }
    ensures literal_order { LiteralsCompareAsPlain }
    ensures literal_equality { EqualLiteralsSayTheSame }
    ensures variable_order { VariablesCompareAsPlain }
    ensures variable_equality { EqualVariablesSayTheSame }
    ensures list_order { ListsCompareAsPlain }
    ensures list_equality { EqualListsSayTheSame }
    ensures set_order { SetsCompareAsPlain }
    ensures set_equality { EqualSetsSayTheSame }
{}

/// Maps have of each attribute the value of its last pair.
pub fn program_maps()
    ensures type_pairs { TypePairsAreSorted }
    ensures field_pairs { FieldPairsAreSorted }
{}

/// The order of maps of terms is total, and holds two level exactly where they are equal, which is exactly where they say the same.
pub fn term_maps_are_ordered()
    ensures { TermMapsAreOrdered }
{}

/// Tables of terms ascend, and have of each key the value of its last pair.
pub fn program_tables()
    ensures tables { TermTablesAscend }
    ensures pairs { TermPairsAreSorted }
{}

/// The orders of tables of terms, of functions that a table defines, and of functions of one argument are total, and hold two level
/// exactly where they are equal, which is exactly where they say the same.
pub fn functions_are_ordered()
    ensures tables { TermTablesAreOrdered }
    ensures definitions { DefinitionsAreOrdered }
    ensures functions { FunctionsAreOrdered }
{}
