//! Valid clauses refute terms, and the clauses of each kind are valid: laws, proved with no code.
ghost use Rattle.law_clauses.specs.Bits.{CircuitsAreValid};
ghost use Rattle.law_clauses.specs.Entities.{MembersAreValid};
ghost use Rattle.law_clauses.specs.Equality.{CongruenceIsValid, EqualityIsValid};
ghost use Rattle.law_clauses.specs.Extensions.{ExtensionsAreValid};
ghost use Rattle.law_clauses.specs.GateClauses.{GatesAreValid};
ghost use Rattle.law_clauses.specs.Known.{KnownIsValid};
ghost use Rattle.law_clauses.specs.Options.{OptionsAreValid};
ghost use Rattle.law_clauses.specs.Parts.{BuiltHaveShapes, BuiltHaveValues, PartsHaveShapes};
ghost use Rattle.law_clauses.specs.Parts.{PartsHaveValues, RootsHaveShapes};
ghost use Rattle.law_clauses.specs.PatternTests.{PatternTestsHold};
ghost use Rattle.law_clauses.specs.ProductOverflows.{ProductOverflowsAreValid};
ghost use Rattle.law_clauses.specs.Products.{ProductsAreMade, ProductsAreValid};
ghost use Rattle.law_clauses.specs.Quotients.{QuotientsAreValid};
ghost use Rattle.law_clauses.specs.Records.{RecordsAreValid};
ghost use Rattle.law_clauses.specs.Sequents.{RefutedByValidClauses};
ghost use Rattle.law_clauses.specs.Sets.{SetsAreValid};
ghost use Rattle.law_clauses.specs.SignedQuotients.{SignedQuotientsAreValid};
ghost use Rattle.law_clauses.specs.Strings.{StringsAreValid};
ghost use Rattle.law_clauses.specs.Structure.{StructureIsValid};
ghost use Rattle.law_terms.specs.TypeValues.{Enums};
ghost use Rattle.law_terms.specs.Plain.{PlainTerm};
ghost use Rattle.std.specs.Prelude.{List};

/// Valid clauses of numbered statements that have no solution together with the roots leave no interpretation that
/// makes the roots true.
pub fn refuted_by_valid_clauses()
    ensures { RefutedByValidClauses }
{}

/// What typed and formed roots reach, and a typed term that is built of it by what asks nothing of an interpretation,
/// has in each interpretation of the roots a value of the shape of its type.
pub fn parts_have_shapes()
    ensures roots { RootsHaveShapes }
    ensures parts { PartsHaveShapes }
    ensures built { BuiltHaveShapes }
{}

/// Where the roots have no fault, what they reach has in each interpretation of them a value of its type, and so has a
/// typed term without fault that is built of it.
pub fn parts_have_values()
    ensures parts { PartsHaveValues }
    ensures built { BuiltHaveValues }
{}

/// The clauses of a gate are valid where a statement has in every interpretation the truth of the gate.
pub fn gates_are_valid()
    ensures { GatesAreValid }
{}

/// The clauses of `not`, `and`, `or`, `=` and `ite`, by the statements of their arguments, are valid of all terms.
pub fn structure_is_valid()
    ensures { StructureIsValid }
{}

/// Having one value is an equivalence, and what is made of equal parts in the same way is equal.
pub fn equality_is_valid()
    ensures equality { EqualityIsValid }
    ensures congruence { CongruenceIsValid }
{}

/// A statement of terms that ask nothing of an interpretation is true in all of them or in none, as it is in a blank
/// one.
pub fn known_is_valid()
    ensures { KnownIsValid }
{}

/// An option is none or holds one value, and a Boolean is true or false.
pub fn options_are_valid()
    ensures { OptionsAreValid }
{}

/// Sets are known by their elements: of terms, of an intersection, of a subset.
pub fn sets_are_valid()
    ensures { SetsAreValid }
{}

/// A record has its fields as attributes, and is the record of its attributes.
pub fn records_are_valid()
    ensures { RecordsAreValid }
{}

/// An entity of an enum type is one of the members.
pub fn members_are_valid()
    ensures { MembersAreValid }
{}

/// A wildcard matches each string, and a pattern without one only its own; what matches a pattern matches those that it
/// is within, and none that it is apart from.
pub fn strings_are_valid()
    ensures { StringsAreValid }
{}

/// A pattern that is found to take all of another takes its texts, and two that are found not to meet have no text in
/// common.
pub fn pattern_tests_hold()
    ensures { PatternTestsHold }
{}

/// Decimals, datetimes and durations are their bits, and IP ranges their family, address and prefix.
pub fn extensions_are_valid()
    ensures { (enums : Enums) (roots : List PlainTerm) → ExtensionsAreValid enums roots }
{}

/// The bits of an application are those that the circuit of its operator gives.
pub fn circuits_are_valid()
    ensures { CircuitsAreValid }
{}

/// A circuit that adds shifted rows gives products, and the bits of a product are those that it gives.
pub fn products_are_valid()
    ensures made { ProductsAreMade }
    ensures valid { ProductsAreValid }
{}

/// The unsigned quotient and remainder make the dividend, and the remainder is less than the divisor; by zero they are
/// all ones and the dividend.
pub fn quotients_are_valid()
    ensures { QuotientsAreValid }
{}

/// The signed quotient, the signed remainder and the modulus are those of the absolute values, with a sign.
pub fn signed_quotients_are_valid()
    ensures { SignedQuotientsAreValid }
{}

/// A signed product leaves its range where the product of the absolute values is above 2 to the width less 1, and where
/// it is that number and the signs are the same.
pub fn product_overflows_are_valid()
    ensures { ProductOverflowsAreValid }
{}
