//! Laws of terms, of what they mean and how they compare, and of numbered nodes, proved with no code.
ghost use Rattle.law_terms.specs.Rows.{FaultRows, OperatorRows, OrderRows, TermRows};
ghost use Rattle.law_terms.specs.Laws.{DefaultsAreInterpretations, FunctionEqualityIsDecided};
ghost use Rattle.law_terms.specs.Laws.{OpEqualityIsDecided, OpOrderIsTotal};
ghost use Rattle.law_terms.specs.Laws.{PartEqualityIsDecided, PartOrderIsTotal};
ghost use Rattle.law_terms.specs.Laws.{PatternEqualityIsDecided, PatternOrderIsTotal};
ghost use Rattle.law_terms.specs.Laws.{ReachedDecides, RestrictionAgrees, TermEqualityIsDecided};
ghost use Rattle.law_terms.specs.Laws.{TermOrderIsTotal, TypeEqualityIsDecided};
ghost use Rattle.law_terms.specs.Laws.{TypeOrderIsTotal, TypedTermsGetAttributes};
ghost use Rattle.law_terms.specs.Laws.{TypedTermsHaveValues, Utf8KeepsOrder};
ghost use Rattle.law_terms.specs.Literals.{LiteralsAreTheirValues};
ghost use Rattle.law_terms.specs.Patterns.{MatchingIsDecided};
ghost use Rattle.law_terms.specs.Plain.{RoundTrip};
ghost use Rattle.law_terms.specs.Shapes.{TypedTermsHaveShapes, ValuesAreShaped};
ghost use Rattle.law_terms.specs.TermSets.{SortedTermsAscend};
ghost use Rattle.law_terms.specs.ValueOrder.{EqualityIsDecided, OrderIsTotal};
ghost use Rattle.law_terms.specs.NodeRows.{NodeRows};
ghost use Rattle.law_terms.specs.NodeLaws.{FittingNodesHaveMeanings, GraphsGrow};
ghost use Rattle.law_terms.specs.NodeLaws.{MeaningsDetermineParts, OlderMeaningsStay, PlacesDiffer};
ghost use Rattle.law_terms.specs.NodeLaws.{PlacesHaveMeanings, TheLastHasItsMeaning};

/// A list of terms and its plain form give each other.
pub fn plain_lists()
    ensures { RoundTrip }
{}

/// The order of values is total, and its test decides whether two values are equal.
pub fn values_are_compared()
    ensures equality { EqualityIsDecided }
    ensures order { OrderIsTotal }
{}

/// The orders of types, of patterns and their parts, of operators and of terms are total.
pub fn orders_are_total()
    ensures types { TypeOrderIsTotal }
    ensures parts { PartOrderIsTotal }
    ensures patterns { PatternOrderIsTotal }
    ensures operators { OpOrderIsTotal }
    ensures terms { TermOrderIsTotal }
{}

/// Types, functions, patterns and their parts, operators and terms that the tests hold equal are equal, and each is
/// equal to itself.
pub fn equality_is_decided()
    ensures types { TypeEqualityIsDecided }
    ensures functions { FunctionEqualityIsDecided }
    ensures parts { PartEqualityIsDecided }
    ensures patterns { PatternEqualityIsDecided }
    ensures operators { OpEqualityIsDecided }
    ensures terms { TermEqualityIsDecided }
{}

/// The test of a pattern decides whether it matches.
pub fn patterns_are_matched()
    ensures { MatchingIsDecided }
{}

/// Typed literals of one type with one value are one term.
pub fn literals_are_their_values()
    ensures { LiteralsAreTheirValues }
{}

/// Texts in UTF-8 stand in the order of their code points.
pub fn texts_keep_order()
    ensures { Utf8KeepsOrder }
{}

/// A typed term has none of the four faults about records.
pub fn typed_terms_get_attributes()
    ensures { TypedTermsGetAttributes }
{}

/// A typed term without fault has in every interpretation a value of its type.
pub fn typed_terms_have_values()
    ensures { TypedTermsHaveValues }
{}

/// A value of a type has the type's shape, and a typed term has in every interpretation a value of its type's shape,
/// whatever its faults.
pub fn typed_terms_have_shapes()
    ensures values { ValuesAreShaped }
    ensures terms { TypedTermsHaveShapes }
{}

/// Typed terms without fault have an interpretation.
pub fn interpretations_exist()
    ensures { DefaultsAreInterpretations }
{}

/// A value depends on nothing but what the term reaches, and a restriction keeps that.
pub fn values_depend_on_the_reached()
    ensures values { ReachedDecides }
    ensures restriction { RestrictionAgrees }
{}

/// Operators at chosen values.
pub fn operator_rows()
    ensures { OperatorRows }
{}

/// First faults of chosen terms.
pub fn fault_rows()
    ensures { FaultRows }
{}

/// Types and values of chosen terms.
pub fn term_rows()
    ensures { TermRows }
{}

/// The order of terms is not the order of their values.
pub fn order_rows()
    ensures { OrderRows }
{}

/// The terms of a list in order ascend, and are those of the list.
pub fn terms_are_sorted()
    ensures { SortedTermsAscend }
{}

/// What chosen nodes stand for, and nodes that do not fit, one for each reason.
pub fn node_rows()
    ensures { NodeRows }
{}

/// A node fits exactly where it has a meaning.
pub fn fitting_nodes_have_meanings()
    ensures { FittingNodesHaveMeanings }
{}

/// In a list of nodes without repeats that each fit, every place has a meaning, and no two places have one meaning.
pub fn places_differ_in_meaning()
    ensures meanings { PlacesHaveMeanings }
    ensures differ { PlacesDiffer }
{}

/// A node that is added has its meaning, and leaves the older ones.
pub fn added_nodes_keep_meanings()
    ensures kept { OlderMeaningsStay }
    ensures last { TheLastHasItsMeaning }
{}

/// What a node stands for determines its label and what its parts stand for.
pub fn meanings_determine_parts()
    ensures { MeaningsDetermineParts }
{}

/// The list without nodes is a graph, and so is a graph with one node more that fits and is new.
pub fn graphs_grow()
    ensures { GraphsGrow }
{}
