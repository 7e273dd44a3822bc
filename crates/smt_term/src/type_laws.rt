//! Laws of entities, sets of texts, extension types, patterns and types: they compare as what they say, proved with no code.
#![tactic(auto, using(crate::specs::TypeView::views), unfolding(crate::specs::TypeView::plain_type))]

ghost use Rattle.smt_term.specs.Entities.{EntitiesAreOrdered, EntitiesCompareAsTexts};
ghost use Rattle.smt_term.specs.Entities.{EntityIdsAreOrdered, EntityIdsCompareAsTexts};
ghost use Rattle.smt_term.specs.Entities.{EntityTypesAreOrdered, EntityTypesCompareAsTexts};
ghost use Rattle.smt_term.specs.Enums.{MembersAscend};
ghost use Rattle.smt_term.specs.ExtensionView.{EqualExtensionOpsSayTheSame};
ghost use Rattle.smt_term.specs.ExtensionView.{EqualExtensionTypesSayTheSame};
ghost use Rattle.smt_term.specs.ExtensionView.{ExtensionOpsCompareAsPlain};
ghost use Rattle.smt_term.specs.ExtensionView.{ExtensionTypesCompareAsPlain};
ghost use Rattle.smt_term.specs.PatternOrder.{ElementOrderIsTotal, ElementsCompareAsPlain};
ghost use Rattle.smt_term.specs.PatternOrder.{EqualElementsSayTheSame};
ghost use Rattle.smt_term.specs.PatternOrder.{EqualOrdPatternsSayTheSame, EqualPatternsSayTheSame};
ghost use Rattle.smt_term.specs.PatternOrder.{LevelElementsAreEqual};
ghost use Rattle.smt_term.specs.PatternOrder.{LevelPatternsAreEqual, OrdPatternOrderIsTotal};
ghost use Rattle.smt_term.specs.PatternOrder.{PatternsCompareAsPlain};
ghost use Rattle.smt_term.specs.TextSets.{TextSetsAreOrdered, TextSetsAscend};
ghost use Rattle.smt_term.specs.TypeMaps.{TypePairsAreSorted};
ghost use Rattle.smt_term.specs.ProgramTypes.{EqualTypesSayTheSame, TypeMapsAreOrdered};
ghost use Rattle.smt_term.specs.ProgramTypes.{TypesCompareAsPlain};

/// Patterns and their elements compare as what they say, and are equal exactly where they say the same.
pub fn program_patterns()
    ensures element_order { ElementsCompareAsPlain }
    ensures order { PatternsCompareAsPlain }
    ensures element_equality { EqualElementsSayTheSame }
    ensures equality { EqualPatternsSayTheSame }
    ensures ordered_equality { EqualOrdPatternsSayTheSame }
{}

/// The orders of patterns and of their elements are total, and hold two level exactly where they are equal.
pub fn patterns_are_ordered()
    ensures elements { ElementOrderIsTotal }
    ensures level_elements { LevelElementsAreEqual }
    ensures patterns { OrdPatternOrderIsTotal }
    ensures level_patterns { LevelPatternsAreEqual }
{}

/// Entities, their types and their ids compare by the bytes of their texts.
pub fn program_entities()
    ensures type_order { EntityTypesCompareAsTexts }
    ensures id_order { EntityIdsCompareAsTexts }
    ensures order { EntitiesCompareAsTexts }
{}

/// Extension types and the operators on their values compare by their places, and are equal exactly where they say the same.
pub fn program_extensions()
    ensures type_order { ExtensionTypesCompareAsPlain }
    ensures type_equality { EqualExtensionTypesSayTheSame }
    ensures op_order { ExtensionOpsCompareAsPlain }
    ensures op_equality { EqualExtensionOpsSayTheSame }
{}

/// Sets of texts ascend, and so do the members of each enum type in a table.
pub fn program_texts()
    ensures sets { TextSetsAscend }
    ensures members { MembersAscend }
{}

/// The orders of entities, of their types and ids, and of sets of texts are total, and hold two level exactly where they are equal,
/// which is exactly where they say the same.
pub fn leaves_are_ordered()
    ensures types { EntityTypesAreOrdered }
    ensures ids { EntityIdsAreOrdered }
    ensures entities { EntitiesAreOrdered }
    ensures sets { TextSetsAreOrdered }
{}

/// Types are equal exactly where they say the same, compare as what they say, and their maps have of each attribute the
/// type of its last pair.
pub fn program_types()
    ensures equality { EqualTypesSayTheSame }
    ensures order { TypesCompareAsPlain }
    ensures pairs { TypePairsAreSorted }
{}

/// The order of maps of types is total, and holds two level exactly where they are equal, which is exactly where they say the same.
pub fn type_maps_are_ordered()
    ensures { TypeMapsAreOrdered }
{}
