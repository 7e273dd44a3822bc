ghost use Rattle.law_theorem.specs.Conditions.{AttributesAreFound, FormedTypesAreEncodable};
ghost use Rattle.law_theorem.specs.Conditions.{PlacesAreFound, TheseAreConditions};
ghost use Rattle.law_theorem.specs.Conditions.{TypedListsAreEncodable, TypedTermsAreEncodable};

/// The place of a text, and of an attribute, is one in its list where the list has it.
pub fn places_are_found()
    ensures places { PlacesAreFound }
    ensures attributes { AttributesAreFound }
{}

/// Formed types have widths, and formed typed terms without fault meet the premise of the laws of lines.
pub fn formed_terms_are_encodable()
    ensures types { FormedTypesAreEncodable }
    ensures one { TypedTermsAreEncodable }
    ensures all { TypedListsAreEncodable }
{}

/// The premises can be met.
pub fn these_are_conditions()
    ensures { TheseAreConditions }
{}
