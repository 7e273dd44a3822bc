ghost use Rattle.law_lines.specs.Joins.{CallsJoin, LinesJoin, TextsReplaceExpressions};
ghost use Rattle.law_lines.specs.Made.{FunctionsAreMade, WrittenTypesHaveEntries, SortsStay};
ghost use Rattle.law_lines.specs.Made.{TermListsAreMade, TermsAreMade, TextsStay};
ghost use Rattle.law_lines.specs.Made.{TypesAreMade};

/// Texts stand for expressions, and calls one after the other write their lines so.
pub fn texts_and_lines_join()
    ensures texts { TextsReplaceExpressions }
    ensures lines { LinesJoin }
    ensures calls { CallsJoin }
{}

/// What was made for a type, a function or a term is what the tables give for it afterwards.
pub fn what_is_made_is_named()
    ensures types { TypesAreMade }
    ensures functions { FunctionsAreMade }
    ensures terms { TermsAreMade }
{}

/// Texts and sorts stay where names stay.
pub fn texts_and_sorts_stay()
    ensures lists { TermListsAreMade }
    ensures texts { TextsStay }
    ensures sorts { SortsStay }
    ensures written { WrittenTypesHaveEntries }
{}
