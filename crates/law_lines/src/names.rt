ghost use Rattle.law_lines.specs.TableGrowth.{FunctionNamesDiffer, FunctionsGrow, NamesStay};
ghost use Rattle.law_lines.specs.TableGrowth.{TermListsGrow, TermNamesDiffer, TermsGrow};
ghost use Rattle.law_lines.specs.TableGrowth.{TypeNamesDiffer, TypesGrow};

/// Writing adds entries behind those that are there, each with the name of its place, and takes no name back.
pub fn tables_grow()
    ensures types { TypesGrow }
    ensures functions { FunctionsGrow }
    ensures terms { TermsGrow }
    ensures lists { TermListsGrow }
    ensures names { NamesStay }
{}

/// Entries have different names.
pub fn names_differ_by_number()
    ensures functions { FunctionNamesDiffer }
    ensures types { TypeNamesDiffer }
    ensures terms { TermNamesDiffer }
{}
