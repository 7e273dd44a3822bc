//! Laws of the definitions that the contracts cite, proved with no code.
#![tactic(auto, using(crate::specs::TypeView::cedar_views, crate::specs::ValueView::value_views, smt_term::specs::View::views))]

ghost use Rattle.smt_values.specs.StoreRows.{SchemaExamples, StoreExamples};
ghost use Rattle.smt_values.specs.StoreLaws.{EntriesAscend, PutEntityIsFound, PutEntryIsFound};
ghost use Rattle.smt_values.specs.StoreLaws.{StoresAreDistinct};
ghost use Rattle.smt_values.specs.Rows.{PartExamples, RecordExamples, SetExamples};
ghost use Rattle.smt_values.specs.Literals.{TermsAreLiterals};

/// Stores after an entity was put into them, and request environments that are a schema's or are not.
pub fn stores_by_example()
    ensures stores { StoreExamples }
    ensures schemas { SchemaExamples }
{}

/// In a store no uid stands twice, and in a map of entity types the names ascend.
pub fn stores_are_distinct()
    ensures entities { StoresAreDistinct }
    ensures entries { EntriesAscend }
{}

/// What was put into a store, or into a map of entity types, is found there, and all else as before.
pub fn what_is_put_is_found()
    ensures entity { PutEntityIsFound }
    ensures entry { PutEntryIsFound }
{}

/// Values at types, each with its term or with its first fault.
pub fn values_by_example()
    ensures parts { PartExamples }
    ensures sets { SetExamples }
    ensures records { RecordExamples }
{}

/// Every term of a value, at every type, is a literal: it has no variable and no application in it.
pub fn terms_of_values_are_literals()
    ensures { TermsAreLiterals }
{}
