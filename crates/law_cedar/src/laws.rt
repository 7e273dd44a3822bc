//! Laws of what Cedar's values mean and of symbolic environments, proved with no code but for one, which makes the call of
//! which it speaks.
ghost use Rattle.std.specs.Prelude.{◌≡◌, IfErr, IfOk, Ok};
ghost use Rattle.smt_term.specs.View.{plain_term};
ghost use Rattle.smt_values.specs.TypeView.{plain_cedar};
ghost use Rattle.smt_values.specs.ValueView.{plain_value_of};
ghost use Rattle.smt_values.specs.Refused.{IsRefusal};
ghost use Rattle.smt_values.specs.TermOfValue.{term_of_value};
ghost use Rattle.law_cedar.specs.ValueRows.{MeaningExamples, OrderExamples, RefusalExamples};
ghost use Rattle.law_cedar.specs.ValueRows.{TypingExamples};
ghost use Rattle.law_cedar.specs.ValueLaws.{AnswersMeaning, ProgramTypesAreInOrder};
ghost use Rattle.law_cedar.specs.ValueLaws.{TermsHaveMeanings};
ghost use Rattle.law_cedar.specs.Rows.{FaultExamples, TableExamples};
ghost use Rattle.law_cedar.specs.Laws.{ProgramSchemasAreInOrder, ProgramStoresAreStores};
ghost use Rattle.law_cedar.specs.Laws.{TablesSayWhatIsStored};

use smt_term::Term;
use smt_values::{CedarType, FromCedar, SymbolizeError, Value};
use std::alloc::Global;

/// Every value of a Cedar type in order that a type of terms stands for has a term. That term is a literal of this type, and in
/// every interpretation its value is what the Cedar value means.
pub fn terms_have_meanings()
    ensures { TermsHaveMeanings }
{}

/// In every Cedar type of the program the attributes of record types ascend strictly by their bytes.
pub fn program_types_are_in_order()
    ensures { ProgramTypesAreInOrder }
{}

/// What `from_value` answers, by its contract alone: of every value of a Cedar type that a type of terms stands for a literal of
/// that type, which means in every interpretation what the value means, or `Memory`.
///
/// # Errors
/// Those of `from_value`.
pub fn answers_have_meanings(
    alloc: Global,
    v: &Value,
    ty: &CedarType,
) -> Result<Term, SymbolizeError>
    ensures given { IfOk result
        (λ t. term_of_value (plain_cedar ty.now) (plain_value_of v.now) ≡ Ok (plain_term t)) }
    ensures refused { IfErr result
        (λ e. IsRefusal e (term_of_value (plain_cedar ty.now) (plain_value_of v.now))) }
    ensures meaning { AnswersMeaning (plain_cedar ty.now) (plain_value_of v.now) result }
{
    Term::from_value(alloc, v, ty)
}

/// Values at types: what each means, and whether it is of the type.
pub fn meanings_by_example()
    ensures meanings { MeaningExamples }
    ensures typed { TypingExamples }
    ensures refused { RefusalExamples }
    ensures ordered { OrderExamples }
{}

/// The tables of a symbolic environment give at each stored entity of a standard type that no action has the term of its stored
/// attributes, the sets of its stored ancestors, the set of its tags' keys and the terms of its tags' values; and at each action
/// of the schema the sets of its ancestors. Principal, action, resource and context are those of the request.
pub fn tables_say_what_is_stored()
    ensures { TablesSayWhatIsStored }
{}

/// In a store of the program no uid stands twice, and the keys of tags ascend; in a schema the names of entity types ascend.
pub fn program_data_is_in_order()
    ensures stores { ProgramStoresAreStores }
    ensures schemas { ProgramSchemasAreInOrder }
{}

/// A schema, a store and a request: what their symbolic environment says, and the first faults of others.
pub fn environments_by_example()
    ensures tables { TableExamples }
    ensures faults { FaultExamples }
{}
