#![tactic(auto, using(crate::specs::ValueView::value_views))]
//! Laws of the definitions that the contracts cite, proved with no code.
ghost use Rattle.std.specs.Prelude.{◌≡◌, Some};
ghost use Rattle.smt_ext.specs.ExtOrder.{plain_value};
ghost use Rattle.smt_ext.specs.declared.ext.Ext.{Ext as Extension};
ghost use Rattle.smt_values.specs.Constructed.{constructor_of};
ghost use Rattle.smt_values.specs.Constructors.{value_of_expression, value_of_value};
ghost use Rattle.smt_values.specs.TypeRows.{CallExamples, OffsetExamples, ValueExamples};
ghost use Rattle.smt_values.specs.PlainValues.{ExtensionValue};
ghost use Rattle.smt_values.specs.RefusedValues.{IsAnswer, IsSameUnlessMemory};
ghost use Rattle.smt_values.specs.ValueView.{plain_value_of};
ghost use Rattle.smt_values.specs.declared.value.Value.{Value as CedarValue};

/// The call that is made of a value of an extension type says that value, and so does the value that is this call. So what
/// `try_from_value` answers of what `value_of_ext` made of a value is an equal value, or `Memory`.
pub fn constructed_values_are_read()
    ensures expression { (x : Extension) →
        value_of_expression (constructor_of (plain_value x)) ≡ Some (plain_value x) }
    ensures value { (x : Extension) →
        value_of_value (ExtensionValue (constructor_of (plain_value x))) ≡ Some (plain_value x) }
    ensures answer { (x : Extension) (v : CedarValue) (answer : _) →
        plain_value_of v ≡ ExtensionValue (constructor_of (plain_value x)) →
        IsAnswer (plain_value_of v) answer → IsSameUnlessMemory x answer }
{}

/// Calls that are read, each with its value, and calls and values that are not.
pub fn calls_by_example()
    ensures calls { CallExamples }
    ensures offsets { OffsetExamples }
    ensures others { ValueExamples }
{}
