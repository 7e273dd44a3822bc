#![tactic(auto, using(crate::specs::ValueView::value_views))]
// Values, lists of values, and values by attributes.
ghost use Rattle.std.specs.Prelude.{◌≡◌, ◌++◌, ◌∷◌, [], IfOk, OnErr, OnOk, length, map};
ghost use Rattle.std.specs.BTreeMap.{insert_entry};
ghost use Rattle.std.specs.Rc.{rc_str_bytes};
ghost use Rattle.smt_term.specs.SortedPairs.{sorted_pairs};
ghost use Rattle.law_terms.specs.ValueOrder.{text_cmp};
ghost use Rattle.smt_values.specs.ValueView.{fields_held, known_field, known_fields, named_field};
ghost use Rattle.smt_values.specs.ValueView.{named_fields, parts_held, plain_known};
ghost use Rattle.smt_values.specs.ValueView.{plain_value_of, plain_values_in, values_held};

use crate::AttributeMap;
use crate::expression::RestrictedExpr;
use crate::literal::Literal;
use smt_term::{Attr, TermError};
use smt_text::share_text;
use std::alloc::{AllocError, Global};

/// A value of Cedar.
#[derive(Debug, PartialEq, Eq)]
#[cycle(value)]
pub enum Value {
    /// A literal.
    Lit(Literal),
    /// A set of the values of a list.
    Set(ValueList),
    /// A record.
    Record(ValueMap),
    /// A value of an extension type, by a call that makes it.
    ExtensionValue(RestrictedExpr),
}

// By hand, so that what lets a value go calls this, and has no account of its parts.
impl Drop for Value {
    #[cycle(value)]
    fn drop(self) {
        match self {
            Value::Lit(_) => {}
            Value::Set(_) => {}
            Value::Record(_) => {}
            Value::ExtensionValue(_) => {}
        }
    }
}

/// A list of values in the order in which they were given.
#[derive(Debug, PartialEq, Eq, Drop)]
#[cycle(value)]
pub struct ValueList {
    items: Vec<Value>,
}

/// The values of attributes: pairs in the order of the attributes' bytes, each attribute once.
#[derive(Debug, PartialEq, Eq, Drop)]
#[cycle(value)]
pub struct ValueMap {
    pairs: AttributeMap<Value>,
}

/// A value that may not be known.
#[derive(Debug, PartialEq, Eq, Drop)]
pub enum PartialValue {
    /// A value that is known.
    Value(Value),
    /// One that is not.
    Residual,
}

/// What is known of the values of attributes: pairs in the order of the attributes' bytes, each attribute
/// once.
#[derive(Debug, PartialEq, Eq, Drop)]
pub struct PartialMap {
    pairs: AttributeMap<PartialValue>,
}

impl ValueList {
    /// The empty list. Takes no memory.
    pub fn new(alloc: Global) -> ValueList
        ensures { values_held result ≡ [] }
    {
        ValueList {
            items: Vec::new(alloc),
        }
    }

    /// The list of these values, in this order. Takes no memory.
    pub fn of_items(items: Vec<Value>) -> ValueList
        ensures { values_held result ≡ items.items }
    {
        ValueList { items }
    }

    /// Appends a value.
    ///
    /// # Errors
    /// Want of memory. The list stays as it is.
    pub fn push(&mut self, item: Value) -> Result<(), AllocError>
        ensures pushed { OnOk result (values_held self.new ≡ values_held self.old ++ item ∷ []) }
        ensures unchanged { OnErr result (values_held self.new ≡ values_held self.old) }
    {
        self.items.push(item)?;
        Ok(())
    }

    /// How many values it has.
    pub fn len(&self) -> usize
        ensures { result ≡ length (values_held self.now) }
    {
        self.items.len()
    }

    /// The values, in order.
    pub fn items(&self) -> &[Value]
        ensures { result.now ≡ values_held self.now }
    {
        self.items.as_slice()
    }

    /// An equal list, whose texts are shared.
    ///
    /// # Errors
    /// `Memory`, where there is none for the list.
    #[cycle(share)]
    pub fn share(&self) -> Result<ValueList, TermError>
        ensures { IfOk result (λ shared. plain_values_in shared ≡ plain_values_in self.now) }
    {
        let mut items: Vec<Value> = Vec::new(*self.items.allocator());
        for item in self.items() {
            items.push(item.share()?)?;
        }
        Ok(ValueList { items })
    }
}

impl ValueMap {
    /// The map without attributes. Takes no memory.
    pub fn new(alloc: Global) -> ValueMap
        ensures { named_fields result ≡ [] }
    {
        ValueMap {
            pairs: AttributeMap::new(alloc),
        }
    }

    /// The values of these pairs, which it sorts; of pairs of one attribute the last stays.
    ///
    /// # Errors
    /// `Memory`, where there is none for the pairs.
    #[tactic(auto, using(crate::proofs::ValuePairs::fields_sorted))]
    pub fn of_pairs(alloc: Global, items: Vec<(Attr, Value)>) -> Result<ValueMap, TermError>
        ensures { IfOk result
            (λ made. named_fields made ≡ sorted_pairs text_cmp (map named_field items.items)) }
    {
        Ok(ValueMap {
            pairs: AttributeMap::of_pairs(alloc, items)?,
        })
    }

    /// Puts an attribute with its value in its place; where the map has the attribute, in place of its value.
    ///
    /// # Errors
    /// Want of memory. The map stays as it is.
    #[tactic(auto, using(crate::proofs::ValuePairs::fields_put))]
    pub fn push(&mut self, item: (Attr, Value)) -> Result<(), AllocError>
        ensures put { OnOk result (named_fields self.new
            ≡ insert_entry text_cmp (named_fields self.old) (rc_str_bytes item.0)
            (plain_value_of item.1)) }
        ensures unchanged { OnErr result (fields_held self.new ≡ fields_held self.old) }
    {
        self.pairs.push(item)
    }

    /// How many attributes it has.
    pub fn len(&self) -> usize
        ensures { result ≡ length (fields_held self.now) }
    {
        self.pairs.len()
    }

    /// The pairs, in the order of their attributes.
    pub fn items(&self) -> &[(Attr, Value)]
        ensures same { result.now ≡ fields_held self.now }
        ensures named { map named_field result.now ≡ named_fields self.now }
    {
        self.pairs.items()
    }

    /// An equal map, whose texts are shared.
    ///
    /// # Errors
    /// `Memory`, where there is none for the map.
    #[cycle(share)]
    pub fn share(&self) -> Result<ValueMap, TermError>
        ensures { IfOk result (λ shared. named_fields shared ≡ named_fields self.now) }
    {
        let mut pairs: Vec<(Attr, Value)> = self.pairs.room();
        for (name, value) in self.items() {
            pairs.push((share_text(name)?, value.share()?))?;
        }
        Ok(ValueMap {
            pairs: AttributeMap::of_ascending(pairs),
        })
    }
}

impl Value {
    /// An equal value, whose texts are shared.
    ///
    /// # Errors
    /// `Memory`, where there is none for the value.
    #[cycle(share)]
    pub fn share(&self) -> Result<Value, TermError>
        ensures { IfOk result (λ shared. plain_value_of shared ≡ plain_value_of self.now) }
    {
        match self {
            Value::Lit(literal) => Ok(Value::Lit(literal.share()?)),
            Value::Set(elements) => Ok(Value::Set(elements.share()?)),
            Value::Record(fields) => Ok(Value::Record(fields.share()?)),
            Value::ExtensionValue(call) => Ok(Value::ExtensionValue(call.share()?)),
        }
    }
}

impl PartialMap {
    /// The map without attributes. Takes no memory.
    pub fn new(alloc: Global) -> PartialMap
        ensures { known_fields result ≡ [] }
    {
        PartialMap {
            pairs: AttributeMap::new(alloc),
        }
    }

    /// What is known by these pairs, which it sorts; of pairs of one attribute the last stays.
    ///
    /// # Errors
    /// `Memory`, where there is none for the pairs.
    #[tactic(auto, using(crate::proofs::ValuePairs::known_sorted))]
    pub fn of_pairs(
        alloc: Global,
        items: Vec<(Attr, PartialValue)>,
    ) -> Result<PartialMap, TermError>
        ensures { IfOk result
            (λ made. known_fields made ≡ sorted_pairs text_cmp (map known_field items.items)) }
    {
        Ok(PartialMap {
            pairs: AttributeMap::of_pairs(alloc, items)?,
        })
    }

    /// Puts an attribute with what is known of its value in its place; where the map has the attribute, in place of what was
    /// known of its value.
    ///
    /// # Errors
    /// Want of memory. The map stays as it is.
    #[tactic(auto, using(crate::proofs::ValuePairs::known_put))]
    pub fn push(&mut self, item: (Attr, PartialValue)) -> Result<(), AllocError>
        ensures put { OnOk result (known_fields self.new
            ≡ insert_entry text_cmp (known_fields self.old) (rc_str_bytes item.0)
            (plain_known item.1)) }
        ensures unchanged { OnErr result (parts_held self.new ≡ parts_held self.old) }
    {
        self.pairs.push(item)
    }

    /// How many attributes it has.
    pub fn len(&self) -> usize
        ensures { result ≡ length (parts_held self.now) }
    {
        self.pairs.len()
    }

    /// The pairs, in the order of their attributes.
    pub fn items(&self) -> &[(Attr, PartialValue)]
        ensures same { result.now ≡ parts_held self.now }
        ensures named { map known_field result.now ≡ known_fields self.now }
    {
        self.pairs.items()
    }

    /// An equal map, whose texts are shared.
    ///
    /// # Errors
    /// `Memory`, where there is none for the map.
    pub fn share(&self) -> Result<PartialMap, TermError>
        ensures { IfOk result (λ shared. known_fields shared ≡ known_fields self.now) }
    {
        let mut pairs: Vec<(Attr, PartialValue)> = self.pairs.room();
        for (name, part) in self.items() {
            pairs.push((share_text(name)?, part.share()?))?;
        }
        Ok(PartialMap {
            pairs: AttributeMap::of_ascending(pairs),
        })
    }
}

impl PartialValue {
    /// An equal value, whose texts are shared.
    ///
    /// # Errors
    /// `Memory`, where there is none for the value.
    pub fn share(&self) -> Result<PartialValue, TermError>
        ensures { IfOk result (λ shared. plain_known shared ≡ plain_known self.now) }
    {
        match self {
            PartialValue::Value(value) => Ok(PartialValue::Value(value.share()?)),
            PartialValue::Residual => Ok(PartialValue::Residual),
        }
    }
}
