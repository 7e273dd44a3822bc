// The attributes of record types.
#![tactic(auto, using(crate::specs::TypeView::cedar_views, smt_term::specs::View::views))]

ghost use Rattle.std.specs.Prelude.{◌≡◌, [], IfOk, OnErr, OnOk, length, map};
ghost use Rattle.std.specs.BTreeMap.{insert_entry};
ghost use Rattle.std.specs.Rc.{rc_str_bytes};
ghost use Rattle.smt_term.specs.SortedPairs.{sorted_pairs};
ghost use Rattle.law_terms.specs.ValueOrder.{text_cmp};
ghost use Rattle.smt_values.specs.TypeView.{named_attribute, named_attributes, pairs_held};
ghost use Rattle.smt_values.specs.TypeView.{plain_attribute_type};

use crate::AttributeMap;
use crate::cedar_type::CedarType;
use crate::compile_error::CompileError;
use smt_term::{Attr, TermError};
use smt_text::share_text;
use std::alloc::{AllocError, Global};

/// The type of an attribute, and whether each record has it.
#[derive(Debug, PartialEq, Eq, Drop)]
#[cycle(types)]
pub struct AttributeType {
    /// The type of the values.
    pub attr_type: CedarType,
    /// Whether each record of the type has the attribute.
    pub is_required: bool,
}

/// The attributes of a record type: pairs in the order of the attributes' bytes, each attribute once.
#[derive(Debug, PartialEq, Eq, Drop)]
#[cycle(types)]
pub struct Attributes {
    pairs: AttributeMap<AttributeType>,
}

impl Attributes {
    /// The map without attributes. Takes no memory.
    pub fn new(alloc: Global) -> Attributes
        ensures { named_attributes result ≡ [] }
    {
        Attributes {
            pairs: AttributeMap::new(alloc),
        }
    }

    /// The attributes of these pairs, which it sorts; of pairs of one attribute the last stays.
    ///
    /// # Errors
    /// `Memory`, where there is none for the pairs.
    pub fn of_pairs(
        alloc: Global,
        items: Vec<(Attr, AttributeType)>,
    ) -> Result<Attributes, CompileError>
        ensures { IfOk result (λ made.
            named_attributes made ≡ sorted_pairs text_cmp (map named_attribute items.items)) }
    {
        Ok(Attributes {
            pairs: AttributeMap::of_pairs(alloc, items)?,
        })
    }

    /// Puts an attribute with its type in its place; where the map has the attribute, in place of its type.
    ///
    /// # Errors
    /// Want of memory. The map stays as it is.
    pub fn push(&mut self, item: (Attr, AttributeType)) -> Result<(), AllocError>
        ensures put { OnOk result (named_attributes self.new
            ≡ insert_entry text_cmp (named_attributes self.old) (rc_str_bytes item.0)
            (plain_attribute_type item.1)) }
        ensures unchanged { OnErr result (pairs_held self.new ≡ pairs_held self.old) }
    {
        self.pairs.push(item)
    }

    /// How many attributes it has.
    pub fn len(&self) -> usize
        ensures { result ≡ length (pairs_held self.now) }
    {
        self.pairs.len()
    }

    /// The pairs, in the order of their attributes.
    pub fn items(&self) -> &[(Attr, AttributeType)]
        ensures same { result.now ≡ pairs_held self.now }
        ensures named { map named_attribute result.now ≡ named_attributes self.now }
    {
        self.pairs.items()
    }

    /// An equal map, whose texts are shared.
    ///
    /// # Errors
    /// `Memory`, where there is none for the map.
    #[cycle(share)]
    pub fn share(&self) -> Result<Attributes, TermError>
        ensures { IfOk result (λ shared. named_attributes shared ≡ named_attributes self.now) }
    {
        let mut pairs: Vec<(Attr, AttributeType)> = self.pairs.room();
        for (name, ty) in self.items() {
            pairs.push((share_text(name)?, ty.share()?))?;
        }
        Ok(Attributes {
            pairs: AttributeMap::of_ascending(pairs),
        })
    }
}

impl AttributeType {
    /// An equal type of an attribute, whose texts are shared.
    ///
    /// # Errors
    /// `Memory`, where there is none for the type.
    #[cycle(share)]
    pub fn share(&self) -> Result<AttributeType, TermError>
        ensures { IfOk result
            (λ shared. plain_attribute_type shared ≡ plain_attribute_type self.now) }
    {
        Ok(AttributeType {
            attr_type: self.attr_type.share()?,
            is_required: self.is_required,
        })
    }
}
