// Maps of attributes and their types.
#![tactic(auto, using(crate::specs::TypeView::views), unfolding(crate::specs::TypeView::plain_type))]

ghost use Rattle.std.specs.Prelude.{◌≡◌, ◌↔◌, [], IfOk, IsTrue, bytes_eq, length, map, option_map};
ghost use Rattle.std.specs.Map.{lookup};
ghost use Rattle.std.specs.Rc.{rc_str_bytes};
ghost use Rattle.law_terms.specs.ValueOrder.{ascends, text_cmp};
ghost use Rattle.smt_term.specs.Pairs.{attributes_in};
ghost use Rattle.smt_term.specs.SortedPairs.{sorted_pairs};
ghost use Rattle.smt_term.specs.TypeView.{attributes_held, plain_attribute, plain_attributes};
ghost use Rattle.smt_term.specs.TypeView.{plain_type};

use crate::types::TermType;
use crate::{Attr, AttributePairs, TermError};
use smt_text::share_text;
use std::alloc::Global;
use std::collections::BTreeMap;

/// The types of attributes: pairs in the order of the attributes' bytes, each attribute once. Its holders share them.
#[derive(Debug, PartialEq, Eq, PartialOrd, Ord, Drop)]
#[cycle(types)]
pub struct TypeMap {
    pairs: AttributePairs<TermType>,
}

impl TypeMap {
    /// The map of these pairs, which it sorts by their attributes; of pairs of one attribute the last stays.
    ///
    /// # Errors
    /// `Memory`, where there is none for the map.
    pub fn new(alloc: Global, items: &[(Attr, TermType)]) -> Result<TypeMap, TermError>
        ensures { IfOk result (λ made.
            plain_attributes made ≡ sorted_pairs text_cmp (map plain_attribute items.now)) }
    {
        let pairs = TypeMap::in_order(alloc, items)?;
        TypeMap::of_ascending(alloc, pairs)
    }

    // The pairs in the order of their attributes; of pairs of one attribute the last stays.
    fn in_order(
        alloc: Global,
        items: &[(Attr, TermType)],
    ) -> Result<Vec<(Attr, TermType)>, TermError>
        ensures { IfOk result (λ pairs.
            map plain_attribute pairs.items
            ≡ sorted_pairs text_cmp (map plain_attribute items.now)) }
    {
        let mut found = BTreeMap::new(alloc);
        for (name, ty) in items {
            found.insert(share_text(name)?, ty.share()?)?;
        }
        Ok(found.into_iter().collect(alloc)?)
    }

    /// The map of these pairs, whose attributes ascend.
    ///
    /// # Errors
    /// `Memory`, where there is none for the map.
    pub fn of_ascending(alloc: Global, pairs: Vec<(Attr, TermType)>) -> Result<TypeMap, TermError>
        requires { IsTrue (ascends text_cmp (attributes_in pairs.items)) }
        ensures { IfOk result (λ made. plain_attributes made ≡ map plain_attribute pairs.items) }
    {
        Ok(TypeMap {
            pairs: AttributePairs::new(alloc, pairs)?,
        })
    }

    /// How many pairs it has.
    pub fn len(&self) -> usize
        ensures { result ≡ length (plain_attributes self.now) }
    {
        self.pairs.items().len()
    }

    /// Whether it has none.
    pub fn is_empty(&self) -> bool
        ensures { IsTrue result ↔ (plain_attributes self.now ≡ []) }
    {
        self.pairs.items().is_empty()
    }

    /// The pairs, in the order of their attributes.
    pub fn items(&self) -> &[(Attr, TermType)]
        ensures same { result.now ≡ attributes_held self.now }
        ensures plain { map plain_attribute result.now ≡ plain_attributes self.now }
    {
        self.pairs.items()
    }

    /// The type of an attribute, or `None` exactly where the map does not have it.
    pub fn get(&self, key: &Attr) -> Option<&TermType>
        ensures { option_map (λ ty. plain_type ty.now) result
            ≡ lookup (bytes_eq (rc_str_bytes key.now)) (plain_attributes self.now) }
    {
        for (name, ty) in self.pairs.items() {
            if key == name {
                return Some(ty);
            }
        }
        None
    }

    /// An equal map that shares the pairs.
    ///
    /// # Errors
    /// `Memory`, where there is none for the map.
    pub fn share(&self) -> Result<TypeMap, TermError>
        ensures { IfOk result (λ shared. plain_attributes shared ≡ plain_attributes self.now) }
    {
        Ok(TypeMap {
            pairs: self.pairs.share()?,
        })
    }
}
