// Values by attributes.
#![tactic(auto)]

ghost use Rattle.std.specs.Prelude.{◌≡◌, ◌&&◌, IfOk, IsTrue, map, nat_eq};
ghost use Rattle.std.specs.Cmp.{and_equiv, and_per, on_equiv, on_per, partial_equiv_from_equiv};
ghost use Rattle.std.specs.Cmp.Lexicographic.{lists_equiv, lists_per, nat_list_eq_equiv, pointwise};
ghost use Rattle.std.specs.Rc.{rc_str_bytes};
ghost use Rattle.law_terms.specs.ValueOrder.{ascends, text_cmp};
ghost use Rattle.smt_values.specs.Named.{named};
ghost use Rattle.smt_term.specs.SortedPairs.{sorted_pairs};

use crate::placing::put;
use smt_term::{Attr, TermError};
use std::alloc::{AllocError, Global};
use std::collections::BTreeMap;

/// Attributes, each with a value: pairs in the order of the attributes' bytes, each attribute once.
#[derive(Debug)]
pub struct AttributeMap<V> {
    items: Vec<(Attr, V)>,
    pub ghost ascending: { IsTrue (ascends text_cmp (map (λ p. rc_str_bytes p.0) items.items)) },
}

// By hand, so that what lets a map go calls this.
impl<V: Drop> Drop for AttributeMap<V> {
    fn drop(self) {
        let AttributeMap { items: _ } = self;
    }
}

impl<V: Drop> AttributeMap<V> {
    ghost use Rattle.std.specs.Prelude.{[], OnErr, OnOk, length};
    ghost use Rattle.std.specs.BTreeMap.{insert_entry};
    ghost use Rattle.smt_term.specs.Pairs.{attributes_in};
    ghost use Rattle.smt_values.specs.AttributeMaps.{named_pairs, pairs_of};

    /// The map without attributes. Takes no memory.
    pub fn new(alloc: Global) -> AttributeMap<V>
        ensures { pairs_of result ≡ [] }
    {
        AttributeMap {
            items: Vec::new(alloc),
        }
    }

    /// The values of these pairs, whose attributes ascend. Takes no memory.
    pub fn of_ascending(pairs: Vec<(Attr, V)>) -> AttributeMap<V>
        requires { IsTrue (ascends text_cmp (attributes_in pairs.items)) }
        ensures { pairs_of result ≡ pairs.items }
    {
        AttributeMap { items: pairs }
    }

    /// The values of these pairs, which it sorts; of pairs of one attribute the last stays.
    ///
    /// # Errors
    /// `Memory`, where there is none for the pairs.
    pub fn of_pairs(alloc: Global, items: Vec<(Attr, V)>) -> Result<AttributeMap<V>, TermError>
        ensures { IfOk result
            (λ made. named_pairs made ≡ sorted_pairs text_cmp (map named items.items)) }
    {
        Ok(AttributeMap {
            items: in_order(alloc, items)?,
        })
    }

    /// Puts a pair in its place; where the map has its attribute, its value comes in place of the value there.
    ///
    /// # Errors
    /// Want of memory. The map stays as it is.
    pub fn push(&mut self, item: (Attr, V)) -> Result<(), AllocError>
        ensures put { OnOk result (named_pairs self.new
            ≡ insert_entry text_cmp (named_pairs self.old) (rc_str_bytes item.0) item.1) }
        ensures unchanged { OnErr result (pairs_of self.new ≡ pairs_of self.old) }
    {
        put(&mut self.items, item.0, item.1)
    }

    /// How many attributes it has.
    pub fn len(&self) -> usize
        ensures { result ≡ length (pairs_of self.now) }
    {
        self.items.len()
    }

    /// The pairs, in order.
    pub fn items(&self) -> &[(Attr, V)]
        ensures { result.now ≡ pairs_of self.now }
    {
        self.items.as_slice()
    }

    /// An empty list with this map's allocator. Takes no memory.
    pub fn room(&self) -> Vec<(Attr, V)>
        ensures { result.items ≡ [] }
    {
        Vec::new(*self.items.allocator())
    }
}

impl<V: PartialEq> PartialEq for AttributeMap<V> {
    ghost eq = { λ a b.
        pointwise (λ p q. pointwise nat_eq (rc_str_bytes p.0) (rc_str_bytes q.0) && V.eq p.1 q.1)
        a.items.items b.items.items };

    ghost laws = { on_per (λ m. m.items.items) (lists_per (and_per
        (on_per (λ p. rc_str_bytes p.0) (partial_equiv_from_equiv nat_list_eq_equiv))
        (on_per (λ p. p.1) V.laws))) };

    fn eq(&self, other: &AttributeMap<V>) -> bool {
        self.items == other.items
    }
}

impl<V: Eq> Eq for AttributeMap<V> {
    ghost laws = { on_equiv (λ m. m.items.items) (lists_equiv
        (and_equiv (on_equiv (λ p. rc_str_bytes p.0) nat_list_eq_equiv)
        (on_equiv (λ p. p.1) V.Eq.laws))) };
}

/// The pairs in the order of their attributes; of pairs of one attribute the last stays.
fn in_order<V: Drop>(alloc: Global, items: Vec<(Attr, V)>) -> Result<Vec<(Attr, V)>, TermError>
    ensures { IfOk result
        (λ pairs. map named pairs.items ≡ sorted_pairs text_cmp (map named items.items)) }
{
    let found = by_attribute(alloc, items)?;
    Ok(found.into_iter().collect(alloc)?)
}

/// The values by their attributes; of pairs of one attribute the last stays.
fn by_attribute<V: Drop>(
    alloc: Global,
    items: Vec<(Attr, V)>,
) -> Result<BTreeMap<Attr, V>, TermError>
    ensures { IfOk result
        (λ found. map named found.entries ≡ sorted_pairs text_cmp (map named items.items)) }
{
    let mut found = BTreeMap::new(alloc);
    for (name, value) in items {
        found.insert(name, value)?;
    }
    Ok(found)
}
