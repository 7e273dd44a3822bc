// What is said by entity types.
ghost use Rattle.std.specs.Prelude.{◌≡◌, [], IfOk, IsTrue, OnErr, OnOk, bytes_eq, length, map};
ghost use Rattle.std.specs.Prelude.{option_map};
ghost use Rattle.std.specs.BTreeMap.{insert_entry};
ghost use Rattle.std.specs.Map.{lookup};
ghost use Rattle.smt_term.specs.Entities.{bytes_of_type};
ghost use Rattle.smt_term.specs.SortedPairs.{sorted_pairs};
ghost use Rattle.law_terms.specs.ValueOrder.{ascends, text_cmp};
ghost use Rattle.smt_symbolizer.specs.Named.{named};

use smt_term::{EntityType, TermError};
use smt_values::put;
use std::alloc::{AllocError, Global};
use std::collections::BTreeMap;

/// Entity types, each with a value: pairs in the order of the types' bytes, each type once.
#[derive(Debug, PartialEq, Eq, Drop)]
pub struct ByType<V> {
    items: Vec<(EntityType, V)>,
    pub ghost ascending: { IsTrue (ascends text_cmp (map (λ p. bytes_of_type p.0) items.items)) },
}

impl<V: Drop> ByType<V> {
    ghost use Rattle.smt_symbolizer.specs.ByType.{pairs_held};

    /// The map without types. Takes no memory.
    pub fn new(alloc: Global) -> ByType<V>
        ensures { pairs_held result ≡ [] }
    {
        ByType {
            items: Vec::new(alloc),
        }
    }

    /// The values of these pairs, which it sorts; of pairs of one type the last stays.
    ///
    /// # Errors
    /// `Memory`, where there is none for the pairs.
    pub fn of_pairs(alloc: Global, items: Vec<(EntityType, V)>) -> Result<ByType<V>, TermError>
        ensures { IfOk result
            (λ made. map named (pairs_held made) ≡ sorted_pairs text_cmp (map named items.items)) }
    {
        Ok(ByType {
            items: in_order(alloc, items)?,
        })
    }

    /// The values of these pairs, whose types ascend. Takes no memory.
    pub(crate) fn of_ascending(items: Vec<(EntityType, V)>) -> ByType<V>
        requires { IsTrue (ascends text_cmp (map (λ p. bytes_of_type p.0) items.items)) }
        ensures { pairs_held result ≡ items.items }
    {
        ByType { items }
    }

    /// Puts a type with its value in its place; where the map has the type, in place of its value.
    ///
    /// # Errors
    /// Want of memory. The map stays as it is.
    pub fn push(&mut self, item: (EntityType, V)) -> Result<(), AllocError>
        ensures put { OnOk result (map named (pairs_held self.new)
            ≡ insert_entry text_cmp (map named (pairs_held self.old)) (bytes_of_type item.0)
            item.1) }
        ensures unchanged { OnErr result (pairs_held self.new ≡ pairs_held self.old) }
    {
        put(&mut self.items, item.0, item.1)
    }

    /// How many types it has.
    pub fn len(&self) -> usize
        ensures { result ≡ length (pairs_held self.now) }
    {
        self.items.len()
    }

    /// The types with their values, in order.
    pub fn items(&self) -> &[(EntityType, V)]
        ensures { result.now ≡ pairs_held self.now }
    {
        self.items.as_slice()
    }

    /// An empty list with this map's allocator. Takes no memory.
    pub(crate) fn room(&self) -> Vec<(EntityType, V)>
        ensures { result.items ≡ [] }
    {
        Vec::new(*self.items.allocator())
    }

    /// The value of a type, or `None` exactly where the type is not there.
    pub fn get(&self, ety: &EntityType) -> Option<&V>
        ensures { option_map (λ value. value.now) result
            ≡ lookup (bytes_eq (bytes_of_type ety.now)) (map named (pairs_held self.now)) }
    {
        for (name, value) in self.items.as_slice() {
            if ety == name {
                return Some(value);
            }
        }
        None
    }
}

/// The pairs in the order of their types; of pairs of one type the last stays.
fn in_order<V: Drop>(
    alloc: Global,
    items: Vec<(EntityType, V)>,
) -> Result<Vec<(EntityType, V)>, TermError>
    ensures { IfOk result
        (λ pairs. map named pairs.items ≡ sorted_pairs text_cmp (map named items.items)) }
{
    let mut found = BTreeMap::new(alloc);
    for (ety, value) in items {
        found.insert(ety, value)?;
    }
    Ok(found.into_iter().collect(alloc)?)
}
