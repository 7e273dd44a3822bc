// A pair put into pairs that are in the order of their keys.
#![tactic(auto)]

ghost use Rattle.std.specs.Prelude.{◌≡◌, OnErr, OnOk};
ghost use Rattle.std.specs.BTreeMap.{insert_entry};
ghost use Rattle.smt_values.specs.KeyPlaces.{IsPlace};

use std::alloc::{AllocError, Global};
use std::cmp::Ordering;

/// Puts a pair in its place among pairs that ascend by their keys. Where its key is there already, its value comes in place
/// of the value there.
///
/// # Errors
/// Want of memory. The pairs stay as they are.
pub fn put<K: Ord + Drop, V: Drop>(
    items: &mut Vec<(K, V)>,
    key: K,
    value: V,
) -> Result<(), AllocError>
    ensures put { OnOk result (items.new.items ≡ insert_entry K.cmp items.old.items key value) }
    ensures unchanged { OnErr result (items.new.items ≡ items.old.items) }
{
    match place_of(items.as_slice(), &key) {
        Ok(place) => items[place].1 = value,
        Err(place) => items.insert(place, (key, value))?,
    }
    Ok(())
}

// Where a key stands among pairs, or else where it goes.
fn place_of<K: Ord, V>(items: &[(K, V)], key: &K) -> Result<usize, usize>
    ensures { IsPlace K.cmp key.now items.now result }
{
    let mut place = 0;
    for item in items {
        match key.cmp(&item.0) {
            Ordering::Greater => place += 1,
            Ordering::Equal => return Ok(place),
            Ordering::Less => return Err(place),
        }
    }
    Err(place)
}
