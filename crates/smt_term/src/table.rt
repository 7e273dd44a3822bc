// Tables of terms.
#![tactic(auto, using(crate::specs::View::views))]

ghost use Rattle.std.specs.Prelude.{◌≡◌, ◌↔◌, [], IfOk, IsTrue, length, map, option_map};
ghost use Rattle.std.specs.Map.{lookup};
ghost use Rattle.law_terms.specs.TermOrder.{term_cmp, term_eq};
ghost use Rattle.law_terms.specs.ValueOrder.{ascends};
ghost use Rattle.smt_term.specs.View.{plain_term};

use crate::{Term, TermError};
use std::alloc::Global;
use std::collections::BTreeMap;
use std::rc::Rc;

/// The terms that stand beside terms: pairs in the order of their first terms, each of these once. Its holders share them.
#[derive(Debug, PartialEq, Eq, PartialOrd, Ord, Drop)]
pub struct TermTable {
    items: Rc<Vec<(Term, Term)>>,
    pub ghost ascending: { IsTrue (ascends term_cmp (map (λ p. plain_term p.0) items.value.items)) },
}

impl TermTable {
    ghost use Rattle.smt_term.specs.Tables.{plain_entries, plain_entry};
    ghost use Rattle.smt_term.specs.SortedPairs.{sorted_pairs};

    /// The table of these pairs, which it sorts by their keys; of pairs of one key the last stays.
    ///
    /// # Errors
    /// `Memory`, where there is none for the table.
    pub fn new(alloc: Global, items: &[(Term, Term)]) -> Result<TermTable, TermError>
        ensures { IfOk result
            (λ made. plain_entries made ≡ sorted_pairs term_cmp (map plain_entry items.now)) }
    {
        let pairs = TermTable::in_order(alloc, items)?;
        Ok(TermTable {
            items: Rc::new(alloc, pairs)?,
        })
    }

    // The pairs in the order of their keys; of pairs of one key the last stays.
    fn in_order(alloc: Global, items: &[(Term, Term)]) -> Result<Vec<(Term, Term)>, TermError>
        ensures { IfOk result (λ pairs.
            map plain_entry pairs.items ≡ sorted_pairs term_cmp (map plain_entry items.now)) }
    {
        let mut found = BTreeMap::new(alloc);
        for (argument, value) in items {
            found.insert(argument.share()?, value.share()?)?;
        }
        Ok(found.into_iter().collect(alloc)?)
    }

    /// How many pairs it has.
    pub fn len(&self) -> usize
        ensures { result ≡ length (plain_entries self.now) }
    {
        self.items.len()
    }

    /// Whether it has none.
    pub fn is_empty(&self) -> bool
        ensures { IsTrue result ↔ (plain_entries self.now ≡ []) }
    {
        self.items.is_empty()
    }

    /// The pairs, in the order of their keys.
    pub fn items(&self) -> &[(Term, Term)]
        ensures { map plain_entry result.now ≡ plain_entries self.now }
    {
        self.items.as_slice()
    }

    /// The term of a key, or `None` exactly where the table does not have it.
    pub fn get(&self, key: &Term) -> Option<&Term>
        ensures { option_map (λ value. plain_term value.now) result
            ≡ lookup (term_eq (plain_term key.now)) (plain_entries self.now) }
    {
        for (argument, value) in self.items.as_slice() {
            if key == argument {
                return Some(value);
            }
        }
        None
    }

    /// An equal table that shares the pairs.
    ///
    /// # Errors
    /// `Memory`, where there is none for the table.
    pub fn share(&self) -> Result<TermTable, TermError>
        ensures { IfOk result (λ shared. plain_entries shared ≡ plain_entries self.now) }
    {
        Ok(TermTable {
            items: self.items.clone()?,
        })
    }
}
