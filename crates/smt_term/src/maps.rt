#![tactic(auto, using(crate::specs::View::views), unfolding(crate::specs::TypeView::plain_type, crate::specs::View::plain_term))]
// Maps of attributes and their terms.
ghost use Rattle.std.specs.Prelude.{◌≡◌, ◌↔◌, [], IfOk, IsTrue, bytes_eq, length, map, option_map};
ghost use Rattle.std.specs.Map.{lookup};
ghost use Rattle.std.specs.Rc.{rc_str_bytes};
ghost use Rattle.law_terms.specs.ValueOrder.{text_cmp};
ghost use Rattle.smt_term.specs.Maps.{plain_field, plain_fields};
ghost use Rattle.smt_term.specs.SortedPairs.{sorted_pairs};
ghost use Rattle.smt_term.specs.View.{fields_of, plain_term};

use crate::term::Term;
use crate::{Attr, AttributePairs, TermError};
use smt_text::share_text;
use std::alloc::Global;
use std::collections::BTreeMap;

/// The terms of attributes: pairs in the order of the attributes' bytes, each attribute once. Its holders share them.
#[derive(Debug, PartialEq, Eq, PartialOrd, Ord, Drop)]
#[cycle(term)]
pub struct TermMap {
    pairs: AttributePairs<Term>,
}

impl TermMap {
    /// The map of these pairs, which it sorts by their attributes; of pairs of one attribute the last stays.
    ///
    /// # Errors
    /// `Memory`, where there is none for the map.
    pub fn new(alloc: Global, items: &[(Attr, Term)]) -> Result<TermMap, TermError>
        ensures { IfOk result
            (λ made. plain_fields made ≡ sorted_pairs text_cmp (map plain_field items.now)) }
    {
        let pairs = TermMap::in_order(alloc, items)?;
        Ok(TermMap {
            pairs: AttributePairs::new(alloc, pairs)?,
        })
    }

    // The pairs in the order of their attributes; of pairs of one attribute the last stays.
    fn in_order(alloc: Global, items: &[(Attr, Term)]) -> Result<Vec<(Attr, Term)>, TermError>
        ensures { IfOk result (λ pairs.
            map plain_field pairs.items ≡ sorted_pairs text_cmp (map plain_field items.now)) }
    {
        let mut found = BTreeMap::new(alloc);
        for (name, term) in items {
            found.insert(share_text(name)?, term.share()?)?;
        }
        Ok(found.into_iter().collect(alloc)?)
    }

    /// How many pairs it has.
    pub fn len(&self) -> usize
        ensures { result ≡ length (plain_fields self.now) }
    {
        self.pairs.items().len()
    }

    /// Whether it has none.
    pub fn is_empty(&self) -> bool
        ensures { IsTrue result ↔ (plain_fields self.now ≡ []) }
    {
        self.pairs.items().is_empty()
    }

    /// The pairs, in the order of their attributes.
    pub fn items(&self) -> &[(Attr, Term)]
        ensures same { result.now ≡ fields_of self.now }
        ensures plain { map plain_field result.now ≡ plain_fields self.now }
    {
        self.pairs.items()
    }

    /// The term of an attribute, or `None` exactly where the map does not have it.
    pub fn get(&self, key: &Attr) -> Option<&Term>
        ensures { option_map (λ term. plain_term term.now) result
            ≡ lookup (bytes_eq (rc_str_bytes key.now)) (plain_fields self.now) }
    {
        for (name, term) in self.pairs.items() {
            if key == name {
                return Some(term);
            }
        }
        None
    }

    /// An equal map that shares the pairs.
    ///
    /// # Errors
    /// `Memory`, where there is none for the map.
    pub fn share(&self) -> Result<TermMap, TermError>
        ensures { IfOk result (λ shared. plain_fields shared ≡ plain_fields self.now) }
    {
        Ok(TermMap {
            pairs: self.pairs.share()?,
        })
    }
}
