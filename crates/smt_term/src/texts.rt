// Sets of texts.
ghost use Rattle.std.specs.Prelude.{◌≡◌, ◌↔◌, [], IfOk, IsTrue, bytes_eq, length, map};
ghost use Rattle.std.specs.List.{list_any};
ghost use Rattle.std.specs.Rc.{rc_str_bytes};
ghost use Rattle.law_terms.specs.ValueOrder.{ascends, text_cmp};

use crate::error::TermError;
use smt_text::{Text, share_text};
use std::alloc::Global;
use std::collections::BTreeSet;
use std::rc::Rc;

/// A set of texts, such as the names of an enum type's members: in the order of their bytes, each once. Its holders share
/// them.
#[derive(Debug, PartialEq, Eq, PartialOrd, Ord, Drop)]
pub struct TextSet {
    items: Rc<Vec<Text>>,
    pub ghost ascending: { IsTrue (ascends text_cmp (map rc_str_bytes items.value.items)) },
}

impl TextSet {
    ghost use Rattle.smt_term.specs.TextSets.{sorted_texts, texts_of};

    /// The set of these texts, which it sorts; of equal ones it keeps one.
    ///
    /// # Errors
    /// `Memory`, where there is none for the set.
    pub fn new(alloc: Global, items: &[Text]) -> Result<TextSet, TermError>
        ensures { IfOk result (λ set. texts_of set ≡ sorted_texts (map rc_str_bytes items.now)) }
    {
        let texts = TextSet::in_order(alloc, items)?;
        Ok(TextSet {
            items: Rc::new(alloc, texts)?,
        })
    }

    // The texts in the order of their bytes, each once.
    fn in_order(alloc: Global, items: &[Text]) -> Result<Vec<Text>, TermError>
        ensures { IfOk result
            (λ texts. map rc_str_bytes texts.items ≡ sorted_texts (map rc_str_bytes items.now)) }
    {
        let mut found = BTreeSet::new(alloc);
        for item in items {
            found.insert(share_text(item)?)?;
        }
        Ok(found.into_iter().collect(alloc)?)
    }

    /// How many texts it has.
    pub fn len(&self) -> usize
        ensures { result ≡ length (texts_of self.now) }
    {
        self.items.len()
    }

    /// Whether it has none.
    pub fn is_empty(&self) -> bool
        ensures { IsTrue result ↔ (texts_of self.now ≡ []) }
    {
        self.items.is_empty()
    }

    /// The texts, in order.
    pub fn items(&self) -> &[Text]
        ensures { map rc_str_bytes result.now ≡ texts_of self.now }
    {
        self.items.as_slice()
    }

    /// Whether it has this text.
    pub fn contains(&self, text: &Text) -> bool
        ensures { result ≡ list_any (bytes_eq (rc_str_bytes text.now)) (texts_of self.now) }
    {
        for item in self.items.as_slice() {
            if text == item {
                return true;
            }
        }
        false
    }

    /// An equal set that shares the texts.
    ///
    /// # Errors
    /// `Memory`, where there is none for the set.
    pub fn share(&self) -> Result<TextSet, TermError>
        ensures { IfOk result (λ set. texts_of set ≡ texts_of self.now) }
    {
        Ok(TextSet {
            items: self.items.clone()?,
        })
    }
}
