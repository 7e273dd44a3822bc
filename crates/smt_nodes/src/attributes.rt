// Lists of the attributes of records.
ghost use Rattle.std.specs.Prelude.{◌≡◌, ◌↔◌, [], IfOk, IsTrue, length};
ghost use Rattle.law_texts.specs.SharedTexts.{texts};
ghost use Rattle.smt_term.specs.Pairs.{attributes_in};
ghost use Rattle.law_terms.specs.ValueOrder.{ascends, text_cmp};
ghost use Rattle.smt_nodes.specs.Attributes.{attributes_of};

use smt_term::{Attr, TermError};
use smt_text::share_text;
use std::alloc::Global;
use std::rc::Rc;

/// The attributes of a record or of its type, in the order in which they were given; the holders of the list share it.
#[derive(Debug, PartialEq, Eq, PartialOrd, Ord, Drop)]
pub struct AttrList {
    items: Rc<Vec<Attr>>,
}

impl AttrList {
    /// The list of these attributes, in this order.
    ///
    /// # Errors
    /// `Memory`, where there is none for the list.
    pub fn new(alloc: Global, items: &[Attr]) -> Result<AttrList, TermError>
        ensures { IfOk result (λ list. texts (attributes_of list) ≡ texts items.now) }
    {
        let mut all = Vec::with_capacity(alloc, items.len())?;
        for item in items {
            all.push(share_text(item)?)?;
        }
        Ok(AttrList {
            items: Rc::new(alloc, all)?,
        })
    }

    /// The list of the attributes of pairs, in their order.
    ///
    /// # Errors
    /// `Memory`, where there is none for the list.
    pub fn of_pairs<T>(alloc: Global, pairs: &[(Attr, T)]) -> Result<AttrList, TermError>
        ensures { IfOk result (λ list. texts (attributes_of list) ≡ attributes_in pairs.now) }
    {
        let mut all = Vec::with_capacity(alloc, pairs.len())?;
        for (name, _) in pairs {
            all.push(share_text(name)?)?;
        }
        Ok(AttrList {
            items: Rc::new(alloc, all)?,
        })
    }

    /// How many attributes it has.
    pub fn len(&self) -> usize
        ensures { result ≡ length (attributes_of self.now) }
    {
        self.items.len()
    }

    /// Whether it has none.
    pub fn is_empty(&self) -> bool
        ensures { IsTrue result ↔ (attributes_of self.now ≡ []) }
    {
        self.items.is_empty()
    }

    /// The attributes, in order.
    pub fn items(&self) -> &[Attr]
        ensures { result.now ≡ attributes_of self.now }
    {
        self.items.as_slice()
    }

    /// An equal list that shares the attributes.
    ///
    /// # Errors
    /// `Memory`, where there is none for the list.
    pub fn share(&self) -> Result<AttrList, TermError>
        ensures { IfOk result (λ list. attributes_of list ≡ attributes_of self.now) }
    {
        Ok(AttrList {
            items: self.items.clone()?,
        })
    }
}

/// Whether these are the attributes of the pairs, in their order. Takes no memory.
pub(crate) fn are_attributes_of<T>(names: &[Attr], pairs: &[(Attr, T)]) -> bool
    ensures { IsTrue result ↔ (texts names.now ≡ attributes_in pairs.now) }
{
    if names.len() != pairs.len() {
        return false;
    }
    for (name, (own, _)) in names.iter().zip(pairs) {
        if name != own {
            return false;
        }
    }
    true
}

/// Whether each attribute is less than the next one, in the order of their bytes. Takes no memory.
pub(crate) fn are_in_order(names: &[Attr]) -> bool
    ensures { result ≡ ascends text_cmp (texts names.now) }
{
    match names.split_first() {
        Some((first, others)) => match others.split_first() {
            Some((next, _)) => first.cmp(next).is_lt() && are_in_order(others),
            None => true,
        },
        None => true,
    }
}
