// Pairs of attributes and values.
ghost use Rattle.std.specs.Prelude.{◌&&◌, IsTrue, Some, map, nat_eq, refl};
ghost use Rattle.std.specs.Cmp.{and_equiv, and_per, both_tied, on_equiv, on_per, on_po, on_total};
ghost use Rattle.std.specs.Cmp.{partial_equiv_from_equiv, then_agrees};
ghost use Rattle.std.specs.Cmp.{then_po, then_total};
ghost use Rattle.std.specs.Cmp.Lexicographic.{lists_agrees, lists_equiv, lists_per, lists_po};
ghost use Rattle.std.specs.Cmp.Lexicographic.{lists_ties, lists_total, nat_list_cmp_total};
ghost use Rattle.std.specs.Cmp.Lexicographic.{nat_list_eq_equiv, pointwise, slice_cmp};
ghost use Rattle.std.specs.Cmp.Lexicographic.{slice_partial_cmp, texts_po, texts_ties};
ghost use Rattle.std.specs.Ordering.{ordering_then, partial_ordering_then};
ghost use Rattle.std.specs.Rc.{rc_str_bytes};
ghost use Rattle.law_terms.specs.ValueOrder.{ascends, text_cmp};

use crate::error::TermError;
use smt_text::Text;
use std::alloc::Global;
use std::cmp::Ordering;
use std::rc::Rc;

/// The name of an attribute.
pub type Attr = Text;

/// Attributes, each with a value: pairs in the order of the attributes' bytes, each attribute once. Its holders share them.
#[derive(Debug)]
pub struct AttributePairs<T> {
    items: Rc<Vec<(Attr, T)>>,
    pub ghost ascending: { IsTrue (ascends text_cmp (map (λ p. rc_str_bytes p.0) items.value.items)) },
}

// By hand, so that what lets pairs go calls this.
impl<T: Drop> Drop for AttributePairs<T> {
    fn drop(self) {
        let AttributePairs { items: _ } = self;
    }
}

impl<T: Drop> AttributePairs<T> {
    ghost use Rattle.std.specs.Prelude.{◌≡◌, IfOk};
    ghost use Rattle.smt_term.specs.Pairs.{attributes_in, pairs_of};

    /// These pairs, whose attributes ascend.
    ///
    /// # Errors
    /// `Memory`, where there is none for the pairs.
    pub fn new(alloc: Global, pairs: Vec<(Attr, T)>) -> Result<AttributePairs<T>, TermError>
        requires { IsTrue (ascends text_cmp (attributes_in pairs.items)) }
        ensures { IfOk result (λ made. pairs_of made ≡ pairs.items) }
    {
        Ok(AttributePairs {
            items: Rc::new(alloc, pairs)?,
        })
    }

    /// The pairs, in order.
    pub fn items(&self) -> &[(Attr, T)]
        ensures { result.now ≡ pairs_of self.now }
    {
        self.items.as_slice()
    }

    /// The same pairs, shared.
    ///
    /// # Errors
    /// `Memory`, where there is none for the holder.
    pub fn share(&self) -> Result<AttributePairs<T>, TermError>
        ensures { IfOk result (λ shared. pairs_of shared ≡ pairs_of self.now) }
    {
        Ok(AttributePairs {
            items: self.items.clone()?,
        })
    }
}

impl<T: PartialEq> PartialEq for AttributePairs<T> {
    ghost eq = { λ a b.
        pointwise (λ p q. pointwise nat_eq (rc_str_bytes p.0) (rc_str_bytes q.0) && T.eq p.1 q.1)
        a.items.value.items b.items.value.items };

    ghost laws = { on_per (λ m. m.items.value.items) (lists_per
        (and_per (on_per (λ p. rc_str_bytes p.0) (partial_equiv_from_equiv nat_list_eq_equiv))
        (on_per (λ p. p.1) T.laws))) };

    fn eq(&self, other: &AttributePairs<T>) -> bool {
        self.items == other.items
    }
}

impl<T: Eq> Eq for AttributePairs<T> {
    ghost laws = { on_equiv (λ m. m.items.value.items) (lists_equiv
        (and_equiv (on_equiv (λ p. rc_str_bytes p.0) nat_list_eq_equiv)
        (on_equiv (λ p. p.1) T.Eq.laws))) };
}

impl<T: PartialOrd> PartialOrd for AttributePairs<T> {
    ghost partial_cmp = { λ a b.
        slice_partial_cmp (λ p q.
        partial_ordering_then (Some (text_cmp (rc_str_bytes p.0) (rc_str_bytes q.0)))
        (T.partial_cmp p.1 q.1))
        a.items.value.items b.items.value.items };

    ghost laws = { on_po (λ m. m.items.value.items) (lists_po
        (then_po (on_po (λ p. rc_str_bytes p.0) texts_po) (on_po (λ p. p.1) T.PartialOrd.laws))) };

    fn partial_cmp(&self, other: &AttributePairs<T>) -> Option<Ordering> {
        self.items.partial_cmp(&other.items)
    }
}

impl<T: Ord> Ord for AttributePairs<T> {
    ghost cmp = { λ a b.
        slice_cmp
        (λ p q. ordering_then (text_cmp (rc_str_bytes p.0) (rc_str_bytes q.0)) (T.cmp p.1 q.1))
        a.items.value.items b.items.value.items };

    ghost total = { on_total (λ m. m.items.value.items) (lists_total
        (then_total (on_total (λ p. rc_str_bytes p.0) nat_list_cmp_total)
        (on_total (λ p. p.1) T.total))) };

    ghost matches_partial_cmp = { λ a b.
        lists_agrees (then_agrees (λ p q. refl) (λ p q. T.matches_partial_cmp p.1 q.1))
        a.items.value.items b.items.value.items };

    ghost matches_eq = { λ a b.
        let value = T.cmp in
        lists_ties
        (λ p q. ordering_then (text_cmp (rc_str_bytes p.0) (rc_str_bytes q.0)) (value p.1 q.1))
        (λ p q.
        both_tied _ _ (text_cmp (rc_str_bytes p.0) (rc_str_bytes q.0)) (value p.1 q.1)
        (texts_ties (rc_str_bytes p.0) (rc_str_bytes q.0)) (T.matches_eq p.1 q.1))
        a.items.value.items b.items.value.items };

    fn cmp(&self, other: &AttributePairs<T>) -> Ordering {
        self.items.cmp(&other.items)
    }
}
