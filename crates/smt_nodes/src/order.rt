// The order of types, of functions and of terms, by their nodes.
ghost use Rattle.std.specs.Prelude.{◌≡◌, IfSome, IsTrue, Some};
ghost use Rattle.law_terms.specs.Meanings.{meanings};
ghost use Rattle.law_terms.specs.Nodes.{Meaning};
ghost use Rattle.law_terms.specs.Plain.{PlainTerm};
ghost use Rattle.law_terms.specs.TermOrder.{term_cmp};
ghost use Rattle.law_terms.specs.ValueOrder.{ascends, is_below};
ghost use Rattle.smt_nodes.specs.View.{places_of};
ghost use Rattle.smt_nodes.specs.Kinds.{terms_at};
ghost use Rattle.smt_nodes.specs.Order.{are_alike, meaning_cmp};
ghost use Rattle.smt_nodes.specs.Interned.{IsNumber};

use crate::NodeId;
use crate::interner::Interner;
use crate::label_order::{Difference, compare_labels, parts_difference};
use std::cmp::Ordering;

impl Interner {
    ghost use Rattle.smt_nodes.specs.Interned.{meaning_in, nodes_of};

    /// Whether each term is less than the next one.
    pub(crate) fn ascend(&self, ids: &[NodeId]) -> bool
        ensures { IfSome (terms_at (meanings (nodes_of self.now)) (places_of ids.now))
            (λ terms. result ≡ ascends term_cmp terms) }
    {
        match ids.split_first() {
            Some((first, others)) => self.is_below(*first, others) && self.ascend(others),
            None => true,
        }
    }

    // Whether a term is less than the first of the others, where there is one.
    fn is_below(&self, term: NodeId, others: &[NodeId]) -> bool
        ensures { (t : PlainTerm) → IsNumber self.now term t →
            IfSome (terms_at (meanings (nodes_of self.now)) (places_of others.now))
            (λ terms. result ≡ is_below term_cmp t terms) }
    {
        match others.split_first() {
            Some((next, _)) => self.compare(term, *next).is_lt(),
            None => true,
        }
    }

    /// How two types, two functions or two terms compare. It goes down to where their parts first differ, since the same
    /// number stands for the same.
    pub(crate) fn compare(&self, a: NodeId, b: NodeId) -> Ordering
        ensures { (m n : Meaning) → meaning_in self.now a ≡ Some m →
            meaning_in self.now b ≡ Some n → IsTrue (are_alike m n) → result ≡ meaning_cmp m n }
    {
        match self.node(a) {
            Some(first) => match self.node(b) {
                Some(second) => match compare_labels(&first.label, &second.label) {
                    Ordering::Equal => {
                        match parts_difference(
                            &first.label,
                            &second.label,
                            first.parts.items(),
                            second.parts.items(),
                        ) {
                            Difference::Nowhere => Ordering::Equal,
                            Difference::At(x, y) => self.compare(x, y),
                            Difference::Length(longer) => longer,
                        }
                    }
                    other => other,
                },
                None => Ordering::Equal,
            },
            None => Ordering::Equal,
        }
    }
}
