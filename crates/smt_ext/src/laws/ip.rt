//! Laws of IP ranges: their texts, and chosen ranges.
ghost use Rattle.std.specs.Prelude.{◌≡◌, ◌↔◌, ℕ, List, IsTrue};
ghost use Rattle.smt_ext.specs.declared.net.IPNet.{IPNet as Net};
ghost use Rattle.smt_ext.specs.IpRows.{IpRows};
ghost use Rattle.smt_ext.specs.IpOrder.{prefix_cmp, range_cmp};
ghost use Rattle.smt_ext.specs.declared.prefix.IPv4Prefix.{IPv4Prefix as ShortPrefix};
ghost use Rattle.smt_ext.specs.declared.prefix.IPv6Prefix.{IPv6Prefix as LongPrefix};
ghost use Rattle.smt_ext.specs.IpPrinted.{range_text};
ghost use Rattle.smt_ext.specs.IpRanges.{Range};
ghost use Rattle.smt_ext.specs.IpText.{WritesRange};
ghost use Rattle.smt_ext.specs.IpView.{v4_prefix, v6_prefix, range_of};

use crate::{IPNet, IPv4Prefix, IPv6Prefix};

pub mod orders;

/// IP ranges as sets of addresses, and their printed texts, at chosen ranges.
pub fn rows()
    ensures { IpRows }
{}

/// A text writes one range at most.
pub fn texts_write_one_range()
    ensures { (text : List ℕ) (r t : Range) → WritesRange text r → WritesRange text t → r ≡ t }
{}

/// The printed text of a value writes that value's range.
pub fn printed_text_is_read()
    ensures { (net : Net) → WritesRange (range_text (range_of net)) (range_of net) }
{}

/// Prefixes are ordered by their number of bits, no prefix last.
pub fn prefixes_are_ordered()
    ensures short { (p q : ShortPrefix) →
        ⟦<IPv4Prefix as Ord>⟧.cmp p q ≡ prefix_cmp (v4_prefix p) (v4_prefix q) }
    ensures long { (p q : LongPrefix) →
        ⟦<IPv6Prefix as Ord>⟧.cmp p q ≡ prefix_cmp (v6_prefix p) (v6_prefix q) }
{}

/// Ranges are ordered by family, address and prefix, and are equal where all three are.
pub fn ranges_are_ordered()
    ensures order { (a b : Net) → ⟦<IPNet as Ord>⟧.cmp a b ≡ range_cmp (range_of a) (range_of b) }
    ensures equality { (a b : Net) →
        IsTrue (⟦<IPNet as PartialEq>⟧.eq a b) ↔ (range_of a ≡ range_of b) }
    ensures one { (a b : Net) → range_of a ≡ range_of b → a ≡ b }
{}
