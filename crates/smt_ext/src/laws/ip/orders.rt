//! Laws of the comparisons and the hashes of addresses, prefixes and ranges.
ghost use Rattle.std.specs.Prelude.{◌≡◌, ◌↔◌, IsTrue};
ghost use Rattle.std.specs.Cmp.{IsTotalOrder};
ghost use Rattle.std.specs.declared.cmp.Ordering.TheVariants.{Equal};
ghost use Rattle.smt_ext.specs.declared.address.IPv4Addr.{IPv4Addr as ShortAddress};
ghost use Rattle.smt_ext.specs.declared.address.IPv6Addr.{IPv6Addr as LongAddress};
ghost use Rattle.smt_ext.specs.declared.prefix.IPv4Prefix.{IPv4Prefix as ShortPrefix};
ghost use Rattle.smt_ext.specs.declared.prefix.IPv6Prefix.{IPv6Prefix as LongPrefix};
ghost use Rattle.smt_ext.specs.declared.net.CIDRv4.{CIDRv4 as ShortRange};
ghost use Rattle.smt_ext.specs.declared.net.CIDRv6.{CIDRv6 as LongRange};
ghost use Rattle.smt_ext.specs.declared.net.IPNet.{IPNet as Net};

use crate::{CIDRv4, CIDRv6, IPNet, IPv4Addr, IPv4Prefix, IPv6Addr, IPv6Prefix};
use std::hash::Hash;

/// The orders of the value types are total: of any two values one stands first or they are level, and it chains.
pub fn orders_are_total()
    ensures v4_addresses { IsTotalOrder ⟦<IPv4Addr as Ord>⟧.cmp }
    ensures v6_addresses { IsTotalOrder ⟦<IPv6Addr as Ord>⟧.cmp }
    ensures v4_prefixes { IsTotalOrder ⟦<IPv4Prefix as Ord>⟧.cmp }
    ensures v6_prefixes { IsTotalOrder ⟦<IPv6Prefix as Ord>⟧.cmp }
    ensures v4_ranges { IsTotalOrder ⟦<CIDRv4 as Ord>⟧.cmp }
    ensures v6_ranges { IsTotalOrder ⟦<CIDRv6 as Ord>⟧.cmp }
    ensures ranges { IsTotalOrder ⟦<IPNet as Ord>⟧.cmp }
{}

/// Two values are level in the order of their type exactly where they are one value.
pub fn orders_agree_with_equality()
    ensures v4_addresses { (a b : ShortAddress) → (⟦<IPv4Addr as Ord>⟧.cmp a b ≡ Equal) ↔ (a ≡ b) }
    ensures v6_addresses { (a b : LongAddress) → (⟦<IPv6Addr as Ord>⟧.cmp a b ≡ Equal) ↔ (a ≡ b) }
    ensures v4_prefixes { (a b : ShortPrefix) → (⟦<IPv4Prefix as Ord>⟧.cmp a b ≡ Equal) ↔ (a ≡ b) }
    ensures v6_prefixes { (a b : LongPrefix) → (⟦<IPv6Prefix as Ord>⟧.cmp a b ≡ Equal) ↔ (a ≡ b) }
    ensures v4_ranges { (a b : ShortRange) → (⟦<CIDRv4 as Ord>⟧.cmp a b ≡ Equal) ↔ (a ≡ b) }
    ensures v6_ranges { (a b : LongRange) → (⟦<CIDRv6 as Ord>⟧.cmp a b ≡ Equal) ↔ (a ≡ b) }
    ensures ranges { (a b : Net) → (⟦<IPNet as Ord>⟧.cmp a b ≡ Equal) ↔ (a ≡ b) }
{}

/// `==` holds exactly of one value and itself.
pub fn equality_is_decided()
    ensures v4_addresses { (a b : ShortAddress) →
        IsTrue (⟦<IPv4Addr as PartialEq>⟧.eq a b) ↔ (a ≡ b) }
    ensures v6_addresses { (a b : LongAddress) →
        IsTrue (⟦<IPv6Addr as PartialEq>⟧.eq a b) ↔ (a ≡ b) }
    ensures v4_prefixes { (a b : ShortPrefix) →
        IsTrue (⟦<IPv4Prefix as PartialEq>⟧.eq a b) ↔ (a ≡ b) }
    ensures v6_prefixes { (a b : LongPrefix) →
        IsTrue (⟦<IPv6Prefix as PartialEq>⟧.eq a b) ↔ (a ≡ b) }
    ensures v4_ranges { (a b : ShortRange) → IsTrue (⟦<CIDRv4 as PartialEq>⟧.eq a b) ↔ (a ≡ b) }
    ensures v6_ranges { (a b : LongRange) → IsTrue (⟦<CIDRv6 as PartialEq>⟧.eq a b) ↔ (a ≡ b) }
    ensures ranges { (a b : Net) → IsTrue (⟦<IPNet as PartialEq>⟧.eq a b) ↔ (a ≡ b) }
{}

/// Values that are equal write the same to a hasher.
pub fn equal_values_write_the_same()
    ensures v4_addresses { (a b : ShortAddress) → IsTrue (⟦<IPv4Addr as PartialEq>⟧.eq a b) →
        ⟦<IPv4Addr as Hash>⟧.hash_input a ≡ ⟦<IPv4Addr as Hash>⟧.hash_input b }
    ensures v6_addresses { (a b : LongAddress) → IsTrue (⟦<IPv6Addr as PartialEq>⟧.eq a b) →
        ⟦<IPv6Addr as Hash>⟧.hash_input a ≡ ⟦<IPv6Addr as Hash>⟧.hash_input b }
    ensures v4_prefixes { (a b : ShortPrefix) → IsTrue (⟦<IPv4Prefix as PartialEq>⟧.eq a b) →
        ⟦<IPv4Prefix as Hash>⟧.hash_input a ≡ ⟦<IPv4Prefix as Hash>⟧.hash_input b }
    ensures v6_prefixes { (a b : LongPrefix) → IsTrue (⟦<IPv6Prefix as PartialEq>⟧.eq a b) →
        ⟦<IPv6Prefix as Hash>⟧.hash_input a ≡ ⟦<IPv6Prefix as Hash>⟧.hash_input b }
    ensures v4_ranges { (a b : ShortRange) → IsTrue (⟦<CIDRv4 as PartialEq>⟧.eq a b) →
        ⟦<CIDRv4 as Hash>⟧.hash_input a ≡ ⟦<CIDRv4 as Hash>⟧.hash_input b }
    ensures v6_ranges { (a b : LongRange) → IsTrue (⟦<CIDRv6 as PartialEq>⟧.eq a b) →
        ⟦<CIDRv6 as Hash>⟧.hash_input a ≡ ⟦<CIDRv6 as Hash>⟧.hash_input b }
    ensures ranges { (a b : Net) → IsTrue (⟦<IPNet as PartialEq>⟧.eq a b) →
        ⟦<IPNet as Hash>⟧.hash_input a ≡ ⟦<IPNet as Hash>⟧.hash_input b }
{}
