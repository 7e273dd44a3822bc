//! Laws of the comparisons and the hashes of decimals, datetimes and durations, and of a value of one of the four types.
ghost use Rattle.std.specs.Prelude.{◌≡◌, ◌↔◌, IsTrue};
ghost use Rattle.std.specs.Cmp.{IsTotalOrder};
ghost use Rattle.std.specs.declared.cmp.Ordering.TheVariants.{Equal};
ghost use Rattle.smt_ext.specs.declared.decimal.Decimal.{Decimal as Number};
ghost use Rattle.smt_ext.specs.declared.datetime.Datetime.{Datetime as Moment};
ghost use Rattle.smt_ext.specs.declared.datetime.Duration.{Duration as Span};
ghost use Rattle.smt_ext.specs.declared.ext.Ext.{Ext as Value};

use crate::{Datetime, Decimal, Duration, Ext};
use std::hash::Hash;

/// The orders of the value types are total: of any two values one stands first or they are level, and it chains.
pub fn orders_are_total()
    ensures decimals { IsTotalOrder ⟦<Decimal as Ord>⟧.cmp }
    ensures datetimes { IsTotalOrder ⟦<Datetime as Ord>⟧.cmp }
    ensures durations { IsTotalOrder ⟦<Duration as Ord>⟧.cmp }
    ensures values { IsTotalOrder ⟦<Ext as Ord>⟧.cmp }
{}

/// Two values are level in the order of their type exactly where they are one value.
pub fn orders_agree_with_equality()
    ensures decimals { (a b : Number) → (⟦<Decimal as Ord>⟧.cmp a b ≡ Equal) ↔ (a ≡ b) }
    ensures datetimes { (a b : Moment) → (⟦<Datetime as Ord>⟧.cmp a b ≡ Equal) ↔ (a ≡ b) }
    ensures durations { (a b : Span) → (⟦<Duration as Ord>⟧.cmp a b ≡ Equal) ↔ (a ≡ b) }
    ensures values { (a b : Value) → (⟦<Ext as Ord>⟧.cmp a b ≡ Equal) ↔ (a ≡ b) }
{}

/// `==` holds exactly of one value and itself.
pub fn equality_is_decided()
    ensures decimals { (a b : Number) → IsTrue (⟦<Decimal as PartialEq>⟧.eq a b) ↔ (a ≡ b) }
    ensures datetimes { (a b : Moment) → IsTrue (⟦<Datetime as PartialEq>⟧.eq a b) ↔ (a ≡ b) }
    ensures durations { (a b : Span) → IsTrue (⟦<Duration as PartialEq>⟧.eq a b) ↔ (a ≡ b) }
    ensures values { (a b : Value) → IsTrue (⟦<Ext as PartialEq>⟧.eq a b) ↔ (a ≡ b) }
{}

/// Values that are equal write the same to a hasher.
pub fn equal_values_write_the_same()
    ensures decimals { (a b : Number) → IsTrue (⟦<Decimal as PartialEq>⟧.eq a b) →
        ⟦<Decimal as Hash>⟧.hash_input a ≡ ⟦<Decimal as Hash>⟧.hash_input b }
    ensures datetimes { (a b : Moment) → IsTrue (⟦<Datetime as PartialEq>⟧.eq a b) →
        ⟦<Datetime as Hash>⟧.hash_input a ≡ ⟦<Datetime as Hash>⟧.hash_input b }
    ensures durations { (a b : Span) → IsTrue (⟦<Duration as PartialEq>⟧.eq a b) →
        ⟦<Duration as Hash>⟧.hash_input a ≡ ⟦<Duration as Hash>⟧.hash_input b }
    ensures values { (a b : Value) → IsTrue (⟦<Ext as PartialEq>⟧.eq a b) →
        ⟦<Ext as Hash>⟧.hash_input a ≡ ⟦<Ext as Hash>⟧.hash_input b }
{}
