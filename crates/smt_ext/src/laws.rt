//! Laws of the definitions that the contracts cite, proved with no code.
ghost use Rattle.std.specs.Prelude.{◌≡◌, ◌↔◌, ℕ, ℤ, List, IsTrue};
ghost use Rattle.std.specs.Ordering.{int_cmp};
ghost use Rattle.smt_ext.specs.DatetimeRefusal.{IsMisshapen, IsUnreal};
ghost use Rattle.smt_ext.specs.DatetimeText.{IsDatetimeText};
ghost use Rattle.smt_ext.specs.Decimal.{IsDecimalText};
ghost use Rattle.law_numbers.specs.Longs.{IsLong};
ghost use Rattle.smt_ext.specs.DurationRefusal.{HasFault};
ghost use Rattle.smt_ext.specs.DurationText.{IsDurationText};
ghost use Rattle.smt_ext.specs.Rows.{WorkedTexts};
ghost use Rattle.smt_ext.specs.ExtOrder.{SameExt, ext_cmp};
ghost use Rattle.smt_ext.specs.Milliseconds.{IsLastMidnight, datetime_value, day_start};
ghost use Rattle.smt_ext.specs.Milliseconds.{duration_value};
ghost use Rattle.smt_ext.specs.Printed.{decimal_text};
ghost use Rattle.smt_ext.specs.declared.datetime.Datetime.{Datetime as Moment};
ghost use Rattle.smt_ext.specs.declared.datetime.Duration.{Duration as Span};
ghost use Rattle.smt_ext.specs.declared.datetime.span.Fault.{Fault};
ghost use Rattle.smt_ext.specs.declared.decimal.Decimal.{Decimal as Number};
ghost use Rattle.smt_ext.specs.declared.ext.Ext.{Ext as Value};

use crate::{Datetime, Decimal, Duration, Ext};

pub mod ip;
pub mod orders;

/// Texts at the limits, and their values.
pub fn worked_texts()
    ensures { WorkedTexts }
{}

/// A text is the text of one decimal at most.
pub fn decimal_texts_have_one_value()
    ensures { (text : List ℕ) (v w : ℤ) → IsDecimalText text v → IsDecimalText text w → v ≡ w }
{}

/// What is printed of a decimal is read back.
pub fn printed_decimals_are_read()
    ensures { (v : ℤ) → IsLong v → IsDecimalText (decimal_text v) v }
{}

/// A text is the text of one datetime at most, or gets one refusal.
pub fn datetime_texts_have_one_answer()
    ensures value { (text : List ℕ) (v w : ℤ) → IsDatetimeText text v → IsDatetimeText text w →
        v ≡ w }
    ensures misshapen { (text : List ℕ) (v : ℤ) → IsMisshapen text → IsDatetimeText text v → ⊥ }
    ensures unreal { (text : List ℕ) (v : ℤ) → IsUnreal text → IsDatetimeText text v → ⊥ }
    ensures refusal { (text : List ℕ) → IsMisshapen text → IsUnreal text → ⊥ }
{}

/// A text is the text of one duration at most, or gets one refusal.
pub fn duration_texts_have_one_answer()
    ensures value { (text : List ℕ) (v w : ℤ) → IsDurationText text v → IsDurationText text w →
        v ≡ w }
    ensures faulty { (text : List ℕ) (v : ℤ) (f : Fault) → IsDurationText text v → HasFault text f →
        ⊥ }
    ensures fault { (text : List ℕ) (f g : Fault) → HasFault text f → HasFault text g → f ≡ g }
{}

/// A day starts at the greatest multiple of its milliseconds that is not above.
pub fn days_start_at_midnight()
    ensures { (v : ℤ) → IsLastMidnight v (day_start v) }
{}

/// Decimals, datetimes and durations are ordered by their numbers, and are equal where these are.
pub fn numbers_are_ordered()
    ensures decimals { (a b : Number) →
        ⟦<Decimal as Ord>⟧.cmp a b ≡ int_cmp a.ten_thousandths b.ten_thousandths }
    ensures datetimes { (a b : Moment) →
        ⟦<Datetime as Ord>⟧.cmp a b ≡ int_cmp (datetime_value a) (datetime_value b) }
    ensures durations { (a b : Span) →
        ⟦<Duration as Ord>⟧.cmp a b ≡ int_cmp (duration_value a) (duration_value b) }
    ensures equal_decimals { (a b : Number) →
        IsTrue (⟦<Decimal as PartialEq>⟧.eq a b) ↔ (a.ten_thousandths ≡ b.ten_thousandths) }
    ensures equal_datetimes { (a b : Moment) →
        IsTrue (⟦<Datetime as PartialEq>⟧.eq a b) ↔ (datetime_value a ≡ datetime_value b) }
    ensures equal_durations { (a b : Span) →
        IsTrue (⟦<Duration as PartialEq>⟧.eq a b) ↔ (duration_value a ≡ duration_value b) }
{}

/// Values of the four types are ordered by their kind, then inside it, and are equal where both agree.
pub fn values_are_ordered()
    ensures order { (a b : Value) → ⟦<Ext as Ord>⟧.cmp a b ≡ ext_cmp a b }
    ensures equality { (a b : Value) → IsTrue (⟦<Ext as PartialEq>⟧.eq a b) ↔ SameExt a b }
{}
