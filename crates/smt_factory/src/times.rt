//! The arithmetic of datetimes and durations.

ghost use Rattle.std.specs.Prelude.{◌≡◌, IfOk};
ghost use Rattle.law_numbers.specs.BitOperators.{BvaddOp, BvsaddoOp, BvsleOp, BvsremOp, BvssuboOp};
ghost use Rattle.law_numbers.specs.BitOperators.{BvsubOp};
ghost use Rattle.law_extensions.specs.Answers.{TellsDate, TellsDurationSince, TellsOffset};
ghost use Rattle.law_extensions.specs.Answers.{TellsTime};
ghost use Rattle.law_extensions.specs.ExtensionFunctions.{day_literal, difference_as};
ghost use Rattle.law_extensions.specs.ExtensionFunctions.{duration_since, offset, since_midnight};
ghost use Rattle.law_extensions.specs.ExtensionFunctions.{sum_as};
ghost use Rattle.law_extensions.specs.ExtensionFunctions.{to_date, to_days, to_hours};
ghost use Rattle.law_extensions.specs.ExtensionFunctions.{to_milliseconds, to_minutes, to_seconds};
ghost use Rattle.law_extensions.specs.ExtensionFunctions.{to_time};
ghost use Rattle.smt_factory.specs.Days.{a_day_more};
ghost use Rattle.law_folding.specs.Applications.{bits_literal};
ghost use Rattle.law_folding.specs.Builder.{applied, folding};
ghost use Rattle.smt_term.specs.ExtensionView.{plain_extension_op};
ghost use Rattle.smt_term.specs.View.{BuildsTerm, plain_term};
ghost use Rattle.smt_factory_core.specs.Results.{ResultRefines};

use smt_factory_core::{
    bvadd, bvsaddo, bvsdiv, bvsle, bvsmod, bvsrem, bvssubo, bvsub, eq, ext_datetime_val,
    ext_duration_of_bitvec, ext_duration_val, extension, if_false, ite,
};
use smt_term::{ExtOp, Term, TermError};
use std::alloc::Global;

const MILLISECONDS_IN_A_SECOND: i64 = 1000;

const SECONDS_IN_A_MINUTE: i64 = 60;

const MINUTES_IN_AN_HOUR: i64 = 60;

const HOURS_IN_A_DAY: i64 = 24;

const MILLISECONDS_IN_A_DAY: i64 = 86_400_000;

/// The milliseconds of a duration, in 64 bits.
///
/// # Errors
/// `Memory`, where there is none for the term.
pub fn to_milliseconds(alloc: Global, t: Term) -> Result<Term, TermError>
    ensures folded { BuildsTerm result (to_milliseconds folding (plain_term t)) }
    ensures refines { ResultRefines result (to_milliseconds applied (plain_term t)) }
{
    ext_duration_val(alloc, t)
}

/// The whole seconds of a duration, in 64 bits, rounded towards zero.
///
/// # Errors
/// `Memory`, where there is none for the term.
pub fn to_seconds(alloc: Global, t: Term) -> Result<Term, TermError>
    ensures folded { BuildsTerm result (to_seconds folding (plain_term t)) }
    ensures refines { ResultRefines result (to_seconds applied (plain_term t)) }
{
    bvsdiv(
        alloc,
        to_milliseconds(alloc, t)?,
        Term::from(MILLISECONDS_IN_A_SECOND),
    )
}

/// The whole minutes of a duration, in 64 bits, rounded towards zero.
///
/// # Errors
/// `Memory`, where there is none for the term.
pub fn to_minutes(alloc: Global, t: Term) -> Result<Term, TermError>
    ensures folded { BuildsTerm result (to_minutes folding (plain_term t)) }
    ensures refines { ResultRefines result (to_minutes applied (plain_term t)) }
{
    bvsdiv(
        alloc,
        to_seconds(alloc, t)?,
        Term::from(SECONDS_IN_A_MINUTE),
    )
}

/// The whole hours of a duration, in 64 bits, rounded towards zero.
///
/// # Errors
/// `Memory`, where there is none for the term.
pub fn to_hours(alloc: Global, t: Term) -> Result<Term, TermError>
    ensures folded { BuildsTerm result (to_hours folding (plain_term t)) }
    ensures refines { ResultRefines result (to_hours applied (plain_term t)) }
{
    bvsdiv(alloc, to_minutes(alloc, t)?, Term::from(MINUTES_IN_AN_HOUR))
}

/// The whole days of a duration, in 64 bits, rounded towards zero.
///
/// # Errors
/// `Memory`, where there is none for the term.
pub fn to_days(alloc: Global, t: Term) -> Result<Term, TermError>
    ensures folded { BuildsTerm result (to_days folding (plain_term t)) }
    ensures refines { ResultRefines result (to_days applied (plain_term t)) }
{
    bvsdiv(alloc, to_hours(alloc, t)?, Term::from(HOURS_IN_A_DAY))
}

// What an operator makes of the sum of two numbers, none where it leaves the 64 bits.
fn sum_as(alloc: Global, op: ExtOp, x: &Term, y: &Term) -> Result<Term, TermError>
    ensures { BuildsTerm result
        (sum_as folding (plain_extension_op op) (plain_term x.now) (plain_term y.now)) }
{
    let sum = extension(alloc, op, sum_of(alloc, x, y)?)?;
    let leaves = sum_leaves(alloc, x, y)?;
    if_false(alloc, leaves, sum)
}

// The sum of two numbers.
fn sum_of(alloc: Global, x: &Term, y: &Term) -> Result<Term, TermError>
    ensures { BuildsTerm result (folding.bits BvaddOp (plain_term x.now) (plain_term y.now)) }
{
    let x = x.share()?;
    let y = y.share()?;
    bvadd(alloc, x, y)
}

// Whether the sum of two numbers leaves the 64 bits.
fn sum_leaves(alloc: Global, x: &Term, y: &Term) -> Result<Term, TermError>
    ensures { BuildsTerm result (folding.overflow BvsaddoOp (plain_term x.now) (plain_term y.now)) }
{
    let x = x.share()?;
    let y = y.share()?;
    bvsaddo(alloc, x, y)
}

// What an operator makes of the difference of two numbers, none where it leaves the 64 bits.
fn difference_as(alloc: Global, op: ExtOp, x: &Term, y: &Term) -> Result<Term, TermError>
    ensures { BuildsTerm result
        (difference_as folding (plain_extension_op op) (plain_term x.now) (plain_term y.now)) }
{
    let difference = extension(alloc, op, difference_of(alloc, x, y)?)?;
    let leaves = difference_leaves(alloc, x, y)?;
    if_false(alloc, leaves, difference)
}

// The difference of two numbers.
fn difference_of(alloc: Global, x: &Term, y: &Term) -> Result<Term, TermError>
    ensures { BuildsTerm result (folding.bits BvsubOp (plain_term x.now) (plain_term y.now)) }
{
    let x = x.share()?;
    let y = y.share()?;
    bvsub(alloc, x, y)
}

// Whether the difference of two numbers leaves the 64 bits.
fn difference_leaves(alloc: Global, x: &Term, y: &Term) -> Result<Term, TermError>
    ensures { BuildsTerm result (folding.overflow BvssuboOp (plain_term x.now) (plain_term y.now)) }
{
    let x = x.share()?;
    let y = y.share()?;
    bvssubo(alloc, x, y)
}

/// Some of the datetime that lies a duration after a datetime; none where that leaves the 64 bits. So it is of the values of the
/// terms in every interpretation.
///
/// # Errors
/// `Memory`, where there is none for the term.
pub fn offset(alloc: Global, datetime: Term, duration: Term) -> Result<Term, TermError>
    ensures folded { BuildsTerm result
        (offset folding (plain_term datetime) (plain_term duration)) }
    ensures refines { ResultRefines result
        (offset applied (plain_term datetime) (plain_term duration)) }
    ensures value { IfOk result
        (λ r. TellsOffset (plain_term datetime) (plain_term duration) (plain_term r)) }
{
    let start = ext_datetime_val(alloc, datetime)?;
    let length = ext_duration_val(alloc, duration)?;
    sum_as(alloc, ExtOp::DatetimeOfBitVec, &start, &length)
}

/// Some of the duration from the second datetime to the first; none where that leaves the 64 bits. So it is of the values of the
/// terms in every interpretation.
///
/// # Errors
/// `Memory`, where there is none for the term.
pub fn duration_since(alloc: Global, datetime: Term, start: Term) -> Result<Term, TermError>
    ensures folded { BuildsTerm result
        (duration_since folding (plain_term datetime) (plain_term start)) }
    ensures refines { ResultRefines result
        (duration_since applied (plain_term datetime) (plain_term start)) }
    ensures value { IfOk result
        (λ r. TellsDurationSince (plain_term datetime) (plain_term start) (plain_term r)) }
{
    let end = ext_datetime_val(alloc, datetime)?;
    let start = ext_datetime_val(alloc, start)?;
    difference_as(alloc, ExtOp::DurationOfBitVec, &end, &start)
}

/// Some of the last midnight at a datetime; none where that leaves the 64 bits. So it is of the value of the term in every
/// interpretation.
///
/// # Errors
/// `Memory`, where there is none for the term.
pub fn to_date(alloc: Global, datetime: Term) -> Result<Term, TermError>
    ensures folded { BuildsTerm result (to_date folding (plain_term datetime)) }
    ensures refines { ResultRefines result (to_date applied (plain_term datetime)) }
    ensures value { IfOk result (λ r. TellsDate (plain_term datetime) (plain_term r)) }
{
    let number = ext_datetime_val(alloc, datetime)?;
    let of_day = bvsmod(alloc, number.share()?, Term::from(MILLISECONDS_IN_A_DAY))?;
    difference_as(alloc, ExtOp::DatetimeOfBitVec, &number, &of_day)
}

/// The duration since the last midnight at a datetime: in every interpretation, of the value of the term.
///
/// # Errors
/// `Memory`, where there is none for the term.
pub fn to_time(alloc: Global, datetime: Term) -> Result<Term, TermError>
    ensures folded { BuildsTerm result (to_time folding (plain_term datetime)) }
    ensures refines { ResultRefines result (to_time applied (plain_term datetime)) }
    ensures value { IfOk result (λ r. TellsTime (plain_term datetime) (plain_term r)) }
{
    folded_to_time(alloc, datetime)
}

// The duration since the last midnight, folded.
fn folded_to_time(alloc: Global, datetime: Term) -> Result<Term, TermError>
    ensures { BuildsTerm result (to_time folding (plain_term datetime)) }
{
    let number = ext_datetime_val(alloc, datetime)?;
    ext_duration_of_bitvec(alloc, since_midnight(alloc, &number)?)
}

// The milliseconds since the last midnight, of a number. What division by a day leaves is below zero where the number is, and a
// day less then.
fn since_midnight(alloc: Global, number: &Term) -> Result<Term, TermError>
    ensures { BuildsTerm result (since_midnight folding (plain_term number.now)
        (folding.bits BvsremOp (plain_term number.now) day_literal)) }
{
    let left = left_of_day(alloc, number)?;
    let before_1970 = a_day_more(alloc, &left)?;
    let is_after_1970 = is_after_1970(alloc, number)?;
    ite(alloc, is_after_1970, left, before_1970)
}

// What division by a day leaves of a number.
fn left_of_day(alloc: Global, number: &Term) -> Result<Term, TermError>
    ensures { BuildsTerm result (folding.bits BvsremOp (plain_term number.now) day_literal) }
{
    let number = number.share()?;
    bvsrem(alloc, number, Term::from(MILLISECONDS_IN_A_DAY))
}

// Whether a number is that of 1970 or later.
fn is_after_1970(alloc: Global, number: &Term) -> Result<Term, TermError>
    ensures { BuildsTerm result (folding.test BvsleOp (bits_literal 64 0) (plain_term number.now)) }
{
    let number = number.share()?;
    bvsle(alloc, Term::from(0i64), number)
}

// A day more than a number, where it is not zero.
fn a_day_more(alloc: Global, left: &Term) -> Result<Term, TermError>
    ensures { BuildsTerm result (a_day_more folding (plain_term left.now)) }
{
    let day_more = bvadd(alloc, left.share()?, Term::from(MILLISECONDS_IN_A_DAY))?;
    let is_midnight = eq(alloc, left.share()?, Term::from(0i64))?;
    ite(alloc, is_midnight, Term::from(0i64), day_more)
}
