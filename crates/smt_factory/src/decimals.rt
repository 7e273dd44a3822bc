//! Comparisons of decimals.
ghost use Rattle.std.specs.Prelude.{◌≡◌};
ghost use Rattle.law_extensions.specs.ExtensionFunctions.{greater_than, greater_than_or_equal};
ghost use Rattle.law_extensions.specs.ExtensionFunctions.{less_than, less_than_or_equal};
ghost use Rattle.law_folding.specs.Builder.{applied, folding};
ghost use Rattle.smt_term.specs.View.{BuildsTerm, plain_term};
ghost use Rattle.smt_factory_core.specs.Results.{ResultRefines};

use smt_factory_core::{bvsle, bvslt, ext_decimal_val};
use smt_term::{Term, TermError};
use std::alloc::Global;

/// Whether the first decimal is less than the second.
///
/// # Errors
/// `Memory`, where there is none for the term.
pub fn less_than(alloc: Global, t1: Term, t2: Term) -> Result<Term, TermError>
    ensures folded { BuildsTerm result (less_than folding (plain_term t1) (plain_term t2)) }
    ensures refines { ResultRefines result (less_than applied (plain_term t1) (plain_term t2)) }
{
    bvslt(
        alloc,
        ext_decimal_val(alloc, t1)?,
        ext_decimal_val(alloc, t2)?,
    )
}

/// Whether the first decimal is at most the second.
///
/// # Errors
/// `Memory`, where there is none for the term.
pub fn less_than_or_equal(alloc: Global, t1: Term, t2: Term) -> Result<Term, TermError>
    ensures folded { BuildsTerm result
        (less_than_or_equal folding (plain_term t1) (plain_term t2)) }
    ensures refines { ResultRefines result
        (less_than_or_equal applied (plain_term t1) (plain_term t2)) }
{
    bvsle(
        alloc,
        ext_decimal_val(alloc, t1)?,
        ext_decimal_val(alloc, t2)?,
    )
}

/// Whether the first decimal is greater than the second.
///
/// # Errors
/// `Memory`, where there is none for the term.
pub fn greater_than(alloc: Global, t1: Term, t2: Term) -> Result<Term, TermError>
    ensures folded { BuildsTerm result (greater_than folding (plain_term t1) (plain_term t2)) }
    ensures refines { ResultRefines result (greater_than applied (plain_term t1) (plain_term t2)) }
{
    less_than(alloc, t2, t1)
}

/// Whether the first decimal is at least the second.
///
/// # Errors
/// `Memory`, where there is none for the term.
pub fn greater_than_or_equal(alloc: Global, t1: Term, t2: Term) -> Result<Term, TermError>
    ensures folded { BuildsTerm result
        (greater_than_or_equal folding (plain_term t1) (plain_term t2)) }
    ensures refines { ResultRefines result
        (greater_than_or_equal applied (plain_term t1) (plain_term t2)) }
{
    less_than_or_equal(alloc, t2, t1)
}
