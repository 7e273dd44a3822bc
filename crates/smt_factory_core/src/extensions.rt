//! The calls of the operators of the extension types.
#![tactic(auto, using(smt_term::specs::View::views, crate::proofs::FoldingExtensions::extending))]

ghost use Rattle.std.specs.Prelude.{◌≡◌};
ghost use Rattle.law_folding.specs.Applications.{extension_of};
ghost use Rattle.law_folding.specs.FoldExtensions.{folded_extension};
ghost use Rattle.smt_term.specs.ExtensionView.{plain_extension_op};
ghost use Rattle.law_terms.specs.Plain.{DatetimeOfBitVecOp, DatetimeValOp, DecimalValOp};
ghost use Rattle.law_terms.specs.Plain.{DurationOfBitVecOp, DurationValOp, IpAddrV4Op};
ghost use Rattle.law_terms.specs.Plain.{IpAddrV6Op, IpIsV4Op, IpPrefixV4Op, IpPrefixV6Op};
ghost use Rattle.smt_term.specs.View.{BuildsTerm, plain_term};
ghost use Rattle.smt_factory_core.specs.Results.{ResultRefines};

use crate::literals::given;
use crate::unary_application;
use smt_term::{ExtOp, Op, Term, TermError};
use std::alloc::Global;

/// An operator of the extension types at a term, folded where the term is a literal that it takes: a selector folds at a literal
/// of its own kind and family alone, and a constructor at a literal of 64 bits alone.
///
/// # Errors
/// `Memory`, where there is none for the term.
pub fn extension(alloc: Global, op: ExtOp, t: Term) -> Result<Term, TermError>
    ensures folded { BuildsTerm result (folded_extension (plain_extension_op op) (plain_term t)) }
    ensures refines { ResultRefines result (extension_of (plain_extension_op op) (plain_term t)) }
{
    folded_extension(alloc, op, &t)
}

// An operator at a term, folded.
fn folded_extension(alloc: Global, op: ExtOp, t: &Term) -> Result<Term, TermError>
    ensures { BuildsTerm result (folded_extension (plain_extension_op op) (plain_term t.now)) }
{
    match given(alloc, op, t)? {
        Some(r) => Ok(r),
        None => unary_application(alloc, Op::Ext(op), t, op.result_type(alloc)?),
    }
}

/// The number of ten-thousandths of a decimal, in 64 bits. Of a decimal literal it is a literal.
///
/// # Errors
/// `Memory`, where there is none for the term.
pub fn ext_decimal_val(alloc: Global, t: Term) -> Result<Term, TermError>
    ensures folded { BuildsTerm result (folded_extension DecimalValOp (plain_term t)) }
    ensures refines { ResultRefines result (extension_of DecimalValOp (plain_term t)) }
{
    extension(alloc, ExtOp::DecimalVal, t)
}

/// The milliseconds of a datetime since 1970-01-01T00:00:00Z, in 64 bits. Of a datetime literal it is a literal.
///
/// # Errors
/// `Memory`, where there is none for the term.
pub fn ext_datetime_val(alloc: Global, t: Term) -> Result<Term, TermError>
    ensures folded { BuildsTerm result (folded_extension DatetimeValOp (plain_term t)) }
    ensures refines { ResultRefines result (extension_of DatetimeValOp (plain_term t)) }
{
    extension(alloc, ExtOp::DatetimeVal, t)
}

/// The milliseconds of a duration, in 64 bits. Of a duration literal it is a literal.
///
/// # Errors
/// `Memory`, where there is none for the term.
pub fn ext_duration_val(alloc: Global, t: Term) -> Result<Term, TermError>
    ensures folded { BuildsTerm result (folded_extension DurationValOp (plain_term t)) }
    ensures refines { ResultRefines result (extension_of DurationValOp (plain_term t)) }
{
    extension(alloc, ExtOp::DurationVal, t)
}

/// Whether an IP range is of IPv4. Of a literal it is a literal.
///
/// # Errors
/// `Memory`, where there is none for the term.
pub fn ext_ipaddr_is_v4(alloc: Global, t: Term) -> Result<Term, TermError>
    ensures folded { BuildsTerm result (folded_extension IpIsV4Op (plain_term t)) }
    ensures refines { ResultRefines result (extension_of IpIsV4Op (plain_term t)) }
{
    extension(alloc, ExtOp::IpaddrIsV4, t)
}

/// The address of an IPv4 range, in 32 bits. Of an IPv4 literal it is a literal; a literal of IPv6 is not folded.
///
/// # Errors
/// `Memory`, where there is none for the term.
pub fn ext_ipaddr_addr_v4(alloc: Global, t: Term) -> Result<Term, TermError>
    ensures folded { BuildsTerm result (folded_extension IpAddrV4Op (plain_term t)) }
    ensures refines { ResultRefines result (extension_of IpAddrV4Op (plain_term t)) }
{
    extension(alloc, ExtOp::IpaddrAddrV4, t)
}

/// The prefix of an IPv4 range, an option of 5 bits, none for all 32. Of an IPv4 literal it is a literal; a literal of IPv6 is not
/// folded.
///
/// # Errors
/// `Memory`, where there is none for the term.
pub fn ext_ipaddr_prefix_v4(alloc: Global, t: Term) -> Result<Term, TermError>
    ensures folded { BuildsTerm result (folded_extension IpPrefixV4Op (plain_term t)) }
    ensures refines { ResultRefines result (extension_of IpPrefixV4Op (plain_term t)) }
{
    extension(alloc, ExtOp::IpaddrPrefixV4, t)
}

/// The address of an IPv6 range, in 128 bits. Of an IPv6 literal it is a literal; a literal of IPv4 is not folded.
///
/// # Errors
/// `Memory`, where there is none for the term.
pub fn ext_ipaddr_addr_v6(alloc: Global, t: Term) -> Result<Term, TermError>
    ensures folded { BuildsTerm result (folded_extension IpAddrV6Op (plain_term t)) }
    ensures refines { ResultRefines result (extension_of IpAddrV6Op (plain_term t)) }
{
    extension(alloc, ExtOp::IpaddrAddrV6, t)
}

/// The prefix of an IPv6 range, an option of 7 bits, none for all 128. Of an IPv6 literal it is a literal; a literal of IPv4 is not
/// folded.
///
/// # Errors
/// `Memory`, where there is none for the term.
pub fn ext_ipaddr_prefix_v6(alloc: Global, t: Term) -> Result<Term, TermError>
    ensures folded { BuildsTerm result (folded_extension IpPrefixV6Op (plain_term t)) }
    ensures refines { ResultRefines result (extension_of IpPrefixV6Op (plain_term t)) }
{
    extension(alloc, ExtOp::IpaddrPrefixV6, t)
}

/// The datetime of a number of milliseconds. Of a literal of 64 bits it is a literal; one of another width is not folded.
///
/// # Errors
/// `Memory`, where there is none for the term.
pub fn ext_datetime_of_bitvec(alloc: Global, t: Term) -> Result<Term, TermError>
    ensures folded { BuildsTerm result (folded_extension DatetimeOfBitVecOp (plain_term t)) }
    ensures refines { ResultRefines result (extension_of DatetimeOfBitVecOp (plain_term t)) }
{
    extension(alloc, ExtOp::DatetimeOfBitVec, t)
}

/// The duration of a number of milliseconds. Of a literal of 64 bits it is a literal; one of another width is not folded.
///
/// # Errors
/// `Memory`, where there is none for the term.
pub fn ext_duration_of_bitvec(alloc: Global, t: Term) -> Result<Term, TermError>
    ensures folded { BuildsTerm result (folded_extension DurationOfBitVecOp (plain_term t)) }
    ensures refines { ResultRefines result (extension_of DurationOfBitVecOp (plain_term t)) }
{
    extension(alloc, ExtOp::DurationOfBitVec, t)
}
