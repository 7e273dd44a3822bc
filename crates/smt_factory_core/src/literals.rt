//! What the operators of the extension types give at literals.
#![tactic(auto, using(smt_term::specs::View::views))]

ghost use Rattle.std.specs.Prelude.{◌≡◌, IfOk, IfSome, option_map};
ghost use Rattle.smt_bits.specs.BitVec.{number_of, width_of};
ghost use Rattle.smt_bits.specs.Width.{bits_in};
ghost use Rattle.smt_factory_core.specs.Given.{given_at, made_of, part_of};
ghost use Rattle.smt_ext.specs.ExtOrder.{plain_value};
ghost use Rattle.smt_ext.specs.IpOrder.{plain_range};
ghost use Rattle.smt_ext.specs.IpView.{range_of};
ghost use Rattle.law_folding.specs.FoldExtensions.{prefix_literal};
ghost use Rattle.law_numbers.specs.BitVectors.{signed};
ghost use Rattle.law_terms.specs.Plain.{DatetimeOf, DecimalOf, DurationOf, LiteralTerm};
ghost use Rattle.smt_term.specs.ExtensionView.{plain_extension_op};
ghost use Rattle.smt_term.specs.View.{BuildsTerm, plain_literal, plain_term};

use crate::{none_of, some_of};
use smt_bits::{BitVec, FIVE, SEVEN, SIXTY_FOUR, Width};
use smt_ext::{Datetime, Duration, IPNet};
use smt_term::{Ext, ExtOp, Term, TermError, TermPrim, TermType};
use std::alloc::Global;

// What an operator gives at a term, where it folds there.
pub(crate) fn given(alloc: Global, op: ExtOp, t: &Term) -> Result<Option<Term>, TermError>
    ensures { IfOk result (λ found.
        option_map plain_term found ≡ given_at (plain_extension_op op) (plain_term t.now)) }
{
    match t {
        Term::Prim(literal) => given_at_literal(alloc, op, literal),
        Term::App { .. }
        | Term::None(_)
        | Term::Record(_)
        | Term::Set { .. }
        | Term::Some(_)
        | Term::Var(_) => Ok(None),
    }
}

fn given_at_literal(alloc: Global, op: ExtOp, literal: &TermPrim) -> Result<Option<Term>, TermError>
    ensures { IfOk result (λ found.
        option_map plain_term found
        ≡ given_at (plain_extension_op op) (LiteralTerm (plain_literal literal.now))) }
{
    match literal {
        TermPrim::Ext(value) => part_of(alloc, op, value),
        TermPrim::Bitvec(bits) => Ok(made_of(op, bits)),
        TermPrim::Bool(_) | TermPrim::Entity(_) | TermPrim::String(_) => Ok(None),
    }
}

// The datetime or the duration of a number of 64 bits.
fn made_of(op: ExtOp, bits: &BitVec) -> Option<Term>
    ensures { option_map plain_term result
        ≡ made_of (plain_extension_op op) (width_of bits.now) (number_of bits.now) }
{
    if bits.width() != SIXTY_FOUR {
        return None;
    }
    let milliseconds = long_of(bits);
    match op {
        ExtOp::DatetimeOfBitVec => Some(Term::from(Ext::Datetime {
            dt: Datetime::from(milliseconds),
        })),
        ExtOp::DurationOfBitVec => Some(Term::from(Ext::Duration {
            d: Duration::from(milliseconds),
        })),
        ExtOp::DatetimeVal
        | ExtOp::DecimalVal
        | ExtOp::DurationVal
        | ExtOp::IpaddrAddrV4
        | ExtOp::IpaddrAddrV6
        | ExtOp::IpaddrIsV4
        | ExtOp::IpaddrPrefixV4
        | ExtOp::IpaddrPrefixV6 => None,
    }
}

// The number with sign of 64 bits.
fn long_of(bits: &BitVec) -> i64
    requires { width_of bits.now ≡ 64 }
    ensures { result ≡ signed 64 (number_of bits.now) }
{
    bits.to_int() as i64
}

// The part of a value that an operator selects, where it is of the value's kind and family.
fn part_of(alloc: Global, op: ExtOp, value: &Ext) -> Result<Option<Term>, TermError>
    ensures { IfOk result (λ found.
        option_map plain_term found ≡ part_of (plain_extension_op op) (plain_value value.now)) }
{
    match value {
        Ext::Decimal { d } => Ok(number_of_decimal(op, d.ten_thousandths)),
        Ext::Ipaddr { ip } => part_of_range(alloc, op, ip),
        Ext::Datetime { dt } => Ok(number_of_datetime(op, i64::from(*dt))),
        Ext::Duration { d } => Ok(number_of_duration(op, i64::from(*d))),
    }
}

fn number_of_decimal(op: ExtOp, number: i64) -> Option<Term>
    ensures { option_map plain_term result ≡ part_of (plain_extension_op op) (DecimalOf number) }
{
    match op {
        ExtOp::DecimalVal => Some(Term::from(number)),
        ExtOp::DatetimeOfBitVec
        | ExtOp::DatetimeVal
        | ExtOp::DurationOfBitVec
        | ExtOp::DurationVal
        | ExtOp::IpaddrAddrV4
        | ExtOp::IpaddrAddrV6
        | ExtOp::IpaddrIsV4
        | ExtOp::IpaddrPrefixV4
        | ExtOp::IpaddrPrefixV6 => None,
    }
}

fn number_of_datetime(op: ExtOp, number: i64) -> Option<Term>
    ensures { option_map plain_term result ≡ part_of (plain_extension_op op) (DatetimeOf number) }
{
    match op {
        ExtOp::DatetimeVal => Some(Term::from(number)),
        ExtOp::DatetimeOfBitVec
        | ExtOp::DecimalVal
        | ExtOp::DurationOfBitVec
        | ExtOp::DurationVal
        | ExtOp::IpaddrAddrV4
        | ExtOp::IpaddrAddrV6
        | ExtOp::IpaddrIsV4
        | ExtOp::IpaddrPrefixV4
        | ExtOp::IpaddrPrefixV6 => None,
    }
}

fn number_of_duration(op: ExtOp, number: i64) -> Option<Term>
    ensures { option_map plain_term result ≡ part_of (plain_extension_op op) (DurationOf number) }
{
    match op {
        ExtOp::DurationVal => Some(Term::from(number)),
        ExtOp::DatetimeOfBitVec
        | ExtOp::DatetimeVal
        | ExtOp::DecimalVal
        | ExtOp::DurationOfBitVec
        | ExtOp::IpaddrAddrV4
        | ExtOp::IpaddrAddrV6
        | ExtOp::IpaddrIsV4
        | ExtOp::IpaddrPrefixV4
        | ExtOp::IpaddrPrefixV6 => None,
    }
}

fn part_of_range(alloc: Global, op: ExtOp, range: &IPNet) -> Result<Option<Term>, TermError>
    ensures { IfOk result (λ found.
        option_map plain_term found
        ≡ part_of (plain_extension_op op) (plain_range (range_of range.now))) }
{
    match range {
        IPNet::V4(range) => match op {
            ExtOp::IpaddrAddrV4 => Ok(Some(Term::from(range.addr.into_bitvec()))),
            ExtOp::IpaddrIsV4 => Ok(Some(Term::from(true))),
            ExtOp::IpaddrPrefixV4 => {
                Ok(Some(prefix_term(alloc, FIVE, range.prefix.into_bitvec())?))
            }
            ExtOp::DatetimeOfBitVec
            | ExtOp::DatetimeVal
            | ExtOp::DecimalVal
            | ExtOp::DurationOfBitVec
            | ExtOp::DurationVal
            | ExtOp::IpaddrAddrV6
            | ExtOp::IpaddrPrefixV6 => Ok(None),
        },
        IPNet::V6(range) => match op {
            ExtOp::IpaddrAddrV6 => Ok(Some(Term::from(range.addr.into_bitvec()))),
            ExtOp::IpaddrIsV4 => Ok(Some(Term::from(false))),
            ExtOp::IpaddrPrefixV6 => {
                Ok(Some(prefix_term(alloc, SEVEN, range.prefix.into_bitvec())?))
            }
            ExtOp::DatetimeOfBitVec
            | ExtOp::DatetimeVal
            | ExtOp::DecimalVal
            | ExtOp::DurationOfBitVec
            | ExtOp::DurationVal
            | ExtOp::IpaddrAddrV4
            | ExtOp::IpaddrPrefixV4 => Ok(None),
        },
    }
}

// The prefix of a range as an option of bits of this width.
fn prefix_term(alloc: Global, width: Width, prefix: Option<BitVec>) -> Result<Term, TermError>
    requires { IfSome prefix (λ bits. width_of bits ≡ bits_in width) }
    ensures { BuildsTerm result (prefix_literal (bits_in width) (option_map number_of prefix)) }
{
    match prefix {
        Some(bits) => some_of(alloc, Term::from(bits)),
        None => Ok(none_of(TermType::Bitvec { n: width })),
    }
}
