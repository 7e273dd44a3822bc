#![tactic(auto, using(crate::specs::View::views), unfolding(crate::specs::TypeView::plain_type, crate::specs::View::plain_term))]
// The operators of applications.
ghost use Rattle.std.specs.Prelude.{◌≡◌, IfOk};
ghost use Rattle.law_terms.specs.Names.{op_name};
ghost use Rattle.smt_term.specs.OpClass.{class_of};
ghost use Rattle.smt_term.specs.View.{plain_op};

use crate::function::Uuf;
use crate::{Attr, ExtOp, OrdPattern, TermError};
use smt_text::share_text;
use std::rc::Rc;

/// An operator: of the theories Core, FixedSizeBitVectors and UnicodeStrings, of the logic QF_BV, of the extension types, of
/// options, of records or of finite sets, or an uninterpreted function.
#[derive(Debug, PartialEq, Eq, PartialOrd, Ord)]
pub enum Op {
    /// Conjunction of two Booleans.
    And,
    /// Sum.
    Bvadd,
    /// Shift to the right, with zeros from the left.
    Bvlshr,
    /// Product.
    Bvmul,
    /// Negation in two's complement.
    Bvneg,
    /// Whether negation leaves the signed range.
    Bvnego,
    /// Whether a signed sum leaves the signed range.
    Bvsaddo,
    /// Signed quotient, rounded toward 0.
    Bvsdiv,
    /// Shift to the left.
    Bvshl,
    /// Signed less-than-or-equal.
    Bvsle,
    /// Signed less-than.
    Bvslt,
    /// Signed remainder, with the divisor's sign.
    Bvsmod,
    /// Whether a signed product leaves the signed range.
    Bvsmulo,
    /// Signed remainder, with the dividend's sign.
    Bvsrem,
    /// Whether a signed difference leaves the signed range.
    Bvssubo,
    /// Difference.
    Bvsub,
    /// Unsigned quotient, rounded down.
    Bvudiv,
    /// Unsigned less-than-or-equal.
    Bvule,
    /// Unsigned less-than.
    Bvult,
    /// Unsigned remainder.
    Bvurem,
    /// Equality of two terms of one type.
    Eq,
    /// An operator on values of the extension types.
    Ext(ExtOp),
    /// A choice: of three arguments the second where the first is true, and else the third.
    Ite,
    /// Negation, from Bool to Bool.
    Not,
    /// The value inside an option; of none a value of the inner type that the interpretation gives.
    OptionGet,
    /// Disjunction of two Booleans.
    Or,
    /// The value of this attribute of a record.
    RecordGet(Attr),
    /// What is in both of two sets.
    SetInter,
    /// Whether a value is in a set.
    SetMember,
    /// Whether all of a first set is in a second.
    SetSubset,
    /// Whether a text matches this pattern.
    StringLike(OrdPattern),
    /// The value of this function.
    Uuf(Rc<Uuf>),
    /// The same number with this many bits more.
    ZeroExtend(u32),
}

// By hand, since a derived one is written out, with all its variants, in each function that lets an operator go.
impl Drop for Op {
    fn drop(self) {
        match self {
            Op::Uuf(_) => {}
            Op::RecordGet(_) => {}
            Op::StringLike(_) => {}
            Op::And
            | Op::Bvadd
            | Op::Bvlshr
            | Op::Bvmul
            | Op::Bvneg
            | Op::Bvnego
            | Op::Bvsaddo
            | Op::Bvsdiv
            | Op::Bvshl
            | Op::Bvsle
            | Op::Bvslt
            | Op::Bvsmod
            | Op::Bvsmulo
            | Op::Bvsrem
            | Op::Bvssubo
            | Op::Bvsub
            | Op::Bvudiv
            | Op::Bvule
            | Op::Bvult
            | Op::Bvurem
            | Op::Eq
            | Op::Ext(_)
            | Op::Ite
            | Op::Not
            | Op::OptionGet
            | Op::Or
            | Op::SetInter
            | Op::SetMember
            | Op::SetSubset
            | Op::ZeroExtend(_) => {}
        }
    }
}

/// The class of an operator, by which it is typed.
#[derive(Clone, Copy)]
pub(crate) enum OpClass {
    /// From two bitvectors of one width to one.
    Bits,
    /// A test of two bitvectors of one width: a comparison, or whether a result leaves the signed range.
    Test,
    /// Any other.
    Other,
}

impl Op {
    /// The class of the operator.
    pub(crate) fn class(&self) -> OpClass
        ensures { result ≡ class_of (plain_op self.now) }
    {
        match self {
            Op::Bvadd
            | Op::Bvlshr
            | Op::Bvmul
            | Op::Bvsdiv
            | Op::Bvshl
            | Op::Bvsmod
            | Op::Bvsrem
            | Op::Bvsub
            | Op::Bvudiv
            | Op::Bvurem => OpClass::Bits,
            Op::Bvsle
            | Op::Bvslt
            | Op::Bvule
            | Op::Bvult
            | Op::Bvsaddo
            | Op::Bvsmulo
            | Op::Bvssubo => OpClass::Test,
            Op::And
            | Op::Bvneg
            | Op::Bvnego
            | Op::Eq
            | Op::Ext(_)
            | Op::Ite
            | Op::Not
            | Op::OptionGet
            | Op::Or
            | Op::RecordGet(_)
            | Op::SetInter
            | Op::SetMember
            | Op::SetSubset
            | Op::StringLike(_)
            | Op::Uuf(_)
            | Op::ZeroExtend(_) => OpClass::Other,
        }
    }

    /// The name of the operator, by which jobs and messages call it; those of the extension types have one name for all.
    pub fn mk_name(&self) -> &'static str
        ensures { result.now ≡ op_name (plain_op self.now) }
    {
        match self {
            Op::And => "and",
            Op::Bvadd => "bvadd",
            Op::Bvlshr => "bvlshr",
            Op::Bvmul => "bvmul",
            Op::Bvneg => "bvneg",
            Op::Bvnego => "bvnego",
            Op::Bvsaddo => "bvsaddo",
            Op::Bvsdiv => "bvsdiv",
            Op::Bvshl => "bvshl",
            Op::Bvsle => "bvsle",
            Op::Bvslt => "bvslt",
            Op::Bvsmod => "bvsmod",
            Op::Bvsmulo => "bvsmulo",
            Op::Bvsrem => "bvsrem",
            Op::Bvssubo => "bvssubo",
            Op::Bvsub => "bvsub",
            Op::Bvudiv => "bvudiv",
            Op::Bvule => "bvule",
            Op::Bvult => "bvult",
            Op::Bvurem => "bvurem",
            Op::Eq => "eq",
            Op::Ext(_) => "ext",
            Op::Ite => "ite",
            Op::Not => "not",
            Op::OptionGet => "option.get",
            Op::Or => "or",
            Op::RecordGet(_) => "record.get",
            Op::SetInter => "set.inter",
            Op::SetMember => "set.member",
            Op::SetSubset => "set.subset",
            Op::StringLike(_) => "string.like",
            Op::Uuf(_) => "uuf",
            Op::ZeroExtend(_) => "zero_extend",
        }
    }

    /// An equal operator that shares its parts.
    ///
    /// # Errors
    /// `Memory`, where there is none for the operator.
    pub fn share(&self) -> Result<Op, TermError>
        ensures { IfOk result (λ shared. plain_op shared ≡ plain_op self.now) }
    {
        Ok(match self {
            Op::And => Op::And,
            Op::Bvadd => Op::Bvadd,
            Op::Bvlshr => Op::Bvlshr,
            Op::Bvmul => Op::Bvmul,
            Op::Bvneg => Op::Bvneg,
            Op::Bvnego => Op::Bvnego,
            Op::Bvsaddo => Op::Bvsaddo,
            Op::Bvsdiv => Op::Bvsdiv,
            Op::Bvshl => Op::Bvshl,
            Op::Bvsle => Op::Bvsle,
            Op::Bvslt => Op::Bvslt,
            Op::Bvsmod => Op::Bvsmod,
            Op::Bvsmulo => Op::Bvsmulo,
            Op::Bvsrem => Op::Bvsrem,
            Op::Bvssubo => Op::Bvssubo,
            Op::Bvsub => Op::Bvsub,
            Op::Bvudiv => Op::Bvudiv,
            Op::Bvule => Op::Bvule,
            Op::Bvult => Op::Bvult,
            Op::Bvurem => Op::Bvurem,
            Op::Eq => Op::Eq,
            Op::Ext(op) => Op::Ext(*op),
            Op::Ite => Op::Ite,
            Op::Not => Op::Not,
            Op::OptionGet => Op::OptionGet,
            Op::Or => Op::Or,
            Op::RecordGet(name) => Op::RecordGet(share_text(name)?),
            Op::SetInter => Op::SetInter,
            Op::SetMember => Op::SetMember,
            Op::SetSubset => Op::SetSubset,
            Op::StringLike(pattern) => Op::StringLike(pattern.share()?),
            Op::Uuf(function) => Op::Uuf(function.clone()?),
            Op::ZeroExtend(bits) => Op::ZeroExtend(*bits),
        })
    }
}
