// The extension types of Cedar, and the operators on their values.
ghost use Rattle.std.specs.Prelude.{◌≡◌, ◌↔◌, Some, option_map};
ghost use Rattle.smt_ext.specs.ExtOrder.{plain_value};
ghost use Rattle.law_terms.specs.Names.{extension_op_name};
ghost use Rattle.law_terms.specs.Plain.{ExtensionOp};
ghost use Rattle.law_terms.specs.Types.{extension_signature, kind_of};
ghost use Rattle.smt_term.specs.ExtensionView.{plain_extension_op, plain_kind};
ghost use Rattle.smt_term.specs.TypeView.{BuildsType};

use crate::{TermError, TermType};
use smt_bits::{FIVE, HUNDRED_TWENTY_EIGHT, SEVEN, SIXTY_FOUR, THIRTY_TWO};
use smt_ext::Ext;
use std::alloc::Global;

/// An extension type. The order has the types in this order.
#[derive(Clone, Copy, Debug, PartialEq, Eq, PartialOrd, Ord)]
pub enum ExtType {
    /// IP ranges of both families.
    IpAddr,
    /// Decimals.
    Decimal,
    /// Datetimes.
    DateTime,
    /// Durations.
    Duration,
}

/// An operator on a value of an extension type, or that gives one. The order has the operators in this order.
#[derive(Clone, Copy, Debug, PartialEq, Eq, PartialOrd, Ord)]
pub enum ExtOp {
    /// The datetime of a number of milliseconds in 64 bits.
    DatetimeOfBitVec,
    /// The milliseconds of a datetime in 64 bits.
    DatetimeVal,
    /// The ten-thousandths of a decimal in 64 bits.
    DecimalVal,
    /// The duration of a number of milliseconds in 64 bits.
    DurationOfBitVec,
    /// The milliseconds of a duration in 64 bits.
    DurationVal,
    /// The address of an IPv4 range in 32 bits; of an IPv6 range a value that the interpretation gives.
    IpaddrAddrV4,
    /// The address of an IPv6 range in 128 bits; of an IPv4 range a value that the interpretation gives.
    IpaddrAddrV6,
    /// Whether a range is of IPv4.
    IpaddrIsV4,
    /// The prefix of an IPv4 range, an option of 5 bits; of an IPv6 range a value that the interpretation gives.
    IpaddrPrefixV4,
    /// The prefix of an IPv6 range, an option of 7 bits; of an IPv4 range a value that the interpretation gives.
    IpaddrPrefixV6,
}

// All operators, in their order.
const OPERATORS: [ExtOp; 10] = [
    ExtOp::DatetimeOfBitVec,
    ExtOp::DatetimeVal,
    ExtOp::DecimalVal,
    ExtOp::DurationOfBitVec,
    ExtOp::DurationVal,
    ExtOp::IpaddrAddrV4,
    ExtOp::IpaddrAddrV6,
    ExtOp::IpaddrIsV4,
    ExtOp::IpaddrPrefixV4,
    ExtOp::IpaddrPrefixV6,
];

impl ExtType {
    /// The extension type of a value.
    pub fn of(value: &Ext) -> ExtType
        ensures { plain_kind result ≡ kind_of (plain_value value.now) }
    {
        match value {
            Ext::Decimal { .. } => ExtType::Decimal,
            Ext::Ipaddr { .. } => ExtType::IpAddr,
            Ext::Datetime { .. } => ExtType::DateTime,
            Ext::Duration { .. } => ExtType::Duration,
        }
    }
}

impl ExtOp {
    /// The name of the operator, by which jobs and messages call it.
    pub fn mk_name(&self) -> &'static str
        ensures { result.now ≡ extension_op_name (plain_extension_op self.now) }
    {
        match self {
            ExtOp::DatetimeOfBitVec => "datetime.ofBitVec",
            ExtOp::DatetimeVal => "datetime.val",
            ExtOp::DecimalVal => "decimal.val",
            ExtOp::DurationOfBitVec => "duration.ofBitVec",
            ExtOp::DurationVal => "duration.val",
            ExtOp::IpaddrAddrV4 => "ipaddr.addrV4",
            ExtOp::IpaddrAddrV6 => "ipaddr.addrV6",
            ExtOp::IpaddrIsV4 => "ipaddr.isV4",
            ExtOp::IpaddrPrefixV4 => "ipaddr.prefixV4",
            ExtOp::IpaddrPrefixV6 => "ipaddr.prefixV6",
        }
    }

    /// The operator of this name, or `None` exactly where no operator has it.
    #[tactic(auto, using(crate::proofs::ExtensionNames::by_name))]
    pub fn of_name(name: &str) -> Option<ExtOp>
        ensures { (op : ExtensionOp) →
            (option_map plain_extension_op result ≡ Some op) ↔ (extension_op_name op ≡ name.now) }
    {
        for op in OPERATORS {
            if name == op.mk_name() {
                return Some(op);
            }
        }
        None
    }

    /// The type that the operator gives.
    ///
    /// # Errors
    /// `Memory`, where there is none for the type.
    #[tactic(auto, using(crate::specs::TypeView::views))]
    pub fn result_type(self, alloc: Global) -> Result<TermType, TermError>
        ensures { BuildsType result (extension_signature (plain_extension_op self)).1 }
    {
        match self {
            ExtOp::DatetimeOfBitVec => Ok(TermType::Ext {
                xty: ExtType::DateTime,
            }),
            ExtOp::DurationOfBitVec => Ok(TermType::Ext {
                xty: ExtType::Duration,
            }),
            ExtOp::DatetimeVal | ExtOp::DecimalVal | ExtOp::DurationVal => {
                Ok(TermType::Bitvec { n: SIXTY_FOUR })
            }
            ExtOp::IpaddrAddrV4 => Ok(TermType::Bitvec { n: THIRTY_TWO }),
            ExtOp::IpaddrAddrV6 => Ok(TermType::Bitvec {
                n: HUNDRED_TWENTY_EIGHT,
            }),
            ExtOp::IpaddrIsV4 => Ok(TermType::Bool),
            ExtOp::IpaddrPrefixV4 => TermType::option_of(alloc, TermType::Bitvec { n: FIVE }),
            ExtOp::IpaddrPrefixV6 => TermType::option_of(alloc, TermType::Bitvec { n: SEVEN }),
        }
    }
}
