//! Addresses of both families.
ghost use Rattle.std.specs.Prelude.{◌≡◌, ◌≢◌, ◌↔◌, ◌<◌, ◌^◌, IsNone, IfSome};
ghost use Rattle.smt_bits.specs.BitVec.{width_of, number_of};

use smt_bits::{BitVec, HUNDRED_TWENTY_EIGHT, THIRTY_TWO};

/// An address of 32 bits. The order is that of the numbers.
#[derive(Clone, Copy, Debug, PartialEq, Eq, PartialOrd, Ord, Hash)]
pub struct IPv4Addr {
    bits: BitVec,
    pub ghost width: { width_of bits ≡ 32 },
}

/// An address of 128 bits. The order is that of the numbers.
#[derive(Clone, Copy, Debug, PartialEq, Eq, PartialOrd, Ord, Hash)]
pub struct IPv6Addr {
    bits: BitVec,
    pub ghost width: { width_of bits ≡ 128 },
}

impl IPv4Addr {
    ghost use Rattle.smt_ext.specs.IpView.{v4_bits};

    /// The address with these bits; nothing where they are not 32.
    pub fn try_from_bitvec(val: BitVec) -> Option<IPv4Addr>
        ensures refused { IsNone result ↔ (width_of val ≢ 32) }
        ensures value { IfSome result (λ a. v4_bits a ≡ val) }
    {
        if val.width() == THIRTY_TWO {
            Some(IPv4Addr { bits: val })
        } else {
            None
        }
    }

    /// The 32 bits.
    pub fn as_bitvec(&self) -> &BitVec
        ensures value { result.now ≡ v4_bits self.now }
        ensures width { width_of result.now ≡ 32 }
    {
        &self.bits
    }

    /// The 32 bits.
    pub fn into_bitvec(self) -> BitVec
        ensures value { result ≡ v4_bits self }
        ensures width { width_of result ≡ 32 }
    {
        self.bits
    }

    // The address with this number.
    pub(crate) fn of_number(number: u32) -> IPv4Addr
        ensures { number_of (v4_bits result) ≡ number }
    {
        IPv4Addr {
            bits: BitVec::of_nat(THIRTY_TWO, u128::from(number)),
        }
    }

    // The address as a number.
    pub(crate) fn number(&self) -> u128
        ensures value { result ≡ number_of (v4_bits self.now) }
        ensures below { result < 2 ^ 32 }
    {
        self.bits.to_nat()
    }
}

impl IPv6Addr {
    ghost use Rattle.smt_ext.specs.IpView.{v6_bits};

    /// The address with these bits; nothing where they are not 128.
    pub fn try_from_bitvec(val: BitVec) -> Option<IPv6Addr>
        ensures refused { IsNone result ↔ (width_of val ≢ 128) }
        ensures value { IfSome result (λ a. v6_bits a ≡ val) }
    {
        if val.width() == HUNDRED_TWENTY_EIGHT {
            Some(IPv6Addr { bits: val })
        } else {
            None
        }
    }

    /// The 128 bits.
    pub fn as_bitvec(&self) -> &BitVec
        ensures value { result.now ≡ v6_bits self.now }
        ensures width { width_of result.now ≡ 128 }
    {
        &self.bits
    }

    /// The 128 bits.
    pub fn into_bitvec(self) -> BitVec
        ensures value { result ≡ v6_bits self }
        ensures width { width_of result ≡ 128 }
    {
        self.bits
    }

    // The address with this number.
    pub(crate) fn of_number(number: u128) -> IPv6Addr
        ensures { number_of (v6_bits result) ≡ number }
    {
        IPv6Addr {
            bits: BitVec::of_nat(HUNDRED_TWENTY_EIGHT, number),
        }
    }

    // The address as a number.
    pub(crate) fn number(&self) -> u128
        ensures value { result ≡ number_of (v6_bits self.now) }
        ensures below { result < 2 ^ 128 }
    {
        self.bits.to_nat()
    }
}
