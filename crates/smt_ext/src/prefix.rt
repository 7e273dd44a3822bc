//! Prefixes of both families.
ghost use Rattle.std.specs.Prelude.{◌≡◌, ◌≢◌, ◌≤◌, ◌<◌, ◌↔◌, ◌==◌, true, Some, None, IsNone};
ghost use Rattle.std.specs.Prelude.{IfSome, unwrap_or, option_copied};
ghost use Rattle.std.specs.Option.{IsSomeAnd};
ghost use Rattle.smt_bits.specs.BitVec.{width_of};
ghost use Rattle.smt_bits.specs.Width.{bits_in};
ghost use Rattle.smt_ext.specs.IpPrefixBits.{given, has_width};
ghost use Rattle.smt_ext.specs.IpRanges.{prefix_of};

use smt_bits::{BitVec, FIVE, SEVEN, Width};

// The bits of a prefix, or none. The derived order has those without bits last.
#[derive(Clone, Copy, Debug, PartialEq, Eq, PartialOrd, Ord, Hash)]
enum PrefixBits {
    Given(BitVec),
    Absent,
}

/// How many first bits the addresses of an IPv4 range share: a number of 5 bits, or none for all 32.
///
/// A prefix orders by its number, no prefix last.
#[derive(Clone, Copy, Debug, PartialEq, Eq, PartialOrd, Ord, Hash)]
pub struct IPv4Prefix {
    bits: PrefixBits,
    pub ghost width: { has_width 5 bits ≡ true },
}

/// How many first bits the addresses of an IPv6 range share: a number of 7 bits, or none for all 128.
///
/// A prefix orders by its number, no prefix last.
#[derive(Clone, Copy, Debug, PartialEq, Eq, PartialOrd, Ord, Hash)]
pub struct IPv6Prefix {
    bits: PrefixBits,
    pub ghost width: { has_width 7 bits ≡ true },
}

// The given bits, where they have this width.
fn of_bits(width: Width, val: Option<BitVec>) -> Option<PrefixBits>
    ensures refused { IsNone result ↔ IsSomeAnd val (λ bits. width_of bits ≢ bits_in width) }
    ensures value { IfSome result (λ prefix. given prefix ≡ val) }
    ensures width { IfSome result (λ prefix. has_width (bits_in width) prefix ≡ true) }
{
    let Some(bits) = val else {
        return Some(PrefixBits::Absent);
    };
    if bits.width() == width {
        Some(PrefixBits::Given(bits))
    } else {
        None
    }
}

impl PrefixBits {
    // The given bits.
    fn as_bitvec(&self) -> Option<&BitVec>
        ensures { option_copied result ≡ given self.now }
    {
        match self {
            PrefixBits::Given(bits) => Some(bits),
            PrefixBits::Absent => None,
        }
    }

    // The given bits.
    fn into_bitvec(self) -> Option<BitVec>
        ensures { result ≡ given self }
    {
        match self {
            PrefixBits::Given(bits) => Some(bits),
            PrefixBits::Absent => None,
        }
    }
}

impl IPv4Prefix {
    ghost use Rattle.smt_ext.specs.IpView.{v4_prefix_bits, v4_prefix};

    /// The prefix with these bits; nothing where bits are given that are not 5.
    pub fn try_from_bitvec(val: Option<BitVec>) -> Option<IPv4Prefix>
        ensures refused { IsNone result ↔ IsSomeAnd val (λ bits. width_of bits ≢ 5) }
        ensures value { IfSome result (λ prefix. v4_prefix_bits prefix ≡ val) }
    {
        let bits = of_bits(FIVE, val)?;
        Some(IPv4Prefix { bits })
    }

    /// The 5 bits; nothing for no prefix.
    pub fn as_bitvec(&self) -> Option<&BitVec>
        ensures value { option_copied result ≡ v4_prefix_bits self.now }
        ensures width { IfSome result (λ bits. width_of bits.now ≡ 5) }
    {
        self.bits.as_bitvec()
    }

    /// The 5 bits; nothing for no prefix.
    pub fn into_bitvec(self) -> Option<BitVec>
        ensures value { result ≡ v4_prefix_bits self }
        ensures width { IfSome result (λ bits. width_of bits ≡ 5) }
    {
        self.bits.into_bitvec()
    }

    // The prefix of so many bits; all 32 are no prefix.
    pub(crate) fn of_count(count: u8) -> IPv4Prefix
        requires { count ≤ 32 }
        ensures { v4_prefix result ≡ prefix_of 32 count }
    {
        let bits = if count == 32 {
            PrefixBits::Absent
        } else {
            PrefixBits::Given(BitVec::of_nat(FIVE, u128::from(count)))
        };
        IPv4Prefix { bits }
    }

    // How many bits are shared.
    pub(crate) fn count(&self) -> u32
        ensures value { result ≡ unwrap_or (v4_prefix self.now) 32 }
        ensures most { result ≤ 32 }
    {
        match self.bits {
            PrefixBits::Given(bits) => bits.to_nat() as u32,
            PrefixBits::Absent => 32,
        }
    }
}

impl IPv6Prefix {
    ghost use Rattle.smt_ext.specs.IpView.{v6_prefix_bits, v6_prefix};

    /// The prefix with these bits; nothing where bits are given that are not 7.
    pub fn try_from_bitvec(val: Option<BitVec>) -> Option<IPv6Prefix>
        ensures refused { IsNone result ↔ IsSomeAnd val (λ bits. width_of bits ≢ 7) }
        ensures value { IfSome result (λ prefix. v6_prefix_bits prefix ≡ val) }
    {
        let bits = of_bits(SEVEN, val)?;
        Some(IPv6Prefix { bits })
    }

    /// The 7 bits; nothing for no prefix.
    pub fn as_bitvec(&self) -> Option<&BitVec>
        ensures value { option_copied result ≡ v6_prefix_bits self.now }
        ensures width { IfSome result (λ bits. width_of bits.now ≡ 7) }
    {
        self.bits.as_bitvec()
    }

    /// The 7 bits; nothing for no prefix.
    pub fn into_bitvec(self) -> Option<BitVec>
        ensures value { result ≡ v6_prefix_bits self }
        ensures width { IfSome result (λ bits. width_of bits ≡ 7) }
    {
        self.bits.into_bitvec()
    }

    // The prefix of so many bits; all 128 are no prefix.
    pub(crate) fn of_count(count: u8) -> IPv6Prefix
        requires { count ≤ 128 }
        ensures { v6_prefix result ≡ prefix_of 128 count }
    {
        let bits = if count == 128 {
            PrefixBits::Absent
        } else {
            PrefixBits::Given(BitVec::of_nat(SEVEN, u128::from(count)))
        };
        IPv6Prefix { bits }
    }

    // How many bits are shared.
    pub(crate) fn count(&self) -> u32
        ensures value { result ≡ unwrap_or (v6_prefix self.now) 128 }
        ensures most { result ≤ 128 }
    {
        match self.bits {
            PrefixBits::Given(bits) => bits.to_nat() as u32,
            PrefixBits::Absent => 128,
        }
    }
}
