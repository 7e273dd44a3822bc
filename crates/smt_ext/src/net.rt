//! Ranges of both families, and which of them lies in which.
ghost use Rattle.std.specs.Prelude.{◌≡◌, ◌≤◌, ◌/◌, ◌^◌, ◌-◌, ◌↔◌, Ok, IsTrue, IfOk, IfErr};
ghost use Rattle.smt_ext.specs.IpRanges.{Version4, Version6, free_bits, LiesIn, IsLoopback};
ghost use Rattle.smt_ext.specs.IpRanges.{IsMulticast, zero_v4};
ghost use Rattle.smt_ext.specs.IpText.{WritesRange};
ghost use Rattle.smt_ext.specs.IpView.{v4_range, v6_range, range_of, family_of, RefusesText};

use super::address::{IPv4Addr, IPv6Addr};
use super::error::IPError;
use super::prefix::{IPv4Prefix, IPv6Prefix};
use super::ranges::{loop_back_cidr_v4, loop_back_cidr_v6, multicast_cidr_v4, multicast_cidr_v6};
use super::read::read_range;
use smt_text::Text;
use std::alloc::Global;

/// An IPv4 range: the addresses that share the first bits of `addr`, as many as `prefix` says.
#[derive(Clone, Copy, Debug, PartialEq, Eq, PartialOrd, Ord, Hash)]
pub struct CIDRv4 {
    /// An address of the range.
    pub addr: IPv4Addr,
    /// How many first bits are shared; no prefix is all of them, so one address.
    pub prefix: IPv4Prefix,
}

/// An IPv6 range: the addresses that share the first bits of `addr`, as many as `prefix` says.
#[derive(Clone, Copy, Debug, PartialEq, Eq, PartialOrd, Ord, Hash)]
pub struct CIDRv6 {
    /// An address of the range.
    pub addr: IPv6Addr,
    /// How many first bits are shared; no prefix is all of them, so one address.
    pub prefix: IPv6Prefix,
}

/// An IP range of either family. The order has IPv4 before IPv6, then goes by address, then by prefix.
#[derive(Clone, Copy, Debug, PartialEq, Eq, PartialOrd, Ord, Hash)]
pub enum IPNet {
    /// An IPv4 range.
    V4(CIDRv4),
    /// An IPv6 range.
    V6(CIDRv6),
}

// An address as a number, and how many of its last bits are free.
#[derive(Clone, Copy)]
struct Block {
    address: u128,
    free: u32,
}

// The number without its `low` lowest bits.
fn high_bits(number: u128, low: u32) -> u128
    requires { low ≤ 128 }
    ensures { result ≡ number / 2 ^ low }
{
    if low < 128 { number >> low } else { 0 }
}

impl Block {
    // Whether both share the bits that are not free in `outer`, of which this one has no fewer.
    fn lies_in(self, outer: Block) -> bool
        requires { outer.free ≤ 128 }
        ensures { IsTrue result ↔ ((self.free ≤ outer.free)
            × (self.address / 2 ^ outer.free ≡ outer.address / 2 ^ outer.free)) }
    {
        self.free <= outer.free
            && high_bits(self.address, outer.free) == high_bits(outer.address, outer.free)
    }
}

impl CIDRv4 {
    fn block(&self) -> Block
        ensures address { result.address ≡ (v4_range self.now).address }
        ensures free { result.free ≡ free_bits (v4_range self.now) }
    {
        Block {
            address: self.addr.number(),
            free: 32 - self.prefix.count(),
        }
    }

    fn lies_in(&self, outer: &CIDRv4) -> bool
        ensures { IsTrue result ↔ LiesIn (v4_range self.now) (v4_range outer.now) }
    {
        self.block().lies_in(outer.block())
    }
}

impl CIDRv6 {
    fn block(&self) -> Block
        ensures address { result.address ≡ (v6_range self.now).address }
        ensures free { result.free ≡ free_bits (v6_range self.now) }
    {
        Block {
            address: self.addr.number(),
            free: 128 - self.prefix.count(),
        }
    }

    fn lies_in(&self, outer: &CIDRv6) -> bool
        ensures { IsTrue result ↔ LiesIn (v6_range self.now) (v6_range outer.now) }
    {
        self.block().lies_in(outer.block())
    }
}

impl IPNet {
    /// The range that the text writes: an address, and behind it `/` and a number of bits or nothing.
    ///
    /// An IPv4 address is four numbers below 256 in decimal, joined by `.`. An IPv6 address is eight
    /// groups of one to four hexadecimal digits, joined by `:`, where `::` may stand for one group of
    /// zeros or more. The number of bits is decimal, at most 32 or 128, and all bits are no prefix.
    ///
    /// # Errors
    /// `ParseError` with the text exactly where it writes no range; `Memory` in its place where there
    /// is no memory for the text.
    pub fn parse(alloc: Global, s: &str) -> Result<IPNet, IPError>
        ensures found { IfOk result (λ net. WritesRange s.now (range_of net)) }
        ensures taken { (net : _) → WritesRange s.now (range_of net) → result ≡ Ok net }
        ensures refused { IfErr result (RefusesText s.now) }
    {
        match read_range(s) {
            Some(net) => Ok(net),
            None => Err(IPError::ParseError(Text::from_str(alloc, s)?)),
        }
    }

    /// Whether this is an IPv4 range.
    pub fn is_v4(&self) -> bool
        ensures { IsTrue result ↔ (family_of self.now ≡ Version4) }
    {
        matches!(self, IPNet::V4(_))
    }

    /// Whether this is an IPv6 range.
    pub fn is_v6(&self) -> bool
        ensures { IsTrue result ↔ (family_of self.now ≡ Version6) }
    {
        matches!(self, IPNet::V6(_))
    }

    /// Whether both are of one family, and every address of this range lies in the other.
    pub fn in_range(&self, other: &IPNet) -> bool
        ensures { IsTrue result ↔ LiesIn (range_of self.now) (range_of other.now) }
    {
        match self {
            IPNet::V4(inner) => match other {
                IPNet::V4(outer) => inner.lies_in(outer),
                IPNet::V6(_) => false,
            },
            IPNet::V6(inner) => match other {
                IPNet::V4(_) => false,
                IPNet::V6(outer) => inner.lies_in(outer),
            },
        }
    }

    /// Whether every address of this range lies in `127.0.0.0/8`, or it is `::1`.
    pub fn is_loopback(&self) -> bool
        ensures { IsTrue result ↔ IsLoopback (range_of self.now) }
    {
        self.in_range(&loop_back_cidr_v4()) || self.in_range(&loop_back_cidr_v6())
    }

    /// Whether every address of this range lies in `224.0.0.0/4` or in `ff00::/8`.
    pub fn is_multicast(&self) -> bool
        ensures { IsTrue result ↔ IsMulticast (range_of self.now) }
    {
        self.in_range(&multicast_cidr_v4()) || self.in_range(&multicast_cidr_v6())
    }
}

/// `0.0.0.0` without prefix.
impl Default for IPNet {
    ghost is_default = { λ net. range_of net ≡ zero_v4 };

    fn default() -> IPNet {
        IPNet::V4(CIDRv4 {
            addr: IPv4Addr::of_number(0),
            prefix: IPv4Prefix::of_count(32),
        })
    }
}
