//! The ranges of loopback and multicast addresses.
ghost use Rattle.std.specs.Prelude.{◌≡◌};
ghost use Rattle.smt_ext.specs.IpRanges.{loopback_v4, loopback_v6, multicast_v4, multicast_v6};
ghost use Rattle.smt_ext.specs.IpView.{range_of};

use super::address::{IPv4Addr, IPv6Addr};
use super::net::{CIDRv4, CIDRv6, IPNet};
use super::prefix::{IPv4Prefix, IPv6Prefix};

/// `127.0.0.0/8`.
pub fn loop_back_cidr_v4() -> IPNet
    ensures { range_of result ≡ loopback_v4 }
{
    IPNet::V4(CIDRv4 {
        addr: IPv4Addr::of_number(0x7f00_0000),
        prefix: IPv4Prefix::of_count(8),
    })
}

/// `::1`.
pub fn loop_back_cidr_v6() -> IPNet
    ensures { range_of result ≡ loopback_v6 }
{
    IPNet::V6(CIDRv6 {
        addr: IPv6Addr::of_number(1),
        prefix: IPv6Prefix::of_count(128),
    })
}

/// `224.0.0.0/4`.
pub fn multicast_cidr_v4() -> IPNet
    ensures { range_of result ≡ multicast_v4 }
{
    IPNet::V4(CIDRv4 {
        addr: IPv4Addr::of_number(0xe000_0000),
        prefix: IPv4Prefix::of_count(4),
    })
}

/// `ff00::/8`.
pub fn multicast_cidr_v6() -> IPNet
    ensures { range_of result ≡ multicast_v6 }
{
    IPNet::V6(CIDRv6 {
        addr: IPv6Addr::of_number(0xff << 120),
        prefix: IPv6Prefix::of_count(8),
    })
}
