//! How a range is printed.
ghost use Rattle.std.specs.Prelude.{◌≡◌, ◌<◌, ◌/◌, ◌%◌, ◌^◌, Some};
ghost use Rattle.smt_ext.specs.IpPrinted.{group_text, range_text};
ghost use Rattle.smt_ext.specs.IpView.{range_of};

use super::net::IPNet;
use std::fmt;

// Sixteen bits, as four hexadecimal digits.
#[derive(Clone, Copy)]
struct Group(u16);

impl fmt::Display for Group {
    ghost output = { λ group. Some (group_text group.0) };

    fn fmt<W: fmt::Write>(&self, f: &mut fmt::Formatter<W>) -> fmt::Result {
        let high = (self.0 / 256) as u8;
        let low = (self.0 % 256) as u8;
        write!(f, "{high:02x}{low:02x}")
    }
}

fn byte_at(address: u128, low: u32) -> u8
    requires { low < 128 }
    ensures { result ≡ address / 2 ^ low % 256 }
{
    ((address >> low) % 256) as u8
}

fn group_at(address: u128, low: u32) -> Group
    requires { low < 128 }
    ensures { result.0 ≡ address / 2 ^ low % 65536 }
{
    Group(((address >> low) % 65536) as u16)
}

impl fmt::Display for IPNet {
    ghost output = { λ net. Some (range_text (range_of net)) };

    fn fmt<W: fmt::Write>(&self, f: &mut fmt::Formatter<W>) -> fmt::Result {
        match self {
            IPNet::V4(range) => {
                let address = range.addr.number();
                let count = range.prefix.count();
                let a = byte_at(address, 24);
                let b = byte_at(address, 16);
                let c = byte_at(address, 8);
                let d = byte_at(address, 0);
                write!(f, "{a}.{b}.{c}.{d}/{count}")
            }
            IPNet::V6(range) => {
                let address = range.addr.number();
                let count = range.prefix.count();
                let a = group_at(address, 112);
                let b = group_at(address, 96);
                let c = group_at(address, 80);
                let d = group_at(address, 64);
                let e = group_at(address, 48);
                let f_group = group_at(address, 32);
                let g = group_at(address, 16);
                let h = group_at(address, 0);
                write!(f, "{a}:{b}:{c}:{d}:{e}:{f_group}:{g}:{h}/{count}")
            }
        }
    }
}
