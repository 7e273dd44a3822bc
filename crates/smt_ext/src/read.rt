//! Texts to ranges. std reads the addresses.
ghost use Rattle.std.specs.Prelude.{◌≡◌, ℕ, ◌≤◌, ◌++◌, Option, IfSome, IfNone, decimal};
ghost use Rattle.std.specs.Prelude.{option_copied};
ghost use Rattle.smt_bits.specs.BitVec.{number_of};
ghost use Rattle.smt_ext.specs.IpRanges.{Version4, Version6, Range, prefix_of};
ghost use Rattle.smt_ext.specs.IpText.{IsDotted, IsColonText, WritesPrefix, WritesRange};
ghost use Rattle.smt_ext.specs.IpText.{behind_slash};
ghost use Rattle.smt_ext.specs.IpView.{v4_bits, v6_bits, v4_range, v6_range, range_of};
ghost use Rattle.smt_ext.specs.IpReader.{HasNo, WritesParts, is_padded};

use super::address::{IPv4Addr, IPv6Addr};
use super::net::{CIDRv4, CIDRv6, IPNet};
use super::prefix::{IPv4Prefix, IPv6Prefix};
use std::net;

fn read_v4(text: &str) -> Option<IPv4Addr>
    ensures found { IfSome result (λ a. IsDotted text.now (number_of (v4_bits a))) }
    ensures none { IfNone result ((address : ℕ) → IsDotted text.now address → ⊥) }
{
    let address = net::Ipv4Addr::parse_ascii(text.as_bytes()).ok()?;
    Some(IPv4Addr::of_number(address.to_bits()))
}

// std also reads an IPv4 address as the last two groups, so a text with a dot is refused.
fn read_v6(text: &str) -> Option<IPv6Addr>
    ensures found { IfSome result (λ a. IsColonText text.now (number_of (v6_bits a))) }
    ensures none { IfNone result ((address : ℕ) → IsColonText text.now address → ⊥) }
{
    if text.as_bytes().contains(&b'.') {
        return None;
    }
    let address = net::Ipv6Addr::parse_ascii(text.as_bytes()).ok()?;
    Some(IPv6Addr::of_number(address.to_bits()))
}

// Whether a sign stands in front, or a zero that is not the only digit.
fn is_padded(digits: &[u8]) -> bool
    ensures { result ≡ is_padded digits.now }
{
    match digits {
        [b'+', ..] => true,
        [b'0', _, ..] => true,
        _ => false,
    }
}

// The number that the digits write, where it is at most `most` and they have no leading zero but in "0".
fn read_count(digits: &str, most: u8) -> Option<u8>
    ensures found { IfSome result (λ count. (count ≤ most) × (digits.now ≡ decimal count)) }
    ensures none { IfNone result ((count : ℕ) → count ≤ most → digits.now ≡ decimal count → ⊥) }
{
    if is_padded(digits.as_bytes()) {
        return None;
    }
    let count = digits.parse::<u8>().ok()?;
    if count <= most { Some(count) } else { None }
}

// How many bits are shared; all `most` where there are no digits.
fn read_prefix(digits: Option<&str>, most: u8) -> Option<u8>
    ensures found { IfSome result (λ count. (count ≤ most)
        × WritesPrefix most (option_copied digits.entry) (prefix_of most count)) }
    ensures none { IfNone result
        ((prefix : Option ℕ) → WritesPrefix most (option_copied digits.entry) prefix → ⊥) }
{
    match digits {
        Some(digits) => read_count(digits, most),
        None => Some(most),
    }
}

// The text up to the first slash, and what stands behind it.
fn split_prefix(text: &str) -> (&str, Option<&str>)
    ensures whole { text.now ≡ result.0.now ++ behind_slash (option_copied result.1) }
    ensures first { HasNo 47 result.0.now }
{
    match text.split_once('/') {
        Some((address, digits)) => (address, Some(digits)),
        None => (text, None),
    }
}

fn read_v4_range(address: &str, digits: Option<&str>) -> Option<CIDRv4>
    ensures found { IfSome result
        (λ range. WritesParts address.now (option_copied digits.entry) (v4_range range)) }
    ensures none { IfNone result ((r : Range) → r.family ≡ Version4 →
        WritesParts address.now (option_copied digits.entry) r → ⊥) }
{
    let addr = read_v4(address)?;
    let count = read_prefix(digits, 32)?;
    let prefix = IPv4Prefix::of_count(count);
    Some(CIDRv4 { addr, prefix })
}

fn read_v6_range(address: &str, digits: Option<&str>) -> Option<CIDRv6>
    ensures found { IfSome result
        (λ range. WritesParts address.now (option_copied digits.entry) (v6_range range)) }
    ensures none { IfNone result ((r : Range) → r.family ≡ Version6 →
        WritesParts address.now (option_copied digits.entry) r → ⊥) }
{
    let addr = read_v6(address)?;
    let count = read_prefix(digits, 128)?;
    let prefix = IPv6Prefix::of_count(count);
    Some(CIDRv6 { addr, prefix })
}

/// The range that the text writes.
pub fn read_range(text: &str) -> Option<IPNet>
    ensures found { IfSome result (λ net. WritesRange text.now (range_of net)) }
    ensures none { IfNone result ((r : Range) → WritesRange text.now r → ⊥) }
{
    let (address, digits) = split_prefix(text);
    match read_v4_range(address, digits) {
        Some(range) => Some(IPNet::V4(range)),
        None => match read_v6_range(address, digits) {
            Some(range) => Some(IPNet::V6(range)),
            None => None,
        },
    }
}
