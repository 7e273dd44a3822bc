//! The families of IP ranges, and their lowest and highest addresses.
#![tactic(auto, using(crate::proofs::Widths::widths))]

ghost use Rattle.std.specs.Prelude.{◌≡◌, ◌<◌, ◌≤◌, ◌-◌, ◌^◌, IfOk};
ghost use Rattle.smt_bits.specs.Width.{bits_in};
ghost use Rattle.smt_ext.specs.IpOrder.{plain_range};
ghost use Rattle.smt_ext.specs.IpView.{range_of};
ghost use Rattle.law_extensions.specs.ExtensionFunctions.{is_ipv4, is_ipv6, lowest_address};
ghost use Rattle.law_extensions.specs.ExtensionFunctions.{range_by, range_v4, range_v6};
ghost use Rattle.law_extensions.specs.ExtensionFunctions.{subnet_width};
ghost use Rattle.law_extensions.specs.Laws.{BothRefine};
ghost use Rattle.smt_factory.specs.Pairs.{last_from, plain_pair};
ghost use Rattle.law_folding.specs.Applications.{bits_literal};
ghost use Rattle.law_folding.specs.Builder.{applied, folding};
ghost use Rattle.law_folding.specs.FoldExtensions.{extension_literal};
ghost use Rattle.law_terms.specs.Plain.{BitVecType, IpPrefixV4Op, IpPrefixV6Op, OptionType};
ghost use Rattle.law_terms.specs.Types.{type_of};
ghost use Rattle.smt_term.specs.View.{BuildsTerm, plain_term};
ghost use Rattle.smt_factory_core.specs.Results.{ResultRefines};

use smt_bits::{BitVec, FIVE, HUNDRED_TWENTY_EIGHT, SEVEN, THIRTY_TWO, Width};
use smt_ext::IPNet;
use smt_factory_core::{
    bvadd, bvlshr, bvshl, bvsub, ext_ipaddr_addr_v4, ext_ipaddr_addr_v6, ext_ipaddr_is_v4,
    ext_ipaddr_prefix_v4, ext_ipaddr_prefix_v6, is_none, ite, not, option_get, zero_extend,
};
use smt_term::{Ext, Term, TermError};
use std::alloc::Global;

/// The literal of an IP range.
#[tactic(auto, using(smt_term::specs::View::views))]
pub fn ip_term(ip: IPNet) -> Term
    ensures { plain_term result ≡ extension_literal (plain_range (range_of ip)) }
{
    Term::from(Ext::Ipaddr { ip })
}

/// Whether an IP range is of IPv4.
///
/// # Errors
/// `Memory`, where there is none for the term.
pub fn is_ipv4(alloc: Global, t: Term) -> Result<Term, TermError>
    ensures folded { BuildsTerm result (is_ipv4 folding (plain_term t)) }
    ensures refines { ResultRefines result (is_ipv4 applied (plain_term t)) }
{
    ext_ipaddr_is_v4(alloc, t)
}

/// Whether an IP range is of IPv6.
///
/// # Errors
/// `Memory`, where there is none for the term.
pub fn is_ipv6(alloc: Global, t: Term) -> Result<Term, TermError>
    ensures folded { BuildsTerm result (is_ipv6 folding (plain_term t)) }
    ensures refines { ResultRefines result (is_ipv6 applied (plain_term t)) }
{
    not(alloc, is_ipv4(alloc, t)?)
}

// The width of the addresses whose prefixes have `w` bits: 2 to the `w`.
fn address_width(w: Width) -> Width
    requires { bits_in w ≤ 7 }
    ensures { bits_in result ≡ 2 ^ bits_in w }
{
    match Width::new(1u32 << w.get()) {
        Some(bits) => bits,
        None => unreachable!(),
    }
}

// The literal of a number that fits.
#[tactic(auto, using(smt_term::specs::View::views, crate::proofs::Widths::fitting))]
fn literal(width: Width, number: u32) -> Term
    requires { number < 2 ^ bits_in width }
    ensures { plain_term result ≡ bits_literal (bits_in width) number }
{
    Term::from(BitVec::of_u128(width, u128::from(number)))
}

// The number of bits that a prefix counts, in as many bits as an address has.
fn counted_bits(alloc: Global, w: Width, prefix: &Term) -> Result<Term, TermError>
    requires width { bits_in w ≤ 7 }
    requires option { type_of (plain_term prefix.now) ≡ OptionType (BitVecType (bits_in w)) }
    ensures { BuildsTerm result (folding.zero_extend (2 ^ bits_in w - bits_in w)
        (folding.option_get (plain_term prefix.now))) }
{
    let more = address_width(w).get() - w.get();
    zero_extend(alloc, more, option_get(alloc, prefix.share()?)?)
}

/// How many last bits of an address are free, by its prefix, an option of `w` bits: of the N bits of the address, where N is
/// 2 to the `w`, those that the prefix does not count, and none where there is no prefix. The number has N bits.
///
/// # Conditions
/// The prefix is an option of bitvectors of `w` bits, and `w` is at most 7.
///
/// # Errors
/// `Memory`, where there is none for the term.
pub fn subnet_width(alloc: Global, w: Width, prefix: Term) -> Result<Term, TermError>
    requires width { bits_in w ≤ 7 }
    requires option { type_of (plain_term prefix) ≡ OptionType (BitVecType (bits_in w)) }
    ensures folded { BuildsTerm result (subnet_width folding (bits_in w) (plain_term prefix)) }
    ensures refines { ResultRefines result (subnet_width applied (bits_in w) (plain_term prefix)) }
{
    folded_subnet_width(alloc, w, &prefix)
}

// The number of free bits, folded.
fn folded_subnet_width(alloc: Global, w: Width, prefix: &Term) -> Result<Term, TermError>
    requires width { bits_in w ≤ 7 }
    requires option { type_of (plain_term prefix.now) ≡ OptionType (BitVecType (bits_in w)) }
    ensures { BuildsTerm result (subnet_width folding (bits_in w) (plain_term prefix.now)) }
{
    let bits = address_width(w);
    let counted = counted_bits(alloc, w, prefix)?;
    let uncounted = bvsub(alloc, literal(bits, bits.get()), counted)?;
    let is_none = is_none(alloc, prefix.share()?)?;
    ite(alloc, is_none, literal(bits, 0), uncounted)
}

// An address with its free bits cleared.
fn lowest_address(alloc: Global, address: &Term, free: &Term) -> Result<Term, TermError>
    ensures { BuildsTerm result
        (lowest_address folding (plain_term address.now) (plain_term free.now)) }
{
    let kept = bvlshr(alloc, address.share()?, free.share()?)?;
    bvshl(alloc, kept, free.share()?)
}

// The last address of so many free bits from the lowest one on.
fn last_address(alloc: Global, width: Width, lowest: &Term, free: &Term) -> Result<Term, TermError>
    ensures { BuildsTerm result
        (last_from (bits_in width) (plain_term lowest.now) (plain_term free.now)) }
{
    let size = bvshl(alloc, literal(width, 1), free.share()?)?;
    let behind = bvadd(alloc, lowest.share()?, size)?;
    bvsub(alloc, behind, literal(width, 1))
}

// The lowest and the highest address, of an address and the number of its free bits.
fn range_by(
    alloc: Global,
    width: Width,
    address: &Term,
    free: &Term,
) -> Result<(Term, Term), TermError>
    ensures { IfOk result (λ r.
        plain_pair r
        ≡ range_by folding (bits_in width) (plain_term address.now) (plain_term free.now)) }
{
    let lowest = lowest_address(alloc, address, free)?;
    let highest = last_address(alloc, width, &lowest, free)?;
    Ok((lowest, highest))
}

/// The lowest and the highest address of an IPv4 range, of 32 bits each.
///
/// # Errors
/// `Memory`, where there is none for the terms.
pub fn range_v4(alloc: Global, t: Term) -> Result<(Term, Term), TermError>
    ensures folded { IfOk result (λ r. plain_pair r ≡ range_v4 folding (plain_term t)) }
    ensures refines { IfOk result
        (λ r. BothRefine (plain_pair r) (range_v4 applied (plain_term t))) }
{
    folded_range_v4(alloc, &t)
}

// How many last bits of an IPv4 range's address are free.
fn free_bits_v4(alloc: Global, t: &Term) -> Result<Term, TermError>
    ensures { BuildsTerm result
        (subnet_width folding 5 (folding.extension IpPrefixV4Op (plain_term t.now))) }
{
    let prefix = ext_ipaddr_prefix_v4(alloc, t.share()?)?;
    subnet_width(alloc, FIVE, prefix)
}

// The lowest and the highest address, folded.
pub(crate) fn folded_range_v4(alloc: Global, t: &Term) -> Result<(Term, Term), TermError>
    ensures { IfOk result (λ r. plain_pair r ≡ range_v4 folding (plain_term t.now)) }
{
    let free = free_bits_v4(alloc, t)?;
    let address = ext_ipaddr_addr_v4(alloc, t.share()?)?;
    range_by(alloc, THIRTY_TWO, &address, &free)
}

/// The lowest and the highest address of an IPv6 range, of 128 bits each.
///
/// # Errors
/// `Memory`, where there is none for the terms.
pub fn range_v6(alloc: Global, t: Term) -> Result<(Term, Term), TermError>
    ensures folded { IfOk result (λ r. plain_pair r ≡ range_v6 folding (plain_term t)) }
    ensures refines { IfOk result
        (λ r. BothRefine (plain_pair r) (range_v6 applied (plain_term t))) }
{
    folded_range_v6(alloc, &t)
}

// How many last bits of an IPv6 range's address are free.
fn free_bits_v6(alloc: Global, t: &Term) -> Result<Term, TermError>
    ensures { BuildsTerm result
        (subnet_width folding 7 (folding.extension IpPrefixV6Op (plain_term t.now))) }
{
    let prefix = ext_ipaddr_prefix_v6(alloc, t.share()?)?;
    subnet_width(alloc, SEVEN, prefix)
}

// The lowest and the highest address, folded.
pub(crate) fn folded_range_v6(alloc: Global, t: &Term) -> Result<(Term, Term), TermError>
    ensures { IfOk result (λ r. plain_pair r ≡ range_v6 folding (plain_term t.now)) }
{
    let free = free_bits_v6(alloc, t)?;
    let address = ext_ipaddr_addr_v6(alloc, t.share()?)?;
    range_by(alloc, HUNDRED_TWENTY_EIGHT, &address, &free)
}
