//! Which IP ranges lie in which.

ghost use Rattle.std.specs.Prelude.{◌≡◌, IfOk};
ghost use Rattle.smt_ext.specs.IpOrder.{plain_range};
ghost use Rattle.smt_ext.specs.IpView.{range_of};
ghost use Rattle.law_extensions.specs.Answers.{TellsContainment, TellsLoopback, TellsMulticast};
ghost use Rattle.law_extensions.specs.ExtensionFunctions.{in_range, in_range_lit, in_range_v};
ghost use Rattle.law_extensions.specs.ExtensionFunctions.{is_in_range, is_ipv4, is_ipv6};
ghost use Rattle.law_extensions.specs.ExtensionFunctions.{is_loopback};
ghost use Rattle.law_extensions.specs.ExtensionFunctions.{is_multicast, range_v4, range_v6};
ghost use Rattle.law_extensions.specs.Rules.{RuleTells};
ghost use Rattle.smt_factory.specs.Closures.{AreByRule, GivesPairs, GivesTerms, StandsForPairs};
ghost use Rattle.smt_factory_core.specs.AnyOf.{GivesRefinements};
ghost use Rattle.smt_factory.specs.Pairs.{lies_in, plain_pair};
ghost use Rattle.law_folding.specs.Builder.{applied, folding};
ghost use Rattle.law_folding.specs.FoldExtensions.{extension_literal};
ghost use Rattle.law_terms.specs.Formed.{IsFormed};
ghost use Rattle.law_terms.specs.Plain.{PlainTerm};
ghost use Rattle.smt_term.specs.View.{BuildsTerm, plain_term, plain_terms};
ghost use Rattle.smt_factory_core.specs.Results.{ResultRefines};

use crate::ranges::{
    folded_range_v4, folded_range_v6, ip_term, is_ipv4, is_ipv6, range_v4, range_v6,
};
use crate::rule::RangeRule;
use smt_ext::{IPNet, loop_back_cidr_v4, loop_back_cidr_v6, multicast_cidr_v4, multicast_cidr_v6};
use smt_factory_core::{and, bvule, ite, or};
use smt_term::{Term, TermError};
use std::alloc::Global;

/// Whether the first range lies in the second, by the lowest and the highest address of each.
///
/// Where `range` gives what a function gives of its term, so does this call, and what would be built of these terms is formed,
/// as every term of the program is. Where `range` gives terms that stand for a function's, the result stands for what would be
/// built of these.
///
/// # Conditions
/// `range` may be called at any term.
///
/// # Errors
/// `Memory`, where there is none for the term, and where `range` answers it.
pub fn in_range<G>(alloc: Global, range: &G, t1: Term, t2: Term) -> Result<Term, TermError>
where
    G: Fn(Term) -> Result<(Term, Term), TermError>,
    requires { G.IsAlwaysCallable range.now }
    ensures folded { (given : PlainTerm → (PlainTerm × PlainTerm)) →
        GivesPairs (G.post range.now) given →
        BuildsTerm result (in_range folding given (plain_term t1) (plain_term t2)) }
    ensures refines { (original : PlainTerm → (PlainTerm × PlainTerm)) →
        StandsForPairs (G.post range.now) original →
        ResultRefines result (in_range applied original (plain_term t1) (plain_term t2)) }
    ensures formed { (given : PlainTerm → (PlainTerm × PlainTerm)) →
        GivesPairs (G.post range.now) given →
        IfOk result (λ r. IsFormed (in_range applied given (plain_term t1) (plain_term t2))) }
{
    let inner = range(t1)?;
    lies_in(alloc, inner, range(t2)?)
}

// Whether the first of two ranges lies in the second, by the lowest and the highest address of each.
fn lies_in(alloc: Global, inner: (Term, Term), outer: (Term, Term)) -> Result<Term, TermError>
    ensures { BuildsTerm result (lies_in folding (plain_pair inner) (plain_pair outer)) }
{
    let (lowest1, highest1) = inner;
    let (lowest2, highest2) = outer;
    and(
        alloc,
        bvule(alloc, highest1, highest2)?,
        bvule(alloc, lowest2, lowest1)?,
    )
}

/// Whether a range is of the rule's family and lies in one of the ranges that is.
///
/// Where the rule's calls give what functions give of their terms, so does this call, and what would be built of these terms is
/// formed, as every term of the program is. Where the calls give terms that stand for the functions', the result stands for what
/// would be built of these. Where these are a test and bounds as [`RangeRule::new`] asks for, and what would be built of them is
/// formed, the result is true, in every interpretation of what would be built in which the terms have ranges for their values,
/// exactly where the range is of the family and its addresses are all among those of one of the ranges that is.
///
/// # Conditions
/// The rule's calls may be called at any term.
///
/// # Errors
/// `Memory`, where there is none for the term, and where a call of the rule answers it.
pub fn in_range_v<F, G>(
    alloc: Global,
    rule: &RangeRule<F, G>,
    t: Term,
    ts: &[Term],
) -> Result<Term, TermError>
where
    F: Fn(Term) -> Result<Term, TermError>,
    G: Fn(Term) -> Result<(Term, Term), TermError>,
    requires test { F.IsAlwaysCallable rule.now.is_ip }
    requires bounds { G.IsAlwaysCallable rule.now.range }
    ensures folded { (is_ip : PlainTerm → PlainTerm) (range : PlainTerm → (PlainTerm × PlainTerm)) →
        GivesTerms (F.post rule.now.is_ip) is_ip → GivesPairs (G.post rule.now.range) range →
        BuildsTerm result (in_range_v folding is_ip range (plain_term t) (plain_terms ts.now)) }
    ensures refines { (is_ip : PlainTerm → PlainTerm) (range : PlainTerm → (PlainTerm × PlainTerm))
        → GivesRefinements (F.post rule.now.is_ip) is_ip →
        StandsForPairs (G.post rule.now.range) range →
        ResultRefines result (in_range_v applied is_ip range (plain_term t) (plain_terms ts.now)) }
    ensures formed { (is_ip : PlainTerm → PlainTerm) (range : PlainTerm → (PlainTerm × PlainTerm)) →
        GivesTerms (F.post rule.now.is_ip) is_ip → GivesPairs (G.post rule.now.range) range →
        IfOk result
        (λ r. IsFormed (in_range_v applied is_ip range (plain_term t) (plain_terms ts.now))) }
    ensures truth { (by : AreByRule (F.post rule.now.is_ip) (G.post rule.now.range)) →
        IfOk result
        (λ r. RuleTells by.test by.bounds (plain_term t) (plain_terms ts.now) (plain_term r)) }
{
    let mut in_one = Term::from(false);
    for x in ts {
        let is_of_family = (rule.is_ip)(x.share()?)?;
        let lies_in = in_range(alloc, &rule.range, t.share()?, x.share()?)?;
        in_one = or(alloc, in_one, and(alloc, is_of_family, lies_in)?)?;
    }
    and(alloc, (rule.is_ip)(t)?, in_one)
}

// Whether a range is of version 4 and lies in one of the ranges that is.
fn is_in_v4(alloc: Global, t: Term, ts: &[Term]) -> Result<Term, TermError>
    ensures { BuildsTerm result (in_range_v folding (is_ipv4 folding) (range_v4 folding)
        (plain_term t) (plain_terms ts.now)) }
{
    let is_ip = |x: Term| is_ipv4(alloc, x);
    let range = |x: Term| range_v4(alloc, x);
    in_range_v(alloc, &RangeRule::new(is_ip, range), t, ts)
}

// Whether a range is of version 6 and lies in one of the ranges that is.
fn is_in_v6(alloc: Global, t: Term, ts: &[Term]) -> Result<Term, TermError>
    ensures { BuildsTerm result (in_range_v folding (is_ipv6 folding) (range_v6 folding)
        (plain_term t) (plain_terms ts.now)) }
{
    let is_ip = |x: Term| is_ipv6(alloc, x);
    let range = |x: Term| range_v6(alloc, x);
    in_range_v(alloc, &RangeRule::new(is_ip, range), t, ts)
}

/// Whether a range lies in one of the ranges: in every interpretation in which the terms have ranges for their values, whether the
/// addresses of the first are all among those of one of the others.
///
/// # Examples
///
/// ```
/// use kembura::factory::is_in_range;
/// use kembura::{Ext, Term};
///
/// let office = Term::from(Ext::parse_ip(alloc, "10.0.0.0/8")?);
/// let address = Term::from(Ext::parse_ip(alloc, "10.1.2.3")?);
/// let is_inside = is_in_range(alloc, address, &[office])?;
/// assert_eq!(rt; is_inside, Term::from(true));
/// ```
///
/// # Errors
/// `Memory`, where there is none for the term.
pub fn is_in_range(alloc: Global, t: Term, ts: &[Term]) -> Result<Term, TermError>
    ensures folded { BuildsTerm result (is_in_range folding (plain_term t) (plain_terms ts.now)) }
    ensures refines { ResultRefines result
        (is_in_range applied (plain_term t) (plain_terms ts.now)) }
    ensures value { IfOk result
        (λ r. TellsContainment (plain_term t) (plain_terms ts.now) (plain_term r)) }
{
    let in_v4 = is_in_v4(alloc, t.share()?, ts)?;
    or(alloc, in_v4, is_in_v6(alloc, t, ts)?)
}

// Whether a range lies in a literal, by their addresses of version 4.
fn is_in_block_v4(alloc: Global, t: &Term, block: IPNet) -> Result<Term, TermError>
    ensures { BuildsTerm result (in_range folding (range_v4 folding) (plain_term t.now)
        (extension_literal (plain_range (range_of block)))) }
{
    let inner = folded_range_v4(alloc, t)?;
    lies_in(alloc, inner, range_v4(alloc, ip_term(block))?)
}

// Whether a range lies in a literal, by their addresses of version 6.
fn is_in_block_v6(alloc: Global, t: &Term, block: IPNet) -> Result<Term, TermError>
    ensures { BuildsTerm result (in_range folding (range_v6 folding) (plain_term t.now)
        (extension_literal (plain_range (range_of block)))) }
{
    let inner = folded_range_v6(alloc, t)?;
    lies_in(alloc, inner, range_v6(alloc, ip_term(block))?)
}

/// Whether a range lies in the one of two literals that is of its family.
///
/// # Errors
/// `Memory`, where there is none for the term.
pub fn in_range_lit(alloc: Global, t: Term, cidr4: IPNet, cidr6: IPNet) -> Result<Term, TermError>
    ensures folded { BuildsTerm result (in_range_lit folding (plain_term t)
        (plain_range (range_of cidr4)) (plain_range (range_of cidr6))) }
    ensures refines { ResultRefines result (in_range_lit applied (plain_term t)
        (plain_range (range_of cidr4)) (plain_range (range_of cidr6))) }
{
    folded_in_range_lit(alloc, &t, cidr4, cidr6)
}

// Whether a range lies in the one of two literals that is of its family, folded.
fn folded_in_range_lit(
    alloc: Global,
    t: &Term,
    cidr4: IPNet,
    cidr6: IPNet,
) -> Result<Term, TermError>
    ensures { BuildsTerm result (in_range_lit folding (plain_term t.now)
        (plain_range (range_of cidr4)) (plain_range (range_of cidr6))) }
{
    let in_v4 = is_in_block_v4(alloc, t, cidr4)?;
    let in_v6 = is_in_block_v6(alloc, t, cidr6)?;
    let is_v4 = is_v4(alloc, t)?;
    ite(alloc, is_v4, in_v4, in_v6)
}

// Whether a range is of IPv4.
fn is_v4(alloc: Global, t: &Term) -> Result<Term, TermError>
    ensures { BuildsTerm result (is_ipv4 folding (plain_term t.now)) }
{
    let t = t.share()?;
    is_ipv4(alloc, t)
}

/// Whether a range lies in `127.0.0.0/8` or in `::1`: in every interpretation in which the term has a range for its value, whether
/// the addresses of that range are all among those of one of the two.
///
/// # Errors
/// `Memory`, where there is none for the term.
pub fn is_loopback(alloc: Global, t: Term) -> Result<Term, TermError>
    ensures folded { BuildsTerm result (is_loopback folding (plain_term t)) }
    ensures refines { ResultRefines result (is_loopback applied (plain_term t)) }
    ensures value { IfOk result (λ r. TellsLoopback (plain_term t) (plain_term r)) }
{
    in_range_lit(alloc, t, loop_back_cidr_v4(), loop_back_cidr_v6())
}

/// Whether a range lies in `224.0.0.0/4` or in `ff00::/8`: in every interpretation in which the term has a range for its value,
/// whether the addresses of that range are all among those of one of the two.
///
/// # Errors
/// `Memory`, where there is none for the term.
pub fn is_multicast(alloc: Global, t: Term) -> Result<Term, TermError>
    ensures folded { BuildsTerm result (is_multicast folding (plain_term t)) }
    ensures refines { ResultRefines result (is_multicast applied (plain_term t)) }
    ensures value { IfOk result (λ r. TellsMulticast (plain_term t) (plain_term r)) }
{
    in_range_lit(alloc, t, multicast_cidr_v4(), multicast_cidr_v6())
}
