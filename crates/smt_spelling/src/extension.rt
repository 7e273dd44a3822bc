// Extension types: their datatypes, the bodies of their values, and the heads of their operators.
ghost use Rattle.std.specs.Prelude.{◌≡◌, ◌∷◌, [], IfOk, IfSome, map, option_map};
ghost use Rattle.std.specs.String.{string_bytes};
ghost use Rattle.law_numbers.specs.BitVectors.{bits_of};
ghost use Rattle.smt_bits.specs.BitVec.{number_of, width_of};
ghost use Rattle.smt_bits.specs.Width.{bits_in};
ghost use Rattle.law_texts.specs.SharedTexts.{GivesText, texts};
ghost use Rattle.smt_ext.specs.ExtOrder.{plain_value};
ghost use Rattle.smt_ext.specs.IpOrder.{plain_range};
ghost use Rattle.smt_ext.specs.IpView.{range_of};
ghost use Rattle.smt_term.specs.ExtensionView.{plain_extension_op, plain_kind};
ghost use Rattle.law_lines.specs.EntryNames.{kind_name};
ghost use Rattle.law_lines.specs.Line.{spelled_constructor};
ghost use Rattle.law_lines.specs.LineForms as forms;
ghost use Rattle.law_lines.specs.LineForms.{extension_body, extension_op_head, kind_constructors};
ghost use Rattle.law_lines.specs.Lines as lines;
ghost use Rattle.law_lines.specs.Spelling.{spelled};
ghost use Rattle.law_scripts.specs.Script.{group, name};

use crate::spell::{application_text, as_text, bits_literal, bits_sort, option_sort, some_text};
use smt_bits::{BitVec, FIVE, SEVEN, SIXTY_FOUR, Width};
use smt_ext::IPNet;
use smt_term::{Ext, ExtOp, ExtType, Text};
use std::alloc::{AllocError, Global};

/// The name of the datatype of an extension type.
pub fn extension_name(xty: ExtType) -> &'static str
    ensures { result.now ≡ kind_name (plain_kind xty) }
{
    match xty {
        ExtType::IpAddr => "IPAddr",
        ExtType::Decimal => "Decimal",
        ExtType::DateTime => "Datetime",
        ExtType::Duration => "Duration",
    }
}

/// The constructors of the datatype of an extension type, with their selectors.
pub fn extension_constructors(alloc: Global, xty: ExtType) -> Result<Vec<Text>, AllocError>
    ensures { IfOk result
        (λ made. texts made.items ≡ map spelled_constructor (kind_constructors (plain_kind xty))) }
{
    let mut constructors = Vec::new(alloc);
    match xty {
        ExtType::IpAddr => {
            let v4 = "(V4 (addrV4 (_ BitVec 32)) (prefixV4 (Option (_ BitVec 5))))";
            let v6 = "(V6 (addrV6 (_ BitVec 128)) (prefixV6 (Option (_ BitVec 7))))";
            constructors.push(Text::from_str(alloc, v4)?)?;
            constructors.push(Text::from_str(alloc, v6)?)?;
        }
        ExtType::Decimal => {
            let decimal = "(Decimal (decimalVal (_ BitVec 64)))";
            constructors.push(Text::from_str(alloc, decimal)?)?;
        }
        ExtType::DateTime => {
            let datetime = "(Datetime (datetimeVal (_ BitVec 64)))";
            constructors.push(Text::from_str(alloc, datetime)?)?;
        }
        ExtType::Duration => {
            let duration = "(Duration (durationVal (_ BitVec 64)))";
            constructors.push(Text::from_str(alloc, duration)?)?;
        }
    }
    Ok(constructors)
}

/// What stands before the operand of an operator of the extension types: a constructor, a selector, or the test of the
/// family.
pub fn extension_head(op: ExtOp) -> &'static str
    ensures { result.now ≡ spelled (extension_op_head (plain_extension_op op)) }
{
    match op {
        ExtOp::DatetimeOfBitVec => "Datetime",
        ExtOp::DatetimeVal => "datetimeVal",
        ExtOp::DecimalVal => "decimalVal",
        ExtOp::DurationOfBitVec => "Duration",
        ExtOp::DurationVal => "durationVal",
        ExtOp::IpaddrAddrV4 => "addrV4",
        ExtOp::IpaddrAddrV6 => "addrV6",
        ExtOp::IpaddrIsV4 => "(_ is V4)",
        ExtOp::IpaddrPrefixV4 => "prefixV4",
        ExtOp::IpaddrPrefixV6 => "prefixV6",
    }
}

/// `(Decimal B)`, `(V4 B P)` and so on: the constructor of a value at its numbers.
pub(crate) fn extension_text(alloc: Global, value: &Ext) -> Result<String, AllocError>
    ensures { IfOk result
        (λ body. string_bytes body ≡ spelled (extension_body (plain_value value.now))) }
{
    match value {
        Ext::Decimal { d } => long_text(alloc, "Decimal", d.ten_thousandths),
        Ext::Ipaddr { ip } => range_text(alloc, ip),
        Ext::Datetime { dt } => long_text(alloc, "Datetime", i64::from(*dt)),
        Ext::Duration { d } => long_text(alloc, "Duration", i64::from(*d)),
    }
}

/// `(Decimal B)`: a constructor at a number of 64 bits with sign.
fn long_text(alloc: Global, constructor: &str, number: i64) -> Result<String, AllocError>
    ensures { IfOk result (λ text.
        string_bytes text
        ≡ spelled (group (name constructor.now ∷ lines.bits 64 (bits_of 64 number) ∷ []))) }
{
    let bits = BitVec::of_int(SIXTY_FOUR, i128::from(number));
    let literal = bits_literal(alloc, &bits)?;
    application_text(alloc, constructor, &[literal])
}

/// `(V4 B P)` or `(V6 B P)`: the constructor of a range at its address and its prefix.
fn range_text(alloc: Global, range: &IPNet) -> Result<String, AllocError>
    ensures { IfOk result
        (λ text. string_bytes text ≡ spelled (extension_body (plain_range (range_of range.now)))) }
{
    match range {
        IPNet::V4(range) => {
            let prefix = prefix_text(alloc, FIVE, range.prefix.as_bitvec())?;
            let address = bits_literal(alloc, range.addr.as_bitvec())?;
            application_text(alloc, "V4", &[address, prefix])
        }
        IPNet::V6(range) => {
            let prefix = prefix_text(alloc, SEVEN, range.prefix.as_bitvec())?;
            let address = bits_literal(alloc, range.addr.as_bitvec())?;
            application_text(alloc, "V6", &[address, prefix])
        }
    }
}

/// `(some B)` or `(as none (Option (_ BitVec n)))`: the prefix of a range.
fn prefix_text(alloc: Global, width: Width, prefix: Option<&BitVec>) -> Result<Text, AllocError>
    ensures { IfSome prefix.entry (λ bits. width_of bits.now ≡ bits_in width) →
        GivesText result (spelled (forms.prefix_body (bits_in width)
        (option_map (λ bits. number_of bits.now) prefix.entry))) }
{
    match prefix {
        Some(bits) => {
            let literal = bits_literal(alloc, bits)?;
            Text::from_string(some_text(alloc, &[literal])?)
        }
        None => {
            let sort = option_sort(alloc, bits_sort(alloc, width)?)?;
            Text::from_string(as_text(alloc, "none", sort.as_str())?)
        }
    }
}
