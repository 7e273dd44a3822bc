// The bodies of definitions of applications.
ghost use Rattle.std.specs.Prelude.{◌≡◌, List, IfOk, OnOk};
ghost use Rattle.std.specs.Rc.{rc_str_bytes};
ghost use Rattle.std.specs.String.{string_bytes};
ghost use Rattle.smt_bits.specs.Width.{bits_in};
ghost use Rattle.smt_spelling.specs.Spelled.{AreSpelled};
ghost use Rattle.smt_spelling.specs.TextFaults.{pattern_fault, text_fault, Finds};
ghost use Rattle.law_lines.specs.LineForms as forms;
ghost use Rattle.law_lines.specs.LineForms.{application_body, least_body, operator_head};
ghost use Rattle.law_lines.specs.LineForms.{with_pattern};
ghost use Rattle.law_lines.specs.Spelling.{spelled};
ghost use Rattle.law_texts.specs.Reading.{Expression};
ghost use Rattle.law_scripts.specs.WrittenStrings.{pattern_expr};
ghost use Rattle.law_terms.specs.Plain.{PatternPart};
ghost use Rattle.smt_term.specs.View.{plain_op};

use crate::error::TextError;
use crate::pattern::pattern_text;
use crate::spell::{application_text, bits_literal, head_text};
use smt_bits::{BitVec, Width};
use smt_term::{Op, Text};
use std::alloc::{AllocError, Global};

/// The body of an application that is written by its operator, by the texts of its operands.
///
/// # Errors
/// `PatternFailed` exactly where the operator's pattern has a character above `SMT_LIB_MAX_CODE_POINT`.
pub fn application_body(alloc: Global, op: &Op, operands: Vec<Text>) -> Result<String, TextError>
    ensures text { (es : List Expression) → AreSpelled es operands.items →
        IfOk result (λ text.
        string_bytes text
        ≡ spelled (application_body (operator_head (plain_op op.now)) (plain_op op.now) es)) }
    ensures fault { Finds text_fault (pattern_fault (plain_op op.now)) result }
{
    let head = head_text(alloc, op)?;
    headed_body(alloc, head.as_str(), op, operands)
}

/// The body of an application that begins with this head, by the texts of its operands.
///
/// # Errors
/// `PatternFailed` exactly where the operator's pattern has a character above `SMT_LIB_MAX_CODE_POINT`.
pub(crate) fn headed_body(
    alloc: Global,
    head: &str,
    op: &Op,
    mut operands: Vec<Text>,
) -> Result<String, TextError>
    ensures text { (h : Expression) (es : List Expression) → head.now ≡ spelled h →
        AreSpelled es operands.items →
        IfOk result
        (λ text. string_bytes text ≡ spelled (application_body h (plain_op op.now) es)) }
    ensures fault { Finds text_fault (pattern_fault (plain_op op.now)) result }
{
    push_pattern(alloc, op, &mut operands)?;
    Ok(application_text(alloc, head, operands.as_slice())?)
}

/// The equality of an operand with the least number of a width, by the texts of the operands.
pub(crate) fn least_body(
    alloc: Global,
    width: Width,
    mut operands: Vec<Text>,
) -> Result<String, AllocError>
    ensures { (es : List Expression) → AreSpelled es operands.items →
        IfOk result (λ text. string_bytes text ≡ spelled (least_body (bits_in width) es)) }
{
    operands.push(bits_literal(alloc, &BitVec::int_min(width))?)?;
    application_text(alloc, "=", operands.as_slice())
}

/// Puts the pattern of `string.like` behind the operands. Where there are none, their empty text stands before it.
fn push_pattern(alloc: Global, op: &Op, operands: &mut Vec<Text>) -> Result<(), TextError>
    ensures operands { (es : List Expression) → AreSpelled es operands.old.items →
        OnOk result (AreSpelled (forms.operands (plain_op op.now) es) operands.new.items) }
    ensures fault { Finds text_fault (pattern_fault (plain_op op.now)) result }
{
    match op {
        Op::StringLike(pattern) => {
            let expression = pattern_text(alloc, pattern)?;
            push_expression(alloc, expression, operands)?;
            Ok(())
        }
        _ => Ok(()),
    }
}

/// Puts a regular expression behind the operands.
fn push_expression(
    alloc: Global,
    expression: Text,
    operands: &mut Vec<Text>,
) -> Result<(), AllocError>
    ensures { (p : List PatternPart) (es : List Expression) →
        rc_str_bytes expression ≡ spelled (pattern_expr p) → AreSpelled es operands.old.items →
        OnOk result (AreSpelled (with_pattern p es) operands.new.items) }
{
    if operands.is_empty() {
        operands.push(Text::from_str(alloc, "")?)?;
        operands.push(expression)?;
        return Ok(());
    }
    operands.push(expression)?;
    Ok(())
}
