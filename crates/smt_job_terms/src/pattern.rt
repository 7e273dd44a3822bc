// Patterns as jobs state them.
ghost use Rattle.std.specs.Prelude.{◌≡◌, ◌++◌, OnOk, IsOkUnless, map};
ghost use Rattle.std.specs.Str.{chars};
ghost use Rattle.smt_term.specs.PatternView.{plain_ord_pattern, plain_part};
ghost use Rattle.law_terms.specs.Plain.{Character};
ghost use Rattle.smt_sexpr.specs.View.{plain, plain_list};
ghost use Rattle.law_jobs.specs.Outcomes.{FormFault};
ghost use Rattle.law_texts.specs.Outcomes.{demanded};
ghost use Rattle.law_jobs.specs.Terms as stated;
ghost use Rattle.smt_job_terms.specs.ReadAs.{IsReadAs};
ghost use Rattle.smt_job_terms.specs.TermView.{AppendsParts};

use crate::JobError;
use smt_sexpr::{SExpr, inside_of};
use smt_term::{OrdPattern, Pattern, PatternElem};
use std::alloc::Global;

/// Appends the characters of a text.
fn push_characters(elems: &mut Vec<PatternElem>, text: &str) -> Result<(), JobError>
    ensures pushed { OnOk result (map plain_part elems.new.items
        ≡ map plain_part elems.old.items ++ map Character (chars text.now)) }
    ensures refusal { IsOkUnless result JobError.Memory }
{
    for character in text.chars() {
        elems.push(PatternElem::Char(character))?;
    }
    Ok(())
}

/// Appends a wildcard, where the name is its.
fn push_wildcard(elems: &mut Vec<PatternElem>, name: &str) -> Result<(), JobError>
    ensures { AppendsParts elems.old elems.new (stated.wildcard_named name.now) result }
{
    if name == "*" {
        Ok(elems.push(PatternElem::Wildcard)?)
    } else {
        Err(JobError::BadForm)
    }
}

/// Appends the characters of a string, or a wildcard.
fn push_part(elems: &mut Vec<PatternElem>, expression: &SExpr) -> Result<(), JobError>
    ensures { AppendsParts elems.old elems.new (stated.pattern_part (plain expression.now)) result }
{
    match expression {
        SExpr::String(text) => push_characters(elems, text.as_str()),
        SExpr::Symbol(name) => push_wildcard(elems, name.as_str()),
        SExpr::BitVec(_) | SExpr::Numeral(_) | SExpr::App(_) => Err(JobError::BadForm),
    }
}

/// The elements that these expressions state.
fn elements_from(alloc: Global, items: &[SExpr]) -> Result<Vec<PatternElem>, JobError>
    ensures { IsReadAs (λ elems. map plain_part elems.items) result
        (demanded FormFault (stated.pattern_parts (plain_list items.now))) }
{
    let mut elems = Vec::new(alloc);
    for item in items {
        push_part(&mut elems, item)?;
    }
    Ok(elems)
}

/// The pattern that an expression states.
pub(crate) fn pattern_from(alloc: Global, expression: &SExpr) -> Result<OrdPattern, JobError>
    ensures { IsReadAs plain_ord_pattern result
        (demanded FormFault (stated.pattern_in (plain expression.now))) }
{
    let items = inside_of(expression).ok_or(JobError::BadForm)?;
    let elems = elements_from(alloc, items)?;
    Ok(OrdPattern::from(Pattern::new(alloc, elems.as_slice())?))
}
