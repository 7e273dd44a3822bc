// Record types and records: their datatypes, the names and the places of attributes, and the bodies of records.
ghost use Rattle.std.specs.Prelude.{◌≡◌, ◌++◌, List, IfOk, IfSome, bytes_eq, codes, is_some, map};
ghost use Rattle.std.specs.List.{list_any};
ghost use Rattle.std.specs.Rc.{rc_str_bytes};
ghost use Rattle.std.specs.String.{string_bytes};
ghost use Rattle.law_texts.specs.LineTexts.{sorted_name, comma_separated};
ghost use Rattle.law_texts.specs.SharedTexts.{GivesText, texts};
ghost use Rattle.law_texts.specs.Reading.{Expression};
ghost use Rattle.law_lines.specs.Line.{spelled_constructor, spelled_lines, spelled_selector};
ghost use Rattle.law_lines.specs.Line.{Fielded};
ghost use Rattle.law_lines.specs.LineForms.{attribute_selectors, record_body, record_lines};
ghost use Rattle.law_lines.specs.EntryNames.{attribute_name, place_of};
ghost use Rattle.law_lines.specs.Spelling.{spelled};
ghost use Rattle.smt_spelling.specs.Entries.{datatype_bytes};
ghost use Rattle.smt_spelling.specs.Spelled.{AreSpelled};

use crate::datatype::{Datatype, push_commas};
use crate::pieces::concat;
use crate::spell::application_text;
use itoa::Buffer;
use smt_term::{Attr, Text};
use std::alloc::{AllocError, Global};

/// The datatype of a record type under a name, by its attributes and their sorts: one constructor, with a selector for each
/// attribute.
pub fn record_datatype(
    alloc: Global,
    attributes: &[Attr],
    sorts: &[Text],
    name: &str,
) -> Result<Datatype, AllocError>
    ensures { (es : List Expression) → AreSpelled es sorts.now →
        IfOk result (λ datatype.
        datatype_bytes datatype name.now
        ≡ spelled_lines (record_lines (texts attributes.now) name.now es)) }
{
    let comment = record_comment(alloc, attributes)?;
    let constructor = record_constructor(alloc, sorts, name)?;
    let mut constructors = Vec::with_capacity(alloc, 1)?;
    constructors.push(constructor)?;
    Ok(Datatype {
        comment,
        constructors,
    })
}

/// `{a, b}`, the attributes of a record type.
fn record_comment(alloc: Global, attributes: &[Attr]) -> Result<String, AllocError>
    ensures { IfOk result (λ comment.
        string_bytes comment ≡ codes "{" ++ (comma_separated (texts attributes.now) ++ codes "}")) }
{
    let mut comment = String::from_str(alloc, "{")?;
    push_commas(&mut comment, attributes)?;
    comment.push('}')?;
    Ok(comment)
}

/// `(R0 (R0_a0 S0) (R0_a1 S1))`, the constructor of records, with the selectors of the attributes. The space behind the
/// name stays where there is no attribute.
fn record_constructor(alloc: Global, sorts: &[Text], name: &str) -> Result<Text, AllocError>
    ensures { (es : List Expression) → AreSpelled es sorts.now →
        GivesText result
        (spelled_constructor (Fielded name.now (attribute_selectors name.now 0 es))) }
{
    let selectors = selector_texts(alloc, sorts, name)?;
    Text::from_string(application_text(alloc, name, selectors.as_slice())?)
}

/// `(R0_a0 S0)`, `(R0_a1 S1)` and so on, a selector for each sort.
fn selector_texts(alloc: Global, sorts: &[Text], name: &str) -> Result<Vec<Text>, AllocError>
    ensures { (es : List Expression) → AreSpelled es sorts.now →
        IfOk result (λ made.
        texts made.items
        ≡ map sorted_name (map spelled_selector (attribute_selectors name.now 0 es))) }
{
    let mut selectors = Vec::with_capacity(alloc, sorts.len())?;
    let mut place = 0;
    for sort in sorts {
        selectors.push(selector_text(alloc, name, place, sort.as_str())?)?;
        place += 1;
    }
    Ok(selectors)
}

/// `(R0_ai S)`, the selector of the attribute at a place, with its sort.
fn selector_text(alloc: Global, name: &str, place: usize, sort: &str) -> Result<Text, AllocError>
    ensures { GivesText result (sorted_name (attribute_name name.now place, sort.now)) }
{
    let mut digits = Buffer::new();
    let place = digits.format(place);
    Text::from_string(concat(alloc, &["(", name, "_a", place, " ", sort, ")"])?)
}

/// `R0_ai`, the name of the selector of the attribute at a place.
pub(crate) fn attribute_name(alloc: Global, sort: &str, place: usize) -> Result<Text, AllocError>
    ensures { GivesText result (attribute_name sort.now place) }
{
    let mut digits = Buffer::new();
    Text::from_string(concat(alloc, &[sort, "_a", digits.format(place)])?)
}

/// The place of the first attribute that is the same, None where there is none.
pub(crate) fn attribute_place(attributes: &[Attr], attribute: &Attr) -> Option<usize>
    ensures place { IfSome result
        (λ place. place ≡ place_of (rc_str_bytes attribute.now) (texts attributes.now)) }
    ensures some { is_some result
        ≡ list_any (bytes_eq (rc_str_bytes attribute.now)) (texts attributes.now) }
{
    let mut place = 0;
    for item in attributes {
        if attribute == item {
            return Some(place);
        }
        place += 1;
    }
    None
}

/// `(R0 x y)`: a record of this sort by its fields, `R0` where there is none.
pub(crate) fn record_text(alloc: Global, sort: &str, fields: &[Text]) -> Result<String, AllocError>
    ensures { (e : Expression) (es : List Expression) → sort.now ≡ spelled e →
        AreSpelled es fields.now →
        IfOk result (λ text. string_bytes text ≡ spelled (record_body e es)) }
{
    if fields.is_empty() {
        return String::from_str(alloc, sort);
    }
    application_text(alloc, sort, fields)
}
