// How nodes are entered: the text of what has no entry, and an entry's own lines.
#![tactic(auto, using(smt_term::specs::View::views))]

ghost use Rattle.std.specs.Prelude.{◌≡◌, ◌≤◌, List, IfOk, IsTrue, None, Some, is_some, length};
ghost use Rattle.std.specs.Prelude.{nat_eq};
ghost use Rattle.smt_spelling.specs.NodeEntries as stated;
ghost use Rattle.smt_spelling.specs.NodeEntries.{call_body, entry_by, entry_fault, has_inline};
ghost use Rattle.smt_spelling.specs.NodeEntries.{inline_by, inline_fault, is_entered};
ghost use Rattle.smt_spelling.specs.NodeEntries.{literal_entry_fault};
ghost use Rattle.smt_spelling.specs.NodeLines.{is_entered_literal};
ghost use Rattle.smt_spelling.specs.Entries.{ByBody, SaysEntry, SaysInline};
ghost use Rattle.smt_spelling.specs.Spelled.{AreSpelled};
ghost use Rattle.smt_spelling.specs.Renderings.{plain_rendering};
ghost use Rattle.smt_spelling.specs.Selections.{BeginsWith, IsHead};
ghost use Rattle.law_lines.specs.LineForms.{application_body};
ghost use Rattle.std.specs.String.{string_bytes};
ghost use Rattle.smt_spelling.specs.TextFaults.{pattern_fault, text_fault, Finds};
ghost use Rattle.law_texts.specs.Reading.{Expression};
ghost use Rattle.law_lines.specs.Lines.{Enums};
ghost use Rattle.law_lines.specs.Spelling.{spelled};
ghost use Rattle.law_terms.specs.Nodes.{ApplicationLabel, CallLabel, OptionLabel, SetLabel};
ghost use Rattle.smt_nodes.specs.View.{plain_label};
ghost use Rattle.smt_term.specs.Enums.{enums_of};
ghost use Rattle.smt_term.specs.View.{plain_literal, plain_op};

use crate::body::{headed_body, least_body};
use crate::extension::extension_text;
use crate::literal::literal_text;
use crate::record::record_text;
use crate::rendering::Rendering;
use crate::spell::{as_text, bits_sort, option_sort, set_sort, some_text};
use crate::{Entry, TextError, application_body, call_text, entity_entry, set_text};
use smt_nodes::Label;
use smt_term::{EnumTable, Op, TermPrim, Text};
use smt_text::quote_id;
use std::alloc::{AllocError, Global};

/// The sort of options of the one sort, None where there are more or less than one.
fn option_text(alloc: Global, parts: &[Text]) -> Result<Option<Text>, AllocError>
    ensures text { (es : List Expression) → AreSpelled es parts.now →
        IfOk result (SaysInline (inline_by OptionLabel es)) }
    ensures some { IfOk result (λ found. is_some found ≡ nat_eq (length parts.now) 1) }
{
    match parts {
        [inner] => Ok(Some(option_sort(alloc, inner.clone()?)?)),
        _ => Ok(None),
    }
}

/// The sort of sets of the one sort, None where there are more or less than one.
fn set_sort_text(alloc: Global, parts: &[Text]) -> Result<Option<Text>, AllocError>
    ensures text { (es : List Expression) → AreSpelled es parts.now →
        IfOk result (SaysInline (inline_by SetLabel es)) }
    ensures some { IfOk result (λ found. is_some found ≡ nat_eq (length parts.now) 1) }
{
    match parts {
        [inner] => Ok(Some(set_sort(alloc, inner.clone()?)?)),
        _ => Ok(None),
    }
}

/// It makes the text of a type or a literal by the texts of its parts, and answers None of what gets a name.
///
/// # Errors
///
/// `StringFailed` comes exactly of a string literal with a character above the greatest of SMT-LIB, unless there is no memory
/// first. `Memory` comes where there is no memory.
pub fn inline_text(alloc: Global, label: &Label, parts: &[Text]) -> Result<Option<Text>, TextError>
    ensures text { (es : List Expression) → AreSpelled es parts.now →
        IfOk result (SaysInline (inline_by (plain_label label.now) es)) }
    ensures some { IfOk result
        (λ found. is_some found ≡ has_inline (plain_label label.now) (length parts.now)) }
    ensures fault { Finds text_fault (inline_fault (plain_label label.now)) result }
{
    match label {
        Label::TOption => Ok(option_text(alloc, parts)?),
        Label::TBitvec(width) => Ok(Some(bits_sort(alloc, *width)?)),
        Label::TBool => Ok(Some(Text::from_str(alloc, "Bool")?)),
        Label::TEntity(_) | Label::TExt(_) | Label::TRecord(_) => Ok(None),
        Label::TString => Ok(Some(Text::from_str(alloc, "String")?)),
        Label::TSet => Ok(set_sort_text(alloc, parts)?),
        Label::Prim(literal) => literal_text(alloc, literal),
        Label::App(_)
        | Label::Call
        | Label::Fun(_)
        | Label::NoneOf
        | Label::RecordOf(_)
        | Label::SetOf
        | Label::SomeOf
        | Label::Var(_) => Ok(None),
    }
}

/// The body of an application by what it begins with: a selector, or else the head of its operator.
fn body_behind(
    alloc: Global,
    op: &Op,
    selector: Option<Text>,
    operands: Vec<Text>,
) -> Result<String, TextError>
    ensures text { (h : Expression) (es : List Expression) →
        BeginsWith (plain_op op.now) selector h → AreSpelled es operands.items →
        IfOk result
        (λ text. string_bytes text ≡ spelled (application_body h (plain_op op.now) es)) }
    ensures fault { Finds text_fault (pattern_fault (plain_op op.now)) result }
{
    match selector {
        Some(head) => headed_body(alloc, head.as_str(), op, operands),
        None => application_body(alloc, op, operands),
    }
}

/// How an application is entered, by what it begins with and the texts of its operands.
fn application_entry(
    alloc: Global,
    op: &Op,
    rendering: Rendering,
    selector: Option<Text>,
    operands: Vec<Text>,
) -> Result<Entry, TextError>
    ensures text { (h : Expression) (es : List Expression) →
        BeginsWith (plain_op op.now) selector h → AreSpelled es operands.items →
        IfOk result
        (SaysEntry (stated.application_entry (plain_rendering rendering) (plain_op op.now) h es)) }
    ensures fault { (enums : Enums) →
        Finds text_fault
        (entry_fault enums (ApplicationLabel (plain_op op.now)) (plain_rendering rendering))
        result }
{
    match rendering {
        Rendering::Application | Rendering::Call => {
            Ok(Entry::Body(body_behind(alloc, op, selector, operands)?))
        }
        Rendering::EqualsIntMin(width) => Ok(Entry::Body(least_body(alloc, width, operands)?)),
        Rendering::False => Ok(Entry::Name(Text::from_str(alloc, "false")?)),
    }
}

/// How a call is entered, by the texts of its arguments and then of its function.
fn call_entry(alloc: Global, mut operands: Vec<Text>) -> Result<Entry, TextError>
    requires { 1 ≤ length operands.items }
    ensures text { (es : List Expression) → AreSpelled es operands.items →
        IfOk result (SaysEntry (ByBody (call_body es))) }
    ensures fault { Finds text_fault None result }
{
    match operands.pop() {
        Some(function) => {
            let body = call_text(alloc, function.as_str(), operands.as_slice())?;
            Ok(Entry::Body(body))
        }
        // A call has a function.
        None => unreachable!(),
    }
}

/// How a literal is entered that gets a name, by its sort.
fn literal_entry(
    alloc: Global,
    enums: &EnumTable,
    literal: &TermPrim,
    sort: &str,
) -> Result<Entry, TextError>
    requires { IsTrue (is_entered_literal (plain_literal literal.now)) }
    ensures text { (e : Expression) → sort.now ≡ spelled e →
        IfOk result
        (SaysEntry (stated.literal_entry (enums_of enums.now) (plain_literal literal.now) e)) }
    ensures fault { Finds text_fault
        (literal_entry_fault (enums_of enums.now) (plain_literal literal.now)) result }
{
    match literal {
        TermPrim::Entity(entity) => {
            entity_entry(alloc, enums.members_of(&entity.ety), entity, sort)
        }
        TermPrim::Ext(value) => Ok(Entry::Body(extension_text(alloc, value)?)),
        // These have their own text.
        TermPrim::Bitvec(_) | TermPrim::Bool(_) | TermPrim::String(_) => unreachable!(),
    }
}

/// This is what is known of a term's line beside its texts: its label, how it is written, and the selector with which it
/// begins, if it selects an attribute.
#[derive(Drop)]
pub struct Shape<'a> {
    /// This is the label of its node.
    pub label: &'a Label,
    /// This is how it is written.
    pub rendering: Rendering,
    /// This is the selector with which it begins.
    pub selector: Option<Text>,
}

/// It says how a term is entered that gets a name, by its sort and the texts of its other parts: as a constant, with a body,
/// or under a name that it has without a line.
///
/// # Errors
///
/// `MissingMember`, `StringFailed` and `PatternFailed` come only where this is the fault of the entity or of the pattern; where
/// there is such a fault, the answer is never Ok. `Memory` comes where there is no memory.
pub fn entry_from(
    alloc: Global,
    enums: &EnumTable,
    shape: Shape<'_>,
    sort: &str,
    operands: Vec<Text>,
) -> Result<Entry, TextError>
    requires entered { IsTrue (is_entered (plain_label shape.label.now)) }
    requires called { plain_label shape.label.now ≡ CallLabel → 1 ≤ length operands.items }
    ensures text { (h e : Expression) (es : List Expression) →
        IsHead (plain_label shape.entry.label.now) shape.entry.selector h → sort.now ≡ spelled e →
        AreSpelled es operands.items →
        IfOk result (SaysEntry (entry_by (enums_of enums.now) (plain_label shape.entry.label.now)
        (plain_rendering shape.entry.rendering) h e es)) }
    ensures fault { Finds text_fault
        (entry_fault (enums_of enums.now) (plain_label shape.entry.label.now)
        (plain_rendering shape.entry.rendering))
        result }
{
    match shape.label {
        Label::App(op) => application_entry(alloc, op, shape.rendering, shape.selector, operands),
        Label::Call => call_entry(alloc, operands),
        Label::NoneOf => Ok(Entry::Body(as_text(alloc, "none", sort)?)),
        Label::Prim(literal) => literal_entry(alloc, enums, literal, sort),
        Label::RecordOf(_) => Ok(Entry::Body(record_text(alloc, sort, operands.as_slice())?)),
        Label::SetOf => Ok(Entry::Body(set_text(alloc, sort, operands)?)),
        Label::SomeOf => Ok(Entry::Body(some_text(alloc, operands.as_slice())?)),
        Label::Var(id) => Ok(Entry::Constant(quote_id(alloc, id.as_str())?)),
        // These have no entry.
        Label::TOption
        | Label::TBitvec(_)
        | Label::TBool
        | Label::TEntity(_)
        | Label::TExt(_)
        | Label::TString
        | Label::TRecord(_)
        | Label::TSet
        | Label::Fun(_) => unreachable!(),
    }
}
