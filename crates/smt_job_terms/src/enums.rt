// The enum types that a job states.
ghost use Rattle.std.specs.Prelude.{ℕ, List, map};
ghost use Rattle.std.specs.Rc.{rc_str_bytes};
ghost use Rattle.smt_term.specs.Enums.{enums_of};
ghost use Rattle.smt_sexpr.specs.View.{plain, plain_list};
ghost use Rattle.law_jobs.specs.Declarations.{Declarations};
ghost use Rattle.law_jobs.specs.Enums as stated;
ghost use Rattle.smt_job_terms.specs.EnumView.{HasEnums};
ghost use Rattle.smt_job_terms.specs.DeclarationView.{DeclaresNext};
ghost use Rattle.smt_job_terms.specs.ReadAs.{IsReadAs};

use crate::error::{JobError, duplicate};
use smt_sexpr::{SExpr, first_apart, inside_of, text_in};
use smt_term::{EntityType, EnumTable, Text};
use std::alloc::Global;

/// The texts that these expressions state.
fn texts_from(alloc: Global, items: &[SExpr]) -> Result<Vec<Text>, JobError>
    ensures { IsReadAs (λ texts. map rc_str_bytes texts.items) result
        (stated.texts_in (plain_list items.now)) }
{
    let mut texts = Vec::new(alloc);
    for item in items {
        let text = text_in(item).ok_or(JobError::BadForm)?;
        texts.push(text.clone()?)?;
    }
    Ok(texts)
}

/// The name of the enum type that an expression states, and its members as they are written.
fn enum_written<'e>(alloc: Global, expression: &'e SExpr) -> Result<(&'e Text, Vec<Text>), JobError>
    ensures { IsReadAs (λ p. (rc_str_bytes p.0.now, map rc_str_bytes p.1.items)) result
        (stated.enum_written (plain expression.now)) }
{
    let items = inside_of(expression).ok_or(JobError::BadForm)?;
    let (name, members) = first_apart(items).ok_or(JobError::BadForm)?;
    let name = text_in(name).ok_or(JobError::BadForm)?;
    let members = texts_from(alloc, members)?;
    Ok((name, members))
}

/// Enters an enum type, where the table has none of its name.
fn enter(table: &mut EnumTable, name: &Text, members: &[Text]) -> Result<(), JobError>
    ensures { (enums : Declarations (List (List ℕ))) → HasEnums table.old enums →
        DeclaresNext (HasEnums table.new) enums
        (stated.new_enum enums (rc_str_bytes name.now, map rc_str_bytes members.now)) result }
{
    if table.insert(EntityType(name.clone()?), members)? {
        Ok(())
    } else {
        Err(duplicate(name))
    }
}

/// Enters the enum type that an expression states.
fn declare(alloc: Global, table: &mut EnumTable, expression: &SExpr) -> Result<(), JobError>
    ensures { (enums : Declarations (List (List ℕ))) → HasEnums table.old enums →
        DeclaresNext (HasEnums table.new) enums (stated.enum_of enums (plain expression.now))
        result }
{
    let (name, members) = enum_written(alloc, expression)?;
    enter(table, name, members.as_slice())
}

/// The enum types that these expressions state: each is `("TYPE" "MEMBER" ..)`.
///
/// # Errors
///
/// The first fault from the left: `BadForm`, or `DuplicateName` of a type. `Memory`, where there is none for the table.
pub fn enums_from(alloc: Global, items: &[SExpr]) -> Result<EnumTable, JobError>
    ensures { IsReadAs (λ table. enums_of table) result (stated.enums_in (plain_list items.now)) }
{
    let mut table = EnumTable::new(alloc);
    for item in items {
        declare(alloc, &mut table, item)?;
    }
    Ok(table)
}
