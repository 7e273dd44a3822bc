// The form of an input: its job, and the entries of its four sections before any value is read.
ghost use Rattle.std.specs.Prelude.{◌≡◌, IfOk, IsOkUnless, codes, map, option_map};
ghost use Rattle.std.specs.Result.{result_ok};
ghost use Rattle.law_assignments.specs.Outcomes.{FormlessInput};
ghost use Rattle.law_assignments.specs.Written as stated;
ghost use Rattle.law_texts.specs.Parts as parts;
ghost use Rattle.law_jobs.specs.Types.{type_of_expression};
ghost use Rattle.law_texts.specs.Outcomes.{demanded};
ghost use Rattle.smt_sexpr.specs.View.{plain, plain_list};
ghost use Rattle.smt_term.specs.View.{plain_type};
ghost use Rattle.smt_eval.specs.InputRefused.{IsInputReadAs};
ghost use Rattle.smt_eval.specs.WrittenView.{plain_named, plain_pair, plain_typed, plain_written};
ghost use Rattle.smt_eval.specs.WrittenView.{plain_written_table};

use crate::error::EvalError;
use smt_job_terms::{JobError, type_from};
use smt_sexpr::{SExpr, inside_of, pair_in, section, text_in};
use smt_term::{TermType, Text};
use std::alloc::Global;

/// The table of a function or a selector as it is written.
#[derive(Drop)]
pub(crate) struct WrittenTable<'e> {
    /// The name of the function or of the selector.
    pub name: &'e Text,
    /// The value at all other keys.
    pub elsewhere: &'e SExpr,
    /// The pairs of key and value, in the order in which they stand.
    pub entries: Vec<(&'e SExpr, &'e SExpr)>,
}

/// An input as it is written: its job, and for each section what its entries are for and what stands for their values.
#[derive(Drop)]
pub(crate) struct WrittenInput<'e> {
    /// The job.
    pub job: &'e SExpr,
    /// The entries of variables, by their ids.
    pub variables: Vec<(&'e Text, &'e SExpr)>,
    /// The entries of functions.
    pub functions: Vec<WrittenTable<'e>>,
    /// The entries of what `option.get` of none gives, by the inner types.
    pub gets: Vec<(TermType, &'e SExpr)>,
    /// The entries of selectors.
    pub selectors: Vec<WrittenTable<'e>>,
}

/// The type that an expression states, where it states one.
fn type_in(alloc: Global, expression: &SExpr) -> Result<Option<TermType>, EvalError>
    ensures stated { IfOk result
        (λ ty. option_map plain_type ty ≡ result_ok (type_of_expression (plain expression.now))) }
    ensures refusal { IsOkUnless result EvalError.Memory }
{
    match type_from(alloc, expression) {
        Ok(ty) => Ok(Some(ty)),
        Err(JobError::Memory) => Err(EvalError::Memory),
        Err(_) => Ok(None),
    }
}

/// The entry of a variable.
fn named_in(entry: &SExpr) -> Option<(&Text, &SExpr)>
    ensures { option_map plain_named result ≡ stated.variable_written (plain entry.now) }
{
    let (id, value) = pair_in(entry)?;
    Some((text_in(id)?, value))
}

/// The entries of variables.
fn named_all(alloc: Global, entries: &[SExpr]) -> Result<Vec<(&Text, &SExpr)>, EvalError>
    ensures { IsInputReadAs (λ vs. map plain_named vs.items) result
        (demanded FormlessInput (stated.each_in stated.variable_written (plain_list entries.now))) }
{
    let mut found = Vec::new(alloc);
    for entry in entries {
        let named = named_in(entry).ok_or(EvalError::BadForm)?;
        found.push(named)?;
    }
    Ok(found)
}

/// The entry of what `option.get` of none gives at an inner type.
fn typed_in(alloc: Global, entry: &SExpr) -> Result<(TermType, &SExpr), EvalError>
    ensures { IsInputReadAs plain_typed result
        (demanded FormlessInput (stated.get_written (plain entry.now))) }
{
    let (ty, value) = pair_in(entry).ok_or(EvalError::BadForm)?;
    let ty = type_in(alloc, ty)?.ok_or(EvalError::BadForm)?;
    Ok((ty, value))
}

/// The entries of what `option.get` of none gives.
fn typed_all(alloc: Global, entries: &[SExpr]) -> Result<Vec<(TermType, &SExpr)>, EvalError>
    ensures { IsInputReadAs (λ gs. map plain_typed gs.items) result
        (demanded FormlessInput (stated.each_in stated.get_written (plain_list entries.now))) }
{
    let mut found = Vec::new(alloc);
    for entry in entries {
        let typed = typed_in(alloc, entry)?;
        found.push(typed)?;
    }
    Ok(found)
}

/// The pairs of key and value of a table.
fn pairs_all(alloc: Global, entries: &[SExpr]) -> Result<Vec<(&SExpr, &SExpr)>, EvalError>
    ensures { IsInputReadAs (λ ps. map plain_pair ps.items) result
        (demanded FormlessInput (stated.each_in parts.pair_in (plain_list entries.now))) }
{
    let mut found = Vec::new(alloc);
    for entry in entries {
        let pair = pair_in(entry).ok_or(EvalError::BadForm)?;
        found.push(pair)?;
    }
    Ok(found)
}

/// The table of what stands in its brackets.
fn table_inside(alloc: Global, inside: &[SExpr]) -> Result<WrittenTable<'_>, EvalError>
    ensures { IsInputReadAs plain_written_table result
        (demanded FormlessInput (stated.table_inside (plain_list inside.now))) }
{
    let [name, elsewhere, entries @ ..] = inside else {
        return Err(EvalError::BadForm);
    };
    let name = text_in(name).ok_or(EvalError::BadForm)?;
    let entries = pairs_all(alloc, entries)?;
    Ok(WrittenTable {
        name,
        elsewhere,
        entries,
    })
}

/// The entry of a function or a selector.
fn table_in(alloc: Global, entry: &SExpr) -> Result<WrittenTable<'_>, EvalError>
    ensures { IsInputReadAs plain_written_table result
        (demanded FormlessInput (stated.table_written (plain entry.now))) }
{
    let inside = inside_of(entry).ok_or(EvalError::BadForm)?;
    table_inside(alloc, inside)
}

/// The entries of functions or selectors.
fn tables_all(alloc: Global, entries: &[SExpr]) -> Result<Vec<WrittenTable<'_>>, EvalError>
    ensures { IsInputReadAs (λ ts. map plain_written_table ts.items) result
        (demanded FormlessInput (stated.each_in stated.table_written (plain_list entries.now))) }
{
    let mut found = Vec::new(alloc);
    for entry in entries {
        let table = table_in(alloc, entry)?;
        found.push(table)?;
    }
    Ok(found)
}

/// The section of variables.
fn variables_written(alloc: Global, written: &SExpr) -> Result<Vec<(&Text, &SExpr)>, EvalError>
    ensures { IsInputReadAs (λ vs. map plain_named vs.items) result
        (demanded FormlessInput
        (stated.entries_in (codes "vars") stated.variable_written (plain written.now))) }
{
    let entries = section("vars", written).ok_or(EvalError::BadForm)?;
    named_all(alloc, entries)
}

/// The section of what `option.get` of none gives.
fn gets_written(alloc: Global, written: &SExpr) -> Result<Vec<(TermType, &SExpr)>, EvalError>
    ensures { IsInputReadAs (λ gs. map plain_typed gs.items) result
        (demanded FormlessInput
        (stated.entries_in (codes "gets") stated.get_written (plain written.now))) }
{
    let entries = section("gets", written).ok_or(EvalError::BadForm)?;
    typed_all(alloc, entries)
}

/// The section of tables behind this head.
fn tables_written<'e>(
    alloc: Global,
    head: &str,
    written: &'e SExpr,
) -> Result<Vec<WrittenTable<'e>>, EvalError>
    ensures { IsInputReadAs (λ ts. map plain_written_table ts.items) result
        (demanded FormlessInput
        (stated.entries_in head.now stated.table_written (plain written.now))) }
{
    let entries = section(head, written).ok_or(EvalError::BadForm)?;
    tables_all(alloc, entries)
}

/// The input of the job and the four sections behind it.
fn sections_written(alloc: Global, inside: &[SExpr]) -> Result<WrittenInput<'_>, EvalError>
    ensures { IsInputReadAs plain_written result
        (demanded FormlessInput (stated.sections_written (plain_list inside.now))) }
{
    let [job, variables, functions, gets, selectors] = inside else {
        return Err(EvalError::BadForm);
    };
    let variables = variables_written(alloc, variables)?;
    let functions = tables_written(alloc, "funs", functions)?;
    let gets = gets_written(alloc, gets)?;
    let selectors = tables_written(alloc, "selectors", selectors)?;
    Ok(WrittenInput {
        job,
        variables,
        functions,
        gets,
        selectors,
    })
}

/// The input that an expression is, before its job and its values are read. Its only errors are `BadForm` and `Memory`.
pub(crate) fn input_written(alloc: Global, input: &SExpr) -> Result<WrittenInput<'_>, EvalError>
    ensures { IsInputReadAs plain_written result
        (demanded FormlessInput (stated.input_written (plain input.now))) }
{
    let inside = section("eval", input).ok_or(EvalError::BadForm)?;
    sections_written(alloc, inside)
}
