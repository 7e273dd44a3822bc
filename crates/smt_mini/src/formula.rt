// Formulas, and their gates.
#![tactic(auto, using(smt_sexpr::specs::View::views))]

ghost use Rattle.std.specs.Prelude.{◌≡◌, IfOk, map, true};
ghost use Rattle.law_texts.specs.Lexicon.{Name};
ghost use Rattle.law_scripts.specs.Script.{State};
ghost use Rattle.law_verdicts.specs.Fragment as fragment;
ghost use Rattle.law_verdicts.specs.Fragment.{is_truth_name};
ghost use Rattle.law_texts.specs.Reading.{Leaf};
ghost use Rattle.std.specs.Rc.{rc_str_bytes};
ghost use Rattle.smt_sexpr.specs.View.{plain, plain_list};
ghost use Rattle.smt_mini.specs.Building.{Built, BuiltAll, applied};
ghost use Rattle.smt_mini.specs.Tables.{Fits, table_of};

use crate::gate::{Gate, gate_of};
use crate::names::find;
use crate::tables::Tables;
use crate::words::{is_built_in, is_name};
use smt_sexpr::{SExpr, name_in};
use smt_text::Text;
use std::alloc::{AllocError, Global};

/// Whether a connective takes so many arguments.
fn is_connective(connective: &str, count: usize) -> bool
    ensures { result ≡ fragment.is_connective connective.now count }
{
    match connective {
        "not" => count == 1,
        "and" => count == 2,
        "or" => count == 2,
        "=" => count == 2,
        "ite" => count == 3,
        _ => false,
    }
}

/// Whether a name is of sort Bool, or nothing has it.
fn is_truth_name(tables: &Tables, name: &str) -> bool
    ensures { (s : State) → Fits (table_of tables.now) s → result ≡ is_truth_name s name.now }
{
    if !is_name(name) {
        return false;
    }
    if name == "true" || name == "false" {
        return true;
    }
    match find(tables.names.as_slice(), name) {
        Some(gate) => gate.is_some(),
        None => !is_built_in(name),
    }
}

/// Whether an expression is a formula over names of sort Bool.
#[cycle(formula)]
pub fn is_formula(tables: &Tables, expression: &SExpr) -> bool
    ensures { (s : State) → Fits (table_of tables.now) s →
        result ≡ fragment.is_formula (is_truth_name s) (plain expression.now) }
{
    let items = match expression {
        SExpr::Symbol(name) => return is_truth_name(tables, name.as_str()),
        SExpr::App(inside) => inside.items(),
        SExpr::BitVec(_) | SExpr::Numeral(_) | SExpr::String(_) => return false,
    };
    let [head, operands @ ..] = items else {
        return false;
    };
    match name_in(head) {
        Some(connective) => is_connective(connective.as_str(), operands.len())
            && are_formulas(tables, operands),
        None => false,
    }
}

/// Whether each expression is a formula.
#[cycle(formula)]
fn are_formulas(tables: &Tables, operands: &[SExpr]) -> bool
    ensures { (s : State) → Fits (table_of tables.now) s →
        result ≡ fragment.are_formulas (is_truth_name s) (plain_list operands.now) }
{
    for operand in operands {
        if !is_formula(tables, operand) {
            return false;
        }
    }
    true
}

/// The gate of a name of sort Bool, or nothing where nothing has the name.
fn name_gate(tables: &mut Tables, name: &str) -> Result<Option<usize>, AllocError>
    ensures { (s : State) → Fits (table_of tables.old) s → is_truth_name s name.now ≡ true →
        IfOk result (Built (table_of tables.old) (table_of tables.new) s (Leaf (Name name.now))) }
{
    match name {
        "true" => Ok(Some(tables.add_gate(Gate::Truth(true))?)),
        "false" => Ok(Some(tables.add_gate(Gate::Truth(false))?)),
        _ => Ok(find(tables.names.as_slice(), name).flatten()),
    }
}

/// The gate of a formula, or nothing where a name in it is not there.
#[cycle(build)]
pub fn build(
    alloc: Global,
    tables: &mut Tables,
    expression: &SExpr,
) -> Result<Option<usize>, AllocError>
    ensures { (s : State) → Fits (table_of tables.old) s →
        fragment.is_formula (is_truth_name s) (plain expression.now) ≡ true →
        IfOk result (Built (table_of tables.old) (table_of tables.new) s (plain expression.now)) }
{
    let items = match expression {
        SExpr::Symbol(name) => return name_gate(tables, name.as_str()),
        SExpr::App(inside) => inside.items(),
        SExpr::BitVec(_) | SExpr::Numeral(_) | SExpr::String(_) => return Ok(None),
    };
    let [head, operands @ ..] = items else {
        return Ok(None);
    };
    match name_in(head) {
        Some(connective) => build_connected(alloc, tables, connective, operands),
        None => Ok(None),
    }
}

/// The gate of a connective with its arguments.
#[cycle(build)]
fn build_connected(
    alloc: Global,
    tables: &mut Tables,
    connective: &Text,
    operands: &[SExpr],
) -> Result<Option<usize>, AllocError>
    ensures { (s : State) → Fits (table_of tables.old) s →
        fragment.is_formula (is_truth_name s) (applied (rc_str_bytes connective.now) operands.now) ≡
        true →
        IfOk result (Built (table_of tables.old) (table_of tables.new) s
        (applied (rc_str_bytes connective.now) operands.now)) }
{
    let Some(parts) = build_all(alloc, tables, operands)? else {
        return Ok(None);
    };
    let gate = gate_of(connective.as_str(), parts.as_slice());
    Ok(Some(tables.add_gate(gate)?))
}

/// The gates of formulas, or nothing where a name in them is not there.
#[cycle(build)]
fn build_all(
    alloc: Global,
    tables: &mut Tables,
    operands: &[SExpr],
) -> Result<Option<Vec<usize>>, AllocError>
    ensures { (s : State) → Fits (table_of tables.old) s →
        fragment.are_formulas (is_truth_name s) (plain_list operands.now) ≡ true →
        IfOk result
        (BuiltAll (table_of tables.old) (table_of tables.new) s (map plain operands.now)) }
{
    let mut parts = Vec::new(alloc);
    for operand in operands {
        let Some(part) = build(alloc, tables, operand)? else {
            return Ok(None);
        };
        parts.push(part)?;
    }
    Ok(Some(parts))
}
