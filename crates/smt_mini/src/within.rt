// Which commands lie in the fragment.
#![tactic(auto, using(smt_sexpr::specs::View::views))]

ghost use Rattle.std.specs.Prelude.{◌≡◌, ◌&&◌};
ghost use Rattle.law_scripts.specs.Script.{State, is_attribute_value, is_simple_symbol, name};
ghost use Rattle.law_scripts.specs.Sorts.{same_sort};
ghost use Rattle.law_verdicts.specs.Fragment as fragment;
ghost use Rattle.smt_sexpr.specs.View.{plain, plain_list};
ghost use Rattle.smt_mini.specs.Commands.{plain_command};
ghost use Rattle.smt_mini.specs.Tables.{Fits, table_of};

use crate::command::Command;
use crate::formula::is_formula;
use crate::tables::Tables;
use crate::words::{is_name, is_option_name, is_simple_symbol};
use smt_sexpr::{SExpr, name_in};

/// Whether the expression is this name.
pub fn is_named(expression: &SExpr, word: &str) -> bool
    ensures { result ≡ same_sort (plain expression.now) (name word.now) }
{
    match name_in(expression) {
        Some(name) => name.as_str() == word,
        None => false,
    }
}

/// Whether every name in an expression is one that a script may have.
#[cycle(names)]
fn has_names_alone(expression: &SExpr) -> bool
    ensures { result ≡ fragment.has_names_alone (plain expression.now) }
{
    match expression {
        SExpr::Symbol(name) => is_name(name.as_str()),
        SExpr::App(inside) => have_names_alone(inside.items()),
        SExpr::BitVec(_) | SExpr::Numeral(_) | SExpr::String(_) => true,
    }
}

/// Whether so it is in each expression.
#[cycle(names)]
fn have_names_alone(items: &[SExpr]) -> bool
    ensures { result ≡ fragment.have_names_alone (plain_list items.now) }
{
    for item in items {
        if !has_names_alone(item) {
            return false;
        }
    }
    true
}

/// Whether an expression is a constant, a simple symbol, or stands in brackets.
fn is_attribute_value(value: &SExpr) -> bool
    ensures { result ≡ is_attribute_value (plain value.now) }
{
    match name_in(value) {
        Some(name) => is_simple_symbol(name.as_str().as_bytes()),
        None => true,
    }
}

/// Whether an option, without its colon, is a simple symbol, and its value one of an attribute.
pub fn is_option(option: &[u8], value: &SExpr) -> bool
    ensures { result ≡ (is_simple_symbol option.now && is_attribute_value (plain value.now)) }
{
    is_simple_symbol(option) && is_attribute_value(value)
}

/// Whether a command lies in the fragment where these tables stand.
pub fn is_within(tables: &Tables, command: &Command) -> bool
    ensures { (s : State) → Fits (table_of tables.now) s →
        result ≡ fragment.is_within s (plain_command command.now) }
{
    match command {
        Command::DeclareConst(name, sort) => is_name(name.as_str()) && is_named(sort, "Bool"),
        Command::DefineFun(name, sort, body) => is_name(name.as_str())
            && is_named(sort, "Bool")
            && is_formula(tables, body),
        Command::Assert(formula) => is_formula(tables, formula),
        Command::SetLogic(logic) => is_name(logic.as_str()),
        Command::SetOption(option, value) => is_option_name(option) && has_names_alone(value),
        Command::DeclareOption
        | Command::CheckSat
        | Command::GetModel
        | Command::Reset
        | Command::Exit
        | Command::Push
        | Command::Pop => true,
    }
}
