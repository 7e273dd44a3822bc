// Commands as values.
ghost use Rattle.std.specs.Prelude.{◌≡◌, option_map};
ghost use Rattle.std.specs.Rc.{rc_str_bytes};
ghost use Rattle.law_scripts.specs.Script as script;
ghost use Rattle.law_scripts.specs.Script.{Command as Stated};
ghost use Rattle.law_verdicts.specs.Fragment as stated;
ghost use Rattle.smt_sexpr.specs.View.{plain, plain_list};
ghost use Rattle.smt_mini.specs.Commands.{plain_command, signature_of};

use crate::option::are_options;
use smt_sexpr::{SExpr, both, first_apart, inside_of, name_in, number_in, sole};
use smt_text::Text;

/// A command (SMT-LIB 2.7, chapter 4, "Commands"), of those of which some lie in the fragment.
#[derive(Drop)]
pub enum Command<'e> {
    /// The first lines of a script, which declare the datatype Option.
    DeclareOption,
    /// A constant and its sort.
    DeclareConst(&'e Text, &'e SExpr),
    /// A name, its sort and its body.
    DefineFun(&'e Text, &'e SExpr, &'e SExpr),
    /// An assertion.
    Assert(&'e SExpr),
    /// A logic.
    SetLogic(&'e Text),
    /// An option without its colon, and its value.
    SetOption(&'e [u8], &'e SExpr),
    /// `(check-sat)`
    CheckSat,
    /// `(get-model)`
    GetModel,
    /// `(reset)`
    Reset,
    /// `(exit)`
    Exit,
    /// `(push 1)`
    Push,
    /// `(pop 1)`
    Pop,
}

fn check_sat(operands: &[SExpr]) -> Option<Command<'_>>
    ensures { option_map plain_command result
        ≡ stated.alone script.CheckSat (plain_list operands.now) }
{
    match first_apart(operands) {
        None => Some(Command::CheckSat),
        Some(_) => None,
    }
}

fn get_model(operands: &[SExpr]) -> Option<Command<'_>>
    ensures { option_map plain_command result
        ≡ stated.alone script.GetModel (plain_list operands.now) }
{
    match first_apart(operands) {
        None => Some(Command::GetModel),
        Some(_) => None,
    }
}

fn reset(operands: &[SExpr]) -> Option<Command<'_>>
    ensures { option_map plain_command result
        ≡ stated.alone script.Reset (plain_list operands.now) }
{
    match first_apart(operands) {
        None => Some(Command::Reset),
        Some(_) => None,
    }
}

fn exit(operands: &[SExpr]) -> Option<Command<'_>>
    ensures { option_map plain_command result ≡ stated.alone script.Exit (plain_list operands.now) }
{
    match first_apart(operands) {
        None => Some(Command::Exit),
        Some(_) => None,
    }
}

/// Whether the operands are the number 1 alone.
fn is_one(operands: &[SExpr]) -> Option<()>
    ensures { (c : Stated) →
        option_map (λ x. c) result ≡ stated.by_one c (plain_list operands.now) }
{
    if number_in(sole(operands)?)? == 1 {
        Some(())
    } else {
        None
    }
}

fn push(operands: &[SExpr]) -> Option<Command<'_>>
    ensures { option_map plain_command result
        ≡ stated.by_one script.Push (plain_list operands.now) }
{
    is_one(operands)?;
    Some(Command::Push)
}

fn pop(operands: &[SExpr]) -> Option<Command<'_>>
    ensures { option_map plain_command result ≡ stated.by_one script.Pop (plain_list operands.now) }
{
    is_one(operands)?;
    Some(Command::Pop)
}

fn assertion(operands: &[SExpr]) -> Option<Command<'_>>
    ensures { option_map plain_command result ≡ stated.assertion (plain_list operands.now) }
{
    Some(Command::Assert(sole(operands)?))
}

fn declaration(operands: &[SExpr]) -> Option<Command<'_>>
    ensures { option_map plain_command result ≡ stated.declaration (plain_list operands.now) }
{
    let (name, sort) = both(operands)?;
    Some(Command::DeclareConst(name_in(name)?, sort))
}

/// The name and what stands behind the empty brackets of a definition.
fn signature(operands: &[SExpr]) -> Option<(&Text, &[SExpr])>
    ensures { option_map (λ p. (rc_str_bytes p.0.now, plain_list p.1.now)) result
        ≡ signature_of (plain_list operands.now) }
{
    let (name, rest) = first_apart(operands)?;
    let name = name_in(name)?;
    let (parameters, rest) = first_apart(rest)?;
    match first_apart(inside_of(parameters)?) {
        None => Some((name, rest)),
        Some(_) => None,
    }
}

fn definition(operands: &[SExpr]) -> Option<Command<'_>>
    ensures { option_map plain_command result ≡ stated.definition (plain_list operands.now) }
{
    let (name, rest) = signature(operands)?;
    let (sort, body) = both(rest)?;
    Some(Command::DefineFun(name, sort, body))
}

fn logic(operands: &[SExpr]) -> Option<Command<'_>>
    ensures { option_map plain_command result ≡ stated.logic (plain_list operands.now) }
{
    Some(Command::SetLogic(name_in(sole(operands)?)?))
}

/// The option of a name that begins with a colon.
fn option_named<'e>(option: &'e Text, value: &'e SExpr) -> Option<Command<'e>>
    ensures { option_map plain_command result
        ≡ stated.option_named (rc_str_bytes option.now) (plain value.now) }
{
    match option.as_str().as_bytes().split_first() {
        Some((b':', name)) => Some(Command::SetOption(name, value)),
        _ => None,
    }
}

fn option(operands: &[SExpr]) -> Option<Command<'_>>
    ensures { option_map plain_command result ≡ stated.option (plain_list operands.now) }
{
    let (option, value) = both(operands)?;
    option_named(name_in(option)?, value)
}

fn options(operands: &[SExpr]) -> Option<Command<'_>>
    ensures { option_map plain_command result ≡ stated.options (plain_list operands.now) }
{
    if are_options(operands) {
        Some(Command::DeclareOption)
    } else {
        None
    }
}

/// The command of a keyword with these operands.
fn command_with<'e>(keyword: &str, operands: &'e [SExpr]) -> Option<Command<'e>>
    ensures { option_map plain_command result
        ≡ stated.command_with keyword.now (plain_list operands.now) }
{
    match keyword {
        "assert" => assertion(operands),
        "define-fun" => definition(operands),
        "declare-const" => declaration(operands),
        "declare-datatype" => options(operands),
        "set-logic" => logic(operands),
        "set-option" => option(operands),
        "check-sat" => check_sat(operands),
        "get-model" => get_model(operands),
        "reset" => reset(operands),
        "exit" => exit(operands),
        "push" => push(operands),
        "pop" => pop(operands),
        _ => None,
    }
}

/// The command that an expression states, among those of which some lie in the fragment.
pub fn command_of(expression: &SExpr) -> Option<Command<'_>>
    ensures { option_map plain_command result ≡ stated.command_of (plain expression.now) }
{
    let (head, operands) = first_apart(inside_of(expression)?)?;
    command_with(name_in(head)?.as_str(), operands)
}
