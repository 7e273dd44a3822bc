// What a script declares and asserts, level by level.
ghost use Rattle.std.specs.Prelude.{◌≡◌, ◌||◌, codes, if◌then◌else◌, true};
ghost use Rattle.std.specs.Rc.{rc_str_bytes};
ghost use Rattle.law_scripts.specs.Script as script;
ghost use Rattle.law_scripts.specs.Script.{State, start};
ghost use Rattle.law_scripts.specs.Sorts.{bool_sort};
ghost use Rattle.law_scripts.specs.Written.{option_command};
ghost use Rattle.smt_sexpr.specs.View.{plain};
ghost use Rattle.smt_mini.specs.Commands.{plain_command};
ghost use Rattle.smt_mini.specs.Levels.{Obeys, StandFor, is_silent};
ghost use Rattle.smt_mini.specs.Tables.{Fits, table_of};

use crate::command::Command;
use crate::error::MiniError;
use crate::formula::build;
use crate::names::find;
use crate::tables::{Mark, Tables};
use crate::within::is_option;
use crate::words::{is_built_in, is_reserved, is_simple_symbol};
use smt_sexpr::SExpr;
use smt_text::Text;
use std::alloc::Global;

/// What is declared and asserted, with a mark for each level below the last.
#[derive(Drop)]
pub struct Levels {
    /// What is declared and asserted at all levels.
    pub tables: Tables,
    /// The marks, in the order of the levels.
    pub marks: Vec<Mark>,
}

/// Whether a name is built in or declared.
fn has_name(tables: &Tables, name: &str) -> bool
    ensures { (s : State) → Fits (table_of tables.now) s → result ≡ script.has_name s name.now }
{
    is_built_in(name) || find(tables.names.as_slice(), name).is_some()
}

/// Whether a name can't be declared.
fn is_taken(tables: &Tables, name: &str) -> bool
    ensures { (s : State) → Fits (table_of tables.now) s → result ≡ script.is_taken s name.now }
{
    has_name(tables, name) || is_reserved(name)
}

/// Whether a name of the datatype Option can't be declared.
fn are_taken(tables: &Tables) -> bool
    ensures { (s : State) → Fits (table_of tables.now) s →
        result
        ≡ (script.is_taken s (codes "none")
        || (script.is_taken s (codes "some") || script.is_taken s (codes "val"))) }
{
    is_taken(tables, "none") || is_taken(tables, "some") || is_taken(tables, "val")
}

impl Levels {
    /// Nothing is declared or asserted. Takes no memory.
    pub fn new(alloc: Global) -> Levels
        ensures { StandFor result start }
    {
        Levels {
            tables: Tables::new(alloc),
            marks: Vec::new(alloc),
        }
    }

    /// Declares the datatype Option.
    pub fn declare_options(&mut self, alloc: Global) -> Result<(), MiniError>
        ensures { Obeys self.old self.new option_command result }
    {
        if self.tables.options || are_taken(&self.tables) {
            return Err(MiniError::NotScript);
        }
        self.tables.add_options(alloc)?;
        Ok(())
    }

    /// Declares a constant of sort Bool.
    pub fn declare(&mut self, name: &Text) -> Result<(), MiniError>
        ensures { Obeys self.old self.new (script.DeclareConst (rc_str_bytes name.now) bool_sort)
            result }
    {
        if is_taken(&self.tables, name.as_str()) {
            return Err(MiniError::NotScript);
        }
        self.tables.add_constant(name)?;
        Ok(())
    }

    /// Defines a name of sort Bool as a formula.
    pub fn define(&mut self, alloc: Global, name: &Text, body: &SExpr) -> Result<(), MiniError>
        ensures { Obeys self.old self.new
            (script.DefineFun (rc_str_bytes name.now) bool_sort (plain body.now)) result }
    {
        if is_taken(&self.tables, name.as_str()) {
            return Err(MiniError::NotScript);
        }
        let Some(gate) = build(alloc, &mut self.tables, body)? else {
            return Err(MiniError::NotScript);
        };
        self.tables.add_name(name, Some(gate))?;
        Ok(())
    }

    /// Asserts a formula.
    pub fn assert(&mut self, alloc: Global, formula: &SExpr) -> Result<(), MiniError>
        ensures { Obeys self.old self.new (script.Assert (plain formula.now)) result }
    {
        let Some(gate) = build(alloc, &mut self.tables, formula)? else {
            return Err(MiniError::NotScript);
        };
        self.tables.add_assertion(gate)?;
        Ok(())
    }

    /// Opens a level.
    pub fn push(&mut self) -> Result<(), MiniError>
        ensures { Obeys self.old self.new script.Push result }
    {
        let mark = self.tables.mark();
        self.marks.push(mark)?;
        Ok(())
    }

    /// Closes the last level.
    pub fn pop(&mut self) -> Result<(), MiniError>
        ensures { Obeys self.old self.new script.Pop result }
    {
        match self.marks.pop() {
            Some(mark) => {
                self.tables.cut(&mark);
                Ok(())
            }
            None => Err(MiniError::NotScript),
        }
    }

    /// Obeys a command to which nothing is replied. Nothing is done for any other.
    pub fn obey(&mut self, alloc: Global, command: &Command) -> Result<(), MiniError>
        ensures { is_silent (plain_command command.now) ≡ true →
            Obeys self.old self.new (plain_command command.now) result }
    {
        match command {
            Command::DeclareOption => self.declare_options(alloc),
            Command::DeclareConst(name, _) => self.declare(name),
            Command::DefineFun(name, _, body) => self.define(alloc, name, body),
            Command::Assert(formula) => self.assert(alloc, formula),
            Command::SetLogic(logic) => legal(is_simple_symbol(logic.as_str().as_bytes())),
            Command::SetOption(option, value) => legal(is_option(option, value)),
            Command::Push => self.push(),
            Command::Pop => self.pop(),
            Command::Reset => {
                *self = Levels::new(alloc);
                Ok(())
            }
            Command::CheckSat | Command::GetModel | Command::Exit => Ok(()),
        }
    }
}

/// Refuses what is not legal.
fn legal(is_legal: bool) -> Result<(), MiniError>
    ensures { result ≡ (if is_legal then Ok tt else Err MiniError.NotScript) }
{
    if is_legal {
        Ok(())
    } else {
        Err(MiniError::NotScript)
    }
}
