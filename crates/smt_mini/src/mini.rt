// The solver.
ghost use Rattle.std.specs.Prelude.{◌≡◌, Bool, IfErr, IfOk, IsOkUnless, OnErr, false, option_map};
ghost use Rattle.law_texts.specs.Reading.{Expression};
ghost use Rattle.law_scripts.specs.Script.{State};
ghost use Rattle.law_verdicts.specs.Fragment.{command_of};
ghost use Rattle.law_verdicts.specs.FirstModel.{first_model};
ghost use Rattle.law_verdicts.specs.Machine as machine;
ghost use Rattle.law_verdicts.specs.Machine.{Line, Machine, new, turn, verdict};
ghost use Rattle.smt_mini.specs.Commands.{plain_command};
ghost use Rattle.smt_sexpr.specs.View.{plain};
ghost use Rattle.smt_mini.specs.Replies.{plain_reply};
ghost use Rattle.smt_mini.specs.Levels.{StandFor};
ghost use Rattle.smt_mini.specs.Stands.{IsShown, IsSpent, Stands, behind_check, model_or_none};
ghost use Rattle.law_verdicts.specs.Streams.{marked_outside};
ghost use Rattle.smt_mini.specs.Turns.{Refuses, Replies, Turns};

use crate::command::{Command, command_of};
use crate::error::MiniError;
use crate::levels::Levels;
use crate::model::model_text;
use crate::reply::Reply;
use crate::search::{Circuit, first_model};
use crate::within::is_within;
use smt_sexpr::SExpr;
use smt_text::Text;
use std::alloc::Global;

/// No script with more constants than these is searched for a model.
const MOST_CONSTANTS: usize = 20;

/// How far a script has come.
#[derive(Debug, Clone, Copy, PartialEq, Eq)]
pub enum Phase {
    /// Each command so far lay in the fragment.
    Inside,
    /// A command was outside.
    Outside,
    /// `exit` came.
    Ended,
    /// A command got no reply.
    Spent,
}

/// A small solver for scripts of Boolean constants.
#[derive(Drop)]
pub struct Mini {
    alloc: Global,
    phase: Phase,
    levels: Levels,
    shown: Option<Vec<bool>>,
}

impl Mini {
    /// The solver before the first command. Takes no memory.
    pub fn new(alloc: Global) -> Mini
        ensures { Stands result new }
    {
        Mini {
            alloc,
            phase: Phase::Inside,
            levels: Levels::new(alloc),
            shown: None,
        }
    }

    /// The reply to the next command of the script.
    ///
    /// # Errors
    ///
    /// `Spent` exactly where an earlier command got no reply, which leaves the solver as it is. Else `NotScript` exactly where the
    /// machine takes no turn: the commands with this one are no script, or it stands behind `exit`. `Memory`, where there is none
    /// for the command. Behind each error the solver is spent.
    pub fn feed(&mut self, command: &SExpr) -> Result<Reply, MiniError>
        ensures replies { (m : Machine) → Stands self.old m →
            IfOk result (λ reply.
            (next : Machine) × (turn m (plain command.now) ≡ Some (plain_reply reply, next))
            × Stands self.new next) }
        ensures refuses { (m : Machine) → Stands self.old m →
            IfErr result (λ e. Refuses m (plain command.now) e) }
        ensures spent { IsSpent self.old → (result ≡ Err MiniError.Spent) × IsSpent self.new }
        ensures fails { OnErr result (IsSpent self.new) }
    {
        if self.phase == Phase::Spent {
            return Err(MiniError::Spent);
        }
        match self.turn(command) {
            Ok(reply) => Ok(reply),
            Err(error) => {
                self.phase = Phase::Spent;
                Err(error)
            }
        }
    }

    /// Takes note of a command outside the fragment that is not fed. Takes no memory.
    pub fn mark_outside(&mut self)
        ensures stands { (m : Machine) → Stands self.old m → Stands self.new (marked_outside m) }
        ensures spent { IsSpent self.old → IsSpent self.new }
    {
        if self.phase == Phase::Inside {
            self.phase = Phase::Outside;
        }
    }

    /// The reply to the next command, where no earlier one got none.
    fn turn(&mut self, command: &SExpr) -> Result<Reply, MiniError>
        ensures { Turns self.old self.new (plain command.now) result }
    {
        match self.phase {
            Phase::Inside => self.take(command),
            Phase::Outside => self.take_blindly(command),
            Phase::Ended | Phase::Spent => Err(MiniError::NotScript),
        }
    }

    /// The reply to the next command, where one was outside.
    fn take_blindly(&mut self, command: &SExpr) -> Result<Reply, MiniError>
        requires { self.old.phase ≡ Phase.Outside }
        ensures { Turns self.old self.new (plain command.now) result }
    {
        match command_of(command) {
            Some(command) => self.obey_blindly(&command),
            None => Ok(Reply::Nothing),
        }
    }

    /// The reply to a command behind one that was outside.
    fn obey_blindly(&mut self, command: &Command) -> Result<Reply, MiniError>
        requires { self.old.phase ≡ Phase.Outside }
        ensures { (e : Expression) → command_of e ≡ Some (plain_command command.now) →
            Turns self.old self.new e result }
    {
        match command {
            Command::CheckSat => line(self.alloc, "unknown"),
            Command::GetModel => line(self.alloc, "(error \"no model\")"),
            Command::Exit => {
                self.phase = Phase::Ended;
                Ok(Reply::Ended)
            }
            _ => Ok(Reply::Nothing),
        }
    }

    /// The reply to the next command, where none was outside.
    fn take(&mut self, command: &SExpr) -> Result<Reply, MiniError>
        requires { self.old.phase ≡ Phase.Inside }
        ensures { Turns self.old self.new (plain command.now) result }
    {
        match command_of(command) {
            Some(command) if is_within(&self.levels.tables, &command) => self.obey(&command),
            _ => {
                self.phase = Phase::Outside;
                Ok(Reply::Nothing)
            }
        }
    }

    /// The reply to a command of the fragment.
    fn obey(&mut self, command: &Command) -> Result<Reply, MiniError>
        requires { self.old.phase ≡ Phase.Inside }
        ensures { Replies self.old self.new (plain_command command.now) result }
    {
        let shown = self.shown.take();
        match command {
            Command::CheckSat => self.check(),
            Command::GetModel => self.model(shown),
            Command::Exit => {
                self.phase = Phase::Ended;
                Ok(Reply::Ended)
            }
            _ => {
                self.levels.obey(self.alloc, command)?;
                Ok(Reply::Nothing)
            }
        }
    }

    /// The answer to a check.
    fn check(&mut self) -> Result<Reply, MiniError>
        requires { (self.old.phase ≡ Phase.Inside) × (self.old.shown ≡ None) }
        ensures answered { (s : State) → StandFor self.old.levels s → s.ended ≡ false →
            IfOk result
            (λ reply. (plain_reply reply ≡ Line (verdict s)) × Stands self.new (behind_check s)) }
        ensures refusal { IsOkUnless result MiniError.Memory }
    {
        if self.levels.tables.constants.len() > MOST_CONSTANTS {
            return line(self.alloc, "unknown");
        }
        self.shown = self.search()?;
        line(self.alloc, word_for(&self.shown))
    }

    /// The truths of the constants in the first model.
    fn search(&self) -> Result<Option<Vec<bool>>, MiniError>
        ensures found { (s : State) → StandFor self.now.levels s →
            IfOk result (λ found. option_map (λ truths. truths.items) found ≡ first_model s) }
        ensures refusal { IsOkUnless result MiniError.Memory }
    {
        let circuit = Circuit {
            gates: self.levels.tables.gates.as_slice(),
            assertions: self.levels.tables.assertions.as_slice(),
            total: self.levels.tables.constants.len(),
        };
        Ok(first_model(self.alloc, &circuit)?)
    }

    /// The model of a check directly before, if it was answered `sat`.
    fn model(&self, shown: Option<Vec<bool>>) -> Result<Reply, MiniError>
        ensures answered { (s : State) (was : Bool) → StandFor self.now.levels s →
            IsShown shown was s → IfOk result (λ reply. plain_reply reply ≡ model_or_none was s) }
        ensures refusal { IsOkUnless result MiniError.Memory }
    {
        match shown {
            Some(truths) => Ok(Reply::Model(model_text(
                self.alloc,
                self.levels.tables.constants.as_slice(),
                truths.as_slice(),
            )?)),
            None => line(self.alloc, "(error \"no model\")"),
        }
    }
}

/// The word for what a search found.
fn word_for(found: &Option<Vec<bool>>) -> &'static str
    ensures { result.now ≡ machine.word_for (option_map (λ truths. truths.items) found.now) }
{
    match found {
        Some(_) => "sat",
        None => "unsat",
    }
}

/// A reply of one line.
fn line(alloc: Global, text: &str) -> Result<Reply, MiniError>
    ensures replied { IfOk result (λ reply. plain_reply reply ≡ Line text.now) }
    ensures refusal { IsOkUnless result MiniError.Memory }
{
    Ok(Reply::Line(Text::from_str(alloc, text)?))
}
