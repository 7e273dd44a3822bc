// What gives links to small solvers.
ghost use Rattle.std.specs.Prelude.{◌≡◌, [], map, IfOk, IsOkUnless};
ghost use Rattle.smt_solve.specs.Link.{AllowsOnly, AllowsTheSame, IsUnused};
ghost use Rattle.smt_solve.specs.Starter.{Finishes, Starts, command_of};
ghost use Rattle.smt_stream.specs.Links.{mini_allows, mini_state};
ghost use Rattle.smt_stream.specs.Starters.{links_back, mini_commands, mini_starter_allows};
ghost use Rattle.smt_stream.specs.Starters.{mini_starter_state};

use crate::link::MiniLink;
use smt_solve::{SolverCommand, StartError, Starter};
use std::alloc::Global;

/// Starts small solvers in memory, whatever the command says, and keeps the links that come back.
///
/// It is honest, which is proved: its links say `unsat` only of scripts without a model.
pub struct MiniStarter {
    commands: Vec<SolverCommand>,
    returned: Vec<MiniLink>,
    link_faults: u64,
}

// By hand, so that what lets a starter go calls this, and has no account of its parts.
impl Drop for MiniStarter {
    fn drop(self) {
        let MiniStarter {
            commands: _,
            returned: _,
            link_faults: _,
        } = self;
    }
}

impl MiniStarter {
    /// A starter that was asked for nothing. Takes no memory.
    pub fn new(alloc: Global) -> MiniStarter
        ensures { mini_starter_state result
            ≡ record
            { commands = Some []; returned = Some []; failed_starts = 0; link_faults = 0 } }
    {
        MiniStarter {
            commands: Vec::new(alloc),
            returned: Vec::new(alloc),
            link_faults: 0,
        }
    }

    /// The commands that it was asked for, in their order.
    pub fn commands(&self) -> &[SolverCommand]
        ensures { map command_of result.now ≡ mini_commands self.now }
    {
        self.commands.as_slice()
    }

    /// The links that came back, in their order.
    pub fn returned(&self) -> &[MiniLink]
        ensures { result.now ≡ links_back self.now }
    {
        self.returned.as_slice()
    }
}

impl Starter for MiniStarter {
    type L = MiniLink;

    ghost state = { mini_starter_state };

    ghost allows = { mini_starter_allows };

    /// Gives a link to a new small solver. Its only error is `Memory`.
    fn start(&mut self, alloc: Global, cmd: &SolverCommand) -> Result<MiniLink, StartError>
        ensures starts { Starts (mini_starter_state self.old) (mini_starter_state self.new)
            (command_of cmd.now) result }
        ensures unused { IfOk result (λ link. IsUnused (mini_state link)) }
        ensures honest { IfOk result
            (λ link. AllowsOnly (mini_allows link) (mini_starter_allows self.old)) }
        ensures allows { AllowsTheSame (mini_starter_allows self.old)
            (mini_starter_allows self.new) }
        ensures refusal { IsOkUnless result StartError.Memory }
    {
        let Ok(cmd) = SolverCommand::new(alloc, cmd.program.as_str(), cmd.args.items()) else {
            return Err(StartError::Memory);
        };
        match self.commands.push(cmd) {
            Ok(()) => Ok(MiniLink::new(alloc)),
            Err(_) => Err(StartError::Memory),
        }
    }

    /// Keeps the link.
    fn finish(&mut self, link: MiniLink) -> Result<(), StartError>
        ensures finishes { Finishes (mini_starter_state self.old) (mini_starter_state self.new) link
            (mini_state link).faults result }
        ensures allows { AllowsTheSame (mini_starter_allows self.old)
            (mini_starter_allows self.new) }
    {
        if link.has_failed() {
            self.link_faults = self.link_faults.saturating_add(1);
        }
        match self.returned.push(link) {
            Ok(()) => Ok(()),
            Err(_) => Err(StartError::Memory),
        }
    }
}
