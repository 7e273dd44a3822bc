// What starts children.
ghost use Rattle.std.specs.Prelude.{◌≡◌, IfOk, Ok};
ghost use Rattle.smt_solve.specs.Children.{child_allows, child_faults, child_state};
ghost use Rattle.smt_solve.specs.Starters.{RunsCommand, StartsChild, child_starter_allows};
ghost use Rattle.smt_solve.specs.Starters.{child_starter_state, failed_starts};
ghost use Rattle.smt_solve.specs.Starters.{failed_starts_after, link_faults};
ghost use Rattle.smt_solve.specs.Link.{AllowsOnly, AllowsTheSame, IsUnused};
ghost use Rattle.smt_solve.specs.Starter.{Finishes, command_of};

use crate::child_link::ChildLink;
use crate::{SolverCommand, StartError, Starter};
use std::alloc::{AllocError, Global};
use std::io;
use std::io::ErrorKind;
use std::process::{Command, Processes, Stdio};

/// The command of the system that runs the program of `cmd` with its arguments.
fn system_command(alloc: Global, cmd: &SolverCommand) -> Result<Command, AllocError>
    ensures { IfOk result (λ command. RunsCommand command (command_of cmd.now)) }
{
    let mut command = Command::new(alloc, cmd.program.as_str())?;
    for arg in cmd.args.items() {
        command.arg(arg.as_str())?;
    }
    Ok(command)
}

/// Asks for a pipe at the standard input and at the standard output, and hands the caller's standard error on: a pipe there would
/// fill up, since nobody reads it, and so a solver's complaints are seen.
fn set_streams(command: &mut Command) {
    command.stdin(Stdio::piped());
    command.stdout(Stdio::piped());
    command.stderr(Stdio::inherit());
}

/// Starts children by a runtime, one for each link.
///
/// It tells neither the commands that it was asked for nor the links that came back, and counts the starts that failed and
/// the links that came back failed.
#[derive(Debug, Drop)]
pub struct ChildStarter<R> {
    rt: R,
    failed_starts: u64,
    link_faults: u64,
}

impl<R: Processes> ChildStarter<R> {
    /// A starter that was asked for nothing yet.
    ///
    /// # Examples
    ///
    /// ```
    /// use kembura::{ChildStarter, SolverCommand, Starter};
    ///
    /// let mut starter = ChildStarter::new(rt.clone()?);
    /// let command = SolverCommand::cvc5(alloc, None, &[])?;
    /// let link = starter.start(alloc, &command)?;
    /// starter.finish(link)?;
    /// ```
    pub fn new(rt: R) -> ChildStarter<R>
        ensures failed_starts { failed_starts result ≡ 0 }
        ensures link_faults { link_faults result ≡ 0 }
    {
        ChildStarter {
            rt,
            failed_starts: 0,
            link_faults: 0,
        }
    }

    /// Starts a child with pipes at its standard input and its standard output.
    fn spawn(&self, alloc: Global, cmd: &SolverCommand) -> io::Result<ChildLink<R>>
        ensures { IfOk result (λ link. child_faults link ≡ 0) }
    {
        let mut command = system_command(alloc, cmd)?;
        set_streams(&mut command);
        ChildLink::new(alloc, command.spawn(&self.rt)?)
    }
}

impl<R: Processes> Starter for ChildStarter<R> {
    type L = ChildLink<R>;

    ghost state = { child_starter_state };

    ghost allows = { child_starter_allows };

    /// Starts the program of the command as a child. A name with no slash is looked for where the variable `PATH` says. What the
    /// child writes to its standard error goes where the caller's own goes.
    ///
    /// # Errors
    ///
    /// `Fault` comes where the child did not start, or has no pipes, and is counted. `Memory` comes where there is no memory
    /// for the command or the buffers of the link. No child is left behind.
    fn start(&mut self, alloc: Global, cmd: &SolverCommand) -> Result<ChildLink<R>, StartError>
        ensures starts { StartsChild self.old self.new (command_of cmd.now) result }
        ensures unused { IfOk result (λ link. IsUnused (child_state link)) }
        ensures honest { IfOk result
            (λ link. AllowsOnly (child_allows link) (child_starter_allows self.old)) }
        ensures allows { AllowsTheSame (child_starter_allows self.old)
            (child_starter_allows self.new) }
        ensures counts { failed_starts self.new
            ≡ failed_starts_after (failed_starts self.old) result }
    {
        match self.spawn(alloc, cmd) {
            Ok(link) => Ok(link),
            Err(error) if error.kind() == ErrorKind::OutOfMemory => Err(StartError::Memory),
            Err(_) => {
                self.failed_starts = self.failed_starts.saturating_add(1);
                Err(StartError::Fault)
            }
        }
    }

    /// Ends the child of the link, and counts whether the link had failed. It always answers Ok.
    fn finish(&mut self, link: ChildLink<R>) -> Result<(), StartError>
        ensures finishes { Finishes (child_starter_state self.old) (child_starter_state self.new)
            link (child_faults link) result }
        ensures allows { AllowsTheSame (child_starter_allows self.old)
            (child_starter_allows self.new) }
        ensures done { result ≡ Ok tt }
    {
        if link.has_failed() {
            self.link_faults = self.link_faults.saturating_add(1);
        }
        // A link that is dropped kills its child, and waits for it.
        drop(link);
        Ok(())
    }
}
