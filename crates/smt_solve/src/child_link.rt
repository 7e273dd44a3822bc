// A link to a child process.
ghost use Rattle.std.specs.Prelude.{◌≡◌, ◌↔◌, ◌<◌, ◌≤◌, [], true, is_some, IsTrue, IsOk, IfOk};
ghost use Rattle.std.specs.Prelude.{OnOk};
ghost use Rattle.std.specs.Process.{child_status};
ghost use Rattle.std.specs.Io.KnownBytes.{Appends, Keeps};
ghost use Rattle.smt_solve.specs.Children.{HasEnded, child_commands, child_faults, faults_with};
ghost use Rattle.smt_solve.specs.Children.{held_commands};

use crate::child_line::append_line;
use crate::{Ended, LineEnd, Link, LinkError};
use smt_script::Bytes;
use std::alloc::Global;
use std::fmt::{Debug, Formatter};
use std::io::{BufReader, BufWriter, ErrorKind, Write};
use std::process::{Child, OpenProcess, Processes};
use std::{fmt, io};

/// How many bytes of a stream are held at most, to be written or read at once.
const PIECE: usize = 65536;

/// Kills a child and waits for it. It only waits for one that has ended.
fn end_child<P: OpenProcess>(child: &mut Child<P>) -> io::Result<()>
    ensures ended { OnOk result (is_some (child_status child.new) ≡ true) }
    ensures again { is_some (child_status child.old) ≡ true → IsOk result }
{
    // A child that cannot be killed is not waited for, since it may never end.
    child.kill()?;
    child.wait()?;
    Ok(())
}

/// What takes the commands of a child and what gives its answers.
struct Streams<P: OpenProcess> {
    commands: BufWriter<P::Stdin>,
    answers: BufReader<P::Stdout>,
}

/// Takes the standard input and the standard output of a child.
fn take_streams<P: OpenProcess>(alloc: Global, child: &mut Child<P>) -> io::Result<Streams<P>> {
    let (Some(stdin), Some(stdout)) = (child.stdin.take(), child.stdout.take()) else {
        return Err(io::Error::from(ErrorKind::BrokenPipe));
    };
    let commands = BufWriter::with_capacity(alloc, PIECE, stdin)?;
    let answers = BufReader::with_capacity(alloc, PIECE, stdout)?;
    Ok(Streams { commands, answers })
}

/// A link to a child process, over its standard input and its standard output.
///
/// It tells nothing of what was sent and read, and counts its faults. A [`ChildStarter`](crate::ChildStarter) gives it, and
/// takes it back. One that is dropped kills its child, and waits until that has ended.
///
/// What is sent is held, up to 65536 bytes, and reaches the child by `flush`, or where the buffer is full. What is held when
/// the child is killed is let go.
///
/// Nothing limits how long a call waits. A child that never answers makes the call that reads its answer wait forever. So does a
/// child that writes answers while it is sent more than it takes: nobody reads them yet, its pipe fills up, which holds 65536
/// bytes on Linux, and both wait. A command that begins with `timeout SECONDS` ends such a child, and the call then fails.
pub struct ChildLink<R: Processes> {
    child: Child<R::Started>,
    // None once the child was killed.
    commands: Option<BufWriter<<R::Started as OpenProcess>::Stdin>>,
    answers: BufReader<<R::Started as OpenProcess>::Stdout>,
    faults: u64,
}

impl<R: Processes> ChildLink<R> {
    /// A link to a child whose standard input and standard output are pipes. Where there is no memory for it, the child is ended.
    pub(crate) fn new(alloc: Global, mut child: Child<R::Started>) -> io::Result<ChildLink<R>>
        ensures fresh { IfOk result (λ link. child_faults link ≡ 0) }
    {
        match take_streams(alloc, &mut child) {
            Ok(Streams { commands, answers }) => Ok(ChildLink {
                child,
                commands: Some(commands),
                answers,
                faults: 0,
            }),
            Err(error) => {
                // The start has failed already, whatever comes of this.
                let _ = end_child(&mut child);
                Err(error)
            }
        }
    }

    /// Whether a call has failed.
    pub(crate) fn has_failed(&self) -> bool
        ensures { IsTrue result ↔ 0 < child_faults self.now }
    {
        self.faults > 0
    }

    /// What an error of a stream or of the child is to the link, which counts it unless it is want of memory.
    fn count(&mut self, error: &io::Error) -> LinkError
        ensures exact { child_faults self.new ≡ faults_with (child_faults self.old) result }
        ensures later { child_faults self.old ≤ child_faults self.new }
        ensures rest { self.new ≡ record self.old { faults = child_faults self.new } }
    {
        if error.kind() == ErrorKind::OutOfMemory {
            return LinkError::Memory;
        }
        self.faults = self.faults.saturating_add(1);
        LinkError::Fault
    }

    /// Puts bytes to the buffer of the commands, which is handed on where it is full.
    fn write(&mut self, bytes: &[u8]) -> io::Result<()>
        ensures faults { child_faults self.new ≡ child_faults self.old }
        ensures writes { OnOk result
            (Appends (child_commands R.Started.Stdin.contents self.old)
            (child_commands R.Started.Stdin.contents self.new) bytes.now) }
    {
        match &mut self.commands {
            Some(commands) => commands.write_all(bytes),
            None => Err(io::Error::from(ErrorKind::BrokenPipe)),
        }
    }

    /// Hands on what the buffer of the commands holds.
    fn hand_on(&mut self) -> io::Result<()>
        ensures faults { child_faults self.new ≡ child_faults self.old }
        ensures keeps { Keeps (child_commands R.Started.Stdin.contents self.old)
            (child_commands R.Started.Stdin.contents self.new) }
        ensures empty { OnOk result (held_commands self.new ≡ []) }
    {
        match &mut self.commands {
            Some(commands) => commands.flush(),
            None => Err(io::Error::from(ErrorKind::BrokenPipe)),
        }
    }

    /// Ends the child, and lets go of what is held for it.
    fn end(&mut self) -> io::Result<()>
        ensures faults { child_faults self.new ≡ child_faults self.old }
        ensures ended { OnOk result (HasEnded self.new) }
        ensures again { HasEnded self.old → IsOk result }
    {
        // A buffer that is dropped hands on what it holds, and waits where some other process has the end of a full pipe.
        if let Some(commands) = self.commands.take() {
            let _ = commands.into_parts();
        }
        end_child(&mut self.child)
    }
}

impl<R: Processes> Link for ChildLink<R> {
    ghost use Rattle.smt_script.specs.Bytes.{bytes_in};
    ghost use Rattle.smt_solve.specs.Link.{AllowsTheSame, AsksEnd, HandsOn, Kills, ReadsLine};
    ghost use Rattle.smt_solve.specs.Link.{Sends};
    ghost use Rattle.smt_solve.specs.Children.{TellsEnd, child_allows, child_answers, child_state};
    ghost use Rattle.smt_solve.specs.Children.{faults_after};
    ghost use Rattle.smt_solve.specs.Line.{AppendsLine};

    ghost state = { child_state };

    ghost allows = { child_allows };

    /// Holds the bytes, and hands them on where the buffer is full.
    fn send(&mut self, bytes: &[u8]) -> Result<(), LinkError>
        ensures sends { Sends (child_state self.old) (child_state self.new) bytes.now result }
        ensures allows { AllowsTheSame (child_allows self.old) (child_allows self.new) }
        ensures exact { child_faults self.new ≡ faults_after (child_faults self.old) result }

        // where the child's input tells what it was given
        ensures writes { OnOk result
            (Appends (child_commands R.Started.Stdin.contents self.old)
            (child_commands R.Started.Stdin.contents self.new) bytes.now) }
    {
        match self.write(bytes) {
            Ok(()) => Ok(()),
            Err(error) => Err(self.count(&error)),
        }
    }

    /// Writes what is held to the standard input of the child.
    fn flush(&mut self) -> Result<(), LinkError>
        ensures hands_on { HandsOn (child_state self.old) (child_state self.new) result }
        ensures allows { AllowsTheSame (child_allows self.old) (child_allows self.new) }
        ensures exact { child_faults self.new ≡ faults_after (child_faults self.old) result }
        ensures empty { OnOk result (held_commands self.new ≡ []) }

        // where the child's input tells what it was given
        ensures keeps { Keeps (child_commands R.Started.Stdin.contents self.old)
            (child_commands R.Started.Stdin.contents self.new) }
    {
        match self.hand_on() {
            Ok(()) => Ok(()),
            Err(error) => Err(self.count(&error)),
        }
    }

    /// Waits until the child has given a line, `limit` bytes, or all that it gives.
    fn read_line(&mut self, line: &mut Bytes, limit: usize) -> Result<LineEnd, LinkError>
        ensures reads { ReadsLine (child_allows self.old) (child_state self.old)
            (child_state self.new) (bytes_in line.old) (bytes_in line.new) limit result }
        ensures allows { AllowsTheSame (child_allows self.old) (child_allows self.new) }
        ensures exact { child_faults self.new ≡ faults_after (child_faults self.old) result }

        // where the child's output tells what is to come
        ensures takes { AppendsLine (child_answers R.Started.Stdout.remaining self.old)
            (child_answers R.Started.Stdout.remaining self.new) (bytes_in line.old)
            (bytes_in line.new) limit result }
    {
        match append_line(&mut self.answers, line, limit) {
            Ok(end) => Ok(end),
            Err(error) => Err(self.count(&error)),
        }
    }

    /// Asks the system whether the child has ended, and waits for nothing.
    fn ended(&mut self) -> Result<Ended, LinkError>
        ensures asks { AsksEnd (child_state self.old) (child_state self.new) result }
        ensures allows { AllowsTheSame (child_allows self.old) (child_allows self.new) }
        ensures exact { child_faults self.new ≡ faults_after (child_faults self.old) result }
        ensures tells { TellsEnd self.old self.new result }
    {
        match self.child.try_wait() {
            Ok(None) => Ok(Ended::Running),
            Ok(Some(status)) => match status.code() {
                Some(code) => Ok(Ended::Code(code)),
                None => Ok(Ended::Killed),
            },
            Err(error) => Err(self.count(&error)),
        }
    }

    /// Kills the child and waits for it. A child that has ended is no error.
    fn kill(&mut self) -> Result<(), LinkError>
        ensures kills { Kills (child_state self.old) (child_state self.new) result }
        ensures allows { AllowsTheSame (child_allows self.old) (child_allows self.new) }
        ensures exact { child_faults self.new ≡ faults_after (child_faults self.old) result }
        ensures ended { OnOk result (HasEnded self.new) }
        ensures again { HasEnded self.old → IsOk result }
    {
        match self.end() {
            Ok(()) => Ok(()),
            Err(error) => Err(self.count(&error)),
        }
    }
}

impl<R: Processes> Debug for ChildLink<R> {
    fn fmt<W: fmt::Write>(&self, f: &mut Formatter<W>) -> fmt::Result {
        f.debug_struct("ChildLink")
            .field("faults", &self.faults)
            .finish_non_exhaustive()
    }
}

impl<R: Processes> Drop for ChildLink<R> {
    fn drop(mut self) {
        // Nobody is left to be told of an error.
        let _ = self.end();
        let ChildLink {
            child: _child,
            commands: _commands,
            answers: _answers,
            faults: _,
        } = self;
    }
}
