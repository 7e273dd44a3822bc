// Links to a small solver in memory.
ghost use Rattle.std.specs.Prelude.{◌≡◌, ◌≤◌, ◌++◌, IsTrue, false, length};
ghost use Rattle.smt_stream.specs.Led.{IsLed};

use crate::putting::take_piece;
use crate::stream::{Stage, Stream};
use smt_script::{Bytes, ListSink};
use smt_solve::{Ended, LineEnd, Link, LinkError, next_line};
use std::alloc::Global;

/// A link to a small solver in memory. It answers what [`mini_run`](crate::mini_run) would put for the bytes that are sent.
///
/// It takes nothing from outside, and starts no process. Once `exit` came, or an error was put, the solver has ended; a send behind
/// that is the only fault. A send for which there is no memory leaves the link as it was, and each later send answers the same.
pub struct MiniLink {
    alloc: Global,
    stream: Stream,
    sent: Vec<u8>,
    answers: Vec<u8>,
    at: usize,
    broken: bool,
    killed: bool,
    faults: u64,
    ghost within: { at ≤ length answers.items },
    ghost led: { ∥ IsLed stream broken sent.items answers.items ∥₁ },
}

// By hand, so that what lets a link go calls this, and has no account of its parts.
impl Drop for MiniLink {
    fn drop(self) {
        let MiniLink {
            alloc: _,
            stream: _,
            sent: _,
            answers: _,
            at: _,
            broken: _,
            killed: _,
            faults: _,
        } = self;
    }
}

/// Appends bytes to each of two lists, or nothing to either where there is no memory. Answers whether it did.
fn append_both(first: &mut Vec<u8>, more: &[u8], second: &mut Vec<u8>, others: &[u8]) -> bool
    ensures done { IsTrue result →
        (first.new.items ≡ first.old.items ++ more.now)
        × (second.new.items ≡ second.old.items ++ others.now) }
    ensures undone { result ≡ false →
        (first.new.items ≡ first.old.items) × (second.new.items ≡ second.old.items) }
{
    let count = first.len();
    if first.extend_from_slice(more).is_err() {
        return false;
    }
    if second.extend_from_slice(others).is_err() {
        first.truncate(count);
        return false;
    }
    true
}

impl MiniLink {
    ghost use Rattle.std.specs.Prelude.{◌≡◌, [], drop, OnOk, OnErr, IsErrOf, IfOk, IsOkUnless, ◌<◌};
    ghost use Rattle.std.specs.Prelude.{◌↔◌, Some, true};
    ghost use Rattle.smt_stream.specs.Led.{IsAnswers};
    ghost use Rattle.smt_stream.specs.Links.{IsBroken, SendsMore, mini_answers, mini_broken};
    ghost use Rattle.smt_stream.specs.Links.{mini_end, mini_sent, mini_state};

    /// A link to a solver that was sent nothing. Takes no memory.
    pub fn new(alloc: Global) -> MiniLink
        ensures state { mini_state result
            ≡ record {
              sent = Some [];
              was_read = Some [];
              to_come = Some [];
              ended = Some Ended.Running;
              killed = Some false;
              faults = 0;
            } }
        ensures whole { mini_broken result ≡ false }
    {
        MiniLink {
            alloc,
            stream: Stream::new(alloc),
            sent: Vec::new(alloc),
            answers: Vec::new(alloc),
            at: 0,
            broken: false,
            killed: false,
            faults: 0,
        }
    }

    /// The bytes that were sent.
    pub fn sent(&self) -> &[u8]
        ensures { result.now ≡ mini_sent self.now }
    {
        self.sent.as_slice()
    }

    /// All that was answered, read or not: what is put for the bytes that were sent.
    pub fn answers(&self) -> &[u8]
        ensures answers { result.now ≡ mini_answers self.now }
        ensures put { IsAnswers (mini_sent self.now) result.now }
    {
        self.answers.as_slice()
    }

    /// The bytes that are to come.
    fn left(&self) -> &[u8]
        ensures { result.now ≡ drop self.now.at (mini_answers self.now) }
    {
        &self.answers.as_slice()[self.at..]
    }

    /// Whether a call has failed.
    pub(crate) fn has_failed(&self) -> bool
        ensures { IsTrue result ↔ 0 < (mini_state self.now).faults }
    {
        self.faults > 0
    }

    /// How the solver has ended, if it has.
    fn end(&self) -> Ended
        ensures { result ≡ mini_end self.now }
    {
        if self.killed {
            return Ended::Killed;
        }
        if self.broken {
            return Ended::Running;
        }
        match self.stream.stage {
            Stage::Waiting => Ended::Running,
            Stage::Exited => Ended::Code(0),
            Stage::Stopped => Ended::Code(3),
        }
    }

    /// Sends bytes to a solver that has not ended, and keeps what it answers.
    fn take(&mut self, bytes: &[u8]) -> Result<(), LinkError>
        requires whole { self.old.broken ≡ false }
        ensures sent { OnOk result (SendsMore self.old self.new bytes.now) }
        ensures broken { OnErr result (IsBroken self.old self.new) }
        ensures refusal { IsOkUnless result LinkError.Memory }
    {
        let mut put = ListSink::new(self.alloc);
        if take_piece(&mut self.stream, bytes, &mut put).is_err() {
            self.broken = true;
            return Err(LinkError::Memory);
        }
        if append_both(&mut self.sent, bytes, &mut self.answers, put.bytes()) {
            return Ok(());
        }
        self.broken = true;
        Err(LinkError::Memory)
    }
}

impl Link for MiniLink {
    ghost use Rattle.std.specs.Prelude.{◌≡◌};
    ghost use Rattle.smt_script.specs.Bytes.{bytes_in};
    ghost use Rattle.smt_solve.specs.Link.{AllowsTheSame, AsksEnd, HandsOn, Kills, ReadsLine};
    ghost use Rattle.smt_solve.specs.Link.{Sends};
    ghost use Rattle.smt_stream.specs.Links.{NeverFails, SendsAsTold, mini_allows, mini_state};

    ghost state = { mini_state };

    ghost allows = { mini_allows };

    /// Keeps all bytes and what is put for them, or none where there is no memory for them.
    fn send(&mut self, bytes: &[u8]) -> Result<(), LinkError>
        ensures sends { Sends (mini_state self.old) (mini_state self.new) bytes.now result }
        ensures allows { AllowsTheSame (mini_allows self.old) (mini_allows self.new) }
        ensures told { SendsAsTold self.old self.new result }
    {
        match self.end() {
            Ended::Running => {}
            Ended::Code(_) | Ended::Killed => {
                self.faults = self.faults.saturating_add(1);
                return Err(LinkError::Fault);
            }
        }
        if self.broken {
            return Err(LinkError::Memory);
        }
        self.take(bytes)
    }

    /// Nothing is held back.
    fn flush(&mut self) -> Result<(), LinkError>
        ensures hands_on { HandsOn (mini_state self.old) (mini_state self.new) result }
        ensures allows { AllowsTheSame (mini_allows self.old) (mini_allows self.new) }
        ensures told { NeverFails self.old self.new result }
    {
        Ok(())
    }

    /// Gives the next line of the answers, or nothing where there is no memory for it.
    fn read_line(&mut self, line: &mut Bytes, limit: usize) -> Result<LineEnd, LinkError>
        ensures reads { ReadsLine (mini_allows self.old) (mini_state self.old) (mini_state self.new)
            (bytes_in line.old) (bytes_in line.new) limit result }
        ensures allows { AllowsTheSame (mini_allows self.old) (mini_allows self.new) }
        ensures told { NeverFails self.old self.new result }
    {
        let left = self.left();
        let (count, end) = next_line(left, limit);
        match line.append(&left[..count]) {
            Ok(()) => {
                self.at += count;
                Ok(end)
            }
            Err(_) => Err(LinkError::Memory),
        }
    }

    /// The end that it has.
    fn ended(&mut self) -> Result<Ended, LinkError>
        ensures asks { AsksEnd (mini_state self.old) (mini_state self.new) result }
        ensures allows { AllowsTheSame (mini_allows self.old) (mini_allows self.new) }
        ensures told { NeverFails self.old self.new result }
    {
        Ok(self.end())
    }

    /// Is killed.
    fn kill(&mut self) -> Result<(), LinkError>
        ensures kills { Kills (mini_state self.old) (mini_state self.new) result }
        ensures allows { AllowsTheSame (mini_allows self.old) (mini_allows self.new) }
        ensures told { NeverFails self.old self.new result }
    {
        self.killed = true;
        Ok(())
    }
}
