// A link in memory.
ghost use Rattle.std.specs.Prelude.{◌≤◌, length};

use crate::line::next_line;
use crate::link::{Ended, LineEnd, Link, LinkError};
use smt_script::Bytes;
use std::alloc::Global;

/// Keeps what is sent, gives the lines of a text as answers, and fails at chosen calls.
#[derive(Debug)]
pub struct MemoryLink {
    sent: Vec<u8>,
    answers: Vec<u8>,
    at: usize,
    fails: Vec<u64>,
    calls: u64,
    faults: u64,
    end: Ended,
    killed: bool,
    ghost within: { at ≤ length answers.items },
}

// By hand, so that what lets a link go calls this, and has no account of its parts.
impl Drop for MemoryLink {
    fn drop(self) {
        let MemoryLink {
            sent: _,
            answers: _,
            at: _,
            fails: _,
            calls: _,
            faults: _,
            end: _,
            killed: _,
        } = self;
    }
}

impl MemoryLink {
    ghost use Rattle.std.specs.Prelude.{◌≡◌, ◌≤◌, ◌<◌, ◌↔◌, IfOk, IsOkUnless, IsTrue};
    ghost use Rattle.smt_solve.specs.MemoryLink.{IsNew, bytes_left, memory_sent, memory_faults};
    ghost use Rattle.smt_solve.specs.MemoryLink.{IsToFail, IsUntouched, counts_call};

    /// A link whose solver answers with the bytes of `answers`, whatever it is sent.
    ///
    /// The calls of `send`, `flush`, `read_line`, `ended` and `kill` whose numbers, counted together from 1, are in `fails` are
    /// to fail. Where `ends` gives a code, the solver has ended with it from the start. The call's only error is `Memory`.
    pub fn new(
        alloc: Global,
        answers: &[u8],
        fails: &[u64],
        ends: Option<i32>,
    ) -> Result<MemoryLink, LinkError>
        ensures fresh { IfOk result (λ link. IsNew link answers.now fails.now ends) }
        ensures untouched { IfOk result IsUntouched }
        ensures refusal { IsOkUnless result LinkError.Memory }
    {
        let (Ok(answers), Ok(fails)) = (
            Vec::from_slice(alloc, answers),
            Vec::from_slice(alloc, fails),
        ) else {
            return Err(LinkError::Memory);
        };
        let end = match ends {
            Some(code) => Ended::Code(code),
            None => Ended::Running,
        };
        Ok(MemoryLink {
            sent: Vec::new(alloc),
            answers,
            at: 0,
            fails,
            calls: 0,
            faults: 0,
            end,
            killed: false,
        })
    }

    /// The bytes that were sent.
    pub fn sent(&self) -> &[u8]
        ensures { result.now ≡ memory_sent self.now }
    {
        self.sent.as_slice()
    }

    /// Whether a call has failed.
    pub(crate) fn has_failed(&self) -> bool
        ensures { IsTrue result ↔ 0 < memory_faults self.now }
    {
        self.faults > 0
    }

    /// The bytes that are to come.
    fn left(&self) -> &[u8]
        ensures { result.now ≡ bytes_left self.now }
    {
        &self.answers.as_slice()[self.at..]
    }

    /// Counts a call, and a fault where it is to fail.
    fn is_to_fail(&mut self) -> bool
        ensures fails { IsTrue result ↔ IsToFail self.old }
        ensures counts { self.new ≡ counts_call self.old result }
        ensures later { memory_faults self.old ≤ memory_faults self.new }
    {
        self.calls = self.calls.saturating_add(1);
        if self.fails.contains(&self.calls) {
            self.faults = self.faults.saturating_add(1);
            return true;
        }
        false
    }
}

impl Link for MemoryLink {
    ghost use Rattle.std.specs.Prelude.{◌≡◌};
    ghost use Rattle.smt_script.specs.Bytes.{bytes_in};
    ghost use Rattle.smt_solve.specs.Link.{AllowsTheSame, AsksEnd, HandsOn, Kills, ReadsLine};
    ghost use Rattle.smt_solve.specs.Link.{Sends};
    ghost use Rattle.smt_solve.specs.MemoryLink.{EndStays, FailsAsTold, memory_allows};
    ghost use Rattle.smt_solve.specs.MemoryLink.{memory_state};

    ghost state = { memory_state };

    ghost allows = { memory_allows };

    /// Keeps all bytes, or none where the call is to fail or there is no memory for them.
    fn send(&mut self, bytes: &[u8]) -> Result<(), LinkError>
        ensures sends { Sends (memory_state self.old) (memory_state self.new) bytes.now result }
        ensures allows { AllowsTheSame (memory_allows self.old) (memory_allows self.new) }
        ensures fails { FailsAsTold self.old self.new result }
        ensures end { EndStays self.old self.new }
    {
        if self.is_to_fail() {
            return Err(LinkError::Fault);
        }
        match self.sent.extend_from_slice(bytes) {
            Ok(()) => Ok(()),
            Err(_) => Err(LinkError::Memory),
        }
    }

    /// Nothing is held back.
    fn flush(&mut self) -> Result<(), LinkError>
        ensures hands_on { HandsOn (memory_state self.old) (memory_state self.new) result }
        ensures allows { AllowsTheSame (memory_allows self.old) (memory_allows self.new) }
        ensures fails { FailsAsTold self.old self.new result }
        ensures end { EndStays self.old self.new }
    {
        if self.is_to_fail() {
            return Err(LinkError::Fault);
        }
        Ok(())
    }

    /// Gives the next line of the answers, or nothing where the call is to fail or there is no memory for it.
    fn read_line(&mut self, line: &mut Bytes, limit: usize) -> Result<LineEnd, LinkError>
        ensures reads { ReadsLine (memory_allows self.old) (memory_state self.old)
            (memory_state self.new) (bytes_in line.old) (bytes_in line.new) limit result }
        ensures allows { AllowsTheSame (memory_allows self.old) (memory_allows self.new) }
        ensures fails { FailsAsTold self.old self.new result }
        ensures end { EndStays self.old self.new }
    {
        if self.is_to_fail() {
            return Err(LinkError::Fault);
        }
        let left = self.left();
        let (count, end) = next_line(left, limit);
        match line.append(&left[..count]) {
            Ok(()) => {
                self.at += count;
                Ok(end)
            }
            Err(_) => Err(LinkError::Memory),
        }
    }

    /// The end that it has.
    fn ended(&mut self) -> Result<Ended, LinkError>
        ensures asks { AsksEnd (memory_state self.old) (memory_state self.new) result }
        ensures allows { AllowsTheSame (memory_allows self.old) (memory_allows self.new) }
        ensures fails { FailsAsTold self.old self.new result }
        ensures end { EndStays self.old self.new }
    {
        if self.is_to_fail() {
            return Err(LinkError::Fault);
        }
        Ok(self.end)
    }

    /// Is killed, unless the call is to fail.
    fn kill(&mut self) -> Result<(), LinkError>
        ensures kills { Kills (memory_state self.old) (memory_state self.new) result }
        ensures allows { AllowsTheSame (memory_allows self.old) (memory_allows self.new) }
        ensures fails { FailsAsTold self.old self.new result }
    {
        if self.is_to_fail() {
            return Err(LinkError::Fault);
        }
        self.killed = true;
        self.end = Ended::Killed;
        Ok(())
    }
}
