// A starter in memory.
ghost use Rattle.std.specs.Prelude.{◌≡◌, ◌⊎◌, ◌∷◌, [], map, IfOk, IfSome, IsOkUnless, MatchOption};
ghost use Rattle.smt_solve.specs.Link.{AllowsOnly, AllowsTheSame, IsUnused};
ghost use Rattle.smt_solve.specs.MemoryLink.{IsUntouched, memory_allows, memory_faults};
ghost use Rattle.smt_solve.specs.MemoryLink.{memory_state};
ghost use Rattle.smt_solve.specs.MemoryStarter.{IsIdle, NextStartFails, StartsAsTold, asked};
ghost use Rattle.smt_solve.specs.MemoryStarter.{counts_start, links_back, links_in};
ghost use Rattle.smt_solve.specs.MemoryStarter.{links_left, memory_starter_allows};
ghost use Rattle.smt_solve.specs.MemoryStarter.{memory_starter_state};
ghost use Rattle.smt_solve.specs.Starter.{Finishes, Starts, command_of};

use crate::command::SolverCommand;
use crate::link::Link;
use crate::list::LinkList;
use crate::memory::MemoryLink;
use crate::starter::{StartError, Starter};
use std::alloc::Global;

/// Gives the links of a list in order, keeps those that come back, and fails at chosen starts and where no link is left.
#[derive(Debug)]
pub struct MemoryStarter {
    links: LinkList,
    asked: Vec<SolverCommand>,
    returned: Vec<MemoryLink>,
    fails: Vec<u64>,
    starts: u64,
    failed_starts: u64,
    link_faults: u64,
}

// By hand, so that what lets a starter go calls this, and has no account of its parts.
impl Drop for MemoryStarter {
    fn drop(self) {
        let MemoryStarter {
            links: _,
            asked: _,
            returned: _,
            fails: _,
            starts: _,
            failed_starts: _,
            link_faults: _,
        } = self;
    }
}

impl MemoryStarter {
    /// A starter of these links. The starts whose numbers, counted from 1, are in `fails` are to fail.
    pub fn new(alloc: Global, links: LinkList, fails: &[u64]) -> Result<MemoryStarter, StartError>
        ensures idle { IfOk result (λ s. IsIdle s (links_in links) fails.now) }
        ensures refusal { IsOkUnless result StartError.Memory }
    {
        match Vec::from_slice(alloc, fails) {
            Ok(fails) => Ok(MemoryStarter {
                links,
                asked: Vec::new(alloc),
                returned: Vec::new(alloc),
                fails,
                starts: 0,
                failed_starts: 0,
                link_faults: 0,
            }),
            Err(_) => Err(StartError::Memory),
        }
    }

    /// Counts a start, and gives the first link that is left unless the start is to fail.
    fn next_link(&mut self) -> Option<MemoryLink>
        ensures counts { self.new ≡ counts_start self.old self.new.links }
        ensures given { MatchOption result
            ((NextStartFails self.old ⊎ (links_left self.old ≡ []))
            × (links_left self.new ≡ links_left self.old))
            (λ link.
            (¬ NextStartFails self.old) × (links_left self.old ≡ link ∷ links_left self.new)) }
        ensures untouched { IfSome result IsUntouched }
    {
        self.starts = self.starts.saturating_add(1);
        if self.fails.contains(&self.starts) {
            return None;
        }
        self.links.take_first()
    }

    /// The commands that it was asked for, in their order.
    pub fn commands(&self) -> &[SolverCommand]
        ensures { map command_of result.now ≡ asked self.now }
    {
        self.asked.as_slice()
    }

    /// The links that came back, in their order.
    pub fn returned(&self) -> &[MemoryLink]
        ensures { result.now ≡ links_back self.now }
    {
        self.returned.as_slice()
    }
}

impl Starter for MemoryStarter {
    type L = MemoryLink;

    ghost state = { memory_starter_state };

    ghost allows = { memory_starter_allows };

    /// Gives the next link.
    fn start(&mut self, alloc: Global, cmd: &SolverCommand) -> Result<MemoryLink, StartError>
        ensures starts { Starts (memory_starter_state self.old) (memory_starter_state self.new)
            (command_of cmd.now) result }
        ensures unused { IfOk result (λ link. IsUnused (memory_state link)) }
        ensures honest { IfOk result
            (λ link. AllowsOnly (memory_allows link) (memory_starter_allows self.old)) }
        ensures allows { AllowsTheSame (memory_starter_allows self.old)
            (memory_starter_allows self.new) }
        ensures told { StartsAsTold self.old self.new result }
    {
        let Ok(cmd) = cmd.share(alloc) else {
            return Err(StartError::Memory);
        };
        if self.asked.push(cmd).is_err() {
            return Err(StartError::Memory);
        }
        match self.next_link() {
            Some(link) => Ok(link),
            None => {
                self.failed_starts = self.failed_starts.saturating_add(1);
                Err(StartError::Fault)
            }
        }
    }

    /// Keeps the link.
    fn finish(&mut self, link: MemoryLink) -> Result<(), StartError>
        ensures finishes { Finishes (memory_starter_state self.old) (memory_starter_state self.new)
            link (memory_faults link) result }
        ensures allows { AllowsTheSame (memory_starter_allows self.old)
            (memory_starter_allows self.new) }
    {
        if link.has_failed() {
            self.link_faults = self.link_faults.saturating_add(1);
        }
        match self.returned.push(link) {
            Ok(()) => Ok(()),
            Err(_) => Err(StartError::Memory),
        }
    }
}
