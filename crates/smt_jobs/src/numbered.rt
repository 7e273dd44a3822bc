#![tactic(auto, using(smt_term::specs::View::views, smt_sexpr::specs::View::views))]
// A job whose terms are numbered nodes, so that no term is kept.
ghost use Rattle.std.specs.Prelude.{IsTrue};
ghost use Rattle.smt_jobs.specs.Numbers.{all_stand, all_steps_stand};

use crate::direct::{Known, condition_at};
use crate::steps::{BareStep, Section};
use crate::walk::StepSink;
use smt_job_terms::{Declared, UufList, VarList};
use smt_nodes::{Interner, NodeId};
use smt_term::{EnumTable, Term, TermError};
use std::alloc::Global;
use std::mem;

/// One step of a job, its terms by their numbers.
#[derive(Drop)]
pub enum NumberedStep {
    /// `(assert t ..)`: the terms of these numbers are asserted, at the level that is open.
    Assert(Vec<NodeId>),
    /// `(push)`: a level is opened.
    Push,
    /// `(pop)`: the level that was opened last is closed, and what was asserted in it is no longer current.
    Pop,
    /// `(check)`: it is asked whether all terms that are current here can be true together.
    Check,
}

/// Steps with their terms by their numbers, in order, and the nodes of which these are. A term is let go once it has its number.
#[derive(Drop)]
pub struct NumberedSteps {
    /// The nodes.
    pub nodes: Interner,
    /// The steps that are complete.
    pub steps: Vec<NumberedStep>,
    /// The number of each term of the assertion that is not yet ended.
    pub begun: Vec<NodeId>,
    // What numbers the variables have, as far as they were met.
    known: Known,
    ghost stand: { IsTrue (all_steps_stand nodes steps.items) },
    ghost begun_stand: { IsTrue (all_stand nodes begun.items) },
}

/// A job: its enum types, its variables, its functions and its steps, by the numbers of their terms.
#[derive(Drop)]
pub struct NumberedJob {
    /// The enum types that the terms may name, in the order of their names.
    pub enums: EnumTable,
    /// The declared variables, in order.
    pub vars: VarList,
    /// The declared functions, in order.
    pub funs: UufList,
    /// The steps, in order, their terms as they are built.
    pub steps: NumberedSteps,
    /// The section by which the job gives its steps.
    pub section: Section,
}

impl NumberedSteps {
    ghost use Rattle.std.specs.Prelude.{◌≡◌, []};
    ghost use Rattle.smt_jobs.specs.Numbered.{numbered_steps, terms_begun};

    /// No steps, over an interner without nodes. Takes no memory.
    pub fn new(alloc: Global) -> NumberedSteps
        ensures steps { numbered_steps result ≡ [] }
        ensures begun { terms_begun result ≡ [] }
    {
        NumberedSteps {
            nodes: Interner::new(alloc),
            steps: Vec::new(alloc),
            begun: Vec::new(alloc),
            known: Vec::new(alloc),
        }
    }
}

impl StepSink for NumberedSteps {
    ghost use Rattle.smt_jobs.specs.Numbered.{numbered_steps, terms_begun};

    ghost taken = { numbered_steps };

    ghost begun = { terms_begun };

    fn take(&mut self, term: Term) -> Result<(), TermError> {
        let id = self.nodes.intern(&term)?;
        Ok(self.begun.push(id)?)
    }

    fn take_next<'t>(
        &mut self,
        alloc: Global,
        declared: &Declared,
        src: &'t [u8],
        depth: usize,
    ) -> Result<Option<&'t [u8]>, TermError> {
        let known = &mut self.known;
        match condition_at(alloc, declared, &mut self.nodes, known, src, depth)? {
            Some((id, rest)) => {
                self.begun.push(id)?;
                Ok(Some(rest))
            }
            None => Ok(None),
        }
    }

    fn end_assertion(&mut self) -> Result<(), TermError> {
        let none = Vec::new(*self.begun.allocator());
        let ids = mem::replace(&mut self.begun, none);
        Ok(self.steps.push(NumberedStep::Assert(ids))?)
    }

    fn take_bare(&mut self, step: BareStep) -> Result<(), TermError> {
        let step = match step {
            BareStep::Push => NumberedStep::Push,
            BareStep::Pop => NumberedStep::Pop,
            BareStep::Check => NumberedStep::Check,
        };
        Ok(self.steps.push(step)?)
    }
}
