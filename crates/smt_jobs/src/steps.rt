#![tactic(auto, using(smt_term::specs::View::views, smt_sexpr::specs::View::views))]
// The steps of a job: what is asserted, where levels are opened and closed, and where a solver is asked.
ghost use Rattle.std.specs.Prelude.{◌≡◌, ◌++◌, ◌∷◌, [], IfOk, IsOkUnless, OnErr, OnOk, length, map};
ghost use Rattle.smt_term.specs.View.{plain_items, plain_term, plain_terms};
ghost use Rattle.law_jobs.specs.Steps.{current};
ghost use Rattle.smt_jobs.specs.StepView.{plain_bare_step, plain_step, plain_steps};

use smt_job_terms::JobError;
use smt_term::{Term, TermError, TermList};
use std::alloc::Global;

/// By which section a job gives its steps.
#[derive(Clone, Copy, Debug, PartialEq, Eq, Drop)]
pub enum Section {
    /// `(terms t ..)`: one step asserts all terms, and a solver is asked once, behind it.
    Terms,
    /// `(steps S ..)`: a solver is asked where a step says so.
    Steps,
}

/// A step that has no terms.
#[derive(Clone, Copy, Debug, PartialEq, Eq, Drop)]
pub enum BareStep {
    /// `(push)`: a level is opened.
    Push,
    /// `(pop)`: the level that was opened last is closed, and what was asserted in it is no longer current.
    Pop,
    /// `(check)`: it is asked whether all terms that are current here can be true together.
    Check,
}

/// One step of a job.
#[derive(Debug, Drop)]
pub enum Step {
    /// `(assert t ..)`: these terms are asserted, at the level that is open, as they are built.
    Assert(TermList),
    /// `(push)`: a level is opened.
    Push,
    /// `(pop)`: the level that was opened last is closed, and what was asserted in it is no longer current.
    Pop,
    /// `(check)`: it is asked whether all terms that are current here can be true together.
    Check,
}

impl Step {
    /// An equal step that shares the terms.
    ///
    /// # Errors
    /// `Memory`, where there is none for the step.
    pub fn share(&self) -> Result<Step, TermError>
        ensures { IfOk result (λ step. plain_step step ≡ plain_step self.now) }
    {
        match self {
            Step::Assert(terms) => Ok(Step::Assert(terms.share()?)),
            Step::Push => Ok(Step::Push),
            Step::Pop => Ok(Step::Pop),
            Step::Check => Ok(Step::Check),
        }
    }
}

impl From<BareStep> for Step {
    fn from(step: BareStep) -> Step
        ensures { plain_step result ≡ plain_bare_step step }
    {
        match step {
            BareStep::Push => Step::Push,
            BareStep::Pop => Step::Pop,
            BareStep::Check => Step::Check,
        }
    }
}

/// A list of steps.
#[derive(Debug, Drop)]
pub struct StepList {
    items: Vec<Step>,
}

impl StepList {
    /// The empty list. It takes no memory.
    pub fn new(alloc: Global) -> StepList
        ensures { plain_steps result ≡ [] }
    {
        StepList {
            items: Vec::new(alloc),
        }
    }

    /// Appends a step. An `Err` changes nothing.
    ///
    /// # Errors
    /// `Memory`, where there is none for the step.
    pub fn push(&mut self, item: Step) -> Result<(), TermError>
        ensures ok { OnOk result
            (plain_steps self.new ≡ plain_steps self.old ++ plain_step item ∷ []) }
        ensures err { OnErr result (plain_steps self.new ≡ plain_steps self.old) }
    {
        self.items.push(item)?;
        Ok(())
    }

    /// How many steps there are.
    pub fn len(&self) -> usize
        ensures { result ≡ length (plain_steps self.now) }
    {
        self.items.len()
    }

    /// The steps, in order.
    pub fn items(&self) -> &[Step]
        ensures { map plain_step result.now ≡ plain_steps self.now }
    {
        self.items.as_slice()
    }

    /// An equal list that shares the terms.
    ///
    /// # Errors
    /// `Memory`, where there is none for the list.
    pub fn share(&self) -> Result<StepList, TermError>
        ensures { IfOk result (λ steps. plain_steps steps ≡ plain_steps self.now) }
    {
        let mut items: Vec<Step> = Vec::new(*self.items.allocator());
        for item in self.items() {
            items.push(item.share()?)?;
        }
        Ok(StepList { items })
    }
}

/// Appends references to these terms.
fn append<'t>(current: &mut Vec<&'t Term>, terms: &'t [Term]) -> Result<(), TermError>
    ensures { OnOk result (map (λ term. plain_term term.now) current.new.items
        ≡ map (λ term. plain_term term.now) current.old.items ++ plain_terms terms.now) }
{
    for term in terms {
        current.push(term)?;
    }
    Ok(())
}

/// The terms that are current behind all of these steps.
pub(crate) fn current_behind(alloc: Global, steps: &[Step]) -> Result<TermList, JobError>
    ensures current { IfOk result
        (λ terms. plain_items terms ≡ current (map plain_step steps.now)) }
    ensures refusal { IsOkUnless result JobError.Memory }
{
    let mut current: Vec<&Term> = Vec::new(alloc);
    // How many terms were current where a level was opened that is still open.
    let mut opened: Vec<usize> = Vec::new(alloc);
    for step in steps {
        match step {
            Step::Assert(terms) => append(&mut current, terms.items())?,
            Step::Push => opened.push(current.len())?,
            Step::Pop => {
                if let Some(count) = opened.pop() {
                    current.truncate(count);
                }
            }
            Step::Check => {}
        }
    }
    Ok(TermList::of_references(alloc, current.as_slice())?)
}
