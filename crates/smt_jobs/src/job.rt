#![tactic(auto, using(smt_term::specs::View::views, smt_sexpr::specs::View::views))]
// Jobs: declarations and steps in one S-expression.
ghost use Rattle.std.specs.Prelude.{◌≡◌, ◌↔◌, IfErr, IfOk, IsErrOf, IsOkUnless, map};
ghost use Rattle.smt_term.specs.View.{plain_items, plain_term};
ghost use Rattle.law_jobs.specs.Jobs.{IsBuiltFrom, IsTooLong, declarations_of};
ghost use Rattle.law_jobs.specs.Steps as stated;
ghost use Rattle.law_jobs.specs.Steps.{Section as StatedSection};
ghost use Rattle.smt_job_terms.specs.DeclarationView.{HasDeclared};
ghost use Rattle.smt_jobs.specs.JobView.{plain_job};
ghost use Rattle.smt_jobs.specs.Numbered.{numbered_job};
ghost use Rattle.smt_jobs.specs.Refused.{IsRefusal};
ghost use Rattle.smt_jobs.specs.StepView.{plain_section, plain_steps};

use crate::numbered::{NumberedJob, NumberedSteps};
use crate::steps::{BareStep, Step, StepList, current_behind};
use crate::walk::{StepSink, walk_job};
use smt_job_terms::{Declared, Functions, JobError, UufList, VarList, Variables};
use smt_term::{EnumTable, Term, TermError, TermList};
use std::alloc::Global;

/// The longest job, in bytes.
pub const GREATEST_JOB: usize = 16_777_216;

/// How many brackets of a job may be open at a place.
pub(crate) const GREATEST_NESTING: usize = 512;

/// A job: its enum types, its variables, its functions and its steps.
#[derive(Debug, Drop)]
pub struct Job {
    /// The enum types that the terms may name, in the order of their names.
    pub enums: EnumTable,
    /// The declared variables, in order.
    pub vars: VarList,
    /// The declared functions, in order.
    pub funs: UufList,
    /// The steps, in order, their terms as they are built.
    pub steps: StepList,
}

impl Job {
    /// The terms that are current behind all steps: what was asserted, but for what was asserted in levels that are closed.
    ///
    /// # Errors
    ///
    /// `Memory`, where there is none for the list.
    pub fn current(&self, alloc: Global) -> Result<TermList, JobError>
        ensures current { IfOk result
            (λ terms. plain_items terms ≡ stated.current (plain_steps self.now.steps)) }
        ensures refusal { IsOkUnless result JobError.Memory }
    {
        current_behind(alloc, self.steps.items())
    }

    /// What the job declares, where terms find it by its name: of declarations with one id the first. The enum types are left out,
    /// since terms are read without them.
    ///
    /// # Errors
    ///
    /// `Memory`, where there is none for the declarations.
    pub fn declared(&self, alloc: Global) -> Result<Declared, JobError>
        ensures declares { IfOk result
            (λ declared. HasDeclared declared (declarations_of (plain_job self.now))) }
        ensures refusal { IsOkUnless result JobError.Memory }
    {
        Ok(Declared {
            enums: EnumTable::new(alloc),
            variables: Variables::of(alloc, &self.vars)?,
            functions: Functions::of(alloc, &self.funs)?,
        })
    }
}

/// The steps that were read so far, and the terms of the assertion that is not yet ended.
#[derive(Drop)]
struct ReadSteps {
    steps: StepList,
    begun: Vec<Term>,
}

impl StepSink for ReadSteps {
    ghost taken = { λ read. plain_steps read.steps };

    ghost begun = { λ read. map plain_term read.begun.items };

    fn take(&mut self, term: Term) -> Result<(), TermError> {
        self.begun.push(term)?;
        Ok(())
    }

    fn take_next<'t>(
        &mut self,
        _: Global,
        _: &Declared,
        _: &'t [u8],
        _: usize,
    ) -> Result<Option<&'t [u8]>, TermError> {
        Ok(None)
    }

    fn end_assertion(&mut self) -> Result<(), TermError> {
        let terms = TermList::new(*self.begun.allocator(), self.begun.as_slice())?;
        self.begun.clear();
        self.steps.push(Step::Assert(terms))
    }

    fn take_bare(&mut self, step: BareStep) -> Result<(), TermError> {
        self.steps.push(Step::from(step))
    }
}

/// Reads a job. Its terms are built as they are read: applications are folded, constants first. Of the terms' expressions
/// one is held at a time, and let go once its term is built.
///
/// # Examples
///
/// ```
/// use kembura::read_job;
///
/// let job = read_job(alloc, b"(job (enums) (vars) (funs) (terms true))")?;
/// assert_eq!(rt; job.steps.len(), 1);
/// assert_eq!(rt; job.current(alloc)?.len(), 1);
/// ```
///
/// # Errors
///
/// `TooLarge` comes exactly where there are more than 16777216 bytes. Each other refusal but `Memory` is the first fault of bytes
/// that are no job, as [`JobError`] orders them: `Parse` and `TooDeep` that of bytes that are no expression. `Memory` comes where there is
/// no memory for the job.
pub fn read_job(alloc: Global, bytes: &[u8]) -> Result<Job, JobError>
    ensures job { IfOk result
        (λ job. (section : StatedSection) × IsBuiltFrom bytes.now section (plain_job job)) }
    ensures too_large { IsErrOf result JobError.TooLarge ↔ IsTooLong bytes.now }
    ensures refused { IfErr result (λ error. IsRefusal error bytes.now) }
{
    let mut read = ReadSteps {
        steps: StepList::new(alloc),
        begun: Vec::new(alloc),
    };
    let (declared, _) = walk_job(alloc, bytes, &mut read)?;
    let Declared {
        enums,
        variables,
        functions,
    } = declared;
    let ReadSteps { steps, .. } = read;
    Ok(Job {
        enums,
        vars: variables.vars,
        funs: functions.funs,
        steps,
    })
}

/// Reads a job as `read_job` does, and keeps the numbers of its terms alone.
///
/// # Errors
///
/// As of `read_job`.
pub fn read_numbered(alloc: Global, bytes: &[u8]) -> Result<NumberedJob, JobError>
    ensures job { IfOk result
        (λ job. IsBuiltFrom bytes.now (plain_section job.section) (numbered_job job)) }
    ensures too_large { IsErrOf result JobError.TooLarge ↔ IsTooLong bytes.now }
    ensures refused { IfErr result (λ error. IsRefusal error bytes.now) }
{
    let mut steps = NumberedSteps::new(alloc);
    let (declared, section) = walk_job(alloc, bytes, &mut steps)?;
    let Declared {
        enums,
        variables,
        functions,
    } = declared;
    Ok(NumberedJob {
        enums,
        vars: variables.vars,
        funs: functions.funs,
        steps,
        section,
    })
}
