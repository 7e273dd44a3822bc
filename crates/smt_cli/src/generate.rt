// Jobs by their seeds.
ghost use Rattle.std.specs.Prelude.{◌≡◌, IfOk};
ghost use Rattle.smt_job_terms.specs.DeclarationView.{declarations};
ghost use Rattle.smt_jobs.specs.Numbered.{terms_begun};
ghost use Rattle.smt_cli.specs.Generated.{generated_terms, generated_variables};
ghost use Rattle.smt_cli.specs.Jobs.{job_generated, job_of_terms};

use crate::terms::{VARIABLES, comparison, next_number, variable};
use smt_job_terms::VarList;
use smt_jobs::{NumberedSteps, StepSink};
use smt_term::TermError;
use std::alloc::Global;

/// A generated job. It declares no enum types and no functions.
#[derive(Drop)]
pub(crate) struct GeneratedJob {
    /// Its variables.
    pub(crate) vars: VarList,
    /// The terms of its one assertion, by their numbers.
    pub(crate) terms: NumberedSteps,
}

/// The variables of each generated job.
fn variables(alloc: Global) -> Result<VarList, TermError>
    ensures { IfOk result (λ vars. declarations vars ≡ generated_variables) }
{
    let mut variables = VarList::new(alloc);
    for number in 0..VARIABLES {
        variables.push(variable(alloc, number)?)?;
    }
    Ok(variables)
}

/// The terms of a generated job, by their numbers. Each is let go once it has its number.
fn numbered(alloc: Global, seed: u64, count: u32) -> Result<NumberedSteps, TermError>
    ensures { IfOk result (λ terms. terms_begun terms ≡ generated_terms seed count) }
{
    let mut terms = NumberedSteps::new(alloc);
    let mut number = seed;
    for place in 0..count {
        number = next_number(number);
        terms.take(comparison(alloc, place, number)?)?;
    }
    Ok(terms)
}

/// The job that a seed gives, with so many terms. They are kept by their numbers alone.
///
/// Its variables are `x0` to `x7`, and no type of it is an enum type. Each term compares the sum of two variables, one behind the
/// other, with the next number of a generator that begins from the seed.
///
/// # Errors
/// `Memory`, where there is none for the job.
pub(crate) fn generated_job(alloc: Global, seed: u64, count: u32) -> Result<GeneratedJob, TermError>
    ensures { IfOk result (λ job.
        job_of_terms (declarations job.vars) (terms_begun job.terms) ≡ job_generated seed count) }
{
    let vars = variables(alloc)?;
    Ok(GeneratedJob {
        vars,
        terms: numbered(alloc, seed, count)?,
    })
}
