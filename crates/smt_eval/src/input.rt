// A job with an assignment, read from its bytes.
ghost use Rattle.std.specs.Prelude.{◌↔◌, IfErr, IfOk, IsErrOf};
ghost use Rattle.law_assignments.specs.Covered.{first_missing};
ghost use Rattle.law_assignments.specs.Entries.{assignment_of};
ghost use Rattle.law_assignments.specs.Inputs.{IsInputBuilt, greatest_input_nesting, input_of};
ghost use Rattle.law_assignments.specs.Inputs.{unless_missing};
ghost use Rattle.law_assignments.specs.Outcomes.{of_job};
ghost use Rattle.law_jobs.specs.Jobs.{IsTooLong, built_job, job_of, declarations_of};
ghost use Rattle.law_jobs.specs.Outcomes.{mapped};
ghost use Rattle.law_jobs.specs.Steps.{current};
ghost use Rattle.law_texts.specs.Tokens.{IsReadWithin};
ghost use Rattle.smt_jobs.specs.JobView.{plain_job};
ghost use Rattle.smt_eval.specs.AssignmentView.{plain_assignment};
ghost use Rattle.smt_sexpr.specs.View.{plain};
ghost use Rattle.smt_eval.specs.InputRefused.{IsInputReadAs, IsInputRefusal};
ghost use Rattle.smt_eval.specs.ReaderView.{IsUnreadableInput, built_input};
ghost use Rattle.smt_eval.specs.WrittenView.{plain_written};

use crate::assignment::Assignment;
use crate::error::EvalError;
use crate::missing::refuse_missing;
use crate::values::{Reader, is_want};
use crate::written::{WrittenInput, input_written};
use smt_jobs::{GREATEST_JOB, Job, read_job_expr};
use smt_sexpr::{SExpr, SExprParseError, parse_sexpr_within};
use std::alloc::Global;

/// A job and an assignment that gives all that its terms reach which are current at its end.
#[derive(Drop)]
pub struct EvalInput {
    /// The job, its terms as they are built.
    pub job: Job,
    /// The assignment.
    pub given: Assignment,
}

/// How many brackets of an input may be open at a place: one more than in a job.
const GREATEST_NESTING: usize = 513;

/// The one expression that the bytes are.
fn expression_in(alloc: Global, bytes: &[u8]) -> Result<SExpr, EvalError>
    ensures read { IfOk result (λ e. IsReadWithin bytes.now greatest_input_nesting (plain e)) }
    ensures refused { IfErr result (λ error. IsUnreadableInput error bytes.now) }
{
    match parse_sexpr_within(alloc, bytes, GREATEST_NESTING) {
        Ok(expression) => Ok(expression),
        Err(SExprParseError::TooDeep) => Err(EvalError::TooDeep),
        Err(SExprParseError::Memory) => Err(EvalError::Memory),
        Err(fault) => Err(EvalError::Parse(fault)),
    }
}

/// The job that an expression states, its terms as they are built.
fn job_in(alloc: Global, expression: &SExpr) -> Result<Job, EvalError>
    ensures { IsInputReadAs plain_job result
        (of_job (mapped (λ x. built_job x.1) (job_of (plain expression.now)))) }
{
    match read_job_expr(alloc, expression) {
        Ok(job) => Ok(job),
        Err(error) => {
            if is_want(&error) {
                Err(EvalError::Memory)
            } else {
                Err(EvalError::Job(error))
            }
        }
    }
}

/// Refuses an assignment that lacks something that the terms of a job reach which are current at its end.
fn refuse_lacking(alloc: Global, job: &Job, given: &Assignment) -> Result<(), EvalError>
    ensures { IsInputReadAs (λ u. tt) result (unless_missing
        (first_missing (plain_assignment given.now) (current (plain_job job.now).steps))) }
{
    match job.current(alloc) {
        Ok(terms) => refuse_missing(alloc, given, terms.items()),
        Err(_) => Err(EvalError::Memory),
    }
}

/// The assignment that an input states for what its job declares.
fn assignment_in(
    alloc: Global,
    job: &Job,
    written: &WrittenInput<'_>,
) -> Result<Assignment, EvalError>
    ensures { IsInputReadAs plain_assignment result
        (assignment_of (declarations_of (plain_job job.now)) (plain_written written.now)) }
{
    let reader = Reader::new(alloc, job)?;
    reader.assignment(written)
}

/// The job and the assignment that an expression states.
fn input_in(alloc: Global, expression: &SExpr) -> Result<EvalInput, EvalError>
    ensures { IsInputReadAs (λ input. (plain_job input.job, plain_assignment input.given)) result
        (built_input (input_of (plain expression.now))) }
{
    let written = input_written(alloc, expression)?;
    let job = job_in(alloc, written.job)?;
    let given = assignment_in(alloc, &job, &written)?;
    refuse_lacking(alloc, &job, &given)?;
    Ok(EvalInput { job, given })
}

/// Reads a job with an assignment, `(eval JOB (vars ("ID" V) ..) (funs ("F" V (V V) ..) ..) (gets (TYPE V) ..) (selectors
/// ("NAME" V (V V) ..) ..))`. Each V is a term in the language of the job that is built to a literal. A function or a selector has its
/// value elsewhere first, and then pairs of key and value.
///
/// # Errors
///
/// `TooLarge` comes exactly where there are more than 16777216 bytes. Each other refusal but `Memory` is the first fault of bytes
/// that are no job with an assignment, as [`EvalError`] orders them. `Memory` comes where there is no memory for the two.
pub fn read_eval(alloc: Global, bytes: &[u8]) -> Result<EvalInput, EvalError>
    ensures input { IfOk result
        (λ input. IsInputBuilt bytes.now (plain_job input.job) (plain_assignment input.given)) }
    ensures too_large { IsErrOf result EvalError.TooLarge ↔ IsTooLong bytes.now }
    ensures refused { IfErr result (λ error. IsInputRefusal error bytes.now) }
{
    if bytes.len() > GREATEST_JOB {
        return Err(EvalError::TooLarge);
    }
    let expression = expression_in(alloc, bytes)?;
    input_in(alloc, &expression)
}
