#![tactic(auto, using(smt_term::specs::View::views, smt_sexpr::specs::View::views))]
// A job, and single terms of its language, of expressions that are read already.
ghost use Rattle.std.specs.Prelude.{ℕ, ◌≡◌, ◌+◌, ◌^◌, ◌<◌, ◌≤◌, ◌∷◌, [], Ok, IfErr, IfOk, codes};
ghost use Rattle.std.specs.Prelude.{map};
ghost use Rattle.std.specs.Rc.{rc_str_bytes};
ghost use Rattle.law_folding.specs.Built.{built};
ghost use Rattle.law_texts.specs.Reading.{Expressions};
ghost use Rattle.smt_sexpr.specs.View.{plain, plain_list};
ghost use Rattle.smt_term.specs.View.{plain_items, plain_term};
ghost use Rattle.law_jobs.specs.Declarations.{Declared as Stated};
ghost use Rattle.law_jobs.specs.Jobs as jobs;
ghost use Rattle.law_jobs.specs.Jobs.{built_job, declarations_of};
ghost use Rattle.law_jobs.specs.Outcomes.{mapped};
ghost use Rattle.law_jobs.specs.Steps as stated;
ghost use Rattle.law_jobs.specs.Steps.{AssertStep, built_step, built_steps};
ghost use Rattle.law_jobs.specs.Terms.{conditions_of, term_of};
ghost use Rattle.smt_job_terms.specs.DeclarationView.{HasDeclared, stated_in};
ghost use Rattle.smt_job_terms.specs.ReadAs.{IsReadAs};
ghost use Rattle.smt_jobs.specs.JobView.{plain_job};
ghost use Rattle.smt_jobs.specs.StepView.{plain_bare_step, plain_step, plain_steps};
ghost use Rattle.smt_jobs.specs.Walk.{first_and_others, section_in};

use crate::job::Job;
use crate::steps::{BareStep, Step, StepList};
use crate::walk::{bare_named, section_of};
use smt_job_terms::{
    Declared, JobError, condition_from, enums_from, functions_from, term_from, variables_from,
};
use smt_sexpr::{SExpr, inside_of, name_in};
use smt_term::{Term, TermError, TermList, Text};
use std::alloc::Global;

/// The first of some expressions, and the others.
fn first_apart(items: &[SExpr]) -> Result<(&SExpr, &[SExpr]), JobError>
    ensures { IsReadAs (λ p. (plain p.0.now, plain_list p.1.now)) result
        (first_and_others (plain_list items.now)) }
{
    items.split_first().ok_or(JobError::BadForm)
}

/// The name in front of what stands in brackets, and what stands behind it.
fn head_from(expression: &SExpr) -> Result<(&Text, &[SExpr]), JobError>
    ensures { IsReadAs (λ p. (rc_str_bytes p.0.now, plain_list p.1.now)) result
        (stated.headed (plain expression.now)) }
{
    let inside = inside_of(expression).ok_or(JobError::BadForm)?;
    let (first, others) = first_apart(inside)?;
    let name = name_in(first).ok_or(JobError::BadForm)?;
    Ok((name, others))
}

/// What stands in the first of some expressions behind this head, and the other expressions.
fn section_first<'e>(head: &str, items: &'e [SExpr]) -> Result<(&'e [SExpr], &'e [SExpr]), JobError>
    ensures { IsReadAs (λ p. (plain_list p.0.now, plain_list p.1.now)) result
        (jobs.section_first head.now (λ es. Ok es) (plain_list items.now)) }
{
    let (section, others) = first_apart(items)?;
    let inside = section_of(head, section)?;
    Ok((inside, others))
}

/// The enum types, variables and functions of the first three sections, and the sections behind them.
fn declarations_from(alloc: Global, items: &[SExpr]) -> Result<(Declared, &[SExpr]), JobError>
    ensures stated { IsReadAs (λ x. (stated_in x.0, plain_list x.1.now)) result
        (jobs.declared_first (plain_list items.now)) }
    ensures declares { IfOk result (λ x. HasDeclared x.0 (stated_in x.0)) }
{
    let (section, items) = section_first("enums", items)?;
    let enums = enums_from(alloc, section)?;
    let (section, items) = section_first("vars", items)?;
    let variables = variables_from(alloc, section)?;
    let (section, items) = section_first("funs", items)?;
    let functions = functions_from(alloc, section)?;
    Ok((
        Declared {
            enums,
            variables,
            functions,
        },
        items,
    ))
}

/// The Boolean terms that expressions state, as they are built.
fn conditions_from(
    alloc: Global,
    declared: &Declared,
    items: &[SExpr],
) -> Result<TermList, JobError>
    ensures { (ds : Stated) → HasDeclared declared.now ds →
        IsReadAs plain_items result (mapped (map built) (conditions_of ds (plain_list items.now))) }
{
    let mut terms = Vec::new(alloc);
    for item in items {
        terms.push(condition_from(alloc, declared, item)?)?;
    }
    Ok(TermList::new(alloc, terms.as_slice())?)
}

/// Refuses what stands behind the last expression that is wanted.
fn nothing_more(items: &[SExpr]) -> Result<(), JobError>
    ensures { IsReadAs (λ u. tt) result (stated.nothing_more (plain_list items.now)) }
{
    if items.is_empty() {
        Ok(())
    } else {
        Err(JobError::BadForm)
    }
}

/// The step without terms of this name, behind which nothing may stand.
fn bare_step_from(name: &str, items: &[SExpr]) -> Result<BareStep, JobError>
    requires other { name.now ≡ codes "assert" → ⊥ }
    ensures { (ds : Stated) →
        IsReadAs plain_bare_step result (stated.step_named ds name.now (plain_list items.now)) }
{
    let Some(step) = bare_named(name) else {
        return Err(JobError::BadForm);
    };
    nothing_more(items)?;
    Ok(step)
}

/// The step that an expression states, its terms as they are built.
fn step_from(alloc: Global, declared: &Declared, expression: &SExpr) -> Result<Step, JobError>
    ensures { (ds : Stated) → HasDeclared declared.now ds →
        IsReadAs plain_step result (mapped built_step (stated.step_of ds (plain expression.now))) }
{
    let (name, items) = head_from(expression)?;
    if name.as_str() == "assert" {
        Ok(Step::Assert(conditions_from(alloc, declared, items)?))
    } else {
        Ok(Step::from(bare_step_from(name.as_str(), items)?))
    }
}

/// How many levels are open behind a step, where so many were open before it.
fn levels_after(levels: usize, step: &Step) -> Result<usize, JobError>
    requires few { levels + 1 < 2 ^ 64 }
    ensures stated { IsReadAs (λ n. n) result (stated.levels_behind levels (plain_step step.now)) }
    ensures most { IfOk result (λ n. n ≤ levels + 1) }
{
    match step {
        Step::Push => Ok(levels + 1),
        Step::Pop => levels.checked_sub(1).ok_or(JobError::Unbalanced),
        Step::Assert(_) | Step::Check => Ok(levels),
    }
}

/// The steps that expressions state, in order.
fn steps_from(alloc: Global, declared: &Declared, items: &[SExpr]) -> Result<StepList, JobError>
    ensures { (ds : Stated) → HasDeclared declared.now ds →
        IsReadAs plain_steps result
        (mapped built_steps (stated.steps_of ds 0 (plain_list items.now))) }
{
    let mut steps = StepList::new(alloc);
    let mut levels = 0;
    for item in items {
        let step = step_from(alloc, declared, item)?;
        levels = levels_after(levels, &step)?;
        steps.push(step)?;
    }
    Ok(steps)
}

/// One step alone: the assertion of these terms.
fn one_assertion(alloc: Global, terms: TermList) -> Result<StepList, TermError>
    ensures { IfOk result (λ steps. plain_steps steps ≡ AssertStep (plain_items terms) ∷ []) }
{
    let mut steps = StepList::new(alloc);
    steps.push(Step::Assert(terms))?;
    Ok(steps)
}

/// The steps of the section that an expression states.
fn section_from(alloc: Global, declared: &Declared, section: &SExpr) -> Result<StepList, JobError>
    ensures { (ds : Stated) → HasDeclared declared.now ds →
        IsReadAs plain_steps result
        (mapped (λ x. built_steps x.1) (section_in ds (plain section.now))) }
{
    let (name, items) = head_from(section)?;
    match name.as_str() {
        "terms" => {
            let terms = conditions_from(alloc, declared, items)?;
            Ok(one_assertion(alloc, terms)?)
        }
        "steps" => steps_from(alloc, declared, items),
        _ => Err(JobError::BadForm),
    }
}

/// The steps of the last section, behind which nothing may stand.
fn last_from(alloc: Global, declared: &Declared, items: &[SExpr]) -> Result<StepList, JobError>
    ensures { (ds : Stated) → HasDeclared declared.now ds →
        IsReadAs plain_steps result
        (mapped (λ x. built_steps x.1) (jobs.steps_last ds (plain_list items.now))) }
{
    let (last, others) = first_apart(items)?;
    let steps = section_from(alloc, declared, last)?;
    nothing_more(others)?;
    Ok(steps)
}

/// The job that an expression states. Its terms are built, as `read_job` builds them.
///
/// # Errors
///
/// The first fault of an expression that states no job, as [`JobError`] orders them: it is none of `TooLarge`, `Parse` and
/// `TooDeep`. `Memory` comes where there is no memory for the job.
pub fn read_job_expr(alloc: Global, e: &SExpr) -> Result<Job, JobError>
    ensures { IsReadAs plain_job result (mapped (λ x. built_job x.1) (jobs.job_of (plain e.now))) }
{
    let sections = section_of("job", e)?;
    let (declared, sections) = declarations_from(alloc, sections)?;
    let steps = last_from(alloc, &declared, sections)?;
    let Declared {
        enums,
        variables,
        functions,
    } = declared;
    Ok(Job {
        enums,
        vars: variables.vars,
        funs: functions.funs,
        steps,
    })
}

/// The term that an expression states over what a job declares, as it is built. Of declarations with one id the first counts.
///
/// # Errors
///
/// The first fault of an expression that states no term, as [`JobError`] orders those of a term. `Memory`, where there is none for
/// the term.
pub fn read_term_expr(alloc: Global, job: &Job, e: &SExpr) -> Result<Term, JobError>
    ensures stated { IsReadAs plain_term result
        (mapped built (term_of (declarations_of (plain_job job.now)) (plain e.now))) }
    ensures never_no_boolean { IfErr result (λ error. error ≡ JobError.NotBool → ⊥) }
{
    let declared = job.declared(alloc)?;
    term_from(alloc, &declared, e)
}
