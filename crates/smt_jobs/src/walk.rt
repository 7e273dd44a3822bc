#![tactic(auto, using(smt_term::specs::View::views, smt_sexpr::specs::View::views))]
// The walk over the bytes of a job: its parts are read one behind the other, and each expression is let go once it is used.
ghost use Rattle.std.specs.Prelude.{ℕ, List, ◌≡◌, ◌+◌, ◌-◌, ◌^◌, ◌<◌, ◌≤◌, ◌↔◌, ◌++◌, ◌∷◌, [], Err};
ghost use Rattle.std.specs.Prelude.{Ok, IfErr, IfNone, IfOk, IfSome, OnOk};
ghost use Rattle.std.specs.Prelude.{IsErrOf, codes, length, map};
ghost use Rattle.std.specs.Rc.{rc_str_bytes};
ghost use Rattle.law_folding.specs.Built.{built};
ghost use Rattle.law_terms.specs.Plain.{PlainTerm};
ghost use Rattle.smt_term.specs.Enums.{enums_of};
ghost use Rattle.smt_term.specs.View.{plain_term};
ghost use Rattle.law_texts.specs.Reads.{IfRead, IfUnread};
ghost use Rattle.law_texts.specs.Lexicon.{Begin, End, Name, Token, Word};
ghost use Rattle.law_texts.specs.Reading.{Expression, Expressions, brackets, nesting};
ghost use Rattle.law_texts.specs.Tokens.{HasTokens, IsReadWithin, Spans};
ghost use Rattle.smt_sexpr.specs.View.{plain, plain_list};
ghost use Rattle.law_jobs.specs.Declarations.{Declared as Stated, functions_of, variables_of};
ghost use Rattle.law_jobs.specs.Enums.{enums_in};
ghost use Rattle.law_jobs.specs.Jobs as stated;
ghost use Rattle.law_jobs.specs.Jobs.{IsTooLong, greatest_nesting};
ghost use Rattle.law_jobs.specs.Outcomes.{FormFault};
ghost use Rattle.law_jobs.specs.Steps as steps;
ghost use Rattle.law_jobs.specs.Steps.{AssertStep, PlainStep, built_step, built_steps, headed};
ghost use Rattle.law_jobs.specs.Steps.{nothing_more, step_named, steps_of};
ghost use Rattle.law_jobs.specs.Terms.{condition_of, conditions_of};
ghost use Rattle.smt_job_terms.specs.DeclarationView as view;
ghost use Rattle.smt_job_terms.specs.DeclarationView.{HasDeclared, HasFunctions, HasVariables};
ghost use Rattle.smt_job_terms.specs.DeclarationView.{stated_in};
ghost use Rattle.smt_job_terms.specs.ReadAs.{IsFault, IsReadAs};
ghost use Rattle.smt_jobs.specs.Direct.{IsTakenCondition, ReadsOf};
ghost use Rattle.smt_jobs.specs.Refused.{IsFirstFault, IsRefusal};
ghost use Rattle.smt_jobs.specs.StepView.{plain_bare_step, plain_section};
ghost use Rattle.smt_jobs.specs.Walk.{Begins, BeginsInside, Gives, GivesFirst, ReadsInside};
ghost use Rattle.smt_jobs.specs.Walk.{ReadsOne, ReadsSome, Takes, TakesJob, alone};
ghost use Rattle.smt_jobs.specs.Walk.{first_and_others, first_by, named_in, section_in, step_in};

use crate::job::{GREATEST_JOB, GREATEST_NESTING};
use crate::steps::{BareStep, Section};
use smt_job_terms::{
    Declared, Functions, JobError, Variables, condition_from, enums_from, functions_from,
    variables_from,
};
use smt_sexpr::{
    SExpr, SExprParseError, behind_close, behind_open, is_blank, name_in, parse_sexpr_within,
    read_next, section,
};
use smt_term::{EnumTable, Term, TermError, Text};
use smt_text::share_text;
use std::alloc::Global;

/// How many brackets may be open inside those of the job.
const NESTING_IN_JOB: usize = GREATEST_NESTING - 1;

/// How many brackets may be open inside those of its sections.
const NESTING_IN_SECTION: usize = GREATEST_NESTING - 2;

/// How many brackets may be open inside those of a step.
const NESTING_IN_STEP: usize = GREATEST_NESTING - 3;

/// What takes the steps of a job, one by one, and the terms of an assertion before it is ended.
pub trait StepSink {
    /// The steps that it took, in order, each of them complete.
    ghost taken: { Self → List PlainStep };

    /// The terms that it took of the assertion that is not yet ended, in order.
    ghost begun: { Self → List PlainTerm };

    /// Takes one more term of the assertion.
    fn take(&mut self, term: Term) -> Result<(), TermError>
        ensures begun { OnOk result (begun self.new ≡ begun self.old ++ plain_term term ∷ []) }
        ensures taken { OnOk result (taken self.new ≡ taken self.old) };

    /// Reads the Boolean term at the front and takes it, where it knows a shorter way to it than by its expression. Answers what
    /// stands behind the term, or `None` where it knows none, and then it took nothing.
    fn take_next<'t>(
        &mut self,
        alloc: Global,
        declared: &Declared,
        src: &'t [u8],
        depth: usize,
    ) -> Result<Option<&'t [u8]>, TermError>
        ensures read { IfRead result (λ rest.
            ReadsOf (IsTakenCondition declared.now (begun self.old) (begun self.new)) src.now depth
            rest.now) }
        ensures unread { IfUnread result (begun self.new ≡ begun self.old) }
        ensures taken { OnOk result (taken self.new ≡ taken self.old) }
        ensures shorter { IfRead result (λ rest. length rest.now < length src.now) };

    /// Takes the step that asserts the terms that were taken since the last assertion.
    fn end_assertion(&mut self) -> Result<(), TermError>
        ensures taken { OnOk result
            (taken self.new ≡ taken self.old ++ AssertStep (begun self.old) ∷ []) }
        ensures begun { OnOk result (begun self.new ≡ []) };

    /// Takes a step that has no terms.
    fn take_bare(&mut self, step: BareStep) -> Result<(), TermError>
        ensures taken { OnOk result (taken self.new ≡ taken self.old ++ plain_bare_step step ∷ []) }
        ensures begun { OnOk result (begun self.new ≡ begun self.old) };
}

/// The expression at the front of what stands inside brackets, and what stands behind it.
fn next_expression(alloc: Global, src: &[u8], depth: usize) -> Result<(SExpr, &[u8]), JobError>
    ensures read { IfOk result (λ x. Spans src.now (brackets (plain x.0)) x.1.now) }
    ensures shallow { IfOk result (λ x. nesting (plain x.0) ≤ depth) }
    ensures stated { (es : Expressions) (end : List Token) → BeginsInside depth es src.now end →
        Gives (λ x p. (p.0 ≡ plain x.0) × BeginsInside depth p.1 x.1.now end) result
        (first_and_others es) }
    ensures shorter { IfOk result (λ x. length x.1.now < length src.now) }
    ensures form { IfErr result (λ error. IsFault error FormFault) }
{
    let (expression, rest) = read_next(alloc, src, depth)?;
    Ok((expression, rest))
}

/// The name in front of what stands in brackets, and what stands behind the name.
fn read_head(alloc: Global, src: &[u8], depth: usize) -> Result<(Text, &[u8]), JobError>
    requires may_open { 0 < depth }
    ensures read { IfOk result
        (λ x. Spans src.now (Begin ∷ Word (Name (rc_str_bytes x.0)) ∷ []) x.1.now) }
    ensures stated { (e : Expression) (end : List Token) → Begins depth e src.now end →
        Gives (λ x p. (rc_str_bytes x.0 ≡ p.0) × BeginsInside (depth - 1) p.1 x.1.now end) result
        (headed e) }
    ensures shorter { IfOk result (λ x. length x.1.now < length src.now) }
    ensures form { IfErr result (λ error. IsFault error FormFault) }
{
    let Some(inside) = behind_open(src) else {
        return Err(JobError::BadForm);
    };
    let (first, rest) = next_expression(alloc, inside, depth - 1)?;
    let Some(name) = name_in(&first) else {
        return Err(JobError::BadForm);
    };
    Ok((share_text(name)?, rest))
}

/// What stands in the brackets of a job.
fn enter_job(alloc: Global, src: &[u8]) -> Result<&[u8], JobError>
    ensures read { IfOk result
        (λ rest. Spans src.now (Begin ∷ Word (Name (codes "job")) ∷ []) rest.now) }
    ensures stated { (e : Expression) (end : List Token) → Begins greatest_nesting e src.now end →
        Gives (λ rest es. BeginsInside (greatest_nesting - 1) es rest.now end) result
        (stated.section_of (codes "job") e) }
{
    let (name, inside) = read_head(alloc, src, GREATEST_NESTING)?;
    if name.as_str() == "job" {
        Ok(inside)
    } else {
        Err(JobError::BadForm)
    }
}

/// What stands behind this head in brackets.
pub(crate) fn section_of<'e>(head: &str, expression: &'e SExpr) -> Result<&'e [SExpr], JobError>
    ensures { IsReadAs (λ items. plain_list items.now) result
        (stated.section_of head.now (plain expression.now)) }
{
    section(head, expression).ok_or(JobError::BadForm)
}

/// The enum types that the section at the front declares, and what stands behind it.
fn read_enums(alloc: Global, src: &[u8]) -> Result<(EnumTable, &[u8]), JobError>
    ensures read { IfOk result (λ x. ReadsOne src.now (greatest_nesting - 1) x.1.now) }
    ensures stated { GivesFirst enums_of src.now result
        (stated.section_first (codes "enums") enums_in) }
{
    let (section, rest) = next_expression(alloc, src, NESTING_IN_JOB)?;
    let enums = enums_from(alloc, section_of("enums", &section)?)?;
    Ok((enums, rest))
}

/// The variables that the section at the front declares, and what stands behind it.
fn read_variables(alloc: Global, src: &[u8]) -> Result<(Variables, &[u8]), JobError>
    ensures read { IfOk result (λ x. ReadsOne src.now (greatest_nesting - 1) x.1.now) }
    ensures stated { GivesFirst (λ v. view.declarations v.vars) src.now result
        (stated.section_first (codes "vars") variables_of) }
    ensures declares { IfOk result (λ x. HasVariables x.0 (view.declarations x.0.vars)) }
{
    let (section, rest) = next_expression(alloc, src, NESTING_IN_JOB)?;
    let variables = variables_from(alloc, section_of("vars", &section)?)?;
    Ok((variables, rest))
}

/// The functions that the section at the front declares, and what stands behind it.
fn read_functions(alloc: Global, src: &[u8]) -> Result<(Functions, &[u8]), JobError>
    ensures read { IfOk result (λ x. ReadsOne src.now (greatest_nesting - 1) x.1.now) }
    ensures stated { GivesFirst (λ f. view.functions f.funs) src.now result
        (stated.section_first (codes "funs") functions_of) }
    ensures declares { IfOk result (λ x. HasFunctions x.0 (view.functions x.0.funs)) }
{
    let (section, rest) = next_expression(alloc, src, NESTING_IN_JOB)?;
    let functions = functions_from(alloc, section_of("funs", &section)?)?;
    Ok((functions, rest))
}

/// The enum types, variables and functions that a job declares, and what stands behind the declarations. Each section is read
/// before the next, so the first fault from the left is told, also where a section is missing behind it.
fn read_declarations(alloc: Global, src: &[u8]) -> Result<(Declared, &[u8]), JobError>
    ensures read { IfOk result (λ x. ReadsSome src.now (greatest_nesting - 1) x.1.now) }
    ensures stated { GivesFirst stated_in src.now result stated.declared_first }
    ensures declares { IfOk result (λ x. HasDeclared x.0 (stated_in x.0)) }
{
    let (enums, rest) = read_enums(alloc, src)?;
    let (variables, rest) = read_variables(alloc, rest)?;
    let (functions, rest) = read_functions(alloc, rest)?;
    Ok((
        Declared {
            enums,
            variables,
            functions,
        },
        rest,
    ))
}

/// Gives the Boolean term at the front to `out`, as it is built, and answers what stands behind it.
fn take_term<'t, T: StepSink>(
    alloc: Global,
    declared: &Declared,
    src: &'t [u8],
    depth: usize,
    out: &mut T,
) -> Result<&'t [u8], JobError>
    ensures read { IfOk result
        (λ rest. (e : Expression) × Spans src.now (brackets e) rest.now × (nesting e ≤ depth)) }
    ensures stated { (ds : Stated) → HasDeclared declared.now ds →
        (es : Expressions) (end : List Token) → BeginsInside depth es src.now end →
        Gives (λ rest p.
        (T.begun out.new ≡ T.begun out.old ++ built p.0 ∷ []) × BeginsInside depth p.1 rest.now end)
        result (first_by (condition_of ds) es) }
    ensures taken { OnOk result (T.taken out.new ≡ T.taken out.old) }
    ensures shorter { IfOk result (λ rest. length rest.now < length src.now) }
{
    if let Some(rest) = out.take_next(alloc, declared, src, depth)? {
        return Ok(rest);
    }
    let (expression, rest) = next_expression(alloc, src, depth)?;
    out.take(condition_from(alloc, declared, &expression)?)?;
    Ok(rest)
}

/// Gives the Boolean terms up to the closing bracket to `out`, each as it is built, and answers what stands behind it.
fn take_terms<'t, T: StepSink>(
    alloc: Global,
    declared: &Declared,
    src: &'t [u8],
    depth: usize,
    out: &mut T,
) -> Result<&'t [u8], JobError>
    ensures read { IfOk result (λ rest. ReadsInside src.now depth rest.now) }
    ensures stated { (ds : Stated) → HasDeclared declared.now ds →
        (es : Expressions) (end : List Token) → BeginsInside depth es src.now end →
        Gives (λ rest written.
        HasTokens rest.now end × (T.begun out.new ≡ T.begun out.old ++ map built written))
        result (conditions_of ds es) }
    ensures taken { OnOk result (T.taken out.new ≡ T.taken out.old) }
    ensures shorter { IfOk result (λ rest. length rest.now < length src.now) }
{
    let mut rest = src;
    loop {
        if let Some(after) = behind_close(rest) {
            return Ok(after);
        }
        let after = take_term(alloc, declared, rest, depth, out)?;
        rest = after;
    }
}

/// Gives the step that asserts the terms up to the closing bracket to `out`, and answers what stands behind it.
fn take_assertion<'t, T: StepSink>(
    alloc: Global,
    declared: &Declared,
    src: &'t [u8],
    depth: usize,
    out: &mut T,
) -> Result<&'t [u8], JobError>
    requires idle { T.begun out.old ≡ [] }
    ensures read { IfOk result (λ rest. ReadsInside src.now depth rest.now) }
    ensures stated { (ds : Stated) → HasDeclared declared.now ds →
        (es : Expressions) (end : List Token) → BeginsInside depth es src.now end →
        Gives (λ rest written.
        HasTokens rest.now end
        × (T.taken out.new ≡ T.taken out.old ++ AssertStep (map built written) ∷ []))
        result (conditions_of ds es) }
    ensures idle { OnOk result (T.begun out.new ≡ []) }
    ensures shorter { IfOk result (λ rest. length rest.now < length src.now) }
{
    let rest = take_terms(alloc, declared, src, depth, out)?;
    out.end_assertion()?;
    Ok(rest)
}

/// The step without terms of this name.
pub(crate) fn bare_named(name: &str) -> Option<BareStep>
    ensures found { IfSome result (λ step.
        (ds : Stated) (es : Expressions) →
        step_named ds name.now es ≡ alone (plain_bare_step step) es) }
    ensures none { IfNone result ((ds : Stated) (es : Expressions) →
        (name.now ≡ codes "assert" → ⊥) → step_named ds name.now es ≡ Err FormFault) }
{
    match name {
        "push" => Some(BareStep::Push),
        "pop" => Some(BareStep::Pop),
        "check" => Some(BareStep::Check),
        _ => None,
    }
}

/// How many levels are open behind a step without terms, where so many were open before it.
fn levels_behind(levels: usize, step: BareStep) -> Result<usize, JobError>
    requires few { levels + 1 < 2 ^ 64 }
    ensures stated { IsReadAs (λ n. n) result (steps.levels_behind levels (plain_bare_step step)) }
    ensures most { IfOk result (λ n. n ≤ levels + 1) }
{
    match step {
        BareStep::Push => Ok(levels + 1),
        BareStep::Pop => levels.checked_sub(1).ok_or(JobError::Unbalanced),
        BareStep::Check => Ok(levels),
    }
}

/// What stands behind the closing bracket at the front.
fn close(src: &[u8]) -> Result<&[u8], JobError>
    ensures read { IfOk result (λ rest. Spans src.now (End ∷ []) rest.now) }
    ensures stated { (depth : ℕ) (es : Expressions) (end : List Token) →
        BeginsInside depth es src.now end →
        Gives (λ rest u. HasTokens rest.now end) result (nothing_more es) }
    ensures shorter { IfOk result (λ rest. length rest.now < length src.now) }
{
    let Some(after) = behind_close(src) else {
        return Err(JobError::BadForm);
    };
    Ok(after)
}

/// Gives the step without terms of this name to `out`, where nothing stands behind the name. Answers as `take_step` does.
fn take_bare_step<'t, T: StepSink>(
    src: &'t [u8],
    name: &str,
    levels: usize,
    out: &mut T,
) -> Result<(&'t [u8], usize), JobError>
    requires few { levels + 1 < 2 ^ 64 }
    requires other { name.now ≡ codes "assert" → ⊥ }
    ensures read { IfOk result (λ x. ReadsInside src.now (greatest_nesting - 3) x.0.now) }
    ensures stated { (ds : Stated) (es : Expressions) (end : List Token) →
        BeginsInside (greatest_nesting - 3) es src.now end →
        Gives (λ x p.
        (x.1 ≡ p.1) × (T.taken out.new ≡ T.taken out.old ++ built_step p.0 ∷ [])
        × HasTokens x.0.now end)
        result (named_in ds levels name.now es) }
    ensures begun { OnOk result (T.begun out.new ≡ T.begun out.old) }
    ensures shorter { IfOk result (λ x. length x.0.now < length src.now) }
    ensures most { IfOk result (λ x. x.1 ≤ levels + 1) }
{
    let Some(step) = bare_named(name) else {
        return Err(JobError::BadForm);
    };
    let rest = close(src)?;
    let levels = levels_behind(levels, step)?;
    out.take_bare(step)?;
    Ok((rest, levels))
}

/// Gives the step at the front to `out`. Answers what stands behind the step, and how many levels are open there, where so many
/// were open before it.
fn take_step<'t, T: StepSink>(
    alloc: Global,
    declared: &Declared,
    src: &'t [u8],
    levels: usize,
    out: &mut T,
) -> Result<(&'t [u8], usize), JobError>
    requires few { levels + 1 < 2 ^ 64 }
    requires idle { T.begun out.old ≡ [] }
    ensures read { IfOk result (λ x. ReadsOne src.now (greatest_nesting - 2) x.0.now) }
    ensures stated { (ds : Stated) → HasDeclared declared.now ds →
        (es : Expressions) (end : List Token) → BeginsInside (greatest_nesting - 2) es src.now end →
        Gives (λ x p.
        (x.1 ≡ p.0.1) × (T.taken out.new ≡ T.taken out.old ++ built_step p.0.0 ∷ [])
        × BeginsInside (greatest_nesting - 2) p.1 x.0.now end)
        result (first_by (step_in ds levels) es) }
    ensures idle { OnOk result (T.begun out.new ≡ []) }
    ensures shorter { IfOk result (λ x. length x.0.now < length src.now) }
    ensures most { IfOk result (λ x. x.1 ≤ levels + 1) }
{
    let (name, inside) = read_head(alloc, src, NESTING_IN_SECTION)?;
    if name.as_str() == "assert" {
        let rest = take_assertion(alloc, declared, inside, NESTING_IN_STEP, out)?;
        Ok((rest, levels))
    } else {
        let (rest, levels) = take_bare_step(inside, name.as_str(), levels, out)?;
        Ok((rest, levels))
    }
}

/// Gives the steps up to the closing bracket to `out`, and answers what stands behind it.
fn take_steps<'t, T: StepSink>(
    alloc: Global,
    declared: &Declared,
    src: &'t [u8],
    out: &mut T,
) -> Result<&'t [u8], JobError>
    requires idle { T.begun out.old ≡ [] }
    ensures read { IfOk result (λ rest. ReadsInside src.now (greatest_nesting - 2) rest.now) }
    ensures stated { (ds : Stated) → HasDeclared declared.now ds →
        (es : Expressions) (end : List Token) → BeginsInside (greatest_nesting - 2) es src.now end →
        Gives (λ rest written.
        HasTokens rest.now end × (T.taken out.new ≡ T.taken out.old ++ built_steps written))
        result (steps_of ds 0 es) }
    ensures idle { OnOk result (T.begun out.new ≡ []) }
{
    let mut rest = src;
    let mut levels = 0;
    loop {
        if let Some(after) = behind_close(rest) {
            return Ok(after);
        }
        let (after, open) = take_step(alloc, declared, rest, levels, out)?;
        rest = after;
        levels = open;
    }
}

/// Gives the steps of the section at the front to `out`. Answers what stands behind the section, and which it is.
fn take_section<'t, T: StepSink>(
    alloc: Global,
    declared: &Declared,
    src: &'t [u8],
    out: &mut T,
) -> Result<(&'t [u8], Section), JobError>
    requires idle { T.begun out.old ≡ [] }
    ensures read { IfOk result (λ x. ReadsOne src.now (greatest_nesting - 1) x.0.now) }
    ensures stated { (ds : Stated) → HasDeclared declared.now ds →
        (es : Expressions) (end : List Token) → BeginsInside (greatest_nesting - 1) es src.now end →
        Gives (λ x p.
        (plain_section x.1 ≡ p.0.0) × (T.taken out.new ≡ T.taken out.old ++ built_steps p.0.1)
        × BeginsInside (greatest_nesting - 1) p.1 x.0.now end)
        result (first_by (section_in ds) es) }
    ensures idle { OnOk result (T.begun out.new ≡ []) }
{
    let (name, inside) = read_head(alloc, src, NESTING_IN_JOB)?;
    match name.as_str() {
        "terms" => {
            let rest = take_assertion(alloc, declared, inside, NESTING_IN_SECTION, out)?;
            Ok((rest, Section::Terms))
        }
        "steps" => {
            let rest = take_steps(alloc, declared, inside, out)?;
            Ok((rest, Section::Steps))
        }
        _ => Err(JobError::BadForm),
    }
}

/// Refuses what stands behind the closing bracket of a job, and where it does not close.
fn finish(src: &[u8]) -> Result<(), JobError>
    ensures read { IfOk result (λ u. HasTokens src.now (End ∷ [])) }
    ensures stated { (es : Expressions) → BeginsInside (greatest_nesting - 1) es src.now [] →
        IsReadAs (λ u. tt) result (nothing_more es) }
{
    let Some(after) = behind_close(src) else {
        return Err(JobError::BadForm);
    };
    if is_blank(after) {
        Ok(())
    } else {
        Err(JobError::BadForm)
    }
}

/// The declarations of a job, and the section that gives its steps. These go to `out`.
fn walk_sections<T: StepSink>(
    alloc: Global,
    src: &[u8],
    out: &mut T,
) -> Result<(Declared, Section), JobError>
    requires idle { T.begun out.old ≡ [] }
    ensures read { IfOk result (λ x. (e : Expression) × IsReadWithin src.now greatest_nesting e) }
    ensures stated { (e : Expression) → IsReadWithin src.now greatest_nesting e →
        Gives
        (λ x job. Takes (stated_in x.0) (plain_section x.1) (T.taken out.old) (T.taken out.new) job)
        result (stated.job_of e) }
{
    let inside = enter_job(alloc, src)?;
    let (declared, rest) = read_declarations(alloc, inside)?;
    let (rest, section) = take_section(alloc, &declared, rest, out)?;
    finish(rest)?;
    Ok((declared, section))
}

/// Why the text is no expression, where it is none, or else the fault in it.
fn first_fault(alloc: Global, bytes: &[u8], fault: JobError) -> JobError
    ensures { IsFirstFault bytes.now fault result }
{
    match parse_sexpr_within(alloc, bytes, GREATEST_NESTING) {
        Ok(_) => fault,
        Err(SExprParseError::TooDeep) => JobError::TooDeep,
        Err(SExprParseError::Memory) => JobError::Memory,
        Err(unreadable) => JobError::Parse(unreadable),
    }
}

/// The declarations of a job, and the section that gives its steps. These go to `out`, each term as it is built, and its expression
/// is let go before the next is read. On an error `out` may have taken steps. Only then the whole text is read as one expression,
/// since a fault of the text behind a fault of the job comes first.
///
/// # Errors
///
/// As of `read_job`. `Memory` comes where `out` has none, too.
pub(crate) fn walk_job<T: StepSink>(
    alloc: Global,
    bytes: &[u8],
    out: &mut T,
) -> Result<(Declared, Section), JobError>
    requires idle { T.begun out.old ≡ [] }
    ensures job { IfOk result (λ x.
        TakesJob bytes.now (stated_in x.0) (plain_section x.1) (T.taken out.old)
        (T.taken out.new)) }
    ensures too_large { IsErrOf result JobError.TooLarge ↔ IsTooLong bytes.now }
    ensures refused { IfErr result (λ error. IsRefusal error bytes.now) }
{
    if bytes.len() > GREATEST_JOB {
        return Err(JobError::TooLarge);
    }
    match walk_sections(alloc, bytes, out) {
        Ok(walked) => Ok(walked),
        Err(fault) => Err(first_fault(alloc, bytes, fault)),
    }
}
