// What the scripts of generated jobs have.
ghost use Rattle.std.specs.Prelude.{[], ◌≡◌, ◌<◌, ◌≤◌, IfErr, IfOk, IsErrOf, IsOkUnless, None};
ghost use Rattle.std.specs.Prelude.{OnOk, is_some};
ghost use Rattle.std.specs.Io.KnownBytes.{append_known};
ghost use Rattle.law_terms.specs.Faults.{first_fault};
ghost use Rattle.smt_term.specs.View.{plain_term};
ghost use Rattle.law_lines.specs.NameTables.{Tables, name_of_term};
ghost use Rattle.smt_script.specs.Count.{count_bytes};
ghost use Rattle.smt_script.specs.Sink.{Rose};
ghost use Rattle.smt_job_terms.specs.DeclarationView.{declarations, plain_declaration};
ghost use Rattle.smt_jobs.specs.Numbered.{terms_begun};
ghost use Rattle.smt_encode.specs.Encoded.{sink_of, HasNames};
ghost use Rattle.smt_cli.specs.Jobs.{job_generated, job_of_terms};
ghost use Rattle.smt_runs.specs.Runs.{IsPutRefusal};
ghost use Rattle.smt_cli.specs.Generation as generation;
ghost use Rattle.smt_cli.specs.Generation.{declared_among, summary_by, summary_of, summary_text};

use crate::generate::{GeneratedJob, generated_job};
use crate::summary::Summary;
use smt_encode::{EncodeError, Encoder, Steps};
use smt_job_terms::VarList;
use smt_jobs::NumberedSteps;
use smt_runs::Refusal;
use smt_script::{CountSink, Sink};
use smt_term::{EnumTable, Term, TermError, TermVar};
use std::alloc::Global;
use std::marker::Brand;
use std::sync::ledger::{Blank, Ledger};

/// Whether a term has a name.
fn is_named(encoder: &Encoder<'_, CountSink>, term: &Term) -> bool
    ensures { (s : Tables) → HasNames encoder.now s →
        result ≡ is_some (name_of_term s (plain_term term.now)) }
{
    encoder.name_of_term(term).is_some()
}

/// Whether a variable has a name.
fn is_declared(encoder: &Encoder<'_, CountSink>, variable: &TermVar) -> Result<bool, TermError>
    ensures { (s : Tables) → HasNames encoder.now s →
        IfOk result
        (λ declared. declared ≡ generation.is_declared s (plain_declaration variable.now)) }
{
    let term = Term::from(variable.share()?);
    Ok(is_named(encoder, &term))
}

/// How many of these variables have names.
fn declared_among(encoder: &Encoder<'_, CountSink>, variables: &VarList) -> Result<usize, TermError>
    ensures { (s : Tables) → HasNames encoder.now s →
        IfOk result (λ count. count ≡ declared_among s (declarations variables.now)) }
{
    let mut count: usize = 0;
    for variable in variables.items() {
        if is_declared(encoder, variable)? {
            count += 1;
        }
    }
    Ok(count)
}

/// What the script has that an encoder wrote of so many terms, over these variables.
fn summarized(
    encoder: Encoder<'_, CountSink>,
    variables: &VarList,
    terms: usize,
) -> Result<Summary, TermError>
    ensures { (s : Tables) → HasNames encoder.entry s →
        IfOk result (λ summary.
        summary
        ≡ summary_by (count_bytes (sink_of encoder.entry)) s (declarations variables.now) terms) }
{
    let declared = declared_among(&encoder, variables)?;
    let named = encoder.term_count();
    let script = encoder.into_script();
    Ok(Summary {
        terms,
        variables: declared,
        definitions: named.saturating_sub(declared),
        assertions: terms,
        bytes: script.bytes(),
        sum: script.sum(),
    })
}

/// Encodes the terms of a job onto a sink that counts, and counts the look-ups by a ledger of its own.
fn count_script<L: Ledger>(
    alloc: Global,
    job: GeneratedJob,
    blank: Blank,
) -> Result<Summary, EncodeError>
    requires name { blank.name ≡ L.name }
    requires parts { blank.parts ≡ L.parts }
    requires some { 0 < blank.parts }
    ensures summary { IfOk result (λ summary.
        summary ≡ summary_of (job_of_terms (declarations job.vars) (terms_begun job.terms))) }
    ensures refused { first_fault [] (terms_begun job.terms) ≡ None →
        IsOkUnless result EncodeError.Memory }
{
    let GeneratedJob { vars, terms } = job;
    let NumberedSteps { nodes, begun, .. } = terms;
    let enums = EnumTable::new(alloc);
    let mut look_ups = Steps::<L>::new(blank);
    let mut encoder = Encoder::with_nodes(alloc, &enums, nodes, CountSink::new());
    encoder.encode_nodes(begun.as_slice(), &mut look_ups)?;
    Ok(summarized(encoder, &vars, begun.len())?)
}

/// Want of memory, as calls that make terms say it.
fn want_of_memory(error: EncodeError) -> TermError
    requires { error ≡ EncodeError.Memory }
{
    match error {
        EncodeError::Memory => TermError::Memory,
        _ => unreachable!(),
    }
}

/// What the script of a generated job has. No line of it is kept.
fn generated_summary(alloc: Global, seed: u64, count: u32) -> Result<Summary, TermError>
    ensures { IfOk result (λ summary. summary ≡ summary_of (job_generated seed count)) }
{
    let job = generated_job(alloc, seed, count)?;
    match count_script::<Brand>(alloc, job, Blank::new(1)) {
        Ok(summary) => Ok(summary),
        // The terms have no fault, the sink never fails, and the encoder was a new one.
        Err(error) => Err(want_of_memory(error)),
    }
}

/// Puts the summary of a generated job.
pub(crate) fn put_summary<W: Sink>(
    alloc: Global,
    seed: u64,
    count: u32,
    out: &mut W,
) -> Result<(), Refusal>
    ensures done { OnOk result
        (W.contents out.new ≡ append_known (W.contents out.old) (summary_text seed count)) }
    ensures known { IfErr result IsPutRefusal }
    ensures failed { IsErrOf result Refusal.Sink → Rose (W.faults out.old) (W.faults out.new) }
    ensures later { W.faults out.old ≤ W.faults out.new }
{
    let Ok(summary) = generated_summary(alloc, seed, count) else {
        return Err(Refusal::Memory);
    };
    let Ok(text) = summary.text(alloc) else {
        return Err(Refusal::Memory);
    };
    Ok(out.put(text.as_bytes())?)
}
