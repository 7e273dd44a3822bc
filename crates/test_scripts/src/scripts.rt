//! Scripts of rows, by their terms and by numbers that stand for these.
ghost use Rattle.std.specs.Prelude.{◌≡◌, ◌<◌};

use crate::words::Row;
use anyhow::Result;
use smt_encode::{EncodeError, Encoder, Steps};
use smt_nodes::Interner;
use smt_script::ListSink;
use smt_term::TermType;
use smt_text::quote_id;
use std::alloc::Global;
use std::io::Write;
use std::marker::Brand;
use std::sync::ledger::{Blank, Ledger};
use test_words::spelling_of;

/// What an encoder answered, and what its sink then holds.
#[derive(Drop)]
struct Script {
    outcome: Result<(), EncodeError>,
    /// Whether it answers a second call, of no terms, that it is spent where it refused, and else by Ok.
    stays: bool,
    sink: ListSink,
}

/// Whether a further call, of no terms, is answered as it should be behind this outcome.
fn stays(answer: Result<(), EncodeError>, outcome: &Result<(), EncodeError>) -> bool {
    match outcome {
        Ok(()) => answer == Ok(()),
        Err(_) => answer == Err(EncodeError::Spent),
    }
}

/// The script of a row's terms.
fn by_terms(alloc: Global, row: &Row) -> Script {
    let mut encoder = Encoder::new(alloc, &row.enums, ListSink::new(alloc));
    let outcome = encoder.encode(row.terms.as_slice());
    let stays = stays(encoder.encode(&[]), &outcome);
    Script {
        outcome,
        stays,
        sink: encoder.into_script(),
    }
}

/// The same by numbers, with the look-ups counted by a ledger of its own. The terms are entered from the last one to the
/// first before their numbers are taken, so that the numbers are in another order than by `encode`.
fn by_numbers<L: Ledger>(alloc: Global, row: &Row, blank: Blank) -> Result<Script>
    requires name { blank.name ≡ L.name }
    requires parts { blank.parts ≡ L.parts }
    requires some { 0 < blank.parts }
{
    let mut nodes = Interner::new(alloc);
    for term in row.terms.as_slice().iter().rev() {
        nodes.intern(term)?;
    }
    let ids = nodes.intern_terms(row.terms.as_slice())?;
    let mut encoder = Encoder::with_nodes(alloc, &row.enums, nodes, ListSink::new(alloc));
    let mut steps = Steps::<L>::new(blank);
    let outcome = encoder.encode_nodes(ids.as_slice(), &mut steps);
    let stays = stays(encoder.encode(&[]), &outcome);
    Ok(Script {
        outcome,
        stays,
        sink: encoder.into_script(),
    })
}

/// What a refusal names, on one line where the name of a type has one line.
fn refusal(alloc: Global, error: &EncodeError) -> Result<String> {
    Ok(match error {
        EncodeError::EnumMissingMember(entity) => {
            let ety = entity.ety.0.as_str();
            let id = quote_id(alloc, entity.id.0.as_str())?;
            format!(in alloc; "EnumMissingMember {ety}::{id}")?
        }
        EncodeError::EmptyEnum(ety) => {
            let ety = ety.0.as_str();
            format!(in alloc; "EmptyEnum {ety}")?
        }
        EncodeError::EncodeStringFailed(text) => {
            let text = quote_id(alloc, text.as_str())?;
            format!(in alloc; "EncodeStringFailed {text}")?
        }
        EncodeError::EncodePatternFailed(pattern) => {
            let pattern = quote_id(alloc, spelling_of(alloc, pattern)?.as_str())?;
            format!(in alloc; "EncodePatternFailed {pattern}")?
        }
        EncodeError::RecordMissingAttr(name) => {
            let name = quote_id(alloc, name.as_str())?;
            format!(in alloc; "RecordMissingAttr {name}")?
        }
        EncodeError::ExpectRecord(TermType::Entity { ety }) => {
            let ety = ety.0.as_str();
            format!(in alloc; "ExpectRecord {ety}")?
        }
        _ => format!(in alloc; "{error}")?,
    })
}

/// Prints the bytes of a script, behind them why it has no more, and whether the encoder answers a further call otherwise.
fn print(alloc: Global, printer: &mut (impl Write + Drop), script: &Script) -> Result<()> {
    printer.write_all(script.sink.bytes())?;
    if let Err(error) = &script.outcome {
        let refusal = refusal(alloc, error)?;
        writeln!(printer, "refused: {refusal}")?;
    }
    if !script.stays {
        writeln!(printer, "but a further call is answered otherwise")?;
    }
    Ok(())
}

/// Prints the script of a row, and the one by numbers too where it is another.
pub(crate) fn show(alloc: Global, printer: &mut (impl Write + Drop), row: &Row) -> Result<()> {
    let script = by_terms(alloc, row);
    print(alloc, printer, &script)?;
    let numbered = by_numbers::<Brand>(alloc, row, Blank::new(1))?;
    if numbered.outcome != script.outcome || numbered.sink.bytes() != script.sink.bytes() {
        writeln!(printer, "but by numbers:")?;
        print(alloc, printer, &numbered)?;
    }
    Ok(())
}
