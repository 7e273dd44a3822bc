// The script of blasted terms.
ghost use Rattle.std.specs.Prelude.{◌≡◌, ◌<◌, ◌≤◌, [], IfErr, List, None, OnOk};
ghost use Rattle.std.specs.Io.KnownBytes.{append_known};
ghost use Rattle.law_lines.specs.Text.{text};
ghost use Rattle.law_terms.specs.Faults.{first_fault};
ghost use Rattle.law_terms.specs.Plain.{PlainTerm};
ghost use Rattle.smt_nodes.specs.Interned.{StandFor};
ghost use Rattle.smt_nodes.specs.View.{ids_of};
ghost use Rattle.smt_script.specs.Sink.{Rose};
ghost use Rattle.smt_blast.specs.Causes.{HasEncodeCause, HasPutCause};

use crate::Blasted;
use smt_encode::{EncodeError, Encoder, Steps};
use smt_nodes::Interner;
use smt_runs::Refusal;
use smt_script::Sink;
use smt_term::EnumTable;
use std::alloc::Global;
use std::marker::Brand;
use std::mem;
use std::sync::ledger::{Blank, Ledger};

/// Encodes new terms, and counts the look-ups by a ledger of its own.
fn encode_roots<L: Ledger, W: Sink>(
    alloc: Global,
    blasted: Blasted,
    out: &mut W,
    blank: Blank,
) -> Result<(), EncodeError>
    requires name { blank.name ≡ L.name }
    requires parts { blank.parts ≡ L.parts }
    requires some { 0 < blank.parts }
    requires stand { (ts : List PlainTerm) × StandFor blasted.nodes (ids_of blasted.roots) ts }
    ensures puts { (ts : List PlainTerm) → StandFor blasted.nodes (ids_of blasted.roots) ts →
        OnOk result (W.contents out.new ≡ append_known (W.contents out.old) (text [] ts)) }
    ensures refused { (ts : List PlainTerm) → StandFor blasted.nodes (ids_of blasted.roots) ts →
        first_fault [] ts ≡ None →
        IfErr result (HasEncodeCause (Rose (W.faults out.old) (W.faults out.new))) }
    ensures later { W.faults out.old ≤ W.faults out.new }
{
    let mut blasted = blasted;
    let nodes = mem::replace(&mut blasted.nodes, Interner::new(alloc));
    let enums = EnumTable::new(alloc);
    let mut look_ups = Steps::<L>::new(blank);
    let mut encoder = Encoder::with_nodes(alloc, &enums, nodes, out);
    let outcome = encoder.encode_nodes(blasted.roots.items(), &mut look_ups);
    let _lent = encoder.into_script();
    outcome
}

/// Puts the script of new terms, which have no fault.
pub(crate) fn put_blasted<W: Sink>(
    alloc: Global,
    blasted: Blasted,
    out: &mut W,
) -> Result<(), Refusal>
    requires stand { (ts : List PlainTerm) × StandFor blasted.nodes (ids_of blasted.roots) ts
        × (first_fault [] ts ≡ None) }
    ensures puts { (ts : List PlainTerm) → StandFor blasted.nodes (ids_of blasted.roots) ts →
        OnOk result (W.contents out.new ≡ append_known (W.contents out.old) (text [] ts)) }
    ensures refused { IfErr result (HasPutCause (Rose (W.faults out.old) (W.faults out.new))) }
    ensures later { W.faults out.old ≤ W.faults out.new }
{
    match encode_roots::<Brand, W>(alloc, blasted, out, Blank::new(1)) {
        Ok(()) => Ok(()),
        Err(EncodeError::Io) => Err(Refusal::Sink),
        Err(EncodeError::Memory) => Err(Refusal::Memory),
        Err(_) => unreachable!(),
    }
}
