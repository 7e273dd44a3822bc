// The script of a job's steps, with a line for each check.
ghost use Rattle.std.specs.Prelude.{ℕ, ◌≡◌, ◌≤◌, IsErrOf, IsTrue, OnOk};
ghost use Rattle.law_terms.specs.Faults.{first_fault};
ghost use Rattle.smt_term.specs.Enums.{enums_of};
ghost use Rattle.law_jobs.specs.Steps.{AreBalanced, asserted};
ghost use Rattle.smt_jobs.specs.Numbers.{all_steps_stand, steps_by};
ghost use Rattle.smt_encode.specs.Refusals.{HasCause};
ghost use Rattle.smt_encode.specs.declared.error.EncodeError.TheVariants.{Spent as IsSpentError};
ghost use Rattle.smt_runs.specs.Pieces.{PutsSteps};

use crate::pieces::put_piece;
use smt_encode::{EncodeError, Encoder, Steps};
use smt_jobs::NumberedStep;
use smt_nodes::Interner;
use smt_script::{Sink, SmtLibScript};
use smt_term::EnumTable;
use std::alloc::Global;
use std::sync::ledger::Ledger;

/// Puts the script of steps, whose terms are numbers of these nodes, with a line `(check-sat)` for each check.
pub fn put_steps<L: Ledger, W: Sink>(
    alloc: Global,
    enums: &EnumTable,
    nodes: Interner,
    steps: &[NumberedStep],
    out: &mut W,
    look_ups: &mut Steps<L>,
) -> Result<(), EncodeError>
    requires stand { IsTrue (all_steps_stand nodes steps.now) }
    ensures puts { OnOk result (PutsSteps (enums_of enums.now) (W.contents out.old)
        (W.contents out.new) (steps_by nodes steps.now)) }
    ensures refused { AreBalanced 0 (steps_by nodes steps.now) →
        HasCause (W.faults out.old) (W.faults out.new)
        (first_fault (enums_of enums.now) (asserted (steps_by nodes steps.now))) result }
    ensures fresh { IsErrOf result IsSpentError → ⊥ }
    ensures later { W.faults out.old ≤ W.faults out.new }
{
    let mut encoder = Encoder::with_nodes(alloc, enums, nodes, ());
    let mut left = steps;
    loop {
        let (next, outcome) = put_piece(encoder, left, out, look_ups);
        encoder = next;
        let Some((_, behind)) = outcome?.split_first() else {
            return Ok(());
        };
        out.check_sat()?;
        left = behind;
    }
}
