// A formula, read from a source.
ghost use Rattle.std.specs.Prelude.{◌≡◌, ◌≤◌, ◌^◌, [], IfErr, IfOk, IfSome, OnOk, option_map};
ghost use Rattle.smt_clauses.specs.View.{plain_clauses};
ghost use Rattle.smt_dimacs.specs.Formulas.{IsFormula};
ghost use Rattle.smt_script.specs.Sink.{Rose};
ghost use Rattle.smt_sat_run.specs.Causes.{HasReadCause};

use crate::refusal::Refusal;
use smt_dimacs::{Formula, GREATEST, read_formula};
use smt_script::{Source, read_input};
use std::alloc::Global;

/// Reads the source to its end, and the formula that it gave.
pub(crate) fn read_source<R: Source>(alloc: Global, source: &mut R) -> Result<Formula, Refusal>
    ensures formula { IfOk result (λ f. IfSome (R.remaining source.old)
        (λ bytes. IsFormula bytes f.variables (plain_clauses f.clauses))) }
    ensures few { IfOk result (λ f. f.variables ≤ 2 ^ 30) }
    ensures ended { OnOk result (R.remaining source.new
        ≡ option_map (λ _. []) (R.remaining source.old)) }
    ensures refused { IfErr result (HasReadCause (R.remaining source.old)
        (Rose (R.faults source.old) (R.faults source.new))) }
{
    let bytes = read_input(alloc, source, GREATEST)?;
    Ok(read_formula(alloc, bytes.as_slice())?)
}
