// The search for the first model: the truths of the last six constants side by side, and those of the others one after the other.
ghost use Rattle.std.specs.Prelude.{◌≡◌, ◌<◌, ◌≤◌, ◌+◌, ◌++◌, ◌&&◌, ℕ, [], true, false, IfOk, OnOk};
ghost use Rattle.std.specs.Prelude.{length, map, option_map};
ghost use Rattle.std.specs.List.{list_all};
ghost use Rattle.law_verdicts.specs.FirstModel.{first_such};
ghost use Rattle.law_verdicts.specs.TruthRows.{has_bit, row_truths};
ghost use Rattle.smt_mini.specs.Search.{Searched, SearchedWith, all_hold, in_row, is_alive};
ghost use Rattle.smt_mini.specs.Search.{lanes_of, may_of_input, may_place, mays_of};

use crate::gate::Gate;
use crate::rows::{LANES, Rows, earlier, rows_of, rows_of_gate};
use std::alloc::{AllocError, Global};

/// The circuit that is searched, with its assertions and the number of its inputs.
#[derive(Drop)]
pub struct Circuit<'c> {
    /// The gates.
    pub gates: &'c [Gate],
    /// The gates that have to be true.
    pub assertions: &'c [usize],
    /// How many constants there are.
    pub total: usize,
}

/// What each gate may be.
fn rows_of_gates(alloc: Global, circuit: &Circuit, chosen: &[bool]) -> Result<Vec<Rows>, AllocError>
    ensures { IfOk result (λ v.
        (r : ℕ) → r < 64 →
        map (in_row r) v.items
        ≡ mays_of (may_of_input chosen.now circuit.now.total r) [] circuit.now.gates.now) }
{
    let mut done = Vec::new(alloc);
    for gate in circuit.gates {
        let rows = rows_of_gate(chosen, circuit.total, done.as_slice(), *gate);
        done.push(rows)?;
    }
    Ok(done)
}

/// Those of some rows in which each of these gates may be true.
fn rows_left(done: &[Rows], assertions: &[usize], rows: u64) -> u64
    ensures { (r : ℕ) → r < 64 →
        has_bit result r
        ≡ (has_bit rows r
        && list_all (λ p. (may_place (map (in_row r) done.now) p).holds) assertions.now) }
{
    let mut left = rows;
    for place in assertions {
        left &= earlier(done, *place).holds;
    }
    left
}

/// The rows in which each assertion may be true.
fn alive_rows(alloc: Global, circuit: &Circuit, chosen: &[bool]) -> Result<u64, AllocError>
    ensures { IfOk result (λ alive.
        (r : ℕ) → r < 64 →
        has_bit alive r
        ≡ is_alive circuit.now.gates.now circuit.now.assertions.now circuit.now.total chosen.now
        r) }
{
    let done = rows_of_gates(alloc, circuit, chosen)?;
    Ok(rows_left(done.as_slice(), circuit.assertions, rows_of(circuit.total)))
}

/// The least of some rows.
fn least(rows: u64) -> u64
    requires { 0 < rows }
    ensures row { result < 64 }
    ensures among { has_bit rows result ≡ true }
    ensures least { (r : ℕ) → r < result → has_bit rows r ≡ false }
{
    u64::from(rows.trailing_zeros())
}

/// Chooses the truths of so many constants in a row.
fn push_row(chosen: &mut Vec<bool>, row: u64, lanes: usize) -> Result<(), AllocError>
    requires { lanes ≤ 6 }
    ensures { OnOk result (chosen.new.items ≡ chosen.old.items ++ row_truths lanes row) }
{
    let mut left = lanes;
    while left > 0 {
        left -= 1;
        chosen.push((row >> left) % 2 == 1)?;
    }
    Ok(())
}

/// Searches behind the chosen truths and one more, with so many constants left before the last: whether a model was found. Then
/// its truths are chosen.
#[cycle(search)]
fn search_with(
    alloc: Global,
    circuit: &Circuit,
    chosen: &mut Vec<bool>,
    truth: bool,
    left: usize,
) -> Result<bool, AllocError>
    requires { length chosen.old.items + left + 1 + lanes_of circuit.now.total ≡ circuit.now.total }
    ensures { IfOk result (SearchedWith (all_hold circuit.now.gates.now circuit.now.assertions.now)
        truth (left + lanes_of circuit.now.total) chosen.old.items chosen.new.items) }
{
    chosen.push(truth)?;
    if search(alloc, circuit, chosen, left)? {
        return Ok(true);
    }
    let _ = chosen.pop();
    Ok(false)
}

/// Searches behind the chosen truths, with so many constants left before the last: whether a model was found. Then its truths are
/// chosen.
#[cycle(search)]
fn search(
    alloc: Global,
    circuit: &Circuit,
    chosen: &mut Vec<bool>,
    left: usize,
) -> Result<bool, AllocError>
    requires { length chosen.old.items + left + lanes_of circuit.now.total ≡ circuit.now.total }
    ensures { IfOk result (Searched (all_hold circuit.now.gates.now circuit.now.assertions.now)
        (left + lanes_of circuit.now.total) chosen.old.items chosen.new.items) }
{
    let alive = alive_rows(alloc, circuit, chosen.as_slice())?;
    if alive == 0 {
        return Ok(false);
    }
    if left == 0 {
        let lanes = circuit.total - chosen.len();
        push_row(chosen, least(alive), lanes)?;
        return Ok(true);
    }
    if search_with(alloc, circuit, chosen, false, left - 1)? {
        return Ok(true);
    }
    search_with(alloc, circuit, chosen, true, left - 1)
}

/// The truths of the constants in the first model, in order.
pub fn first_model(alloc: Global, circuit: &Circuit) -> Result<Option<Vec<bool>>, AllocError>
    ensures { IfOk result (λ found.
        option_map (λ truths. truths.items) found
        ≡ first_such circuit.now.total
        (all_hold circuit.now.gates.now circuit.now.assertions.now)) }
{
    let mut chosen = Vec::new(alloc);
    let left = circuit.total.saturating_sub(LANES);
    if search(alloc, circuit, &mut chosen, left)? {
        Ok(Some(chosen))
    } else {
        Ok(None)
    }
}
