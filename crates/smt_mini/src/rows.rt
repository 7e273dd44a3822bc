// What gates may be in 64 rows of truths side by side.
ghost use Rattle.std.specs.Prelude.{◌≡◌, ◌<◌, ◌^◌, ℕ, map, min, nat_lt};
ghost use Rattle.law_verdicts.specs.TruthRows as rows;
ghost use Rattle.law_verdicts.specs.TruthRows.{has_bit, row};
ghost use Rattle.smt_mini.specs.Search.{in_row, may_free, may_of_gate, may_of_input, may_place};
ghost use Rattle.smt_mini.specs.Search.{plain_rows};

use crate::gate::Gate;

/// How many of the last constants have their truths by row.
pub const LANES: usize = 6;

/// What is known of a gate in each row, while some constants have no truth yet. A row is the place of a bit.
#[derive(Clone, Copy)]
pub struct Rows {
    /// The rows in which it may be true.
    pub holds: u64,
    /// The rows in which it may be false.
    pub fails: u64,
}

/// In each row this truth and no other.
fn just(truth: bool) -> Rows
    ensures { (r : ℕ) → r < 64 → row r (plain_rows result) ≡ rows.just truth }
{
    if truth {
        Rows {
            holds: u64::MAX,
            fails: 0,
        }
    } else {
        Rows {
            holds: 0,
            fails: u64::MAX,
        }
    }
}

/// In each row what the negation may be.
fn rows_not(a: Rows) -> Rows
    ensures { (r : ℕ) → row r (plain_rows result) ≡ rows.may_not (row r (plain_rows a)) }
{
    Rows {
        holds: a.fails,
        fails: a.holds,
    }
}

/// In each row what the conjunction may be.
fn rows_and(a: Rows, b: Rows) -> Rows
    ensures { (r : ℕ) →
        row r (plain_rows result) ≡ rows.may_and (row r (plain_rows a)) (row r (plain_rows b)) }
{
    Rows {
        holds: a.holds & b.holds,
        fails: a.fails | b.fails,
    }
}

/// In each row what the disjunction may be.
fn rows_or(a: Rows, b: Rows) -> Rows
    ensures { (r : ℕ) →
        row r (plain_rows result) ≡ rows.may_or (row r (plain_rows a)) (row r (plain_rows b)) }
{
    Rows {
        holds: a.holds | b.holds,
        fails: a.fails & b.fails,
    }
}

/// In each row what the equality may be.
fn rows_equal(a: Rows, b: Rows) -> Rows
    ensures { (r : ℕ) →
        row r (plain_rows result) ≡ rows.may_equal (row r (plain_rows a)) (row r (plain_rows b)) }
{
    Rows {
        holds: (a.holds & b.holds) | (a.fails & b.fails),
        fails: (a.holds & b.fails) | (a.fails & b.holds),
    }
}

/// In each row what `ite` may be.
fn rows_choose(a: Rows, b: Rows, c: Rows) -> Rows
    ensures { (r : ℕ) →
        row r (plain_rows result)
        ≡ rows.may_choose (row r (plain_rows a)) (row r (plain_rows b)) (row r (plain_rows c)) }
{
    Rows {
        holds: (a.holds & b.holds) | (a.fails & c.holds),
        fails: (a.holds & b.fails) | (a.fails & c.fails),
    }
}

/// In each row the bit of its number at this place.
fn bits(place: usize) -> Rows
    requires { place < 6 }
    ensures { (r : ℕ) → r < 64 → row r (plain_rows result) ≡ rows.just (has_bit r place) }
{
    match place {
        0 => Rows {
            holds: 0xaaaa_aaaa_aaaa_aaaa,
            fails: 0x5555_5555_5555_5555,
        },
        1 => Rows {
            holds: 0xcccc_cccc_cccc_cccc,
            fails: 0x3333_3333_3333_3333,
        },
        2 => Rows {
            holds: 0xf0f0_f0f0_f0f0_f0f0,
            fails: 0x0f0f_0f0f_0f0f_0f0f,
        },
        3 => Rows {
            holds: 0xff00_ff00_ff00_ff00,
            fails: 0x00ff_00ff_00ff_00ff,
        },
        4 => Rows {
            holds: 0xffff_0000_ffff_0000,
            fails: 0x0000_ffff_0000_ffff,
        },
        _ => Rows {
            holds: 0xffff_ffff_0000_0000,
            fails: 0x0000_0000_ffff_ffff,
        },
    }
}

/// The rows of the last of so many constants: one for each of their truths.
pub fn rows_of(total: usize) -> u64
    ensures { (r : ℕ) → r < 64 → has_bit result r ≡ nat_lt r (2 ^ min total 6) }
{
    match total {
        0 => 1,
        1 => 3,
        2 => 0xf,
        3 => 0xff,
        4 => 0xffff,
        5 => 0xffff_ffff,
        _ => u64::MAX,
    }
}

/// What an input without a chosen truth may be.
fn free(total: usize, place: usize) -> Rows
    ensures { (r : ℕ) → r < 64 → row r (plain_rows result) ≡ may_free total r place }
{
    if place >= total {
        just(false)
    } else if total - place <= LANES {
        bits(total - place - 1)
    } else {
        Rows {
            holds: u64::MAX,
            fails: u64::MAX,
        }
    }
}

/// What an input may be where the first of so many constants have these truths.
fn input(chosen: &[bool], total: usize, place: usize) -> Rows
    ensures { (r : ℕ) → r < 64 → row r (plain_rows result) ≡ may_of_input chosen.now total r place }
{
    match chosen.get(place) {
        Some(truth) => just(*truth),
        None => free(total, place),
    }
}

/// What an earlier gate may be.
pub fn earlier(done: &[Rows], place: usize) -> Rows
    ensures { (r : ℕ) → r < 64 →
        row r (plain_rows result) ≡ may_place (map (in_row r) done.now) place }
{
    match done.get(place) {
        Some(rows) => *rows,
        None => just(false),
    }
}

/// What a gate may be, by what the inputs and the earlier gates may be.
pub fn rows_of_gate(chosen: &[bool], total: usize, done: &[Rows], gate: Gate) -> Rows
    ensures { (r : ℕ) → r < 64 →
        row r (plain_rows result)
        ≡ may_of_gate (may_of_input chosen.now total r) (map (in_row r) done.now) gate }
{
    match gate {
        Gate::Input(place) => input(chosen, total, place),
        Gate::Truth(truth) => just(truth),
        Gate::Not(a) => rows_not(earlier(done, a)),
        Gate::And(a, b) => rows_and(earlier(done, a), earlier(done, b)),
        Gate::Or(a, b) => rows_or(earlier(done, a), earlier(done, b)),
        Gate::Eq(a, b) => rows_equal(earlier(done, a), earlier(done, b)),
        Gate::Ite(a, b, c) => rows_choose(earlier(done, a), earlier(done, b), earlier(done, c)),
    }
}
