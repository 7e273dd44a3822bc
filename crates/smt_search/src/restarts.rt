// When the search begins anew.
ghost use Rattle.std.specs.Prelude.{◌<◌};

/// So much a level counts in the averages.
const ONE: u64 = 1 << 32;

/// How long a run is at least, in conflicts.
const SHORTEST: u64 = 10;

/// How long the first run of the even kind is, in conflicts.
const UNIT: u64 = 256;

/// The search is by turns of two kinds. In the quick kind a run ends where the last learned clauses
/// are of more levels than all were. In the even kind the runs are as long as the series of Luby,
/// Sinclair and Zuckerman says: 1, 1, 2, 1, 1, 2, 4 and so on.
#[derive(Clone, Copy)]
pub(crate) struct Restarts {
    even: bool,
    /// How many conflicts there were, and at which the kind changes.
    conflicts: u64,
    turn: u64,
    span: u64,
    /// How many there were in this run, and how long it is to be in the even kind.
    since: u64,
    length: u64,
    /// The series' state.
    place: u64,
    power: u64,
    /// How many levels late clauses and all clauses are of, on average.
    fast: u64,
    slow: u64,
}

/// An average that moves by a part of the distance to a value.
fn moved(average: u64, value: u64, part: u64) -> u64
    requires { 0 < part }
{
    average
        .wrapping_sub(average / part)
        .wrapping_add(value / part)
}

impl Restarts {
    /// No conflict yet.
    pub(crate) fn new() -> Restarts {
        Restarts {
            even: false,
            conflicts: 0,
            turn: 1000,
            span: 1000,
            since: 0,
            length: UNIT,
            place: 1,
            power: 1,
            fast: 0,
            slow: 0,
        }
    }

    /// How many conflicts there were.
    pub(crate) fn conflicts(&self) -> u64 {
        self.conflicts
    }

    /// Notes of how many levels a learned clause is.
    pub(crate) fn note(&mut self, blocks: u32) {
        let blocks = (blocks as u64).wrapping_mul(ONE);
        self.fast = moved(self.fast, blocks, 32);
        self.slow = moved(self.slow, blocks, 8192);
        if self.conflicts < 8192 {
            self.slow = self.slow.max(self.fast);
        }
        self.since = self.since.wrapping_add(1);
        self.conflicts = self.conflicts.wrapping_add(1);
    }

    /// Whether the run is to end.
    pub(crate) fn is_due(&self) -> bool {
        if self.even {
            self.since >= self.length
        } else {
            self.since > SHORTEST && self.fast / 11 > self.slow / 10
        }
    }

    /// The next length of the series.
    fn lengthen(&mut self) {
        if self.place % self.power.wrapping_mul(2).max(1) == self.power {
            self.place = self.place.wrapping_add(1);
            self.power = 1;
        } else {
            self.power = self.power.wrapping_mul(2);
        }
        self.length = self.power.wrapping_mul(UNIT);
    }

    /// Begins a run.
    pub(crate) fn begin(&mut self) {
        self.since = 0;
        if self.even {
            self.lengthen();
        }
        if self.conflicts >= self.turn {
            self.even = !self.even;
            self.span = self.span.wrapping_add(self.span / 2);
            self.turn = self.conflicts.wrapping_add(self.span);
        }
    }
}
