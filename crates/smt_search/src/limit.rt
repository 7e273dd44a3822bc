// How long to search.
ghost use Rattle.std.specs.Prelude.{◌≡◌, ◌+◌, ◌≤◌, MatchBool};

/// How many conflicts are left to learn from.
#[derive(Drop)]
pub struct Limit {
    conflicts: u64,
}

impl Limit {
    ghost use Rattle.smt_search.specs.Limits.{left};

    /// So many conflicts.
    pub fn conflicts(most: u64) -> Limit
        ensures { left result ≡ most }
    {
        Limit { conflicts: most }
    }

    /// How many conflicts are left.
    pub fn left(&self) -> u64
        ensures { result ≡ left self.now }
    {
        self.conflicts
    }

    /// Takes one conflict away. Whether one was left.
    pub(crate) fn take(&mut self) -> bool
        ensures taken { MatchBool result (left self.new + 1 ≡ left self.old) (left self.new ≡ 0) }
        ensures at_most { left self.new ≤ left self.old }
    {
        if self.conflicts == 0 {
            return false;
        }
        self.conflicts -= 1;
        true
    }
}
