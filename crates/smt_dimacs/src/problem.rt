// The problem line of a formula.
ghost use Rattle.std.specs.Prelude.{◌≤◌, ◌^◌};

/// How many variables and clauses there are, by the problem line.
#[derive(Clone, Copy)]
pub(crate) struct Problem {
    pub(crate) variables: u32,
    pub(crate) clauses: u32,
    ghost few: { variables ≤ 2 ^ 30 },
    ghost clauses_few: { clauses ≤ 2 ^ 30 },
}
