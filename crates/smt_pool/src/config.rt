// How many sessions a pool has.
ghost use Rattle.smt_pool.specs.Config.{default_config};
ghost use Rattle.std.specs.Prelude.{◌≡◌};

/// How many sessions a pool has.
#[derive(Clone, Copy, Debug, PartialEq, Eq, Drop)]
pub struct SolverPoolConfig {
    /// How many sessions are started with the pool.
    pub min_solvers: usize,
    /// How many sessions are handed out at one time, at most.
    pub max_solvers: usize,
    /// How many milliseconds a caller would wait for a session. A pool never waits, whatever stands here.
    pub acquire_timeout: Option<u64>,
}

impl Default for SolverPoolConfig {
    ghost is_default = { λ config. config ≡ default_config };

    /// One session at the start, four at most, and no time to wait.
    fn default() -> SolverPoolConfig
        ensures { result ≡ default_config }
    {
        SolverPoolConfig {
            min_solvers: 1,
            max_solvers: 4,
            acquire_timeout: None,
        }
    }
}
