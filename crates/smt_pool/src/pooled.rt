// A session that a pool has handed out.
ghost use Rattle.std.specs.Prelude.{◌≡◌, IsErr, false, true};
ghost use Rattle.std.specs.Borrow.{sem};
ghost use Rattle.smt_solve.specs.Link.{IsOver};
ghost use Rattle.smt_solve.specs.Model.{AsksWithModel};
ghost use Rattle.smt_solve.specs.Question.{AsksDecision, SendsCommand};
ghost use Rattle.smt_solve.specs.Session.{enable_models_text};
ghost use Rattle.smt_pool.specs.Lends.{LendsInput};
ghost use Rattle.smt_pool.specs.Pooled.{Guards, pooled_failed, pooled_input, pooled_link};
ghost use Rattle.smt_pool.specs.Pooled.{pooled_number, pooled_state};

use smt_solve::{
    Decision, DecisionWithModel, Link, LocalSolver, SessionInput, Solver, SolverError,
};

/// A session that a pool has handed out. It must be spent, by `SolverPool::release`.
///
/// It is a `Solver` with the answers of a `LocalSolver`.
#[derive(Debug)]
pub struct PooledSolver<L> {
    pub(crate) session: LocalSolver<L>,
    pub(crate) number: u64,
}

impl<L: Link> PooledSolver<L> {
    /// The number of the pool that handed it out.
    pub fn pool_number(&self) -> u64
        ensures { result ≡ pooled_number self.now }
    {
        self.number
    }

    /// Marks the session failed, as `LocalSolver::mark_failed` does: it sends and asks nothing more, and the pool does not keep it.
    pub fn mark_failed(&mut self)
        ensures failed { pooled_failed self.new ≡ true }
        ensures link { pooled_link self.new ≡ pooled_link self.old }
        ensures number { pooled_number self.new ≡ pooled_number self.old }
    {
        self.session.mark_failed();
    }

    /// Sends these lines of a script as they stand, as `LocalSolver::send_lines` does. They may be held back until the next
    /// question.
    ///
    /// # Examples
    ///
    /// ```
    /// use kembura::{Decision, Solver};
    ///
    /// let mut session = pool.acquire()?;
    /// session.send_lines(b"(set-logic ALL)\n(assert false)\n")?;
    /// let decision = session.check_sat();
    /// pool.release(session)?;
    /// assert_eq!(rt; decision, Ok(Decision::Unsat));
    /// ```
    ///
    /// # Errors
    ///
    /// `SolverMarkedFailed` comes where the session has failed before or is marked, `Io` where the link failed, and `Memory`
    /// where the link has no memory. The session has failed after any of them.
    pub fn send_lines(&mut self, lines: &[u8]) -> Result<(), SolverError>
        ensures guards { Guards L.allows self.old self.new result }
        ensures sends { pooled_failed self.old ≡ false →
            SendsCommand (pooled_state L.state self.old) (pooled_state L.state self.new) lines.now
            result }
    {
        self.session.send_lines(lines)
    }

    /// The link.
    pub fn link(&self) -> &L
        ensures { result.now ≡ pooled_link self.now }
    {
        self.session.link()
    }
}

impl<L: Link> Solver for PooledSolver<L> {
    type Input = SessionInput<L>;

    fn smtlib_input(&mut self) -> &mut SessionInput<L>
        ensures value { result.now ≡ pooled_input self.old }
        ensures* writes_back { sem 𝓛 (LendsInput L.row self.entry result) }
    {
        self.session.smtlib_input()
    }

    /// Sends `(set-option :produce-models true)`.
    ///
    /// # Errors
    ///
    /// `SolverMarkedFailed` comes where the session has failed before or is marked, `Io` where the link failed, and `Memory`
    /// where the link has no memory. The session has failed after any of them.
    fn enable_models(&mut self) -> Result<(), SolverError>
        ensures guards { Guards L.allows self.old self.new result }
        ensures sends { pooled_failed self.old ≡ false →
            SendsCommand (pooled_state L.state self.old) (pooled_state L.state self.new)
            enable_models_text result }
    {
        self.session.enable_models()
    }

    /// Asks as a `LocalSolver` does.
    ///
    /// # Errors
    ///
    /// As those of a `LocalSolver`. `SolverMarkedFailed` comes where the session has failed before or is marked, and nothing is
    /// sent.
    fn check_sat(&mut self) -> Result<Decision, SolverError>
        ensures guards { Guards L.allows self.old self.new result }
        ensures asks { pooled_failed self.old ≡ false →
            AsksDecision (L.allows (pooled_link self.old)) (pooled_state L.state self.old)
            (pooled_state L.state self.new) result }
        ensures over { IsOver (pooled_state L.state self.old) → IsErr result }
    {
        self.session.check_sat()
    }

    /// Asks as a `LocalSolver` does.
    ///
    /// # Errors
    ///
    /// As those of a `LocalSolver`. `SolverMarkedFailed` comes where the session has failed before or is marked, and nothing is
    /// sent.
    fn check_sat_with_model(&mut self) -> Result<DecisionWithModel, SolverError>
        ensures guards { Guards L.allows self.old self.new result }
        ensures asks { pooled_failed self.old ≡ false →
            AsksWithModel (L.allows (pooled_link self.old)) (pooled_state L.state self.old)
            (pooled_state L.state self.new) result }
        ensures over { IsOver (pooled_state L.state self.old) → IsErr result }
    {
        self.session.check_sat_with_model()
    }
}
