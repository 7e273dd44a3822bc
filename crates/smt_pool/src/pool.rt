// A pool of sessions.
ghost use Rattle.std.specs.Prelude.{◌≡◌, ◌+◌, ◌≤◌};
ghost use Rattle.std.specs.VecDeque.{deque_capacity, deque_len};
ghost use Rattle.smt_pool.specs.Sessions.{AreReady};
ghost use Rattle.std.proofs.Props.{props};

use crate::config::SolverPoolConfig;
use crate::error::{PoolRefused, SolverPoolError};
use crate::pooled::PooledSolver;
use crate::sessions::{
    finish_session, finish_sessions, reset_session, start_session, start_sessions,
};
use smt_solve::{LinkError, LocalSolver, SolverCommand, SolverError, Starter};
use std::alloc::Global;
use std::collections::VecDeque;

/// A pool of sessions with solvers that one command starts.
///
/// It hands sessions out, takes them back, and keeps those that did not fail for the next caller. So its solvers live long: the
/// command gets a limit on each question, as cvc5's `--tlimit-per`, and none on the life of the process, as cvc5's `--tlimit`. A
/// session that is out holds a permit, so that the permits that are free and the sessions that are out are always `max_solvers` together.
/// It is ended by
/// `close`, which gives its starter back.
#[derive(Debug, Drop)]
pub struct SolverPool<P: Starter> {
    starter: P,
    command: SolverCommand,
    idle: VecDeque<LocalSolver<P::L>>,
    permits: usize,
    // How many sessions are handed out.
    out: usize,
    max: usize,
    number: u64,
    alloc: Global,
    ghost sum: { permits + out ≡ max },
    ghost enough: { max ≤ deque_capacity idle },
    ghost room: { deque_len idle + out ≤ deque_capacity idle },
    ghost ready: { AreReady P.L.state idle.items } by { Prim.hlevel props },
}

impl<P: Starter> SolverPool<P> {
    ghost use Rattle.std.specs.Prelude.{◌≡◌, ◌<◌, ◌↔◌, true, false, [], length, IfErr, IfOk};
    ghost use Rattle.std.specs.Prelude.{IsErrOf};
    ghost use Rattle.smt_solve.specs.Link.{AllowsOnly, AllowsTheSame};
    ghost use Rattle.smt_solve.specs.Starter.{command_of};
    ghost use Rattle.smt_pool.specs.Pooled.{pooled_link, pooled_number};
    ghost use Rattle.smt_pool.specs.Sessions.{AreHonest};
    ghost use Rattle.smt_pool.specs.Pool.{GivesUp, HandsOut, Keeps, Opens, TakesBack, WhyNotOpened};
    ghost use Rattle.smt_pool.specs.Pool.{WhyNotAcquired, pool_starter};
    ghost use Rattle.smt_pool.specs.Pool.{pool_state};

    /// A pool of this number, whose sessions this command starts.
    ///
    /// `min_solvers` sessions are started, and `max_solvers` may be out at one time. Of the two, the greater number of sessions has
    /// room in the pool.
    ///
    /// # Errors
    ///
    /// `Io` comes where a solver did not start, which the starter's count of failed starts shows, and `Memory` where there is no
    /// memory for the sessions. The links that were started are given back to the starter, which comes with the error.
    pub fn new(
        alloc: Global,
        number: u64,
        config: SolverPoolConfig,
        command: SolverCommand,
        mut starter: P,
    ) -> Result<SolverPool<P>, PoolRefused<P>>
        ensures opens { IfOk result (λ pool.
            Opens P.L.state (P.state starter) config number (command_of command)
            (pool_state P.state pool)) }
        ensures refused { IfErr result (λ r.
            WhyNotOpened P.L.state (P.state starter) (P.state r.starter) config (command_of command)
            r.error) }
        ensures honest { IfOk result
            (λ pool. AreHonest P.L.allows (P.allows starter) (pool_state P.state pool).idle) }
        ensures allows { IfOk result
            (λ pool. AllowsTheSame (P.allows starter) (P.allows (pool_starter pool))) }
        ensures allows_still { IfErr result
            (λ r. AllowsTheSame (P.allows starter) (P.allows r.starter)) }
    {
        let room = config.min_solvers.max(config.max_solvers);
        let Ok(mut idle) = VecDeque::with_capacity(alloc, room) else {
            return Err(PoolRefused {
                error: SolverError::Memory,
                starter,
            });
        };
        match start_sessions(alloc, &mut starter, &command, config.min_solvers, &mut idle) {
            Ok(()) => Ok(SolverPool {
                starter,
                command,
                idle,
                permits: config.max_solvers,
                out: 0,
                max: config.max_solvers,
                number,
                alloc,
            }),
            Err(error) => match finish_sessions(&mut starter, idle) {
                Ok(()) => Err(PoolRefused { error, starter }),
                Err(_) => Err(PoolRefused {
                    error: SolverError::Memory,
                    starter,
                }),
            },
        }
    }

    /// The starter.
    pub fn starter(&self) -> &P
        ensures { result.now ≡ pool_starter self.now }
    {
        &self.starter
    }

    /// How many sessions are idle.
    pub fn available_count(&self) -> usize
        ensures { result ≡ length (pool_state P.state self.now).idle }
    {
        self.idle.len()
    }

    /// How many sessions may still be handed out before one is released.
    ///
    /// Together with the sessions that are out they are as many as `max_solvers`.
    pub fn permits_available(&self) -> usize
        ensures permits { result ≡ (pool_state P.state self.now).permits }
        ensures sum { (pool_state P.state self.now).permits + (pool_state P.state self.now).out
            ≡ (pool_state P.state self.now).max }
    {
        self.permits
    }

    /// The number of the pool, which its sessions tell.
    pub fn number(&self) -> u64
        ensures { result ≡ (pool_state P.state self.now).number }
    {
        self.number
    }

    /// Hands out the session that was idle last, or starts one where none is idle.
    ///
    /// # Examples
    ///
    /// ```
    /// use kembura::{Decision, Solver};
    ///
    /// let mut session = pool.acquire()?;
    /// let decision = session.check_sat();
    /// pool.release(session)?;
    /// assert_eq!(rt; decision, Ok(Decision::Sat));
    /// ```
    ///
    /// # Errors
    ///
    /// `AcquireTimeout` comes exactly where no permit is free; the pool waits for none. `Solver` with `Io` comes where the solver of
    /// a new session did not start, which the starter's count of failed starts shows, and `Memory` where there is no memory for a
    /// new session. No error takes a permit.
    pub fn acquire(&mut self) -> Result<PooledSolver<P::L>, SolverPoolError>
        ensures acquired { IfOk result
            (HandsOut P.L.state (pool_state P.state self.old) (pool_state P.state self.new)) }
        ensures timeout { IsErrOf result SolverPoolError.AcquireTimeout
            ↔ ((pool_state P.state self.old).permits ≡ 0) }
        ensures refused { IfErr result
            (WhyNotAcquired (pool_state P.state self.old) (pool_state P.state self.new)) }
        ensures honest { IfOk result (λ s. (pool_state P.state self.old).idle ≡ [] →
            AllowsOnly (P.L.allows (pooled_link s)) (P.allows (pool_starter self.old))) }
        ensures allows { AllowsTheSame (P.allows (pool_starter self.old))
            (P.allows (pool_starter self.new)) }
    {
        if self.permits == 0 {
            return Err(SolverPoolError::AcquireTimeout);
        }
        let session = match self.idle.pop_back() {
            Some(session) => session,
            None => start_session(self.alloc, &mut self.starter, &self.command)?,
        };
        self.permits -= 1;
        self.out += 1;
        Ok(PooledSolver {
            session,
            number: self.number,
        })
    }

    /// Takes a session back, and its permit. Answers whether the session is kept.
    ///
    /// A session that has not failed is sent `(reset)`, and becomes the last idle one. One that has failed before, is marked or
    /// fails now is not kept: its link is given back to the starter as it is, and is not killed. Where the link has failed, the
    /// starter's count of link faults shows it.
    ///
    /// # Errors
    ///
    /// `Memory` comes where the link or the starter has no memory. The session is not kept, and its link may be lost.
    pub fn release(&mut self, s: PooledSolver<P::L>) -> Result<bool, SolverPoolError>
        requires number { pooled_number s ≡ (pool_state P.state self.old).number }
        requires out { (pool_state P.state self.old).permits < (pool_state P.state self.old).max }
        ensures kept { result ≡ Ok true →
            Keeps P.L.state P.L.allows (pool_state P.state self.old) (pool_state P.state self.new)
            s }
        ensures not_kept { result ≡ Ok false →
            GivesUp P.L.state (pool_state P.state self.old) (pool_state P.state self.new) s }
        ensures takes_back { TakesBack (pool_state P.state self.old) (pool_state P.state self.new)
            result }
        ensures allows { AllowsTheSame (P.allows (pool_starter self.old))
            (P.allows (pool_starter self.new)) }
    {
        let PooledSolver {
            mut session,
            number: _,
        } = s;
        self.permits += 1;
        self.out -= 1;
        if session.is_failed() {
            return finish_session(&mut self.starter, session);
        }
        match reset_session(&mut session) {
            Ok(()) => {
                self.idle.push_back_reserved(session);
                Ok(true)
            }
            Err(LinkError::Memory) => {
                finish_session(&mut self.starter, session)?;
                Err(SolverPoolError::Memory)
            }
            Err(LinkError::Fault) => finish_session(&mut self.starter, session),
        }
    }
}

impl<P: Starter + Drop> SolverPool<P> {
    ghost use Rattle.std.specs.Prelude.{◌≡◌, IfOk, IsOkUnless};
    ghost use Rattle.smt_solve.specs.Link.{AllowsTheSame};
    ghost use Rattle.smt_pool.specs.Pool.{Closes, pool_starter, pool_state};

    /// Ends the pool: gives the links of the idle sessions back to the starter, first to last, and gives the starter back.
    ///
    /// # Errors
    ///
    /// `Memory` comes where the starter has no memory for a link. The starter is dropped then, with the links.
    pub fn close(self) -> Result<P, SolverPoolError>
        requires { (pool_state P.state self).permits ≡ (pool_state P.state self).max }
        ensures closes { IfOk result
            (λ starter. Closes (pool_state P.state self) (P.state starter)) }
        ensures allows { IfOk result
            (λ starter. AllowsTheSame (P.allows (pool_starter self)) (P.allows starter)) }
        ensures refusal { IsOkUnless result SolverPoolError.Memory }
    {
        let SolverPool {
            mut starter,
            command: _,
            idle,
            permits: _,
            out: _,
            max: _,
            number: _,
            alloc: _,
        } = self;
        match finish_sessions(&mut starter, idle) {
            Ok(()) => Ok(starter),
            Err(_) => Err(SolverPoolError::Memory),
        }
    }
}
