// What starts solvers.
ghost use Rattle.std.specs.Prelude.{ℕ, List, IfOk};
ghost use Rattle.smt_solve.specs.Link.{AllowsOnly, AllowsTheSame, IsUnused};
ghost use Rattle.smt_solve.specs.Starter.{Finishes, StarterState, Starts, command_of};

use crate::command::SolverCommand;
use crate::link::Link;
use std::alloc::Global;
use thiserror::Error;

/// Why a solver was not started, or its link not kept.
#[derive(Clone, Copy, Debug, PartialEq, Eq, Drop, Error)]
pub enum StartError {
    /// The solver did not start. The starter's count of failed starts shows it.
    #[error("the solver did not start")]
    Fault,
    /// There was no memory for it.
    #[error("out of memory for a link to a solver")]
    Memory,
}

/// What starts solvers, and takes their links back.
///
/// What a starter tells of itself is `StarterState` of `specs/Starter.antt`.
pub trait Starter {
    /// The links that it gives.
    type L: Link;

    /// The commands that it was asked for, the links that came back, and how often starts and links failed.
    ghost state: { Self → StarterState Self.L };

    /// Which lines its links may give. No call changes it.
    ghost allows: { Self → List ℕ → List ℕ → List ℕ → Type 0 };

    /// Starts a solver by this command, and gives an unused link to it.
    ///
    /// `StartError::Fault` comes only where the count of failed starts rose, or stands at its last value.
    fn start(&mut self, alloc: Global, cmd: &SolverCommand) -> Result<Self::L, StartError>
        ensures starts { Starts (state self.old) (state self.new) (command_of cmd.now) result }
        ensures unused { IfOk result (λ link. IsUnused (Self.L.state link)) }
        ensures honest { IfOk result (λ link. AllowsOnly (Self.L.allows link) (allows self.old)) }
        ensures allows { AllowsTheSame (allows self.old) (allows self.new) };

    /// Takes a link back, and counts whether it had failed. Its only error is `Memory`, after which the link is lost.
    fn finish(&mut self, link: Self::L) -> Result<(), StartError>
        ensures finishes { Finishes (state self.old) (state self.new) link
            (Self.L.state link).faults result }
        ensures allows { AllowsTheSame (allows self.old) (allows self.new) };
}

/// A mutable reference to a starter is a starter with the same meanings.
impl<P: Starter> Starter for &mut P {
    type L = P::L;

    ghost state = { λ s. P.state s.now };

    ghost allows = { λ s. P.allows s.now };

    fn start(&mut self, alloc: Global, cmd: &SolverCommand) -> Result<Self::L, StartError> {
        (**self).start(alloc, cmd)
    }

    fn finish(&mut self, link: Self::L) -> Result<(), StartError> {
        (**self).finish(link)
    }
}
