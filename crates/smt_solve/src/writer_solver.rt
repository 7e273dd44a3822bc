// A solver that only writes its script.
ghost use Rattle.std.specs.Prelude.{◌≡◌, IfOk};
ghost use Rattle.std.specs.Borrow.{sem};
ghost use Rattle.smt_script.specs.CommandTexts.{check_sat_text};
ghost use Rattle.smt_solve.specs.LendsWriter.{LendsWriter};
ghost use Rattle.smt_solve.specs.Session.{enable_models_text};
ghost use Rattle.smt_solve.specs.WriterSolver.{PutsLine, writer_in};

use crate::answer::{Decision, DecisionWithModel};
use crate::error::SolverError;
use crate::session::Solver;
use smt_script::Sink;

/// Puts its script and its questions to a sink, and answers `Unknown` to each question.
#[derive(Debug, Drop)]
pub struct WriterSolver<W> {
    /// What takes the lines.
    pub w: W,
}

/// Puts a line.
fn put_line<W: Sink>(w: &mut W, line: &[u8]) -> Result<(), SolverError>
    ensures { PutsLine W.contents W.faults W.has_room W.place w.old w.new line.now result }
{
    w.put(line)?;
    Ok(())
}

impl<W: Sink> Solver for WriterSolver<W> {
    type Input = W;

    fn smtlib_input(&mut self) -> &mut W
        ensures value { result.now ≡ writer_in self.old }
        ensures* writes_back { sem 𝓛 (LendsWriter W.row self.entry result) }
    {
        &mut self.w
    }

    /// Puts `(set-option :produce-models true)` and LF.
    ///
    /// # Errors
    ///
    /// `Io` comes where the sink failed, which its count of faults shows, and `Memory` where it has no memory. A first part of
    /// the line was put then.
    fn enable_models(&mut self) -> Result<(), SolverError>
        ensures puts { PutsLine W.contents W.faults W.has_room W.place (writer_in self.old)
            (writer_in self.new) enable_models_text result }
    {
        put_line(&mut self.w, b"(set-option :produce-models true)\n")
    }

    /// Puts `(check-sat)` and LF, and answers `Unknown`.
    ///
    /// # Errors
    ///
    /// As those of `enable_models`.
    fn check_sat(&mut self) -> Result<Decision, SolverError>
        ensures puts { PutsLine W.contents W.faults W.has_room W.place (writer_in self.old)
            (writer_in self.new) check_sat_text result }
        ensures unknown { IfOk result (λ decision. decision ≡ Decision.Unknown) }
    {
        put_line(&mut self.w, b"(check-sat)\n")?;
        Ok(Decision::Unknown)
    }

    /// As `check_sat`. There is no model, so none is asked for.
    fn check_sat_with_model(&mut self) -> Result<DecisionWithModel, SolverError>
        ensures puts { PutsLine W.contents W.faults W.has_room W.place (writer_in self.old)
            (writer_in self.new) check_sat_text result }
        ensures unknown { IfOk result (λ decision. decision ≡ DecisionWithModel.Unknown) }
    {
        put_line(&mut self.w, b"(check-sat)\n")?;
        Ok(DecisionWithModel::Unknown)
    }
}
