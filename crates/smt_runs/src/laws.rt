// The laws of the scripts of jobs.
ghost use Rattle.smt_runs.specs.Asked.{AnswersAreBelieved};
ghost use Rattle.smt_runs.specs.Meaning.{JobsAreWritable, WritableStepsMean};

use smt_solve::Link;

/// The text of a job's steps means the terms that are current at its end, as they are written. It is well sorted and flat, and
/// has no more commands than its steps ask for.
pub fn scripts_mean_their_jobs()
    ensures steps { WritableStepsMean }
    ensures jobs { JobsAreWritable }
{}

/// Where a solver that was asked by the steps of a job is honest, each `unsat` says that no interpretation makes all terms true
/// that are current at its check.
pub fn answers_are_believed<L: Link>(link: &L)
    ensures { AnswersAreBelieved (L.allows link.now) }
{
    let _ = link;
}
