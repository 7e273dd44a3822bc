// Laws of the links to small solvers, proved with no code.
ghost use Rattle.law_verdicts.specs.Honesty.{IsHonest};
ghost use Rattle.smt_stream.specs.Starters.{mini_starter_allows};

use crate::starter::MiniStarter;

/// A starter of small solvers is honest: where one of its links says `unsat` to a check in turn, the text that it was sent is a script
/// without a model.
pub fn small_solvers_are_honest(starter: &MiniStarter)
    ensures { IsHonest (mini_starter_allows starter.now) }
{}
