//! Laws of the calls that take a closure, proved with no code.
#![tactic(auto, using(crate::proofs::FoldingConnectives::folding))]

ghost use Rattle.smt_factory_core.specs.AnyRows.{AnyRows};

/// Disjunctions of what a call answers, at chosen terms.
pub fn any_rows()
    ensures { AnyRows }
{}
