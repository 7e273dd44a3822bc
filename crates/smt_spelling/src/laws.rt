//! Laws of the encoder's definitions, proved with no code.
#![tactic(auto, using(smt_term::specs::View::views))]

ghost use Rattle.smt_spelling.specs.LookUpRows.{LookUpRows};
ghost use Rattle.smt_spelling.specs.LookUps.{LookUpsByEdges};

/// The look-ups that chosen graphs take.
pub fn look_up_rows()
    ensures { LookUpRows }
{}

/// Writing takes at most two look-ups for each edge of the graph that is written.
pub fn look_ups_by_edges()
    ensures { LookUpsByEdges }
{}
