//! Laws of interners, proved with no code.
ghost use Rattle.smt_nodes.specs.Laws.{NodesAreFormed, NumbersAreMeant, NumbersDiffer};

/// Each number of an interner stands for something, and no two stand for the same.
pub fn numbers_differ_in_meaning()
    ensures meant { NumbersAreMeant }
    ensures differ { NumbersDiffer }
{}

/// The terms that the numbers of an interner stand for are formed: widths, numbers within their range, texts in UTF-8.
pub fn nodes_are_formed()
    ensures { NodesAreFormed }
{}
