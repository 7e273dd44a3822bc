//! Laws of formulas, and worked examples.
ghost use Rattle.smt_dimacs.specs.Laws.{FaultsAreInNoFormula, FormulasAreOne};
ghost use Rattle.smt_dimacs.specs.Rows.{EntryRows, FormulaRows, LineRows};

/// Texts and their lines that have words.
pub fn lines_by_hand()
    ensures { LineRows }
{}

/// Words and what they say.
pub fn entries_by_hand()
    ensures { EntryRows }
{}

/// Texts and their clauses.
pub fn formulas_by_hand()
    ensures { FormulaRows }
{}

/// A text with a fault is no formula that is read.
pub fn faults_are_in_no_formula()
    ensures { FaultsAreInNoFormula }
{}

/// A text is a formula over one number of variables and of one list of clauses.
pub fn formulas_are_one()
    ensures { FormulasAreOne }
{}
