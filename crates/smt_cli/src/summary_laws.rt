// Worked examples of summaries, proved with no code.
ghost use Rattle.smt_cli.specs.SummaryRows.{SummaryRows};

/// What the scripts of chosen jobs have.
pub fn summary_rows()
    ensures { SummaryRows }
{}
