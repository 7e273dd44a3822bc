// The laws of generated terms, worked examples of them, and what verdicts of small solvers are worth.
ghost use Rattle.smt_cli.specs.Generated.{GeneratedTermsAreConditions};
ghost use Rattle.smt_cli.specs.Rows.{GeneratedRows};
ghost use Rattle.smt_cli.specs.SmallVerdicts.{SmallVerdictsAreBelieved};

/// Generated terms are typed as Booleans and formed, they have no fault, so the encoder refuses none of them, and nothing of
/// them is folded.
pub fn generated_terms_are_conditions()
    ensures { GeneratedTermsAreConditions }
{}

/// Chosen numbers, variables and terms.
pub fn generated_rows()
    ensures { GeneratedRows }
{}

/// Where `check` ended with 0 over a starter of small solvers, each `unsat` says that no interpretation makes all terms true that are
/// current at its check. No solver is trusted for it.
pub fn small_verdicts_are_believed()
    ensures { SmallVerdictsAreBelieved }
{}
