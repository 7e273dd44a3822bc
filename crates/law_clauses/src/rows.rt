//! Worked examples of statements and of clauses.
ghost use Rattle.law_clauses.specs.ValidRows.{BitRows, EqualityRows, PatternRows, RefutationRows};
ghost use Rattle.law_clauses.specs.ValidRows.{StatementRows, ValueRows};

/// Each kind of statement, worked out.
pub fn statement_rows()
    ensures { StatementRows }
{}

/// Clauses of gates, of Boolean structure, of equality and of what is known, worked out.
pub fn equality_rows()
    ensures { EqualityRows }
{}

/// Clauses of options, sets, records, entities, strings and values of extension types, worked out.
pub fn value_rows()
    ensures { ValueRows }
{}

/// Tests on two patterns, worked out.
pub fn pattern_rows()
    ensures { PatternRows }
{}

/// Clauses of bits, products, quotients and signed operators, worked out.
pub fn bit_rows()
    ensures { BitRows }
{}

/// Clauses by their literals, and a refutation, worked out.
pub fn refutation_rows()
    ensures { RefutationRows }
{}
