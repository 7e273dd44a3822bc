ghost use Rattle.law_lines.specs.Scripts.{ExpressionsWrite, FunctionsAreDeclared, LinesAreLines};
ghost use Rattle.law_lines.specs.Scripts.{LinesHold, TermsAreDeclared, TermsStep};
ghost use Rattle.law_lines.specs.Scripts.{TypesAreDeclared, TypesStep};

/// What is spelled is read as it was.
pub fn what_is_spelled_is_read()
    ensures expressions { ExpressionsWrite }
    ensures lines { LinesAreLines }
    ensures all { LinesHold }
{}

/// The lines of a type, and of a term, can be obeyed wherever tables and state fit, and they fit then.
pub fn lines_can_be_obeyed()
    ensures types { TypesStep }
    ensures terms { TermsStep }
{}

/// A state that fits declares what the entries of the tables say.
pub fn declared_entries()
    ensures terms { TermsAreDeclared }
    ensures types { TypesAreDeclared }
    ensures functions { FunctionsAreDeclared }
{}
