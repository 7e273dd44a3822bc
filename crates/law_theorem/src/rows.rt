ghost use Rattle.law_theorem.specs.CarryRows.{MemberCarries, MemberComesBack, NegationCarries};
ghost use Rattle.law_theorem.specs.CarryRows.{NegationComesBack, RecordCarries};
ghost use Rattle.law_theorem.specs.CarryRows.{RecordComesBack, SortsComeBack};

/// What values and interpretations are carried to, and back.
pub fn carried_rows()
    ensures negation { NegationCarries }
    ensures negation_back { NegationComesBack }
    ensures record_carries { RecordCarries }
    ensures record_back { RecordComesBack }
    ensures member { MemberCarries }
    ensures member_back { MemberComesBack }
    ensures sorts { SortsComeBack }
{}
