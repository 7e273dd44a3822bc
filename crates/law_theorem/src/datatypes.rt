ghost use Rattle.law_theorem.specs.DeclaredDatatypes.{ColorsAreDeclared, DatatypesAreDeclared};
ghost use Rattle.law_theorem.specs.DeclaredDatatypes.{NewDatatypesAreDeclared};

/// Where constructors are declared, and nothing else builds values of their datatype, it is declared as carrying asks.
pub fn datatypes_are_declared()
    ensures { DatatypesAreDeclared }
{}

/// What carrying asks of a script is met by options and an enum type.
pub fn colors_are_declared()
    ensures { ColorsAreDeclared }
{}

/// So it is of a datatype whose line is obeyed where nothing built its values before.
pub fn new_datatypes_are_declared()
    ensures { NewDatatypesAreDeclared }
{}
