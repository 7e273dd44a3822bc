// Literals as numbers.
ghost use Rattle.std.specs.Prelude.{◌≡◌, ◌<◌};
ghost use Rattle.law_clauses.specs.Clauses.{negated};

/// A literal: 2n is the variable n, and 2n + 1 its negation.
pub type Literal = u32;

/// The literal of the same variable that is true where this one is not.
pub fn negation(literal: Literal) -> Literal
    ensures { result ≡ negated literal }
{
    if literal % 2 == 0 {
        literal + 1
    } else {
        literal - 1
    }
}
