// Gates of a circuit, each over inputs and earlier gates.
ghost use Rattle.std.specs.Prelude.{◌≡◌, ◌∷◌, [], ℕ, Bool, List, map};
ghost use Rattle.smt_mini.specs.Gates.{gate_value, value_at};
ghost use Rattle.law_verdicts.specs.Truths.{connected};

/// A gate. Its parts are the places of earlier gates.
#[derive(Debug, Clone, Copy, PartialEq, Eq)]
pub enum Gate {
    /// The truth of the constant of this place, in order of declaration.
    Input(usize),
    /// `true` or `false`.
    Truth(bool),
    /// A negation.
    Not(usize),
    /// A conjunction.
    And(usize, usize),
    /// A disjunction.
    Or(usize, usize),
    /// Whether both have one truth.
    Eq(usize, usize),
    /// The second where the first is true, and else the third.
    Ite(usize, usize, usize),
}

/// The gate of a connective of two parts.
fn gate_of_two(connective: &str, first: usize, second: usize) -> Gate
    ensures { (at : ℕ → Bool) (done : List Bool) →
        gate_value at done result
        ≡ connected connective.now (value_at done first ∷ value_at done second ∷ []) }
{
    match connective {
        "and" => Gate::And(first, second),
        "or" => Gate::Or(first, second),
        _ => Gate::Eq(first, second),
    }
}

/// The gate of a connective.
pub fn gate_of(connective: &str, parts: &[usize]) -> Gate
    ensures { (at : ℕ → Bool) (done : List Bool) →
        gate_value at done result ≡ connected connective.now (map (value_at done) parts.now) }
{
    match parts {
        [part] => Gate::Not(*part),
        [first, second] => gate_of_two(connective, *first, *second),
        [guard, yes, no] => Gate::Ite(*guard, *yes, *no),
        _ => Gate::Truth(false),
    }
}
