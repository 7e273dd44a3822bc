// Which operators have a circuit, in groups.
ghost use Rattle.std.specs.Prelude.{◌≡◌, IfNone, IfSome, false};
ghost use Rattle.law_blasting.specs.Refusals.{is_supported};
ghost use Rattle.smt_blast.specs.CircuitView.{operator_of};
ghost use Rattle.smt_term.specs.View.{plain_op};

use smt_term::Op;

/// What goes from bit to bit.
#[derive(Clone, Copy)]
pub(crate) enum Chain {
    /// The carry of a sum.
    Carry,
    /// The borrow of a difference.
    Borrow,
}

/// A connective of Booleans, of one or two of them.
#[derive(Clone, Copy)]
pub(crate) enum Connective {
    /// Conjunction.
    And,
    /// Negation.
    Not,
    /// Disjunction.
    Or,
}

/// Where the bits of a shift go.
#[derive(Clone, Copy)]
pub(crate) enum Direction {
    /// To the higher places.
    Up,
    /// To the lower places.
    Down,
}

/// A comparison of two bitvectors.
#[derive(Clone, Copy)]
pub(crate) enum Comparison {
    /// Signed less-than-or-equal.
    SignedAtMost,
    /// Signed less-than.
    SignedLess,
    /// Less-than-or-equal.
    AtMost,
    /// Less-than.
    Less,
}

/// An operator that has a circuit.
#[derive(Clone, Copy)]
pub(crate) enum Circuit {
    /// A connective.
    Logic(Connective),
    /// Equality, bit by bit.
    Equal,
    /// A choice, bit by bit.
    Choice,
    /// A sum or a difference.
    Sum(Chain),
    /// Whether a sum or a difference leaves the signed range.
    Overflow(Chain),
    /// A negation, which is a difference from zero.
    Negation,
    /// Whether a negation leaves the signed range.
    NegationOverflow,
    /// A shift.
    Shift(Direction),
    /// A comparison.
    Test(Comparison),
    /// The same bits with so many zeros above them.
    ZeroExtension(u32),
}

/// The circuit of an operator, if it has one. Takes no memory.
pub(crate) fn circuit_of(op: &Op) -> Option<Circuit>
    ensures found { IfSome result (λ circuit. plain_op op.now ≡ operator_of circuit) }
    ensures none { IfNone result (is_supported (plain_op op.now) ≡ false) }
{
    match op {
        Op::And => Some(Circuit::Logic(Connective::And)),
        Op::Not => Some(Circuit::Logic(Connective::Not)),
        Op::Or => Some(Circuit::Logic(Connective::Or)),
        Op::Eq => Some(Circuit::Equal),
        Op::Ite => Some(Circuit::Choice),
        Op::Bvadd => Some(Circuit::Sum(Chain::Carry)),
        Op::Bvsub => Some(Circuit::Sum(Chain::Borrow)),
        Op::Bvsaddo => Some(Circuit::Overflow(Chain::Carry)),
        Op::Bvssubo => Some(Circuit::Overflow(Chain::Borrow)),
        Op::Bvneg => Some(Circuit::Negation),
        Op::Bvnego => Some(Circuit::NegationOverflow),
        Op::Bvshl => Some(Circuit::Shift(Direction::Up)),
        Op::Bvlshr => Some(Circuit::Shift(Direction::Down)),
        Op::Bvsle => Some(Circuit::Test(Comparison::SignedAtMost)),
        Op::Bvslt => Some(Circuit::Test(Comparison::SignedLess)),
        Op::Bvule => Some(Circuit::Test(Comparison::AtMost)),
        Op::Bvult => Some(Circuit::Test(Comparison::Less)),
        Op::ZeroExtend(bits) => Some(Circuit::ZeroExtension(*bits)),
        // Products, quotients and remainders, and what is of other types.
        _ => None,
    }
}
