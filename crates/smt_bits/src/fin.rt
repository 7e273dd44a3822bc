//! Numbers below a bound.
ghost use Rattle.std.specs.Prelude.{◌≡◌, ◌<◌, ◌≤◌, ◌↔◌, IsNone, IfSome};

use crate::number::Nat;

/// A number below an upper bound. The order is by the bound, then by the number.
#[derive(Clone, Copy, Debug, PartialEq, Eq, PartialOrd, Ord, Hash)]
pub struct Fin {
    upper_bound: Nat,
    number: Nat,
    pub ghost below_bound: { number < upper_bound },
}

impl Fin {
    ghost use Rattle.smt_bits.specs.Fin.{bound_of, value_of};

    /// The number `v` under this bound; nothing where it is not below the bound.
    pub fn try_new(upper_bound: Nat, v: Nat) -> Option<Fin>
        ensures refused { IsNone result ↔ (upper_bound ≤ v) }
        ensures bound { IfSome result (λ f. bound_of f ≡ upper_bound) }
        ensures value { IfSome result (λ f. value_of f ≡ v) }
    {
        if v < upper_bound {
            Some(Fin {
                upper_bound,
                number: v,
            })
        } else {
            None
        }
    }

    /// The number.
    pub fn to_nat(&self) -> Nat
        ensures value { result ≡ value_of self.now }
        ensures below { result < bound_of self.now }
    {
        self.number
    }
}
