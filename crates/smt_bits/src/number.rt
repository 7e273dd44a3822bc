//! Whole numbers of 128 bits.
ghost use Rattle.std.specs.Prelude.{◌≡◌};

/// A whole number that is not negative.
pub type Nat = u128;

/// A whole number with a sign.
pub type Int = i128;

/// The number `v` as a [`Nat`].
pub fn nat(v: u32) -> Nat
    ensures { result ≡ v }
{
    u128::from(v)
}
