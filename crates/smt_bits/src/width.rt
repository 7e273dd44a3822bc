//! How many bits a bitvector has.
ghost use Rattle.std.specs.Prelude.{◌≡◌, ◌+◌, ◌-◌, ◌%◌, ◌^◌, ◌<◌, ◌≤◌, ◌↔◌, ◌⊎◌, IsNone, IfSome};

/// A number of bits, from 1 to 128.
#[derive(Clone, Copy, Debug, PartialEq, Eq, PartialOrd, Ord, Hash)]
pub struct Width {
    bits: u32,
    pub ghost at_least_one: { 1 ≤ bits },
    pub ghost at_most_128: { bits ≤ 128 },
}

/// 1 bit.
pub const ONE: Width = Width { bits: 1 };
/// 2 bits.
pub const TWO: Width = Width { bits: 2 };
/// 5 bits, the width of an IPv4 prefix.
pub const FIVE: Width = Width { bits: 5 };
/// 7 bits, the width of an IPv6 prefix.
pub const SEVEN: Width = Width { bits: 7 };
/// 8 bits.
pub const EIGHT: Width = Width { bits: 8 };
/// 16 bits.
pub const SIXTEEN: Width = Width { bits: 16 };
/// 32 bits, the width of an IPv4 address.
pub const THIRTY_TWO: Width = Width { bits: 32 };
/// 64 bits, the width of a long.
pub const SIXTY_FOUR: Width = Width { bits: 64 };
/// 120 bits.
pub const HUNDRED_TWENTY: Width = Width { bits: 120 };
/// 128 bits, the width of an IPv6 address.
pub const HUNDRED_TWENTY_EIGHT: Width = Width { bits: 128 };

impl Width {
    ghost use Rattle.smt_bits.specs.Width.{bits_in};

    /// The width of `n` bits; nothing where `n` is 0 or above 128.
    ///
    /// # Examples
    ///
    /// ```
    /// use kembura::Width;
    /// use kembura::bits::SIXTY_FOUR;
    ///
    /// assert_eq!(rt; Width::new(64), Some(SIXTY_FOUR));
    /// assert_eq!(rt; Width::new(129), None);
    /// ```
    pub fn new(n: u32) -> Option<Width>
        ensures refused { IsNone result ↔ ((n ≡ 0) ⊎ (128 < n)) }
        ensures value { IfSome result (λ w. bits_in w ≡ n) }
    {
        if 1 <= n && n <= 128 {
            Some(Width { bits: n })
        } else {
            None
        }
    }

    /// The number of bits.
    pub fn get(self) -> u32
        ensures value { result ≡ bits_in self }
        ensures least { 1 ≤ result }
        ensures most { result ≤ 128 }
    {
        self.bits
    }

    // The number whose bits are all ones.
    pub(crate) fn ones(self) -> u128
        ensures { result ≡ 2 ^ bits_in self - 1 }
    {
        u128::MAX >> (128 - self.bits)
    }

    // The number whose highest bit alone is one.
    pub(crate) fn high_bit(self) -> u128
        ensures value { result ≡ 2 ^ (bits_in self - 1) }
        ensures doubled { result + result ≡ 2 ^ bits_in self }
    {
        1u128 << (self.bits - 1)
    }

    // The number modulo 2 to the width.
    pub(crate) fn reduce(self, number: u128) -> u128
        ensures value { result ≡ number % 2 ^ bits_in self }
        ensures below { result < 2 ^ bits_in self }
    {
        number & self.ones()
    }
}
