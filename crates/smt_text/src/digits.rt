//! Digits and signs at the front of a text.
ghost use Rattle.std.specs.Prelude.{◌≡◌, ◌^◌, ◌<◌, ◌∷◌, ℕ, List, length, reverse, ◌≤◌, IsTrue};
ghost use Rattle.std.specs.Prelude.{IfSome, IfNone, FitsSigned};
ghost use Rattle.std.specs.Int.{w64};
ghost use Rattle.std.specs.List.{list_all, take_while};
ghost use Rattle.std.specs.Option.{SomeIff};
ghost use Rattle.law_texts.specs.Characters.{is_digit};
ghost use Rattle.law_texts.specs.Digits.{is_numeral, decimal_number, signed_number};
ghost use Rattle.law_texts.specs.Front.{ReadsTo, IsRun, IsRunAtEnd, IsSigned, byte_at};

// Whether the byte is a decimal digit.
fn is_decimal(byte: u8) -> bool
    ensures { result ≡ is_digit byte }
{
    byte.is_ascii_digit()
}

// How many digits stand at the front of a text.
fn digits_len(text: &[u8]) -> usize
    ensures { result ≡ length (take_while is_digit text.now) }
{
    text.iter().take_while(|byte| is_decimal(**byte)).count()
}

/// The digits at the front of a text, all that stand there, and what follows them.
pub fn split_digits(text: &[u8]) -> (&[u8], &[u8])
    ensures { IsRun is_digit text.now result.0.now result.1.now }
{
    text.split_at(digits_len(text))
}

// How many digits stand at the end of a text.
fn last_digits_len(text: &[u8]) -> usize
    ensures value { result ≡ length (take_while is_digit (reverse text.now)) }
    ensures within { result ≤ length text.now }
{
    text.iter()
        .rev()
        .take_while(|byte| is_decimal(**byte))
        .count()
}

/// What stands before the digits at the end of a text, and these digits, all that stand there.
pub fn split_last_digits(text: &[u8]) -> (&[u8], &[u8])
    ensures { IsRunAtEnd is_digit text.now result.0.now result.1.now }
{
    text.split_at(text.len() - last_digits_len(text))
}

/// Whether each byte is a digit.
pub fn all_digits(text: &[u8]) -> bool
    ensures { result ≡ list_all is_digit text.now }
{
    text.iter().all(|byte| is_decimal(*byte))
}

/// Whether the text is digits alone, at least one.
pub fn are_digits(text: &[u8]) -> bool
    ensures { result ≡ is_numeral text.now }
{
    match text.split_first() {
        Some((first, rest)) => is_decimal(*first) && all_digits(rest),
        None => false,
    }
}

/// The number that the digits write, where it is below 2 to the 64.
pub fn number(digits: &[u8]) -> Option<u64>
    requires { IsTrue (list_all is_digit digits.now) }
    ensures { SomeIff result (decimal_number digits.now < 2 ^ 64) (decimal_number digits.now) }
{
    let mut value: u64 = 0;
    for digit in digits {
        value = value
            .checked_mul(10)?
            .checked_add(u64::from(*digit - b'0'))?;
    }
    Some(value)
}

/// The number that the digits write, where it is below 2 to the 128.
pub fn wide_number(digits: &[u8]) -> Option<u128>
    requires { IsTrue (list_all is_digit digits.now) }
    ensures { SomeIff result (decimal_number digits.now < 2 ^ 128) (decimal_number digits.now) }
{
    let mut value: u128 = 0;
    for digit in digits {
        value = value
            .checked_mul(10)?
            .checked_add(u128::from(*digit - b'0'))?;
    }
    Some(value)
}

/// What follows the byte, where the text begins with it.
#[tactic(auto, unfolding(law_texts::specs::Front::byte_at))]
pub fn behind(text: &[u8], byte: u8) -> Option<&[u8]>
    ensures found { IfSome result (λ rest. text.now ≡ byte ∷ rest.now) }
    ensures none { IfNone result ((rest : List ℕ) → text.now ≡ byte ∷ rest → ⊥) }
    ensures read { ReadsTo (λ rest. rest.now) result (byte_at byte text.now) }
{
    let (first, rest) = text.split_first()?;
    if *first == byte { Some(rest) } else { None }
}

/// Whether a minus stands first, and the text without it.
pub fn split_minus(text: &[u8]) -> (bool, &[u8])
    ensures { IsSigned text.now result.0 result.1.now }
{
    match behind(text, b'-') {
        Some(rest) => (true, rest),
        None => (false, text),
    }
}

/// The number with its sign, where it fits 64 bits.
pub fn with_sign(negative: bool, magnitude: u64) -> Option<i64>
    ensures { SomeIff result (FitsSigned w64 (signed_number negative magnitude))
        (signed_number negative magnitude) }
{
    if negative {
        0i64.checked_sub_unsigned(magnitude)
    } else {
        0i64.checked_add_unsigned(magnitude)
    }
}
