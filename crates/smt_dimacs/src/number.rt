// Numbers up to a limit.
ghost use Rattle.std.specs.Prelude.{◌≡◌, ◌<◌, ◌≤◌, IfNone, IfSome, IsTrue};
ghost use Rattle.law_texts.specs.Digits.{decimal_number, is_numeral};

use smt_text::digits::number;

/// The number that digits write, where it is at most this.
pub(crate) fn number_up_to(digits: &[u8], most: u32) -> Option<u32>
    requires { IsTrue (is_numeral digits.now) }
    ensures value { IfSome result (λ n. n ≡ decimal_number digits.now) }
    ensures within { IfSome result (λ n. n ≤ most) }
    ensures none { IfNone result (most < decimal_number digits.now) }
{
    match number(digits) {
        Some(n) if n <= u64::from(most) => Some(n as u32),
        _ => None,
    }
}
