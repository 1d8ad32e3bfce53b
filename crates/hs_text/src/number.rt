//! Numbers in decimal digits.
ghost use Rattle.std.specs.Prelude.{◌≡◌, ℕ, ◌+◌, ◌-◌, ◌*◌, ◌^◌, ◌<◌, MatchOption, SomeIff};
ghost use Rattle.hs_text.specs.Numbers.{IsDigit, IsNumber};

/// The number that 1 to `most` decimal digits spell, where it has 64 bits.
pub fn number_of(digits: &[u8], most: usize) -> Option<u64>
    ensures { MatchOption result
        ((value : ℕ) → IsNumber most (2 ^ 64) digits.now value → ⊥)
        (λ value. IsNumber most (2 ^ 64) digits.now value) }
{
    if digits.is_empty() || digits.len() > most {
        return None;
    }
    let mut value: u64 = 0;
    for digit in digits {
        if !digit.is_ascii_digit() {
            return None;
        }
        let Some(longer) = with_digit(value, *digit) else {
            return None;
        };
        value = longer;
    }
    Some(value)
}

/// The number with one more decimal digit, where it has 64 bits.
fn with_digit(value: u64, digit: u8) -> Option<u64>
    requires { IsDigit digit }
    ensures { SomeIff result (value * 10 + (digit - 48) < 2 ^ 64) (value * 10 + (digit - 48)) }
{
    value.checked_mul(10)?.checked_add(u64::from(digit - b'0'))
}
