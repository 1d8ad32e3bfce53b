//! Numbers in an expression.
ghost use Rattle.std.specs.Prelude.{◌≡◌, ◌+◌, ◌*◌, ◌<◌, ◌≤◌, ◌&&◌, nat_lt, length, drop};
ghost use Rattle.hs_syntax.specs.Numbers.{digit_of, capped, number_at, decimal_at};

/// What digits spell, 4,294,967,295 where that is more, and how many they are.
#[derive(Clone, Copy)]
pub(crate) struct Number {
    /// The value.
    pub(crate) value: u32,
    /// The number of digits.
    pub(crate) count: usize,
}

/// The value of a digit in a base up to 16, 16 where the byte is none.
#[tactic(auto, unfolding(crate::specs::Numbers::digit_of))]
fn digit_of(byte: u8) -> u32
    ensures { result ≡ digit_of byte }
{
    match byte {
        b'0'..=b'9' => (byte - b'0') as u32,
        b'a'..=b'f' => (byte - b'a') as u32 + 10,
        b'A'..=b'F' => (byte - b'A') as u32 + 10,
        _ => 16,
    }
}

/// The value with a digit behind it.
fn with_digit(value: u32, radix: u32, digit: u32) -> u32
    requires base { radix ≤ 16 }
    requires digit { digit < radix }
    ensures { result ≡ capped (value * radix + digit) }
{
    let whole = value as u64 * radix as u64 + digit as u64;
    if whole < u32::MAX as u64 {
        whole as u32
    } else {
        u32::MAX
    }
}

/// Whether a digit behind so many others is read.
fn is_more(count: usize, most: usize, digit: u32, radix: u32) -> bool
    ensures { result ≡ (nat_lt count most && nat_lt digit radix) }
{
    count < most && digit < radix
}

/// The digits from a place on, so many at most.
pub(crate) fn number_at(radix: u32, most: usize, bytes: &[u8], at: usize) -> Number
    requires positive { 0 < radix }
    requires base { radix ≤ 16 }
    requires within { at ≤ length bytes.now }
    ensures is { result ≡ number_at radix most bytes.now at }
    ensures within { at + result.count ≤ length bytes.now }
{
    let mut value = 0;
    let mut count = 0;
    let mut rest = &bytes[at..];
    while let [byte, behind @ ..] = rest {
        let digit = digit_of(*byte);
        if !is_more(count, most, digit, radix) {
            break;
        }
        value = with_digit(value, radix, digit);
        count += 1;
        rest = behind;
    }
    Number { value, count }
}

/// The decimal digits from a place on.
pub(crate) fn decimal_at(bytes: &[u8], at: usize) -> Number
    requires within { at ≤ length bytes.now }
    ensures is { result ≡ decimal_at bytes.now at }
    ensures within { at + result.count ≤ length bytes.now }
{
    number_at(10, bytes.len(), bytes, at)
}
