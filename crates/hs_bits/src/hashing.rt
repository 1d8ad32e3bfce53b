//! A number by which bytes are looked for in a table.

ghost use Rattle.std.specs.Prelude.{◌≡◌, ◌+◌, ◌*◌, ◌%◌, ◌<◌, ◌≤◌, length};

use crate::words::{WORD_BYTES, word_at};

/// An odd number with about as many set bits as not, by which words are mixed.
const MIXER: u64 = 0xD6E8_FEB8_6659_FD93;

/// How many words are mixed side by side, so that none of them waits for the one before.
const LANES: usize = 4;

/// A number below 2^15 that is equal for equal bytes and seeds, and unequal nearly always for others. Only whole words
/// of eight bytes count, and not what is left behind the last one.
#[inline(always)]
pub fn hash_of(seed: u64, bytes: &[u8]) -> usize
    ensures { result < 32768 }
{
    let count = bytes.len() / WORD_BYTES;
    let whole = count - count % LANES;
    let mut mixed = of_lanes(lanes_of(seed, bytes, whole));
    for word in whole..count {
        mixed = with_word(mixed, bytes, word);
    }
    (mixed >> 49) as usize
}

/// The first so many words mixed in lanes, each lane with every fourth word.
#[inline(always)]
fn lanes_of(seed: u64, bytes: &[u8], whole: usize) -> [u64; LANES]
    requires four { whole % 4 ≡ 0 }
    requires there { 8 * whole ≤ length bytes.now }
    ensures { length result ≡ 4 }
{
    let (mut a, mut b, mut c, mut d) = (seed, 0, 0, 0);
    for group in 0..whole / LANES {
        let first = LANES * group;
        a = with_word(a, bytes, first);
        b = with_word(b, bytes, first + 1);
        c = with_word(c, bytes, first + 2);
        d = with_word(d, bytes, first + 3);
    }
    [a, b, c, d]
}

/// The lanes as one number.
#[inline(always)]
fn of_lanes(lanes: [u64; LANES]) -> u64 {
    let [a, b, c, d] = lanes;
    mixed_with(mixed_with(mixed_with(a, b), c), d)
}

/// The number with the word of that place mixed in.
#[inline(always)]
fn with_word(mixed: u64, bytes: &[u8], word: usize) -> u64
    requires { 8 * word + 8 ≤ length bytes.now }
{
    mixed_with(mixed, word_at(bytes, WORD_BYTES * word))
}

/// One number mixed into another.
#[inline(always)]
fn mixed_with(mixed: u64, number: u64) -> u64 {
    (mixed.rotate_left(29) ^ number).wrapping_mul(MIXER)
}
