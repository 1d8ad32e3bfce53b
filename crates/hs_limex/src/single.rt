//! One word of bits: made bit by bit, moved on, read from a region and written to one.

ghost use Rattle.std.specs.Prelude.{◌≡◌, ◌↔◌, ℕ, ◌*◌, ◌/◌, ◌<◌, ◌≤◌, ◌==◌, ◌&&◌, ◌||◌, nat_lt, length, IsTrue};
ghost use Rattle.hs_base.specs.Bits.{AreZero, has_bit};
ghost use Rattle.hs_limex.specs.SingleWords.{is_moved_on, is_set};

use hs_bits::{BYTE_BITS, word_at};

/// The word with that bit set too, if it is wanted.
pub(crate) fn with_bit_if(word: u64, bit: usize, wanted: bool) -> u64
    requires { bit < 64 }
    ensures { (k : ℕ) → is_set result k ≡ (((k == bit) && wanted) || is_set word k) }
{
    if wanted { word | 1 << bit } else { word }
}

/// The first so many bits.
pub(crate) fn first_bits(count: usize) -> u64
    requires { count ≤ 64 }
    ensures { (k : ℕ) → is_set result k ≡ nat_lt k count }
{
    let mut word = 0;
    for bit in 0..count {
        word = with_bit_if(word, bit, true);
    }
    word
}

/// The bits of the word that are set in the row too, so many places on.
#[inline(always)]
pub(crate) fn moved_on(live: u64, row: u64, distance: usize) -> u64
    requires { distance < 64 }
    ensures { (k : ℕ) → k < 64 → is_set result k ≡ is_moved_on live row distance k }
{
    (live & row) << distance
}

/// The bits of at most eight bytes.
#[inline(always)]
pub(crate) fn load(bytes: &[u8]) -> u64
    requires { length bytes.now ≤ 8 }
    ensures { (k : ℕ) → is_set result k ≡ has_bit bytes.now k }
{
    match bytes.len() {
        8 => word_at(bytes, 0),
        _ => load_bytes(bytes),
    }
}

/// Whether no bit of at most eight bytes is set.
#[inline(always)]
pub(crate) fn is_clear(bytes: &[u8]) -> bool
    requires { length bytes.now ≤ 8 }
    ensures { IsTrue result ↔ AreZero bytes.now }
{
    load(bytes) == 0
}

/// The bits of at most seven bytes: of the first ones, which are read as one, and of the last ones.
#[inline(always)]
fn load_bytes(bytes: &[u8]) -> u64
    requires { length bytes.now ≤ 7 }
    ensures { (k : ℕ) → is_set result k ≡ has_bit bytes.now k }
{
    match bytes.len() {
        0 => 0,
        1 => with_byte(0, bytes, 0),
        2 | 3 => load_few(bytes),
        _ => load_many(bytes),
    }
}

/// The bits of two or three bytes.
#[inline(always)]
fn load_few(bytes: &[u8]) -> u64
    requires some { 2 ≤ length bytes.now }
    requires few { length bytes.now ≤ 3 }
    ensures { (k : ℕ) → is_set result k ≡ has_bit bytes.now k }
{
    let first = with_byte(0, bytes, 0);
    let two = with_byte(first, bytes, 1);
    with_byte(two, bytes, bytes.len() - 1)
}

/// The bits of four to seven bytes.
#[inline(always)]
fn load_many(bytes: &[u8]) -> u64
    requires some { 4 ≤ length bytes.now }
    requires few { length bytes.now ≤ 7 }
    ensures { (k : ℕ) → is_set result k ≡ has_bit bytes.now k }
{
    let first = with_byte(0, bytes, 0);
    let two = with_byte(first, bytes, 1);
    let three = with_byte(two, bytes, 2);
    let four = with_byte(three, bytes, 3);
    let count = bytes.len();
    let five = with_byte(four, bytes, count - 3);
    let six = with_byte(five, bytes, count - 2);
    with_byte(six, bytes, count - 1)
}

/// The word with the bits of the byte at the place.
#[inline(always)]
fn with_byte(word: u64, bytes: &[u8], place: usize) -> u64
    requires inside { place < length bytes.now }
    requires place { place < 8 }
    ensures { (k : ℕ) → is_set result k ≡ (((k / 8 == place) && has_bit bytes.now k) || is_set word k) }
{
    word | (bytes[place] as u64) << (BYTE_BITS * place)
}

/// Makes the bits of at most eight bytes those of the word.
#[inline(always)]
pub(crate) fn store_word(word: u64, bytes: &mut [u8])
    requires { length bytes.old ≤ 8 }
    ensures len { length bytes.new ≡ length bytes.old }
    ensures bits { (k : ℕ) → has_bit bytes.new k ≡ (nat_lt k (8 * length bytes.old) && is_set word k) }
{
    match bytes.len() {
        0 => {}
        1 => put_byte(word, bytes, 0),
        2 | 3 => store_few(word, bytes),
        8 => bytes.copy_from_slice(&word.to_le_bytes()),
        _ => store_many(word, bytes),
    }
}

/// Makes the bits of two or three bytes those of the word.
#[inline(always)]
fn store_few(word: u64, bytes: &mut [u8])
    requires some { 2 ≤ length bytes.old }
    requires few { length bytes.old ≤ 3 }
    ensures len { length bytes.new ≡ length bytes.old }
    ensures bits { (k : ℕ) → has_bit bytes.new k ≡ (nat_lt k (8 * length bytes.old) && is_set word k) }
{
    let count = bytes.len();
    put_byte(word, bytes, 0);
    put_byte(word, bytes, 1);
    put_byte(word, bytes, count - 1);
}

/// Makes the bits of four to seven bytes those of the word.
#[inline(always)]
fn store_many(word: u64, bytes: &mut [u8])
    requires some { 4 ≤ length bytes.old }
    requires few { length bytes.old ≤ 7 }
    ensures len { length bytes.new ≡ length bytes.old }
    ensures bits { (k : ℕ) → has_bit bytes.new k ≡ (nat_lt k (8 * length bytes.old) && is_set word k) }
{
    let count = bytes.len();
    put_byte(word, bytes, 0);
    put_byte(word, bytes, 1);
    put_byte(word, bytes, 2);
    put_byte(word, bytes, 3);
    put_byte(word, bytes, count - 3);
    put_byte(word, bytes, count - 2);
    put_byte(word, bytes, count - 1);
}

/// Makes the bits of the byte at the place those of the word there.
#[inline(always)]
fn put_byte(word: u64, bytes: &mut [u8], place: usize)
    requires inside { place < length bytes.old }
    requires place { place < 8 }
    ensures len { length bytes.new ≡ length bytes.old }
    ensures here { (k : ℕ) → k / 8 ≡ place → has_bit bytes.new k ≡ is_set word k }
    ensures kept { (k : ℕ) → has_bit bytes.old k ≡ is_set word k → has_bit bytes.new k ≡ is_set word k }
{
    bytes[place] = ((word >> (BYTE_BITS * place)) & 0xff) as u8;
}
