//! Bits in a row of words: 64 of them at a time.

ghost use Rattle.std.specs.Prelude.{◌≡◌, ◌↔◌, ℕ, ◌+◌, ◌-◌, ◌*◌, ◌/◌, ◌%◌, ◌<◌, ◌≤◌, ◌^◌, true, false, IsTrue, ◌&&◌};
ghost use Rattle.std.specs.Prelude.{◌||◌, ◌==◌, nat_lt, nat_le, length, slice_index, take, drop};
ghost use Rattle.std.specs.Int.{bit_at, from_le_bytes, w64};
ghost use Rattle.hs_base.specs.Bits.{AreZero, has_bit, has_word_bit, word_count};
ghost use Rattle.hs_bits.specs.Packed.{digits, packed};
ghost use Rattle.hs_bits.specs.Shifts.{is_shifted};

use crate::bytes::BYTE_BITS;

/// How many bits a word has.
pub const WORD_BITS: usize = 64;

/// How many bytes a word has.
pub const WORD_BYTES: usize = WORD_BITS / BYTE_BITS;

/// How many words hold a bit for each of so many.
pub fn word_count_for(count: usize) -> usize
    requires { count < 2 ^ 63 }
    ensures { result ≡ word_count count }
{
    (count + (WORD_BITS - 1)) / WORD_BITS
}

/// Whether the bit of that number is set.
#[inline(always)]
#[tactic(auto, using(std::proofs::lemmas::Nat::Bits::shr_and_one), unfolding(hs_base::specs::Bits::has_word_bit))]
pub fn contains_word_bit(words: &[u64], bit: usize) -> bool
    requires { bit < 64 * length words.now }
    ensures { result ≡ has_word_bit words.now bit }
{
    (words[bit / WORD_BITS] >> (bit % WORD_BITS)) & 1 == 1
}

/// Sets the bit of that number.
pub fn insert_word_bit(words: &mut [u64], bit: usize)
    requires { bit < 64 * length words.old }
    ensures len { length words.new ≡ length words.old }
    ensures bits { (k : ℕ) → has_word_bit words.new k ≡ ((k == bit) || has_word_bit words.old k) }
{
    words[bit / WORD_BITS] |= 1 << (bit % WORD_BITS);
}

/// Sets the bit of that number, if `value` says so.
pub fn put_word_bit(words: &mut [u64], bit: usize, value: bool)
    requires { bit < 64 * length words.old }
    ensures len { length words.new ≡ length words.old }
    ensures bits { (k : ℕ) → has_word_bit words.new k ≡ (((k == bit) && value) || has_word_bit words.old k) }
{
    if value {
        insert_word_bit(words, bit);
    }
}

/// Sets the bit of that number, or unsets it.
#[inline]
pub fn write_word_bit(words: &mut [u64], bit: usize, value: bool)
    requires { bit < 64 * length words.old }
    ensures len { length words.new ≡ length words.old }
    ensures put { has_word_bit words.new bit ≡ value }
    ensures others { (k : ℕ) → (k ≡ bit → ⊥) → has_word_bit words.new k ≡ has_word_bit words.old k }
{
    let at = bit / WORD_BITS;
    words[at] = with_bit(words[at], bit % WORD_BITS, value);
}

/// The word with the bit of that number set, or not set.
fn with_bit(word: u64, bit: usize, value: bool) -> u64
    requires { bit < 64 }
    ensures put { (bit_at result bit == 1) ≡ value }
    ensures others { (i : ℕ) → i < 64 → (i ≡ bit → ⊥) → bit_at result i ≡ bit_at word i }
{
    let mask = 1u64 << bit;
    if value { word | mask } else { word & !mask }
}

/// Unsets all bits.
pub fn clear_words(words: &mut [u64])
    ensures len { length words.new ≡ length words.old }
    ensures zero { AreZero words.new }
{
    for word in words.iter_mut() {
        *word = 0;
    }
}

/// Whether no bit is set.
pub fn is_unset(words: &[u64]) -> bool
    ensures { IsTrue result ↔ AreZero words.now }
{
    words.iter().all(|word| *word == 0)
}

/// The eight bytes from a place on as one word, the low one first.
#[inline(always)]
pub fn word_at(bytes: &[u8], at: usize) -> u64
    requires { at + 8 ≤ length bytes.now }
    ensures number { result ≡ from_le_bytes w64 (take 8 (drop at bytes.now)) }
    ensures bits { (i : ℕ) → i < 64 → (bit_at result i == 1) ≡ has_bit bytes.now (8 * at + i) }
{
    u64::from_le_bytes([
        bytes[at],
        bytes[at + 1],
        bytes[at + 2],
        bytes[at + 3],
        bytes[at + 4],
        bytes[at + 5],
        bytes[at + 6],
        bytes[at + 7],
    ])
}

/// Sets the bits that are set in the bytes. It takes eight bytes at a time, and one by one those that are left.
pub fn unite_bytes(words: &mut [u64], bytes: &[u8])
    requires { length bytes.now ≤ 8 * length words.old }
    ensures len { length words.new ≡ length words.old }
    ensures bits { (k : ℕ) → has_word_bit words.new k ≡ (has_bit bytes.now k || has_word_bit words.old k) }
{
    let whole = bytes.len() / WORD_BYTES;
    unite_whole_words(words, bytes, whole);
    for place in WORD_BYTES * whole..bytes.len() {
        unite_byte(words, bytes, place);
    }
}

/// Sets the bits that are set in so many times eight bytes.
fn unite_whole_words(words: &mut [u64], bytes: &[u8], count: usize)
    requires bytes { 8 * count ≤ length bytes.now }
    requires room { count ≤ length words.old }
    ensures len { length words.new ≡ length words.old }
    ensures bits { (k : ℕ) →
        has_word_bit words.new k ≡ ((nat_lt k (64 * count) && has_bit bytes.now k) || has_word_bit words.old k) }
{
    for place in 0..count {
        words[place] |= word_at(bytes, WORD_BYTES * place);
    }
}

/// Sets the bits that are set in that byte.
fn unite_byte(words: &mut [u64], bytes: &[u8], place: usize)
    requires place { place < length bytes.now }
    requires room { place < 8 * length words.old }
    ensures len { length words.new ≡ length words.old }
    ensures bits { (k : ℕ) →
        has_word_bit words.new k ≡ (((k / 8 == place) && has_bit bytes.now k) || has_word_bit words.old k) }
{
    words[place / WORD_BYTES] |= (bytes[place] as u64) << (BYTE_BITS * (place % WORD_BYTES));
}

/// Makes the bits of the bytes those of the words. It writes eight bytes at a time, and one by one those that are left.
#[inline(always)]
pub fn store(words: &[u64], bytes: &mut [u8])
    requires { length bytes.old ≤ 8 * length words.now }
    ensures len { length bytes.new ≡ length bytes.old }
    ensures bits { (k : ℕ) → has_bit bytes.new k ≡ (nat_lt k (8 * length bytes.old) && has_word_bit words.now k) }
    ensures packed { bytes.new ≡ packed (length bytes.old) (has_word_bit words.now) }
{
    let whole = bytes.len() / WORD_BYTES;
    store_whole_words(words, bytes, whole);
    for place in WORD_BYTES * whole..bytes.len() {
        bytes[place] = byte_of(words, place);
    }
}

/// Makes the bits of the first so many times eight bytes those of the words.
#[inline(always)]
fn store_whole_words(words: &[u64], bytes: &mut [u8], count: usize)
    requires bytes { 8 * count ≤ length bytes.old }
    requires room { count ≤ length words.now }
    ensures len { length bytes.new ≡ length bytes.old }
    ensures are { (i : ℕ) →
        i < 8 * count →
        slice_index bytes.new i ≡ digits 8 (λ k. has_word_bit words.now (8 * i + k)) }
{
    for place in 0..count {
        let start = WORD_BYTES * place;
        bytes[start..start + WORD_BYTES].copy_from_slice(&words[place].to_le_bytes());
    }
}

/// The byte of that number.
fn byte_of(words: &[u64], place: usize) -> u8
    requires { place < 8 * length words.now }
    ensures { result ≡ digits 8 (λ i. has_word_bit words.now (8 * place + i)) }
{
    ((words[place / WORD_BYTES] >> (BYTE_BITS * (place % WORD_BYTES))) & 0xff) as u8
}

/// Sets the bits that are set in the row too.
#[inline]
pub fn unite_words(words: &mut [u64], row: &[u64])
    requires { length row.now ≤ length words.old }
    ensures len { length words.new ≡ length words.old }
    ensures bits { (k : ℕ) → has_word_bit words.new k ≡ (has_word_bit row.now k || has_word_bit words.old k) }
{
    for place in 0..row.len() {
        words[place] |= row[place];
    }
}

/// Unsets the bits that aren't set in the row.
#[inline]
pub fn keep_words(words: &mut [u64], row: &[u64])
    requires { length row.now ≤ length words.old }
    ensures len { length words.new ≡ length words.old }
    ensures bits { (k : ℕ) →
        k < 64 * length row.now →
        has_word_bit words.new k ≡ (has_word_bit row.now k && has_word_bit words.old k) }
{
    for place in 0..row.len() {
        words[place] &= row[place];
    }
}

/// Whether no bit is set in both rows.
#[inline]
pub fn are_apart(words: &[u64], row: &[u64]) -> bool
    requires { length row.now ≤ length words.now }
    ensures { IsTrue result ↔ ((k : ℕ) → (has_word_bit words.now k && has_word_bit row.now k) ≡ false) }
{
    for place in 0..row.len() {
        if words[place] & row[place] != 0 {
            return false;
        }
    }
    true
}

/// Sets the bits that lie so many places behind one that is set in both rows.
pub fn shift_in(live: &[u64], row: &[u64], distance: usize, led: &mut [u64])
    requires live { length row.now ≤ length live.now }
    requires led { length row.now ≤ length led.old }
    requires near { distance < 64 }
    ensures len { length led.new ≡ length led.old }
    ensures bits { (k : ℕ) →
        has_word_bit led.new k ≡
        ((nat_lt k (64 * length row.now) && is_shifted live.now row.now distance k) || has_word_bit led.old k) }
{
    let mut carry = 0;
    for place in 0..row.len() {
        let moved = live[place] & row[place];
        led[place] |= shifted(moved, distance, carry);
        carry = carried(moved, distance);
    }
}

/// The bits of the word so many places on, with those that come from the word before.
fn shifted(word: u64, distance: usize, carry: u64) -> u64
    requires { distance < 64 }
    ensures { (i : ℕ) →
        i < 64 →
        (bit_at result i == 1) ≡ ((nat_le distance i && (bit_at word (i - distance) == 1)) || (bit_at carry i == 1)) }
{
    (word << distance) | carry
}

/// The bits that leave the word when they move so many places on.
fn carried(word: u64, distance: usize) -> u64
    requires { distance < 64 }
    ensures { (i : ℕ) → (bit_at result i == 1) ≡ (nat_lt i distance && (bit_at word (64 - distance + i) == 1)) }
{
    (word >> 1) >> (WORD_BITS - 1 - distance)
}
