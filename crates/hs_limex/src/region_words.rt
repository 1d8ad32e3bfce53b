//! The words of a region: eight bytes at a time, and at its end those that there are.

ghost use Rattle.std.specs.Prelude.{◌≡◌, ℕ, ◌+◌, ◌*◌, ◌<◌, ◌≤◌, false, ◌&&◌, ◌||◌, IsTrue, nat_lt, length};
ghost use Rattle.hs_base.specs.Bits.{has_bit, has_word_bit};
ghost use Rattle.hs_limex.specs.SingleWords.{is_set};
ghost use Rattle.hs_limex.specs.WordTables.{RowsFit};

use crate::single::{load, store_word};
use hs_bits::{BYTE_BITS, WORD_BYTES, store, word_at};

/// The word of that number. Of less than eight bytes at the end it is made with those before them.
#[inline(always)]
pub(crate) fn word_of(bytes: &[u8], place: usize) -> u64
    requires { 8 * place < length bytes.now }
    ensures { (i : ℕ) → i < 64 → is_set result i ≡ has_bit bytes.now (64 * place + i) }
{
    let start = WORD_BYTES * place;
    if start + WORD_BYTES <= bytes.len() {
        word_at(bytes, start)
    } else if bytes.len() >= WORD_BYTES {
        word_at(bytes, bytes.len() - WORD_BYTES) >> (BYTE_BITS * (start + WORD_BYTES - bytes.len()))
    } else {
        load(bytes)
    }
}

/// The bits of the bytes as a row.
#[inline(always)]
pub(crate) fn load_row<const W: usize>(bytes: &[u8]) -> [u64; W]
    requires { length bytes.now ≤ 8 * W }
    ensures len { length result ≡ W }
    ensures bits { (k : ℕ) → has_word_bit result k ≡ has_bit bytes.now k }
{
    if W == 1 {
        return [load(bytes); W];
    }
    let mut row = [0u64; W];
    unite_region(&mut row, bytes);
    row
}

/// Makes the bits of the bytes those of the row.
#[inline(always)]
pub(crate) fn store_row<const W: usize>(row: &[u64], bytes: &mut [u8])
    requires row { length row.now ≡ W }
    requires bytes { length bytes.old ≤ 8 * W }
    ensures len { length bytes.new ≡ length bytes.old }
    ensures bits { (k : ℕ) → has_bit bytes.new k ≡ (nat_lt k (8 * length bytes.old) && has_word_bit row.now k) }
{
    if W == 1 {
        store_word(row[0], bytes);
    } else {
        store_wide(row, bytes);
    }
}

/// The same for a row of any width: whole words, and then what is left of one.
#[inline(always)]
fn store_wide(row: &[u64], bytes: &mut [u8])
    requires { length bytes.old ≤ 8 * length row.now }
    ensures len { length bytes.new ≡ length bytes.old }
    ensures bits { (k : ℕ) → has_bit bytes.new k ≡ (nat_lt k (8 * length bytes.old) && has_word_bit row.now k) }
{
    let count = bytes.len() / WORD_BYTES;
    let whole = WORD_BYTES * count;
    store(row, &mut bytes[0..whole]);
    if whole < bytes.len() {
        let end = bytes.len();
        store_word(row[count], &mut bytes[whole..end]);
    }
}

/// Sets the bits that are set in the bytes.
#[inline(always)]
pub(crate) fn unite_region(words: &mut [u64], bytes: &[u8])
    requires { length bytes.now ≤ 8 * length words.old }
    ensures len { length words.new ≡ length words.old }
    ensures bits { (k : ℕ) → has_word_bit words.new k ≡ (has_bit bytes.now k || has_word_bit words.old k) }
{
    for place in 0..(bytes.len() + (WORD_BYTES - 1)) / WORD_BYTES {
        words[place] |= word_of(bytes, place);
    }
}

/// Whether no bit is set in both the bytes and the row, as rows of so many words are looked at.
#[inline(always)]
pub(crate) fn is_row_apart<const W: usize>(bytes: &[u8], row: &[u64]) -> bool
    requires bytes { length bytes.now ≤ 8 * length row.now }
    requires fits { RowsFit (length row.now) W }
    ensures { IsTrue result → (k : ℕ) → (has_bit bytes.now k && has_word_bit row.now k) ≡ false }
{
    if W == 1 {
        is_word_apart(bytes, row)
    } else {
        is_apart_from(bytes, row)
    }
}

/// The same for a row of one word.
#[inline(always)]
fn is_word_apart(bytes: &[u8], row: &[u64]) -> bool
    requires bytes { length bytes.now ≤ 8 * length row.now }
    requires row { length row.now ≡ 1 }
    ensures { IsTrue result → (k : ℕ) → (has_bit bytes.now k && has_word_bit row.now k) ≡ false }
{
    load(bytes) & row[0] == 0
}

/// Whether no bit is set in both the bytes and the row. Where the row has none, the bytes aren't read.
#[inline(always)]
pub(crate) fn is_apart_from(bytes: &[u8], row: &[u64]) -> bool
    requires { length bytes.now ≤ 8 * length row.now }
    ensures { IsTrue result → (k : ℕ) → (has_bit bytes.now k && has_word_bit row.now k) ≡ false }
{
    for place in 0..(bytes.len() + (WORD_BYTES - 1)) / WORD_BYTES {
        if shared(bytes, row[place], place) != 0 {
            return false;
        }
    }
    true
}

/// The bits of the word that are set in the word of that number too.
#[inline(always)]
fn shared(bytes: &[u8], word: u64, place: usize) -> u64
    requires { 8 * place < length bytes.now }
    ensures { (i : ℕ) → i < 64 → is_set result i ≡ (is_set word i && has_bit bytes.now (64 * place + i)) }
{
    if word == 0 {
        0
    } else {
        word & word_of(bytes, place)
    }
}
