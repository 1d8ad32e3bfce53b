//! Keys: the last bytes of a literal or in front of a place, without the case of letters.

ghost use Rattle.std.specs.Prelude.{◌≡◌, ◌≤◌, ◌<◌, ◌+◌, ◌-◌, ◌^◌, ◌++◌, ℕ, length, map, slice_index};
ghost use Rattle.hs_base.specs.LiteralView.{literal_byte};
ghost use Rattle.hs_confirm.specs.Keys.{folded, literal_place, text_place, eight_places, full_literal_key};
ghost use Rattle.hs_confirm.specs.Keys.{full_text_key, literal_key, IsMask, key_row};

use hs_base::LitByte;
use std::simd::prelude::*;

/// How many of the last bytes count for a key at most.
pub(crate) const KEY_LEN: u8 = 8;

/// The bit that a small letter has and its capital hasn't (The Unicode Standard, "C0 Controls and Basic Latin").
const CASE_BIT: u8 = 32;

/// What keys are multiplied by, so that each of their bits counts for the row: 2^64 by the golden ratio.
const KEY_SPREAD: u64 = 0x9E37_79B9_7F4A_7C15;

/// How many of the product's bits are left out: those below hold too few of the key's bits.
const LOW_BITS: u32 = 40;

/// The byte, a capital letter as its small one.
fn folded(byte: u8) -> u8
    ensures { result ≡ folded byte }
{
    byte | CASE_BIT
}

/// The folded byte so many places before the last one of the literal, or 0 where there is none.
fn literal_place(literal: &[LitByte], back: usize) -> u8
    ensures { result ≡ literal_place (map literal_byte literal.now) back }
{
    if back < literal.len() {
        folded(literal[literal.len() - 1 - back].byte)
    } else {
        0
    }
}

/// The folded byte so many places before the last one in front of `at`, or 0 where there is none.
fn text_place(history: &[u8], bytes: &[u8], at: usize, back: usize) -> u8
    requires { at ≤ length bytes.now }
    ensures { result ≡ text_place (history.now ++ bytes.now) (length history.now + at) back }
{
    if back < at {
        return folded(bytes[at - 1 - back]);
    }
    let early = back - at;
    if early < history.len() {
        folded(history[history.len() - 1 - early])
    } else {
        0
    }
}

/// The last eight bytes of a literal.
fn full_literal_key(literal: &[LitByte]) -> u64
    ensures { result ≡ full_literal_key (map literal_byte literal.now) }
{
    u64::from_le_bytes([
        literal_place(literal, 0),
        literal_place(literal, 1),
        literal_place(literal, 2),
        literal_place(literal, 3),
        literal_place(literal, 4),
        literal_place(literal, 5),
        literal_place(literal, 6),
        literal_place(literal, 7),
    ])
}

/// The last eight bytes in front of `at`, one by one.
#[cold]
fn early_key(history: &[u8], bytes: &[u8], at: usize) -> u64
    requires { at ≤ length bytes.now }
    ensures { result ≡ full_text_key (history.now ++ bytes.now) (length history.now + at) }
{
    u64::from_le_bytes([
        text_place(history, bytes, at, 0),
        text_place(history, bytes, at, 1),
        text_place(history, bytes, at, 2),
        text_place(history, bytes, at, 3),
        text_place(history, bytes, at, 4),
        text_place(history, bytes, at, 5),
        text_place(history, bytes, at, 6),
        text_place(history, bytes, at, 7),
    ])
}

/// Eight bytes from a place on as one number, the last of them the lowest.
#[inline(always)]
fn eight_bytes(bytes: &[u8], from: usize) -> u64
    requires { from + 8 ≤ length bytes.now }
    ensures { result ≡ eight_places (λ back. folded (slice_index bytes.now (from + 7 - back))) }
{
    let last = u8x8::from_slice(&bytes[from..]) | u8x8::splat(CASE_BIT);
    u64x1::from_le_bytes(last.reverse()).to_array()[0]
}

/// The last eight bytes in front of `at`, the first ones of them perhaps in `history`.
#[inline(always)]
pub fn full_text_key(history: &[u8], bytes: &[u8], at: usize) -> u64
    requires { at ≤ length bytes.now }
    ensures { result ≡ full_text_key (history.now ++ bytes.now) (length history.now + at) }
{
    if at < usize::from(KEY_LEN) {
        return early_key(history, bytes, at);
    }
    eight_bytes(bytes, at - usize::from(KEY_LEN))
}

/// The bits that count at a width.
pub(crate) fn mask_of(width: u8) -> u64
    ensures { IsMask width result }
{
    if width >= KEY_LEN {
        u64::MAX
    } else {
        (1 << (width * 8)) - 1
    }
}

/// The key of a literal: so many of its last bytes.
pub(crate) fn literal_key(literal: &[LitByte], width: u8) -> u64
    ensures { result ≡ literal_key width (map literal_byte literal.now) }
{
    full_literal_key(literal) & mask_of(width)
}

/// In which of so many rows the literals of that bucket and key stand.
#[inline(always)]
pub(crate) fn key_row(rows: usize, bucket: u8, key: u64) -> usize
    requires { 0 < rows }
    ensures row { result ≡ key_row rows bucket key }
    ensures within { result < rows }
{
    ((key.wrapping_mul(KEY_SPREAD) >> LOW_BITS) as usize + usize::from(bucket)) & (rows - 1)
}
