//! At which of up to 64 bytes a member of a set stands, sixteen bytes at a time.
//!
//! A set is seen as two tables of sixteen bytes, the first for the bytes below 128. Bit `b % 8` of the entry
//! `b / 8 % 16` is whether the byte `b` is a member.

ghost use Rattle.std.specs.Prelude.{◌≡◌, ℕ, ◌+◌, ◌/◌, ◌%◌, ◌<◌, ◌≤◌, ◌==◌, Bool, map, length, slice_index, nat_lt};
ghost use Rattle.std.specs.Int.{bit_at};
ghost use Rattle.std.specs.Simd.Lanes.{sel_l};
ghost use Rattle.hs_base.specs.Bits.{has_bit};
ghost use Rattle.hs_base.specs.ByteSets.{has};
ghost use Rattle.hs_bits.specs.MemberPlaces.{ArePlacesOf, in_tables};

use hs_base::ByteSet;
use std::simd::prelude::*;

/// For the low three bits of a byte, the bit that stands for it.
const BITS: [u8; 16] = [1, 2, 4, 8, 16, 32, 64, 128, 1, 2, 4, 8, 16, 32, 64, 128];

/// A set as two tables.
#[derive(Clone, Copy, Debug)]
struct Tables {
    first: [u8; 16],
    second: [u8; 16],
}

/// The places of up to 64 bytes at which a member of the set stands: a bit for each.
#[inline]
pub fn member_places(set: &ByteSet, bytes: &[u8]) -> u64
    requires { length bytes.now ≤ 64 }
    ensures { ArePlacesOf (has set.now) bytes.now (length bytes.now) result }
{
    let tables = Tables::of(set);
    let mut places = 0;
    let mut at = 0;
    while bytes.len() - at >= u8x16::LEN {
        places = tables.with_lanes(places, bytes, at);
        at += u8x16::LEN;
    }
    with_rest(places, set, bytes, at)
}

impl Tables {
    /// The tables of a set.
    #[inline(always)]
    fn of(set: &ByteSet) -> Tables
        ensures { (b : ℕ) → b < 256 → in_tables result.first result.second b ≡ has set.now b }
    {
        let [w0, w1, w2, w3] = set.words();
        Tables {
            first: table_of(w0, w1),
            second: table_of(w2, w3),
        }
    }

    /// The places so far, and those among sixteen bytes from one on.
    #[inline(always)]
    fn with_lanes(&self, places: u64, bytes: &[u8], at: usize) -> u64
        requires few { length bytes.now ≤ 64 }
        requires within { at + 16 ≤ length bytes.now }
        ensures { (test : ℕ → Bool) →
            ((b : ℕ) → b < 256 → in_tables self.now.first self.now.second b ≡ test b) →
            ArePlacesOf test bytes.now at places →
            ArePlacesOf test bytes.now (at + 16) result }
    {
        places | (self.lane_places(u8x16::from_slice(&bytes[at..])) << at)
    }

    /// The places among sixteen bytes.
    #[inline(always)]
    fn lane_places(&self, lanes: u8x16) -> u64
        ensures { ArePlacesOf (in_tables self.now.first self.now.second) lanes 16 result }
    {
        let entries = entries_of(lanes);
        let members = by_half(
            lanes,
            looked_up(self.first, entries),
            looked_up(self.second, entries),
        );
        let bits = looked_up(BITS, low_bits(lanes));
        (members & bits).simd_ne(u8x16::splat(0)).to_bitmask()
    }
}

/// The bytes of two words, the low ones first.
#[inline(always)]
fn table_of(low: u64, high: u64) -> [u8; 16]
    ensures low { (k : ℕ) → k < 64 → has_bit result k ≡ (bit_at low k == 1) }
    ensures high { (k : ℕ) → k < 64 → has_bit result (64 + k) ≡ (bit_at high k == 1) }
{
    let [a0, a1, a2, a3, a4, a5, a6, a7] = low.to_le_bytes();
    let [b0, b1, b2, b3, b4, b5, b6, b7] = high.to_le_bytes();
    [
        a0, a1, a2, a3, a4, a5, a6, a7, b0, b1, b2, b3, b4, b5, b6, b7,
    ]
}

/// The entry of each byte in its table.
#[inline(always)]
fn entries_of(lanes: u8x16) -> u8x16
    ensures { result ≡ map (λ b. b / 8 % 16) lanes }
{
    (lanes >> u8x16::splat(3)) & u8x16::splat(15)
}

/// The low three bits of each byte.
#[inline(always)]
fn low_bits(lanes: u8x16) -> u8x16
    ensures { result ≡ map (λ b. b % 8) lanes }
{
    lanes & u8x16::splat(7)
}

/// What a table has at each place.
#[inline(always)]
fn looked_up(table: [u8; 16], places: u8x16) -> u8x16
    requires { (k : ℕ) → slice_index places k < 16 }
    ensures { result ≡ map (λ j. slice_index table j) places }
{
    u8x16::from_array(table).swizzle_dyn(places)
}

/// The lanes of `first` where the byte is below 128, and of `second` elsewhere.
#[inline(always)]
fn by_half(lanes: u8x16, first: u8x16, second: u8x16) -> u8x16
    ensures { result ≡ sel_l (map (λ b. nat_lt b 128) lanes) first second }
{
    lanes.simd_lt(u8x16::splat(128)).select(first, second)
}

/// The places so far, and those of all bytes from one on, one by one.
#[inline]
fn with_rest(places: u64, set: &ByteSet, bytes: &[u8], from: usize) -> u64
    requires few { length bytes.now ≤ 64 }
    requires within { from ≤ length bytes.now }
    requires before { ArePlacesOf (has set.now) bytes.now from places }
    ensures { ArePlacesOf (has set.now) bytes.now (length bytes.now) result }
{
    let mut places = places;
    for at in from..bytes.len() {
        places |= (set.contains(bytes[at]) as u64) << at;
    }
    places
}
