//! Places of a chunk as eight words, a bit for each.

ghost use Rattle.std.specs.Prelude.{◌≡◌, ℕ, ◌+◌, ◌-◌, ◌<◌, ◌≤◌, ◌&&◌, nat_lt, not, true, length};
ghost use Rattle.std.specs.Prelude.{slice_index};
ghost use Rattle.hs_base.specs.Bits.{has_word_bit};
ghost use Rattle.hs_engine.specs.AnyBelow.{any_below};
ghost use Rattle.hs_waking.specs.PlaceBits.{is_behind, place_bit};

use crate::class_words::{CHUNK_WORDS, CLASS_WORDS, MAX_CHUNK};
use crate::low_places::low_places;
use hs_bits::WORD_BITS;

/// Places of a chunk: a word for each of its blocks of 64 bytes, a bit for each place.
pub type Places = [u64; CHUNK_WORDS];
/// No place.
pub const NO_PLACES: Places = [0; CHUNK_WORDS];
/// All places, those behind the last byte too.
pub const ALL_PLACES: Places = [u64::MAX; CHUNK_WORDS];

/// All places before that one.
#[inline(always)]
pub(crate) fn places_before(end: usize) -> Places
    requires { end ≤ 512 }
    ensures { (p : ℕ) → p < 512 → has_word_bit result p ≡ nat_lt p end }
{
    if end == MAX_CHUNK {
        ALL_PLACES
    } else {
        some_places_before(end)
    }
}

/// The same, word by word.
#[inline(never)]
fn some_places_before(end: usize) -> Places
    requires { end ≤ 512 }
    ensures { (p : ℕ) → p < 512 → has_word_bit result p ≡ nat_lt p end }
{
    let mut places = NO_PLACES;
    for word in 0..CHUNK_WORDS {
        places[word] = low_places(end.saturating_sub(WORD_BITS * word).min(WORD_BITS));
    }
    places
}

/// Keeps the places behind which, so many places on, the class has its bit set.
#[inline(always)]
pub(crate) fn keep_open(places: &mut Places, class: &[u64], distance: usize)
    requires class { length class.now ≡ 9 }
    requires near { distance < 64 }
    ensures { (p : ℕ) → p < 512 →
        has_word_bit places.new p ≡ (has_word_bit places.old p && has_word_bit class.now (p + distance)) }
{
    for word in 0..CHUNK_WORDS {
        places[word] &= moved(class[word], class[word + 1], distance);
    }
}

/// Keeps the places behind those of which the class has the bit set, and the first place, if that is wanted.
#[inline(always)]
pub(crate) fn keep_behind(places: &mut Places, class: &[u64], first: bool)
    requires class { length class.now ≡ 9 }
    ensures { (p : ℕ) → p < 512 →
        has_word_bit places.new p ≡ (has_word_bit places.old p && is_behind first class.now p) }
{
    let before = one_later(class, first);
    keep_open(places, &before, WORD_BITS - 1);
}

/// The words with each bit 64 places on, and that of the place before these.
#[inline(always)]
fn one_later(class: &[u64], first: bool) -> [u64; CLASS_WORDS]
    requires class { length class.now ≡ 9 }
    ensures { (p : ℕ) → p < 512 → has_word_bit result (p + 63) ≡ is_behind first class.now p }
{
    let mut words = [0u64; CLASS_WORDS];
    words[0] = if first { 1 << (WORD_BITS - 1) } else { 0 };
    for word in 1..CLASS_WORDS {
        words[word] = class[word - 1];
    }
    words
}

/// The 64 bits that begin so many bits on in the first of two words.
#[inline(always)]
fn moved(word: u64, next: u64, distance: usize) -> u64
    requires { distance < 64 }
    ensures low { (i : ℕ) → i + distance < 64 → place_bit result i ≡ place_bit word (i + distance) }
    ensures high { (i : ℕ) → i < 64 → 64 ≤ i + distance → place_bit result i ≡ place_bit next (i + distance - 64) }
{
    (word >> distance) | ((next << 1) << (WORD_BITS - 1 - distance))
}

/// Whether there is none.
#[inline(always)]
pub fn is_none(places: &Places) -> bool
    ensures none { result ≡ not (any_below 512 (has_word_bit places.now)) }
    ensures zero { result ≡ true → (j : ℕ) → j < 8 → slice_index places.now j ≡ 0 }
{
    are_zero(places)
}

/// Whether all of these words are 0.
#[inline(always)]
fn are_zero(places: &[u64]) -> bool
    requires { length places.now ≡ 8 }
    ensures none { result ≡ not (any_below 512 (has_word_bit places.now)) }
    ensures zero { result ≡ true → (j : ℕ) → j < 8 → slice_index places.now j ≡ 0 }
{
    let mut any = 0;
    for word in 0..CHUNK_WORDS {
        any |= places[word];
    }
    any == 0
}
