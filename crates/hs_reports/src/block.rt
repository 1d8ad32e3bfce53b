//! The reports of a block, from the words of the identifiers that it concerns.

ghost use Rattle.std.specs.Prelude.{◌≡◌, ◌≢◌, ℕ, ◌+◌, ◌<◌, ◌^◌, false, length};
ghost use Rattle.hs_base.proofs.PairListLemmas.{one_told};
ghost use Rattle.hs_reports.specs.Chunks.{chunk_pairs, pairs_where};
ghost use Rattle.hs_reports.specs.Events.{Through};
ghost use Rattle.hs_reports.specs.Identifiers.{id_numbers};
ghost use Rattle.hs_reports.specs.WordBits.{row_bit, word_bit};

use crate::events::Events;
use crate::terminal::places_to;
use hs_base::ExprId;
use hs_bits::{lowest_bit, without_lowest_bit};

/// Reports what a block at the offset `at` decides, of which `last` is the place of the last byte, byte by byte: the
/// pairs that end before the byte, and then those that end behind it, each by identifier. `lates` and `earlies` have
/// the words of each of these identifiers, which rise; what they have behind the last byte isn't told.
pub fn tell_block<V: Events>(
    ids: &[ExprId],
    lates: &[u64],
    earlies: &[u64],
    at: u64,
    last: usize,
    events: &mut V,
)
    requires lates { length lates.now ≡ length ids.now }
    requires earlies { length earlies.now ≡ length ids.now }
    requires room { at < 2 ^ 63 }
    requires last { last < 64 }
    ensures { Through V.tells events.old
        (chunk_pairs (id_numbers ids.now) (row_bit lates.now) (row_bit earlies.now) at (last + 1)) events.new }
{
    let late = united(lates);
    let early = united(earlies);
    let mut left = (late | early) & places_to(last as u64);
    while left != 0 {
        let place = lowest_bit(left);
        let here = at + place as u64;
        tell_any(ids, lates, late, place, here, events);
        tell_any(ids, earlies, early, place, here + 1, events);
        left = without_lowest_bit(left);
    }
}

/// The bits that are set in one of the words.
fn united(words: &[u64]) -> u64
    ensures { (i : ℕ) → word_bit result i ≡ false → (k : ℕ) → row_bit words.now k i ≡ false }
{
    let mut all = 0;
    for word in words {
        all |= *word;
    }
    all
}

/// Reports the pairs with the end `to` of those identifiers whose words have the bit of that place, if one of them may:
/// `all` has the bits that are set in a word.
fn tell_any<V: Events>(
    ids: &[ExprId],
    words: &[u64],
    all: u64,
    place: usize,
    to: u64,
    events: &mut V,
)
    requires words { length words.now ≡ length ids.now }
    requires all { (i : ℕ) → word_bit all i ≡ false → (k : ℕ) → row_bit words.now k i ≡ false }
    requires place { place < 64 }
    ensures { Through V.tells events.old
        (pairs_where (id_numbers ids.now) (λ k. row_bit words.now k place) to) events.new }
{
    if has_bit(all, place) {
        tell_place(ids, words, place, to, events);
    }
}

/// Reports the pairs with the end `to` of those identifiers whose words have the bit of that place.
fn tell_place<V: Events>(ids: &[ExprId], words: &[u64], place: usize, to: u64, events: &mut V)
    requires words { length words.now ≡ length ids.now }
    requires place { place < 64 }
    ensures { Through V.tells events.old
        (pairs_where (id_numbers ids.now) (λ k. row_bit words.now k place) to) events.new }
{
    for k in 0..ids.len() {
        tell_if(has_bit(words[k], place), ids[k], to, events);
    }
}

/// Reports the pair if it is due.
fn tell_if<V: Events>(is_due: bool, id: ExprId, to: u64, events: &mut V)
    ensures { Through V.tells events.old (one_told is_due id.0 to) events.new }
{
    if is_due {
        events.report(id, to);
    }
}

/// Whether the bit of that place is set.
pub(crate) fn has_bit(word: u64, place: usize) -> bool
    requires { place < 64 }
    ensures { result ≡ word_bit word place }
{
    (word >> place) & 1 == 1
}
