//! Sets of positions as words of bits, while the states of an automaton are built.

ghost use Rattle.std.specs.Prelude.{◌≡◌, ◌↔◌, ℕ, ◌*◌, ◌<◌, ◌≤◌, ◌==◌, ◌&&◌, ◌||◌, false, IsTrue, length, slice_get};
ghost use Rattle.std.specs.Prelude.{vec_len};
ghost use Rattle.hs_base.specs.Bits.{has_word_bit};
ghost use Rattle.hs_base.specs.Contexts.{Context};
ghost use Rattle.hs_engine.specs.AnyBelow.{any_below};
ghost use Rattle.hs_engine.specs.Automata.{enters, follows, in_mask, in_set};
ghost use Rattle.hs_engine.specs.Between.{between};
ghost use Rattle.hs_engine.specs.Rows.{in_row};
ghost use Rattle.hs_states.specs.DfaStates.{kept_prev};
ghost use Rattle.hs_states.specs.Footings.{IsNumberAmong};

use hs_base::{ByteSet, MAX_POSITIONS, Mask, Next, Prev};
use hs_bits::{WORD_BITS, insert_word_bit, keep_words, next_bit_in, unite_bytes};
use hs_engine::FollowRows;

/// The words that hold a bit for each of the most positions.
pub const WIDTH: usize = MAX_POSITIONS as usize / WORD_BITS;

/// Some positions, and what stands at the same place. It is a state: the positions that are live, and what stands
/// before. Or it is what a byte does: the positions that take it, and what stands behind it.
#[derive(Clone, Copy, Debug)]
pub struct Footing {
    /// Position `k` is bit `k % 64` of word `k / 64`.
    pub positions: [u64; WIDTH],
    /// What stands at the same place.
    pub prev: Prev,
}

impl Footing {
    ghost use Rattle.hs_states.specs.Footings.{IsAlike};

    /// The footing without a position.
    pub fn empty(prev: Prev) -> Footing
        ensures none { (k : ℕ) → has_word_bit result.positions k ≡ false }
        ensures prev { result.prev ≡ prev }
    {
        Footing {
            positions: [0; WIDTH],
            prev,
        }
    }

    /// What a byte does: the positions that take it, with what stands behind it.
    pub fn of_byte(sets: &[ByteSet], byte: u8, prev: Prev) -> Footing
        requires few { length sets.now ≤ 512 }
        ensures takes { (k : ℕ) → has_word_bit result.positions k ≡ in_set (slice_get sets.now k) byte }
        ensures prev { result.prev ≡ prev }
    {
        Footing {
            positions: takers(sets, byte),
            prev,
        }
    }

    /// Whether it has the same positions, and the same stands there.
    pub fn is_alike(&self, other: &Footing) -> bool
        ensures { IsTrue result ↔ IsAlike self.now other.now }
    {
        self.prev == other.prev && are_alike(&self.positions, &other.positions)
    }
}

/// Whether the same bits are set.
fn are_alike(words: &[u64; WIDTH], others: &[u64; WIDTH]) -> bool
    ensures { IsTrue result ↔ ((k : ℕ) → has_word_bit words.now k ≡ has_word_bit others.now k) }
{
    for place in 0..WIDTH {
        if words[place] != others[place] {
            return false;
        }
    }
    true
}

/// The positions whose set has the byte.
fn takers(sets: &[ByteSet], byte: u8) -> [u64; WIDTH]
    requires { length sets.now ≤ 512 }
    ensures { (k : ℕ) → has_word_bit result k ≡ in_set (slice_get sets.now k) byte }
{
    let mut words = [0; WIDTH];
    for position in 0..sets.len() {
        insert_if(&mut words, position, sets[position].contains(byte));
    }
    words
}

/// The positions whose mask has the context.
pub(crate) fn entered(masks: &[Mask], prev: Prev, next: Next) -> [u64; WIDTH]
    requires { length masks.now ≤ 512 }
    ensures { (k : ℕ) → has_word_bit result k ≡ in_mask (slice_get masks.now k) (between prev next) }
{
    let mut words = [0; WIDTH];
    for position in 0..masks.len() {
        insert_if(&mut words, position, masks[position].contains(prev, next));
    }
    words
}

/// Sets the bit of that number, if it is wanted.
fn insert_if(words: &mut [u64; WIDTH], position: usize, wanted: bool)
    requires { position < 512 }
    ensures { (k : ℕ) →
        has_word_bit words.new k ≡ (((k == position) && wanted) || has_word_bit words.old k) }
{
    if wanted {
        insert_word_bit(words, position);
    }
}

/// Unsets the bits that aren't set in the row.
pub(crate) fn keep(words: &mut [u64; WIDTH], row: &[u64; WIDTH])
    ensures { (k : ℕ) → has_word_bit words.new k ≡ (has_word_bit row.now k && has_word_bit words.old k) }
{
    keep_words(words, row);
}

/// Sets the bits of the positions that follow those that are live.
pub(crate) fn add_followers(
    rows: &FollowRows,
    live: &[u64; WIDTH],
    prev: Prev,
    next: Next,
    led: &mut [u64; WIDTH],
)
    ensures { (k : ℕ) →
        has_word_bit led.new k ≡
        (any_below rows.now.size (λ x. has_word_bit live.now x && in_row rows.now x k (between prev next))
        || has_word_bit led.old k) }
{
    let size = rows.size();
    let mut from = 0;
    while let Some(position) = next_bit_in(live, from, size) {
        unite_bytes(led, rows.row(prev, next, position));
        from = position + 1;
    }
}

/// What states keep of what stands before: nothing, where the expression has no assertion.
pub fn kept_prev(has_assertion: bool, prev: Prev) -> Prev
    ensures { result ≡ kept_prev has_assertion prev }
{
    if has_assertion { prev } else { Prev::Other }
}

/// The number of a footing that is like that one; None exactly where there is none.
pub(crate) fn number_among(footings: &[Footing], one: &Footing) -> Option<usize>
    ensures { IsNumberAmong footings.now one.now result }
{
    for number in 0..footings.len() {
        if footings[number].is_alike(one) {
            return Some(number);
        }
    }
    None
}
