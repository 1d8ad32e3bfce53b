//! Levels of an automaton: the positions that may take the first byte of a match, the second and so on, as words with a
//! bit for each.

ghost use Rattle.std.specs.Prelude.{◌≡◌, ℕ, ◌<◌, ◌≤◌, true, false, length, slice_get};
ghost use Rattle.hs_base.specs.declared.context.Next.{Next};
ghost use Rattle.hs_base.specs.Bits.{has_word_bit};
ghost use Rattle.hs_base.specs.ByteSets.{has};
ghost use Rattle.hs_base.specs.Contexts.{Context};
ghost use Rattle.hs_engine.specs.Automata.{in_mask, in_set};
ghost use Rattle.hs_engine.specs.Between.{between};
ghost use Rattle.hs_engine.specs.Rows.{in_row};

use hs_base::{ByteSet, MAX_POSITIONS, Mask, Next, Prev};
use hs_bits::{WORD_BITS, contains_word_bit, insert_word_bit, unite_bytes};
use hs_engine::FollowRows;

/// How many words hold a bit for each of the most positions.
const LEVEL_WORDS: usize = MAX_POSITIONS as usize / WORD_BITS;

/// The positions of a level: a bit for each.
pub(crate) type Level = [u64; LEVEL_WORDS];

/// The positions that are entered in some context.
pub(crate) fn first_level(enters: &[Mask]) -> Level
    requires { length enters.now ≤ 512 }
    ensures { (x : ℕ) (c : Context) → in_mask (slice_get enters.now x) c ≡ true → has_word_bit result x ≡ true }
{
    let mut level = [0u64; LEVEL_WORDS];
    for position in 0..enters.len() {
        if is_used(enters, position) {
            insert_word_bit(&mut level, position);
        }
    }
    level
}

/// That position alone.
pub(crate) fn level_of(position: usize) -> Level
    requires { position < 512 }
    ensures { has_word_bit result position ≡ true }
{
    let mut level = [0u64; LEVEL_WORDS];
    insert_word_bit(&mut level, position);
    level
}

/// Whether the mask of the position has a context.
pub(crate) fn is_used(masks: &[Mask], position: usize) -> bool
    requires { position < length masks.now }
    ensures { (c : Context) → result ≡ false → in_mask (slice_get masks.now position) c ≡ false }
{
    masks[position] != Mask::empty()
}

/// The positions that follow one of a level in some context.
pub(crate) fn next_level(follows: &FollowRows, level: &Level) -> Level
    ensures { (x y : ℕ) (c : Context) →
        has_word_bit level.now x ≡ true →
        in_row follows.now x y c ≡ true →
        has_word_bit result y ≡ true }
{
    let mut next = [0u64; LEVEL_WORDS];
    for position in 0..follows.size() {
        if contains_word_bit(level, position) {
            add_followers(follows, position, &mut next);
        }
    }
    next
}

/// Adds the positions that follow that one in some context.
fn add_followers(follows: &FollowRows, position: usize, level: &mut [u64])
    requires position { position < follows.now.size }
    requires len { length level.old ≡ 8 }
    ensures len { length level.new ≡ 8 }
    ensures kept { (y : ℕ) → has_word_bit level.old y ≡ true → has_word_bit level.new y ≡ true }
    ensures added { (y : ℕ) (c : Context) →
        in_row follows.now position y c ≡ true →
        has_word_bit level.new y ≡ true }
{
    add_behind(follows, Prev::Start, position, level);
    add_behind(follows, Prev::Word, position, level);
    add_behind(follows, Prev::Newline, position, level);
    add_behind(follows, Prev::Other, position, level);
}

/// Adds those that follow it behind what stands before, whatever comes next.
fn add_behind(follows: &FollowRows, prev: Prev, position: usize, level: &mut [u64])
    requires position { position < follows.now.size }
    requires len { length level.old ≡ 8 }
    ensures len { length level.new ≡ 8 }
    ensures kept { (y : ℕ) → has_word_bit level.old y ≡ true → has_word_bit level.new y ≡ true }
    ensures added { (y : ℕ) (next : Next) →
        in_row follows.now position y (between prev next) ≡ true →
        has_word_bit level.new y ≡ true }
{
    unite_bytes(level, follows.row(prev, Next::Word, position));
    unite_bytes(level, follows.row(prev, Next::Newline, position));
    unite_bytes(level, follows.row(prev, Next::Other, position));
}

/// The bytes of the positions of a level.
pub(crate) fn bytes_of(sets: &[ByteSet], level: &Level) -> ByteSet
    requires { length sets.now ≤ 512 }
    ensures { (x b : ℕ) →
        b < 256 →
        has_word_bit level.now x ≡ true →
        in_set (slice_get sets.now x) b ≡ true →
        has result b ≡ true }
{
    let mut bytes = ByteSet::EMPTY;
    for position in 0..sets.len() {
        if contains_word_bit(level, position) {
            bytes = bytes.union(&sets[position]);
        }
    }
    bytes
}

/// Whether a position of the level accepts in some context.
pub(crate) fn has_accepting(accepts: &[Mask], level: &Level) -> bool
    requires { length accepts.now ≤ 512 }
    ensures { (x : ℕ) (c : Context) →
        result ≡ false →
        has_word_bit level.now x ≡ true →
        in_mask (slice_get accepts.now x) c ≡ false }
{
    for position in 0..accepts.len() {
        if contains_word_bit(level, position) && is_used(accepts, position) {
            return true;
        }
    }
    false
}
