//! The bytes with which a match may begin.

ghost use Rattle.std.specs.Prelude.{◌≡◌, ℕ, ◌<◌, true, length, slice_get};
ghost use Rattle.hs_base.specs.Contexts.{Context};
ghost use Rattle.hs_base.specs.ByteSets.{has};
ghost use Rattle.hs_engine.specs.Automata.{in_mask, in_set};

use hs_base::{ByteSet, Mask};

/// The bytes that are in the set of a position which is entered in some context.
pub fn first_bytes(sets: &[ByteSet], enters: &[Mask]) -> ByteSet
    requires { length enters.now ≡ length sets.now }
    ensures { (x b : ℕ) (c : Context) →
        b < 256 →
        in_mask (slice_get enters.now x) c ≡ true →
        in_set (slice_get sets.now x) b ≡ true →
        has result b ≡ true }
{
    let mut first = ByteSet::EMPTY;
    for position in 0..enters.len() {
        first = first.union(&first_bytes_at(sets, enters, position));
    }
    first
}

/// The bytes of the position, if it is entered in some context.
fn first_bytes_at(sets: &[ByteSet], enters: &[Mask], position: usize) -> ByteSet
    requires enters { position < length enters.now }
    requires sets { position < length sets.now }
    ensures { (b : ℕ) (c : Context) →
        in_mask (slice_get enters.now position) c ≡ true →
        in_set (slice_get sets.now position) b ≡ true →
        has result b ≡ true }
{
    if enters[position] == Mask::empty() {
        ByteSet::EMPTY
    } else {
        sets[position]
    }
}
