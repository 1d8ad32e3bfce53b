//! What may stand before a match of an automaton.

ghost use Rattle.std.specs.Prelude.{◌≡◌, ℕ, ◌<◌, true};
ghost use Rattle.hs_base.specs.declared.context.Prev.{Prev};
ghost use Rattle.hs_base.specs.ByteSets.{has};
ghost use Rattle.hs_base.specs.Contexts.{class_of};
ghost use Rattle.hs_base.specs.ContextSets.{has_context};
ghost use Rattle.hs_engine.specs.Between.{between};
ghost use Rattle.hs_waking.specs.PrevSets.{has_prev};
ghost use Rattle.hs_waking.specs.Rows.{IsBehindOf};

use crate::prev_set::{ALL_BYTES, PrevSet};
use hs_base::{ByteSet, Mask, Next, Prev};
use hs_engine::Automaton;

/// What may stand before the first byte of a match.
pub fn behind_of(automaton: &Automaton) -> PrevSet
    ensures { IsBehindOf automaton.now result }
{
    let (enters, sets) = (automaton.enters(), automaton.sets());
    let mut behind = PrevSet::empty();
    for position in 0..enters.len().min(sets.len()) {
        behind = behind_either(behind, enters[position], &sets[position]);
    }
    behind
}

/// What may stand before a byte of the set in a context of the mask, besides.
fn behind_either(behind: PrevSet, mask: Mask, set: &ByteSet) -> PrevSet
    ensures kept { (prev : Prev) → has_prev behind prev ≡ true → has_prev result prev ≡ true }
    ensures added { (b : ℕ) (prev : Prev) → b < 256 → has set.now b ≡ true →
        has_context mask (between prev (class_of b)) ≡ true → has_prev result prev ≡ true }
{
    if mask == Mask::all() {
        return PrevSet::all();
    }
    let mut all = behind;
    for byte in 0..ALL_BYTES {
        if set.contains(byte as u8) {
            all = behind_next(all, mask, Next::class_of(byte as u8));
        }
    }
    all
}

/// What may stand before that in a context of the mask, besides.
fn behind_next(behind: PrevSet, mask: Mask, next: Next) -> PrevSet
    ensures kept { (prev : Prev) → has_prev behind prev ≡ true → has_prev result prev ≡ true }
    ensures added { (prev : Prev) → has_context mask (between prev next) ≡ true → has_prev result prev ≡ true }
{
    behind
        .with(Prev::Start, mask.contains(Prev::Start, next))
        .with(Prev::Word, mask.contains(Prev::Word, next))
        .with(Prev::Newline, mask.contains(Prev::Newline, next))
        .with(Prev::Other, mask.contains(Prev::Other, next))
}
