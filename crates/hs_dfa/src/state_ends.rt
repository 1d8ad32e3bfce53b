//! What a state says of the end of a match: in which contexts a live position accepts, and whether there is one.

ghost use Rattle.std.specs.Prelude.{◌≡◌, ◌↔◌, ℕ, ◌<◌, ◌≤◌, ◌&&◌, ◌||◌, false, IfOk, IsTrue, length, slice_get, vec_len};
ghost use Rattle.hs_base.specs.declared.context.Next.{Next};
ghost use Rattle.hs_base.specs.Bits.{has_word_bit};
ghost use Rattle.hs_base.specs.ContextSets.{has_next};
ghost use Rattle.hs_engine.specs.AnyBelow.{any_below};
ghost use Rattle.hs_engine.specs.Automata.{in_mask};
ghost use Rattle.hs_engine.specs.Between.{between};
ghost use Rattle.hs_dfa.specs.StateEnds.{AreEndsOf, IsEndOf};

use hs_base::{Mask, NextSet, Prev};
use hs_bits::contains_word_bit;
use hs_engine::Automaton;
use hs_states::{Footing, WIDTH};
use std::alloc::{AllocError, Global};

/// What a state says of the end of a match.
#[derive(Clone, Copy, Debug)]
pub(crate) struct StateEnd {
    /// What may come next where a live position accepts.
    pub(crate) accepts: NextSet,
    /// Whether no position is live.
    pub(crate) is_empty: bool,
}

/// What each of the states says.
pub(crate) fn ends_of(
    alloc: Global,
    automaton: &Automaton,
    states: &[Footing],
) -> Result<Vec<StateEnd>, AllocError>
    ensures { IfOk result (λ ends. AreEndsOf automaton.now states.now (length states.now) ends.items) }
{
    let mut ends = Vec::new(alloc);
    for number in 0..states.len() {
        ends.push(end_of(automaton, &states[number]))?;
    }
    Ok(ends)
}

/// What one state says.
fn end_of(automaton: &Automaton, state: &Footing) -> StateEnd
    ensures { IsEndOf automaton.now state.now result }
{
    StateEnd {
        accepts: accepted(automaton.accepts(), &state.positions, state.prev),
        is_empty: is_empty(&state.positions, automaton.size()),
    }
}

/// What may come next where a position accepts that is live.
fn accepted(masks: &[Mask], live: &[u64; WIDTH], prev: Prev) -> NextSet
    requires { length masks.now ≤ 512 }
    ensures { (next : Next) →
        has_next result next ≡
        any_below (length masks.now)
        (λ x. has_word_bit live.now x && in_mask (slice_get masks.now x) (between prev next)) }
{
    let mut told = NextSet::empty();
    for position in 0..masks.len() {
        told = told.union(accepted_at(masks, live, prev, position));
    }
    told
}

/// What may come next where that position accepts, if it is live.
fn accepted_at(masks: &[Mask], live: &[u64; WIDTH], prev: Prev, position: usize) -> NextSet
    requires few { length masks.now ≤ 512 }
    requires position { position < length masks.now }
    ensures { (next : Next) →
        has_next result next ≡
        (has_word_bit live.now position && in_mask (slice_get masks.now position) (between prev next)) }
{
    if contains_word_bit(live, position) {
        masks[position].row(prev)
    } else {
        NextSet::empty()
    }
}

/// Whether none of so many positions is live.
fn is_empty(live: &[u64; WIDTH], size: usize) -> bool
    requires { size ≤ 512 }
    ensures { IsTrue result ↔ (any_below size (has_word_bit live.now) ≡ false) }
{
    for position in 0..size {
        if contains_word_bit(live, position) {
            return false;
        }
    }
    true
}
