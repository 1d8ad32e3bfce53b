//! Known steps over a block.

ghost use Rattle.std.specs.Prelude.{◌≡◌, ◌<◌, ◌≤◌, ◌^◌, ℕ, IfSome, length};
ghost use Rattle.hs_pool.specs.Following.{AreFlagsAt, FollowsTo, IsKnownRun};
ghost use Rattle.hs_pool.specs.Rows.{AreLeading};

use crate::state::{ROW_LEN, next_of, step_place};
use hs_bits::{WORD_BITS, contains_place};
use hs_engine::BlockEnds;
use std::simd::prelude::*;

/// The flags of a step that leaves the expression before its byte, and of one that leaves it behind.
const BEFORE: u8 = 1;

const BEHIND: u8 = 2;

/// Follows the steps of a state over the bytes of a block from that place on, before which the expression is entered
/// where the word tells it. Writes the flags of each step, and answers the state behind the block: 0 where a step isn't
/// known.
#[inline]
fn follow(
    rows: &[[u16; ROW_LEN]],
    first: usize,
    from: usize,
    enters: u64,
    bytes: &[u8],
    flags: &mut [u8; WORD_BITS],
) -> usize
    requires first { first < length rows.now }
    requires leading { AreLeading rows.now (length rows.now) }
    requires few { length bytes.now ≤ 64 }
    requires from { from ≤ length bytes.now }
    ensures { FollowsTo rows.now first from enters bytes.now flags.old flags.new result }
{
    let mut state = first;
    for place in from..bytes.len() {
        let step = rows[state][step_place(contains_place(enters, place), bytes[place])];
        flags[place] = (step & 0xFF) as u8;
        state = next_of(step);
    }
    state
}

/// The places of a block whose flags have that one.
#[inline(always)]
fn places_with(flags: &[u8; WORD_BITS], flag: u8) -> u64
    ensures { (k : ℕ) → flag ≡ 2 ^ k → AreFlagsAt flags.now k result }
{
    (u8x64::from_array(*flags) & u8x64::splat(flag))
        .simd_ne(u8x64::splat(0))
        .to_bitmask()
}

/// Where the flags tell that the expression is left.
#[inline(always)]
fn ends_of(flags: &[u8; WORD_BITS]) -> BlockEnds
    ensures before { AreFlagsAt flags.now 0 result.before }
    ensures behind { AreFlagsAt flags.now 1 result.behind }
{
    BlockEnds {
        before: places_with(flags, BEFORE),
        behind: places_with(flags, BEHIND),
    }
}

/// What known steps make of a block.
#[derive(Clone, Copy, Debug)]
pub(crate) struct Taken {
    /// The state behind it.
    pub state: usize,
    /// Where the expression is left.
    pub ends: BlockEnds,
}

/// Takes the bytes of a block from that place on by the steps of a state; None where one of them isn't known.
pub(crate) fn take_known(
    rows: &[[u16; ROW_LEN]],
    first: usize,
    from: usize,
    enters: u64,
    bytes: &[u8],
) -> Option<Taken>
    requires first { first < length rows.now }
    requires leading { AreLeading rows.now (length rows.now) }
    requires few { length bytes.now ≤ 64 }
    requires from { from ≤ length bytes.now }
    ensures { IfSome result (IsKnownRun rows.now first from enters bytes.now) }
{
    let mut flags = [0; WORD_BITS];
    let state = follow(rows, first, from, enters, bytes, &mut flags);
    if state == 0 {
        return None;
    }
    Some(Taken {
        state,
        ends: ends_of(&flags),
    })
}
