//! At most so many bytes of a set over a block: a whole one by words where that serves, else byte by byte.

ghost use Rattle.std.specs.Prelude.{◌≡◌, ◌+◌, ◌^◌, ◌≤◌, length};
ghost use Rattle.hs_block.specs.Blocks.{IsEnteredThroughout, TakesBlock};
ghost use Rattle.hs_repeat.specs.RepeatEngines.{meaning_of_last};

use hs_base::Prev;
use hs_bits::{WORD_BITS, count_places, one_later};
use hs_block::run_by_steps;
use hs_engine::{BlockEnds, Engine, Steps};
use hs_repeat::Last;
use std::sync::ledger::Ledger;

/// Takes a block: a whole one by words where that serves, else byte by byte.
pub(crate) fn run_last<L: Ledger>(
    last: &Last,
    region: &mut [u8],
    prev: Prev,
    at: u64,
    enters: u64,
    bytes: &[u8],
    steps: &mut Steps<L>,
) -> BlockEnds
    requires len { length region.old ≡ (meaning_of_last last.now).width }
    requires well { (meaning_of_last last.now).well region.old at }
    requires few { length bytes.now ≤ 64 }
    requires room { at + length bytes.now ≤ 2 ^ 63 }
    requires throughout { IsEnteredThroughout (meaning_of_last last.now) enters (length bytes.now) }
    ensures len { length region.new ≡ (meaning_of_last last.now).width }
    ensures well { (meaning_of_last last.now).well region.new (at + length bytes.now) }
    ensures takes { TakesBlock (meaning_of_last last.now) region.old region.new prev at enters bytes.now result
        steps.old steps.new }
{
    if bytes.len() != WORD_BITS {
        return run_by_steps(last, region, prev, at, enters, bytes, steps);
    }
    let live = !last.at_rest(region);
    let Some(left) = last.run_whole(region, enters, bytes) else {
        return run_by_steps(last, region, prev, at, enters, bytes, steps);
    };
    let before = one_later(left, live);
    steps.tick_by(count_places(enters | before, 0, WORD_BITS));
    BlockEnds {
        before,
        behind: left,
    }
}
