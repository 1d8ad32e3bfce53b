//! An engine over a chunk in which nobody asks where it is left.

ghost use Rattle.std.specs.Prelude.{◌≡◌, ◌+◌, ◌-◌, ◌<◌, ◌≤◌, ◌++◌, ℕ, List, false, length, take};
ghost use Rattle.std.specs.Prelude.{slice_index, slice_range};
ghost use Rattle.hs_base.specs.ByteSets.{has};
ghost use Rattle.hs_base.specs.Contexts.{prev_at};
ghost use Rattle.hs_nodes.specs.Lone.{CatchesUp, IsClearBehindOthers};
ghost use Rattle.hs_nodes.specs.Starting.{IsIdle};

use crate::chunk::{BLOCK_BYTES, Chunk};
use hs_base::{ByteSet, Prev};
use hs_bits::clear_bits;
use hs_block::BlockEngine;
use hs_engine::Steps;
use std::sync::ledger::Ledger;

/// The place behind the last byte that isn't a member of the set; 0 where each is.
fn place_behind_last(bytes: &[u8], set: &ByteSet) -> usize
    ensures within { result ≤ length bytes.now }
    ensures other { 0 < result → has set.now (slice_index bytes.now (result - 1)) ≡ false }
    ensures small { 0 < result → slice_index bytes.now (result - 1) < 256 }
{
    let mut place = bytes.len();
    while place > 0 && set.contains(bytes[place - 1]) {
        place -= 1;
    }
    place
}

/// Takes a chunk by an engine without a parent, which is entered before each byte. Where a byte of it is none behind
/// which something may be live, it takes those behind the last such byte alone.
pub(crate) fn catch_up<E: BlockEngine, L: Ledger>(
    engine: &E,
    region: &mut [u8],
    chunk: &Chunk,
    living: &ByteSet,
    steps: &mut Steps<L>,
)
    requires len { length region.old ≡ (E.meaning engine.now).width }
    requires well { (E.meaning engine.now).well region.old chunk.now.at }
    requires listed { (E.meaning engine.now).always ≡ false }
    requires idle { IsIdle (E.meaning engine.now) }
    requires clears { IsClearBehindOthers (E.meaning engine.now) living.now }
    ensures len { length region.new ≡ (E.meaning engine.now).width }
    ensures well { (E.meaning engine.now).well region.new (chunk.now.at + length chunk.now.bytes.now) }
    ensures ticks { steps.new ≤ steps.old + length chunk.now.bytes.now }
    ensures catches { CatchesUp (E.meaning engine.now) region.old region.new chunk.now.prev chunk.now.at
        chunk.now.bytes.now }
{
    let mut from = place_behind_last(chunk.bytes, living);
    if from > 0 {
        clear_bits(region);
    }
    while from < chunk.bytes.len() {
        let end = (from + BLOCK_BYTES).min(chunk.bytes.len());
        take_bytes(engine, region, chunk, from, end, steps);
        from = end;
    }
}

/// Takes the bytes of a chunk from one place up to another.
fn take_bytes<E: BlockEngine, L: Ledger>(
    engine: &E,
    region: &mut [u8],
    chunk: &Chunk,
    from: usize,
    end: usize,
    steps: &mut Steps<L>,
)
    requires len { length region.old ≡ (E.meaning engine.now).width }
    requires well { (E.meaning engine.now).well region.old (chunk.now.at + from) }
    requires low { from < end }
    requires high { end ≤ length chunk.now.bytes.now }
    requires few { end ≤ from + 64 }
    requires listed { (E.meaning engine.now).always ≡ false }
    ensures len { length region.new ≡ (E.meaning engine.now).width }
    ensures well { (E.meaning engine.now).well region.new (chunk.now.at + end) }
    ensures ticks { steps.new + from ≤ steps.old + end }
    ensures catches { (u : List ℕ) → chunk.now.prev ≡ prev_at u (length u) →
        CatchesUp (E.meaning engine.now) region.old region.new
        (prev_at (u ++ take from chunk.now.bytes.now) (length u + from)) (chunk.now.at + from)
        (slice_range chunk.now.bytes.now from end) }
{
    let prev = chunk.prev_at(from);
    let bytes = &chunk.bytes[from..end];
    let at = chunk.at + from as u64;
    let _ = engine.run(region, prev, at, u64::MAX, bytes, steps);
}
