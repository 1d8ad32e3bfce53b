//! An engine over a chunk.

ghost use Rattle.std.specs.Prelude.{◌≡◌, ℕ, ◌+◌, ◌*◌, ◌<◌, ◌≤◌, ◌^◌, false, MatchOption, None, Some, length};
ghost use Rattle.hs_nodes.specs.Pieces.{TakesChunk};
ghost use Rattle.hs_nodes.specs.Pooled.{IsPooled, KeepsPooled};
ghost use Rattle.hs_lazy.specs.Caches.{TellsRun, Told, told};
ghost use Rattle.hs_nodes.specs.Starting.{AreToldEnds, IsEnteredThroughout, IsIdle, RunsAlone, RunsEntered};
ghost use Rattle.hs_nodes.specs.Starting.{ScansBehind, ScansBlock};
ghost use Rattle.hs_waking.specs.EntryRows.{DoEntriesSuffice};
ghost use Rattle.hs_waking.specs.Starts.{start_word, starts_at};

use crate::chunk::{BLOCK_BYTES, Chunk};
use crate::ends::ChunkEnds;
use crate::foretold::Foretold;
use hs_base::Prev;
use hs_bits::{is_zero, low_places};
use hs_block::BlockEngine;
use hs_engine::{BlockEnds, Steps, TimelessEngine};
use hs_lazy::Cache;
use hs_pool::StatePool;
use hs_waking::Starts;
use std::sync::ledger::Ledger;

/// An engine, and its number among those of its table.
#[derive(Drop)]
pub(crate) struct Numbered<'e, E> {
    /// The engine.
    pub engine: &'e E,
    /// Its number.
    pub number: usize,
}

/// Where a node is entered in a chunk.
#[derive(Clone, Copy, Debug)]
pub(crate) struct Entry<'e> {
    /// Where the pieces before it are left.
    pub enters: &'e ChunkEnds,
    /// Its number, if it has no parent: then it is entered throughout.
    pub first: Option<usize>,
}

/// Takes a chunk by an engine, where the piece has the empty span where `null` tells it. If its node has no parent, the
/// cache tells what it does, or it needs to be entered where its matches may begin. Answers where the pieces up to it
/// are left.
pub(crate) fn run_engine<E: BlockEngine + TimelessEngine, L: Ledger>(
    numbered: &Numbered<E>,
    region: &mut [u8],
    chunk: &Chunk,
    entry: &Entry,
    null: &ChunkEnds,
    foretold: &Foretold,
    pool: &mut Option<StatePool>,
    steps: &mut Steps<L>,
) -> ChunkEnds
    requires len { length region.old ≡ (E.meaning numbered.now.engine.now).width }
    requires well { (E.meaning numbered.now.engine.now).well region.old chunk.now.at }
    requires listed { (E.meaning numbered.now.engine.now).always ≡ false }
    requires idle { IsIdle (E.meaning numbered.now.engine.now) }
    requires pool { IsPooled (E.meaning numbered.now.engine.now) numbered.now.number pool.old }
    requires starts { (k : ℕ) → entry.now.first ≡ Some k → told foretold.now.cache.now k ≡ None →
        DoEntriesSuffice (E.meaning numbered.now.engine.now) (starts_at foretold.now.starts.now k) chunk.now.prev
        chunk.now.bytes.now }
    requires told { (k : ℕ) (t : Told) → entry.now.first ≡ Some k → told foretold.now.cache.now k ≡ Some t →
        TellsRun (E.meaning numbered.now.engine.now) region.old chunk.now.prev chunk.now.bytes.now t }
    requires entered { (k : ℕ) → entry.now.first ≡ Some k →
        IsEnteredThroughout entry.now.enters.now chunk.now.bytes.now }
    ensures len { length region.new ≡ (E.meaning numbered.now.engine.now).width }
    ensures well { (E.meaning numbered.now.engine.now).well region.new (chunk.now.at + length chunk.now.bytes.now) }
    ensures pool { IsPooled (E.meaning numbered.now.engine.now) numbered.now.number pool.new }
    ensures others { KeepsPooled E.meaning numbered.now.number pool.old pool.new }
    ensures ticks { steps.new ≤ steps.old + length chunk.now.bytes.now }
    ensures takes { TakesChunk (E.meaning numbered.now.engine.now) region.old region.new chunk.now.prev chunk.now.at
        chunk.now.bytes.now entry.now.enters.now null.now result }
{
    match entry.first {
        Some(k) => run_alone(numbered, region, chunk, foretold, k, pool, steps).through(
            entry.enters,
            null,
        ),
        None => run_entered(numbered, region, chunk, entry.enters, null, pool, steps),
    }
}

/// Takes a chunk by an engine without a parent, as the cache tells it or by itself. Answers where its expression is
/// left.
fn run_alone<E: BlockEngine + TimelessEngine, L: Ledger>(
    numbered: &Numbered<E>,
    region: &mut [u8],
    chunk: &Chunk,
    foretold: &Foretold,
    k: usize,
    pool: &mut Option<StatePool>,
    steps: &mut Steps<L>,
) -> ChunkEnds
    requires len { length region.old ≡ (E.meaning numbered.now.engine.now).width }
    requires well { (E.meaning numbered.now.engine.now).well region.old chunk.now.at }
    requires listed { (E.meaning numbered.now.engine.now).always ≡ false }
    requires idle { IsIdle (E.meaning numbered.now.engine.now) }
    requires pool { IsPooled (E.meaning numbered.now.engine.now) numbered.now.number pool.old }
    requires starts { told foretold.now.cache.now k ≡ None →
        DoEntriesSuffice (E.meaning numbered.now.engine.now) (starts_at foretold.now.starts.now k) chunk.now.prev
        chunk.now.bytes.now }
    requires told { (t : Told) → told foretold.now.cache.now k ≡ Some t →
        TellsRun (E.meaning numbered.now.engine.now) region.old chunk.now.prev chunk.now.bytes.now t }
    ensures len { length region.new ≡ (E.meaning numbered.now.engine.now).width }
    ensures well { (E.meaning numbered.now.engine.now).well region.new (chunk.now.at + length chunk.now.bytes.now) }
    ensures pool { IsPooled (E.meaning numbered.now.engine.now) numbered.now.number pool.new }
    ensures others { KeepsPooled E.meaning numbered.now.number pool.old pool.new }
    ensures ticks { steps.new ≤ steps.old + length chunk.now.bytes.now }
    ensures runs { RunsAlone (E.meaning numbered.now.engine.now) region.old region.new chunk.now.prev chunk.now.at
        chunk.now.bytes.now result }
{
    if foretold.cache.is_told(k) {
        take_told(region, chunk, foretold.cache, k)
    } else {
        run_first(numbered, region, chunk, foretold.starts, k, pool, steps)
    }
}

/// Takes what a cache tells of the node of that number over a chunk.
fn take_told(region: &mut [u8], chunk: &Chunk, cache: &Cache, k: usize) -> ChunkEnds
    requires told { (t : Told) × (told cache.now k ≡ Some t) × (length region.old ≡ length t.part) }
    ensures part { (t : Told) → told cache.now k ≡ Some t → region.new ≡ t.part }
    ensures ends { (t : Told) → told cache.now k ≡ Some t → AreToldEnds chunk.now.bytes.now result t }
{
    region.copy_from_slice(cache.part(k));
    let told = cache.ends(k);
    let mut ends = ChunkEnds::NOWHERE;
    for j in 0..chunk.blocks() {
        let all = low_places(chunk.block(j).len());
        ends.before[j] = told.before[j] & all;
        ends.behind[j] = told.behind[j] & all;
    }
    ends
}

/// Takes a chunk so by an engine that is entered where `enters` tell, block by block.
fn run_entered<E: BlockEngine + TimelessEngine, L: Ledger>(
    numbered: &Numbered<E>,
    region: &mut [u8],
    chunk: &Chunk,
    enters: &ChunkEnds,
    null: &ChunkEnds,
    pool: &mut Option<StatePool>,
    steps: &mut Steps<L>,
) -> ChunkEnds
    requires len { length region.old ≡ (E.meaning numbered.now.engine.now).width }
    requires well { (E.meaning numbered.now.engine.now).well region.old chunk.now.at }
    requires listed { (E.meaning numbered.now.engine.now).always ≡ false }
    requires idle { IsIdle (E.meaning numbered.now.engine.now) }
    requires pool { IsPooled (E.meaning numbered.now.engine.now) numbered.now.number pool.old }
    ensures len { length region.new ≡ (E.meaning numbered.now.engine.now).width }
    ensures well { (E.meaning numbered.now.engine.now).well region.new (chunk.now.at + length chunk.now.bytes.now) }
    ensures pool { IsPooled (E.meaning numbered.now.engine.now) numbered.now.number pool.new }
    ensures others { KeepsPooled E.meaning numbered.now.number pool.old pool.new }
    ensures ticks { steps.new ≤ steps.old + length chunk.now.bytes.now }
    ensures takes { TakesChunk (E.meaning numbered.now.engine.now) region.old region.new chunk.now.prev chunk.now.at
        chunk.now.bytes.now enters.now null.now result }
{
    let mut ends = ChunkEnds::NOWHERE;
    for j in 0..chunk.blocks() {
        let bytes = chunk.block(j);
        let own = run_block(
            numbered,
            region,
            chunk,
            j,
            enters.before[j],
            bytes,
            pool,
            steps,
        );
        ends.before[j] = own.before | (enters.before[j] & null.before[j]);
        ends.behind[j] = own.behind | (enters.behind[j] & null.behind[j]);
    }
    ends
}

/// Takes the block of that number of a chunk by an engine that is entered where the word tells it. Where it is entered
/// nowhere, and nothing is live, it isn't run.
#[inline(always)]
fn run_block<E: BlockEngine + TimelessEngine, L: Ledger>(
    numbered: &Numbered<E>,
    region: &mut [u8],
    chunk: &Chunk,
    number: usize,
    enters: u64,
    bytes: &[u8],
    pool: &mut Option<StatePool>,
    steps: &mut Steps<L>,
) -> BlockEnds
    requires len { length region.old ≡ (E.meaning numbered.now.engine.now).width }
    requires well { (E.meaning numbered.now.engine.now).well region.old (chunk.now.at + 64 * number) }
    requires there { 64 * number < length chunk.now.bytes.now }
    requires few { length bytes.now ≤ 64 }
    requires room { chunk.now.at + 64 * number + length bytes.now ≤ 2 ^ 63 }
    requires listed { (E.meaning numbered.now.engine.now).always ≡ false }
    requires idle { IsIdle (E.meaning numbered.now.engine.now) }
    requires pool { IsPooled (E.meaning numbered.now.engine.now) numbered.now.number pool.old }
    ensures len { length region.new ≡ (E.meaning numbered.now.engine.now).width }
    ensures well { (E.meaning numbered.now.engine.now).well region.new
        (chunk.now.at + 64 * number + length bytes.now) }
    ensures pool { IsPooled (E.meaning numbered.now.engine.now) numbered.now.number pool.new }
    ensures others { KeepsPooled E.meaning numbered.now.number pool.old pool.new }
    ensures ticks { steps.new ≤ steps.old + length bytes.now }
    ensures scans { ScansBehind (E.meaning numbered.now.engine.now) region.old region.new chunk.now.prev
        chunk.now.bytes.now number (chunk.now.at + 64 * number) enters bytes.now result }
{
    if enters == 0 && is_zero(region) {
        return BlockEnds {
            before: 0,
            behind: 0,
        };
    }
    run_busy(numbered, region, chunk, number, enters, bytes, pool, steps)
}

/// The same where the engine may be entered, or something be live: it is run, or the pool tells what it does.
#[inline(never)]
fn run_busy<E: BlockEngine + TimelessEngine, L: Ledger>(
    numbered: &Numbered<E>,
    region: &mut [u8],
    chunk: &Chunk,
    number: usize,
    enters: u64,
    bytes: &[u8],
    pool: &mut Option<StatePool>,
    steps: &mut Steps<L>,
) -> BlockEnds
    requires len { length region.old ≡ (E.meaning numbered.now.engine.now).width }
    requires well { (E.meaning numbered.now.engine.now).well region.old (chunk.now.at + 64 * number) }
    requires there { 64 * number < length chunk.now.bytes.now }
    requires few { length bytes.now ≤ 64 }
    requires room { chunk.now.at + 64 * number + length bytes.now ≤ 2 ^ 63 }
    requires listed { (E.meaning numbered.now.engine.now).always ≡ false }
    requires idle { IsIdle (E.meaning numbered.now.engine.now) }
    requires pool { IsPooled (E.meaning numbered.now.engine.now) numbered.now.number pool.old }
    ensures len { length region.new ≡ (E.meaning numbered.now.engine.now).width }
    ensures well { (E.meaning numbered.now.engine.now).well region.new
        (chunk.now.at + 64 * number + length bytes.now) }
    ensures pool { IsPooled (E.meaning numbered.now.engine.now) numbered.now.number pool.new }
    ensures others { KeepsPooled E.meaning numbered.now.number pool.old pool.new }
    ensures ticks { steps.new ≤ steps.old + length bytes.now }
    ensures scans { ScansBehind (E.meaning numbered.now.engine.now) region.old region.new chunk.now.prev
        chunk.now.bytes.now number (chunk.now.at + 64 * number) enters bytes.now result }
{
    let prev = chunk.prev_before(number);
    if let Some(ends) = run_pooled(numbered, region, prev, enters, bytes, pool) {
        return ends;
    }
    let at = chunk.at + (BLOCK_BYTES * number) as u64;
    numbered.engine.run(region, prev, at, enters, bytes, steps)
}

/// Takes a block by the states that are kept of the engine; None where there is no pool, or it doesn't tell what the
/// block does, and then the region is as before.
fn run_pooled<E: TimelessEngine>(
    numbered: &Numbered<E>,
    region: &mut [u8],
    prev: Prev,
    enters: u64,
    bytes: &[u8],
    pool: &mut Option<StatePool>,
) -> Option<BlockEnds>
    requires len { length region.old ≡ (E.meaning numbered.now.engine.now).width }
    requires few { length bytes.now ≤ 64 }
    requires listed { (E.meaning numbered.now.engine.now).always ≡ false }
    requires idle { IsIdle (E.meaning numbered.now.engine.now) }
    requires pool { IsPooled (E.meaning numbered.now.engine.now) numbered.now.number pool.old }
    ensures pool { IsPooled (E.meaning numbered.now.engine.now) numbered.now.number pool.new }
    ensures others { KeepsPooled E.meaning numbered.now.number pool.old pool.new }
    ensures scans { MatchOption result (region.new ≡ region.old) (λ ends. (length region.new ≡ length region.old)
        × ((at : ℕ) → (E.meaning numbered.now.engine.now).well region.new at)
        × ((at : ℕ) →
        ScansBlock (E.meaning numbered.now.engine.now) region.old region.new prev at enters bytes.now ends)) }
{
    let Some(pool) = pool else {
        return None;
    };
    let Some(ends) = pool.run(
        numbered.engine,
        numbered.number,
        region,
        prev,
        enters,
        bytes,
    ) else {
        return None;
    };
    Some(BlockEnds {
        before: ends.before,
        behind: ends.behind,
    })
}

/// Takes a chunk by an engine without a parent, block by block, which is entered where a match of the node of that
/// number may begin. Answers where its expression is left.
fn run_first<E: BlockEngine + TimelessEngine, L: Ledger>(
    numbered: &Numbered<E>,
    region: &mut [u8],
    chunk: &Chunk,
    starts: &Starts,
    k: usize,
    pool: &mut Option<StatePool>,
    steps: &mut Steps<L>,
) -> ChunkEnds
    requires len { length region.old ≡ (E.meaning numbered.now.engine.now).width }
    requires well { (E.meaning numbered.now.engine.now).well region.old chunk.now.at }
    requires listed { (E.meaning numbered.now.engine.now).always ≡ false }
    requires idle { IsIdle (E.meaning numbered.now.engine.now) }
    requires pool { IsPooled (E.meaning numbered.now.engine.now) numbered.now.number pool.old }
    ensures len { length region.new ≡ (E.meaning numbered.now.engine.now).width }
    ensures well { (E.meaning numbered.now.engine.now).well region.new (chunk.now.at + length chunk.now.bytes.now) }
    ensures pool { IsPooled (E.meaning numbered.now.engine.now) numbered.now.number pool.new }
    ensures others { KeepsPooled E.meaning numbered.now.number pool.old pool.new }
    ensures ticks { steps.new ≤ steps.old + length chunk.now.bytes.now }
    ensures runs { RunsEntered (E.meaning numbered.now.engine.now) region.old region.new chunk.now.prev chunk.now.at
        chunk.now.bytes.now (start_word starts.now k) result }
{
    let mut ends = ChunkEnds::NOWHERE;
    for j in 0..chunk.blocks() {
        let bytes = chunk.block(j);
        let own = run_block(
            numbered,
            region,
            chunk,
            j,
            starts.word(k, j),
            bytes,
            pool,
            steps,
        );
        ends.before[j] = own.before;
        ends.behind[j] = own.behind;
    }
    ends
}
