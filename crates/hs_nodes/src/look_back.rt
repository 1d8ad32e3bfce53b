//! Expressions that look back: they are asked anew, from the last bytes, where the literal behind them ends.

ghost use Rattle.std.specs.Prelude.{◌≡◌, ◌*◌, ◌+◌, ◌-◌, ◌≤◌, ◌<◌, ℕ, List, ◌++◌, false, length, slice_index};
ghost use Rattle.std.specs.Prelude.{◌↔◌, true};
ghost use Rattle.hs_base.specs.Chains.{Piece};
ghost use Rattle.hs_base.specs.declared.context.Next.{Next};
ghost use Rattle.hs_base.specs.Contexts.{class_of, prev_at};
ghost use Rattle.hs_base.specs.Leaving.{IsEmptyAt};
ghost use Rattle.hs_base.specs.Trees.{Tree};
ghost use Rattle.hs_engine.specs.Engines.{IsAsleep, IsStart};
ghost use Rattle.hs_nodes.specs.Blocks.{prev_by_count};
ghost use Rattle.hs_nodes.specs.Contexts.{IsNull};
ghost use Rattle.hs_nodes.specs.Edges.{HasEdges};
ghost use Rattle.hs_nodes.specs.Hits.{hit_count};
ghost use Rattle.hs_nodes.specs.Left.{AreLeftIn};
ghost use Rattle.hs_nodes.specs.Openings.{BeginsAtStart};
ghost use Rattle.hs_nodes.specs.LookBacks.{AreLeftAt, EndsNowhere, FindsPair, LeavesBack, LeavesPair, RunsBack};
ghost use Rattle.hs_nodes.specs.LookBacks.{TakesPair, TellsPair};
ghost use Rattle.hs_nodes.specs.Nodes.{window_room, window_size};
ghost use Rattle.hs_nodes.specs.declared.hits.ChunkHits.{ChunkHits};

use crate::chunk::{Chunk, MAX_BLOCKS, PAST_BYTES};
use crate::ends::{ChunkEnds, MAX_LITERAL};
use crate::hits::ChunkHits;
use crate::nulls::{is_empty_at_start, is_empty_between};
use crate::table::{LookBackPair, MAX_LOOK_BACK, MAX_LOOK_BACK_REGION};
use hs_base::{ByteSet, Mask, Next, Prev};
use hs_bits::{low_places, next_bit_in, write_word_bit};
use hs_block::BlockEngine;
use hs_engine::{Engine, Steps};
use std::sync::ledger::Ledger;

/// Behind more bytes than these no literal begins so near the start of the stream that a match from there on may end
/// before it.
pub(crate) const FAR_BYTES: u64 = (MAX_LOOK_BACK + MAX_LITERAL) as u64;

/// What stands where so many bytes have come, and that was the last one.
fn prev_behind(count: u64, last: u8) -> Prev
    ensures { result ≡ prev_by_count count last }
{
    if count == 0 {
        Prev::Start
    } else {
        Prev::behind(last)
    }
}

/// How many bytes from one place to another wake nothing, before the first one that may.
fn passed_over<E: Engine>(engine: &E, chunk: &Chunk, begin: usize, end: usize) -> usize
    requires order { begin ≤ end }
    requires high { end ≤ 64 + length chunk.now.bytes.now }
    ensures few { begin + result ≤ end }
    ensures asleep { (region : List ℕ) (i : ℕ) → IsStart (E.meaning engine.now) region → i < result →
        IsAsleep (E.meaning engine.now) region
        (slice_index (chunk.now.past.now ++ chunk.now.bytes.now) (begin + i)) }
{
    let wakers = engine.wakers();
    for place in begin..end {
        if wakers.contains(chunk.byte_at(place)) {
            return place - begin;
        }
    }
    end - begin
}

/// So many bytes from that place on, of the past ones and those of the chunk.
fn window_at(chunk: &Chunk, begin: usize, count: usize) -> [u8; MAX_LOOK_BACK]
    requires few { count ≤ 16 }
    requires within { begin + count ≤ 64 + length chunk.now.bytes.now }
    ensures len { length result ≡ 16 }
    ensures bytes { (i : ℕ) → i < count →
        slice_index result i ≡ slice_index (chunk.now.past.now ++ chunk.now.bytes.now) (begin + i) }
{
    let mut window = [0u8; MAX_LOOK_BACK];
    for i in 0..count {
        window[i] = chunk.byte_at(begin + i);
    }
    window
}

/// Runs the engine over the last bytes of those before the place, which is one among the past bytes and those of the
/// chunk, as one block; it is entered before each of them, and those that wake nothing are passed over before. Answers
/// what stands behind them.
fn run_back<E: BlockEngine, L: Ledger>(
    engine: &E,
    part: &mut [u8],
    chunk: &Chunk,
    place: usize,
    steps: &mut Steps<L>,
) -> Prev
    requires len { length part.old ≡ (E.meaning engine.now).width }
    requires listed { (E.meaning engine.now).always ≡ false }
    requires low { 32 ≤ place }
    requires high { place ≤ 64 + length chunk.now.bytes.now }
    requires within { 64 ≤ chunk.now.at + place }
    ensures len { length part.new ≡ length part.old }
    ensures well { (E.meaning engine.now).well part.new (chunk.now.at + place - 64) }
    ensures ticks { steps.new ≤ steps.old + 16 }
    ensures runs { RunsBack (E.meaning engine.now) chunk.now.at chunk.now.past.now chunk.now.bytes.now place part.new
        result }
{
    let offset = chunk.at + place as u64 - PAST_BYTES as u64;
    let seen = MAX_LOOK_BACK.min(offset as usize);
    let begin = place - seen;
    let from = offset - seen as u64;
    let passed = passed_over(engine, chunk, begin, place);
    engine.clear(part);
    let _is_at_rest = engine.at_rest(part);
    let prev = prev_behind(from + passed as u64, chunk.byte_at(begin + passed - 1));
    if passed == seen {
        return prev;
    }
    let left = seen - passed;
    let window = window_at(chunk, begin + passed, left);
    let at = from + passed as u64;
    engine.run(part, prev, at, low_places(left), &window[..left], steps);
    prev_behind(offset, chunk.byte_at(place - 1))
}

/// Whether an expression has the empty span before the byte of that number among the past ones and those of a chunk,
/// where so many bytes have come, and that was the last one. What stands around is looked for only if it has one.
#[inline(always)]
fn is_empty_before(null: Option<Mask>, chunk: &Chunk, place: usize, offset: u64, last: u8) -> bool
    requires high { place < 64 + length chunk.now.bytes.now }
    ensures { (tree : Tree) (u : List ℕ) → IsNull null tree → prev_by_count offset last ≡ prev_at u (length u) →
        (result ≡ true) ↔
        IsEmptyAt tree u (class_of (slice_index (chunk.now.past.now ++ chunk.now.bytes.now) place)) }
{
    null.is_some()
        && is_empty_between(
            null,
            prev_behind(offset, last),
            Next::class_of(chunk.byte_at(place)),
        )
}

/// Whether no match of a pair's expression ends behind so many bytes, of which that is the last one: it ends none, or
/// each begins where the stream does and has fewer bytes.
#[inline(always)]
fn ends_nowhere(pair: &LookBackPair, offset: u64, byte: u8) -> bool
    ensures { result ≡ true → EndsNowhere pair.now.behind pair.now.last offset byte }
{
    offset == 0
        || !pair.last.contains(byte)
        || (offset > MAX_LOOK_BACK as u64 && pair.behind.is_start())
}

/// Whether no match of a pair's expression ends behind more bytes than it has at most: it has none, or each begins
/// where the stream does.
fn ends_early(pair: &LookBackPair) -> bool
    ensures { result ≡ true → (offset byte : ℕ) → byte < 256 → window_size < offset →
        EndsNowhere pair.now.behind pair.now.last offset byte }
{
    if pair.behind.is_start() {
        return true;
    }
    pair.last == ByteSet::EMPTY
}

/// Whether each match of a pair's expression, and each empty span of it, begins where the stream does.
pub fn begins_at_start(pair: &LookBackPair) -> bool
    ensures { result ≡ true → BeginsAtStart pair.now }
{
    ends_early(pair) && is_empty_at_start(pair.null)
}

/// Whether a chunk begins so far behind the start of the stream that a pair is left nowhere in it: no match of its
/// expression ends behind more bytes than it has, and no literal that ends in the chunk begins nearer.
fn is_past(pair: &LookBackPair, chunk: &Chunk) -> bool
    ensures begins { result ≡ true → BeginsAtStart pair.now }
    ensures far { result ≡ true → 48 < chunk.now.at }
{
    chunk.at > FAR_BYTES && begins_at_start(pair)
}

/// Whether the expression is left before the byte of that number among the past ones and those of the chunk, as its
/// engine tells it.
#[inline(never)]
fn asks_back<E: BlockEngine, L: Ledger>(
    engine: &E,
    pair: &LookBackPair,
    chunk: &Chunk,
    place: usize,
    window: &mut [u8],
    steps: &mut Steps<L>,
) -> bool
    requires room { (E.meaning engine.now).width ≤ length window.old }
    requires listed { (E.meaning engine.now).always ≡ false }
    requires low { 32 ≤ place }
    requires high { place < 64 + length chunk.now.bytes.now }
    requires within { 64 ≤ chunk.now.at + place }
    ensures window { length window.new ≡ length window.old }
    ensures ticks { steps.new ≤ steps.old + 16 }
    ensures leaves { LeavesBack (E.meaning engine.now) pair.now.null chunk.now.at chunk.now.past.now
        chunk.now.bytes.now place result }
{
    let offset = chunk.at + place as u64 - PAST_BYTES as u64;
    let next = Next::class_of(chunk.byte_at(place));
    let part = &mut window[..engine.size()];
    let prev = run_back(engine, part, chunk, place, steps);
    let out = engine.out(part, prev, offset);
    out.contains(next) | is_empty_between(pair.null, prev, next)
}

/// Whether the expression is left before the byte of that number among the past ones and those of the chunk. What rules
/// out that a match ends there comes before all else: its engine is hardly ever asked.
#[inline(always)]
fn leaves_back<E: BlockEngine, L: Ledger>(
    engine: &E,
    pair: &LookBackPair,
    chunk: &Chunk,
    place: usize,
    window: &mut [u8],
    steps: &mut Steps<L>,
) -> bool
    requires room { (E.meaning engine.now).width ≤ length window.old }
    requires listed { (E.meaning engine.now).always ≡ false }
    requires edges { HasEdges (E.meaning engine.now) pair.now.behind pair.now.last }
    requires low { 32 ≤ place }
    requires high { place < 64 + length chunk.now.bytes.now }
    requires within { 64 ≤ chunk.now.at + place }
    ensures window { length window.new ≡ length window.old }
    ensures ticks { steps.new ≤ steps.old + 16 }
    ensures leaves { LeavesBack (E.meaning engine.now) pair.now.null chunk.now.at chunk.now.past.now
        chunk.now.bytes.now place result }
{
    let offset = chunk.at + place as u64 - PAST_BYTES as u64;
    let byte = chunk.byte_at(place - 1);
    if ends_nowhere(pair, offset, byte) {
        return is_empty_before(pair.null, chunk, place, offset, byte);
    }
    asks_back(engine, pair, chunk, place, window, steps)
}

/// Whether both pieces of the pair are left behind so many bytes of a chunk, where its literal ends there.
#[inline(always)]
fn leaves_pair<E: BlockEngine, L: Ledger>(
    engine: &E,
    pair: &LookBackPair,
    chunk: &Chunk,
    place: usize,
    window: &mut [u8],
    steps: &mut Steps<L>,
) -> bool
    requires room { (E.meaning engine.now).width ≤ length window.old }
    requires listed { (E.meaning engine.now).always ≡ false }
    requires edges { HasEdges (E.meaning engine.now) pair.now.behind pair.now.last }
    requires some { 1 ≤ pair.now.len }
    requires short { pair.now.len ≤ 32 }
    requires within { place ≤ length chunk.now.bytes.now }
    ensures window { length window.new ≡ length window.old }
    ensures ticks { steps.new ≤ steps.old + 16 }
    ensures leaves { (hits : ChunkHits) → LeavesPair (E.meaning engine.now) pair.now.null pair.now.len chunk.now.at
        chunk.now.past.now chunk.now.bytes.now hits place result }
{
    let len = pair.len as usize;
    if chunk.at + (place as u64) < len as u64 {
        return false;
    }
    leaves_back(engine, pair, chunk, PAST_BYTES + place - len, window, steps)
}

/// Whether both pieces of a pair are left where the chunk begins, at which its literal ends or not, as the hits tell.
/// The window is memory for the engine; what is in it doesn't count.
pub(crate) fn leaves_at_start<E: BlockEngine, L: Ledger>(
    engine: &E,
    pair: &LookBackPair,
    chunk: &Chunk,
    hits: &ChunkHits,
    window: &mut [u8],
    steps: &mut Steps<L>,
) -> bool
    requires room { (E.meaning engine.now).width ≤ length window.old }
    requires listed { (E.meaning engine.now).always ≡ false }
    requires edges { HasEdges (E.meaning engine.now) pair.now.behind pair.now.last }
    requires some { 1 ≤ pair.now.len }
    requires short { pair.now.len ≤ 32 }
    ensures window { length window.new ≡ length window.old }
    ensures ticks { steps.new ≤ steps.old + 16 * hit_count hits.now 0 }
    ensures tells { TellsPair (E.meaning engine.now) pair.now.null pair.now.len chunk.now.at chunk.now.past.now
        chunk.now.bytes.now hits.now 0 result }
{
    if !hits.at_start {
        return false;
    }
    leaves_pair(engine, pair, chunk, 0, window, steps)
}

/// Where both pieces of the pair are left in a chunk, of the places where the literal ends.
fn find_pair<E: BlockEngine, L: Ledger>(
    engine: &E,
    pair: &LookBackPair,
    chunk: &Chunk,
    hits: &ChunkHits,
    steps: &mut Steps<L>,
) -> ChunkHits
    requires room { (E.meaning engine.now).width ≤ window_room }
    requires listed { (E.meaning engine.now).always ≡ false }
    requires edges { HasEdges (E.meaning engine.now) pair.now.behind pair.now.last }
    requires some { 1 ≤ pair.now.len }
    requires short { pair.now.len ≤ 32 }
    ensures ticks { steps.new ≤ steps.old + 16 * hit_count hits.now (length chunk.now.bytes.now) }
    ensures finds { FindsPair (E.meaning engine.now) pair.now.null pair.now.len chunk.now.at chunk.now.past.now
        chunk.now.bytes.now hits.now result }
{
    let mut window = [0u8; MAX_LOOK_BACK_REGION];
    let at_start = leaves_at_start(engine, pair, chunk, hits, &mut window, steps);
    let mut behind = [0u64; MAX_BLOCKS];
    let mut from = 0;
    while let Some(k) = next_bit_in(&hits.behind, from, chunk.bytes.len()) {
        let leaves = leaves_pair(engine, pair, chunk, k + 1, &mut window, steps);
        write_word_bit(&mut behind, k, leaves);
        from = k + 1;
    }
    ChunkHits { at_start, behind }
}

/// Where pieces are left in a chunk, by the places where they are, whatever comes next.
pub(crate) fn ends_of(chunk: &Chunk, left: &ChunkHits) -> ChunkEnds
    ensures { (pieces : List Piece) (u : List ℕ) → AreLeftAt left.now pieces u chunk.now.bytes.now →
        AreLeftIn pieces u chunk.now.bytes.now result }
{
    if left.is_nowhere() {
        return ChunkEnds::NOWHERE;
    }
    let mut ends = ChunkEnds::NOWHERE;
    for j in 0..chunk.blocks() {
        let all = low_places(chunk.block(j).len());
        ends.before[j] = all & left.before_block(j);
        ends.behind[j] = all & left.behind[j];
    }
    ends
}

/// Takes a chunk by a pair, whose literal ends where the hits tell it. Answers where both pieces are left.
pub(crate) fn run_pair<E: BlockEngine, L: Ledger>(
    engine: &E,
    pair: &LookBackPair,
    chunk: &Chunk,
    hits: &ChunkHits,
    steps: &mut Steps<L>,
) -> ChunkEnds
    requires room { (E.meaning engine.now).width ≤ window_room }
    requires listed { (E.meaning engine.now).always ≡ false }
    requires edges { HasEdges (E.meaning engine.now) pair.now.behind pair.now.last }
    requires some { 1 ≤ pair.now.len }
    requires short { pair.now.len ≤ 32 }
    ensures ticks { steps.new ≤ steps.old + 16 * hit_count hits.now (length chunk.now.bytes.now) }
    ensures takes { TakesPair (E.meaning engine.now) pair.now.null pair.now.len chunk.now.at chunk.now.past.now
        chunk.now.bytes.now hits.now result }
{
    if is_past(pair, chunk) {
        return ChunkEnds::NOWHERE;
    }
    let left = find_pair(engine, pair, chunk, hits, steps);
    ends_of(chunk, &left)
}
