//! A line feed that is the last byte of a write: it may be the last one of the stream.

ghost use Rattle.std.specs.Prelude.{◌≡◌, ◌+◌, ◌*◌, ◌<◌, ◌≤◌, ◌^◌, ℕ, [], ◌∷◌, length, slice_index, false, true};
ghost use Rattle.hs_base.specs.Assertions.{line_feed};
ghost use Rattle.hs_base.specs.Bits.{word_count};
ghost use Rattle.hs_literals.specs.HitTables.{has_hit};
ghost use Rattle.hs_nodes.specs.Graphs.{AreTerminalsSound};
ghost use Rattle.hs_nodes.specs.Left.{nowhere};
ghost use Rattle.hs_nodes.specs.Lone.{AreLoneNodes};
ghost use Rattle.hs_bits.specs.Marks.{is_marked, mark_room};
ghost use Rattle.hs_nodes.specs.Walks.{IsOutside, node_ends};
ghost use Rattle.hs_reports.specs.Events.{Takes};
ghost use Rattle.hs_scan.specs.Hits.{HasNowhere};
ghost use Rattle.hs_keeping.specs.Knowing.{FitsKnown, IsPending};
ghost use Rattle.hs_scan.specs.Scans.{ScansChunk};
ghost use Rattle.hs_scan.specs.Scratches.{IsBetweenChunks, KeepsLast, KeepsNodes, MayRunNodes};
ghost use Rattle.hs_scan.specs.Telling.{TellsBlock};
ghost use Rattle.hs_scan.specs.Writing.{LeavesLineFeed, LeavesLineFeedChunk};

use crate::node_cache::NodeCache;
use crate::running::run_nodes;
use crate::scratch::Scratch;
use hs_block::BlockEngine;
use hs_engine::{Steps, TimelessEngine};
use hs_keeping::fill_last;
use hs_nodes::{Chunk, ChunkEnds, Graph, LoneNodes, everywhere, gather_block, settle};
use hs_reports::Events;
use std::sync::ledger::Ledger;

/// The one byte.
pub(crate) const LINE_FEED: [u8; 1] = [b'\n'];

/// Reports what a chunk of one line feed decides, by where the nodes are left, and writes which identifiers it leaves
/// to the end.
fn tell_line_feed<E: BlockEngine, V: Events>(
    graph: &Graph<E>,
    scratch: &mut Scratch,
    chunk: &Chunk,
    all: &ChunkEnds,
    events: &mut V,
)
    requires sound { AreTerminalsSound graph.now }
    requires few { length graph.now.table.nodes.items < 2 ^ 32 }
    requires ends { length scratch.old.ends.items ≡ length graph.now.table.nodes.items }
    requires marks { length graph.now.table.nodes.items ≤ mark_room scratch.old.course.marks }
    requires below { (k : ℕ) → is_marked scratch.old.course.marks k ≡ true → k < length graph.now.table.nodes.items }
    requires rest { (k : ℕ) → k < length graph.now.table.nodes.items →
        is_marked scratch.old.course.marks k ≡ false → node_ends scratch.old.ends.items k ≡ nowhere }
    requires bytes { chunk.now.bytes.now ≡ line_feed ∷ [] }
    requires finals { length scratch.old.finals.words ≡ length graph.now.identifiers.items }
    requires last { length scratch.old.last.items ≡ word_count (length graph.now.identifiers.items) }
    requires fits { FitsKnown (length graph.now.identifiers.items) scratch.old.course.known }
    requires pending { IsPending scratch.old.course.known }
    ensures last { length scratch.new.last.items ≡ length scratch.old.last.items }
    ensures fits { FitsKnown (length graph.now.identifiers.items) scratch.new.course.known }
    ensures pending { IsPending scratch.new.course.known }
    ensures keeps { KeepsNodes scratch.old scratch.new }
    ensures told { Takes V.tells events.old events.new (TellsBlock E.meaning graph.now chunk.now.bytes.now
        chunk.now.at scratch.old.ends.items all.now 0 scratch.old.course.known.told.items
        scratch.old.course.known.here.items scratch.new.course.known.told.items
        scratch.new.course.known.here.items) }
    ensures left { LeavesLineFeed E.meaning graph.now chunk.now.bytes.now chunk.now.at scratch.old.ends.items all.now
        scratch.old.course.known.told.items scratch.old.course.known.here.items scratch.old.finals
        scratch.new.last.items }
{
    gather_block(
        graph,
        &scratch.course.marks,
        &scratch.ends,
        all,
        0,
        chunk.at,
        &mut scratch.course.known.ends,
    );
    fill_last(
        &graph.identifiers,
        &scratch.course.known,
        &scratch.finals,
        &mut scratch.last,
    );
    scratch.course.known.settle(&graph.identifiers, 0);
    scratch.course.known.tellings.tell(chunk.at, 0, events);
}

/// Takes a chunk of one line feed, of which the scratch has where the literals end in it, and which matches would end
/// before it were it the last byte.
pub(crate) fn run_line_feed<E: BlockEngine + TimelessEngine, V: Events, L: Ledger>(
    graph: &Graph<E>,
    region: &mut [u8],
    cache: &mut NodeCache,
    scratch: &mut Scratch,
    lone: &LoneNodes,
    chunk: &Chunk,
    events: &mut V,
    steps: &mut Steps<L>,
)
    requires runs { MayRunNodes E.meaning graph.now scratch.old.rows.count (length region.old) }
    requires before { IsBetweenChunks E.meaning graph.now chunk.now.at region.old cache.old scratch.old }
    requires lone { AreLoneNodes E.meaning graph.now lone.now }
    requires bytes { chunk.now.bytes.now ≡ line_feed ∷ [] }
    requires others { (k : ℕ) → has_hit scratch.old.rows k ≡ false → HasNowhere scratch.old.hits.items k }
    ensures len { length region.new ≡ length region.old }
    ensures outside { (i : ℕ) → IsOutside graph.now.table.nodes.items i →
        slice_index region.new i ≡ slice_index region.old i }
    ensures behind { IsBetweenChunks E.meaning graph.now (chunk.now.at + length chunk.now.bytes.now) region.new
        cache.new scratch.new }
    ensures ticks { steps.new ≤ steps.old + 32 * length graph.now.table.nodes.items }
    ensures keeps { KeepsLast scratch.old scratch.new }
    ensures scans { Takes V.tells events.old events.new (ScansChunk E.meaning graph.now region.old region.new
        chunk.now.prev chunk.now.at chunk.now.past.now chunk.now.bytes.now scratch.old.hits.items
        scratch.old.course.known.told.items scratch.old.course.known.here.items scratch.new.course.known.told.items
        scratch.new.course.known.here.items) }
    ensures left { LeavesLineFeedChunk E.meaning graph.now region.old chunk.now.prev chunk.now.at chunk.now.past.now
        chunk.now.bytes.now scratch.old.hits.items scratch.old.course.known.told.items
        scratch.old.course.known.here.items scratch.old.finals scratch.new.last.items }
{
    run_nodes(graph, region, cache, scratch, false, lone, chunk, steps);
    let all = everywhere(chunk);
    tell_line_feed(graph, scratch, chunk, &all, events);
    let marks = &mut scratch.course.marks;
    settle(&graph.table, region, &mut scratch.ends, marks);
}
