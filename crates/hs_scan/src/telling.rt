//! What a chunk tells, block by block.

ghost use Rattle.std.specs.Prelude.{◌≡◌, ℕ, ◌+◌, ◌*◌, ◌<◌, ◌≤◌, ◌^◌, false, true, length};
ghost use Rattle.hs_nodes.specs.Blocks.{block};
ghost use Rattle.hs_nodes.specs.Left.{nowhere};
ghost use Rattle.hs_bits.specs.Marks.{is_marked, mark_room};
ghost use Rattle.hs_nodes.specs.Walks.{node_ends};
ghost use Rattle.hs_reports.specs.Events.{Takes};
ghost use Rattle.hs_keeping.specs.Knowing.{FitsKnown, IsPending};
ghost use Rattle.hs_nodes.specs.Gathering.{AreBusy};
ghost use Rattle.hs_nodes.specs.Graphs.{AreTerminalsSound};
ghost use Rattle.hs_scan.specs.Telling.{TellsBlock, TellsChunk};

use hs_bits::MarkSet;
use hs_block::BlockEngine;
use hs_keeping::Known;
use hs_nodes::{BLOCK_BYTES, Chunk, ChunkEnds, Graph, NodeEnds, busy_words, gather_left};
use hs_reports::Events;

/// Reports what a block of a chunk decides, by the ends that the nodes give.
fn tell_known<E: BlockEngine, V: Events>(
    graph: &Graph<E>,
    chunk: &Chunk,
    left: &NodeEnds,
    number: usize,
    known: &mut Known,
    events: &mut V,
)
    requires sound { AreTerminalsSound graph.now }
    requires few { length graph.now.table.nodes.items < 2 ^ 32 }
    requires ends { length left.now.ends.now ≡ length graph.now.table.nodes.items }
    requires there { 64 * number < length chunk.now.bytes.now }
    requires busy { AreBusy graph.now left.now.ends.now left.now.busy }
    requires fits { FitsKnown (length graph.now.identifiers.items) known.old }
    requires pending { IsPending known.old }
    ensures fits { FitsKnown (length graph.now.identifiers.items) known.new }
    ensures pending { IsPending known.new }
    ensures told { Takes V.tells events.old events.new (TellsBlock E.meaning graph.now chunk.now.bytes.now
        chunk.now.at left.now.ends.now left.now.all.now number known.old.told.items known.old.here.items
        known.new.told.items known.new.here.items) }
{
    let own = chunk.block(number);
    gather_left(graph, left, number, chunk.at, &mut known.ends);
    let last = own.len() - 1;
    known.settle(&graph.identifiers, last);
    let at = chunk.at + (BLOCK_BYTES * number) as u64;
    known.tellings.tell(at, last, events);
}

/// Reports what a chunk decides, by where the nodes are left in it. Nodes that aren't marked are left nowhere; `all` is
/// everywhere.
pub(crate) fn tell_chunk<E: BlockEngine, V: Events>(
    graph: &Graph<E>,
    chunk: &Chunk,
    marks: &MarkSet,
    ends: &[ChunkEnds],
    all: &ChunkEnds,
    known: &mut Known,
    events: &mut V,
)
    requires sound { AreTerminalsSound graph.now }
    requires few { length graph.now.table.nodes.items < 2 ^ 32 }
    requires ends { length ends.now ≡ length graph.now.table.nodes.items }
    requires marks { length graph.now.table.nodes.items ≤ mark_room marks.now }
    requires below { (k : ℕ) → is_marked marks.now k ≡ true → k < length graph.now.table.nodes.items }
    requires rest { (k : ℕ) → k < length graph.now.table.nodes.items → is_marked marks.now k ≡ false →
        node_ends ends.now k ≡ nowhere }
    requires fits { FitsKnown (length graph.now.identifiers.items) known.old }
    requires pending { IsPending known.old }
    ensures fits { FitsKnown (length graph.now.identifiers.items) known.new }
    ensures pending { IsPending known.new }
    ensures told { Takes V.tells events.old events.new (TellsChunk E.meaning graph.now chunk.now.bytes.now
        chunk.now.at ends.now all.now known.old.told.items known.old.here.items known.new.told.items
        known.new.here.items) }
{
    let left = NodeEnds {
        marks,
        ends,
        all,
        busy: busy_words(graph, marks, ends),
    };
    for j in 0..chunk.blocks() {
        tell_known(graph, chunk, &left, j, known, events);
    }
}
