//! The nodes over a chunk: those in which something is live, and those that the chunk wakes.

ghost use Rattle.std.specs.Prelude.{◌≡◌, ◌+◌, ◌*◌, ◌<◌, ◌≤◌, ℕ, true, false, length};
ghost use Rattle.hs_base.specs.Lists.{Each};
ghost use Rattle.hs_literals.specs.HitTables.{has_hit};
ghost use Rattle.hs_nodes.specs.Lone.{AreLoneNodes, is_spent_node};
ghost use Rattle.hs_nodes.specs.Openings.{AreOver};
ghost use Rattle.hs_nodes.specs.Resting.{AreNodesResting};
ghost use Rattle.hs_nodes.specs.Walks.{AreNodesWell, ChangesMarked, TakesNodes};
ghost use Rattle.hs_scan.specs.Hits.{HasNowhere, sought};
ghost use Rattle.hs_scan.specs.NodeCaches.{IsNodeCacheOf};
ghost use Rattle.hs_scan.specs.Spending.{spent_in};
ghost use Rattle.hs_scan.specs.Scratches.{HasRoomForNodes, IsBetweenChunks, KeepsKnown, MayRunNodes};

use crate::hits::sought_hits;
use crate::node_cache::NodeCache;
use crate::scratch::Scratch;
use crate::waking::wake;
use hs_block::BlockEngine;
use hs_engine::{Steps, TimelessEngine};
use hs_nodes::{BLOCK_BYTES, Chunk, Foretold, Graph, LoneNodes, Spent, walk};
use std::sync::ledger::Ledger;

/// The nodes that are spent in a chunk, by what is told before it: none in one that is shorter than a block.
fn spent_in<'l, 't, 'c, 'b, 'p>(
    lone: &'l LoneNodes,
    told: &'t [u64],
    chunk: &'c Chunk<'b, 'p>,
) -> Spent<'l, 't, 'c, 'b, 'p>
    ensures chunk { result.chunk.now ≡ chunk.now }
    ensures lone { result.lone.now ≡ lone.now }
    ensures fewer { (k : ℕ) → spent_in lone.now told.now chunk.now.bytes.now k ≡ false →
        is_spent_node lone.now result.told.now k ≡ false }
{
    if lone.is_empty() || chunk.bytes.len() < BLOCK_BYTES {
        return Spent {
            lone,
            told: &[],
            chunk,
        };
    }
    Spent { lone, told, chunk }
}

/// Runs the nodes that a chunk concerns, of which the scratch has where the literals end in it: the region goes from
/// what is kept of the nodes before it to what is kept behind it, and the scratch has where each node is left. Of
/// engines without a parent the cache tells what they do, or it is found where their matches may begin. Where the
/// chains are over that begin where the stream does, only literals that last need to be known. In a chunk of a block or
/// more it isn't found where nodes are left that are spent.
pub(crate) fn run_nodes<E: BlockEngine + TimelessEngine, L: Ledger>(
    graph: &Graph<E>,
    region: &mut [u8],
    cache: &mut NodeCache,
    scratch: &mut Scratch,
    are_over: bool,
    lone: &LoneNodes,
    chunk: &Chunk,
    steps: &mut Steps<L>,
)
    requires runs { MayRunNodes E.meaning graph.now scratch.old.rows.count (length region.old) }
    requires before { IsBetweenChunks E.meaning graph.now chunk.now.at region.old cache.old scratch.old }
    requires small { Each (λ b. b < 256) chunk.now.bytes.now }
    requires others { (k : ℕ) → has_hit scratch.old.rows k ≡ false → HasNowhere scratch.old.hits.items k }
    requires lone { AreLoneNodes E.meaning graph.now lone.now }
    requires over { are_over ≡ true → AreOver graph.now.openings chunk.now.at scratch.old.course.marks }
    ensures well { AreNodesWell E.meaning graph.now.table region.new (chunk.now.at + length chunk.now.bytes.now) }
    ensures room { HasRoomForNodes (length graph.now.table.nodes.items) scratch.new }
    ensures changes { ChangesMarked E.meaning graph.now.table scratch.new.course.marks region.old region.new
        scratch.new.ends.items }
    ensures resting { AreNodesResting E.meaning graph.now.table scratch.new.course.marks region.new }
    ensures cached { IsNodeCacheOf E.meaning graph.now.table cache.new }
    ensures keeps { KeepsKnown scratch.old scratch.new }
    ensures ticks { steps.new ≤
        steps.old + 16 * (length graph.now.table.nodes.items * (length chunk.now.bytes.now + 1)) }
    ensures takes { TakesNodes E.meaning graph.now.table (spent_in lone.now scratch.old.course.known.told.items
        chunk.now.bytes.now) region.old region.new chunk.now.prev chunk.now.at chunk.now.past.now chunk.now.bytes.now
        (sought are_over graph.now.openings scratch.old.hits.items) scratch.new.ends.items }
{
    let spent = spent_in(lone, &scratch.course.known.told, chunk);
    wake(
        graph,
        &scratch.rows,
        region,
        &mut scratch.words,
        &mut cache.automata,
        &spent,
        &mut scratch.starts,
        &mut scratch.course.marks,
    );
    let foretold = Foretold {
        hits: sought_hits(&scratch.hits, &graph.openings, are_over),
        ending: scratch.rows.ending(),
        starts: &scratch.starts,
        cache: &cache.automata,
        openings: &graph.openings,
        are_over,
        spent,
    };
    walk(
        &graph.table,
        chunk,
        &foretold,
        region,
        &mut scratch.ends,
        &mut scratch.course.marks,
        &mut cache.pool,
        steps,
    );
}
