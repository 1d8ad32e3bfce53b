//! Which nodes are run over a chunk, beside those in which something is live.

ghost use Rattle.std.specs.Prelude.{◌≡◌, ◌<◌, ◌≤◌, ℕ, List, true, false, length};
ghost use Rattle.hs_base.specs.Lists.{Each};
ghost use Rattle.hs_literals.specs.HitTables.{has_hit};
ghost use Rattle.hs_bits.specs.Marks.{is_marked, mark_room};
ghost use Rattle.hs_nodes.specs.Starting.{AreStartsEnough};
ghost use Rattle.hs_nodes.specs.Cached.{IsCacheOf, TellsNodes};
ghost use Rattle.hs_nodes.specs.Resting.{AreEnginesIdle, AreNodesResting, AreNodesUnwoken};
ghost use Rattle.hs_nodes.specs.Waking.{AreRowsSound, AreWakesSound};
ghost use Rattle.hs_nodes.specs.Walks.{AreMoreMarks, IsAmongChildren, IsTableSound};
ghost use Rattle.hs_nodes.specs.declared.hits.ChunkHits.{ChunkHits};
ghost use Rattle.hs_scan.specs.Hits.{HasNowhere};

use hs_bits::MarkSet;
use hs_engine::TimelessEngine;
use hs_lazy::Cache;
use hs_literals::HitRows;
use hs_nodes::{Graph, Spent, run_cached, wake_engines, wake_literal};
use hs_waking::{ClassWords, Starts};

/// Marks the nodes that the literals wake that end in a chunk.
fn wake_literals<E>(graph: &Graph<E>, rows: &HitRows, marks: &mut MarkSet)
    requires wakes { AreWakesSound graph.now.table.nodes.items graph.now.wakes rows.now.count }
    requires room { length graph.now.table.nodes.items ≤ mark_room marks.old }
    requires below { (k : ℕ) → is_marked marks.old k ≡ true → k < length graph.now.table.nodes.items }
    ensures more { AreMoreMarks (length graph.now.table.nodes.items) marks.old marks.new }
    ensures woken { (number k : ℕ) → has_hit rows.now number ≡ true →
        IsAmongChildren graph.now.wakes.literal_starts.items graph.now.wakes.literal_nodes.items number k →
        is_marked marks.new k ≡ true }
{
    let mut from = 0;
    while let Some(number) = rows.next_hit(from) {
        wake_literal(graph, number, marks);
        from = number + 1;
    }
}

/// Marks the nodes that the chunk wakes in which nodes are spent, and in which just the literals end of which the rows
/// tell it. Of the engines without a parent the cache tells what they do, from the region on, or it is said where their
/// matches may begin.
#[inline(never)]
pub(crate) fn wake<E: TimelessEngine>(
    graph: &Graph<E>,
    rows: &HitRows,
    region: &[u8],
    words: &mut ClassWords,
    cache: &mut Cache,
    spent: &Spent,
    starts: &mut Starts,
    marks: &mut MarkSet,
)
    requires table { IsTableSound E.meaning graph.now.table rows.now.count (length region.now) }
    requires idle { AreEnginesIdle E.meaning graph.now.table.engines.items }
    requires resting { AreNodesResting E.meaning graph.now.table marks.old region.now }
    requires cache { IsCacheOf E.meaning graph.now.table cache.old }
    requires sound { AreRowsSound E.meaning graph.now.table graph.now.wakes }
    requires wakes { AreWakesSound graph.now.table.nodes.items graph.now.wakes rows.now.count }
    requires room { length graph.now.table.nodes.items ≤ mark_room marks.old }
    requires below { (k : ℕ) → is_marked marks.old k ≡ true → k < length graph.now.table.nodes.items }
    requires small { Each (λ b. b < 256) spent.now.chunk.now.bytes.now }
    ensures more { AreMoreMarks (length graph.now.table.nodes.items) marks.old marks.new }
    ensures cache { IsCacheOf E.meaning graph.now.table cache.new }
    ensures told { TellsNodes E.meaning graph.now.table cache.new region.now spent.now.chunk.now.prev
        spent.now.chunk.now.bytes.now }
    ensures starts { AreStartsEnough E.meaning graph.now.table cache.new starts.new spent.now.chunk.now.prev
        spent.now.chunk.now.bytes.now }
    ensures unwoken { (hits : List ChunkHits) → ((k : ℕ) → has_hit rows.now k ≡ false → HasNowhere hits k) →
        AreNodesUnwoken E.meaning graph.now.table marks.new hits spent.now.chunk.now.prev
        spent.now.chunk.now.bytes.now }
{
    let chunk = spent.chunk;
    run_cached(&graph.table, chunk.prev, chunk.bytes, region, cache, marks);
    wake_literals(graph, rows, marks);
    wake_engines(graph, words, cache, spent, starts, marks);
}
