//! Nodes over a chunk by a cache, which tells of many of them at once.

ghost use Rattle.std.specs.Prelude.{◌≡◌, ◌<◌, ◌≤◌, ◌^◌, ℕ, IfOk, None, true, length};
ghost use Rattle.hs_lazy.specs.Tables.{engine_at};
ghost use Rattle.hs_bits.specs.Marks.{is_marked, mark_room};
ghost use Rattle.hs_nodes.specs.Cached.{AreToldAsleep, IsCacheOf, TellsNodes};
ghost use Rattle.hs_nodes.specs.Loading.{AreUnloaded, IsLoadedTo};
ghost use Rattle.hs_nodes.specs.Resting.{AreEnginesIdle, AreNodesResting};
ghost use Rattle.hs_nodes.specs.Walks.{AreMoreMarks, IsTableSound};

use crate::table::{NodeKind, NodeTable};
use crate::walking::node_at;
use hs_base::Prev;
use hs_bits::MarkSet;
use hs_engine::TimelessEngine;
use hs_lazy::{Cache, loaded_regions};
use std::alloc::{AllocError, Global};

/// A cache for the nodes of a table: those of timeless engines that have no parent and no empty span. The only error is
/// want of memory.
pub fn cache_for<E: TimelessEngine>(
    alloc: Global,
    table: &NodeTable<E>,
) -> Result<Cache, AllocError>
    requires sound { (literals size : ℕ) × IsTableSound E.meaning table.now literals size }
    requires few { length table.now.nodes.items < 2 ^ 32 }
    ensures { IfOk result (IsCacheOf E.meaning table.now) }
{
    let mut cache = Cache::new(alloc, &table.engines, table.nodes.len())?;
    for k in 0..table.nodes.len() {
        add_node(alloc, table, k, &mut cache)?;
    }
    Ok(cache)
}

/// A cache for none of the nodes of a table.
pub fn no_cache<E: TimelessEngine>(alloc: Global, table: &NodeTable<E>) -> Cache
    ensures { IsCacheOf E.meaning table.now result }
{
    Cache::none(alloc, &table.engines)
}

/// Has the cache run the node of that number, if it can. The only error is want of memory.
fn add_node<E: TimelessEngine>(
    alloc: Global,
    table: &NodeTable<E>,
    k: usize,
    cache: &mut Cache,
) -> Result<(), AllocError>
    requires sound { (literals size : ℕ) × IsTableSound E.meaning table.now literals size }
    requires there { k < length table.now.nodes.items }
    requires cache { IsCacheOf E.meaning table.now cache.old }
    requires none { engine_at cache.old.dfas k ≡ None }
    ensures cache { IsCacheOf E.meaning table.now cache.new }
    ensures others { (j : ℕ) → (j ≡ k → ⊥) → engine_at cache.new.dfas j ≡ engine_at cache.old.dfas j }
{
    let node = node_at(table, k);
    let NodeKind::Engine(number, None) = node.kind else {
        return Ok(());
    };
    if node.parent.is_some() {
        return Ok(());
    }
    cache.add(alloc, &table.engines, k, number as usize)
}

/// Loads what is kept of the marked nodes into a cache, in which all regions are 0.
fn load_marked<E: TimelessEngine>(
    table: &NodeTable<E>,
    region: &[u8],
    marks: &MarkSet,
    cache: &mut Cache,
)
    requires sound { (literals : ℕ) × IsTableSound E.meaning table.now literals (length region.now) }
    requires below { (k : ℕ) → is_marked marks.now k ≡ true → k < length table.now.nodes.items }
    requires cache { IsCacheOf E.meaning table.now cache.old }
    requires zero { AreUnloaded cache.old }
    ensures dfas { cache.new.dfas ≡ cache.old.dfas }
    ensures loaded { IsLoadedTo table.now region.now marks.now cache.new (mark_room marks.now) }
{
    loaded_regions(&table.engines, cache);
    let mut from = 0;
    while let Some(k) = marks.next(from) {
        let node = node_at(table, k);
        cache.load(k, &region[node.start as usize..node.end as usize]);
        from = k + 1;
    }
}

/// Has a cache run those of its nodes no more for whose states it had no room, or which too many bytes left.
fn shed_cache<E: TimelessEngine>(table: &NodeTable<E>, cache: &mut Cache)
    requires { IsCacheOf E.meaning table.now cache.old }
    ensures { IsCacheOf E.meaning table.now cache.new }
{
    cache.shed(&table.engines);
}

/// Takes a chunk behind `prev` by a cache: it tells of some of its nodes what they do, and of these those are marked in
/// which something is live behind the chunk or that are left in it.
pub fn run_cached<E: TimelessEngine>(
    table: &NodeTable<E>,
    prev: Prev,
    bytes: &[u8],
    region: &[u8],
    cache: &mut Cache,
    marks: &mut MarkSet,
)
    requires sound { (literals : ℕ) × IsTableSound E.meaning table.now literals (length region.now) }
    requires few { length bytes.now ≤ 512 }
    requires room { length table.now.nodes.items ≤ mark_room marks.old }
    requires below { (k : ℕ) → is_marked marks.old k ≡ true → k < length table.now.nodes.items }
    requires idle { AreEnginesIdle E.meaning table.now.engines.items }
    requires resting { AreNodesResting E.meaning table.now marks.old region.now }
    requires cache { IsCacheOf E.meaning table.now cache.old }
    ensures cache { IsCacheOf E.meaning table.now cache.new }
    ensures more { AreMoreMarks (length table.now.nodes.items) marks.old marks.new }
    ensures told { TellsNodes E.meaning table.now cache.new region.now prev bytes.now }
    ensures asleep { AreToldAsleep E.meaning table.now cache.new marks.new prev bytes.now }
{
    shed_cache(table, cache);
    cache.begin();
    load_marked(table, region, marks, cache);
    loaded_regions(&table.engines, cache);
    cache.run(&table.engines, prev, bytes);
    cache.mark_woken(marks);
}
