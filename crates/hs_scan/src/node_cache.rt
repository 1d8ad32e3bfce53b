//! What was seen of the nodes of a graph.

ghost use Rattle.std.specs.Prelude.{◌<◌, ◌^◌, ℕ, IfOk, length};
ghost use Rattle.hs_nodes.specs.Walks.{IsTableSound};
ghost use Rattle.hs_scan.specs.NodeCaches.{IsNodeCacheOf};

use hs_engine::TimelessEngine;
use hs_lazy::Cache;
use hs_nodes::{NodeTable, cache_for, no_cache};
use hs_pool::StatePool;
use std::alloc::{AllocError, Global};

/// The states in which the engines of nodes were seen, and the steps that bytes were seen to make of them.
#[derive(Debug, Drop)]
pub struct NodeCache {
    /// Those of many engines at once.
    pub automata: Cache,
    /// Those of single engines, if they are kept.
    pub pool: Option<StatePool>,
}

impl NodeCache {
    /// For the nodes of a table. The only error is want of memory.
    pub fn new<E: TimelessEngine>(
        alloc: Global,
        table: &NodeTable<E>,
    ) -> Result<NodeCache, AllocError>
        requires sound { (literals size : ℕ) × IsTableSound E.meaning table.now literals size }
        requires few { length table.now.nodes.items < 2 ^ 32 }
        ensures { IfOk result (IsNodeCacheOf E.meaning table.now) }
    {
        Ok(NodeCache {
            automata: cache_for(alloc, table)?,
            pool: Some(StatePool::new(alloc, &table.engines)?),
        })
    }

    /// For none of the nodes of a table: nothing is seen of them.
    pub fn none<E: TimelessEngine>(alloc: Global, table: &NodeTable<E>) -> NodeCache
        ensures { IsNodeCacheOf E.meaning table.now result }
    {
        NodeCache {
            automata: no_cache(alloc, table),
            pool: None,
        }
    }
}
