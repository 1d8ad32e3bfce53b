//! A forest, as tables.

ghost use Rattle.std.specs.Prelude.{◌≡◌, ℕ, List, IfOk};
ghost use Rattle.hs_forest.specs.Forests.{IsForestOf, IsForestWhole};
ghost use Rattle.hs_forest.specs.Growing.{AreFinished, IsBuilt, IsFinished};

use crate::builder::Builder;
use crate::groups::{Groups, group};
use crate::growing::Growing;
use std::alloc::{AllocError, Global};
use std::marker::Model;

/// The beginnings of chains of keys, each once: of each node the parent, the key and the children, and for each key of
/// each chain its node. Nodes are numbered in the order of their first keys. A node takes 24 bytes, and its key is
/// found in time by the logarithm of the count of nodes.
#[derive(Debug, Drop)]
pub struct Forest {
    parents: Vec<Option<u32>>,
    keys: Vec<usize>,
    child_starts: Vec<u32>,
    children: Vec<u32>,
    nodes: Vec<u32>,
    last_nodes: Vec<Option<u32>>,
}

impl Model for Forest {
    ghost use Rattle.hs_forest.specs.Forests.{ForestTables, IsForestWhole, forest_tables};

    ghost Value = { ForestTables };

    ghost view = { λ f. forest_tables f.parents.items f.keys.items f.child_starts.items f.children.items
        f.nodes.items f.last_nodes.items };

    ghost invariant = { λ f. IsForestWhole (forest_tables f.parents.items f.keys.items f.child_starts.items
        f.children.items f.nodes.items f.last_nodes.items) };
}

impl Forest {
    /// Of each node the parent, which comes before it; a root has none.
    pub fn parents(&self) -> &[Option<u32>]
        ensures parents { result.now ≡ self.now.parents }
        ensures whole { IsForestWhole self.now }
    {
        &self.parents
    }

    /// Of each node the key, which its path ends with.
    pub fn keys(&self) -> &[usize]
        ensures { result.now ≡ self.now.keys }
    {
        &self.keys
    }

    /// Where in the list of children those of each node begin; behind these, where the last one's end.
    pub fn child_starts(&self) -> &[u32]
        ensures { result.now ≡ self.now.child_starts }
    {
        &self.child_starts
    }

    /// The children of all nodes, in order, those of a node rising.
    pub fn children(&self) -> &[u32]
        ensures { result.now ≡ self.now.children }
    {
        &self.children
    }

    /// The node of each key of each chain, in order.
    pub fn nodes(&self) -> &[u32]
        ensures { result.now ≡ self.now.nodes }
    {
        &self.nodes
    }

    /// The last node of each chain, in order; one of no keys has none.
    pub fn last_nodes(&self) -> &[Option<u32>]
        ensures { result.now ≡ self.now.last_nodes }
    {
        &self.last_nodes
    }
}

impl Builder {
    /// The forest of the chains that were added. The only error is want of memory.
    pub fn finish(self, alloc: Global) -> Result<Forest, AllocError>
        requires { AreFinished self }
        ensures { IfOk result (λ forest. (chains : List (List ℕ)) → IsBuilt self chains → IsForestOf forest chains) }
    {
        finished(alloc, self)
    }
}

/// The forest of what is built.
fn finished(alloc: Global, builder: Builder) -> Result<Forest, AllocError>
    requires { AreFinished builder }
    ensures { IfOk result (λ forest. IsFinished builder forest) }
{
    let Builder {
        growing,
        nodes,
        last_nodes,
    } = builder;
    let Growing {
        parents,
        keys,
        index,
    } = growing;
    drop(index);
    let Groups { starts, list } = group(alloc, &parents, parents.len())?;
    Ok(Forest {
        parents,
        keys,
        child_starts: starts,
        children: list,
        nodes,
        last_nodes,
    })
}
