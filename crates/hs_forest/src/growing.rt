//! The nodes of a forest while it is built.

ghost use Rattle.std.specs.Prelude.{◌≡◌, ℕ, ◌^◌, ◌<◌, ◌∷◌, ◌++◌, [], List, IfOk, None, Some};
ghost use Rattle.hs_forest.specs.Forests.{path_to};
ghost use Rattle.hs_forest.specs.Growing.{IsGrown, IsSound, node_at};

use std::alloc::{AllocError, Global};
use std::collections::BTreeMap;

/// The nodes so far, and which of them has a parent and a key.
#[derive(Debug, Drop)]
pub(crate) struct Growing {
    pub parents: Vec<Option<u32>>,
    pub keys: Vec<usize>,
    pub index: BTreeMap<(Option<u32>, usize), u32>,
}

impl Growing {
    /// No node.
    pub fn new(alloc: Global) -> Growing
        ensures { IsSound result [] }
    {
        Growing {
            parents: Vec::new(alloc),
            keys: Vec::new(alloc),
            index: BTreeMap::new(alloc),
        }
    }

    /// The child with that key of a node, or the root with that key: it is put behind the other nodes where there is
    /// none. This takes time by the logarithm of the count of nodes.
    pub fn child(&mut self, parent: Option<u32>, key: usize) -> Result<u32, AllocError>
        ensures { IfOk result (λ node. (paths : List (List ℕ)) (front : List ℕ) → IsSound self.old paths →
            path_to paths parent ≡ Some front → IsGrown self.new paths (front ++ key ∷ []) node) }
    {
        if let Some(node) = self.index.get(&(parent, key)) {
            return Ok(*node);
        }
        self.add(parent, key)
    }

    /// Puts a node behind the others that isn't there.
    fn add(&mut self, parent: Option<u32>, key: usize) -> Result<u32, AllocError>
        requires { node_at self.old.index parent key ≡ None }
        ensures { IfOk result (λ node. (paths : List (List ℕ)) (front : List ℕ) → IsSound self.old paths →
            path_to paths parent ≡ Some front → IsGrown self.new paths (front ++ key ∷ []) node) }
    {
        let node = node_number(self.keys.len())?;
        self.index.insert((parent, key), node)?;
        self.parents.push(parent)?;
        self.keys.push(key)?;
        Ok(node)
    }
}

/// The number as that of a node. More than four thousand million nodes are want of memory too.
pub(crate) fn node_number(count: usize) -> Result<u32, AllocError>
    ensures { IfOk result (λ number. number ≡ count) }
{
    if count > u32::MAX as usize {
        return Err(AllocError);
    }
    Ok(count as u32)
}
