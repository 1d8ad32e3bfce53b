//! Building a forest, chain by chain.

ghost use Rattle.std.specs.Prelude.{◌≡◌, ℕ, ◌∷◌, ◌++◌, [], List, IfOk};
ghost use Rattle.hs_forest.specs.Growing.{IsBuilt};

use crate::growing::Growing;
use std::alloc::{AllocError, Global};

/// What is built of a forest so far. Its chains are needed no more once they are added.
#[derive(Debug, Drop)]
pub struct Builder {
    pub(crate) growing: Growing,
    /// The node of each key of each chain, in order.
    pub(crate) nodes: Vec<u32>,
    /// The last node of each chain.
    pub(crate) last_nodes: Vec<Option<u32>>,
}

impl Builder {
    /// No chain.
    pub fn new(alloc: Global) -> Builder
        ensures { IsBuilt result [] }
    {
        Builder {
            growing: Growing::new(alloc),
            nodes: Vec::new(alloc),
            last_nodes: Vec::new(alloc),
        }
    }

    /// Puts a chain behind the others. This takes time by the logarithm of the count of nodes for each of its keys. The
    /// only error is want of memory.
    pub fn add_chain(&mut self, chain: &[usize]) -> Result<(), AllocError>
        ensures { IfOk result (λ done. (chains : List (List ℕ)) → IsBuilt self.old chains →
            IsBuilt self.new (chains ++ chain.now ∷ [])) }
    {
        let mut last = None;
        for key in chain {
            let node = self.growing.child(last, *key)?;
            self.nodes.push(node)?;
            last = Some(node);
        }
        self.last_nodes.push(last)?;
        Ok(())
    }
}
