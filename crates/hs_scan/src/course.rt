//! What goes from chunk to chunk.

ghost use Rattle.std.specs.Prelude.{◌<◌, ◌^◌, IfOk};

use hs_bits::MarkSet;
use hs_keeping::Known;
use std::alloc::{AllocError, Global};

/// What goes from chunk to chunk beside the region.
#[derive(Drop)]
pub(crate) struct Course {
    /// The nodes that are run over the next chunk, and those in which something may be live.
    pub marks: MarkSet,
    /// What is known of the identifiers.
    pub known: Known,
}

impl Course {
    ghost use Rattle.hs_scan.specs.Scratches.{IsFresh};

    /// None of so many nodes is marked, and nothing is known of so many identifiers. The only error is want of memory.
    pub fn new(alloc: Global, nodes: usize, identifiers: usize) -> Result<Course, AllocError>
        requires nodes { nodes < 2 ^ 32 }
        requires identifiers { identifiers < 2 ^ 32 }
        ensures { IfOk result (IsFresh nodes identifiers) }
    {
        Ok(Course {
            marks: MarkSet::new(alloc, nodes)?,
            known: Known::new(alloc, identifiers)?,
        })
    }
}
