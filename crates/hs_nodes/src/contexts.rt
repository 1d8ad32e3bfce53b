//! The contexts of a chunk, in memory that is there already.

ghost use Rattle.std.specs.Prelude.{◌≡◌, ◌≤◌, ℕ, List, length};
ghost use Rattle.hs_base.specs.declared.context.Prev.{Prev};
ghost use Rattle.hs_nodes.specs.Contexts.{AreChunkContexts, NeedsContexts, asks_contexts};

use crate::chunk::{Chunk, MAX_BLOCKS};
use crate::table::NodeKind;
use hs_base::Prev;
use hs_bits::Contexts;

/// Writes the contexts of the blocks of a chunk.
fn fill_contexts(contexts: &mut [Contexts], chunk: &Chunk)
    requires room { 8 ≤ length contexts.old }
    ensures len { length contexts.new ≡ length contexts.old }
    ensures are { AreChunkContexts contexts.new chunk.now.prev chunk.now.at chunk.now.bytes.now }
{
    for j in 0..chunk.blocks() {
        contexts[j] = Contexts::new(chunk.prev_before(j), chunk.block(j));
    }
}

/// Whether a node of that kind asks for contexts.
fn asks_contexts(kind: NodeKind) -> bool
    ensures { result ≡ asks_contexts kind }
{
    match kind {
        NodeKind::Engine(_, null) => null.is_some(),
        NodeKind::Literal(_, _) => false,
        NodeKind::FirstLiteral(_, _) => false,
        NodeKind::LookBack(_) => false,
    }
}

/// The contexts of the blocks of a chunk, made when the first node asks for them.
#[derive(Clone, Copy, Debug)]
pub(crate) struct ChunkContexts {
    /// Those of each block, if they are made.
    pub blocks: [Contexts; MAX_BLOCKS],
    /// Whether they are.
    are_made: bool,
}

impl ChunkContexts {
    ghost use Rattle.hs_nodes.specs.Contexts.{AreRightIfMade};

    /// Not made yet.
    #[inline(always)]
    pub fn unmade() -> ChunkContexts
        ensures { (prev : Prev) (at : ℕ) (bytes : List ℕ) → AreRightIfMade result prev at bytes }
    {
        ChunkContexts {
            blocks: [Contexts::new(Prev::Start, &[]); MAX_BLOCKS],
            are_made: false,
        }
    }

    /// Makes those of the chunk, if they aren't made already and a node of that kind asks for them.
    pub fn make_for(&mut self, kind: NodeKind, chunk: &Chunk)
        requires right { AreRightIfMade self.old chunk.now.prev chunk.now.at chunk.now.bytes.now }
        ensures right { AreRightIfMade self.new chunk.now.prev chunk.now.at chunk.now.bytes.now }
        ensures asked { NeedsContexts kind →
            AreChunkContexts self.new.blocks chunk.now.prev chunk.now.at chunk.now.bytes.now }
    {
        if !self.are_made && asks_contexts(kind) {
            fill_contexts(&mut self.blocks, chunk);
            self.are_made = true;
        }
    }
}
