//! Where the piece of a node has the empty span in a chunk.

ghost use Rattle.std.specs.Prelude.{◌≡◌, ◌↔◌, ℕ, ◌*◌, ◌<◌, ◌≤◌, List, IfOk, Some, length, true};
ghost use Rattle.std.specs.Option.{ForSome};
ghost use Rattle.hs_base.specs.declared.context.Next.{Next};
ghost use Rattle.hs_base.specs.Contexts.{prev_at};
ghost use Rattle.hs_base.specs.Leaving.{IsEmptyAt};
ghost use Rattle.hs_base.specs.Trees.{Tree};
ghost use Rattle.hs_nodes.specs.Blocks.{EndsBehind, block, front};
ghost use Rattle.hs_nodes.specs.Contexts.{AreChunkContexts, IsNull};
ghost use Rattle.hs_nodes.specs.Pieces.{AreEmptyAt, AreEmptyIn};

use crate::chunk::Chunk;
use crate::ends::ChunkEnds;
use hs_base::{Assertion, Mask, Next, Prev};
use hs_bits::Contexts;
use hs_engine::BlockEnds;
use std::alloc::{AllocError, Global};

/// The contexts of the blocks of a chunk.
pub fn chunk_contexts(alloc: Global, chunk: &Chunk) -> Result<Vec<Contexts>, AllocError>
    ensures { IfOk result (λ contexts.
        AreChunkContexts contexts.items chunk.now.prev chunk.now.at chunk.now.bytes.now) }
{
    let mut contexts = Vec::with_capacity(alloc, chunk.blocks())?;
    for j in 0..chunk.blocks() {
        contexts.push(Contexts::new(chunk.prev_before(j), chunk.block(j)))?;
    }
    Ok(contexts)
}

/// Whether an expression has the empty span nowhere but where the stream begins.
pub(crate) fn is_empty_at_start(null: Option<Mask>) -> bool
    ensures { (tree : Tree) (u : List ℕ) (next : Next) → IsNull null tree → result ≡ true → 1 ≤ length u →
        IsEmptyAt tree u next → ⊥ }
{
    match null {
        None => true,
        Some(mask) => mask.intersection(Mask::of(Assertion::StreamStart)) == mask,
    }
}

/// Whether an expression has the empty span where that stands before and that comes next.
pub(crate) fn is_empty_between(null: Option<Mask>, prev: Prev, next: Next) -> bool
    ensures { (tree : Tree) (u : List ℕ) → IsNull null tree → prev ≡ prev_at u (length u) →
        (result ≡ true) ↔ IsEmptyAt tree u next }
{
    match null {
        None => false,
        Some(mask) => mask.contains(prev, next),
    }
}

/// Where an expression has the empty span in a chunk, as far as the pieces before it are left there: nowhere, or in the
/// contexts of the mask.
pub(crate) fn null_ends(
    null: Option<Mask>,
    chunk: &Chunk,
    contexts: &[Contexts],
    enters: &ChunkEnds,
) -> ChunkEnds
    requires { ForSome null (λ mask. AreChunkContexts contexts.now chunk.now.prev chunk.now.at chunk.now.bytes.now) }
    ensures { (tree : Tree) (u : List ℕ) → IsNull null tree → EndsBehind u chunk.now.prev chunk.now.at →
        AreEmptyIn tree u chunk.now.bytes.now enters.now result }
{
    if chunk.at > 0 && is_empty_at_start(null) {
        return ChunkEnds::NOWHERE;
    }
    match null {
        None => ChunkEnds::NOWHERE,
        Some(mask) => mask_ends(mask, chunk, contexts, enters),
    }
}

/// Where a block of a chunk has the contexts of the mask; where no place of it is asked, nowhere.
fn mask_words(
    mask: Mask,
    chunk: &Chunk,
    contexts: &[Contexts],
    number: usize,
    asked: u64,
    asked_behind: u64,
) -> BlockEnds
    requires there { 64 * number < length chunk.now.bytes.now }
    requires contexts { AreChunkContexts contexts.now chunk.now.prev chunk.now.at chunk.now.bytes.now }
    ensures { (tree : Tree) (u : List ℕ) → IsNull (Some mask) tree → EndsBehind u chunk.now.prev chunk.now.at →
        AreEmptyAt tree (front u chunk.now.bytes.now number) (block chunk.now.bytes.now number) asked asked_behind
        result.before result.behind }
{
    let _ = chunk.at;
    if asked == 0 && asked_behind == 0 {
        return BlockEnds {
            before: 0,
            behind: 0,
        };
    }
    BlockEnds {
        before: contexts[number].before(mask),
        behind: contexts[number].behind(mask),
    }
}

/// Where a chunk has the contexts of the mask, in those of its blocks in which a place is asked.
fn mask_ends(mask: Mask, chunk: &Chunk, contexts: &[Contexts], enters: &ChunkEnds) -> ChunkEnds
    requires { AreChunkContexts contexts.now chunk.now.prev chunk.now.at chunk.now.bytes.now }
    ensures { (tree : Tree) (u : List ℕ) → IsNull (Some mask) tree → EndsBehind u chunk.now.prev chunk.now.at →
        AreEmptyIn tree u chunk.now.bytes.now enters.now result }
{
    let mut ends = ChunkEnds::NOWHERE;
    for j in 0..chunk.blocks() {
        let own = mask_words(mask, chunk, contexts, j, enters.before[j], enters.behind[j]);
        ends.before[j] = own.before;
        ends.behind[j] = own.behind;
    }
    ends
}
