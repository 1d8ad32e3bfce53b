//! One node over a chunk.

ghost use Rattle.std.specs.Prelude.{◌≡◌, ℕ, ◌+◌, ◌≤◌, None, Some, length};
ghost use Rattle.hs_lazy.specs.Caches.{Told, told};
ghost use Rattle.hs_nodes.specs.Cached.{IsToldKind};
ghost use Rattle.hs_nodes.specs.Contexts.{AreChunkContexts, NeedsContexts};
ghost use Rattle.hs_nodes.specs.Nodes.{IsKindSound, IsWellPart, TakesPiece, most_ticks};
ghost use Rattle.hs_nodes.specs.Pooled.{ArePooled};
ghost use Rattle.hs_nodes.specs.Resting.{AreEnginesIdle};
ghost use Rattle.hs_nodes.specs.Starting.{DoStartsSuffice, IsEnteredThroughout};

use crate::chunk::Chunk;
use crate::ends::ChunkEnds;
use crate::engines::{Entry, Numbered, run_engine};
use crate::foretold::Foretold;
use crate::literals::run_literal_part;
use crate::look_back::{ends_of, run_pair};
use crate::nulls::null_ends;
use crate::table::NodeKind;
use hs_bits::Contexts;
use hs_block::BlockEngine;
use hs_engine::{Steps, TimelessEngine};
use hs_pool::StatePool;
use std::sync::ledger::Ledger;

/// What nodes ask in a chunk beside its bytes.
#[derive(Clone, Copy, Debug)]
pub(crate) struct Found<'c, 'f, 'a> {
    /// The contexts of its blocks, if a node has a mask.
    pub contexts: &'c [Contexts],
    /// What is known of it before.
    pub foretold: &'f Foretold<'f, 'f, 'f, 'f, 'f, 'f, 'f, 'f>,
    /// Everywhere: where no pieces are left.
    pub all: &'a ChunkEnds,
}

/// Takes a chunk by a node of that kind. If it has no parent, the cache tells what it does, or it needs to be entered
/// where its matches may begin. Answers where the pieces up to the node are left.
pub(crate) fn run_kind<E: BlockEngine + TimelessEngine, L: Ledger>(
    kind: NodeKind,
    engines: &[E],
    part: &mut [u8],
    chunk: &Chunk,
    found: &Found,
    entry: &Entry,
    pool: &mut Option<StatePool>,
    steps: &mut Steps<L>,
) -> ChunkEnds
    requires sound { IsKindSound E.meaning engines.now (length found.now.foretold.now.hits.now) kind (length part.old) }
    requires well { IsWellPart E.meaning engines.now kind part.old chunk.now.at }
    requires contexts { NeedsContexts kind →
        AreChunkContexts found.now.contexts.now chunk.now.prev chunk.now.at chunk.now.bytes.now }
    requires idle { AreEnginesIdle E.meaning engines.now }
    requires pool { ArePooled E.meaning engines.now pool.old }
    requires told { (k : ℕ) (t : Told) → entry.now.first ≡ Some k → told found.now.foretold.now.cache.now k ≡ Some t →
        IsToldKind E.meaning engines.now kind part.old chunk.now.prev chunk.now.bytes.now t }
    requires starts { (k : ℕ) → entry.now.first ≡ Some k → told found.now.foretold.now.cache.now k ≡ None →
        DoStartsSuffice E.meaning engines.now kind found.now.foretold.now.starts.now k chunk.now.prev
        chunk.now.bytes.now }
    requires entered { (k : ℕ) → entry.now.first ≡ Some k →
        IsEnteredThroughout entry.now.enters.now chunk.now.bytes.now }
    ensures len { length part.new ≡ length part.old }
    ensures well { IsWellPart E.meaning engines.now kind part.new (chunk.now.at + length chunk.now.bytes.now) }
    ensures pool { ArePooled E.meaning engines.now pool.new }
    ensures ticks { steps.new ≤
        steps.old + most_ticks kind found.now.foretold.now.hits.now (length chunk.now.bytes.now) }
    ensures takes { TakesPiece E.meaning engines.now kind part.old part.new chunk.now.prev chunk.now.at
        chunk.now.past.now chunk.now.bytes.now found.now.foretold.now.hits.now entry.now.enters.now result }
{
    let hits = found.foretold.hits;
    let enters = entry.enters;
    match kind {
        NodeKind::Engine(number, null) => run_engine(
            &Numbered {
                engine: &engines[number as usize],
                number: number as usize,
            },
            part,
            chunk,
            entry,
            &null_ends(null, chunk, found.contexts, enters),
            found.foretold,
            pool,
            steps,
        ),
        NodeKind::Literal(number, len) => {
            run_literal_part(len as usize, part, chunk, &hits[number as usize], enters)
        }
        NodeKind::FirstLiteral(number, _) => ends_of(chunk, &hits[number as usize]),
        NodeKind::LookBack(pair) => run_pair(
            &engines[pair.engine as usize],
            &pair,
            chunk,
            &hits[pair.literal as usize],
            steps,
        ),
    }
}
