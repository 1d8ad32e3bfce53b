//! Where nodes are left behind all bytes so far, if that comes next.

ghost use Rattle.std.specs.Prelude.{◌≡◌, ◌↔◌, ◌+◌, ◌*◌, ◌<◌, ◌≤◌, ◌^◌, ℕ, List, [], Some, false, length, true};
ghost use Rattle.std.specs.Prelude.{slice_get};
ghost use Rattle.hs_nodes.specs.LookBacks.{TellsPair};
ghost use Rattle.hs_nodes.specs.Edges.{HasEdges};
ghost use Rattle.hs_nodes.specs.Nodes.{IsKindSound, IsWellPart, window_room};
ghost use Rattle.hs_nodes.specs.Left.{nowhere};
ghost use Rattle.hs_nodes.specs.Walks.{AreNodesWell, IsTableSound, node_ends, node_part};
ghost use Rattle.hs_nodes.specs.Leaving.{LeavesEngine, LeavesFirst, LeavesLiteral, LeavesNodes, LeavesPiece};
ghost use Rattle.hs_nodes.specs.Leaving.{is_entered, is_left};
ghost use Rattle.hs_nodes.specs.declared.table.Node.{Node};

use crate::chunk::Chunk;
use crate::ends::ChunkEnds;
use crate::hits::ChunkHits;
use crate::look_back::leaves_at_start;
use crate::nulls::is_empty_between;
use crate::table::{LookBackPair, MAX_LOOK_BACK_REGION, NodeKind, NodeTable};
use crate::walking::node_at;
use hs_base::{Mask, Next, Prev};
use hs_bits::contains_bit;
use hs_block::BlockEngine;
use hs_engine::{Engine, Steps};
use std::sync::ledger::Ledger;

/// Where a stream stands that is asked which pieces are left.
#[derive(Clone, Copy)]
pub struct Stop<'h, 'p> {
    /// The last 64 bytes that have come; zeros where fewer have.
    pub past: &'p [u8],
    /// What stands before.
    pub prev: Prev,
    /// How many bytes have come.
    pub at: u64,
    /// What comes next.
    pub next: Next,
    /// Where each literal ends in the chunk that begins there.
    pub hits: &'h [ChunkHits],
    ghost whole: { length past.now ≡ 64 },
    ghost room: { at < 2 ^ 63 },
}

/// Whether an engine and the pieces before it are left, if those are or not.
fn leaves_engine<E: Engine>(
    engine: &E,
    null: Option<Mask>,
    part: &[u8],
    stop: &Stop,
    entered: bool,
) -> bool
    requires len { length part.now ≡ (E.meaning engine.now).width }
    requires well { (E.meaning engine.now).well part.now stop.now.at }
    ensures { LeavesEngine (E.meaning engine.now) null part.now stop.now.prev stop.now.at stop.now.next entered
        result }
{
    let out = engine.out(part, stop.prev, stop.at);
    out.contains(stop.next) | (entered & is_empty_between(null, stop.prev, stop.next))
}

/// Whether a literal of so many bytes and the pieces before it are left.
fn leaves_literal(len: usize, part: &[u8], hits: &ChunkHits) -> bool
    requires some { 1 ≤ len }
    requires short { len ≤ 32 }
    requires size { length part.now ≡ 4 }
    ensures { LeavesLiteral len part.now hits.now result }
{
    hits.at_start & contains_bit(part, len - 1)
}

/// Whether a literal that is a first piece is left.
fn leaves_first(len: usize, hits: &ChunkHits) -> bool
    requires some { 1 ≤ len }
    ensures { LeavesFirst len hits.now result }
{
    let _ = len;
    hits.at_start
}

/// Whether both pieces of a pair are left, where its literal ends there or not, as the hits tell.
fn leaves_look_back<E: BlockEngine, L: Ledger>(
    engine: &E,
    pair: &LookBackPair,
    stop: &Stop,
    hits: &ChunkHits,
    steps: &mut Steps<L>,
) -> bool
    requires room { (E.meaning engine.now).width ≤ window_room }
    requires listed { (E.meaning engine.now).always ≡ false }
    requires edges { HasEdges (E.meaning engine.now) pair.now.behind pair.now.last }
    requires some { 1 ≤ pair.now.len }
    requires short { pair.now.len ≤ 32 }
    ensures ticks { steps.new ≤ steps.old + 16 }
    ensures tells { TellsPair (E.meaning engine.now) pair.now.null pair.now.len stop.now.at stop.now.past.now []
        hits.now 0 result }
{
    let chunk = Chunk {
        bytes: &[],
        past: stop.past,
        prev: stop.prev,
        at: stop.at,
    };
    let mut window = [0u8; MAX_LOOK_BACK_REGION];
    leaves_at_start(engine, pair, &chunk, hits, &mut window, steps)
}

/// Whether a node of that kind and the pieces before it are left, if those are or not.
fn leaves_kind<E: BlockEngine, L: Ledger>(
    kind: NodeKind,
    engines: &[E],
    part: &[u8],
    stop: &Stop,
    entered: bool,
    steps: &mut Steps<L>,
) -> bool
    requires sound { IsKindSound E.meaning engines.now (length stop.now.hits.now) kind (length part.now) }
    requires well { IsWellPart E.meaning engines.now kind part.now stop.now.at }
    ensures ticks { steps.new ≤ steps.old + 16 }
    ensures left { LeavesPiece E.meaning engines.now kind part.now stop.now.prev stop.now.at stop.now.past.now
        stop.now.next stop.now.hits.now entered result }
{
    match kind {
        NodeKind::Engine(number, null) => {
            leaves_engine(&engines[number as usize], null, part, stop, entered)
        }
        NodeKind::Literal(number, len) => {
            leaves_literal(len as usize, part, &stop.hits[number as usize])
        }
        NodeKind::FirstLiteral(number, len) => {
            leaves_first(len as usize, &stop.hits[number as usize])
        }
        NodeKind::LookBack(pair) => leaves_look_back(
            &engines[pair.engine as usize],
            &pair,
            stop,
            &stop.hits[pair.literal as usize],
            steps,
        ),
    }
}

/// Ends in a block of one byte, before which pieces are left or not.
pub fn ends_if(left: bool) -> ChunkEnds
    ensures { is_left result ≡ left }
{
    let mut ends = ChunkEnds::NOWHERE;
    ends.before[0] = left as u64;
    ends
}

/// Whether the pieces before those of a node with that parent are left.
fn is_entered(parent: Option<u32>, ends: &[ChunkEnds]) -> bool
    requires { (p : ℕ) → parent ≡ Some p → p < length ends.now }
    ensures { result ≡ is_entered ends.now parent }
{
    match parent {
        None => true,
        Some(p) => ends[p as usize].before[0] & 1 == 1,
    }
}

/// Whether the pieces of the node of that number are left, where the ends tell it of the nodes before.
fn leaves_node<E: BlockEngine, L: Ledger>(
    table: &NodeTable<E>,
    region: &[u8],
    stop: &Stop,
    ends: &[ChunkEnds],
    k: usize,
    steps: &mut Steps<L>,
) -> bool
    requires sound { IsTableSound E.meaning table.now (length stop.now.hits.now) (length region.now) }
    requires well { AreNodesWell E.meaning table.now region.now stop.now.at }
    requires count { length ends.now ≡ length table.now.nodes.items }
    requires there { k < length table.now.nodes.items }
    ensures ticks { steps.new ≤ steps.old + 16 }
    ensures left { (node : Node) → slice_get table.now.nodes.items k ≡ Some node →
        LeavesPiece E.meaning table.now.engines.items node.kind (node_part region.now node) stop.now.prev stop.now.at
        stop.now.past.now stop.now.next stop.now.hits.now (is_entered ends.now node.parent) result }
{
    let node = node_at(table, k);
    leaves_kind(
        node.kind,
        &table.engines,
        &region[node.start as usize..node.end as usize],
        stop,
        is_entered(node.parent, ends),
        steps,
    )
}

/// Writes into the ends of a node, which are nowhere, that its pieces are left, if they are.
fn leave_if(ends: &mut [ChunkEnds], k: usize, left: bool)
    requires there { k < length ends.old }
    requires clear { node_ends ends.old k ≡ nowhere }
    ensures count { length ends.new ≡ length ends.old }
    ensures own { is_left (node_ends ends.new k) ≡ left }
    ensures others { (j : ℕ) → (j ≡ k → ⊥) → node_ends ends.new j ≡ node_ends ends.old j }
    ensures none { left ≡ false → ends.new ≡ ends.old }
{
    if left {
        ends[k] = ends_if(true);
    }
}

/// Writes into the ends of each node, which are nowhere, whether its pieces are left there. Answers whether those of
/// any node are.
pub fn leave_nodes<E: BlockEngine, L: Ledger>(
    table: &NodeTable<E>,
    region: &[u8],
    stop: &Stop,
    ends: &mut [ChunkEnds],
    steps: &mut Steps<L>,
) -> bool
    requires sound { IsTableSound E.meaning table.now (length stop.now.hits.now) (length region.now) }
    requires well { AreNodesWell E.meaning table.now region.now stop.now.at }
    requires count { length ends.old ≡ length table.now.nodes.items }
    requires clear { (k : ℕ) → node_ends ends.old k ≡ nowhere }
    ensures count { length ends.new ≡ length ends.old }
    ensures ticks { steps.new ≤ steps.old + 16 * length table.now.nodes.items }
    ensures left { LeavesNodes E.meaning table.now region.now stop.now.prev stop.now.at stop.now.past.now stop.now.next
        stop.now.hits.now ends.new (length table.now.nodes.items) }
    ensures none { result ≡ false → (k : ℕ) → node_ends ends.new k ≡ nowhere }
{
    let mut is_any = false;
    for k in 0..table.nodes.len() {
        let left = leaves_node(table, region, stop, ends, k, steps);
        leave_if(ends, k, left);
        is_any |= left;
    }
    is_any
}
