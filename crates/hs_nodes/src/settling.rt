//! Nodes in which nothing is live: their marks are taken away behind a chunk.

ghost use Rattle.std.specs.Prelude.{◌≡◌, ◌↔◌, ℕ, ◌<◌, ◌≤◌, true, false, length, IsTrue, Some, slice_get};
ghost use Rattle.hs_nodes.specs.Left.{nowhere};
ghost use Rattle.hs_bits.specs.Marks.{is_marked, mark_room};
ghost use Rattle.hs_nodes.specs.Resting.{AreEnginesIdle, AreNodesResting, IsSettled, IsUnset};
ghost use Rattle.hs_nodes.specs.Walks.{IsTableSound, node_ends, node_part};
ghost use Rattle.hs_nodes.specs.declared.table.Node.{Node};

use crate::ends::ChunkEnds;
use crate::table::{NodeKind, NodeTable};
use crate::walking::node_at;
use hs_bits::{MarkSet, is_zero};
use hs_engine::Engine;

/// Whether nothing is live in what is kept of a node of that kind.
fn kind_rests(kind: NodeKind, part: &[u8]) -> bool
    ensures { IsTrue result ↔ IsUnset kind part.now }
{
    match kind {
        NodeKind::Engine(_, _) => is_zero(part),
        NodeKind::Literal(_, _) => is_zero(part),
        NodeKind::FirstLiteral(_, _) => true,
        NodeKind::LookBack(_) => true,
    }
}

/// Whether nothing is live in the node of that number.
fn node_rests<E: Engine>(table: &NodeTable<E>, k: usize, region: &[u8]) -> bool
    requires sound { (literals : ℕ) × IsTableSound E.meaning table.now literals (length region.now) }
    requires there { k < length table.now.nodes.items }
    ensures { (node : Node) → slice_get table.now.nodes.items k ≡ Some node →
        IsTrue result ↔ IsUnset node.kind (node_part region.now node) }
{
    let node = node_at(table, k);
    kind_rests(node.kind, &region[node.start as usize..node.end as usize])
}

/// Behind a chunk takes the marks of the nodes away in which nothing is live, so that the next one goes over those
/// alone that need it; and unsets where nodes are left.
pub fn settle<E: Engine>(
    table: &NodeTable<E>,
    region: &[u8],
    ends: &mut [ChunkEnds],
    marks: &mut MarkSet,
)
    requires sound { (literals : ℕ) × IsTableSound E.meaning table.now literals (length region.now) }
    requires idle { AreEnginesIdle E.meaning table.now.engines.items }
    requires ends { length ends.old ≡ length table.now.nodes.items }
    requires marked { (k : ℕ) → is_marked marks.old k ≡ true → k < length table.now.nodes.items }
    requires room { length table.now.nodes.items ≤ mark_room marks.old }
    requires nowhere { (k : ℕ) → k < length table.now.nodes.items → is_marked marks.old k ≡ false →
        node_ends ends.old k ≡ nowhere }
    requires resting { AreNodesResting E.meaning table.now marks.old region.now }
    ensures ends { length ends.new ≡ length ends.old }
    ensures settled { IsSettled E.meaning table.now region.now marks.old marks.new ends.new }
{
    let mut from = 0;
    while let Some(k) = marks.next(from) {
        ends[k] = ChunkEnds::NOWHERE;
        if node_rests(table, k, region) {
            marks.write(k, false);
        }
        from = k + 1;
    }
}
