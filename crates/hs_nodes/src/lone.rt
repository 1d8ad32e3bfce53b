//! Nodes that one single identifier has for itself: once a pair of it is told, where they are left plays no part.

ghost use Rattle.std.specs.Prelude.{◌≡◌, ◌<◌, ◌≤◌, ◌^◌, ℕ, IfOk, IfSome, true, None, Some, length, slice_get};
ghost use Rattle.hs_bits.specs.Marks.{mark_room};
ghost use Rattle.hs_nodes.specs.Graphs.{AreTerminalsSound};
ghost use Rattle.hs_nodes.specs.Lone.{AreLiving, AreLoneNodes, AreParents, IsClearBehindOthers, IsLoneNode};
ghost use Rattle.hs_nodes.specs.Lone.{IsOfOneIdentifier, is_spent_node};
ghost use Rattle.hs_nodes.specs.Walks.{IsTableSound};
ghost use Rattle.hs_nodes.specs.declared.table.Node.{Node};

use crate::chunk::{BLOCK_BYTES, Chunk};
use crate::gathering::terminals_of;
use crate::graph::Graph;
use crate::table::{Node, NodeKind, NodeTable};
use crate::walking::node_at;
use hs_base::ByteSet;
use hs_bits::{MarkSet, WORD_BITS, contains_word_bit, low_places, member_places};
use hs_block::BlockEngine;
use hs_engine::Engine;
use std::alloc::{AllocError, Global};

/// Nodes of engines without a parent and without children, at each of which matches of one identifier end, which is
/// single.
#[derive(Debug, Drop)]
pub struct LoneNodes {
    /// The number of the identifier of each node of the graph, if it is such a node; no list where none is.
    identifiers: Vec<Option<u32>>,
    /// By engine, the bytes behind which something of it may be live.
    living: Vec<ByteSet>,
}

impl LoneNodes {
    /// Those of a graph, of whose engines `living` has the bytes behind which something may be live. The only error is
    /// want of memory.
    pub fn of_graph<E: BlockEngine>(
        alloc: Global,
        graph: &Graph<E>,
        living: Vec<ByteSet>,
    ) -> Result<LoneNodes, AllocError>
        requires sound { (literals size : ℕ) × IsTableSound E.meaning graph.now.table literals size }
        requires few { length graph.now.table.nodes.items < 2 ^ 32 }
        requires terminals { AreTerminalsSound graph.now }
        requires living { AreLiving E.meaning graph.now.table.engines.items living.items }
        ensures { IfOk result (AreLoneNodes E.meaning graph.now) }
    {
        let parents = parents_of(alloc, &graph.table.nodes)?;
        let mut identifiers = Vec::new(alloc);
        for k in 0..graph.table.nodes.len() {
            identifiers.push(lone_identifier(graph, k, &parents))?;
        }
        Ok(LoneNodes {
            identifiers: if_any(alloc, identifiers),
            living,
        })
    }

    /// Whether there is none.
    pub fn is_empty(&self) -> bool
        ensures { (k : ℕ) → result ≡ true → slice_get self.now.identifiers.items k ≡ None }
    {
        self.identifiers.is_empty()
    }

    /// Whether behind one of the last bytes nothing is live in a node of that kind.
    fn is_soon_clear(&self, kind: NodeKind, bytes: &[u8]) -> bool {
        let NodeKind::Engine(number, _) = kind else {
            return false;
        };
        match self.living.get(number as usize) {
            Some(living) => has_late_other(bytes, living),
            None => false,
        }
    }

    /// The bytes behind which something of the engine of that number may be live.
    pub(crate) fn living<E: Engine>(&self, engines: &[E], number: usize) -> ByteSet
        requires { AreLiving E.meaning engines.now self.now.living.items }
        ensures { (e : E) → slice_get engines.now number ≡ Some e → IsClearBehindOthers (E.meaning e) result }
    {
        let _ = engines.len();
        match self.living.get(number) {
            Some(set) => *set,
            None => ByteSet::ALL,
        }
    }
}

/// The identifiers, or no list at all where there is none.
fn if_any(alloc: Global, identifiers: Vec<Option<u32>>) -> Vec<Option<u32>>
    ensures { (k p : ℕ) → slice_get result.items k ≡ Some (Some p) → slice_get identifiers.items k ≡ Some (Some p) }
{
    for k in 0..identifiers.len() {
        if identifiers[k].is_some() {
            return identifiers;
        }
    }
    Vec::new(alloc)
}

/// Whether one of the last bytes, of up to 64 of them, isn't a member of the set.
#[inline]
fn has_late_other(bytes: &[u8], set: &ByteSet) -> bool {
    if let Some(last) = bytes.last() {
        if !set.contains(*last) {
            return true;
        }
    }
    let from = bytes.len().saturating_sub(BLOCK_BYTES);
    let last = &bytes[from..];
    member_places(set, last) != low_places(last.len())
}

/// The nodes that another one has for its parent.
fn parents_of(alloc: Global, nodes: &[Node]) -> Result<MarkSet, AllocError>
    requires few { length nodes.now < 2 ^ 32 }
    requires earlier { (k p : ℕ) (node : Node) → slice_get nodes.now k ≡ Some node → node.parent ≡ Some p → p < k }
    ensures room { IfOk result (λ marks. length nodes.now ≤ mark_room marks) }
    ensures parents { IfOk result (AreParents nodes.now) }
{
    let mut parents = MarkSet::new(alloc, nodes.len())?;
    for i in 0..nodes.len() {
        if let Some(parent) = nodes[i].parent {
            parents.write(parent as usize, true);
        }
    }
    Ok(parents)
}

/// The identifier that has the node of that number for itself, if it is a lone one; the others' parents are marked.
fn lone_identifier<E: BlockEngine>(graph: &Graph<E>, k: usize, parents: &MarkSet) -> Option<u32>
    requires there { k < length graph.now.table.nodes.items }
    requires room { length graph.now.table.nodes.items ≤ mark_room parents.now }
    requires parents { AreParents graph.now.table.nodes.items parents.now }
    requires terminals { AreTerminalsSound graph.now }
    ensures lone { IfSome result (λ p. IsLoneNode graph.now.table k) }
    ensures owned { IfSome result (IsOfOneIdentifier graph.now k) }
{
    let node = &graph.table.nodes[k];
    if node.parent.is_some() || parents.contains(k) {
        return None;
    }
    match node.kind {
        NodeKind::Engine(_, _) => only_identifier(graph, k),
        NodeKind::Literal(_, _) | NodeKind::FirstLiteral(_, _) | NodeKind::LookBack(_) => None,
    }
}

/// The identifier of which matches end at the node of that number, if it is the only one, single, and has one terminal
/// there.
fn only_identifier<E: BlockEngine>(graph: &Graph<E>, k: usize) -> Option<u32>
    requires there { k < length graph.now.table.nodes.items }
    requires terminals { AreTerminalsSound graph.now }
    ensures { IfSome result (IsOfOneIdentifier graph.now k) }
{
    let own = terminals_of(graph, k);
    if own.len() != 1 {
        return None;
    }
    let identifier = own[0].identifier;
    if graph.identifiers[identifier as usize].single {
        Some(identifier)
    } else {
        None
    }
}

/// The lone nodes, and of which identifiers a pair is told before a chunk: the nodes of these are spent in it.
#[derive(Clone, Copy, Debug)]
pub struct Spent<'l, 't, 'c, 'b, 'p> {
    /// The lone nodes.
    pub lone: &'l LoneNodes,
    /// A bit for each identifier, by its number: it is single, and a pair of it is told.
    pub told: &'t [u64],
    /// The chunk.
    pub chunk: &'c Chunk<'b, 'p>,
}

impl Spent<'_, '_, '_, '_, '_> {
    /// Whether the node of that number is a lone one of whose identifier a pair is told.
    #[inline(always)]
    pub(crate) fn contains(&self, k: usize) -> bool
        ensures { result ≡ is_spent_node self.now.lone.now self.now.told.now k }
    {
        let Some(Some(identifier)) = self.lone.identifiers.get(k) else {
            return false;
        };
        let place = *identifier as usize;
        place / WORD_BITS < self.told.len() && contains_word_bit(self.told, place)
    }

    /// Whether the node of that number is spent, and it is worth while to catch up with the chunk at its end: behind
    /// one of the last bytes nothing of it is live.
    #[inline(always)]
    pub(crate) fn is_left<E>(&self, table: &NodeTable<E>, k: usize) -> bool
        requires { k < length table.now.nodes.items }
        ensures { result ≡ true → is_spent_node self.now.lone.now self.now.told.now k ≡ true }
    {
        !self.told.is_empty() && self.is_soon_clear(table, k)
    }

    /// The same where a pair of some identifier may be told.
    #[inline(never)]
    fn is_soon_clear<E>(&self, table: &NodeTable<E>, k: usize) -> bool
        requires { k < length table.now.nodes.items }
        ensures { result ≡ true → is_spent_node self.now.lone.now self.now.told.now k ≡ true }
    {
        let kind = node_at(table, k).kind;
        self.contains(k) && self.lone.is_soon_clear(kind, self.chunk.bytes)
    }
}
