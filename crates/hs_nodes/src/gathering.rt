//! Where matches of identifiers end in a block, from where the nodes are left.

ghost use Rattle.std.specs.Prelude.{◌≡◌, ℕ, ◌+◌, ◌*◌, ◌<◌, ◌≤◌, ◌^◌, true, false, length, Some, slice_get};
ghost use Rattle.hs_nodes.specs.Left.{nowhere};
ghost use Rattle.hs_bits.specs.Marks.{is_marked, mark_room};
ghost use Rattle.hs_nodes.specs.Walks.{node_ends};
ghost use Rattle.hs_reports.specs.EndTables.{HasNoEnds, is_noted};
ghost use Rattle.hs_reports.specs.Gathering.{AreEndsBelow};
ghost use Rattle.hs_nodes.specs.Graphs.{AreTerminalsSound};
ghost use Rattle.hs_nodes.specs.Gathering.{AddsBusy, AddsTold, AreBusy, AreGathered, GathersNode, terminals_of};

use crate::chunk::{BLOCK_BYTES, MAX_BLOCKS};
use crate::ends::ChunkEnds;
use crate::graph::Graph;
use hs_bits::MarkSet;
use hs_block::BlockEngine;
use hs_reports::{IdentifierEnds, Terminal};

/// Where the nodes are left in a chunk.
#[derive(Clone, Copy, Debug)]
pub struct NodeEnds<'m, 'e, 'a> {
    /// The nodes that may be left somewhere.
    pub marks: &'m MarkSet,
    /// Where each node is left.
    pub ends: &'e [ChunkEnds],
    /// Everywhere: there no pieces are left.
    pub all: &'a ChunkEnds,
    /// For each block a word that is 0 where no node that has a terminal is left anywhere in it.
    pub busy: [u64; MAX_BLOCKS],
    ghost room: { length ends.now ≤ mark_room marks.now },
    ghost known: { (k : ℕ) → is_marked marks.now k ≡ true → k < length ends.now },
    ghost rest: { (k : ℕ) → k < length ends.now → is_marked marks.now k ≡ false → node_ends ends.now k ≡ nowhere },
}

/// Where the node of that number is left.
fn ends_at(ends: &[ChunkEnds], k: usize) -> &ChunkEnds
    requires { k < length ends.now }
    ensures { slice_get ends.now k ≡ Some result.now }
{
    &ends[k]
}

/// The terminals of the node of that number.
pub(crate) fn terminals_of<E: BlockEngine>(graph: &Graph<E>, node: usize) -> &[Terminal]
    requires sound { AreTerminalsSound graph.now }
    requires there { node < length graph.now.table.nodes.items + 1 }
    ensures { result.now ≡ terminals_of graph.now node }
{
    let from = graph.terminal_starts[node] as usize;
    let end = graph.terminal_starts[node + 1] as usize;
    &graph.terminals[from..end]
}

/// Adds the ends of the terminals of one node, in the block at the offset `at`.
fn gather_node<E: BlockEngine>(
    graph: &Graph<E>,
    node: usize,
    at: u64,
    before: u64,
    behind: u64,
    table: &mut IdentifierEnds,
)
    requires sound { AreTerminalsSound graph.now }
    requires there { node < length graph.now.table.nodes.items + 1 }
    requires count { length table.old.words ≡ length graph.now.identifiers.items }
    requires room { at < 2 ^ 63 }
    ensures count { length table.new.words ≡ length table.old.words }
    ensures noted { (p : ℕ) → is_noted table.old p ≡ true → is_noted table.new p ≡ true }
    ensures goes_on { GathersNode graph.now node at before behind table.old table.new }
{
    if before == 0 && behind == 0 {
        return;
    }
    table.add_all(terminals_of(graph, node), at, before, behind);
}

/// Adds the ends that all nodes give in a block of the chunk at the offset `at`. Nodes that aren't marked are left
/// nowhere; `all` is everywhere.
pub fn gather_block<E: BlockEngine>(
    graph: &Graph<E>,
    marks: &MarkSet,
    ends: &[ChunkEnds],
    all: &ChunkEnds,
    block: usize,
    at: u64,
    table: &mut IdentifierEnds,
)
    requires sound { AreTerminalsSound graph.now }
    requires ends { length ends.now ≡ length graph.now.table.nodes.items }
    requires known { (k : ℕ) → is_marked marks.now k ≡ true → k < length graph.now.table.nodes.items }
    requires marks { length graph.now.table.nodes.items ≤ mark_room marks.now }
    requires few { length graph.now.table.nodes.items < 2 ^ 32 }
    requires rest { (k : ℕ) → k < length graph.now.table.nodes.items → is_marked marks.now k ≡ false →
        node_ends ends.now k ≡ nowhere }
    requires block { block < 8 }
    requires count { length table.old.words ≡ length graph.now.identifiers.items }
    requires none { HasNoEnds table.old }
    requires room { at + 64 * block < 2 ^ 63 }
    ensures count { length table.new.words ≡ length table.old.words }
    ensures noted { (p : ℕ) → is_noted table.old p ≡ true → is_noted table.new p ≡ true }
    ensures gathered { AreGathered E.meaning graph.now ends.now all.now at block
        (length graph.now.table.nodes.items + 1) table.new }
{
    let at = at + (BLOCK_BYTES * block) as u64;
    let mut from = 0;
    while let Some(k) = marks.next(from) {
        let own = ends_at(ends, k);
        gather_node(graph, k, at, own.before[block], own.behind[block], table);
        from = k + 1;
    }
    gather_node(
        graph,
        graph.table.nodes.len(),
        at,
        all.before[block],
        all.behind[block],
        table,
    );
}

/// The same, with no look at the nodes in a block in which none is left that has a terminal.
pub fn gather_left<E: BlockEngine>(
    graph: &Graph<E>,
    left: &NodeEnds,
    block: usize,
    at: u64,
    table: &mut IdentifierEnds,
)
    requires sound { AreTerminalsSound graph.now }
    requires ends { length left.now.ends.now ≡ length graph.now.table.nodes.items }
    requires few { length graph.now.table.nodes.items < 2 ^ 32 }
    requires block { block < 8 }
    requires count { length table.old.words ≡ length graph.now.identifiers.items }
    requires none { HasNoEnds table.old }
    requires room { at + 64 * block < 2 ^ 63 }
    requires busy { AreBusy graph.now left.now.ends.now left.now.busy }
    ensures count { length table.new.words ≡ length table.old.words }
    ensures noted { (p : ℕ) → is_noted table.old p ≡ true → is_noted table.new p ≡ true }
    ensures gathered { AreGathered E.meaning graph.now left.now.ends.now left.now.all.now at block
        (length graph.now.table.nodes.items + 1) table.new }
{
    if left.busy[block] != 0 {
        gather_block(graph, left.marks, left.ends, left.all, block, at, table);
        return;
    }
    gather_node(
        graph,
        graph.table.nodes.len(),
        at + (BLOCK_BYTES * block) as u64,
        left.all.before[block],
        left.all.behind[block],
        table,
    );
}

/// Adds the places of a block about which a node is left, for each block.
fn add_busy(busy: &mut [u64; MAX_BLOCKS], own: &ChunkEnds)
    ensures { AddsBusy own.now 8 busy.old busy.new }
{
    for block in 0..MAX_BLOCKS {
        busy[block] |= own.before[block] | own.behind[block];
    }
}

/// The same, if the node of that number has a terminal.
fn add_told<E: BlockEngine>(
    graph: &Graph<E>,
    node: usize,
    busy: &mut [u64; MAX_BLOCKS],
    own: &ChunkEnds,
)
    requires sound { AreTerminalsSound graph.now }
    requires there { node < length graph.now.table.nodes.items }
    ensures { AddsTold graph.now node own.now busy.old busy.new }
{
    if terminals_of(graph, node).is_empty() {
        return;
    }
    add_busy(busy, own);
}

/// For each block of a chunk a word that is 0 where no node that has a terminal is left anywhere in it. Nodes that
/// aren't marked are left nowhere.
pub fn busy_words<E: BlockEngine>(
    graph: &Graph<E>,
    marks: &MarkSet,
    ends: &[ChunkEnds],
) -> [u64; MAX_BLOCKS]
    requires sound { AreTerminalsSound graph.now }
    requires ends { length ends.now ≡ length graph.now.table.nodes.items }
    requires room { length ends.now ≤ mark_room marks.now }
    requires known { (k : ℕ) → is_marked marks.now k ≡ true → k < length ends.now }
    requires rest { (k : ℕ) → k < length ends.now → is_marked marks.now k ≡ false →
        node_ends ends.now k ≡ nowhere }
    ensures { AreBusy graph.now ends.now result }
{
    let mut busy = [0; MAX_BLOCKS];
    let mut from = 0;
    while let Some(k) = marks.next(from) {
        add_told(graph, k, &mut busy, ends_at(ends, k));
        from = k + 1;
    }
    busy
}

/// So many, if that is wanted, or none.
fn count_if(wanted: bool, count: usize) -> usize
    ensures within { result ≤ count }
    ensures whole { wanted ≡ true → result ≡ count }
{
    if wanted { count } else { 0 }
}

/// Adds the ends that all nodes give in the first block of the chunk at the offset `at`, whatever is marked; `all` is
/// everywhere. No node is left anywhere, unless `is_any`.
pub fn gather_all<E: BlockEngine>(
    graph: &Graph<E>,
    ends: &[ChunkEnds],
    is_any: bool,
    all: &ChunkEnds,
    at: u64,
    table: &mut IdentifierEnds,
)
    requires sound { AreTerminalsSound graph.now }
    requires ends { length ends.now ≡ length graph.now.table.nodes.items }
    requires nowhere { is_any ≡ false → (k : ℕ) → node_ends ends.now k ≡ nowhere }
    requires count { length table.old.words ≡ length graph.now.identifiers.items }
    requires none { HasNoEnds table.old }
    requires room { at < 2 ^ 63 }
    ensures count { length table.new.words ≡ length table.old.words }
    ensures noted { (p : ℕ) → is_noted table.old p ≡ true → is_noted table.new p ≡ true }
    ensures gathered { AreGathered E.meaning graph.now ends.now all.now at 0
        (length graph.now.table.nodes.items + 1) table.new }
{
    let nodes = graph.table.nodes.len();
    for k in 0..count_if(is_any, nodes) {
        let own = ends_at(ends, k);
        gather_node(graph, k, at, own.before[0], own.behind[0], table);
    }
    gather_node(graph, nodes, at, all.before[0], all.behind[0], table);
}
