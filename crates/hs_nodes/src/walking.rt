//! A walk over the nodes of a table, over a chunk.

ghost use Rattle.std.specs.Prelude.{◌≡◌, ℕ, ◌+◌, ◌-◌, ◌*◌, ◌<◌, ◌≤◌, ◌⊎◌, true, false, List, [], length, slice_get};
ghost use Rattle.std.specs.Prelude.{slice_index};
ghost use Rattle.std.specs.Prelude.{EachIndex, None, Some};
ghost use Rattle.hs_lazy.specs.Caches.{Told, told};
ghost use Rattle.hs_nodes.specs.Cached.{IsToldKind, TellsNodes};
ghost use Rattle.hs_nodes.specs.Contexts.{AreChunkContexts, NeedsContexts};
ghost use Rattle.hs_nodes.specs.Left.{AreLeftIn, nowhere};
ghost use Rattle.hs_nodes.specs.Foretelling.{passes, spends};
ghost use Rattle.hs_nodes.specs.Lone.{AreLoneIn, IsLoneNode};
ghost use Rattle.hs_nodes.specs.Openings.{AreOthersSound, MayNodesBePassed};
ghost use Rattle.hs_nodes.specs.Pooled.{ArePooled};
ghost use Rattle.hs_nodes.specs.Resting.{AreEnginesIdle};
ghost use Rattle.hs_nodes.specs.Sparing.{AreQuiet, IsLiteralThere, IsSpared};
ghost use Rattle.hs_nodes.specs.Starting.{AreStartsEnough};
ghost use Rattle.hs_bits.specs.Marks.{is_marked, mark_room};
ghost use Rattle.hs_nodes.specs.Nodes.{IsKindSound, IsWellPart, most_ticks};
ghost use Rattle.hs_nodes.specs.Walks.{AreMoreMarks, AreNodesWell, ChangesMarked, IsAmongChildren, IsNodeCaughtUp};
ghost use Rattle.hs_nodes.specs.Walks.{IsNodeRun};
ghost use Rattle.hs_nodes.specs.Walks.{IsTableSound, MayNodesRest, TakesNodes, entering_ends, node_ends, node_part};
ghost use Rattle.hs_nodes.specs.Walks.{nodes_ticks};
ghost use Rattle.hs_nodes.specs.declared.ends.ChunkEnds.{ChunkEnds};
ghost use Rattle.hs_nodes.specs.declared.table.Node.{Node};

use crate::catching_up::catch_up;
use crate::chunk::Chunk;
use crate::contexts::ChunkContexts;
use crate::ends::ChunkEnds;
use crate::engines::Entry;
use crate::first::everywhere;
use crate::foretold::Foretold;
use crate::kinds::{Found, run_kind};
use crate::lone::LoneNodes;
use crate::table::{Node, NodeKind, NodeTable};
use hs_bits::MarkSet;
use hs_block::BlockEngine;
use hs_engine::{Steps, TimelessEngine};
use hs_pool::StatePool;
use std::sync::ledger::Ledger;

/// The node of that number.
pub fn node_at<E>(table: &NodeTable<E>, k: usize) -> Node
    requires { k < length table.now.nodes.items }
    ensures { slice_get table.now.nodes.items k ≡ Some result }
{
    table.nodes[k]
}

/// Where the pieces before those of a node with that parent are left.
fn entering<'e>(parent: Option<u32>, all: &'e ChunkEnds, ends: &'e [ChunkEnds]) -> &'e ChunkEnds
    requires { (p : ℕ) → parent ≡ Some p → p < length ends.now }
    ensures { result.now ≡ entering_ends parent all.now ends.now }
{
    match parent {
        None => all,
        Some(parent) => &ends[parent as usize],
    }
}

/// The number of a node, if it has no parent.
fn first_number(parent: Option<u32>, k: usize) -> Option<usize>
    ensures { (i : ℕ) → result ≡ Some i → (parent ≡ None) × (i ≡ k) }
{
    match parent {
        None => Some(k),
        Some(_) => None,
    }
}

/// Takes a chunk by the node of that number.
fn run_node<E: BlockEngine + TimelessEngine, L: Ledger>(
    table: &NodeTable<E>,
    k: usize,
    chunk: &Chunk,
    found: &Found,
    region: &mut [u8],
    ends: &mut [ChunkEnds],
    pool: &mut Option<StatePool>,
    steps: &mut Steps<L>,
)
    requires sound { (literals : ℕ) × IsTableSound E.meaning table.now literals (length region.old) }
    requires kind { (node : Node) → slice_get table.now.nodes.items k ≡ Some node → IsKindSound E.meaning
        table.now.engines.items (length found.now.foretold.now.hits.now) node.kind (node.end - node.start) }
    requires there { k < length table.now.nodes.items }
    requires ends { length ends.old ≡ length table.now.nodes.items }
    requires well { (node : Node) → slice_get table.now.nodes.items k ≡ Some node →
        IsWellPart E.meaning table.now.engines.items node.kind (node_part region.old node) chunk.now.at }
    requires contexts { (node : Node) → slice_get table.now.nodes.items k ≡ Some node → NeedsContexts node.kind →
        AreChunkContexts found.now.contexts.now chunk.now.prev chunk.now.at chunk.now.bytes.now }
    requires idle { AreEnginesIdle E.meaning table.now.engines.items }
    requires pool { ArePooled E.meaning table.now.engines.items pool.old }
    requires told { (node : Node) (t : Told) → slice_get table.now.nodes.items k ≡ Some node →
        told found.now.foretold.now.cache.now k ≡ Some t → IsToldKind E.meaning table.now.engines.items node.kind
        (node_part region.old node) chunk.now.prev chunk.now.bytes.now t }
    requires starts { AreStartsEnough E.meaning table.now found.now.foretold.now.cache.now
        found.now.foretold.now.starts.now chunk.now.prev chunk.now.bytes.now }
    requires everywhere { (u : List ℕ) → AreLeftIn [] u chunk.now.bytes.now found.now.all.now }
    ensures len { length region.new ≡ length region.old }
    ensures ends { length ends.new ≡ length ends.old }
    ensures pool { ArePooled E.meaning table.now.engines.items pool.new }
    ensures ticks { (node : Node) → slice_get table.now.nodes.items k ≡ Some node →
        steps.new ≤ steps.old + most_ticks node.kind found.now.foretold.now.hits.now (length chunk.now.bytes.now) }
    ensures runs { (node : Node) → slice_get table.now.nodes.items k ≡ Some node → IsNodeRun E.meaning table.now k node
        region.old region.new chunk.now.prev chunk.now.at chunk.now.past.now chunk.now.bytes.now
        found.now.foretold.now.hits.now found.now.all.now ends.old ends.new }
{
    let node = node_at(table, k);
    let enters = entering(node.parent, found.all, ends);
    ends[k] = run_kind(
        node.kind,
        &table.engines,
        &mut region[node.start as usize..node.end as usize],
        chunk,
        found,
        &Entry {
            enters,
            first: first_number(node.parent, k),
        },
        pool,
        steps,
    );
}

/// Takes a chunk by the node of that number, which is a lone one, without regard to where it is left.
#[inline(never)]
fn catch_up_node<E: BlockEngine, L: Ledger>(
    table: &NodeTable<E>,
    k: usize,
    chunk: &Chunk,
    lone: &LoneNodes,
    region: &mut [u8],
    steps: &mut Steps<L>,
)
    requires sound { (literals : ℕ) × IsTableSound E.meaning table.now literals (length region.old) }
    requires lone { AreLoneIn E.meaning table.now lone.now }
    requires own { IsLoneNode table.now k }
    requires well { (node : Node) → slice_get table.now.nodes.items k ≡ Some node →
        IsWellPart E.meaning table.now.engines.items node.kind (node_part region.old node) chunk.now.at }
    requires idle { AreEnginesIdle E.meaning table.now.engines.items }
    ensures len { length region.new ≡ length region.old }
    ensures ticks { steps.new ≤ steps.old + length chunk.now.bytes.now }
    ensures catches { (node : Node) → slice_get table.now.nodes.items k ≡ Some node → IsNodeCaughtUp E.meaning table.now
        k node region.old region.new chunk.now.prev chunk.now.at chunk.now.bytes.now }
{
    let node = node_at(table, k);
    if let NodeKind::Engine(number, _) = node.kind {
        let number = number as usize;
        catch_up(
            &table.engines[number],
            &mut region[node.start as usize..node.end as usize],
            chunk,
            &lone.living(&table.engines, number),
            steps,
        );
    }
}

/// The number at that place of a list.
pub fn start_of(starts: &[u32], k: usize) -> usize
    requires { k < length starts.now }
    ensures { result ≡ slice_index starts.now k }
{
    starts[k] as usize
}

/// Marks the numbers of a range of a list.
pub fn mark_all(numbers: &[u32], from: usize, end: usize, marks: &mut MarkSet)
    requires end { end ≤ length numbers.now }
    requires room { EachIndex numbers.now (λ i. slice_index numbers.now i < mark_room marks.old) }
    ensures room { length marks.new ≡ length marks.old }
    ensures all { (i : ℕ) → from ≤ i → i < end → is_marked marks.new (slice_index numbers.now i) ≡ true }
    ensures kept { (k : ℕ) → is_marked marks.old k ≡ true → is_marked marks.new k ≡ true }
    ensures no_other { (count k : ℕ) → EachIndex numbers.now (λ i. slice_index numbers.now i < count) →
        is_marked marks.new k ≡ true → count ≤ k → is_marked marks.old k ≡ true }
{
    for i in from..end {
        marks.write(numbers[i] as usize, true);
    }
}

/// Whether a node of that kind, in which nothing is live, needs no run, where its parent is left before none of the
/// last so many bytes of a chunk: it is a literal of no more bytes, which ends nowhere in the chunk.
#[inline(always)]
fn is_spared(kind: NodeKind, foretold: &Foretold, quiet: usize) -> bool
    requires { IsLiteralThere (mark_room foretold.now.ending.now) kind }
    ensures { (count : ℕ) (enters : ChunkEnds) → AreQuiet quiet count enters → result ≡ true →
        IsSpared kind foretold.now.hits.now count enters }
{
    match kind {
        NodeKind::Engine(_, _) => false,
        NodeKind::Literal(number, len) => {
            len as usize <= quiet && !foretold.ending.contains(number as usize)
        }
        NodeKind::FirstLiteral(_, _) => false,
        NodeKind::LookBack(_) => false,
    }
}

/// Marks the node of that number, unless it needs no run where its parent is left before none of the last so many bytes
/// of a chunk.
fn mark_child<E>(
    table: &NodeTable<E>,
    child: usize,
    foretold: &Foretold,
    quiet: usize,
    marks: &mut MarkSet,
)
    requires there { child < length table.now.nodes.items }
    requires literal { (node : Node) → slice_get table.now.nodes.items child ≡ Some node →
        IsLiteralThere (mark_room foretold.now.ending.now) node.kind }
    requires room { length table.now.nodes.items ≤ mark_room marks.old }
    requires below { (k : ℕ) → is_marked marks.old k ≡ true → k < length table.now.nodes.items }
    ensures more { AreMoreMarks (length table.now.nodes.items) marks.old marks.new }
    ensures needed { (count : ℕ) (enters : ChunkEnds) (node : Node) → AreQuiet quiet count enters →
        slice_get table.now.nodes.items child ≡ Some node →
        (is_marked marks.new child ≡ true) ⊎ IsSpared node.kind foretold.now.hits.now count enters }
{
    if is_spared(node_at(table, child).kind, foretold, quiet) {
        return;
    }
    marks.write(child, true);
}

/// Marks the children of the node of that number, which is left as the ends tell in a chunk of so many bytes, but for
/// those that need no run.
fn mark_children<E>(
    table: &NodeTable<E>,
    k: usize,
    foretold: &Foretold,
    ends: &ChunkEnds,
    count: usize,
    marks: &mut MarkSet,
)
    requires few { count ≤ 512 }
    requires there { k + 1 < length table.now.child_starts.items }
    requires end { slice_index table.now.child_starts.items (k + 1) ≤ length table.now.children.items }
    requires literals { (child : ℕ) (node : Node) → slice_get table.now.nodes.items child ≡ Some node →
        IsLiteralThere (mark_room foretold.now.ending.now) node.kind }
    requires room { length table.now.nodes.items ≤ mark_room marks.old }
    requires children { (i : ℕ) → i < length table.now.children.items →
        slice_index table.now.children.items i < length table.now.nodes.items }
    requires below { (k : ℕ) → is_marked marks.old k ≡ true → k < length table.now.nodes.items }
    ensures more { AreMoreMarks (length table.now.nodes.items) marks.old marks.new }
    ensures needed { (child : ℕ) (node : Node) →
        IsAmongChildren table.now.child_starts.items table.now.children.items k child →
        slice_get table.now.nodes.items child ≡ Some node →
        (is_marked marks.new child ≡ true) ⊎ IsSpared node.kind foretold.now.hits.now count ends.now }
{
    let quiet = ends.quiet_end(count);
    for i in start_of(&table.child_starts, k)..start_of(&table.child_starts, k + 1) {
        mark_child(table, start_of(&table.children, i), foretold, quiet, marks);
    }
}

/// Takes a chunk by the nodes that are marked, in their order; where a node is left, its children are marked, but for
/// literals of which nothing comes. So those that are marked then have been run, and no other one. Of engines without a
/// parent the cache tells what they do, or it is said where their matches may begin. Engines of which it tells nothing
/// go by the states that the pool has of them, if there is one. Where the chains are over that begin where the stream
/// does, their nodes are passed over, and only the literals of the others need to be known. Of nodes that are spent it
/// isn't told where they are left.
pub fn walk<E: BlockEngine + TimelessEngine, L: Ledger>(
    table: &NodeTable<E>,
    chunk: &Chunk,
    foretold: &Foretold,
    region: &mut [u8],
    ends: &mut [ChunkEnds],
    marks: &mut MarkSet,
    pool: &mut Option<StatePool>,
    steps: &mut Steps<L>,
)
    requires sound { (literals : ℕ) × IsTableSound E.meaning table.now literals (length region.old)
        × (literals ≤ mark_room foretold.now.ending.now) }
    requires others { AreOthersSound E.meaning table.now (passes foretold.now) (length foretold.now.hits.now) }
    requires passed { MayNodesBePassed E.meaning table.now (passes foretold.now) region.old chunk.now.at }
    requires openings { length table.now.nodes.items ≤ mark_room foretold.now.openings.now.nodes }
    requires lone { AreLoneIn E.meaning table.now foretold.now.spent.lone.now }
    requires well { AreNodesWell E.meaning table.now region.old chunk.now.at }
    requires ends { length ends.old ≡ length table.now.nodes.items }
    requires clear { (k : ℕ) → node_ends ends.old k ≡ nowhere }
    requires room { length table.now.nodes.items ≤ mark_room marks.old }
    requires marked { (k : ℕ) → is_marked marks.old k ≡ true → k < length table.now.nodes.items }
    requires rests { MayNodesRest E.meaning table.now marks.old foretold.now.hits.now region.old chunk.now.prev
        chunk.now.bytes.now }
    requires idle { AreEnginesIdle E.meaning table.now.engines.items }
    requires pool { ArePooled E.meaning table.now.engines.items pool.old }
    requires told { TellsNodes E.meaning table.now foretold.now.cache.now region.old chunk.now.prev
        chunk.now.bytes.now }
    requires starts { AreStartsEnough E.meaning table.now foretold.now.cache.now foretold.now.starts.now chunk.now.prev
        chunk.now.bytes.now }
    ensures well { AreNodesWell E.meaning table.now region.new (chunk.now.at + length chunk.now.bytes.now) }
    ensures ends { length ends.new ≡ length ends.old }
    ensures marks { AreMoreMarks (length table.now.nodes.items) marks.old marks.new }
    ensures changes { ChangesMarked E.meaning table.now marks.new region.old region.new ends.new }
    ensures pool { ArePooled E.meaning table.now.engines.items pool.new }
    ensures ticks { steps.new ≤
        steps.old + nodes_ticks table.now.nodes.items foretold.now.hits.now (length chunk.now.bytes.now) }
    ensures takes { TakesNodes E.meaning table.now (spends foretold.now) region.old region.new chunk.now.prev
        chunk.now.at chunk.now.past.now chunk.now.bytes.now foretold.now.hits.now ends.new }
{
    let all = everywhere(chunk);
    let mut contexts = ChunkContexts::unmade();
    let mut from = 0;
    while let Some(k) = marks.next(from) {
        from = k + 1;
        if foretold.is_left_behind(table, k) {
            catch_up_node(table, k, chunk, foretold.spent.lone, region, steps);
        } else if !foretold.passes(k) {
            contexts.make_for(node_at(table, k).kind, chunk);
            let found = Found {
                contexts: &contexts.blocks,
                foretold: &*foretold,
                all: &all,
            };
            run_node(table, k, chunk, &found, region, ends, pool, steps);
            if !ends[k].is_nowhere() {
                mark_children(table, k, foretold, &ends[k], chunk.bytes.len(), marks);
            }
        }
    }
}
