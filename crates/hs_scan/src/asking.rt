//! Where matches end behind all bytes so far, if that comes next.

ghost use Rattle.std.specs.Prelude.{◌≡◌, ◌+◌, ◌*◌, ◌<◌, ◌≤◌, ◌^◌, ℕ, false, length};
ghost use Rattle.hs_layout.specs.Layouts.{laid_size};
ghost use Rattle.hs_literals.specs.Held.{held};
ghost use Rattle.hs_nodes.specs.Graphs.{AreTerminalsSound, IsGraphSound};
ghost use Rattle.hs_nodes.specs.Left.{nowhere};
ghost use Rattle.hs_nodes.specs.Walks.{AreNodesWell, IsTableSound, node_ends};
ghost use Rattle.hs_reports.specs.EndTables.{HasNoEnds};
ghost use Rattle.hs_scan.specs.Scratches.{AsksNodes, FitsGraph, HasNoHits, KeepsAsked};
ghost use Rattle.hs_scan.specs.Asking.{AsksEnds};

use crate::past::prev_of;
use crate::scratch::{Scratch, find_hits, forget};
use crate::tables::Tables;
use hs_base::Next;
use hs_block::BlockEngine;
use hs_engine::Steps;
use hs_nodes::{ChunkEnds, Graph, Stop, ends_if, gather_all, leave_nodes};
use std::sync::ledger::Ledger;

/// Makes all ends those of nodes that are left nowhere.
fn forget_ends(ends: &mut [ChunkEnds])
    ensures len { length ends.new ≡ length ends.old }
    ensures nowhere { (k : ℕ) → node_ends ends.new k ≡ nowhere }
{
    for end in ends.iter_mut() {
        *end = ChunkEnds::NOWHERE;
    }
}

/// The same, unless none is left anywhere.
fn forget_if(ends: &mut [ChunkEnds], is_any: bool)
    requires { is_any ≡ false → (k : ℕ) → node_ends ends.old k ≡ nowhere }
    ensures len { length ends.new ≡ length ends.old }
    ensures nowhere { (k : ℕ) → node_ends ends.new k ≡ nowhere }
{
    if is_any {
        forget_ends(ends);
    }
}

/// Adds the ends behind all bytes so far, by where the literals end.
fn ask_nodes<E: BlockEngine, L: Ledger>(
    graph: &Graph<E>,
    region: &[u8],
    scratch: &mut Scratch,
    next: Next,
    steps: &mut Steps<L>,
)
    requires table { IsTableSound E.meaning graph.now.table scratch.old.rows.count (length region.now) }
    requires sound { AreTerminalsSound graph.now }
    requires few { length graph.now.table.nodes.items < 2 ^ 32 }
    requires well { AreNodesWell E.meaning graph.now.table region.now scratch.old.at }
    requires room { FitsGraph graph.now scratch.old }
    requires none { HasNoEnds scratch.old.finals }
    requires small { scratch.old.at < 2 ^ 63 }
    ensures ticks { steps.new ≤ steps.old + 16 * length graph.now.table.nodes.items }
    ensures asks { AsksNodes E.meaning graph.now region.now next scratch.old scratch.new }
{
    let stop = Stop {
        past: &scratch.past,
        prev: prev_of(scratch.at, &scratch.past),
        at: scratch.at,
        next,
        hits: &scratch.hits,
    };
    let is_any = leave_nodes(&graph.table, region, &stop, &mut scratch.ends, steps);
    gather_all(
        graph,
        &scratch.ends,
        is_any,
        &ends_if(true),
        scratch.at,
        &mut scratch.finals,
    );
    forget_if(&mut scratch.ends, is_any);
}

/// Finds of which identifiers a match ends behind all bytes so far, if that comes next.
pub(crate) fn ask_ends<E: BlockEngine, L: Ledger>(
    tables: &Tables<E>,
    region: &[u8],
    scratch: &mut Scratch,
    next: Next,
    steps: &mut Steps<L>,
)
    requires sound { IsGraphSound E.meaning tables.now.graph.now (held tables.now.literals.now) tables.now.layout.now }
    requires sized { length region.now ≡ laid_size tables.now.layout.now }
    requires well { AreNodesWell E.meaning tables.now.graph.now.table region.now scratch.old.at }
    requires room { FitsGraph tables.now.graph.now scratch.old }
    requires rows { scratch.old.rows.count ≡ length (held tables.now.literals.now) }
    requires none { HasNoHits scratch.old }
    requires no_finals { HasNoEnds scratch.old.finals }
    requires small { scratch.old.at < 2 ^ 63 }
    ensures room { FitsGraph tables.now.graph.now scratch.new }
    ensures none { HasNoHits scratch.new }
    ensures ticks { steps.new ≤ steps.old + 16 * length tables.now.graph.now.table.nodes.items }
    ensures keeps { KeepsAsked scratch.old scratch.new }
    ensures asks { AsksEnds E.meaning tables.now.graph.now (held tables.now.literals.now) scratch.old.at
        scratch.old.past region.now next scratch.new.finals }
{
    let _ = tables.layout.fields();
    find_hits(tables.literals, scratch, &[]);
    ask_nodes(tables.graph, region, scratch, next, steps);
    forget(scratch);
}
