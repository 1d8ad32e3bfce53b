//! The beginning and the end of a write: what the region keeps goes into the scratch, and comes back.

ghost use Rattle.std.specs.Prelude.{◌≡◌, ℕ, length};
ghost use Rattle.hs_layout.specs.Layouts.{laid_size};
ghost use Rattle.hs_nodes.specs.Graphs.{FitsLayout};
ghost use Rattle.hs_nodes.specs.Resting.{AreEnginesIdle, AreNodesResting};
ghost use Rattle.hs_nodes.specs.Walks.{IsTableSound};
ghost use Rattle.hs_reports.specs.EndTables.{HasNoEnds};
ghost use Rattle.hs_scan.specs.Scans.{IsWritten};
ghost use Rattle.hs_scan.specs.Scratches.{FitsGraph, KeepsTables, stand_of};
ghost use Rattle.hs_scan.specs.Writing.{BeginsWrite};

use crate::copying::copy_fields;
use crate::scratch::Scratch;
use hs_block::BlockEngine;
use hs_layout::Layout;
use hs_nodes::{Graph, mark_live};

/// Reads where the stream of a region stands, and what is known of it.
pub(crate) fn begin_write<E: BlockEngine>(
    graph: &Graph<E>,
    layout: &Layout,
    region: &[u8],
    scratch: &mut Scratch,
)
    requires fits { FitsLayout graph.now layout.now }
    requires sized { length region.now ≡ laid_size layout.now }
    requires room { FitsGraph graph.now scratch.old }
    requires none { HasNoEnds scratch.old.course.known.ends }
    ensures { BeginsWrite graph.now layout.now region.now scratch.old scratch.new }
{
    scratch.at = layout.offset(region);
    scratch.past.copy_from_slice(layout.history(region));
    let known = &mut scratch.course.known;
    known.begin(layout, region, &graph.identifiers);
}

/// Marks the nodes in which something is live: the first chunk passes over all others, if it doesn't wake them.
pub(crate) fn mark_nodes<E: BlockEngine>(graph: &Graph<E>, region: &[u8], scratch: &mut Scratch)
    requires table { (literals : ℕ) × IsTableSound E.meaning graph.now.table literals (length region.now) }
    requires idle { AreEnginesIdle E.meaning graph.now.table.engines.items }
    requires room { FitsGraph graph.now scratch.old }
    ensures room { FitsGraph graph.now scratch.new }
    ensures resting { AreNodesResting E.meaning graph.now.table scratch.new.course.marks region.now }
    ensures known { scratch.new.course.known ≡ scratch.old.course.known }
    ensures keeps { KeepsTables scratch.old scratch.new }
{
    mark_live(&graph.table, region, &mut scratch.course.marks);
}

/// Writes into a region all that is known of its stream but what is kept of the nodes, which is there.
pub(crate) fn end_write<E: BlockEngine>(
    graph: &Graph<E>,
    layout: &Layout,
    region: &mut [u8],
    scratch: &Scratch,
)
    requires fits { FitsLayout graph.now layout.now }
    requires sized { length region.old ≡ laid_size layout.now }
    requires room { FitsGraph graph.now scratch.now }
    ensures { IsWritten graph.now layout.now (stand_of scratch.now region.old) scratch.now.last.items region.new }
{
    let known = &scratch.course.known;
    known.write(layout, region, &graph.identifiers, &scratch.last);
    copy_fields(graph, layout, region);
    layout.set_history(region, &scratch.past);
    layout.set_offset(region, scratch.at);
}
