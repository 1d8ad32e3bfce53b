//! A write: bytes to reports, and from the region of a stream to that of the longer one.

ghost use Rattle.std.specs.Prelude.{◌≡◌, ◌+◌, ◌*◌, ◌≤◌, [], length};
ghost use Rattle.hs_base.specs.Offsets.{greatest_offset};
ghost use Rattle.hs_base.specs.Regions.{region_offset};
ghost use Rattle.hs_literals.specs.Held.{held};
ghost use Rattle.hs_nodes.specs.Graphs.{IsGraphSound};
ghost use Rattle.hs_nodes.specs.Lone.{AreLoneNodes};
ghost use Rattle.hs_reports.specs.Events.{Takes};
ghost use Rattle.hs_scan.specs.NodeCaches.{IsNodeCacheOf};
ghost use Rattle.hs_scan.specs.Feeding.{Feeds, GoesOnAlike};
ghost use Rattle.hs_nodes.specs.WellRegions.{FitsRegion, IsWellRegion};
ghost use Rattle.hs_scan.specs.Scratches.{IsIdle, ServesGraph};

use crate::last_byte::scan_write;
use crate::node_cache::NodeCache;
use crate::scratch::Scratch;
use crate::tables::Tables;
use crate::writing::{begin_write, end_write, mark_nodes};
use hs_block::BlockEngine;
use hs_engine::{Steps, TimelessEngine};
use hs_reports::Events;
use std::sync::ledger::Ledger;

/// Takes the next bytes of the stream of a region, and reports what they decide, in the order in which they do. The
/// offset stays a number that a stream may have. No bytes leave the region as it is, and report nothing.
pub fn scan<E: BlockEngine + TimelessEngine, V: Events, L: Ledger>(
    tables: &Tables<E>,
    region: &mut [u8],
    cache: &mut NodeCache,
    scratch: &mut Scratch,
    bytes: &[u8],
    events: &mut V,
    steps: &mut Steps<L>,
)
    requires sound { IsGraphSound E.meaning tables.now.graph.now (held tables.now.literals.now) tables.now.layout.now }
    requires lone { AreLoneNodes E.meaning tables.now.graph.now tables.now.lone.now }
    requires region { FitsRegion E.meaning tables.now.graph.now tables.now.layout.now region.old }
    requires idle { IsIdle scratch.old }
    requires scratch { ServesGraph tables.now.graph.now (length (held tables.now.literals.now)) scratch.old }
    requires room { region_offset region.old + length bytes.now ≤ greatest_offset }
    requires cache { IsNodeCacheOf E.meaning tables.now.graph.now.table cache.old }
    ensures cache { IsNodeCacheOf E.meaning tables.now.graph.now.table cache.new }
    ensures region { FitsRegion E.meaning tables.now.graph.now tables.now.layout.now region.new }
    ensures idle { IsIdle scratch.new }
    ensures scratch { ServesGraph tables.now.graph.now (length (held tables.now.literals.now)) scratch.new }
    ensures well { IsWellRegion E.meaning tables.now.graph.now tables.now.layout.now region.old →
        IsWellRegion E.meaning tables.now.graph.now tables.now.layout.now region.new }
    ensures offset { region_offset region.new ≡ region_offset region.old + length bytes.now }
    ensures stays { bytes.now ≡ [] → region.new ≡ region.old }
    ensures silent { bytes.now ≡ [] → events.new ≡ events.old }
    ensures taken { Takes V.tells events.old events.new (Feeds E.meaning tables.now.graph.now
        (held tables.now.literals.now) tables.now.layout.now region.old region.new bytes.now) }
    ensures alike { GoesOnAlike E.meaning tables.now.graph.now (held tables.now.literals.now) tables.now.layout.now
        region.old bytes.now }
    ensures ticks { steps.new ≤ steps.old + 48 * (length tables.now.graph.now.table.nodes.items * length bytes.now) }
{
    if bytes.is_empty() {
        return;
    }
    begin_write(tables.graph, tables.layout, region, scratch);
    mark_nodes(tables.graph, region, scratch);
    scan_write(tables, region, cache, scratch, bytes, events, steps);
    end_write(tables.graph, tables.layout, region, scratch);
}
