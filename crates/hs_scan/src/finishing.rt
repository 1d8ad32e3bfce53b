//! The end of a stream: what only it decides.

ghost use Rattle.std.specs.Prelude.{◌+◌, ◌*◌, ◌≤◌, length};
ghost use Rattle.hs_base.specs.Offsets.{greatest_offset};
ghost use Rattle.hs_base.specs.Regions.{region_offset};
ghost use Rattle.hs_literals.specs.Held.{held};
ghost use Rattle.hs_nodes.specs.Graphs.{IsGraphSound};
ghost use Rattle.hs_reports.specs.Events.{Takes};
ghost use Rattle.hs_scan.specs.Feeding.{EndsAlike, Finishes};
ghost use Rattle.hs_nodes.specs.WellRegions.{FitsRegion};
ghost use Rattle.hs_scan.specs.Scratches.{IsIdle, ServesGraph};

use crate::asking::ask_ends;
use crate::scratch::Scratch;
use crate::tables::Tables;
use crate::writing::begin_write;
use hs_base::Next;
use hs_block::BlockEngine;
use hs_engine::Steps;
use hs_keeping::{forget_finals, report_ends, report_lasts};
use hs_reports::Events;
use std::sync::ledger::Ledger;

/// Reports what only the end of the stream decides, if it ends here. The region stays as it is.
pub fn finish<E: BlockEngine, V: Events, L: Ledger>(
    tables: &Tables<E>,
    region: &[u8],
    scratch: &mut Scratch,
    events: &mut V,
    steps: &mut Steps<L>,
)
    requires sound { IsGraphSound E.meaning tables.now.graph.now (held tables.now.literals.now) tables.now.layout.now }
    requires region { FitsRegion E.meaning tables.now.graph.now tables.now.layout.now region.now }
    requires idle { IsIdle scratch.old }
    requires scratch { ServesGraph tables.now.graph.now (length (held tables.now.literals.now)) scratch.old }
    requires room { region_offset region.now ≤ greatest_offset }
    ensures idle { IsIdle scratch.new }
    ensures scratch { ServesGraph tables.now.graph.now (length (held tables.now.literals.now)) scratch.new }
    ensures taken { Takes V.tells events.old events.new (Finishes E.meaning tables.now.graph.now
        (held tables.now.literals.now) tables.now.layout.now region.now) }
    ensures alike { EndsAlike E.meaning tables.now.graph.now (held tables.now.literals.now) tables.now.layout.now
        region.now }
    ensures ticks { steps.new ≤ steps.old + 16 * length tables.now.graph.now.table.nodes.items }
{
    begin_write(tables.graph, tables.layout, region, scratch);
    ask_ends(tables, region, scratch, Next::End, steps);
    let at = scratch.at;
    report_lasts(
        tables.layout,
        region,
        &tables.graph.identifiers,
        at.saturating_sub(1),
        events,
    );
    report_ends(
        tables.layout,
        region,
        &tables.graph.identifiers,
        &scratch.course.known,
        &scratch.finals,
        at,
        events,
    );
    forget_finals(&mut scratch.finals);
}
