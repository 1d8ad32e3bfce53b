//! The runner of a database, over whole regions of its streams, and what may be kept of these. All calls of it stand
//! here, but for those of `scratch`.
ghost use Rattle.std.specs.Prelude.{◌≡◌, ◌↔◌, ◌+◌, ◌*◌, ◌<◌, ◌≤◌, ◌^◌, IfSome, IsNone, IsTrue, [], length};
ghost use Rattle.hs_base.specs.Lists.{Each};
ghost use Rattle.hs_base.specs.Offsets.{greatest_offset};
ghost use Rattle.hs_base.specs.Regions.{region_offset};
ghost use Rattle.hs_compile.specs.Databases.{IsWholeDatabase, nodes_of, packing_of};
ghost use Rattle.hs_kept.specs.Packing.{packed_size};
ghost use Rattle.hs_reports.specs.Events.{Takes};
ghost use Rattle.hs_scan.specs.Scratches.{IsIdle};
ghost use Rattle.hs_stream.specs.Scratches.{AreStatesOf, ServesDatabase};
ghost use Rattle.hs_stream.specs.Leading.{IsFaultOf, IsRegionOf};
ghost use Rattle.hs_stream.specs.Scanning.{IsWholeRegionOf, MayScan, MayScanEnd};

use hs_compile::Database;
use hs_engine::Steps;
use hs_regions::{first_fault, well_formed};
use hs_reports::Events;
use hs_scan::{Tables, finish, scan};
use std::sync::ledger::Ledger;

/// Takes the next bytes of the stream of a region, and reports what they decide, in the order in which they do.
pub(crate) fn run_bytes<V: Events, L: Ledger>(
    db: &Database,
    region: &mut [u8],
    states: &mut hs_scan::NodeCache,
    scratch: &mut hs_scan::Scratch,
    bytes: &[u8],
    events: &mut V,
    steps: &mut Steps<L>,
)
    requires region { IsWholeRegionOf db.now region.old }
    requires ready { IsIdle scratch.old }
    requires scratch { ServesDatabase db.now scratch.old }
    requires states { AreStatesOf db.now states.old }
    requires room { region_offset region.old + length bytes.now ≤ greatest_offset }
    ensures states { AreStatesOf db.now states.new }
    ensures region { IsWholeRegionOf db.now region.new }
    ensures len { length region.new ≡ length region.old }
    ensures ready { IsIdle scratch.new }
    ensures scratch { ServesDatabase db.now scratch.new }
    ensures offset { region_offset region.new ≡ region_offset region.old + length bytes.now }
    ensures small { Each (λ b. b < 256) region.new }
    ensures told { Takes V.tells events.old events.new (MayScan db.now region.old region.new bytes.now) }
    ensures ticks { steps.new ≤ steps.old + 48 * (length (nodes_of db.now) * length bytes.now) }
{
    let tables = Tables {
        graph: db.graph(),
        literals: db.literals(),
        lasting: db.lasting(),
        lone: db.lone(),
        layout: db.layout(),
    };
    scan(&tables, region, states, scratch, bytes, events, steps);
}

/// Reports what only the end of the stream of a region decides, if it ends here.
pub(crate) fn run_end<V: Events, L: Ledger>(
    db: &Database,
    region: &[u8],
    scratch: &mut hs_scan::Scratch,
    events: &mut V,
    steps: &mut Steps<L>,
)
    requires region { IsWholeRegionOf db.now region.now }
    requires ready { IsIdle scratch.old }
    requires scratch { ServesDatabase db.now scratch.old }
    ensures ready { IsIdle scratch.new }
    ensures scratch { ServesDatabase db.now scratch.new }
    ensures told { Takes V.tells events.old events.new (MayScanEnd db.now region.now) }
    ensures ticks { steps.new ≤ steps.old + 16 * length (nodes_of db.now) }
{
    let tables = Tables {
        graph: db.graph(),
        literals: db.literals(),
        lasting: db.lasting(),
        lone: db.lone(),
        layout: db.layout(),
    };
    finish(&tables, region, scratch, events, steps);
}

/// Whether the bytes may be what is kept of a stream of the database.
pub(crate) fn is_region(db: &Database, kept: &[u8]) -> bool
    ensures { IsTrue result ↔ IsRegionOf db.now kept.now }
{
    let fits = well_formed(db.graph(), db.layout(), db.packing(), kept);
    fits
}

/// Where the first part begins that breaks its rule, of bytes that have the length of what is kept of a stream of the
/// database. None: they may be that.
pub(crate) fn region_fault(db: &Database, kept: &[u8]) -> Option<usize>
    requires sized { length kept.now ≡ packed_size (packing_of db.now) }
    ensures none { IsNone result ↔ IsRegionOf db.now kept.now }
    ensures first { IfSome result (IsFaultOf db.now kept.now) }
    ensures small { IfSome result (λ place. place ≤ 2 ^ 24) }
{
    let place = first_fault(db.graph(), db.layout(), db.packing(), kept);
    place
}
