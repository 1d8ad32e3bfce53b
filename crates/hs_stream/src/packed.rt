//! The runner over what streams keep: a region is made of that, run, and packed again.
ghost use Rattle.std.specs.Prelude.{◌≡◌, ◌+◌, ◌*◌, ◌<◌, ◌≤◌, [], length};
ghost use Rattle.hs_base.specs.Lists.{Each};
ghost use Rattle.hs_base.specs.Offsets.{greatest_offset};
ghost use Rattle.hs_base.specs.Regions.{region_offset};
ghost use Rattle.hs_compile.specs.Databases.{IsWholeDatabase, nodes_of, packing_of};
ghost use Rattle.hs_kept.specs.Packing.{unpacked_size};
ghost use Rattle.hs_reports.specs.Events.{Takes};
ghost use Rattle.hs_scan.specs.Scratches.{IsIdle};
ghost use Rattle.hs_stream.specs.Foreign.{MayEnd, MayLead};
ghost use Rattle.hs_stream.specs.Leading.{IsRegionOf};
ghost use Rattle.hs_stream.specs.Scratches.{AreStatesOf, KeepsWhole, ServesDatabase};

use crate::running::{run_bytes, run_end};
use hs_compile::Database;
use hs_engine::Steps;
use hs_reports::Events;
use std::sync::ledger::Ledger;

/// Takes the next bytes of the stream of which that is kept, and reports what they decide, in the order in which they
/// do. Where the database keeps whole regions no byte is copied; else the region is made in bytes there for it.
pub(crate) fn write_kept<V: Events, L: Ledger>(
    db: &Database,
    kept: &mut [u8],
    region: &mut [u8],
    states: &mut hs_scan::NodeCache,
    scratch: &mut hs_scan::Scratch,
    bytes: &[u8],
    events: &mut V,
    steps: &mut Steps<L>,
)
    requires kept { IsRegionOf db.now kept.old }
    requires region { length region.old ≡ unpacked_size (packing_of db.now) }
    requires ready { IsIdle scratch.old }
    requires scratch { ServesDatabase db.now scratch.old }
    requires room { region_offset kept.old + length bytes.now ≤ greatest_offset }
    requires states { AreStatesOf db.now states.old }
    ensures states { AreStatesOf db.now states.new }
    ensures kept { IsRegionOf db.now kept.new }
    ensures len { length kept.new ≡ length kept.old }
    ensures region { length region.new ≡ length region.old }
    ensures ready { IsIdle scratch.new }
    ensures scratch { ServesDatabase db.now scratch.new }
    ensures offset { region_offset kept.new ≡ region_offset kept.old + length bytes.now }
    ensures small { Each (λ b. b < 256) kept.new }
    ensures idle { bytes.now ≡ [] → (events.new ≡ events.old) × (kept.new ≡ kept.old) }
    ensures told { Takes V.tells events.old events.new (MayLead db.now kept.old kept.new bytes.now) }
    ensures ticks { steps.new ≤ steps.old + 48 * (length (nodes_of db.now) * length bytes.now) }
{
    if db.packing().has_states() {
        write_packed(db, kept, region, states, scratch, bytes, events, steps);
    } else {
        write_whole(db, kept, states, scratch, bytes, events, steps);
    }
}

/// Takes such bytes where whole regions are kept.
fn write_whole<V: Events, L: Ledger>(
    db: &Database,
    kept: &mut [u8],
    states: &mut hs_scan::NodeCache,
    scratch: &mut hs_scan::Scratch,
    bytes: &[u8],
    events: &mut V,
    steps: &mut Steps<L>,
)
    requires alike { KeepsWhole (packing_of db.now) }
    requires kept { IsRegionOf db.now kept.old }
    requires ready { IsIdle scratch.old }
    requires scratch { ServesDatabase db.now scratch.old }
    requires room { region_offset kept.old + length bytes.now ≤ greatest_offset }
    requires states { AreStatesOf db.now states.old }
    ensures states { AreStatesOf db.now states.new }
    ensures kept { IsRegionOf db.now kept.new }
    ensures len { length kept.new ≡ length kept.old }
    ensures ready { IsIdle scratch.new }
    ensures scratch { ServesDatabase db.now scratch.new }
    ensures offset { region_offset kept.new ≡ region_offset kept.old + length bytes.now }
    ensures small { Each (λ b. b < 256) kept.new }
    ensures idle { bytes.now ≡ [] → (events.new ≡ events.old) × (kept.new ≡ kept.old) }
    ensures told { Takes V.tells events.old events.new (MayLead db.now kept.old kept.new bytes.now) }
    ensures ticks { steps.new ≤ steps.old + 48 * (length (nodes_of db.now) * length bytes.now) }
{
    if bytes.is_empty() {
        return;
    }
    let _packing = db.packing();
    run_bytes(db, kept, states, scratch, bytes, events, steps);
}

/// Takes such bytes over a region that is made of what is kept, and packed again.
fn write_packed<V: Events, L: Ledger>(
    db: &Database,
    kept: &mut [u8],
    region: &mut [u8],
    states: &mut hs_scan::NodeCache,
    scratch: &mut hs_scan::Scratch,
    bytes: &[u8],
    events: &mut V,
    steps: &mut Steps<L>,
)
    requires kept { IsRegionOf db.now kept.old }
    requires region { length region.old ≡ unpacked_size (packing_of db.now) }
    requires ready { IsIdle scratch.old }
    requires scratch { ServesDatabase db.now scratch.old }
    requires room { region_offset kept.old + length bytes.now ≤ greatest_offset }
    requires states { AreStatesOf db.now states.old }
    ensures states { AreStatesOf db.now states.new }
    ensures kept { IsRegionOf db.now kept.new }
    ensures len { length kept.new ≡ length kept.old }
    ensures region { length region.new ≡ length region.old }
    ensures ready { IsIdle scratch.new }
    ensures scratch { ServesDatabase db.now scratch.new }
    ensures offset { region_offset kept.new ≡ region_offset kept.old + length bytes.now }
    ensures small { Each (λ b. b < 256) kept.new }
    ensures idle { bytes.now ≡ [] → (events.new ≡ events.old) × (kept.new ≡ kept.old) }
    ensures told { Takes V.tells events.old events.new (MayLead db.now kept.old kept.new bytes.now) }
    ensures ticks { steps.new ≤ steps.old + 48 * (length (nodes_of db.now) * length bytes.now) }
{
    if bytes.is_empty() {
        return;
    }
    let packing = db.packing();
    packing.unpack(kept, region);
    run_bytes(db, region, states, scratch, bytes, events, steps);
    packing.pack(region, kept);
}

/// Reports what only the end of the stream of which that is kept decides, if it ends here. The region is made in bytes
/// that are there for it.
pub(crate) fn end_packed<V: Events, L: Ledger>(
    db: &Database,
    kept: &[u8],
    region: &mut [u8],
    scratch: &mut hs_scan::Scratch,
    events: &mut V,
    steps: &mut Steps<L>,
)
    requires kept { IsRegionOf db.now kept.now }
    requires region { length region.old ≡ unpacked_size (packing_of db.now) }
    requires ready { IsIdle scratch.old }
    requires scratch { ServesDatabase db.now scratch.old }
    ensures region { length region.new ≡ length region.old }
    ensures ready { IsIdle scratch.new }
    ensures scratch { ServesDatabase db.now scratch.new }
    ensures told { Takes V.tells events.old events.new (MayEnd db.now kept.now) }
    ensures ticks { steps.new ≤ steps.old + 16 * length (nodes_of db.now) }
    ensures whole { IsWholeDatabase db.now }
{
    db.packing().unpack(kept, region);
    run_end(db, region, scratch, events, steps);
}
