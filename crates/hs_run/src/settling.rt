//! What one byte settles of the identifiers, in a region.

ghost use Rattle.std.specs.Prelude.{◌≡◌, ◌+◌, ◌<◌, ◌^◌, length};
ghost use Rattle.hs_layout.specs.Layouts.{laid_size};
ghost use Rattle.hs_reports.specs.Events.{Takes};
ghost use Rattle.hs_run.specs.Feeding.{SettlesBits};
ghost use Rattle.hs_run.specs.Keeping.{HasBits};

use crate::ends::Ends;
use crate::kept::{Kept, read_kept, write_kept};
use crate::reporting::{Moment, report, settle};
use hs_layout::Layout;
use hs_reports::Events;
use hs_rose::Identifier;

/// Reports the pairs that a byte at the offset `at` decides, those that end before it and then those that end behind
/// it, each by identifier, and writes into the region what it settles. `kept` is room for what is kept of them.
pub(crate) fn settle_bits<V: Events>(
    layout: &Layout,
    region: &mut [u8],
    identifiers: &[Identifier],
    ends: &[Ends],
    kept: &mut [Kept],
    at: u64,
    events: &mut V,
)
    requires sized { length region.old ≡ laid_size layout.now }
    requires bits { HasBits layout.now identifiers.now }
    requires few { length identifiers.now < 2 ^ 32 }
    requires ends { length ends.now ≡ length identifiers.now }
    requires kept { length kept.old ≡ length identifiers.now }
    requires room { at < 2 ^ 63 }
    ensures kept { length kept.new ≡ length kept.old }
    ensures len { length region.new ≡ length region.old }
    ensures settled { Takes V.tells events.old events.new
        (SettlesBits layout.now identifiers.now ends.now region.old region.new at) }
{
    read_kept(layout, region, identifiers, kept);
    report(Moment::BeforeByte, identifiers, kept, ends, at, events);
    report(Moment::BehindByte, identifiers, kept, ends, at + 1, events);
    settle(identifiers, kept, ends);
    write_kept(layout, region, identifiers, kept);
}
