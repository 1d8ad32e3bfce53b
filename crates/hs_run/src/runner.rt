//! The runner: bytes to reports, byte by byte over all roles of a program.

ghost use Rattle.std.specs.Prelude.{◌≡◌, ℕ, ◌+◌, ◌*◌, ◌<◌, ◌≤◌, ◌^◌, [], ◌∷◌, length};
ghost use Rattle.hs_base.specs.Offsets.{greatest_offset};
ghost use Rattle.hs_base.specs.Regions.{IsHeader, region_offset};
ghost use Rattle.hs_reports.specs.Events.{Takes};
ghost use Rattle.hs_run.specs.Feeding.{EndsAlike, Feeds, Finishes, FitsRegion, GoesOnAlike, IsWellRegion};
ghost use Rattle.hs_run.specs.Programs.{FitsLayout, IsRunnable};
ghost use Rattle.hs_run.specs.Scratches.{FitsScratch};

use crate::kept::read_kept;
use crate::moving::{end_chains, move_chains};
use crate::reporting::{Moment, report};
use crate::scratch::Scratch;
use crate::settling::settle_bits;
use crate::spot::{Arrival, Spot};
use hs_engine::{Engine, Steps};
use hs_layout::Layout;
use hs_reports::Events;
use hs_rose::{Identifier, Program};
use std::sync::ledger::Ledger;

/// Takes a byte of the stream of a region, and reports what it decides.
fn feed_byte<V: Events, L: Ledger>(
    program: &Program,
    layout: &Layout,
    region: &mut [u8],
    scratch: &mut Scratch,
    byte: u8,
    events: &mut V,
    steps: &mut Steps<L>,
)
    requires runs { IsRunnable program.now }
    requires layout { FitsLayout program.now layout.now }
    requires region { FitsRegion program.now layout.now region.old }
    requires scratch { FitsScratch program.now scratch.old }
    requires room { region_offset region.old + 1 ≤ greatest_offset }
    ensures region { FitsRegion program.now layout.now region.new }
    ensures scratch { FitsScratch program.now scratch.new }
    ensures offset { region_offset region.new ≡ region_offset region.old + 1 }
    ensures header { IsHeader layout.now.singles layout.now.identifiers region.old →
        IsHeader layout.now.singles layout.now.identifiers region.new }
    ensures taken { Takes V.tells events.old events.new
        (Feeds program.now region.old region.new (byte ∷ [])) }
    ensures ticks { steps.new ≤ steps.old + 16 * length program.now.roles }
{
    let spot = Spot::of(layout, region);
    let behind = spot.behind(byte);
    let arrival = Arrival { spot, behind, byte };
    move_chains(
        program,
        layout,
        region,
        &arrival,
        &mut scratch.window,
        &mut scratch.ends,
        steps,
    );
    settle_bits(
        layout,
        region,
        program.identifiers(),
        &scratch.ends,
        &mut scratch.kept,
        arrival.spot.at,
        events,
    );
    layout.set_history(region, &arrival.behind.history);
    layout.set_offset(region, arrival.behind.at);
}

/// Takes the next bytes of the stream of a region, and reports what they decide, in the order in which they do. The
/// offset stays a number that a stream may have.
pub fn feed<V: Events, L: Ledger>(
    program: &Program,
    layout: &Layout,
    region: &mut [u8],
    scratch: &mut Scratch,
    bytes: &[u8],
    events: &mut V,
    steps: &mut Steps<L>,
)
    requires runs { IsRunnable program.now }
    requires layout { FitsLayout program.now layout.now }
    requires region { FitsRegion program.now layout.now region.old }
    requires scratch { FitsScratch program.now scratch.old }
    requires room { region_offset region.old + length bytes.now ≤ greatest_offset }
    ensures region { FitsRegion program.now layout.now region.new }
    ensures scratch { FitsScratch program.now scratch.new }
    ensures well { IsWellRegion program.now layout.now region.old →
        IsWellRegion program.now layout.now region.new }
    ensures offset { region_offset region.new ≡ region_offset region.old + length bytes.now }
    ensures taken { Takes V.tells events.old events.new
        (Feeds program.now region.old region.new bytes.now) }
    ensures alike { GoesOnAlike program.now region.old bytes.now }
    ensures ticks { steps.new ≤ steps.old + 16 * (length program.now.roles * length bytes.now) }
{
    for place in 0..bytes.len() {
        feed_byte(
            program,
            layout,
            region,
            scratch,
            bytes[place],
            events,
            steps,
        );
    }
}

/// Reports what only the end of the stream decides, if it ends here. The region stays as it is.
pub fn finish<V: Events, L: Ledger>(
    program: &Program,
    layout: &Layout,
    region: &[u8],
    scratch: &mut Scratch,
    events: &mut V,
    steps: &mut Steps<L>,
)
    requires runs { IsRunnable program.now }
    requires layout { FitsLayout program.now layout.now }
    requires region { FitsRegion program.now layout.now region.now }
    requires scratch { FitsScratch program.now scratch.old }
    requires room { region_offset region.now ≤ greatest_offset }
    ensures scratch { FitsScratch program.now scratch.new }
    ensures taken { Takes V.tells events.old events.new (Finishes program.now region.now) }
    ensures alike { EndsAlike program.now region.now }
    ensures ticks { steps.new ≤ steps.old + 8 * length program.now.roles }
{
    let spot = Spot::of(layout, region);
    end_chains(
        program,
        layout,
        region,
        &spot,
        &mut scratch.window,
        &mut scratch.ends,
        steps,
    );
    let identifiers: &[Identifier] = program.identifiers();
    read_kept(layout, region, identifiers, &mut scratch.kept);
    report(
        Moment::BeforeLastByte,
        identifiers,
        &scratch.kept,
        &scratch.ends,
        spot.at.saturating_sub(1),
        events,
    );
    report(
        Moment::AtEnd,
        identifiers,
        &scratch.kept,
        &scratch.ends,
        spot.at,
        events,
    );
}
