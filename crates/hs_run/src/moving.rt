//! All chains of a program over one byte, and at the end of a stream: where matches of each identifier end.

ghost use Rattle.std.specs.Prelude.{◌≡◌, ℕ, ◌+◌, ◌*◌, ◌-◌, ◌<◌, ◌≤◌, ◌^◌, List, [], ◌∷◌, ◌++◌, length, Some, slice_get};
ghost use Rattle.hs_base.specs.Regions.{history_size};
ghost use Rattle.hs_layout.specs.Layouts.{laid_size};
ghost use Rattle.hs_run.specs.Chains.{AreParts, AreWritten};
ghost use Rattle.hs_run.specs.Ends.{EndsChain, EndsChains, IsWithinBounds, MovesChain, MovesChains, ends_of};
ghost use Rattle.hs_run.specs.Programs.{FitsLayout, IsChainSound, IsRunnable, window_room};
ghost use Rattle.hs_run.specs.Spots.{IsSpot};

use crate::chains::{leave_chain, step_chain};
use crate::ends::{Ends, forget};
use crate::spot::{Arrival, Spot};
use hs_base::NextSet;
use hs_engine::{Engine, Steps};
use hs_layout::Layout;
use hs_rose::{ChainInfo, EntryInfo, Program};
use std::sync::ledger::Ledger;

/// What may come next where a chain is left, if a match may end at that offset.
fn within_bounds(entry: &EntryInfo, at: u64, left: NextSet) -> NextSet
    ensures { IsWithinBounds entry.now at left result }
{
    if at < entry.min_offset || entry.max_offset < at {
        return NextSet::empty();
    }
    left
}

/// Takes a byte for one chain, and adds where its matches end about it to the ends.
fn move_chain<L: Ledger>(
    program: &Program,
    layout: &Layout,
    region: &mut [u8],
    chain: &ChainInfo,
    arrival: &Arrival,
    window: &mut [u8],
    ends: &mut Ends,
    steps: &mut Steps<L>,
)
    requires runs { IsRunnable program.now }
    requires sound { IsChainSound program.now chain.now }
    requires fits { FitsLayout program.now layout.now }
    requires sized { length region.old ≡ laid_size layout.now }
    requires parts { AreParts program.now layout.now region.old chain.now.first chain.now.end
        arrival.now.spot.at }
    requires room { arrival.now.behind.at < 2 ^ 63 }
    requires next { arrival.now.behind.at ≡ arrival.now.spot.at + 1 }
    requires stands { (u : List ℕ) → IsSpot u arrival.now.spot → IsSpot (u ++ arrival.now.byte ∷ [])
        arrival.now.behind }
    requires window { length window.old ≡ window_room }
    requires whole { length arrival.now.spot.history ≡ history_size }
    requires whole_behind { length arrival.now.behind.history ≡ history_size }
    ensures window { length window.new ≡ length window.old }
    ensures written { AreWritten layout.now chain.now.first chain.now.end region.old region.new }
    ensures parts { AreParts program.now layout.now region.new chain.now.first chain.now.end
        (arrival.now.spot.at + 1) }
    ensures moves { MovesChain program.now layout.now chain.now region.old region.new arrival.now.spot
        arrival.now.byte
        (ends_of ends.old) (ends_of ends.new) }
    ensures ticks { steps.new ≤ steps.old + 16 * (chain.now.end - chain.now.first) }
{
    let left = step_chain(
        program,
        layout,
        region,
        chain,
        &arrival.spot,
        arrival.byte,
        window,
        steps,
    );
    let left_behind = leave_chain(
        program,
        layout,
        region,
        chain,
        &arrival.behind,
        window,
        steps,
    );
    let entry = entry_of(program, chain);
    ends.note(
        arrival.byte,
        within_bounds(entry, arrival.spot.at, left),
        within_bounds(entry, arrival.behind.at, left_behind),
    );
}

/// The entry of a chain.
fn entry_of<'p>(program: &'p Program, chain: &ChainInfo) -> &'p EntryInfo
    requires some { 1 ≤ chain.now.entry }
    requires there { chain.now.entry ≤ length program.now.entries }
    ensures { slice_get program.now.entries (chain.now.entry - 1) ≡ Some result.now }
{
    &program.entries()[chain.entry as usize - 1]
}

/// The chain of that number.
fn chain_at(program: &Program, j: usize) -> &ChainInfo
    requires there { j < length program.now.chains }
    ensures { slice_get program.now.chains j ≡ Some result.now }
{
    &program.chains()[j]
}

/// Takes a byte for every chain, and notes where matches of each identifier end about it.
pub(crate) fn move_chains<L: Ledger>(
    program: &Program,
    layout: &Layout,
    region: &mut [u8],
    arrival: &Arrival,
    window: &mut [u8],
    ends: &mut [Ends],
    steps: &mut Steps<L>,
)
    requires runs { IsRunnable program.now }
    requires fits { FitsLayout program.now layout.now }
    requires sized { length region.old ≡ laid_size layout.now }
    requires parts { AreParts program.now layout.now region.old 0 (length program.now.roles)
        arrival.now.spot.at }
    requires room { arrival.now.behind.at < 2 ^ 63 }
    requires next { arrival.now.behind.at ≡ arrival.now.spot.at + 1 }
    requires stands { (u : List ℕ) → IsSpot u arrival.now.spot → IsSpot (u ++ arrival.now.byte ∷ [])
        arrival.now.behind }
    requires window { length window.old ≡ window_room }
    requires whole { length arrival.now.spot.history ≡ history_size }
    requires whole_behind { length arrival.now.behind.history ≡ history_size }
    requires ends { length ends.old ≡ length program.now.identifiers }
    ensures window { length window.new ≡ length window.old }
    ensures ends { length ends.new ≡ length ends.old }
    ensures written { AreWritten layout.now 0 (length program.now.roles) region.old region.new }
    ensures parts { AreParts program.now layout.now region.new 0 (length program.now.roles)
        (arrival.now.spot.at + 1) }
    ensures moves { MovesChains program.now layout.now region.old region.new arrival.now.spot
        arrival.now.byte ends.new }
    ensures ticks { steps.new ≤ steps.old + 16 * length program.now.roles }
{
    forget(ends);
    for j in 0..program.chains().len() {
        let chain = chain_at(program, j);
        move_chain(
            program,
            layout,
            region,
            chain,
            arrival,
            window,
            &mut ends[entry_of(program, chain).identifier as usize],
            steps,
        );
    }
}

/// Adds to the ends whether a match of a chain ends, if the stream ends here.
fn end_chain<L: Ledger>(
    program: &Program,
    layout: &Layout,
    region: &[u8],
    chain: &ChainInfo,
    spot: &Spot,
    window: &mut [u8],
    ends: &mut Ends,
    steps: &mut Steps<L>,
)
    requires runs { IsRunnable program.now }
    requires sound { IsChainSound program.now chain.now }
    requires fits { FitsLayout program.now layout.now }
    requires sized { length region.now ≡ laid_size layout.now }
    requires parts { AreParts program.now layout.now region.now chain.now.first chain.now.end spot.now.at }
    requires room { spot.now.at < 2 ^ 63 }
    requires window { length window.old ≡ window_room }
    requires whole { length spot.now.history ≡ history_size }
    ensures window { length window.new ≡ length window.old }
    ensures ends { EndsChain program.now layout.now chain.now region.now spot.now
        ends.old.behind ends.new.behind }
    ensures ticks { steps.new ≤ steps.old + 8 * (chain.now.end - chain.now.first) }
{
    let left = leave_chain(program, layout, region, chain, spot, window, steps);
    let entry = entry_of(program, chain);
    ends.note_end(within_bounds(entry, spot.at, left));
}

/// Notes of each identifier whether a match of it ends, if the stream ends here.
pub(crate) fn end_chains<L: Ledger>(
    program: &Program,
    layout: &Layout,
    region: &[u8],
    spot: &Spot,
    window: &mut [u8],
    ends: &mut [Ends],
    steps: &mut Steps<L>,
)
    requires runs { IsRunnable program.now }
    requires fits { FitsLayout program.now layout.now }
    requires sized { length region.now ≡ laid_size layout.now }
    requires parts { AreParts program.now layout.now region.now 0 (length program.now.roles)
        spot.now.at }
    requires room { spot.now.at < 2 ^ 63 }
    requires window { length window.old ≡ window_room }
    requires whole { length spot.now.history ≡ history_size }
    requires ends { length ends.old ≡ length program.now.identifiers }
    ensures window { length window.new ≡ length window.old }
    ensures ends { length ends.new ≡ length ends.old }
    ensures about { EndsChains program.now layout.now region.now spot.now ends.new }
    ensures ticks { steps.new ≤ steps.old + 8 * length program.now.roles }
{
    forget(ends);
    for j in 0..program.chains().len() {
        let chain = chain_at(program, j);
        end_chain(
            program,
            layout,
            region,
            chain,
            spot,
            window,
            &mut ends[entry_of(program, chain).identifier as usize],
            steps,
        );
    }
}
