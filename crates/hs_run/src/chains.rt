//! One chain over one byte: where it is left, and its fields behind the byte.

ghost use Rattle.std.specs.Prelude.{◌≡◌, ◌↔◌, true, ℕ, ◌+◌, ◌*◌, ◌-◌, ◌<◌, ◌≤◌, ◌^◌, length, Some, slice_get};
ghost use Rattle.hs_base.specs.Regions.{history_size};
ghost use Rattle.hs_layout.specs.Layouts.{laid_size};
ghost use Rattle.hs_run.specs.Chains.{AreParts, AreWritten, BeginsChain, LeavesChain, StepsChain};
ghost use Rattle.hs_run.specs.Programs.{FirstLooksBack, FitsLayout, HasNoField, IsChainSound, IsRunnable, window_room};

use crate::fields::{leave_at, role_at, step_at};
use crate::look_back::leave_looked_back;
use crate::spot::Spot;
use crate::way::looks_back;
use hs_base::NextSet;
use hs_engine::{Engine, Steps};
use hs_layout::Layout;
use hs_rose::{ChainInfo, Program, Role};
use std::sync::ledger::Ledger;

/// The pieces of a chain that are told together are gone through.
#[derive(Clone, Copy, Debug)]
pub(crate) struct Begun {
    /// What may come next where they are left.
    pub now: NextSet,
    /// The number of the role behind them.
    pub next: usize,
}

/// Whether the first piece of a chain looks back.
fn begins_back(program: &Program, chain: &ChainInfo) -> bool
    requires within { chain.now.end ≤ length program.now.roles }
    ensures { (result ≡ true) ↔ FirstLooksBack program.now chain.now }
{
    if chain.first >= chain.end {
        return false;
    }
    looks_back(role_at(program, chain.first))
}

/// Begins a chain: no piece is left everywhere, and a piece that looks back is told with the literal behind it.
fn begin_chain<L: Ledger>(
    program: &Program,
    chain: &ChainInfo,
    spot: &Spot,
    window: &mut [u8],
    steps: &mut Steps<L>,
) -> Begun
    requires runs { IsRunnable program.now }
    requires sound { IsChainSound program.now chain.now }
    requires window { length window.old ≡ window_room }
    requires room { spot.now.at < 2 ^ 63 }
    requires whole { length spot.now.history ≡ history_size }
    ensures window { length window.new ≡ length window.old }
    ensures low { chain.now.first ≤ result.next }
    ensures high { result.next ≤ chain.now.end }
    ensures bare { (k : ℕ) (r : Role) → chain.now.first ≤ k → k < result.next →
        slice_get program.now.roles k ≡ Some r → HasNoField r }
    ensures begins { BeginsChain program.now chain.now spot.now result }
    ensures ticks { steps.new ≤ steps.old + 8 * (result.next - chain.now.first) }
{
    if begins_back(program, chain) {
        return Begun {
            now: leave_looked_back(program, chain, spot, window, steps),
            next: chain.first + 2,
        };
    }
    Begun {
        now: NextSet::all(),
        next: chain.first,
    }
}

/// What may come next where a chain is left.
pub(crate) fn leave_chain<L: Ledger>(
    program: &Program,
    layout: &Layout,
    region: &[u8],
    chain: &ChainInfo,
    spot: &Spot,
    window: &mut [u8],
    steps: &mut Steps<L>,
) -> NextSet
    requires runs { IsRunnable program.now }
    requires sound { IsChainSound program.now chain.now }
    requires fits { FitsLayout program.now layout.now }
    requires sized { length region.now ≡ laid_size layout.now }
    requires parts { AreParts program.now layout.now region.now chain.now.first chain.now.end spot.now.at }
    requires room { spot.now.at < 2 ^ 63 }
    requires window { length window.old ≡ window_room }
    requires whole { length spot.now.history ≡ history_size }
    ensures window { length window.new ≡ length window.old }
    ensures leaves { LeavesChain program.now layout.now chain.now region.now spot.now result }
    ensures ticks { steps.new ≤ steps.old + 8 * (chain.now.end - chain.now.first) }
{
    let begun = begin_chain(program, chain, spot, window, steps);
    let mut now = begun.now;
    for k in begun.next..chain.end {
        now = leave_at(program, layout, region, k, spot, now);
    }
    now
}

/// Takes a byte for each role of a chain, and answers as `leave_chain`, of before the byte.
pub(crate) fn step_chain<L: Ledger>(
    program: &Program,
    layout: &Layout,
    region: &mut [u8],
    chain: &ChainInfo,
    spot: &Spot,
    byte: u8,
    window: &mut [u8],
    steps: &mut Steps<L>,
) -> NextSet
    requires runs { IsRunnable program.now }
    requires sound { IsChainSound program.now chain.now }
    requires fits { FitsLayout program.now layout.now }
    requires sized { length region.old ≡ laid_size layout.now }
    requires parts { AreParts program.now layout.now region.old chain.now.first chain.now.end spot.now.at }
    requires room { spot.now.at < 2 ^ 63 }
    requires window { length window.old ≡ window_room }
    requires whole { length spot.now.history ≡ history_size }
    ensures window { length window.new ≡ length window.old }
    ensures written { AreWritten layout.now chain.now.first chain.now.end region.old region.new }
    ensures parts { AreParts program.now layout.now region.new chain.now.first chain.now.end
        (spot.now.at + 1) }
    ensures leaves { LeavesChain program.now layout.now chain.now region.old spot.now result }
    ensures steps { StepsChain program.now layout.now chain.now region.old region.new spot.now byte }
    ensures ticks { steps.new ≤ steps.old + 8 * (chain.now.end - chain.now.first) }
{
    let begun = begin_chain(program, chain, spot, window, steps);
    let mut now = begun.now;
    for k in begun.next..chain.end {
        now = step_at(program, layout, region, k, spot, byte, now, steps);
    }
    now
}
