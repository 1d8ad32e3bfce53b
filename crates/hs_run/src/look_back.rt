//! Pieces that look back: they are asked anew, from the last bytes, where the literal behind them ends.

ghost use Rattle.std.specs.Prelude.{◌≡◌, ℕ, ◌+◌, ◌-◌, ◌<◌, ◌≤◌, ◌^◌, length, Some, slice_get};
ghost use Rattle.hs_base.specs.Regions.{history_size};
ghost use Rattle.hs_run.specs.Looking.{LeavesBack, LeavesLooked, RunsBack};
ghost use Rattle.hs_run.specs.Programs.{HasWindow, IsChainSound, window_room};
ghost use Rattle.hs_run.specs.declared.way.Way.TheVariants as way;
ghost use Rattle.hs_run.specs.Ways.{way_of};

use crate::fields::role_at;
use crate::literals::ends_here;
use crate::roles::{all_if, engine_of, go_on, literal_of};
use crate::spot::{Spot, prev_behind};
use hs_base::{Next, NextSet, Prev};
use hs_engine::{Engine, Steps};
use hs_layout::HISTORY_SIZE;
use hs_rose::{ChainInfo, Program, Role};
use std::sync::ledger::Ledger;

/// The most bytes of the region of an engine that looks back.
pub(crate) const WINDOW_ROOM: usize = 64;

/// The most bytes of a piece that looks back.
const WINDOW: usize = 16;

/// Runs the engine over the last bytes of those that came more than `back` bytes ago, entered before each of them.
/// Answers what stands behind them.
fn run_back<E: Engine, L: Ledger>(
    engine: &E,
    part: &mut [u8],
    spot: &Spot,
    back: usize,
    steps: &mut Steps<L>,
) -> Prev
    requires len { length part.old ≡ (E.meaning engine.now).width }
    requires back { back ≤ 32 }
    requires within { back ≤ spot.now.at }
    requires room { spot.now.at < 2 ^ 63 }
    requires whole { length spot.now.history ≡ history_size }
    ensures len { length part.new ≡ length part.old }
    ensures well { (E.meaning engine.now).well part.new (spot.now.at - back) }
    ensures runs { RunsBack (E.meaning engine.now) spot.now back part.new result }
    ensures ticks { steps.new ≤ steps.old + 16 }
{
    let seen = WINDOW.min(spot.at as usize - back);
    let begin = HISTORY_SIZE - back - seen;
    let from = spot.at - (back + seen) as u64;
    engine.clear(part);
    let _is_at_rest = engine.at_rest(part);
    let mut prev = prev_behind(from, spot.history[begin - 1]);
    for i in 0..seen {
        let byte = spot.history[begin + i];
        engine.step(part, prev, from + i as u64, NextSet::all(), byte, steps);
        prev = Prev::behind(byte);
    }
    prev
}

/// What may come next where the piece of a role that looks back is left, more than `back` bytes ago.
fn leave_back<L: Ledger>(
    role: &Role,
    program: &Program,
    spot: &Spot,
    back: usize,
    window: &mut [u8],
    steps: &mut Steps<L>,
) -> NextSet
    requires sound { HasWindow program.now role.now }
    requires window { length window.old ≡ window_room }
    requires back { back ≤ 32 }
    requires within { back ≤ spot.now.at }
    requires room { spot.now.at < 2 ^ 63 }
    requires whole { length spot.now.history ≡ history_size }
    ensures window { length window.new ≡ length window.old }
    ensures leaves { LeavesBack program.now role.now spot.now back result }
    ensures ticks { steps.new ≤ steps.old + 16 }
{
    let engine = engine_of(role, program);
    let part = &mut window[..engine.size()];
    let prev = run_back(engine, part, spot, back, steps);
    let out = engine.out(part, prev, spot.at - back as u64);
    go_on(out, role.null(), prev, NextSet::all())
}

/// What may come next where a first piece that looks back and the literal behind it are left: the literal ends here,
/// and the piece is left before it.
pub(crate) fn leave_looked_back<L: Ledger>(
    program: &Program,
    chain: &ChainInfo,
    spot: &Spot,
    window: &mut [u8],
    steps: &mut Steps<L>,
) -> NextSet
    requires sound { IsChainSound program.now chain.now }
    requires some { chain.now.first < chain.now.end }
    requires looks_back { (r : Role) → slice_get program.now.roles chain.now.first ≡ Some r →
        way_of r ≡ way.LookBack }
    requires window { length window.old ≡ window_room }
    requires room { spot.now.at < 2 ^ 63 }
    requires whole { length spot.now.history ≡ history_size }
    ensures window { length window.new ≡ length window.old }
    ensures leaves { LeavesLooked program.now chain.now.first spot.now result }
    ensures ticks { steps.new ≤ steps.old + 16 }
{
    let literal = literal_of(role_at(program, chain.first + 1), program);
    if !ends_here(literal, spot) {
        return NextSet::empty();
    }
    let back = literal.len();
    let before = leave_back(
        role_at(program, chain.first),
        program,
        spot,
        back,
        window,
        steps,
    );
    let byte = spot.history[HISTORY_SIZE - back];
    all_if(before.contains(Next::class_of(byte)))
}
