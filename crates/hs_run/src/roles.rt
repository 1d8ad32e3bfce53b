//! One role over one byte: what leaves its piece, and its field behind the byte.

ghost use Rattle.std.specs.Prelude.{◌≡◌, ◌↔◌, ℕ, ◌+◌, ◌<◌, ◌≤◌, ◌^◌, Bool, true, false, ◌||◌, ◌&&◌, length, map, Some};
ghost use Rattle.std.specs.Prelude.{slice_get};
ghost use Rattle.hs_base.specs.declared.context.Next.{Next};
ghost use Rattle.hs_base.specs.ContextSets.{has_context, has_next};
ghost use Rattle.hs_base.specs.LiteralView.{literal_byte};
ghost use Rattle.hs_run.specs.Pieces.{GoesOn, IsPart, IsSound, KeepsOn, TellsOut};

use crate::literals::{ends_here, is_completed, shift_entries};
use crate::spot::Spot;
use crate::way::Way;
use hs_base::{LitByte, Mask, Next, NextSet, Prev};
use hs_engine::{Engine, Steps};
use hs_rose::{PieceEngine, Program, Role};
use std::sync::ledger::Ledger;

/// Whatever comes next, or nothing.
pub(crate) fn all_if(holds: bool) -> NextSet
    ensures { (next : Next) → has_next result next ≡ holds }
{
    if holds {
        NextSet::all()
    } else {
        NextSet::empty()
    }
}

/// What may come next where pieces are left, if `now` may where those before the last one are left, and `out` where
/// that one is left after at least one byte; it has the empty span in the contexts of `null`.
pub(crate) fn go_on(out: NextSet, null: Mask, prev: Prev, now: NextSet) -> NextSet
    ensures { (next : Next) → has_next result next ≡
        (has_next out next || (has_context null (record { prev = prev; next = next }) && has_next now next)) }
{
    out.union(null.row(prev).intersection(now))
}

/// The engine of a role.
pub(crate) fn engine_of<'e>(role: &Role, program: &'e Program) -> &'e PieceEngine
    requires there { role.now.number < length program.now.engines }
    ensures { slice_get program.now.engines role.now.number ≡ Some result.now }
{
    &program.engines()[role.number()]
}

/// The literal of a role.
pub(crate) fn literal_of<'l>(role: &Role, program: &'l Program) -> &'l [LitByte]
    requires there { role.now.number < length program.now.literals }
    ensures { slice_get program.now.literals role.now.number ≡ Some (map literal_byte result.now) }
{
    &program.literals()[role.number()]
}

/// What may come next where the piece of a role is left after at least one byte.
fn out_of(role: &Role, program: &Program, part: &[u8], spot: &Spot) -> NextSet
    requires sound { IsSound program.now role.now (length part.now) }
    requires well { IsPart program.now role.now part.now
        spot.now.at }
    ensures { TellsOut program.now role.now part.now spot.now
        result }
{
    match Way::of(role) {
        Way::LookBack => NextSet::empty(),
        Way::BareLiteral => all_if(ends_here(literal_of(role, program), spot)),
        Way::Literal => all_if(is_completed(literal_of(role, program), part, spot)),
        Way::Engine => engine_of(role, program).out(part, spot.prev, spot.at),
    }
}

/// What may come next where the pieces up to that of a role are left, if `now` may where those before it are.
pub(crate) fn leave_role(
    role: &Role,
    program: &Program,
    part: &[u8],
    spot: &Spot,
    now: NextSet,
) -> NextSet
    requires sound { IsSound program.now role.now (length part.now) }
    requires well { IsPart program.now role.now part.now
        spot.now.at }
    ensures { GoesOn program.now role.now part.now spot.now now
        result }
{
    let out = out_of(role, program, part, spot);
    go_on(out, role.null(), spot.prev, now)
}

/// Takes a byte for the field of a role, whose piece is entered before it if `now` has its class.
fn move_part<L: Ledger>(
    role: &Role,
    program: &Program,
    part: &mut [u8],
    spot: &Spot,
    byte: u8,
    now: NextSet,
    steps: &mut Steps<L>,
)
    requires sound { IsSound program.now role.now (length part.old) }
    requires well { IsPart program.now role.now part.old
        spot.now.at }
    requires room { spot.now.at < 2 ^ 63 }
    ensures len { length part.new ≡ length part.old }
    ensures well { IsPart program.now role.now part.new
        (spot.now.at + 1) }
    ensures keeps { KeepsOn program.now role.now part.old part.new
        spot.now byte now }
    ensures ticks { steps.new ≤ steps.old + 1 }
{
    match Way::of(role) {
        Way::LookBack | Way::BareLiteral => {}
        Way::Literal => shift_entries(
            part,
            literal_of(role, program).len(),
            now.contains(Next::class_of(byte)),
        ),
        Way::Engine => { engine_of(role, program).step(part, spot.prev, spot.at, now, byte, steps) }
    }
}

/// Takes a byte for one role, and answers as `leave_role`, of before the byte.
pub(crate) fn step_role<L: Ledger>(
    role: &Role,
    program: &Program,
    part: &mut [u8],
    spot: &Spot,
    byte: u8,
    now: NextSet,
    steps: &mut Steps<L>,
) -> NextSet
    requires sound { IsSound program.now role.now (length part.old) }
    requires well { IsPart program.now role.now part.old
        spot.now.at }
    requires room { spot.now.at < 2 ^ 63 }
    ensures len { length part.new ≡ length part.old }
    ensures well { IsPart program.now role.now part.new
        (spot.now.at + 1) }
    ensures leaves { GoesOn program.now role.now part.old spot.now
        now result }
    ensures keeps { KeepsOn program.now role.now part.old part.new
        spot.now byte now }
    ensures ticks { steps.new ≤ steps.old + 1 }
{
    let left = leave_role(role, program, part, spot, now);
    move_part(role, program, part, spot, byte, now, steps);
    left
}
