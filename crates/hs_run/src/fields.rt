//! One role over one byte, with its field in the region.

ghost use Rattle.std.specs.Prelude.{◌≡◌, ℕ, ◌+◌, ◌<◌, ◌≤◌, ◌^◌, length, Some, slice_get};
ghost use Rattle.hs_layout.specs.Layouts.{field_bytes, laid_size};
ghost use Rattle.hs_run.specs.Chains.{AreWritten};
ghost use Rattle.hs_run.specs.Pieces.{GoesOn, IsPart, KeepsOn};
ghost use Rattle.hs_run.specs.Programs.{FitsLayout, IsRunnable};

use crate::roles::{leave_role, step_role};
use crate::spot::Spot;
use hs_base::NextSet;
use hs_engine::{Engine, Steps};
use hs_layout::Layout;
use hs_rose::{Program, Role};
use std::sync::ledger::Ledger;

/// The role of that number.
pub(crate) fn role_at(program: &Program, k: usize) -> &Role
    requires there { k < length program.now.roles }
    ensures is { slice_get program.now.roles k ≡ Some result.now }
    ensures small { k + 1 < 2 ^ 64 }
{
    &program.roles()[k]
}

/// What may come next where the pieces up to that of the role of that number are left, if `now` may where those before
/// it are.
pub(crate) fn leave_at(
    program: &Program,
    layout: &Layout,
    region: &[u8],
    k: usize,
    spot: &Spot,
    now: NextSet,
) -> NextSet
    requires runs { IsRunnable program.now }
    requires fits { FitsLayout program.now layout.now }
    requires sized { length region.now ≡ laid_size layout.now }
    requires there { k < length program.now.roles }
    requires part { (r : Role) → slice_get program.now.roles k ≡ Some r →
        IsPart program.now r (field_bytes layout.now region.now k) spot.now.at }
    ensures { (r : Role) → slice_get program.now.roles k ≡ Some r →
        GoesOn program.now r (field_bytes layout.now region.now k) spot.now now result }
{
    leave_role(
        role_at(program, k),
        program,
        layout.piece(region, k),
        spot,
        now,
    )
}

/// Takes a byte for the role of that number, and answers as `leave_at`, of before the byte.
pub(crate) fn step_at<L: Ledger>(
    program: &Program,
    layout: &Layout,
    region: &mut [u8],
    k: usize,
    spot: &Spot,
    byte: u8,
    now: NextSet,
    steps: &mut Steps<L>,
) -> NextSet
    requires runs { IsRunnable program.now }
    requires fits { FitsLayout program.now layout.now }
    requires sized { length region.old ≡ laid_size layout.now }
    requires there { k < length program.now.roles }
    requires part { (r : Role) → slice_get program.now.roles k ≡ Some r →
        IsPart program.now r (field_bytes layout.now region.old k) spot.now.at }
    requires room { spot.now.at < 2 ^ 63 }
    ensures written { AreWritten layout.now k (k + 1) region.old region.new }
    ensures part { (r : Role) → slice_get program.now.roles k ≡ Some r →
        IsPart program.now r (field_bytes layout.now region.new k) (spot.now.at + 1) }
    ensures leaves { (r : Role) → slice_get program.now.roles k ≡ Some r →
        GoesOn program.now r (field_bytes layout.now region.old k) spot.now now result }
    ensures keeps { (r : Role) → slice_get program.now.roles k ≡ Some r →
        KeepsOn program.now r (field_bytes layout.now region.old k) (field_bytes layout.now region.new k)
        spot.now byte now }
    ensures ticks { steps.new ≤ steps.old + 1 }
{
    step_role(
        role_at(program, k),
        program,
        &mut region[layout.place(k)..layout.place(k + 1)],
        spot,
        byte,
        now,
        steps,
    )
}
