//! Whether bytes may be run as a region.

ghost use Rattle.std.specs.Prelude.{◌≡◌, ◌↔◌, ℕ, ◌<◌, ◌≤◌, IfSome, IsNone, IsTrue, Some, length, slice_get};
ghost use Rattle.hs_base.specs.RepeatRows.{IsRingAt};
ghost use Rattle.hs_layout.specs.Layouts.{laid_size};
ghost use Rattle.hs_run.specs.Chains.{AreParts};
ghost use Rattle.hs_run.specs.Faults.{IsFirstFault, IsPartFault};
ghost use Rattle.hs_run.specs.Feeding.{IsWellRegion};
ghost use Rattle.hs_run.specs.Pieces.{IsPart, IsSound};
ghost use Rattle.hs_run.specs.Programs.{FitsLayout, IsRunnable};

use crate::fields::role_at;
use crate::roles::{engine_of, literal_of};
use crate::way::Way;
use hs_bits::{BYTE_BITS, has_bit_in};
use hs_engine::Engine;
use hs_layout::Layout;
use hs_rose::{Program, Role};

/// Whether the row may be one of a literal of so many bytes at that offset: no bit is set that stands for nothing, or
/// for an entry before the stream's first byte.
fn is_row(row: &[u8], count: usize, at: u64) -> bool
    requires row { length row.now ≡ 4 }
    requires short { count ≤ 32 }
    ensures { IsTrue result ↔ IsRingAt count row.now at }
{
    let first = at.min(count as u64) as usize;
    !has_bit_in(row, first, BYTE_BITS * row.len())
}

/// Whether the bytes may be a region of the engine at that offset.
fn is_field<E: Engine>(engine: &E, part: &[u8], at: u64) -> bool
    requires { length part.now ≡ (E.meaning engine.now).width }
    ensures { IsTrue result ↔ (E.meaning engine.now).well part.now at }
{
    engine.well_formed(part, at)
}

/// Whether the bytes may be the field of a role at that offset.
fn is_part(role: &Role, program: &Program, part: &[u8], at: u64) -> bool
    requires sound { IsSound program.now role.now (length part.now) }
    ensures { IsTrue result ↔ IsPart program.now role.now part.now
        at }
{
    match Way::of(role) {
        Way::LookBack | Way::BareLiteral => true,
        Way::Literal => is_row(part, literal_of(role, program).len(), at),
        Way::Engine => is_field(engine_of(role, program), part, at),
    }
}

/// Where the first field begins that may not be that of its role at the offset. None: each may.
fn part_fault(program: &Program, layout: &Layout, region: &[u8], at: u64) -> Option<usize>
    requires runs { IsRunnable program.now }
    requires layout { FitsLayout program.now layout.now }
    requires sized { length region.now ≡ laid_size layout.now }
    ensures none { IsNone result ↔ AreParts program.now layout.now region.now 0 (length program.now.roles) at }
    ensures first { IfSome result (IsPartFault program.now layout.now region.now at) }
{
    for k in 0..program.roles().len() {
        if !is_part(role_at(program, k), program, layout.piece(region, k), at) {
            return Some(layout.place(k));
        }
    }
    None
}

/// Where the first field begins that breaks its rule: one of the header, or else that of a piece which may not stand at
/// the offset. None: bytes of that length may be run as a region.
pub fn first_fault(program: &Program, layout: &Layout, region: &[u8]) -> Option<usize>
    requires runs { IsRunnable program.now }
    requires layout { FitsLayout program.now layout.now }
    requires sized { length region.now ≡ laid_size layout.now }
    ensures none { IsNone result ↔ IsWellRegion program.now layout.now region.now }
    ensures first { IfSome result (IsFirstFault program.now layout.now region.now) }
{
    match layout.header_fault(region) {
        Some(at) => Some(at),
        None => part_fault(program, layout, region, layout.offset(region)),
    }
}

/// Whether the bytes may be a region of the program: they have its length, and its header and each field keep to their
/// rules.
pub fn well_formed(program: &Program, layout: &Layout, region: &[u8]) -> bool
    requires runs { IsRunnable program.now }
    requires layout { FitsLayout program.now layout.now }
    ensures { IsTrue result ↔ IsWellRegion program.now layout.now region.now }
{
    if region.len() != layout.size() {
        return false;
    }
    first_fault(program, layout, region).is_none()
}
