//! Numbers as a graph keeps them.

ghost use Rattle.std.specs.Prelude.{◌≡◌, ◌^◌, ◌<◌, IfOk};

use std::alloc::AllocError;

/// The number as a graph keeps it. One that is too large for that is want of memory too.
pub(crate) fn graph_number(number: usize) -> Result<u32, AllocError>
    ensures is { IfOk result (λ own. own ≡ number) }
    ensures few { IfOk result (λ own. own < 2 ^ 32) }
{
    if number > u32::MAX as usize {
        return Err(AllocError);
    }
    Ok(number as u32)
}
