//! Where the fields of a region begin.

ghost use Rattle.std.specs.Prelude.{◌≡◌, ◌^◌, ◌≤◌, IfOk, length, slice_index};
ghost use Rattle.hs_base.specs.Regions.{sums_from};

use std::alloc::{AllocError, Global};

/// Where fields of these sizes begin, one behind the other from `first` on, and where the last one ends.
pub(crate) fn starts_for(
    alloc: Global,
    first: usize,
    sizes: &[usize],
) -> Result<Vec<usize>, AllocError>
    requires small { slice_index (sums_from first sizes.now) (length sizes.now) ≤ 2 ^ 24 }
    ensures { IfOk result (λ starts. starts.items ≡ sums_from first sizes.now) }
{
    let mut starts = Vec::new(alloc);
    let mut at = first;
    for size in sizes {
        starts.push(at)?;
        at += size;
    }
    starts.push(at)?;
    Ok(starts)
}
