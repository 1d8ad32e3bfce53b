//! Code points that differ in case alone.
ghost use Rattle.std.specs.Prelude.{IfOk};
ghost use Rattle.hs_utf8.specs.Folds.{AreFolds};

use regex_class::Class;
use std::alloc::{AllocError, Global};
use unicode::case::fold_pairs;

/// The code points that have the same simple case folding as a member of the ranges: the members and their other cases,
/// as ranges that rise and don't touch.
pub fn folds(alloc: Global, ranges: &[(u32, u32)]) -> Result<Vec<(u32, u32)>, AllocError>
    ensures { IfOk result (λ folds. AreFolds ranges.now folds.items) }
{
    let members = Class::from_ranges(alloc, ranges)?;
    let mut all = Vec::from_slice(alloc, &members.ranges)?;
    members.append_image(fold_pairs(), &mut all)?;
    let Class { ranges } = Class::new(all)?;
    Ok(ranges)
}
