//! Tables for a list of literals.

ghost use Rattle.std.specs.Prelude.{◌≡◌, ◌<◌, All, IfOk, length, map, vec_len};
ghost use Rattle.hs_fdr_build.specs.Asking.{AreTablesOf};
ghost use Rattle.hs_base.specs.LiteralView.{literal_bytes};

use crate::grouping::{buckets_of, width_for};
use crate::masks::masks_of;
use hs_base::LitByte;
use hs_fdr::Tables;
use std::alloc::{AllocError, Global};

/// The tables of a list of literals, and the bucket of each literal, 0 to 7, in order. A bit of a mask is 0 exactly
/// where a literal of its bucket asks for it.
///
/// Literals of like length and like last bytes share a bucket, and short ones are few in theirs. The more literals
/// there are, the wider is a super-character: from 9 bits for a few to 15 for tens of thousands, so the tables take 4
/// KiB to 256 KiB. The time is about n log n, and for each literal some hundred masks.
///
/// # Errors
///
/// There may be no memory.
pub fn build(alloc: Global, literals: &[Vec<LitByte>]) -> Result<(Tables, Vec<u8>), AllocError>
    ensures one_each { IfOk result (λ built. vec_len built.1 ≡ length literals.now) }
    ensures below { IfOk result (λ built. All (λ b. b < 8) built.1.items) }
    ensures exact { IfOk result (λ built. AreTablesOf (map literal_bytes literals.now) built.1.items built.0) }
{
    let buckets = buckets_of(alloc, literals)?;
    let width = width_for(literals.len());
    let masks = masks_of(alloc, width, literals, buckets.as_slice())?;
    let tables = Tables::from_masks(alloc, width, masks.as_slice())?;
    Ok((tables, buckets))
}
