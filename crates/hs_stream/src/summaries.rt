//! The text of two runs.
ghost use Rattle.std.specs.Prelude.{◌≡◌, IfOk, string_bytes};
ghost use Rattle.hs_stream.specs.Summaries.{soak_lines};

use crate::tally::Tally;
use std::alloc::{AllocError, Global};

/// The five lines: how many expressions and bytes there were, the length of a stream's region, and what each run
/// reported. The error is want of memory.
///
/// # Examples
///
/// ```
/// let region = database.region_size() as u64;
/// print!(rt; "{}", summary(alloc, 1000, 64_000, region, even, cut)?)?;
/// ```
pub fn summary(
    alloc: Global,
    expressions: u64,
    bytes: u64,
    region: u64,
    even: Tally,
    cut: Tally,
) -> Result<String, AllocError>
    ensures { IfOk result (λ text. string_bytes text ≡ soak_lines expressions bytes region even cut) }
{
    let (count, sum) = (even.count, even.sum);
    let (cut_count, cut_sum) = (cut.count, cut.sum);
    format!(in alloc;
        "expressions {expressions}\nbytes {bytes}\nregion {region}\neven {count} {sum}\ncut {cut_count} {cut_sum}\n"
    )
}
