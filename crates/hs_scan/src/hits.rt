//! Where literals end in a chunk, in the form that nodes ask for.

ghost use Rattle.std.specs.Prelude.{◌≡◌, ◌<◌, ◌≤◌, ◌^◌, ℕ, false, length};
ghost use Rattle.hs_literals.specs.HitTables.{has_hit};
ghost use Rattle.hs_scan.specs.Hits.{AreShown, HasNowhere, IsShown, sought};

use hs_literals::HitRows;
use hs_nodes::{ChunkHits, MAX_BLOCKS, Openings};

/// Where the literal of that number ends.
fn chunk_hits(rows: &HitRows, number: usize) -> ChunkHits
    requires { number < rows.now.count }
    ensures { IsShown rows.now number result }
{
    let mut hits = ChunkHits::NOWHERE;
    hits.at_start = rows.in_block(number, 0).at_start;
    for j in 0..MAX_BLOCKS {
        hits.behind[j] = rows.in_block(number, j).behind;
    }
    hits
}

/// Writes where each literal ends that does; `hits` have no other.
pub(crate) fn show_hits(rows: &HitRows, hits: &mut [ChunkHits])
    requires count { length hits.old ≡ rows.now.count }
    requires none { (k : ℕ) → HasNowhere hits.old k }
    ensures count { length hits.new ≡ length hits.old }
    ensures shown { (k : ℕ) → k < rows.now.count → AreShown rows.now hits.new k }
    ensures others { (k : ℕ) → has_hit rows.now k ≡ false → HasNowhere hits.new k }
{
    let mut from = 0;
    while let Some(number) = rows.next_hit(from) {
        hits[number] = chunk_hits(rows, number);
        from = number + 1;
    }
}

/// Takes them back.
pub(crate) fn forget_hits(rows: &HitRows, hits: &mut [ChunkHits])
    requires count { length hits.old ≡ rows.now.count }
    requires others { (k : ℕ) → has_hit rows.now k ≡ false → HasNowhere hits.old k }
    ensures count { length hits.new ≡ length hits.old }
    ensures none { (k : ℕ) → HasNowhere hits.new k }
{
    let mut from = 0;
    while let Some(number) = rows.next_hit(from) {
        hits[number] = ChunkHits::NOWHERE;
        from = number + 1;
    }
}

/// The hits of the literals that are looked for where the openings are over, or aren't.
pub(crate) fn sought_hits<'h>(
    hits: &'h [ChunkHits],
    openings: &Openings,
    are_over: bool,
) -> &'h [ChunkHits]
    requires { openings.now.others ≤ length hits.now }
    ensures { result.now ≡ sought are_over openings.now hits.now }
{
    if !are_over {
        return hits;
    }
    &hits[..openings.others as usize]
}
