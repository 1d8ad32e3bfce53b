//! The masks of the places of a block.

ghost use Rattle.std.specs.Prelude.{◌≡◌, ◌≤◌, ◌<◌, ◌+◌, ◌⊎◌, length};
ghost use Rattle.hs_confirm.specs.Filed.{literals_of, buckets_of};
ghost use Rattle.hs_literals.specs.Masking.{MasksHideNone, StandsBefore};
ghost use Rattle.hs_literals.specs.OpenPlaces.{ClosedBehind};

use crate::literals::Literals;
use hs_fdr::{BLOCK_LEN, PLACES, scan_block};

/// The last bytes before a place of `bytes`, seven where there are as many; before the first one stands `history`.
fn bytes_before<'a>(history: &'a [u8], bytes: &'a [u8], from: usize) -> &'a [u8]
    requires within { from ≤ length bytes.now }
    requires whole { (from ≡ 0) ⊎ (8 ≤ from) }
    ensures { StandsBefore history.now bytes.now from result.now }
{
    if from >= PLACES {
        return &bytes[from - (PLACES - 1)..from];
    }
    &history[history.len().saturating_sub(PLACES - 1)..]
}

/// Writes the masks of 64 places from one on, which is the first of all or has enough bytes before it. Behind the last
/// byte they leave no bucket open.
pub(crate) fn write_masks(
    literals: &Literals,
    history: &[u8],
    bytes: &[u8],
    from: usize,
    masks: &mut [u8; BLOCK_LEN],
)
    requires within { from ≤ length bytes.now }
    requires whole { (from ≡ 0) ⊎ (8 ≤ from) }
    ensures sixty_four { length masks.new ≡ 64 }
    ensures closed { ClosedBehind masks.new bytes.now from }
    ensures hide_none { MasksHideNone masks.new (literals_of literals.now.confirm) (buckets_of literals.now.confirm)
        history.now bytes.now from }
{
    let before = bytes_before(history, bytes, from);
    let rest = &bytes[from..];
    let block = &rest[..rest.len().min(BLOCK_LEN)];
    scan_block(
        &literals.tables,
        before,
        block,
        rest.get(BLOCK_LEN).copied(),
        masks,
    );
}
