//! The block kernel alone.

ghost use Rattle.std.specs.Prelude.{◌≡◌, ◌≤◌, length};
ghost use Rattle.hs_bench.specs.Kernel.{masks_from, ones_of_first_masks};

use hs_fdr::{BLOCK_LEN, Tables, scan_block};

/// How many bytes before a block count for its masks.
const BEFORE: usize = 7;

/// Makes the masks of the block that begins at a place of a text.
fn make_masks(tables: &Tables, text: &[u8], from: usize, masks: &mut [u8; BLOCK_LEN])
    requires { from ≤ length text.now }
    ensures { masks.new ≡ masks_from tables.now text.now from }
{
    let (done, rest) = text.split_at(from);
    let before = &done[done.len().saturating_sub(BEFORE)..];
    let block = &rest[..rest.len().min(BLOCK_LEN)];
    scan_block(tables, before, block, rest.get(BLOCK_LEN).copied(), masks);
}

/// Makes the masks of all blocks of a text, and gives the bits that are 1 in the first mask of every block: without a
/// result that stands on each block, the compiler might leave blocks out.
pub(crate) fn run_kernel(tables: &Tables, text: &[u8]) -> u8
    ensures { result ≡ ones_of_first_masks tables.now text.now }
{
    let mut masks = [0; BLOCK_LEN];
    let mut all = 0xFF;
    for block in 0..text.len().div_ceil(BLOCK_LEN) {
        make_masks(tables, text, block * BLOCK_LEN, &mut masks);
        all &= masks[0];
    }
    all
}
