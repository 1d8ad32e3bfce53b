//! Whether a row of sets fits somewhere, byte by byte: the slow twin of `fits`.

ghost use Rattle.std.specs.Prelude.{◌≡◌, ◌↔◌, ◌<◌, false, IsTrue, length, slice_get};
ghost use Rattle.hs_bits.specs.BlockContexts.{prev_before};
ghost use Rattle.hs_waking.specs.Fits.{FitsNowhere, FitsTo};
ghost use Rattle.hs_waking.specs.PrevSets.{has_prev};

use crate::prev_set::PrevSet;
use hs_base::{ByteSet, Prev};

/// Whether the row, which begins behind these, fits at some place of the bytes behind `prev`; at their end, as far as
/// they go.
pub fn fits_plain(behind: PrevSet, row: &[ByteSet], prev: Prev, bytes: &[u8]) -> bool
    ensures { (result ≡ false) ↔ FitsNowhere behind row.now prev bytes.now }
{
    for place in 0..bytes.len() {
        if may_begin(behind, prev, bytes, place) && fits_at(row, bytes, place) {
            return true;
        }
    }
    false
}

/// Whether what stands before that place of the bytes behind `prev` is one of these.
pub(crate) fn may_begin(behind: PrevSet, prev: Prev, bytes: &[u8], place: usize) -> bool
    requires { place < length bytes.now }
    ensures { result ≡ has_prev behind (prev_before prev bytes.now place) }
{
    behind.contains(match place.checked_sub(1) {
        None => prev,
        Some(last) => Prev::behind(bytes[last]),
    })
}

/// Whether each set of the row has its byte from that place on.
pub(crate) fn fits_at(row: &[ByteSet], bytes: &[u8], place: usize) -> bool
    requires { place < length bytes.now }
    ensures { IsTrue result ↔ FitsTo (slice_get row.now) bytes.now (length row.now) place }
{
    for depth in 0..row.len().min(bytes.len() - place) {
        if !row[depth].contains(bytes[place + depth]) {
            return false;
        }
    }
    true
}
