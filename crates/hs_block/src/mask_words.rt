//! Which masks of a row have some contexts alone, and which have some at all.

ghost use Rattle.std.specs.Prelude.{◌≡◌, ℕ, ◌<◌, ◌≤◌, false, true, length, slice_get};
ghost use Rattle.hs_base.specs.Bits.{has_word_bit};
ghost use Rattle.hs_base.specs.Contexts.{Context};
ghost use Rattle.hs_engine.specs.Automata.{in_mask};

use crate::before_tables::MAX_WIDTH;
use hs_base::Mask;
use hs_bits::{in_all_contexts, put_word_bit};

/// Whether one of the masks has some contexts alone.
pub(crate) fn has_mixed(masks: &[Mask]) -> bool
    ensures { result ≡ false → (k : ℕ) (c d : Context) → k < length masks.now →
        in_mask (slice_get masks.now k) c ≡ in_mask (slice_get masks.now k) d }
{
    for position in 0..masks.len() {
        if in_all_contexts(masks[position]).is_none() {
            return true;
        }
    }
    false
}

/// The row of the positions whose mask has some context.
pub(crate) fn some_row(masks: &[Mask]) -> [u64; MAX_WIDTH]
    requires { length masks.now ≤ 512 }
    ensures len { length result ≡ 8 }
    ensures some { (k : ℕ) (c : Context) →
        in_mask (slice_get masks.now k) c ≡ true → has_word_bit result k ≡ true }
{
    let mut row = [0u64; MAX_WIDTH];
    for position in 0..masks.len() {
        let some = in_all_contexts(masks[position]).unwrap_or(true);
        put_word_bit(&mut row, position, some);
    }
    row
}
