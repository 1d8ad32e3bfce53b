//! The places of a block whose contexts are in a mask: most masks have every context or none, and the look at the
//! contexts themselves is kept out of the loops that ask.

ghost use Rattle.std.specs.Prelude.{◌≡◌, ℕ, ◌<◌, length};
ghost use Rattle.hs_base.specs.ContextSets.{has_context};
ghost use Rattle.hs_bits.specs.BlockContexts.{AreContexts, AreMade, context_before, context_behind};
ghost use Rattle.hs_bits.specs.WordBits.{word_bit};

use hs_base::{Mask, Prev};
use hs_bits::{Contexts, contexts_of, in_all_contexts, only_if};

/// The places of a whole block whose context is in the mask, where the byte there comes next.
#[inline(always)]
pub(crate) fn places_before(made: &Option<Contexts>, prev: Prev, whole: &[u8], mask: Mask) -> u64
    requires whole { length whole.now ≡ 64 }
    requires made { AreMade made.now prev whole.now }
    ensures { (i : ℕ) → i < 64 → word_bit result i ≡ has_context mask (context_before prev whole.now i) }
{
    match in_all_contexts(mask) {
        Some(everywhere) => only_if(u64::MAX, everywhere),
        None => some_before(made, prev, whole, mask),
    }
}

/// The same for a mask that has some contexts alone.
#[inline(never)]
fn some_before(made: &Option<Contexts>, prev: Prev, whole: &[u8], mask: Mask) -> u64
    requires whole { length whole.now ≡ 64 }
    requires made { AreMade made.now prev whole.now }
    ensures { (i : ℕ) → i < 64 → word_bit result i ≡ has_context mask (context_before prev whole.now i) }
{
    contexts_of(*made, prev, whole).places_before(mask)
}

/// The bytes of a whole block behind which the context is in the mask, where nothing is known of what comes next.
#[inline(always)]
pub(crate) fn places_behind(made: &Option<Contexts>, prev: Prev, whole: &[u8], mask: Mask) -> u64
    requires whole { length whole.now ≡ 64 }
    requires made { AreMade made.now prev whole.now }
    ensures { (i : ℕ) → i < 64 → word_bit result i ≡ has_context mask (context_behind prev whole.now i) }
{
    match in_all_contexts(mask) {
        Some(everywhere) => only_if(u64::MAX, everywhere),
        None => contexts_of(*made, prev, whole).places_behind(mask),
    }
}
