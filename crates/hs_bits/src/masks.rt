//! Masks that have every context, or none, as most have; and the contexts of a block for the others.

ghost use Rattle.std.specs.Prelude.{◌≡◌, IfSome, length};
ghost use Rattle.hs_base.specs.Contexts.{Context};
ghost use Rattle.hs_base.specs.ContextSets.{has_context};
ghost use Rattle.hs_bits.specs.BlockContexts.{AreContexts, AreMade};

use crate::contexts::Contexts;
use hs_base::{Mask, Prev};

/// Whether the mask has every context, or none; None where it has some alone.
#[inline(always)]
pub fn in_all_contexts(mask: Mask) -> Option<bool>
    ensures { IfSome result (λ everywhere. (c : Context) → has_context mask c ≡ everywhere) }
{
    if mask == Mask::all() {
        Some(true)
    } else if mask == Mask::empty() {
        Some(false)
    } else {
        None
    }
}

/// The contexts of a block behind `prev`: those that are made, or new ones.
pub fn contexts_of(made: Option<Contexts>, prev: Prev, whole: &[u8]) -> Contexts
    requires whole { length whole.now ≡ 64 }
    requires made { AreMade made prev whole.now }
    ensures { AreContexts result prev whole.now }
{
    match made {
        Some(contexts) => contexts,
        None => Contexts::new(prev, whole),
    }
}
