//! Flags and parameters that aren't supported.
ghost use Rattle.std.specs.Prelude.{MatchOption};
ghost use Rattle.hs_base.specs.declared.refusal.Refusal.{Refusal};
ghost use Rattle.hs_support.specs.Refused.{HasFlagsFault, IsLeast};

use crate::outside::least_outside;
use hs_base::{Ext, Flags, Refusal};

/// The flags that are supported, a bit each (Hyperscan Developer's Reference Guide, "Compiling Patterns").
pub const SUPPORTED_FLAGS: u16 = Flags::CASELESS.0
    | Flags::DOTALL.0
    | Flags::MULTILINE.0
    | Flags::SINGLEMATCH.0
    | Flags::ALLOWEMPTY.0
    | Flags::UTF8.0;

/// The extended parameters that are supported, a bit each (Hyperscan Developer's Reference Guide, `hs_expr_ext_t`).
pub const SUPPORTED_PARAMETERS: u8 = Ext::MIN_OFFSET | Ext::MAX_OFFSET;

/// The refusal of a flag that isn't supported, the least one; else that of a parameter that isn't, the least one.
pub fn flags_fault(flags: Flags, ext: Ext) -> Option<Refusal>
    ensures { MatchOption result ((refusal : Refusal) → HasFlagsFault flags ext refusal → ⊥)
        (IsLeast (HasFlagsFault flags ext)) }
{
    if let Some(bit) = least_outside(u32::from(SUPPORTED_FLAGS), u32::from(flags.0)) {
        return Some(Refusal::UnsupportedFlag(bit));
    }
    if let Some(bit) = least_outside(u32::from(SUPPORTED_PARAMETERS), u32::from(ext.bits)) {
        return Some(Refusal::UnsupportedParameter(bit));
    }
    None
}
