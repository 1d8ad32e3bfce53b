//! Bits that are set and not supported.
ghost use Rattle.std.specs.Prelude.{ℕ, ◌<◌, ◌↔◌, MatchOption, IsTrue};
ghost use Rattle.hs_support.specs.Support.{IsOutside, IsLeastOutside};

/// The least bit that is set and isn't supported, as a number of one bit.
pub fn least_outside(supported: u32, bits: u32) -> Option<u32>
    ensures { MatchOption result ((place : ℕ) → IsOutside supported bits place → ⊥)
        (IsLeastOutside supported bits) }
{
    for place in 0..u32::BITS {
        if is_outside(supported, bits, place) {
            return Some(1 << place);
        }
    }
    None
}

/// Whether the bit at a place is set and isn't supported.
fn is_outside(supported: u32, bits: u32, place: u32) -> bool
    requires { place < 32 }
    ensures { IsTrue result ↔ IsOutside supported bits place }
{
    (bits >> place) & 1 == 1 && (supported >> place) & 1 == 0
}
