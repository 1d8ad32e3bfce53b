//! Where chains of pieces end, and the places of a block within bounds.

ghost use Rattle.std.specs.Prelude.{◌≡◌, ℕ, ◌+◌, ◌<◌, nat_le};
ghost use Rattle.hs_reports.specs.WordBits.{word_bit};
ghost use Rattle.hs_reports.specs.Terminals.{is_within_bounds};

/// The last node of a chain of pieces: where it is left within the bounds, a match of the identifier ends.
#[derive(Clone, Copy)]
pub struct Terminal {
    /// The number of the identifier among those of the list.
    pub identifier: u32,
    /// The number of the node.
    pub node: u32,
    /// The least offset at which a match may end.
    pub least: u64,
    /// The greatest offset at which a match may end.
    pub greatest: u64,
}

/// The places of a block at the offset `at` that are within bounds: bit i is set if the offset `at + i` is.
pub fn bound_word(least: u64, greatest: u64, at: u64) -> u64
    ensures { (i : ℕ) → i < 64 → word_bit result i ≡ is_within_bounds least greatest (at + i) }
{
    if greatest < at {
        return 0;
    }
    places_from(least.saturating_sub(at)) & places_to(greatest - at)
}

/// The places from one on.
fn places_from(first: u64) -> u64
    ensures { (i : ℕ) → i < 64 → word_bit result i ≡ nat_le first i }
{
    if first < 64 { u64::MAX << first } else { 0 }
}

/// The places up to one.
pub(crate) fn places_to(last: u64) -> u64
    ensures { (i : ℕ) → i < 64 → word_bit result i ≡ nat_le i last }
{
    if last < 63 {
        u64::MAX >> (63 - last)
    } else {
        u64::MAX
    }
}
