//! A word turned round.

ghost use Rattle.std.specs.Prelude.{◌≡◌, ◌-◌, ◌<◌, ℕ};
ghost use Rattle.hs_bits.specs.WordBits.{word_bit};
ghost use Rattle.hs_nodes.specs.Turning.{AreFirst, neighbour};

/// The word with each two neighbours of so many bits changed with each other. The mask has the first ones.
#[inline(always)]
fn changed(word: u64, count: u32, mask: u64) -> u64
    requires few { count < 64 }
    requires mask { AreFirst count mask }
    ensures { (i : ℕ) → i < 64 → word_bit result i ≡ word_bit word (neighbour count mask i) }
{
    ((word >> count) & mask) | ((word & mask) << count)
}

/// The word turned round: its last bit first.
#[inline]
pub(crate) fn turned_round(word: u64) -> u64
    ensures { (i : ℕ) → i < 64 → word_bit result i ≡ word_bit word (63 - i) }
{
    let bits = changed(word, 1, 0x5555_5555_5555_5555);
    let pairs = changed(bits, 2, 0x3333_3333_3333_3333);
    let halves = changed(pairs, 4, 0x0f0f_0f0f_0f0f_0f0f);
    let bytes = changed(halves, 8, 0x00ff_00ff_00ff_00ff);
    let twos = changed(bytes, 16, 0x0000_ffff_0000_ffff);
    changed(twos, 32, 0x0000_0000_ffff_ffff)
}
