//! Places of a word, and those in a row behind them.

ghost use Rattle.std.specs.Prelude.{◌≡◌, ℕ, ◌-◌, ◌<◌, ◌&&◌, ◌||◌, IfSome, nat_le};
ghost use Rattle.hs_bits.specs.WordBits.{word_bit};

/// The first places and all in a row behind them that the run has: a sum carries a bit through a run. That all of those
/// are there is not promised: what calls this looks at what it gives.
#[inline(always)]
pub fn spread(first: u64, run: u64) -> u64
    ensures { (i : ℕ) → word_bit result i ≡ (word_bit first i || (word_bit run i && word_bit result i)) }
{
    first | (run & (run ^ run.wrapping_add(first & run)))
}

/// The places of a class that are reached, or behind such a place in a row of those at which the row may go on; None
/// where a look at them fails.
#[inline(always)]
pub fn row_word(class: u64, reached: u64, again: u64) -> Option<u64>
    ensures { IfSome result (λ word. (i : ℕ) → i < 64 → word_bit word i ≡ (word_bit class i
        && (word_bit reached i || (nat_le 1 i && (word_bit word (i - 1) && word_bit again i))))) }
{
    let word = spread(class & reached, class & again);
    if word == class & (reached | ((word << 1) & again)) {
        Some(word)
    } else {
        None
    }
}
