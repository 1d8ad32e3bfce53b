//! A table of rows of words.

ghost use Rattle.std.specs.Prelude.{◌≡◌, ℕ, ◌+◌, ◌*◌, ◌<◌, ◌≤◌, false, ◌&&◌, ◌||◌, ◌==◌, IfOk, length, vec_len};

use hs_base::MAX_POSITIONS;
use hs_bits::{WORD_BITS, insert_word_bit};
use std::alloc::{AllocError, Global};

/// The words that hold a bit for each of the most positions.
pub(crate) const MAX_WIDTH: usize = MAX_POSITIONS as usize / WORD_BITS;
/// Up to so many words a program for rows of that width is for no narrower ones.
pub(crate) const EXACT_WIDTH: usize = 4;

/// Rows of bits, each so many words wide.
#[derive(Debug, Drop)]
pub(crate) struct WordRows {
    /// The rows, one behind the other.
    words: Vec<u64>,
    /// How many rows there are.
    count: usize,
    /// How many words a row has.
    width: usize,
    ghost few: { count ≤ 256 },
    ghost narrow: { width ≤ 8 },
    ghost whole: { vec_len words ≡ width * count },
}

impl WordRows {
    ghost use Rattle.hs_base.specs.Bits.{has_word_bit};
    ghost use Rattle.hs_limex.specs.WordTables.{RowsFit, in_table};

    /// So many rows with no bit set.
    pub(crate) fn new(alloc: Global, count: usize, width: usize) -> Result<WordRows, AllocError>
        requires few { count ≤ 256 }
        requires narrow { width ≤ 8 }
        ensures count { IfOk result (λ rows. rows.count ≡ count) }
        ensures width { IfOk result (λ rows. rows.width ≡ width) }
        ensures none { IfOk result (λ rows. (n k : ℕ) → in_table rows n k ≡ false) }
    {
        Ok(WordRows {
            words: vec![in alloc; 0u64; width * count]?,
            count,
            width,
        })
    }

    /// Sets a bit of a row.
    pub(crate) fn insert(&mut self, number: usize, bit: usize)
        requires number { number < self.old.count }
        requires bit { bit < 64 * self.old.width }
        ensures count { self.new.count ≡ self.old.count }
        ensures width { self.new.width ≡ self.old.width }
        ensures bits { (n k : ℕ) → in_table self.new n k ≡ (((n == number) && (k == bit)) || in_table self.old n k) }
    {
        let start = self.width * number;
        insert_word_bit(&mut self.words, WORD_BITS * start + bit);
    }

    /// Sets a bit of a row, if it is wanted.
    pub(crate) fn insert_if(&mut self, number: usize, bit: usize, wanted: bool)
        requires number { number < self.old.count }
        requires bit { bit < 64 * self.old.width }
        ensures count { self.new.count ≡ self.old.count }
        ensures width { self.new.width ≡ self.old.width }
        ensures bits { (n k : ℕ) →
            in_table self.new n k ≡ (((n == number) && ((k == bit) && wanted)) || in_table self.old n k) }
    {
        if wanted {
            self.insert(number, bit);
        }
    }

    /// How many words a row has.
    #[inline(always)]
    pub(crate) fn width(&self) -> usize
        ensures width { result ≡ self.now.width }
        ensures few { result ≤ 8 }
    {
        self.width
    }

    /// The same, which a program for rows of that width knows.
    #[inline(always)]
    fn width_in<const W: usize>(&self) -> usize
        requires { RowsFit self.now.width W }
        ensures { result ≡ self.now.width }
    {
        if W <= EXACT_WIDTH { W } else { self.width }
    }

    /// The row of that number, in a program for rows of that width.
    #[inline(always)]
    pub(crate) fn row_in<const W: usize>(&self, number: usize) -> &[u64]
        requires fits { RowsFit self.now.width W }
        requires number { number < self.now.count }
        ensures len { length result.now ≡ self.now.width }
        ensures bits { (k : ℕ) → has_word_bit result.now k ≡ in_table self.now number k }
    {
        let width = self.width_in::<W>();
        let start = width * number;
        &self.words[start..start + width]
    }
}
