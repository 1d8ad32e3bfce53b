//! Numbers in rows, as chains.

ghost use Rattle.std.specs.Prelude.{◌≡◌, ◌<◌, ◌≤◌, ◌*◌, ℕ, false, IfOk, length, slice_index, vec_len};
ghost use Rattle.hs_confirm.specs.Rows.{AreChains, AreMarked};

use hs_bits::{WORD_BITS, contains_word_bit, insert_word_bit};
use std::alloc::{AllocError, Global};

/// The numbers of each row, rising: its first one, and behind each number the next one of its row.
#[derive(Drop)]
pub(crate) struct Chains {
    /// The first number of each row, or the count of all numbers where the row is empty.
    pub(crate) heads: Vec<usize>,
    /// Behind each number the next one of its row, or the count of all numbers behind the last.
    pub(crate) nexts: Vec<usize>,
    /// A bit for each row: 0 where the row is empty. They are few enough to stay in the nearest cache.
    marks: Vec<u64>,
    ghost rows: { 0 < vec_len heads },
    ghost enough: { vec_len heads ≤ 64 * vec_len marks },
    ghost marked: { AreMarked marks.items heads.items (vec_len nexts) },
}

impl Chains {
    /// The chains of as many rows, given the row of each number.
    pub(crate) fn build(alloc: Global, rows: &[usize], count: usize) -> Result<Chains, AllocError>
        requires some { 0 < count }
        requires within { (k : ℕ) → k < length rows.now → slice_index rows.now k < count }
        ensures count { IfOk result (λ chains. vec_len chains.heads ≡ count) }
        ensures numbers { IfOk result (λ chains. vec_len chains.nexts ≡ length rows.now) }
        ensures chains { IfOk result (λ chains. AreChains rows.now chains.heads.items chains.nexts.items) }
    {
        let mut heads = vec![in alloc; rows.len(); count]?;
        let mut nexts = vec![in alloc; rows.len(); rows.len()]?;
        let mut marks = vec![in alloc; 0; count / WORD_BITS + 1]?;
        let mut number = rows.len();
        while number > 0 {
            number -= 1;
            let row = rows[number];
            nexts[number] = heads[row];
            heads[row] = number;
            insert_word_bit(&mut marks, row);
        }
        Ok(Chains {
            heads,
            nexts,
            marks,
        })
    }

    /// How many rows there are.
    pub(crate) fn rows(&self) -> usize
        ensures count { result ≡ vec_len self.now.heads }
        ensures some { 0 < result }
    {
        self.heads.len()
    }

    /// Whether a row may have a number.
    #[inline(always)]
    pub(crate) fn is_marked(&self, row: usize) -> bool
        requires { row < vec_len self.now.heads }
        ensures { result ≡ false → slice_index self.now.heads.items row ≡ vec_len self.now.nexts }
    {
        contains_word_bit(&self.marks, row)
    }

    /// The first number of a row, or the count of all numbers.
    #[inline(always)]
    pub(crate) fn first(&self, row: usize) -> usize
        requires { row < vec_len self.now.heads }
        ensures { result ≡ slice_index self.now.heads.items row }
    {
        if !self.is_marked(row) {
            return self.nexts.len();
        }
        self.heads[row]
    }

    /// The next number in the row of that number, or the count of all numbers.
    pub(crate) fn after(&self, number: usize) -> usize
        requires { number < vec_len self.now.nexts }
        ensures { result ≡ slice_index self.now.nexts.items number }
    {
        self.nexts[number]
    }
}
