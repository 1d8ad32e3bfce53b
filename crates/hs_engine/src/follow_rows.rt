//! Which positions may follow each other, as rows of bits, so that a step unites whole rows.

ghost use Rattle.std.specs.Prelude.{◌≡◌, ℕ, ◌+◌, ◌*◌, ◌<◌, ◌≤◌, false, ◌&&◌, ◌||◌, ◌==◌, IfOk, length, vec_len};
ghost use Rattle.hs_engine.specs.RowSizes.{class_number, row_len, square_count};
ghost use Rattle.hs_engine.specs.Between.{between};

use hs_base::{Next, Prev};
use std::alloc::{AllocError, Global};

/// How many classes of bytes there are: word bytes, the line feed and the others.
pub const CLASS_COUNT: usize = 3;
/// How many contexts there are in which a byte comes next: each class behind each of the four `Prev`.
const CONTEXT_COUNT: usize = 12;

/// For each position a row of bits, a bit for each position whose byte may come behind its own: a square of rows, one
/// for each context in which a byte comes next, or one for all.
#[derive(Debug, Drop)]
pub struct FollowRows {
    /// The rows, one behind the other. That of the position x in a square is number `size * square + x`.
    bits: Vec<u8>,
    /// How many positions there are.
    size: usize,
    /// Whether each context has a square of its own.
    by_context: bool,
    ghost few: { size ≤ 512 },
    ghost whole: { vec_len bits ≡ row_len size * (size * square_count by_context) },
}

impl FollowRows {
    ghost use Rattle.hs_base.specs.Contexts.{Context};
    ghost use Rattle.hs_base.specs.Bits.{has_bit};
    ghost use Rattle.hs_engine.specs.Rows.{in_row, in_square, row_start, square_number};

    /// The rows of so many positions, of which none follows another: with a square for each context, or one for all.
    pub fn new(alloc: Global, size: usize, by_context: bool) -> Result<FollowRows, AllocError>
        requires { size ≤ 512 }
        ensures size { IfOk result (λ rows. rows.size ≡ size) }
        ensures by_context { IfOk result (λ rows. rows.by_context ≡ by_context) }
        ensures none { IfOk result (λ rows. (square x y : ℕ) → in_square rows square x y ≡ false) }
    {
        let len = row_len_of(size) * (size * square_count_of(by_context));
        Ok(FollowRows {
            bits: vec![in alloc; 0u8; len]?,
            size,
            by_context,
        })
    }

    /// Rows that share no memory with these.
    pub fn copy(&self, alloc: Global) -> Result<FollowRows, AllocError>
        ensures bits { IfOk result (λ rows. rows.bits.items ≡ self.now.bits.items) }
        ensures size { IfOk result (λ rows. rows.size ≡ self.now.size) }
        ensures by_context { IfOk result (λ rows. rows.by_context ≡ self.now.by_context) }
    {
        Ok(FollowRows {
            bits: Vec::from_slice(alloc, &self.bits)?,
            size: self.size,
            by_context: self.by_context,
        })
    }

    /// How many positions there are.
    pub fn size(&self) -> usize
        ensures size { result ≡ self.now.size }
        ensures few { result ≤ 512 }
    {
        self.size
    }

    /// How many squares of rows there are.
    pub fn square_count(&self) -> usize
        ensures { result ≡ square_count self.now.by_context }
    {
        square_count_of(self.by_context)
    }

    /// How many bytes the rows take: at most 32 KiB for each square.
    pub fn len(&self) -> usize
        ensures len { result ≡ vec_len self.now.bits }
        ensures few { result ≤ 32768 * square_count self.now.by_context }
    {
        self.bits.len()
    }

    /// Lets the byte of `to` come behind that of `from`, in the contexts of that square.
    pub fn insert(&mut self, square: usize, from: usize, to: usize)
        requires square { square < square_count self.old.by_context }
        requires from { from < self.old.size }
        requires to { to < self.old.size }
        ensures size { self.new.size ≡ self.old.size }
        ensures by_context { self.new.by_context ≡ self.old.by_context }
        ensures follows { (k x y : ℕ) →
            in_square self.new k x y ≡ (((k == square) && ((x == from) && (y == to))) || in_square self.old k x y) }
    {
        let start = self.start(square, from);
        self.bits[start + to / 8] |= 1 << (to % 8);
    }

    /// The positions whose bytes may come behind that of the position, behind what stands before and before a byte of
    /// that class: a bit for each.
    pub fn row(&self, prev: Prev, class: Next, position: usize) -> &[u8]
        requires { position < self.now.size }
        ensures len { length result.now ≡ row_len self.now.size }
        ensures bits { (y : ℕ) →
            has_bit result.now y ≡ in_row self.now position y (between prev class) }
    {
        let start = self.start(self.square(prev, class), position);
        &self.bits[start..start + row_len_of(self.size)]
    }

    /// The number of the square of a context.
    fn square(&self, prev: Prev, class: Next) -> usize
        ensures number { result ≡ square_number self.now.by_context (between prev class) }
        ensures few { result < square_count self.now.by_context }
    {
        if self.by_context {
            CLASS_COUNT * prev.number() as usize + class_number(class)
        } else {
            0
        }
    }

    /// The byte at which the row of the position begins.
    fn start(&self, square: usize, position: usize) -> usize
        requires square { square < square_count self.now.by_context }
        requires position { position < self.now.size }
        ensures start { result ≡ row_start self.now.size square position }
        ensures room { result + row_len self.now.size ≤ vec_len self.now.bits }
    {
        row_len_of(self.size) * (self.size * square + position)
    }
}

/// How many bytes hold a bit for each position.
fn row_len_of(size: usize) -> usize
    requires { size ≤ 512 }
    ensures { result ≡ row_len size }
{
    size.div_ceil(8)
}

/// How many squares there are: one for all contexts, or one for each.
fn square_count_of(by_context: bool) -> usize
    ensures { result ≡ square_count by_context }
{
    if by_context { CONTEXT_COUNT } else { 1 }
}

/// The number of a class; what is none counts as another byte.
fn class_number(class: Next) -> usize
    ensures number { result ≡ class_number class }
    ensures few { result < 3 }
{
    match class {
        Next::Word => 0,
        Next::Newline => 1,
        Next::Other | Next::End | Next::FinalNewline | Next::Unknown => 2,
    }
}
