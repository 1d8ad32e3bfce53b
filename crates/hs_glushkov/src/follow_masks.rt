//! For each pair of positions, in which contexts the byte of the second may come behind that of the first.

ghost use Rattle.std.specs.Prelude.{◌≡◌, ℕ, ◌*◌, ◌<◌, ◌≤◌, false, ◌&&◌, ◌||◌, ◌==◌, IfOk, slice_get, length, vec_len};
ghost use Rattle.hs_base.specs.Contexts.{Context};
ghost use Rattle.hs_base.specs.ContextSets.{has_context};
ghost use Rattle.hs_engine.specs.Automata.{in_mask};
ghost use Rattle.hs_glushkov.specs.Ranges.{is_within};

use hs_base::Mask;
use std::alloc::{AllocError, Global};

/// A square table of masks: a row for each position that may be followed.
#[derive(Debug, Drop)]
pub struct FollowMasks {
    /// The mask of `from` and `to` is that of number `size * from + to`.
    pub(crate) masks: Vec<Mask>,
    /// How many positions there are.
    pub(crate) size: usize,
    ghost few: { size ≤ 512 },
    ghost square: { vec_len masks ≡ size * size },
}

impl FollowMasks {
    ghost use Rattle.hs_glushkov.specs.FollowTables.{is_followed};

    /// The table of so many positions, of which none follows another.
    pub fn new(alloc: Global, size: usize) -> Result<FollowMasks, AllocError>
        requires { size ≤ 512 }
        ensures size { IfOk result (λ table. table.size ≡ size) }
        ensures none { IfOk result (λ table. (x y : ℕ) (c : Context) → is_followed table x y c ≡ false) }
    {
        Ok(FollowMasks {
            masks: vec![in alloc; Mask::empty(); size * size]?,
            size,
        })
    }

    /// The contexts in which the one position may follow the other.
    pub fn mask(&self, from: usize, to: usize) -> Mask
        requires from { from < self.now.size }
        requires to { to < self.now.size }
        ensures { (c : Context) → has_context result c ≡ is_followed self.now from to c }
    {
        self.masks[self.size * from + to]
    }

    /// Lets the one position follow the other in the contexts of the mask too.
    fn put(&mut self, from: usize, to: usize, mask: Mask)
        requires from { from < self.old.size }
        requires to { to < self.old.size }
        ensures size { self.new.size ≡ self.old.size }
        ensures follows { (x y : ℕ) (c : Context) →
            is_followed self.new x y c ≡
            (((y == to) && ((x == from) && has_context mask c)) || is_followed self.old x y c) }
    {
        let number = self.size * from + to;
        self.masks[number] = self.masks[number].union(mask);
    }

    /// Lets each position from `low` to `high` follow that one, where the mask and what enters it allow it.
    fn put_row(&mut self, from: usize, mask: Mask, enters: &[Mask], low: usize, high: usize)
        requires from { from < self.old.size }
        requires order { low ≤ high }
        requires high { high ≤ self.old.size }
        requires enters { high ≤ length enters.now }
        ensures size { self.new.size ≡ self.old.size }
        ensures follows { (x y : ℕ) (c : Context) →
            is_followed self.new x y c ≡
            ((is_within low high y && ((x == from) && (has_context mask c && in_mask (slice_get enters.now y) c)))
            || is_followed self.old x y c) }
    {
        for to in low..high {
            self.put(from, to, mask.intersection(enters[to]));
        }
    }

    /// Lets each position of `to` follow each of `from`, where that one accepts and it is entered.
    pub fn connect(
        &mut self,
        accepts: &[Mask],
        enters: &[Mask],
        from_low: usize,
        from_high: usize,
        to_low: usize,
        to_high: usize,
    )
        requires from { from_low ≤ from_high }
        requires from_high { from_high ≤ self.old.size }
        requires to { to_low ≤ to_high }
        requires to_high { to_high ≤ self.old.size }
        requires accepts { from_high ≤ length accepts.now }
        requires enters { to_high ≤ length enters.now }
        ensures size { self.new.size ≡ self.old.size }
        ensures follows { (x y : ℕ) (c : Context) →
            is_followed self.new x y c ≡
            ((is_within from_low from_high x
            && (is_within to_low to_high y
            && (in_mask (slice_get accepts.now x) c && in_mask (slice_get enters.now y) c)))
            || is_followed self.old x y c) }
    {
        for from in from_low..from_high {
            self.put_row(from, accepts[from], enters, to_low, to_high);
        }
    }
}
