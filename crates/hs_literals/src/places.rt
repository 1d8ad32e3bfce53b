//! The next place at which a literal may end.

ghost use Rattle.std.specs.Prelude.{◌≡◌, ◌≢◌, ◌≤◌, ◌<◌, ◌+◌, ◌-◌, ◌++◌, [], MatchBool, MatchOption, length};
ghost use Rattle.hs_confirm.specs.Filed.{literals_of, buckets_of};
ghost use Rattle.hs_literals.specs.Masking.{HidesNone, MasksHideNone};
ghost use Rattle.hs_literals.specs.OpenPlaces.{AreOpenPlaces, ClosedBehind};
ghost use Rattle.hs_literals.specs.Places.{NoneBetween};

use crate::blocks::write_masks;
use crate::literals::Literals;
use crate::marks::{NO_BUCKET, open_marks};
use hs_bits::{lowest_bit, without_lowest_bit};
use hs_confirm::PlaceEnds;
use hs_fdr::BLOCK_LEN;

/// A walk over the places of bytes.
#[derive(Drop)]
pub(crate) struct Places<'a> {
    pub(crate) literals: &'a Literals,
    /// What stands before `bytes`.
    pub(crate) history: &'a [u8],
    pub(crate) bytes: &'a [u8],
    /// The masks of the block's places.
    masks: [u8; BLOCK_LEN],
    /// Which of these places are not passed and have a bucket left open: a 1 for each.
    marks: u64,
    /// Where the block begins in `bytes`.
    block: usize,
    /// How many bytes have been passed.
    pub(crate) at: usize,
    ghost within: { at ≤ length bytes.now },
    ghost behind: { block ≤ at },
    ghost near: { at ≤ block + 64 },
    ghost sixty_four: { length masks ≡ 64 },
    ghost are_open: { AreOpenPlaces masks (at - block) marks },
    ghost closed_behind: { ClosedBehind masks bytes.now block },
    ghost hide_none: { MasksHideNone masks (literals_of literals.now.confirm) (buckets_of literals.now.confirm)
        history.now bytes.now block },
}

impl<'a> Places<'a> {
    ghost use Rattle.hs_confirm.specs.PlaceLeft.{place_left};
    ghost use Rattle.hs_literals.specs.AllEnds.{numbers_at};

    /// A walk that has passed no byte.
    pub(crate) fn new(literals: &'a Literals, history: &'a [u8], bytes: &'a [u8]) -> Places<'a>
        ensures literals { result.literals.now ≡ literals.now }
        ensures history { result.history.now ≡ history.now }
        ensures bytes { result.bytes.now ≡ bytes.now }
        ensures at { result.at ≡ 0 }
    {
        let mut masks = [NO_BUCKET; BLOCK_LEN];
        write_masks(literals, history, bytes, 0, &mut masks);
        Places {
            literals,
            history,
            bytes,
            masks,
            marks: open_marks(&masks),
            block: 0,
            at: 0,
        }
    }

    /// Passes the rest of the block, where no place has a bucket left open, and makes the masks of the next block. It
    /// is false where the block was the last one.
    #[inline(never)]
    fn enter_block(&mut self) -> bool
        requires { self.old.marks ≡ 0 }
        ensures literals { self.new.literals ≡ self.old.literals }
        ensures history { self.new.history ≡ self.old.history }
        ensures bytes { self.new.bytes ≡ self.old.bytes }
        ensures low { self.old.at ≤ self.new.at }
        ensures none { NoneBetween (literals_of self.old.literals.now.confirm) self.old.history.now self.old.bytes.now
            self.old.at (self.new.at + 1) }
        ensures more { MatchBool result (self.old.block < self.new.block) (self.new.at ≡ length self.old.bytes.now) }
    {
        self.at = self.block + (self.bytes.len() - self.block).min(BLOCK_LEN);
        if self.at == self.bytes.len() {
            return false;
        }
        write_masks(
            self.literals,
            self.history,
            self.bytes,
            self.at,
            &mut self.masks,
        );
        self.marks = open_marks(&self.masks);
        self.block = self.at;
        true
    }

    /// Goes on to the next place of the block that has a bucket left open, and gives its mask.
    #[inline(always)]
    fn pass_closed(&mut self) -> u8
        requires { self.old.marks ≢ 0 }
        ensures literals { self.new.literals ≡ self.old.literals }
        ensures history { self.new.history ≡ self.old.history }
        ensures bytes { self.new.bytes ≡ self.old.bytes }
        ensures low { self.old.at < self.new.at }
        ensures none_before { NoneBetween (literals_of self.old.literals.now.confirm) self.old.history.now
            self.old.bytes.now self.old.at self.new.at }
        ensures hides { HidesNone result (literals_of self.old.literals.now.confirm)
            (buckets_of self.old.literals.now.confirm) (self.old.history.now ++ self.old.bytes.now)
            (length self.old.history.now + self.new.at) }
    {
        let place = lowest_bit(self.marks);
        self.marks = without_lowest_bit(self.marks);
        self.at = self.block + place + 1;
        self.masks[place]
    }

    /// Goes on to the next place that has a bucket left open, and gives its mask; None where there is no more.
    #[inline(always)]
    pub(crate) fn next_open(&mut self) -> Option<u8>
        ensures literals { self.new.literals ≡ self.old.literals }
        ensures history { self.new.history ≡ self.old.history }
        ensures bytes { self.new.bytes ≡ self.old.bytes }
        ensures none_before { NoneBetween (literals_of self.old.literals.now.confirm) self.old.history.now
            self.old.bytes.now self.old.at self.new.at }
        ensures next { MatchOption result
            ((self.new.at ≡ length self.old.bytes.now) ×
            NoneBetween (literals_of self.old.literals.now.confirm) self.old.history.now self.old.bytes.now self.old.at
            (self.new.at + 1)) (λ mask. (self.old.at < self.new.at) ×
            HidesNone mask (literals_of self.old.literals.now.confirm) (buckets_of self.old.literals.now.confirm)
            (self.old.history.now ++ self.old.bytes.now) (length self.old.history.now + self.new.at)) }
    {
        while self.marks == 0 {
            if !self.enter_block() {
                return None;
            }
        }
        Some(self.pass_closed())
    }

    /// The literals that end at the place, given a mask that hides none of them, or None where there is none.
    pub(crate) fn ends(&self, mask: u8) -> Option<PlaceEnds<'a>>
        requires { HidesNone mask (literals_of self.now.literals.now.confirm) (buckets_of self.now.literals.now.confirm)
            (self.now.history.now ++ self.now.bytes.now) (length self.now.history.now + self.now.at) }
        ensures { MatchOption result
            (numbers_at (literals_of self.now.literals.now.confirm) (self.now.history.now ++ self.now.bytes.now)
            (length self.now.history.now + self.now.at) ≡ [])
            (λ ends. place_left ends ≡ numbers_at (literals_of self.now.literals.now.confirm)
            (self.now.history.now ++ self.now.bytes.now) (length self.now.history.now + self.now.at)) }
    {
        self.literals
            .confirm
            .some_place_ends(mask, self.history, self.bytes, self.at)
    }
}
