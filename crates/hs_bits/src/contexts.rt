//! The contexts of the places of a block: a word for each class of bytes, and of these the words of masks.
//!
//! The classes of ten bytes, and the places whose context `\b` allows:
//!
//! ```text
//! bytes              f o o   b a r . . .
//! word bytes         1 1 1 . 1 1 1 . . .
//! behind word bytes  . 1 1 1 . 1 1 1 . .    one place on
//! \b                 1 . . 1 1 . . 1 . .    one of the two alone
//! ```

ghost use Rattle.std.specs.Prelude.{◌≡◌, ℕ, ◌+◌, ◌<◌, ◌≤◌, ◌&&◌, ◌||◌, ◌==◌, List, length, nat_lt, true};
ghost use Rattle.hs_base.specs.Contexts.{prev_number};
ghost use Rattle.hs_base.specs.ContextSets.{has_context, has_next};
ghost use Rattle.hs_base.specs.declared.context.Next.TheVariants as after;
ghost use Rattle.hs_base.specs.declared.context.Prev.{Prev};
ghost use Rattle.hs_bits.specs.BlockContexts.{AreClasses, AreContexts, TellsBefore, TellsBehind, class_word};
ghost use Rattle.hs_bits.specs.BlockContexts.{context_before, context_behind, is_part};
ghost use Rattle.hs_bits.specs.WordBits.{one_later, word_bit};

use crate::places::{one_later, only_if, with_place};
use hs_base::{Mask, Next, NextSet, Prev};
use std::simd::prelude::*;

/// A word for each class of bytes: at which places of a block one stands.
#[derive(Clone, Copy, Debug, PartialEq, Eq)]
struct Classes {
    /// Bytes of `[A-Za-z0-9_]`.
    words: u64,
    /// Line feeds.
    newlines: u64,
    /// Any other bytes.
    others: u64,
}

impl Classes {
    /// The classes of the bytes of a block: sixteen at a time, and the last ones one by one.
    fn new(bytes: &[u8]) -> Classes
        requires { length bytes.now ≤ 64 }
        ensures { AreClasses result bytes.now (length bytes.now) }
    {
        let mut classes = Classes {
            words: 0,
            newlines: 0,
            others: 0,
        };
        let mut place = 0;
        while bytes.len() - place >= u8x16::LEN {
            classes = classes.with_lanes(bytes, place);
            place += u8x16::LEN;
        }
        classes.with_rest(bytes, place)
    }

    /// The classes of sixteen bytes.
    #[inline(always)]
    fn of_lanes(lanes: u8x16) -> Classes
        ensures { AreClasses result lanes 16 }
    {
        let letters = ((lanes | u8x16::splat(0x20)) - u8x16::splat(b'a')).simd_lt(u8x16::splat(26));
        let digits = (lanes - u8x16::splat(b'0')).simd_lt(u8x16::splat(10));
        let words = letters | digits | lanes.simd_eq(u8x16::splat(b'_'));
        let newlines = lanes.simd_eq(u8x16::splat(b'\n'));
        Classes {
            words: words.to_bitmask(),
            newlines: newlines.to_bitmask(),
            others: (!(words | newlines)).to_bitmask(),
        }
    }

    /// The classes of the bytes before a place and of the sixteen from there on.
    #[inline(always)]
    fn with_lanes(self, bytes: &[u8], place: usize) -> Classes
        requires few { length bytes.now ≤ 64 }
        requires within { place + 16 ≤ length bytes.now }
        requires before { AreClasses self bytes.now place }
        ensures { AreClasses result bytes.now (place + 16) }
    {
        let more = Classes::of_lanes(u8x16::from_slice(&bytes[place..]));
        Classes {
            words: self.words | (more.words << place),
            newlines: self.newlines | (more.newlines << place),
            others: self.others | (more.others << place),
        }
    }

    /// The classes of the bytes before a place and of all from there on.
    fn with_rest(self, bytes: &[u8], from: usize) -> Classes
        requires few { length bytes.now ≤ 64 }
        requires within { from ≤ length bytes.now }
        requires before { AreClasses self bytes.now from }
        ensures { AreClasses result bytes.now (length bytes.now) }
    {
        let mut classes = self;
        for place in from..bytes.len() {
            let class = Next::class_of(bytes[place]).number();
            classes.words = with_place(classes.words, place, class == 0);
            classes.newlines = with_place(classes.newlines, place, class == 1);
            classes.others = with_place(classes.others, place, class == 2);
        }
        classes
    }

    /// The places of the bytes behind which that stands.
    fn before(&self, prev: Prev) -> u64
        ensures { result ≡ class_word self.now prev }
    {
        match prev {
            Prev::Start => 0,
            Prev::Word => self.words,
            Prev::Newline => self.newlines,
            Prev::Other => self.others,
        }
    }

    /// The places of the bytes whose class is in the set.
    fn among(&self, set: NextSet) -> u64
        ensures { (i : ℕ) → word_bit result i ≡
            ((word_bit self.now.words i && has_next set after.Word)
            || ((word_bit self.now.newlines i && has_next set after.Newline)
            || (word_bit self.now.others i && has_next set after.Other))) }
    {
        let words = only_if(self.words, set.contains(Next::Word));
        let newlines = only_if(self.newlines, set.contains(Next::Newline));
        let others = only_if(self.others, set.contains(Next::Other));
        words | (newlines | others)
    }
}

/// The contexts of the places of a block: four words, of which each mask's is made without a look at the bytes.
#[derive(Clone, Copy, Debug, PartialEq, Eq)]
pub struct Contexts {
    /// What stands before the block.
    prev: Prev,
    /// The classes of its bytes.
    classes: Classes,
}

impl Contexts {
    /// The contexts of the places of a block behind `prev`.
    pub fn new(prev: Prev, bytes: &[u8]) -> Contexts
        requires { length bytes.now ≤ 64 }
        ensures { AreContexts result prev bytes.now }
    {
        Contexts {
            prev,
            classes: Classes::new(bytes),
        }
    }

    /// The places behind which that stands.
    pub fn behind_prev(&self, prev: Prev) -> u64
        ensures { (i : ℕ) → i < 64 → word_bit result i ≡
            one_later (prev_number self.now.prev == prev_number prev) (word_bit (class_word self.now.classes prev)) i }
    {
        one_later(
            self.classes.before(prev),
            self.prev.number() == prev.number(),
        )
    }

    /// The places of the bytes whose class is in the set.
    pub fn among(&self, set: NextSet) -> u64
        ensures { (i : ℕ) → word_bit result i ≡
            ((word_bit self.now.classes.words i && has_next set after.Word)
            || ((word_bit self.now.classes.newlines i && has_next set after.Newline)
            || (word_bit self.now.classes.others i && has_next set after.Other))) }
    {
        self.classes.among(set)
    }

    /// The places behind which that stands, and where what comes next has with it a context of the mask.
    fn part(&self, mask: Mask, prev: Prev) -> u64
        ensures { (first : Prev) (bytes : List ℕ) → AreContexts self.now first bytes → (i : ℕ) →
            word_bit result i ≡ is_part mask prev first bytes i }
    {
        self.behind_prev(prev) & self.classes.among(mask.row(prev))
    }

    /// The places whose context is in the mask, where the byte there comes next.
    pub fn places_before(&self, mask: Mask) -> u64
        ensures { (prev : Prev) (bytes : List ℕ) → AreContexts self.now prev bytes → (i : ℕ) →
            word_bit result i ≡ (nat_lt i (length bytes) && has_context mask (context_before prev bytes i)) }
    {
        self.part(mask, Prev::Start)
            | (self.part(mask, Prev::Word)
                | (self.part(mask, Prev::Newline) | self.part(mask, Prev::Other)))
    }

    /// The bytes behind which the context is in the mask, where nothing is known of what comes next.
    pub fn places_behind(&self, mask: Mask) -> u64
        ensures { (prev : Prev) (bytes : List ℕ) → AreContexts self.now prev bytes → (i : ℕ) →
            word_bit result i ≡ (nat_lt i (length bytes) && has_context mask (context_behind prev bytes i)) }
    {
        let words = only_if(self.classes.words, mask.contains(Prev::Word, Next::Unknown));
        let newlines = only_if(
            self.classes.newlines,
            mask.contains(Prev::Newline, Next::Unknown),
        );
        let others = only_if(
            self.classes.others,
            mask.contains(Prev::Other, Next::Unknown),
        );
        words | (newlines | others)
    }

    /// The places whose context is in the mask, behind any stream that the block may follow.
    pub fn before(&self, mask: Mask) -> u64
        ensures { TellsBefore self.now mask result }
    {
        self.places_before(mask)
    }

    /// The bytes behind which the context is in the mask, behind any stream that the block may follow.
    pub fn behind(&self, mask: Mask) -> u64
        ensures { TellsBehind self.now mask result }
    {
        self.places_behind(mask)
    }
}
