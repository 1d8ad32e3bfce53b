//! The tables of an automaton under construction: the positions so far, and what joins those of one part with those of
//! the next.

ghost use Rattle.std.specs.Prelude.{◌≡◌, ℕ, ◌+◌, ◌*◌, ◌-◌, ◌<◌, ◌≤◌, Bool, true, false, ◌&&◌, ◌==◌, max, IfOk, IfSome};
ghost use Rattle.std.specs.Prelude.{Option, Some, None, slice_get, length, vec_len};
ghost use Rattle.hs_base.specs.Contexts.{Context};
ghost use Rattle.hs_base.specs.ContextSets.{has_context};
ghost use Rattle.hs_engine.specs.Automata.{in_mask};
ghost use Rattle.hs_glushkov.specs.Ranges.{is_within};
ghost use Rattle.hs_glushkov.specs.Parts.{narrowed};

use crate::follow_masks::FollowMasks;
use hs_base::{ByteSet, Mask};
use std::alloc::{AllocError, Global};

/// Tables with room for all positions, of which the first ones are in use.
#[derive(Debug, Drop)]
pub struct Parts {
    /// The bytes of each position.
    pub sets: Vec<ByteSet>,
    /// The contexts in which each position is entered.
    pub enters: Vec<Mask>,
    /// The contexts in which each position accepts.
    pub accepts: Vec<Mask>,
    /// The contexts in which one position follows another.
    pub follows: FollowMasks,
    /// How many positions are in use.
    pub filled: usize,
    ghost enters_whole: { vec_len enters ≡ vec_len sets },
    ghost accepts_whole: { vec_len accepts ≡ vec_len sets },
    ghost follows_whole: { follows.size ≡ vec_len sets },
    ghost within: { filled ≤ vec_len sets },
}

impl Parts {
    ghost use Rattle.hs_base.specs.ByteSets.{members};
    ghost use Rattle.hs_base.specs.WrittenOut.{Core, class, count, at_least, copies_then, up_to, repeat_of, empty};
    ghost use Rattle.hs_glushkov.specs.Parts.{Table, IsAdded, IsClear, IsJoined, IsLooped, IsNull, IsRow};
    ghost use Rattle.hs_glushkov.specs.BuiltParts.{table_of};
    ghost use Rattle.hs_expr.specs.Counts.{written_copies};

    /// Tables with room for so many positions, of which none is in use.
    pub fn new(alloc: Global, size: usize) -> Result<Parts, AllocError>
        requires { size ≤ 512 }
        ensures size { IfOk result (λ parts. vec_len parts.sets ≡ size) }
        ensures filled { IfOk result (λ parts. parts.filled ≡ 0) }
        ensures clear { IfOk result (λ parts. IsClear (table_of parts) 0) }
    {
        Ok(Parts {
            sets: vec![in alloc; ByteSet::EMPTY; size]?,
            enters: vec![in alloc; Mask::empty(); size]?,
            accepts: vec![in alloc; Mask::empty(); size]?,
            follows: FollowMasks::new(alloc, size)?,
            filled: 0,
        })
    }

    /// Puts a position with that set behind the others. The contexts in which the empty text matches are none.
    pub fn add_class(&mut self, set: ByteSet) -> Mask
        requires room { self.old.filled < vec_len self.old.sets }
        requires clear { IsClear (table_of self.old) self.old.filled }
        ensures size { vec_len self.new.sets ≡ vec_len self.old.sets }
        ensures filled { self.new.filled ≡ self.old.filled + 1 }
        ensures added { IsAdded (table_of self.old) (table_of self.new) self.old.filled (class (members set))
            (has_context result) }
    {
        self.sets[self.filled] = set;
        self.enters[self.filled] = Mask::all();
        self.accepts[self.filled] = Mask::all();
        self.filled += 1;
        Mask::empty()
    }

    /// Joins the positions from `start` on, in whose place the empty text matches in the contexts `first`, with those
    /// from `middle` on, where it does in `last`: the ones come before the others.
    pub fn join(&mut self, start: usize, middle: usize, first: Mask, last: Mask)
        requires start { start ≤ middle }
        requires middle { middle ≤ self.old.filled }
        ensures size { vec_len self.new.sets ≡ vec_len self.old.sets }
        ensures filled { self.new.filled ≡ self.old.filled }
        ensures joined { IsJoined (table_of self.old) (table_of self.new) start middle self.old.filled
            (has_context first)
            (has_context last) }
    {
        let end = self.filled;
        self.follows
            .connect(&self.accepts, &self.enters, start, middle, middle, end);
        narrow(&mut self.accepts, start, middle, last);
        narrow(&mut self.enters, middle, end, first);
    }

    /// Lets the positions from `start` on go round.
    pub fn go_round(&mut self, start: usize)
        requires { start ≤ self.old.filled }
        ensures size { vec_len self.new.sets ≡ vec_len self.old.sets }
        ensures filled { self.new.filled ≡ self.old.filled }
        ensures looped { IsLooped (table_of self.old) (table_of self.new) start self.old.filled }
    {
        let end = self.filled;
        self.follows
            .connect(&self.accepts, &self.enters, start, end, start, end);
    }

    /// Makes of the copies of a body in a row its repeat: the positions from `start` on, `width` for each copy, in
    /// whose place the empty text matches in the contexts of the mask. Gives those in which it matches in place of the
    /// repeat.
    pub fn repeat(
        &mut self,
        start: usize,
        width: usize,
        least: u32,
        greatest: Option<u32>,
        null: Mask,
    ) -> Mask
        requires ordered { IfSome greatest (λ most. least ≤ most) }
        requires room { start + written_copies least greatest * width ≡ self.old.filled }
        ensures size { vec_len self.new.sets ≡ vec_len self.old.sets }
        ensures filled { self.new.filled ≡ self.old.filled }
        ensures added { (old : Table) (a : Core) →
            width ≡ count a →
            IsNull (has_context null) a →
            IsRow old (table_of self.old) start a (written_copies least greatest) empty self.old.filled →
            IsAdded old (table_of self.new) start (repeat_of least greatest a) (has_context result) }
    {
        match greatest {
            None => self.repeat_without_end(start, width, least as usize, null),
            Some(most) => {
                let least = least as usize;
                self.join_options(start, width, least, most as usize, null);
                self.join_copies(start, width, least, null, Mask::all())
            }
        }
    }

    /// The repeat of so many copies at least, but at least one is written out: the last one goes round.
    fn repeat_without_end(&mut self, start: usize, width: usize, least: usize, null: Mask) -> Mask
        requires room { start + max least 1 * width ≡ self.old.filled }
        ensures size { vec_len self.new.sets ≡ vec_len self.old.sets }
        ensures filled { self.new.filled ≡ self.old.filled }
        ensures added { (old : Table) (a : Core) →
            width ≡ count a →
            IsNull (has_context null) a →
            IsRow old (table_of self.old) start a (max least 1) empty self.old.filled →
            IsAdded old (table_of self.new) start (at_least least a) (has_context result) }
    {
        self.go_round(self.filled - width);
        if least == 0 {
            return Mask::all();
        }
        self.join_copies(start, width, least - 1, null, null)
    }

    /// Joins the copies from `least` up to `most`, each optional inside the one before.
    fn join_options(&mut self, start: usize, width: usize, least: usize, most: usize, null: Mask)
        requires ordered { least ≤ most }
        requires room { start + most * width ≤ self.old.filled }
        ensures size { vec_len self.new.sets ≡ vec_len self.old.sets }
        ensures filled { self.new.filled ≡ self.old.filled }
        ensures row { (old : Table) (a : Core) →
            width ≡ count a →
            IsNull (has_context null) a →
            IsRow old (table_of self.old) start a most empty self.old.filled →
            IsRow old (table_of self.new) start a least (up_to (most - least) a) self.new.filled }
    {
        for done in 0..most - least {
            self.join_copy(start, width, most - 1 - done, null, Mask::all());
        }
    }

    /// Joins so many copies, which must be taken, and what is behind them, in whose place the empty text matches in the
    /// contexts `rest`. Gives those in which it matches in place of all.
    fn join_copies(
        &mut self,
        start: usize,
        width: usize,
        copies: usize,
        null: Mask,
        rest: Mask,
    ) -> Mask
        requires room { start + copies * width ≤ self.old.filled }
        ensures size { vec_len self.new.sets ≡ vec_len self.old.sets }
        ensures filled { self.new.filled ≡ self.old.filled }
        ensures added { (old : Table) (a r : Core) →
            width ≡ count a →
            IsNull (has_context null) a →
            IsNull (has_context rest) r →
            IsRow old (table_of self.old) start a copies r self.old.filled →
            IsAdded old (table_of self.new) start (copies_then copies a r) (has_context result) }
    {
        let mut all = rest;
        for done in 0..copies {
            self.join_copy(start, width, copies - 1 - done, null, all);
            all = null.intersection(all);
        }
        all
    }

    /// Joins the copy of that number with all behind it, in whose place the empty text matches in the contexts `rest`.
    fn join_copy(&mut self, start: usize, width: usize, number: usize, null: Mask, rest: Mask)
        requires room { start + number * width + width ≤ self.old.filled }
        ensures size { vec_len self.new.sets ≡ vec_len self.old.sets }
        ensures filled { self.new.filled ≡ self.old.filled }
        ensures joined { IsJoined (table_of self.old) (table_of self.new) (start + number * width)
            (start + number * width + width) self.old.filled (has_context null) (has_context rest) }
    {
        let first = start + number * width;
        self.join(first, first + width, null, rest);
    }
}

/// Leaves of the masks from `low` to `high` only the contexts that are in the other.
fn narrow(masks: &mut [Mask], low: usize, high: usize, mask: Mask)
    requires order { low ≤ high }
    requires high { high ≤ length masks.old }
    ensures len { length masks.new ≡ length masks.old }
    ensures each { (x : ℕ) (c : Context) →
        in_mask (slice_get masks.new x) c ≡
        narrowed (is_within low high x) (has_context mask c) (in_mask (slice_get masks.old x) c) }
{
    for position in low..high {
        masks[position] = masks[position].intersection(mask);
    }
}
