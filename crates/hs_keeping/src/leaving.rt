//! What the last byte of a write leaves to the end of the stream: of a line feed by what would end before it were it
//! the last byte, of any other one nothing.

ghost use Rattle.std.specs.Prelude.{◌≡◌, ◌*◌, ◌<◌, ℕ, false, length};
ghost use Rattle.hs_base.specs.Bits.{has_word_bit, word_count};
ghost use Rattle.hs_reports.specs.EndTables.{HasNoEnds, words_of};
ghost use Rattle.hs_reports.specs.Telling.{leaves_to_end};
ghost use Rattle.hs_reports.specs.WordBits.{word_bit};
ghost use Rattle.hs_keeping.specs.Knowing.{FitsKnown};
ghost use Rattle.hs_keeping.specs.Leaving.{AreLeftByLineFeed};

use crate::known::Known;
use hs_bits::{contains_word_bit, write_word_bit};
use hs_reports::{Identifier, IdentifierEnds, is_left_to_end};

/// Whether the end before the byte of the identifier of that number is set.
pub(crate) fn is_final(finals: &IdentifierEnds, p: usize) -> bool
    requires { p < length finals.now.words }
    ensures { result ≡ word_bit (words_of finals.now p).before 0 }
{
    let words = finals.words(p);
    words.before & 1 == 1
}

/// Whether a line feed leaves the identifier of that number to the end, by its ends about it.
fn leaves_one(identifier: Identifier, known: &Known, finals: &IdentifierEnds, p: usize) -> bool
    requires there { p < length finals.now.words }
    requires ends { p < length known.now.ends.words }
    requires told { p < 64 * length known.now.told.items }
    requires here { p < 64 * length known.now.here.items }
    ensures { result ≡ leaves_to_end identifier.single (has_word_bit known.now.told.items p)
        (has_word_bit known.now.here.items p) (word_bit (words_of known.now.ends p).before 0)
        (word_bit (words_of known.now.ends p).behind 0) (word_bit (words_of finals.now p).before 0) }
{
    let words = known.ends.words(p);
    is_left_to_end(
        identifier.single,
        contains_word_bit(&known.told, p),
        contains_word_bit(&known.here, p),
        words.before & 1 == 1,
        words.behind & 1 == 1,
        is_final(finals, p),
    )
}

/// Writes which identifiers a line feed leaves to the end.
pub fn fill_last(
    identifiers: &[Identifier],
    known: &Known,
    finals: &IdentifierEnds,
    last: &mut [u64],
)
    requires fits { FitsKnown (length identifiers.now) known.now }
    requires finals { length finals.now.words ≡ length identifiers.now }
    requires last { length last.old ≡ word_count (length identifiers.now) }
    ensures len { length last.new ≡ length last.old }
    ensures left { AreLeftByLineFeed identifiers.now known.now.told.items known.now.here.items known.now.ends
        finals.now last.new }
{
    for p in 0..identifiers.len() {
        write_word_bit(last, p, leaves_one(identifiers[p], known, finals, p));
    }
}

/// No identifier is left to the end.
#[inline]
pub fn leave_none(last: &mut [u64])
    ensures len { length last.new ≡ length last.old }
    ensures none { (p : ℕ) → has_word_bit last.new p ≡ false }
{
    for word in last.iter_mut() {
        *word = 0;
    }
}

/// Forgets the ends of all identifiers.
pub fn forget_finals(finals: &mut IdentifierEnds)
    ensures count { length finals.new.words ≡ length finals.old.words }
    ensures none { HasNoEnds finals.new }
{
    let _ = finals.count();
    let mut from = 0;
    while let Some(p) = finals.next(from) {
        finals.reset(p, false);
        from = p + 1;
    }
}
