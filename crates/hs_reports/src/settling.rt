//! What a block settles of the identifiers that it concerns.

ghost use Rattle.std.specs.Prelude.{◌≡◌, ℕ, true, ◌+◌, ◌<◌, ◌≤◌, ◌*◌, length};
ghost use Rattle.hs_base.specs.Bits.{has_word_bit, word_count};
ghost use Rattle.hs_base.specs.Lists.{Each, IsMember};
ghost use Rattle.hs_reports.specs.EndTables.{HasNoEnds};
ghost use Rattle.hs_reports.specs.Identifiers.{id_numbers, numbers_of};
ghost use Rattle.hs_reports.specs.Settlement.{AreOnlyPending, ArePending, SettlesBlock, SettlesOne};

use crate::block::has_bit;
use crate::identifier::Identifier;
use crate::identifier_ends::IdentifierEnds;
use crate::telling::told_words;
use crate::tellings::Tellings;
use hs_bits::{contains_word_bit, write_word_bit};

/// Settles each noted identifier by its ends about a block, of which `last` is the place of the last byte. The bits
/// `told` and `here` say of each identifier whether a pair of it is told, if it is single, and whether one is that ends
/// before the block. Behind the call they say it of the bytes up to the block's last, and what is told of the block
/// waits in `tellings`, with identifiers of the list alone; of an identifier that is single and told nothing is told,
/// and its ends may be any. Identifiers of which a pair ends behind the block stay noted, and no other.
pub fn settle_block(
    identifiers: &[Identifier],
    ends: &mut IdentifierEnds,
    told: &mut [u64],
    here: &mut [u64],
    last: usize,
    tellings: &mut Tellings,
)
    requires ends { length ends.old.words ≡ length identifiers.now }
    requires told { length told.old ≡ word_count (length identifiers.now) }
    requires here { length here.old ≡ word_count (length identifiers.now) }
    requires last { last < 64 }
    requires room { length identifiers.now ≤ tellings.old.room }
    ensures ends { length ends.new.words ≡ length ends.old.words }
    ensures grows { (p : ℕ) → has_word_bit told.old p ≡ true → has_word_bit told.new p ≡ true }
    ensures emptied { HasNoEnds ends.new }
    ensures room { tellings.new.room ≡ tellings.old.room }
    ensures pending { ArePending here.old ends.old → ArePending here.new ends.new }
    ensures no_other { AreOnlyPending here.new ends.new }
    ensures named { Each (λ id. IsMember id (numbers_of identifiers.now)) (id_numbers tellings.new.ids) }
    ensures settled { SettlesBlock identifiers.now (last + 1) ends.old told.old here.old told.new here.new
        tellings.new }
{
    tellings.clear();
    let mut noted = ends.next(0);
    while let Some(place) = noted {
        settle_one(identifiers[place], place, ends, told, here, last, tellings);
        noted = ends.next(place + 1);
    }
}

/// Settles the identifier of that number.
fn settle_one(
    identifier: Identifier,
    place: usize,
    ends: &mut IdentifierEnds,
    told: &mut [u64],
    here: &mut [u64],
    last: usize,
    tellings: &mut Tellings,
)
    requires ends { place < length ends.old.words }
    requires told { place < 64 * length told.old }
    requires here { place < 64 * length here.old }
    requires last { last < 64 }
    requires room { length tellings.old.ids < tellings.old.room }
    ensures { SettlesOne identifier place last ends.old ends.new told.old told.new here.old here.new tellings.old
        tellings.new }
{
    let words = ends.words(place);
    let was_told = contains_word_bit(told, place);
    let was_here = contains_word_bit(here, place);
    let telling = told_words(
        identifier.single,
        was_told,
        was_here,
        words.before,
        words.behind,
    );
    let is_here = has_bit(telling.early, last);
    write_word_bit(
        told,
        place,
        was_told | (identifier.single & telling.is_some()),
    );
    write_word_bit(here, place, is_here);
    ends.reset(place, is_here);
    tellings.push(identifier.id, telling);
}
