//! Literals over a block: where one ends is known, and the words tell where it was entered.
//!
//! A literal of four bytes that was entered before the places 1 and 5 of a block, and once two bytes before it:
//!
//! ```text
//! place              0 1 2 3 4 5 6 7 8 9
//! entered here       . 1 . . . 1 . . . .
//! entered 4 before   . . 1 . . 1 . . . 1    the word, four places on; the first four from what was carried
//! ends here          . . . . . 1 . . 1 .
//! left here          . . . . . 1 . . . .
//! ```

ghost use Rattle.std.specs.Prelude.{◌≡◌, ℕ, ◌+◌, ◌<◌, ◌≤◌};
ghost use Rattle.hs_block.specs.LiteralBlocks.{RunsLiteral, is_hit, was_entered};
ghost use Rattle.hs_bits.specs.WordBits.{word_bit};

use hs_bits::{low_places, one_later};
use hs_engine::BlockEnds;

/// Where a literal ends in a block.
#[derive(Clone, Copy, Debug, PartialEq, Eq)]
pub struct Hits {
    /// It ends where the block begins.
    pub at_start: bool,
    /// A bit for each byte: it ends behind that.
    pub behind: u64,
}

impl Hits {
    /// A bit for each place: the literal ends there, before its byte.
    fn before(self) -> u64
        ensures { (i : ℕ) → i < 64 → word_bit result i ≡ is_hit self i }
    {
        one_later(self.behind, self.at_start)
    }
}

/// What a literal tells of a block.
#[derive(Clone, Copy, Debug, PartialEq, Eq)]
pub struct LiteralRun {
    /// Where it is left.
    pub ends: BlockEnds,
    /// Where it was entered behind the block, for the next one.
    pub carry: u64,
}

/// A bit for each place from one of the block on: whether a literal of so many bytes was entered that many before it.
/// The word `carry` says so for the first places, as far as they look back before the block.
pub fn entries_from(len: usize, enters: u64, carry: u64, from: usize) -> u64
    requires some { 1 ≤ len }
    requires short { len ≤ 32 }
    requires from { from ≤ 64 }
    ensures { (i : ℕ) → i < 64 → word_bit result i ≡ was_entered len enters carry (from + i) }
{
    if from < len {
        let distance = len - from;
        (enters << distance) | ((carry >> from) & low_places(distance))
    } else {
        enters >> (from - len)
    }
}

/// Runs a literal of so many bytes over a block of so many.
pub fn run_literal(len: usize, hits: Hits, enters: u64, carry: u64, count: usize) -> LiteralRun
    requires some { 1 ≤ len }
    requires short { len ≤ 32 }
    requires few { count ≤ 64 }
    ensures runs { RunsLiteral len hits enters carry count result }
    ensures carry { (i : ℕ) → i < len → word_bit result.carry i ≡ was_entered len enters carry (count + i) }
{
    let block = low_places(count);
    LiteralRun {
        ends: BlockEnds {
            before: block & (hits.before() & entries_from(len, enters, carry, 0)),
            behind: block & (hits.behind & entries_from(len, enters, carry, 1)),
        },
        carry: entries_from(len, enters, carry, count),
    }
}
