//! Which pairs of an identifier a block tells, from where its matches end about each byte: words with a bit for each.

ghost use Rattle.std.specs.Prelude.{◌≡◌, ℕ, ◌<◌, not, ◌&&◌, true, false, if◌then◌else◌, Bool};
ghost use Rattle.hs_reports.specs.Telling.{is_telling, leaves_to_end, TellsWords};
ghost use Rattle.hs_reports.specs.WordBits.{bit_before, word_bit};

use hs_bits::lowest_bit;

/// Which pairs of an identifier the bytes of a block decide.
#[derive(Clone, Copy)]
pub struct Telling {
    /// Bit i: the byte i decides the pair that ends before it.
    pub late: u64,
    /// Bit i: the byte i decides the pair that ends behind it.
    pub early: u64,
}

impl Telling {
    /// No pair is decided.
    pub const NOTHING: Telling = Telling { late: 0, early: 0 };

    /// Whether a pair is decided.
    pub fn is_some(self) -> bool
        ensures { result ≡ is_telling self.late self.early }
    {
        self.late != 0 || self.early != 0
    }
}

/// Which pairs of an identifier a block decides: of one that isn't single, each; of a single one the first of all, if
/// none was before. `told` and `here` say whether a pair of it is told already, and whether one that ends before the
/// block is; bit i of `before` and `behind`, whether a match ends before and behind byte i.
pub fn told_words(single: bool, told: bool, here: bool, before: u64, behind: u64) -> Telling
    ensures { TellsWords single told here before behind result }
{
    if !single {
        return Telling {
            late: not_told_behind(here, before, behind),
            early: behind,
        };
    }
    if told {
        return Telling::NOTHING;
    }
    first_words(before, behind)
}

/// The ends before a byte of which the pair isn't told as one behind the byte before it.
fn not_told_behind(here: bool, before: u64, behind: u64) -> u64
    ensures { (i : ℕ) → i < 64 → word_bit result i ≡ (word_bit before i && not (bit_before here behind i)) }
{
    before & !((behind << 1) | first_bit(here))
}

/// The lowest bit, if it is to be set.
fn first_bit(set: bool) -> u64
    ensures { result ≡ (if set then 1 else 0) }
{
    if set { 1 } else { 0 }
}

/// The first pair of all: the one that ends before the first byte about which a match ends, if one does, else the one
/// that ends behind it.
fn first_words(before: u64, behind: u64) -> Telling
    ensures { (here : Bool) → TellsWords true false here before behind result }
{
    let either = before | behind;
    if either == 0 {
        return Telling::NOTHING;
    }
    let first = 1 << lowest_bit(either);
    Telling {
        late: before & first,
        early: behind & first & !before,
    }
}

/// Whether a line feed leaves the pair that ends before it to the end of the stream, which would report it. `told` and
/// `here` say what is told before the line feed, as in `told_words`; the others, whether a match ends before it and
/// behind it, and whether one ends before it where it is the last byte.
pub fn is_left_to_end(
    single: bool,
    told: bool,
    here: bool,
    before: bool,
    behind: bool,
    before_last: bool,
) -> bool
    ensures { result ≡ leaves_to_end single told here before behind before_last }
{
    let is_told = if single {
        told | before | behind
    } else {
        here | before
    };
    before_last & !is_told
}
