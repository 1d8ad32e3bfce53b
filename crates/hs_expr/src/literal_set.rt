//! The literal byte that a set stands for.
ghost use Rattle.std.specs.Prelude.{◌≡◌};
ghost use Rattle.std.specs.Option.{option_map};
ghost use Rattle.hs_base.specs.ByteSets.{members};
ghost use Rattle.hs_base.specs.Literals.{literal_of};
ghost use Rattle.hs_base.specs.LiteralView.{literal_byte};

use hs_base::{ByteSet, CASE_DISTANCE, LitByte};

/// What stands for exactly that set, where it has one byte, or the two cases of one letter. What the least member could
/// stand for is tried first, by whole words; the members of other sets are looked at one by one, up to the third.
pub(crate) fn literal_byte_of(set: &ByteSet) -> Option<LitByte>
    ensures { option_map literal_byte result ≡ literal_of (members set.now) }
{
    let least = least_byte(set.words());
    if *set == ByteSet::of(least) {
        return Some(LitByte::one(least));
    }
    let small = least | CASE_DISTANCE;
    if small.is_ascii_lowercase() {
        let letter = LitByte::letter(small);
        if *set == letter.set() {
            return Some(letter);
        }
    }
    LitByte::of_set(set)
}

/// The least member of the set with these words; 0 where it has none.
fn least_byte(words: [u64; 4]) -> u8 {
    for k in 0..4u8 {
        let word = words[k as usize];
        if word != 0 {
            return k * 64 + (word.trailing_zeros() % 64) as u8;
        }
    }
    0
}
