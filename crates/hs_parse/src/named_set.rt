//! The sets of the classes that have a name or a letter.
ghost use Rattle.std.specs.Prelude.{◌≡◌, ℕ, ◌<◌};
ghost use Rattle.regex_class.specs.Ranges.{in_ranges};
ghost use Rattle.hs_base.specs.ByteSets.{has};
ghost use Rattle.hs_syntax.specs.Names.{is_of};

use crate::set::insert_range;
use hs_base::ByteSet;
use hs_syntax::Named;

const HORIZONTAL_SPACE: [(u32, u32); 3] = [(0x09, 0x09), (0x20, 0x20), (0xA0, 0xA0)];

const VERTICAL_SPACE: [(u32, u32); 2] = [(0x0A, 0x0D), (0x85, 0x85)];

const LETTER: [(u32, u32); 2] = [(0x41, 0x5A), (0x61, 0x7A)];

const SMALL_LETTER: [(u32, u32); 1] = [(0x61, 0x7A)];

const LARGE_LETTER: [(u32, u32); 1] = [(0x41, 0x5A)];

const LETTER_OR_DIGIT: [(u32, u32); 3] = [(0x30, 0x39), (0x41, 0x5A), (0x61, 0x7A)];

const HEXADECIMAL_DIGIT: [(u32, u32); 3] = [(0x30, 0x39), (0x41, 0x46), (0x61, 0x66)];

const BLANK: [(u32, u32); 2] = [(0x09, 0x09), (0x20, 0x20)];

const CONTROL: [(u32, u32); 2] = [(0x00, 0x1F), (0x7F, 0x7F)];

const ASCII: [(u32, u32); 1] = [(0x00, 0x7F)];

const GRAPHIC: [(u32, u32); 1] = [(0x21, 0x7E)];

const PRINTED: [(u32, u32); 1] = [(0x20, 0x7E)];

const PUNCTUATION: [(u32, u32); 4] = [(0x21, 0x2F), (0x3A, 0x40), (0x5B, 0x60), (0x7B, 0x7E)];

/// The bytes of the class.
pub(crate) fn named_set(class: Named) -> ByteSet
    ensures { (b : ℕ) → b < 256 → has result b ≡ is_of class b }
{
    match class {
        Named::Digit => ByteSet::DIGITS,
        Named::Word => ByteSet::WORD,
        Named::Space => ByteSet::SPACE,
        Named::HorizontalSpace => set_of(&HORIZONTAL_SPACE),
        Named::VerticalSpace => set_of(&VERTICAL_SPACE),
        Named::Letter => set_of(&LETTER),
        Named::SmallLetter => set_of(&SMALL_LETTER),
        Named::LargeLetter => set_of(&LARGE_LETTER),
        Named::LetterOrDigit => set_of(&LETTER_OR_DIGIT),
        Named::HexadecimalDigit => set_of(&HEXADECIMAL_DIGIT),
        Named::Blank => set_of(&BLANK),
        Named::Control => set_of(&CONTROL),
        Named::Ascii => set_of(&ASCII),
        Named::Graphic => set_of(&GRAPHIC),
        Named::Printed => set_of(&PRINTED),
        Named::Punctuation => set_of(&PUNCTUATION),
    }
}

/// The bytes of some ranges, each by its first and its last.
fn set_of(ranges: &[(u32, u32)]) -> ByteSet
    ensures { (b : ℕ) → b < 256 → has result b ≡ in_ranges ranges.now b }
{
    let mut set = ByteSet::EMPTY;
    for k in 0..ranges.len() {
        let (first, last) = ranges[k];
        insert_range(&mut set, false, first, last);
    }
    set
}
