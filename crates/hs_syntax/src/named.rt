//! Classes of bytes that have a name or a letter.
ghost use Rattle.std.specs.Prelude.{◌≡◌, nat_eq};
ghost use Rattle.std.specs.Cmp.Lexicographic.{pointwise};
ghost use Rattle.hs_syntax.specs.Names.{is_of, ranges_beyond, named_letter, letter_class, other_class};
ghost use Rattle.hs_syntax.specs.Names.{under_case, class_of_name};

/// A class of bytes that has a name or a letter.
#[derive(Clone, Copy, Debug, PartialEq, Eq)]
pub enum Named {
    /// `\d`: the decimal digits.
    Digit,
    /// `\w`: letters, digits and the underscore.
    Word,
    /// `\s`: the blanks from 09 to 0D, and the space.
    Space,
    /// `\h`: the tab, the space and A0, in UTF-8 further blanks.
    HorizontalSpace,
    /// `\v`: the bytes from 0A to 0D, and 85, in UTF-8 further ends of lines.
    VerticalSpace,
    /// `[:alpha:]`
    Letter,
    /// `[:lower:]`
    SmallLetter,
    /// `[:upper:]`
    LargeLetter,
    /// `[:alnum:]`
    LetterOrDigit,
    /// `[:xdigit:]`
    HexadecimalDigit,
    /// `[:blank:]`
    Blank,
    /// `[:cntrl:]`
    Control,
    /// `[:ascii:]`
    Ascii,
    /// `[:graph:]`
    Graphic,
    /// `[:print:]`
    Printed,
    /// `[:punct:]`
    Punctuation,
}

/// The horizontal blanks that aren't ASCII.
const HORIZONTAL_SPACE: [(u32, u32); 7] = [
    (0xA0, 0xA0),
    (0x1680, 0x1680),
    (0x180E, 0x180E),
    (0x2000, 0x200A),
    (0x202F, 0x202F),
    (0x205F, 0x205F),
    (0x3000, 0x3000),
];

/// The vertical blanks that aren't ASCII.
const VERTICAL_SPACE: [(u32, u32); 2] = [(0x85, 0x85), (0x2028, 0x2029)];

impl Named {
    /// Whether the class has the byte.
    #[tactic(auto, unfolding(crate::specs::Names::is_of))]
    pub fn contains(self, byte: u8) -> bool
        ensures { result ≡ is_of self byte }
    {
        match self {
            Named::Digit => byte.is_ascii_digit(),
            Named::Word => byte.is_ascii_alphanumeric() || byte == b'_',
            Named::Space => matches!(byte, 0x09..=0x0D | b' '),
            Named::HorizontalSpace => matches!(byte, 0x09 | b' ' | 0xA0),
            Named::VerticalSpace => matches!(byte, 0x0A..=0x0D | 0x85),
            Named::Letter => byte.is_ascii_alphabetic(),
            Named::SmallLetter => byte.is_ascii_lowercase(),
            Named::LargeLetter => byte.is_ascii_uppercase(),
            Named::LetterOrDigit => byte.is_ascii_alphanumeric(),
            Named::HexadecimalDigit => matches!(byte, b'0'..=b'9' | b'a'..=b'f' | b'A'..=b'F'),
            Named::Blank => matches!(byte, 0x09 | b' '),
            Named::Control => matches!(byte, 0..=0x1F | 0x7F),
            Named::Ascii => byte <= 0x7F,
            Named::Graphic => matches!(byte, 0x21..=0x7E),
            Named::Printed => matches!(byte, 0x20..=0x7E),
            Named::Punctuation => matches!(byte, 0x21..=0x7E) && !byte.is_ascii_alphanumeric(),
        }
    }

    /// The code points of the class that aren't ASCII, by the first and the last of some in a row.
    #[tactic(auto, unfolding(crate::specs::Names::ranges_beyond))]
    pub fn ranges_beyond(self) -> &'static [(u32, u32)]
        ensures { result.now ≡ ranges_beyond self }
    {
        match self {
            Named::HorizontalSpace => &HORIZONTAL_SPACE,
            Named::VerticalSpace => &VERTICAL_SPACE,
            _ => &[],
        }
    }
}

/// The class of a letter behind a backslash.
#[tactic(auto, unfolding(crate::specs::Names::named_letter))]
pub(crate) fn named_letter(byte: u8) -> Option<Named>
    ensures { result ≡ named_letter byte }
{
    match byte {
        b'd' | b'D' => Some(Named::Digit),
        b'w' | b'W' => Some(Named::Word),
        b's' | b'S' => Some(Named::Space),
        b'h' | b'H' => Some(Named::HorizontalSpace),
        b'v' | b'V' => Some(Named::VerticalSpace),
        _ => None,
    }
}

/// The class of a name between `[:` and `:]`.
pub(crate) fn class_of_name(caseless: bool, name: &[u8]) -> Option<Named>
    ensures { result ≡ class_of_name caseless name.now }
{
    if let Some(class) = letter_class(name) {
        return Some(under_case(caseless, class));
    }
    if let Some(class) = other_class(name) {
        return Some(under_case(caseless, class));
    }
    None
}

/// The class of a name that speaks of letters and digits.
#[tactic(auto, unfolding(crate::specs::Names::letter_class))]
fn letter_class(name: &[u8]) -> Option<Named>
    ensures { result ≡ letter_class name.now }
{
    if spells(b"xdigit", name) {
        Some(Named::HexadecimalDigit)
    } else if spells(b"alpha", name) {
        Some(Named::Letter)
    } else if spells(b"lower", name) {
        Some(Named::SmallLetter)
    } else if spells(b"upper", name) {
        Some(Named::LargeLetter)
    } else if spells(b"digit", name) {
        Some(Named::Digit)
    } else if spells(b"alnum", name) {
        Some(Named::LetterOrDigit)
    } else if spells(b"word", name) {
        Some(Named::Word)
    } else {
        None
    }
}

/// The class of another name.
#[tactic(auto, unfolding(crate::specs::Names::other_class))]
fn other_class(name: &[u8]) -> Option<Named>
    ensures { result ≡ other_class name.now }
{
    if spells(b"space", name) {
        Some(Named::Space)
    } else if spells(b"blank", name) {
        Some(Named::Blank)
    } else if spells(b"cntrl", name) {
        Some(Named::Control)
    } else if spells(b"ascii", name) {
        Some(Named::Ascii)
    } else if spells(b"graph", name) {
        Some(Named::Graphic)
    } else if spells(b"print", name) {
        Some(Named::Printed)
    } else if spells(b"punct", name) {
        Some(Named::Punctuation)
    } else {
        None
    }
}

/// Whether the bytes are this word.
fn spells(word: &[u8], bytes: &[u8]) -> bool
    ensures { result ≡ pointwise nat_eq bytes.now word.now }
{
    bytes == word
}

/// The class, all letters in place of those of one case where case has no meaning.
fn under_case(caseless: bool, class: Named) -> Named
    ensures { result ≡ under_case caseless class }
{
    if caseless && matches!(class, Named::SmallLetter | Named::LargeLetter) {
        Named::Letter
    } else {
        class
    }
}
