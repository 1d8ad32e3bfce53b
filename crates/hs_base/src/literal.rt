//! A byte of a literal, and how many buckets the literals of a scanner are put into.
ghost use Rattle.std.specs.Prelude.{◌≡◌, true, false};
ghost use Rattle.hs_base.specs.Literals.{is_small_letter};

use crate::byte_set::ByteSet;

/// How far a capital letter stands below its small one (The Unicode Standard, "C0 Controls and Basic Latin").
pub const CASE_DISTANCE: u8 = 32;

/// Into how many buckets the literals of a scanner are put: a mask has a bit for each.
pub const BUCKETS: usize = 8;

/// What stands at one place of a literal: one byte, or a letter in either case.
#[derive(Clone, Copy, Debug, PartialEq, Eq)]
pub struct LitByte {
    /// The byte; where both cases count, the small letter.
    pub byte: u8,
    /// Whether the capital letter may stand here as well.
    pub both_cases: bool,
    pub ghost small: { both_cases ≡ true → is_small_letter byte ≡ true },
}

impl LitByte {
    ghost use Rattle.std.specs.Prelude.{[], ◌∷◌};
    ghost use Rattle.std.specs.Option.{option_map};
    ghost use Rattle.hs_base.specs.ByteSets.{members};
    ghost use Rattle.hs_base.specs.Literals.{takes, literal_set, literal_of, literal_of_places};
    ghost use Rattle.hs_base.specs.LiteralView.{literal_byte};

    /// Exactly that byte.
    pub fn one(byte: u8) -> LitByte
        ensures byte { result.byte ≡ byte }
        ensures case { result.both_cases ≡ false }
    {
        LitByte {
            byte,
            both_cases: false,
        }
    }

    /// Both cases of a letter, given by its small one.
    pub fn letter(small: u8) -> LitByte
        requires { is_small_letter small ≡ true }
        ensures byte { result.byte ≡ small }
        ensures case { result.both_cases ≡ true }
    {
        LitByte {
            byte: small,
            both_cases: true,
        }
    }

    /// Whether the byte may stand here.
    pub fn contains(&self, byte: u8) -> bool
        ensures { result ≡ takes (literal_byte self.now) byte }
    {
        byte == self.byte || (self.both_cases && byte == self.byte - CASE_DISTANCE)
    }

    /// The bytes that may stand here.
    pub fn set(&self) -> ByteSet
        ensures { members result ≡ literal_set (literal_byte self.now) }
    {
        let mut set = ByteSet::of(self.byte);
        if self.both_cases {
            set.insert(self.byte - CASE_DISTANCE);
        }
        set
    }

    /// What stands for exactly that set, where it has one byte, or the two cases of one letter.
    pub fn of_set(set: &ByteSet) -> Option<LitByte>
        ensures { option_map literal_byte result ≡ literal_of (members set.now) }
    {
        let mut members = set.iter();
        let first = match members.next() {
            Some(byte) => byte,
            None => return None,
        };
        let second = match members.next() {
            Some(byte) => byte,
            None => return Some(LitByte::one(first)),
        };
        match members.next() {
            Some(_) => None,
            None => LitByte::of_cases(first, second),
        }
    }

    /// What stands for exactly two bytes, the first below the second.
    fn of_cases(capital: u8, small: u8) -> Option<LitByte>
        ensures { option_map literal_byte result ≡ literal_of_places (capital ∷ small ∷ []) }
    {
        if small.is_ascii_lowercase() && capital == small - CASE_DISTANCE {
            return Some(LitByte::letter(small));
        }
        None
    }
}
