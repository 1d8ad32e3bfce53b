//! Sets of bytes, and the sets that the pattern syntax names.
ghost use Rattle.std.specs.Prelude.{◌≡◌, ℕ, ◌<◌, ◌==◌, not};
ghost use Rattle.std.specs.Int.{bit_at};

use crate::members::Members;

/// A set of bytes.
#[derive(Clone, Copy, Debug, PartialEq, Eq)]
pub struct ByteSet {
    /// Byte `b` is bit `b % 64` of word `b / 64`.
    words: [u64; 4],
}

impl ByteSet {
    ghost use Rattle.std.specs.Prelude.{◌≡◌, ℕ, ◌<◌, ◌==◌, ◌||◌, not, true, false};
    ghost use Rattle.hs_base.specs.ByteSets.{has, members, members_from, bytes_where, is_digit, is_space};
    ghost use Rattle.hs_base.specs.Bits.{has_word_bit};
    ghost use Rattle.hs_base.specs.Assertions.{line_feed, is_word_byte};
    ghost use Rattle.hs_base.specs.Members.{members_left};

    /// No byte.
    pub const EMPTY: ByteSet = ByteSet { words: [0; 4] };
    /// Every byte.
    pub const ALL: ByteSet = ByteSet {
        words: [u64::MAX; 4],
    };
    /// Every byte but the line feed: `.` without the option s.
    pub const NOT_NEWLINE: ByteSet = ByteSet {
        words: [u64::MAX - (1 << 10), u64::MAX, u64::MAX, u64::MAX],
    };

    /// The decimal digits: `\d`.
    pub const DIGITS: ByteSet = ByteSet {
        words: [0x03FF_0000_0000_0000, 0, 0, 0],
    };
    /// The word bytes, letters, digits and the underscore: `\w`.
    pub const WORD: ByteSet = ByteSet {
        words: [0x03FF_0000_0000_0000, 0x07FF_FFFE_87FF_FFFE, 0, 0],
    };
    /// The blanks from 09 to 0D, and the space: `\s`.
    pub const SPACE: ByteSet = ByteSet {
        words: [0x0000_0001_0000_3E00, 0, 0, 0],
    };

    /// The named sets are those that their names say.
    pub fn named_sets()
        ensures empty { members ByteSet.EMPTY ≡ bytes_where (λ _. false) }
        ensures all { members ByteSet.ALL ≡ bytes_where (λ _. true) }
        ensures not_newline { members ByteSet.NOT_NEWLINE ≡ bytes_where (λ b. not (b == line_feed)) }
        ensures digits { members ByteSet.DIGITS ≡ bytes_where is_digit }
        ensures word { members ByteSet.WORD ≡ bytes_where is_word_byte }
        ensures space { members ByteSet.SPACE ≡ bytes_where is_space }
    {}

    /// The set of one byte.
    pub fn of(byte: u8) -> ByteSet
        ensures { (b : ℕ) → b < 256 → has result b ≡ (b == byte) }
    {
        let mut set = ByteSet::EMPTY;
        set.insert(byte);
        set
    }

    /// Whether the byte is a member.
    #[inline(always)]
    #[tactic(auto, using(std::proofs::lemmas::Nat::Bits::shr_and_one), unfolding(crate::specs::ByteSets::has))]
    pub fn contains(&self, byte: u8) -> bool
        ensures { result ≡ has self.now byte }
    {
        (self.words[byte as usize / 64] >> (byte % 64)) & 1 == 1
    }

    /// The members as bits: byte `b` is bit `b % 64` of word `b / 64`.
    #[inline]
    #[tactic(auto, unfolding(crate::specs::ByteSets::has, crate::specs::Bits::has_word_bit))]
    pub fn words(&self) -> [u64; 4]
        ensures { (b : ℕ) → has_word_bit result b ≡ has self.now b }
    {
        self.words
    }

    /// Adds a byte.
    pub fn insert(&mut self, byte: u8)
        ensures { (b : ℕ) → b < 256 → has self.new b ≡ ((b == byte) || has self.old b) }
    {
        self.words[byte as usize / 64] |= 1 << (byte % 64);
    }

    /// The members, rising.
    pub fn iter(&self) -> Members
        ensures { members_left result ≡ members_from self.now 0 }
    {
        Members::new(*self)
    }

    /// The bytes of either set.
    pub fn union(&self, other: &ByteSet) -> ByteSet
        ensures { (b : ℕ) → b < 256 → has result b ≡ (has self.now b || has other.now b) }
    {
        let [a0, a1, a2, a3] = self.words;
        let [b0, b1, b2, b3] = other.words;
        ByteSet {
            words: [a0 | b0, a1 | b1, a2 | b2, a3 | b3],
        }
    }

    /// The bytes that aren't members.
    pub fn complement(&self) -> ByteSet
        ensures { (b : ℕ) → b < 256 → has result b ≡ not (has self.now b) }
    {
        let [w0, w1, w2, w3] = self.words;
        ByteSet {
            words: [flipped(w0), flipped(w1), flipped(w2), flipped(w3)],
        }
    }
}

/// The word with every bit turned over.
fn flipped(word: u64) -> u64
    ensures { (i : ℕ) → i < 64 → (bit_at result i == 1) ≡ not (bit_at word i == 1) }
{
    !word
}
