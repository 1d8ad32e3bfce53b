//! What stands before an offset of a stream and what comes next, and sets of these. `specs/Contexts.antt` says which
//! context an offset has.

ghost use Rattle.std.specs.Prelude.{◌≡◌, ◌==◌};
ghost use Rattle.std.specs.Int.{bit_at};
ghost use Rattle.hs_base.specs.Assertions.{is_word_byte};
ghost use Rattle.hs_base.specs.Contexts.{Context, context_number, allows};

use crate::assertion::Assertion;

/// The line feed, which ends a line.
pub const LINE_FEED: u8 = 10;

/// What stands before an offset of a stream.
#[derive(Clone, Copy, Debug, PartialEq, Eq)]
pub enum Prev {
    /// Nothing: the offset is 0.
    Start,
    /// A byte of `[A-Za-z0-9_]`.
    Word,
    /// A line feed.
    Newline,
    /// Any other byte.
    Other,
}

impl Prev {
    ghost use Rattle.hs_base.specs.Assertions.{is_word_byte, line_feed};
    ghost use Rattle.hs_base.specs.Contexts.{prev_by, prev_number};

    /// What stands behind the byte.
    pub fn behind(byte: u8) -> Prev
        ensures { result ≡ prev_by (byte == line_feed) (is_word_byte byte) }
    {
        if byte == LINE_FEED {
            Prev::Newline
        } else if is_word(byte) {
            Prev::Word
        } else {
            Prev::Other
        }
    }

    /// The number by which masks keep it, from 0 to 3.
    pub fn number(self) -> u8
        ensures { result ≡ prev_number self }
    {
        match self {
            Prev::Start => 0,
            Prev::Word => 1,
            Prev::Newline => 2,
            Prev::Other => 3,
        }
    }
}

/// What comes next at an offset of a stream.
#[derive(Clone, Copy, Debug, PartialEq, Eq)]
pub enum Next {
    /// A byte of `[A-Za-z0-9_]`.
    Word,
    /// A line feed that isn't known to be the last byte.
    Newline,
    /// Any other byte.
    Other,
    /// The end of the stream.
    End,
    /// A line feed that is the last byte of the stream.
    FinalNewline,
    /// Nothing is known yet: the stream may go on or end.
    Unknown,
}

impl Next {
    ghost use Rattle.hs_base.specs.Contexts.{class_of, next_number};

    /// How many there are: the bits that a mask keeps for each `Prev`.
    pub const COUNT: u8 = 6;

    /// The class of a byte: what comes next before it where more bytes may follow.
    pub fn class_of(byte: u8) -> Next
        ensures { result ≡ class_of byte }
    {
        if byte == LINE_FEED {
            Next::Newline
        } else if is_word(byte) {
            Next::Word
        } else {
            Next::Other
        }
    }

    /// The number by which sets keep it, from 0 to 5.
    pub fn number(self) -> u8
        ensures { result ≡ next_number self }
    {
        match self {
            Next::Word => 0,
            Next::Newline => 1,
            Next::Other => 2,
            Next::End => 3,
            Next::FinalNewline => 4,
            Next::Unknown => 5,
        }
    }
}

/// A set of what comes next.
#[derive(Clone, Copy, Debug, PartialEq, Eq)]
pub struct NextSet {
    /// Member `n` is bit `n.number()`.
    bits: u8,
}

impl NextSet {
    ghost use Rattle.std.specs.Prelude.{Bool, true, false, ◌||◌, ◌&&◌, ◌↔◌, IsTrue};
    ghost use Rattle.hs_base.specs.declared.context.Next.{Next};
    ghost use Rattle.hs_base.specs.ContextSets.{has_next};
    ghost use Rattle.hs_base.specs.Contexts.{next_number};

    /// Nothing.
    pub fn empty() -> NextSet
        ensures { (next : Next) → has_next result next ≡ false }
    {
        NextSet { bits: 0 }
    }

    /// All six.
    pub fn all() -> NextSet
        ensures { (next : Next) → has_next result next ≡ true }
    {
        NextSet { bits: 0b11_1111 }
    }

    /// That one alone.
    pub fn of(next: Next) -> NextSet
        ensures { (other : Next) → has_next result other ≡ (next_number other == next_number next) }
    {
        NextSet {
            bits: 1 << next.number(),
        }
    }

    /// Whether that is a member.
    pub fn contains(self, next: Next) -> bool
        ensures { result ≡ has_next self next }
    {
        (self.bits >> next.number()) & 1 == 1
    }

    /// The members of either set.
    pub fn union(self, other: NextSet) -> NextSet
        ensures { (next : Next) → has_next result next ≡ (has_next self next || has_next other next) }
    {
        NextSet {
            bits: self.bits | other.bits,
        }
    }

    /// The members of both sets.
    pub fn intersection(self, other: NextSet) -> NextSet
        ensures { (next : Next) → has_next result next ≡ (has_next self next && has_next other next) }
    {
        NextSet {
            bits: self.bits & other.bits,
        }
    }
}

/// A set of contexts.
#[derive(Clone, Copy, Debug, PartialEq, Eq)]
pub struct Mask {
    /// The context of `prev` and `next` is bit `Next::COUNT * prev.number() + next.number()`.
    bits: u32,
}

impl Mask {
    ghost use Rattle.std.specs.Prelude.{true, false, ◌||◌, ◌&&◌};
    ghost use Rattle.hs_base.specs.declared.context.Next.{Next};
    ghost use Rattle.hs_base.specs.ContextSets.{has_next, has_context};
    ghost use Rattle.hs_base.specs.Contexts.{Context, allows};

    /// No context.
    pub fn empty() -> Mask
        ensures { (c : Context) → has_context result c ≡ false }
    {
        Mask { bits: 0 }
    }

    /// Every context.
    pub fn all() -> Mask
        ensures { (c : Context) → has_context result c ≡ true }
    {
        Mask { bits: 0xff_ffff }
    }

    /// The contexts in which the assertion holds.
    pub fn of(assertion: Assertion) -> Mask
        ensures { (c : Context) → has_context result c ≡ allows assertion c }
    {
        Mask {
            bits: assertion_bits(assertion),
        }
    }

    /// Whether that context is a member.
    pub fn contains(self, prev: Prev, next: Next) -> bool
        ensures { result ≡ has_context self (record { prev = prev; next = next }) }
    {
        (self.bits >> (Next::COUNT * prev.number() + next.number())) & 1 == 1
    }

    /// The contexts of either set.
    pub fn union(self, other: Mask) -> Mask
        ensures { (c : Context) → has_context result c ≡ (has_context self c || has_context other c) }
    {
        Mask {
            bits: self.bits | other.bits,
        }
    }

    /// The contexts of both sets.
    pub fn intersection(self, other: Mask) -> Mask
        ensures { (c : Context) → has_context result c ≡ (has_context self c && has_context other c) }
    {
        Mask {
            bits: self.bits & other.bits,
        }
    }

    /// What may come next behind `prev`.
    pub fn row(self, prev: Prev) -> NextSet
        ensures { (next : Next) → has_next result next ≡ has_context self (record { prev = prev; next = next }) }
    {
        NextSet {
            bits: ((self.bits >> (Next::COUNT * prev.number())) & 0b11_1111) as u8,
        }
    }
}

/// The bits of the contexts in which the assertion holds: a row of six for each `Prev`, from `Other` down to `Start`.
fn assertion_bits(assertion: Assertion) -> u32
    ensures { (c : Context) → (bit_at result (context_number c) == 1) ≡ allows assertion c }
{
    match assertion {
        Assertion::StreamStart => 0b000000_000000_000000_111111,
        Assertion::LineStart => 0b000000_010111_000000_111111,
        Assertion::LineEnd => 0b011010_011010_011010_011010,
        Assertion::EndOrFinalNewline => 0b011000_011000_011000_011000,
        Assertion::StreamEnd => 0b001000_001000_001000_001000,
        Assertion::WordBoundary => 0b000001_000001_011110_000001,
        Assertion::NotWordBoundary => 0b011110_011110_000001_011110,
    }
}

/// Whether the byte is one of `[A-Za-z0-9_]`.
fn is_word(byte: u8) -> bool
    ensures { result ≡ is_word_byte byte }
{
    let digit = (b'0' <= byte) & (byte <= b'9');
    let upper = (b'A' <= byte) & (byte <= b'Z');
    let lower = (b'a' <= byte) & (byte <= b'z');
    digit | upper | lower | (byte == b'_')
}
