//! Sets of what may stand before an offset.

use hs_base::{ByteSet, Prev};

/// How many bytes there are.
pub(crate) const ALL_BYTES: usize = 256;

/// A set of what may stand before an offset.
#[derive(Clone, Copy, Debug, PartialEq, Eq)]
pub struct PrevSet {
    /// Member `p` is bit `p.number()`.
    bits: u8,
}

impl PrevSet {
    ghost use Rattle.std.specs.Prelude.{◌≡◌, ◌==◌, ◌&&◌, ◌||◌, true, false};
    ghost use Rattle.hs_base.specs.declared.context.Prev.{Prev};
    ghost use Rattle.hs_base.specs.declared.context.Prev.TheVariants.{Start};
    ghost use Rattle.hs_base.specs.Contexts.{prev_number};
    ghost use Rattle.hs_waking.specs.PrevSets.{AreBytesBehind, has_prev, is_each};

    /// Nothing may.
    pub fn empty() -> PrevSet
        ensures { (prev : Prev) → has_prev result prev ≡ false }
    {
        PrevSet { bits: 0 }
    }

    /// All four.
    pub fn all() -> PrevSet
        ensures members { (prev : Prev) → has_prev result prev ≡ true }
        ensures each { is_each result ≡ true }
    {
        PrevSet { bits: 0b1111 }
    }

    /// That one besides, if it is wanted.
    pub fn with(self, prev: Prev, wanted: bool) -> PrevSet
        ensures { (other : Prev) → has_prev result other ≡
            (((prev_number other == prev_number prev) && wanted) || has_prev self other) }
    {
        if !wanted {
            return self;
        }
        PrevSet {
            bits: self.bits | (1 << prev.number()),
        }
    }

    /// Whether that is a member.
    #[inline(always)]
    pub fn contains(self, prev: Prev) -> bool
        ensures { result ≡ has_prev self prev }
    {
        (self.bits >> prev.number()) & 1 == 1
    }

    /// Whether all four are members.
    #[inline(always)]
    pub fn is_all(self) -> bool
        ensures each { result ≡ is_each self }
        ensures members { result ≡ true → (prev : Prev) → has_prev self prev ≡ true }
    {
        self.bits == 0b1111
    }

    /// Whether nothing else is a member but the start.
    #[inline(always)]
    pub fn is_start(self) -> bool
        ensures { result ≡ true → (prev : Prev) → has_prev self prev ≡ true → prev ≡ Start }
    {
        self.bits == 1
    }

    /// The bytes behind which a member stands.
    pub fn bytes(self) -> ByteSet
        ensures { AreBytesBehind self result }
    {
        let mut bytes = ByteSet::EMPTY;
        for byte in 0..ALL_BYTES {
            if self.contains(Prev::behind(byte as u8)) {
                bytes.insert(byte as u8);
            }
        }
        bytes
    }
}
