//! What an automaton over the regions of some engines is made of.

ghost use Rattle.std.specs.Prelude.{◌≡◌, ◌≤◌, length};

use crate::end_table::EndTable;
use hs_base::{ByteSet, Prev};

/// How many bytes the regions of its engines have together at most.
pub(crate) const IMAGE_BYTES: usize = 512;

/// How many words have a bit for each member.
pub(crate) const MEMBER_WORDS: usize = 4;

/// An engine of the automaton.
#[derive(Clone, Copy, Debug)]
pub struct Member {
    /// The number by which its owner knows it.
    pub number: u32,
    /// Its number among the engines.
    pub engine: u32,
    /// Where its region begins in an image.
    pub start: u32,
    /// Where it ends.
    pub end: u32,
    /// The bytes that may wake it: over others its region stays all 0 where it is.
    pub wakers: ByteSet,
    /// Whether it was given up: it is run no more.
    pub is_dropped: bool,
}

/// A state of the automaton: the regions of all members, and what stands before the next byte.
#[derive(Clone, Copy, Debug)]
pub struct State {
    /// The regions, one behind the other.
    pub image: [u8; IMAGE_BYTES],
    /// What stands before the next byte.
    pub prev: Prev,
    /// A bit for each member in whose region something is live.
    pub live: [u64; MEMBER_WORDS],
}

/// The members whose expressions a byte leaves.
#[derive(Clone, Copy, Debug)]
pub struct EndSet {
    /// A bit for each member that is left before the byte, where that byte comes next.
    pub before: [u64; MEMBER_WORDS],
    /// A bit for each member that is left behind the byte, where nothing is known of what comes next.
    pub behind: [u64; MEMBER_WORDS],
}

impl EndSet {
    /// No member.
    pub(crate) const NOWHERE: EndSet = EndSet {
        before: [0; MEMBER_WORDS],
        behind: [0; MEMBER_WORDS],
    };
}

/// What a chunk made of an automaton.
#[derive(Clone, Copy, Debug)]
pub struct Run {
    /// The image before the chunk.
    pub image: [u8; IMAGE_BYTES],
    /// The step of each byte.
    pub trace: [u32; CHUNK_BYTES],
    /// How many bytes the chunk had.
    pub count: usize,
    /// The state behind the chunk.
    pub state: usize,
    /// Whether the chunk was taken.
    pub is_done: bool,
    /// Where its members are left in it.
    pub ends: EndTable,
    ghost few: { count ≤ 512 },
    ghost image_len: { length image ≡ 512 },
}

/// How many bytes a chunk has at most.
pub(crate) const CHUNK_BYTES: usize = 512;

impl Run {
    ghost use Rattle.std.specs.Prelude.{◌≡◌, ◌≤◌, length};
    ghost use Rattle.hs_lazy.specs.Parts.{IsBeside, part};
    ghost use Rattle.hs_lazy.specs.declared.parts.Member.{Member};

    /// No chunk.
    pub(crate) const NOTHING: Run = Run {
        image: [0; IMAGE_BYTES],
        trace: [0; CHUNK_BYTES],
        count: 0,
        state: 0,
        is_done: false,
        ends: EndTable::NOWHERE,
    };

    /// Loads the region of a member.
    pub(crate) fn load(&mut self, member: Member, region: &[u8])
        requires rising { member.start ≤ member.end }
        requires within { member.end ≤ 512 }
        requires sized { length region.now ≡ length (part self.old.image member) }
        ensures own { part self.new.image member ≡ region.now }
        ensures others { (other : Member) → IsBeside member other →
            part self.new.image other ≡ part self.old.image other }
    {
        self.image[member.start as usize..member.end as usize].copy_from_slice(region);
    }
}
