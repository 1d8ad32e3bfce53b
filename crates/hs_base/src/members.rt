//! The members of a set of bytes, rising.
ghost use Rattle.std.specs.Prelude.{◌≤◌};

use crate::byte_set::ByteSet;

/// The members of a set from some byte on, rising.
#[derive(Clone, Debug, Drop)]
pub struct Members {
    set: ByteSet,
    /// The least byte that hasn't been looked at; 256 behind the last one.
    next: u16,
}

impl Members {
    ghost use Rattle.std.specs.Prelude.{◌≡◌};
    ghost use Rattle.hs_base.specs.ByteSets.{members_from};
    ghost use Rattle.hs_base.specs.Members.{members_left};

    /// All members of a set.
    pub fn new(set: ByteSet) -> Members
        ensures { members_left result ≡ members_from set 0 }
    {
        Members { set, next: 0 }
    }
}

impl Iterator for Members {
    ghost use Rattle.std.specs.Iterator.{YieldsFirst, item_count};
    ghost use Rattle.hs_base.specs.Members.{members_left};

    type Item = u8;

    ghost next_gives = { YieldsFirst members_left };

    ghost remaining = { item_count members_left };

    fn next(&mut self) -> Option<u8> {
        while self.next < 256 {
            let byte = self.next as u8;
            self.next += 1;
            if self.set.contains(byte) {
                return Some(byte);
            }
        }
        None
    }
}
