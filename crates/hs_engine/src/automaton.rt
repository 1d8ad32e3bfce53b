//! The position automaton as data.

ghost use Rattle.std.specs.Prelude.{◌≡◌, ◌+◌, ◌*◌, ◌≤◌, IfOk, vec_len};

use crate::follow_rows::FollowRows;
use hs_base::{ByteSet, Mask};
use std::alloc::{AllocError, Global};

/// The bytes that a set and two masks take, which each position has.
const POSITION_LEN: usize = 40;

/// A position automaton: positions with their sets of bytes, and masks of contexts for entering, following and
/// accepting.
#[derive(Debug, Drop)]
pub struct Automaton {
    /// The bytes of each position.
    sets: Vec<ByteSet>,
    /// The contexts before the byte of each position in which a match may begin with it.
    enters: Vec<Mask>,
    /// The contexts behind the byte of each position in which a match may end there.
    accepts: Vec<Mask>,
    /// The positions whose bytes may come behind that of each position, in the contexts in which a byte comes next.
    follows: FollowRows,
    /// The contexts in which the empty text matches.
    null: Mask,
    /// Whether the expression has an assertion.
    has_assertion: bool,
    ghost few: { vec_len sets ≤ 512 },
    ghost enters_whole: { vec_len enters ≡ vec_len sets },
    ghost accepts_whole: { vec_len accepts ≡ vec_len sets },
    ghost follows_whole: { follows.size ≡ vec_len sets },
}

impl Automaton {
    ghost use Rattle.hs_engine.specs.Tables.{IsCopy};

    /// The automaton of positions with these sets and masks, one of each for each position, and of what follows them.
    pub fn new(
        sets: Vec<ByteSet>,
        enters: Vec<Mask>,
        accepts: Vec<Mask>,
        follows: FollowRows,
        null: Mask,
        has_assertion: bool,
    ) -> Automaton
        requires few { vec_len sets ≤ 512 }
        requires enters { vec_len enters ≡ vec_len sets }
        requires accepts { vec_len accepts ≡ vec_len sets }
        requires follows { follows.size ≡ vec_len sets }
        ensures sets { result.sets ≡ sets }
        ensures enters { result.enters ≡ enters }
        ensures accepts { result.accepts ≡ accepts }
        ensures follows { result.follows ≡ follows }
        ensures null { result.null ≡ null }
        ensures assertion { result.has_assertion ≡ has_assertion }
    {
        Automaton {
            sets,
            enters,
            accepts,
            follows,
            null,
            has_assertion,
        }
    }

    /// An automaton that shares no memory with this one.
    pub fn copy(&self, alloc: Global) -> Result<Automaton, AllocError>
        ensures { IfOk result (λ copy. IsCopy copy self.now) }
    {
        Ok(Automaton {
            sets: Vec::from_slice(alloc, &self.sets)?,
            enters: Vec::from_slice(alloc, &self.enters)?,
            accepts: Vec::from_slice(alloc, &self.accepts)?,
            follows: self.follows.copy(alloc)?,
            null: self.null,
            has_assertion: self.has_assertion,
        })
    }

    /// How many positions there are.
    pub fn size(&self) -> usize
        ensures size { result ≡ vec_len self.now.sets }
        ensures few { result ≤ 512 }
    {
        self.sets.len()
    }

    /// The bytes of each position.
    pub fn sets(&self) -> &[ByteSet]
        ensures { result.now ≡ self.now.sets.items }
    {
        &self.sets
    }

    /// The contexts before the byte of each position in which a match may begin with it.
    pub fn enters(&self) -> &[Mask]
        ensures { result.now ≡ self.now.enters.items }
    {
        &self.enters
    }

    /// The contexts behind the byte of each position in which a match may end there.
    pub fn accepts(&self) -> &[Mask]
        ensures { result.now ≡ self.now.accepts.items }
    {
        &self.accepts
    }

    /// Which positions may follow each other.
    pub fn follows(&self) -> &FollowRows
        ensures { result.now ≡ self.now.follows }
    {
        &self.follows
    }

    /// The contexts in which the empty text matches.
    pub fn null(&self) -> Mask
        ensures { result ≡ self.now.null }
    {
        self.null
    }

    /// Whether the expression has an assertion.
    pub fn has_assertion(&self) -> bool
        ensures { result ≡ self.now.has_assertion }
    {
        self.has_assertion
    }

    /// How many bytes the tables take: at most 404 KiB, whatever the expression.
    pub fn tables_len(&self) -> usize
        ensures len { result ≡ 40 * vec_len self.now.sets + vec_len self.now.follows.bits }
        ensures few { result ≤ 413696 }
    {
        POSITION_LEN * self.sets.len() + self.follows.len()
    }
}
