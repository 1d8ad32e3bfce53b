//! The role of one piece.

ghost use Rattle.std.specs.Prelude.{◌≡◌, ◌^◌, ◌<◌};

use crate::kind::Kind;
use hs_base::{ExprId, Mask};

/// What runs one piece of one chain of a list.
#[derive(Clone, Copy, Debug)]
pub struct Role {
    pub(crate) min_offset: u64,
    pub(crate) max_offset: u64,
    /// The number of the literal or of the engine.
    pub(crate) number: usize,
    pub(crate) entry: u32,
    pub(crate) chain: u32,
    pub(crate) piece: u32,
    pub(crate) id: ExprId,
    /// The contexts in which the piece has the empty span.
    pub(crate) null: Mask,
    pub(crate) field_size: u16,
    pub(crate) kind: Kind,
}

impl Role {
    ghost use Rattle.hs_rose.specs.Naming.{literal_of, engine_of};

    /// The number of the entry in the list, from 1.
    pub fn entry(&self) -> u32
        ensures { result ≡ self.now.entry }
    {
        self.entry
    }

    /// The number of the chain among those of the entry, from 1.
    pub fn chain(&self) -> u32
        ensures { result ≡ self.now.chain }
    {
        self.chain
    }

    /// The number of the piece in the chain, from 1.
    pub fn piece(&self) -> u32
        ensures { result ≡ self.now.piece }
    {
        self.piece
    }

    /// The identifier that the entry is reported with.
    pub fn id(&self) -> ExprId
        ensures { result ≡ self.now.id }
    {
        self.id
    }

    /// The least offset in bytes at which a match of the entry may end.
    pub fn min_offset(&self) -> u64
        ensures { result ≡ self.now.min_offset }
    {
        self.min_offset
    }

    /// The greatest offset in bytes at which a match of the entry may end.
    pub fn max_offset(&self) -> u64
        ensures { result ≡ self.now.max_offset }
    {
        self.max_offset
    }

    /// What is kept of the piece.
    pub fn kind(&self) -> Kind
        ensures { result ≡ self.now.kind }
    {
        self.kind
    }

    /// The length in bytes of what is kept of the piece.
    pub fn field_size(&self) -> usize
        ensures is { result ≡ self.now.field_size }
        ensures small { result < 2 ^ 16 }
    {
        self.field_size as usize
    }

    /// The number of the piece among the program's literals, or that of its engine among the engines.
    pub fn number(&self) -> usize
        ensures { result ≡ self.now.number }
    {
        self.number
    }

    /// The number of the piece among the program's literals, if it is one.
    pub fn literal(&self) -> Option<usize>
        ensures { result ≡ literal_of self.now }
    {
        if self.kind.is_literal() {
            Some(self.number)
        } else {
            None
        }
    }

    /// The number of the piece's engine among those of the program, if it isn't a literal.
    pub fn engine(&self) -> Option<usize>
        ensures { result ≡ engine_of self.now }
    {
        if self.kind.is_literal() {
            None
        } else {
            Some(self.number)
        }
    }

    /// The contexts in which the piece has the empty span; of a literal none.
    pub fn null(&self) -> Mask
        ensures { result ≡ self.now.null }
    {
        self.null
    }
}
