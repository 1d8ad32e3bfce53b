//! The nodes of a forest, as tables.

use hs_base::{ByteSet, Mask};
use hs_waking::PrevSet;

/// The most bytes of an expression that looks back.
pub const MAX_LOOK_BACK: usize = 16;
/// The most bytes of the region of its engine.
pub const MAX_LOOK_BACK_REGION: usize = 64;

/// An expression that looks back, directly before a literal. Nothing is kept of either: where the literal ends, the
/// expression is asked anew, from the bytes before the literal.
#[derive(Clone, Copy, Debug)]
pub struct LookBackPair {
    /// The engine of the expression, by its number.
    pub engine: u32,
    /// The contexts in which the expression has the empty span, if there are any.
    pub null: Option<Mask>,
    /// What may stand before a match of the expression.
    pub behind: PrevSet,
    /// The bytes that may be the last one of a match.
    pub last: ByteSet,
    /// The literal, by its number.
    pub literal: u32,
    /// How many bytes the literal has.
    pub len: u8,
}

/// What a node runs, by its number among the engines or the literals of its table.
#[derive(Clone, Copy, Debug)]
pub enum NodeKind {
    /// An engine, with its field; and the contexts in which its piece has the empty span, if there are any.
    Engine(u32, Option<Mask>),
    /// A literal of so many bytes behind other pieces, with a bit for each of its entries that still counts.
    Literal(u32, u8),
    /// A literal of so many bytes that is a first piece: it is entered everywhere, and nothing is kept of it.
    FirstLiteral(u32, u8),
    /// The first two pieces of a chain at once, of which the first one looks back. It has no parent.
    LookBack(LookBackPair),
}

/// A node: a piece behind others. Equal pieces behind equal ones are one node.
#[derive(Clone, Copy, Debug)]
pub struct Node {
    /// The node of the pieces before it, if there are any.
    pub parent: Option<u32>,
    /// What runs its piece.
    pub kind: NodeKind,
    /// Where in the region what is kept of it begins.
    pub start: u32,
    /// Where it ends.
    pub end: u32,
}

/// The nodes of a forest, each behind its parent, and what they run.
#[derive(Debug, Drop)]
pub struct NodeTable<E> {
    /// The nodes.
    pub nodes: Vec<Node>,
    /// Where in the list of children those of each node begin; behind these, where the last one's end.
    pub child_starts: Vec<u32>,
    /// The children of all nodes.
    pub children: Vec<u32>,
    /// The engines that nodes name.
    pub engines: Vec<E>,
}
