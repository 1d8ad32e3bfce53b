//! The graph of nodes that runs a list.

ghost use Rattle.std.specs.Prelude.{◌≡◌, ◌<◌, length, Some, slice_get};

use crate::openings::Openings;
use crate::table::NodeTable;
use crate::wake_table::WakeTable;
use hs_reports::{Identifier, Terminal};

/// A field of the region that is the same as that of a node.
#[derive(Clone, Copy, Debug, PartialEq, Eq)]
pub struct FieldCopy {
    /// The number of the node.
    pub node: u32,
    /// The number of the field among those of the layout.
    pub field: u32,
}

/// Copies by the nodes that they are of.
#[derive(Drop)]
pub struct NodeCopies {
    /// Where in the list those of each node begin; behind these, where the last one's end.
    pub starts: Vec<u32>,
    /// The numbers of all copies.
    pub numbers: Vec<u32>,
}

/// The graph that runs a list: a node for each beginning of a chain, and what tells where matches end.
#[derive(Drop)]
pub struct Graph<E> {
    /// The nodes, and the engines that they name.
    pub table: NodeTable<E>,
    /// The identifiers of the list, rising.
    pub identifiers: Vec<Identifier>,
    /// Where the chains of the list end, by rising node. A chain of no pieces ends at the number of the nodes.
    pub terminals: Vec<Terminal>,
    /// Where in the list of terminals those of each node begin, then where those of the chains of no pieces do, and
    /// where these end.
    pub terminal_starts: Vec<u32>,
    /// The fields that are the same as a node's, by rising field: a node keeps its bytes in one field alone.
    pub copies: Vec<FieldCopy>,
    /// The same copies by node.
    pub node_copies: NodeCopies,
    /// The nodes that a chunk may wake.
    pub wakes: WakeTable,
    /// The chains that begin where the stream does.
    pub openings: Openings,
}

/// The copy of that number.
pub fn copy_at<E>(graph: &Graph<E>, i: usize) -> FieldCopy
    requires { i < length graph.now.copies.items }
    ensures { slice_get graph.now.copies.items i ≡ Some result }
{
    graph.copies[i]
}
