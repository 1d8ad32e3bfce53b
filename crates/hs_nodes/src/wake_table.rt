//! What tells which nodes a chunk wakes.

use hs_base::ByteSet;
use hs_waking::WakeRow;

/// The nodes that a chunk may wake though nothing is live in them: by literal, and those of engines that are entered
/// everywhere.
#[derive(Debug, Drop)]
pub struct WakeTable {
    /// Where in the list of nodes those of each literal begin; behind these, where the last one's end.
    pub literal_starts: Vec<u32>,
    /// The nodes that a literal wakes where it ends, by literal: first literals, and those behind an expression that
    /// looks back.
    pub literal_nodes: Vec<u32>,
    /// The nodes of engines that have no parent.
    pub first_engines: Vec<u32>,
    /// Where in the list of rows those of each of these engines begin; behind these, where the last one's end.
    pub row_starts: Vec<u32>,
    /// What wakes these engines: one of an engine's rows.
    pub rows: Vec<WakeRow>,
    /// The sets of all rows.
    pub sets: Vec<ByteSet>,
}
