//! Laws of nodes: functions that do nothing, whose contracts state them.

ghost use Rattle.hs_nodes.specs.Resting.{RestingNodesMayRest, RestingNodesStay};

use crate::table::NodeTable;
use hs_block::BlockEngine;

/// Nodes in which nothing is live may be passed over in a chunk that doesn't wake them, and stay so behind it.
pub fn resting_nodes<E: BlockEngine>(table: &NodeTable<E>)
    ensures may { RestingNodesMayRest E.meaning table.now }
    ensures stay { RestingNodesStay E.meaning table.now }
{
    let _ = table;
}
