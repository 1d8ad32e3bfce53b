//! A role that has a node, and the key of what it runs.

ghost use Rattle.std.specs.Prelude.{◌≡◌, ◌^◌, ◌<◌, IfOk};
ghost use Rattle.hs_compile.specs.GraphSteps.{IsKeyOf, key_group, key_number};

use crate::graph_numbers::graph_number;
use hs_nodes::NodeKind;
use std::alloc::AllocError;

/// How many keys a group has room for.
const KEYS_OF_GROUP: usize = 4_294_967_296;

/// A role that has a node, by its number, and the kind of that.
#[derive(Clone, Copy, Debug)]
pub(crate) struct Step {
    pub role: u32,
    pub kind: NodeKind,
}

/// The group of the key of a kind. One that is too large for a number of the graph is want of memory too.
fn group_of(kind: NodeKind) -> Result<u32, AllocError>
    ensures { IfOk result (λ group. group ≡ key_group kind) }
{
    match kind {
        NodeKind::FirstLiteral(_, _) => Ok(0),
        NodeKind::Literal(_, _) => Ok(1),
        NodeKind::Engine(_, _) => Ok(2),
        NodeKind::LookBack(pair) => graph_number(pair.engine as usize + 3),
    }
}

/// The number of the key of a kind in its group.
fn number_of(kind: NodeKind) -> u32
    ensures { result ≡ key_number kind }
{
    match kind {
        NodeKind::FirstLiteral(number, _) => number,
        NodeKind::Literal(number, _) => number,
        NodeKind::Engine(number, _) => number,
        NodeKind::LookBack(pair) => pair.literal,
    }
}

/// The key of what a node of that kind runs: kinds with one key run equal pieces.
pub(crate) fn key_of(kind: NodeKind) -> Result<usize, AllocError>
    ensures { IfOk result (λ key. IsKeyOf kind key) }
{
    let group = group_of(kind)?;
    Ok(group as usize * KEYS_OF_GROUP + number_of(kind) as usize)
}
