//! The nodes of a program's roles.

ghost use Rattle.std.specs.Prelude.{◌≡◌, ◌+◌, ◌<◌, ◌≤◌, ℕ, [], length, IfOk, Some, slice_get};
ghost use Rattle.hs_compile.specs.GraphBuilding.{AreAllNodes};
ghost use Rattle.hs_compile.specs.GraphNodes.{AreCopiedNodesThere, IsStepAdded, nodes_copied};
ghost use Rattle.hs_compile.specs.GraphSteps.{IsForestFor};
ghost use Rattle.hs_compile.specs.GraphTables.{IsLaidFor, IsReady};
ghost use Rattle.hs_compile.specs.Sizes.{greatest_size};
ghost use Rattle.hs_compile.specs.declared.step.Step.{Step};
ghost use Rattle.hs_layout.specs.Layouts.{laid_size};
ghost use Rattle.hs_nodes.specs.Graphs.{AreCopiesByNode, keeps_field};
ghost use Rattle.hs_rose.specs.Programs.{Tables};

use crate::step::Step;
use hs_forest::{Forest, group};
use hs_layout::Layout;
use hs_nodes::{FieldCopy, Node, NodeCopies, NodeKind};
use std::alloc::{AllocError, Global};

/// The nodes, each once for all roles that have it, and the fields of those roles that aren't the first ones.
#[derive(Drop)]
pub(crate) struct NodeLists {
    /// The nodes, in the order of their first roles.
    pub nodes: Vec<Node>,
    /// The fields of further roles, by rising field.
    pub copies: Vec<FieldCopy>,
}

/// A node of that kind keeps something.
fn keeps(kind: NodeKind) -> bool
    ensures { result ≡ keeps_field kind }
{
    match kind {
        NodeKind::Engine(_, _) | NodeKind::Literal(_, _) => true,
        NodeKind::FirstLiteral(_, _) | NodeKind::LookBack(_) => false,
    }
}

impl NodeLists {
    /// None.
    fn new(alloc: Global) -> NodeLists
        ensures nodes { result.nodes.items ≡ [] }
        ensures copies { result.copies.items ≡ [] }
    {
        NodeLists {
            nodes: Vec::new(alloc),
            copies: Vec::new(alloc),
        }
    }

    /// Gives the role of the step the node of that number: puts it behind the others, if it is a new one, and else the
    /// role's field behind the copies, if something is kept of it.
    fn add_step(
        &mut self,
        layout: &Layout,
        step: Step,
        parent: Option<u32>,
        number: u32,
    ) -> Result<(), AllocError>
        requires there { step.role + 1 < length layout.now.starts }
        requires small { laid_size layout.now ≤ greatest_size }
        ensures { IfOk result (λ done. IsStepAdded layout.now step parent number self.old self.new) }
    {
        let role = step.role as usize;
        if number as usize == self.nodes.len() {
            self.nodes.push(Node {
                parent,
                kind: step.kind,
                start: layout.place(role) as u32,
                end: layout.place(role + 1) as u32,
            })?;
            return Ok(());
        }
        if keeps(step.kind) {
            self.copies.push(FieldCopy {
                node: number,
                field: step.role,
            })?;
        }
        Ok(())
    }

    /// The nodes of the roles of all steps, as the forest of the keys of their chains has them.
    pub fn of_steps(
        alloc: Global,
        steps: &[Step],
        forest: &Forest,
        layout: &Layout,
    ) -> Result<NodeLists, AllocError>
        requires count { length steps.now ≡ length forest.now.nodes }
        requires there { (k : ℕ) (step : Step) → slice_get steps.now k ≡ Some step →
            step.role + 1 < length layout.now.starts }
        requires small { laid_size layout.now ≤ greatest_size }
        ensures { IfOk result (λ lists. (t : Tables) (f : IsForestFor t steps.now forest.now) →
            IsReady t → AreAllNodes t layout.now forest.now.parents f.forest_is.paths lists) }
    {
        let parents = forest.parents();
        let numbers = forest.nodes();
        let mut lists = NodeLists::new(alloc);
        for k in 0..steps.len() {
            let number = numbers[k];
            lists.add_step(layout, steps[k], parents[number as usize], number)?;
        }
        Ok(lists)
    }
}

/// The copies by the nodes that they are of.
pub(crate) fn copies_by_node(alloc: Global, lists: &NodeLists) -> Result<NodeCopies, AllocError>
    requires { AreCopiedNodesThere lists.now }
    ensures { IfOk result (AreCopiesByNode lists.now.copies.items (length lists.now.nodes.items)) }
{
    let owners = copied_nodes(alloc, &lists.copies)?;
    let groups = group(alloc, &owners, lists.nodes.len())?;
    Ok(NodeCopies {
        starts: groups.starts,
        numbers: groups.list,
    })
}

/// The nodes that the copies are of.
fn copied_nodes(alloc: Global, copies: &[FieldCopy]) -> Result<Vec<Option<u32>>, AllocError>
    ensures { IfOk result (λ nodes. nodes.items ≡ nodes_copied copies.now) }
{
    copies.iter().map(|copy| Some(copy.node)).collect(alloc)
}
