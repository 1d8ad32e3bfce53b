//! The terminals of a graph, by node.

ghost use Rattle.std.specs.Prelude.{◌≡◌, ◌+◌, ◌<◌, ◌^◌, ℕ, length, IfOk, Some, slice_get};
ghost use Rattle.hs_base.specs.Lists.{Each};
ghost use Rattle.hs_compile.specs.GraphBuilding.{AreAllEnds};
ghost use Rattle.hs_compile.specs.GraphEnds.{AreTerminalsOf, AsksFor, IsTerminalOf, end_node, end_nodes};
ghost use Rattle.hs_compile.specs.GraphSteps.{IsForestFor};
ghost use Rattle.hs_compile.specs.GraphTables.{IsReady};
ghost use Rattle.hs_compile.specs.declared.step.Step.{Step};
ghost use Rattle.std.specs.Prelude.{List};

use crate::graph_numbers::graph_number;
use crate::graph_tables::{chain_at, info_of};
use hs_forest::{Forest, group};
use hs_reports::Terminal;
use hs_rose::Program;
use std::alloc::{AllocError, Global};

/// Where the chains of a program end.
#[derive(Drop)]
pub(crate) struct ChainEnds {
    /// A terminal for each chain, by rising node.
    pub terminals: Vec<Terminal>,
    /// Where in the list of terminals those of each node begin, then where those of the chains of no pieces do, and
    /// where these end.
    pub starts: Vec<u32>,
}

/// The node at which a chain ends that has that last one; there are so many nodes.
fn node_or_count(last: Option<u32>, count: u32) -> u32
    ensures { result ≡ end_node count last }
{
    match last {
        Some(node) => node,
        None => count,
    }
}

/// The nodes at which the chains end; there are so many nodes.
fn nodes_of_chains(
    alloc: Global,
    lasts: &[Option<u32>],
    count: u32,
) -> Result<Vec<Option<u32>>, AllocError>
    ensures { IfOk result (λ nodes. nodes.items ≡ end_nodes count lasts.now) }
{
    lasts
        .iter()
        .map(|last| Some(node_or_count(*last, count)))
        .collect(alloc)
}

/// The terminal of the chain of that number.
fn terminal_of(program: &Program, lasts: &[Option<u32>], count: u32, number: usize) -> Terminal
    requires ready { IsReady program.now }
    requires there { number < length program.now.chains }
    requires same { length lasts.now ≡ length program.now.chains }
    ensures { IsTerminalOf program.now lasts.now count number result }
{
    let chain = chain_at(program, number);
    let info = info_of(program, &chain);
    Terminal {
        identifier: info.identifier,
        node: node_or_count(lasts[number], count),
        least: info.min_offset,
        greatest: info.max_offset,
    }
}

/// The terminals of the chains of those numbers.
fn terminals_of(
    alloc: Global,
    program: &Program,
    lasts: &[Option<u32>],
    count: u32,
    numbers: &[u32],
) -> Result<Vec<Terminal>, AllocError>
    requires ready { IsReady program.now }
    requires there { Each (λ number. number < length program.now.chains) numbers.now }
    requires same { length lasts.now ≡ length program.now.chains }
    ensures { IfOk result (λ terminals. AreTerminalsOf program.now lasts.now count numbers.now terminals.items) }
{
    let mut terminals = Vec::new(alloc);
    for k in 0..numbers.len() {
        let number = numbers[k] as usize;
        terminals.push(terminal_of(program, lasts, count, number))?;
    }
    Ok(terminals)
}

impl ChainEnds {
    /// The terminals of all chains, by rising node.
    pub fn of_program(
        alloc: Global,
        program: &Program,
        forest: &Forest,
    ) -> Result<ChainEnds, AllocError>
        requires ready { IsReady program.now }
        requires same { length forest.now.last_nodes ≡ length program.now.chains }
        ensures few { IfOk result (λ ends. length forest.now.parents < 2 ^ 32) }
        ensures are { IfOk result (λ ends. (steps : List Step) (f : IsForestFor program.now steps forest.now) →
            AreAllEnds program.now f.forest_is.paths (length forest.now.parents) ends) }
    {
        let count = graph_number(forest.parents().len())?;
        let lasts = forest.last_nodes();
        let nodes = nodes_of_chains(alloc, lasts, count)?;
        let groups = group(alloc, &nodes, count as usize + 1)?;
        let terminals = terminals_of(alloc, program, lasts, count, &groups.list)?;
        Ok(ChainEnds {
            terminals,
            starts: groups.starts,
        })
    }
}
