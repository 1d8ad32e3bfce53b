//! The graph of a program.

ghost use Rattle.std.specs.Prelude.{◌≡◌, ◌<◌, ◌^◌, IfOk, length, map};
ghost use Rattle.hs_base.specs.LiteralView.{literal_bytes};
ghost use Rattle.hs_compile.specs.GraphBuilding.{AreParts, HasNoOpenings, IsGraphOf, same_identifier};
ghost use Rattle.hs_compile.specs.GraphLaws.{RunsPlans};
ghost use Rattle.hs_compile.specs.GraphSteps.{IsForestFor};
ghost use Rattle.hs_compile.specs.GraphTables.{IsLaidFor, IsProgram, IsReady};
ghost use Rattle.hs_nodes.specs.Graphs.{IsGraphSound};
ghost use Rattle.hs_rose.specs.PieceEngines.{piece_meaning};

use crate::graph_numbers::graph_number;
use crate::graph_terminals::ChainEnds;
use crate::graph_wakes::wake_table;
use crate::node_lists::{NodeLists, copies_by_node};
use crate::step::Step;
use crate::steps::Steps;
use hs_base::LitByte;
use hs_bits::MarkSet;
use hs_forest::Forest;
use hs_layout::Layout;
use hs_nodes::{Graph, NodeCopies, NodeTable, Openings, WakeTable, idle_engines};
use hs_reports::Identifier;
use hs_rose::{PieceEngine, Program};
use std::alloc::{AllocError, Global};

/// The identifiers as reports have them.
fn report_identifiers(
    alloc: Global,
    identifiers: &[hs_rose::Identifier],
) -> Result<Vec<Identifier>, AllocError>
    ensures { IfOk result (λ own. own.items ≡ map same_identifier identifiers.now) }
{
    identifiers
        .iter()
        .map(|x| Identifier {
            id: x.id,
            single: x.single,
        })
        .collect(alloc)
}

/// The nodes of a program, their children, and the terminals of its chains.
#[derive(Drop)]
pub(crate) struct GraphParts {
    /// The nodes and the copies of their fields.
    pub nodes: NodeLists,
    /// Where in the list of children those of each node begin; behind these, where the last one's end.
    pub child_starts: Vec<u32>,
    /// The children of all nodes.
    pub children: Vec<u32>,
    /// The terminals.
    pub ends: ChainEnds,
}

/// The parts of the graph of a program of which those are the steps, and that the forest of their keys.
fn parts_of(
    alloc: Global,
    program: &Program,
    layout: &Layout,
    steps: &[Step],
    forest: &Forest,
) -> Result<GraphParts, AllocError>
    requires ready { IsReady program.now }
    requires fits { IsLaidFor program.now layout.now }
    requires are { IsForestFor program.now steps.now forest.now }
    ensures { IfOk result (λ parts. AreParts program.now layout.now parts) }
{
    let nodes = NodeLists::of_steps(alloc, steps, forest, layout)?;
    let ends = ChainEnds::of_program(alloc, program, forest)?;
    let child_starts = Vec::from_slice(alloc, forest.child_starts())?;
    let children = Vec::from_slice(alloc, forest.children())?;
    Ok(GraphParts {
        nodes,
        child_starts,
        children,
        ends,
    })
}

/// The nodes, children and terminals of a program, for regions of that layout.
fn built(alloc: Global, program: &Program, layout: &Layout) -> Result<GraphParts, AllocError>
    requires ready { IsReady program.now }
    requires fits { IsLaidFor program.now layout.now }
    ensures { IfOk result (λ parts. AreParts program.now layout.now parts) }
{
    let steps = Steps::of_program(alloc, program)?;
    parts_of(alloc, program, layout, &steps.list, &steps.forest)
}

/// No chain that begins where the stream does, of so many nodes that name so many literals.
fn no_openings(alloc: Global, nodes: usize, literals: u32) -> Result<Openings, AllocError>
    requires { nodes < 2 ^ 32 }
    ensures { IfOk result (HasNoOpenings nodes literals) }
{
    Ok(Openings {
        nodes: MarkSet::new(alloc, nodes)?,
        others: literals,
    })
}

/// The graph of these parts, and the literals that its nodes name. What else the program has is given back.
fn graph_of(
    parts: GraphParts,
    program: Program,
    identifiers: Vec<Identifier>,
    node_copies: NodeCopies,
    wakes: WakeTable,
    openings: Openings,
) -> (Graph<PieceEngine>, Vec<Vec<LitByte>>)
    requires { identifiers.items ≡ map same_identifier program.identifiers }
    ensures is { IsGraphOf program parts result.0 }
    ensures node_copies { result.0.node_copies ≡ node_copies }
    ensures wakes { result.0.wakes ≡ wakes }
    ensures openings { result.0.openings ≡ openings }
    ensures literals { map literal_bytes result.1.items ≡ program.literals }
{
    let (literals, engines) = program.into_named();
    let GraphParts {
        nodes: lists,
        child_starts,
        children,
        ends,
    } = parts;
    let NodeLists { nodes, copies } = lists;
    let ChainEnds { terminals, starts } = ends;
    let graph = Graph {
        table: NodeTable {
            nodes,
            child_starts,
            children,
            engines,
        },
        identifiers,
        terminals,
        terminal_starts: starts,
        copies,
        node_copies,
        wakes,
        openings,
    };
    (graph, literals)
}

/// The graph of the program of a list, for regions of that layout: a node for each beginning of a chain, once for all
/// roles whose chains are equal up to them, but none for one that ends with a piece that looks back. The program's
/// literals are those of the graph, and are given with it; what else the program has is given back. The only error is
/// want of memory; as such counts also that there are more nodes, terminals or literals than 32 bits can number.
pub(crate) fn build_graph(
    alloc: Global,
    program: Program,
    layout: &Layout,
) -> Result<(Graph<PieceEngine>, Vec<Vec<LitByte>>), AllocError>
    requires built { IsProgram program }
    requires fits { IsLaidFor program layout.now }
    ensures runs { IfOk result (λ (graph, literals). RunsPlans program graph) }
    ensures sound { IfOk result (λ (graph, literals).
        IsGraphSound piece_meaning graph program.literals layout.now) }
    ensures literals { IfOk result (λ (graph, literals). map literal_bytes literals.items ≡ program.literals) }
{
    let literals = graph_number(program.literals().len())?;
    let parts = built(alloc, &program, layout)?;
    let wakes = wake_table(
        alloc,
        &parts.nodes.nodes,
        literals as usize,
        program.engines(),
    )?;
    let node_copies = copies_by_node(alloc, &parts.nodes)?;
    let identifiers = report_identifiers(alloc, program.identifiers())?;
    idle_engines(alloc, program.engines())?;
    let openings = no_openings(alloc, parts.nodes.nodes.len(), literals)?;
    Ok(graph_of(parts, program, identifiers, node_copies, wakes, openings))
}
